//! The options that a source may set.

ghost use Rattle.std.specs.Prelude.{◌≡◌};
ghost use Rattle.pbx_parse_tree.specs.Options.{known as known_of, known_option as known_option_of, field_option as field_option_of, enum_option as enum_option_of, file_text as file_text_of, file_flag as file_flag_of, file_option as file_option_of, only_deprecated as only_deprecated_of, optimize_mode as optimize_mode_of};

/// What an option is set for.
#[derive(Clone, Copy, Debug, PartialEq, Eq)]
pub enum OptionPlace {
    File,
    Message,
    Field,
    Enum,
    EnumValue,
    Service,
    Method,
}

/// What sort of value an option takes.
#[derive(Clone, Copy, Debug, PartialEq, Eq)]
pub enum OptionKind {
    /// `true` or `false`
    Bool,
    /// A string in UTF-8.
    Text,
    /// The name of a value of `FileOptions.OptimizeMode`.
    OptimizeMode,
}

/// An option that the language knows.
#[derive(Clone, Copy, Debug, PartialEq, Eq)]
pub struct KnownOption {
    /// Its number in the options record.
    pub number: u32,
    pub kind: OptionKind,
}

fn known(number: u32, kind: OptionKind) -> Option<KnownOption>
    ensures { result ≡ known_of number kind }
{
    Some(KnownOption { number, kind })
}

fn only_deprecated(number: u32, name: &str) -> Option<KnownOption>
    ensures { result ≡ only_deprecated_of number name.now }
{
    if name == "deprecated" {
        known(number, OptionKind::Bool)
    } else {
        None
    }
}

fn field_option(name: &str) -> Option<KnownOption>
    ensures { result ≡ field_option_of name.now }
{
    if name == "packed" {
        known(2, OptionKind::Bool)
    } else {
        only_deprecated(3, name)
    }
}

fn enum_option(name: &str) -> Option<KnownOption>
    ensures { result ≡ enum_option_of name.now }
{
    if name == "allow_alias" {
        known(2, OptionKind::Bool)
    } else {
        only_deprecated(3, name)
    }
}

fn file_text(name: &str) -> Option<KnownOption>
    ensures { result ≡ file_text_of name.now }
{
    match name {
        "java_package" => known(1, OptionKind::Text),
        "java_outer_classname" => known(8, OptionKind::Text),
        "go_package" => known(11, OptionKind::Text),
        "objc_class_prefix" => known(36, OptionKind::Text),
        "csharp_namespace" => known(37, OptionKind::Text),
        "swift_prefix" => known(39, OptionKind::Text),
        "php_class_prefix" => known(40, OptionKind::Text),
        "php_namespace" => known(41, OptionKind::Text),
        "php_metadata_namespace" => known(44, OptionKind::Text),
        "ruby_package" => known(45, OptionKind::Text),
        _ => None,
    }
}

fn file_flag(name: &str) -> Option<KnownOption>
    ensures { result ≡ file_flag_of name.now }
{
    match name {
        "java_multiple_files" => known(10, OptionKind::Bool),
        "cc_generic_services" => known(16, OptionKind::Bool),
        "java_generic_services" => known(17, OptionKind::Bool),
        "py_generic_services" => known(18, OptionKind::Bool),
        "java_generate_equals_and_hash" => known(20, OptionKind::Bool),
        "java_string_check_utf8" => known(27, OptionKind::Bool),
        "cc_enable_arenas" => known(31, OptionKind::Bool),
        "php_generic_services" => known(42, OptionKind::Bool),
        _ => only_deprecated(23, name),
    }
}

fn file_option(name: &str) -> Option<KnownOption>
    ensures { result ≡ file_option_of name.now }
{
    if name == "optimize_for" {
        return known(9, OptionKind::OptimizeMode);
    }
    match file_text(name) {
        Some(option) => Some(option),
        None => file_flag(name),
    }
}

/// The option of this name at the place. `default` and `json_name` of a field are none: the record of a field
/// has fields of its own for them.
pub fn known_option(place: OptionPlace, name: &str) -> Option<KnownOption>
    ensures { result ≡ known_option_of place name.now }
{
    match place {
        OptionPlace::File => file_option(name),
        OptionPlace::Message => only_deprecated(3, name),
        OptionPlace::Field => field_option(name),
        OptionPlace::Enum => enum_option(name),
        OptionPlace::EnumValue => only_deprecated(1, name),
        OptionPlace::Service | OptionPlace::Method => only_deprecated(33, name),
    }
}

/// The number of a value of `FileOptions.OptimizeMode`.
pub fn optimize_mode(name: &str) -> Option<u32>
    ensures { result ≡ optimize_mode_of name.now }
{
    match name {
        "SPEED" => Some(1),
        "CODE_SIZE" => Some(2),
        "LITE_RUNTIME" => Some(3),
        _ => None,
    }
}
