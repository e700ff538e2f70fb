//! What the grammar does not say of a tree, as tests of its parts.

ghost use Rattle.std.specs.Prelude.{◌≡◌, map, option_map, true, false, IfOk, IfErr};
ghost use Rattle.pbx_parse_tree.specs.Conditions.{type_fits as type_fits_of, is_key as is_key_of, is_text as is_text_of, is_true_or_false as is_true_or_false_of, is_of_kind as is_of_kind_of, option_fits as option_fits_of, default_fits as default_fits_of, map_setting_fits as map_setting_fits_of, field_setting_fits as field_setting_fits_of, lacks as lacks_of, settings_of as some_settings_of};
ghost use Rattle.pbx_parse_tree.specs.Words.{is_scalar_word as is_scalar_word_of};
ghost use Rattle.pbx_parse_tree.specs.View.{name_of, literal_of, type_of, kind_of, constant_of, setting_of, settings_of};
ghost use Rattle.pbx_parse_token.specs.declared.token.Span.{Span};
ghost use Rattle.pbx_parse_tree.specs.Tree as tree;
ghost use Rattle.pbx_parse_tree.specs.Fits.{Fits, allowed as allowed_of, may_follow, wanted_fits, if_wanted, named_fits};

use crate::options::{KnownOption, OptionKind, OptionPlace, known_option, optimize_mode};
use crate::tree::{Constant, Kind, Literal, Name, Scalar, Setting, Settings, TypeName};
use pbx_parse_token::Span;
use std::alloc::{AllocError, Global};

/// What could stand where something cannot.
#[derive(Clone, Copy, Debug, PartialEq, Eq)]
pub enum Expected {
    Identifier,
    Integer,
    FieldNumber,
    /// A number in a range of a message.
    RangeNumber,
    /// The number of an enum's value, or one in a range of an enum.
    EnumNumber,
    /// What a range may end with.
    RangeEnd,
    /// What an option may be set to.
    Constant,
    String,
    /// A string whose bytes are UTF-8.
    Text,
    ImportName,
    Type,
    /// The type of a map's key.
    KeyType,
    /// What a field begins with in a file whose fields have labels.
    Label,
    Bool,
    /// The name of a value of `FileOptions.OptimizeMode`.
    OptimizeMode,
    /// An option of the place.
    KnownOption,
    /// An option that is not set earlier at the same place.
    UnsetOption,
    /// An option of the place, where a custom one stands.
    NoCustomOption,
    /// An option of the place, where the one of message sets stands.
    NoMessageSet,
    /// An option of the place, where the default of a float stands.
    NoFloatDefault,
    /// What a field ends with, where a group begins.
    NoGroup,
    /// What stands behind a field's name, where its type is a word that may be a label.
    NoLabel,
    /// A field's name, where a map begins that cannot stand there.
    NoMap,
    /// What may stand behind a range, where options of it begin.
    NoRangeOptions,
    /// No package after the first.
    OnePackage,
    /// The string that names a version of the language.
    Version,
    /// A keyword with which what stands there begins.
    Keyword,
    /// What stands at the top of a file.
    Top,
    /// What stands at the top of a file, where an edition stands.
    NoEdition,
    /// A message that is not nested too deep.
    Level,
    /// What stands in a service.
    ServiceItem,
    /// What stands in the block of a method.
    MethodItem,
    /// What stands between the types of a method.
    Returns,
    /// What a method ends with.
    MethodEnd,
    /// One of the marks.
    Mark(u8),
}

/// The words of a mark.
fn mark_words(mark: u8) -> &'static str {
    match mark {
        b';' => "';'",
        b'{' => "'{'",
        b'}' => "'}'",
        b'[' => "'['",
        b']' => "']'",
        b'(' => "'('",
        b')' => "')'",
        b'<' => "'<'",
        b'>' => "'>'",
        b'=' => "'='",
        b',' => "','",
        b'.' => "'.'",
        b'-' => "'-'",
        _ => "a mark",
    }
}

impl Expected {
    /// What a message says of it.
    pub fn words(&self) -> &'static str {
        match *self {
            Expected::Identifier => "an identifier",
            Expected::Integer => "an integer",
            Expected::FieldNumber => "a field number",
            Expected::RangeNumber => "a number of at most 536870911",
            Expected::EnumNumber => "a 32-bit integer",
            Expected::RangeEnd => "an integer or 'max'",
            Expected::Constant => "an integer, an identifier or a string",
            Expected::String => "a string",
            Expected::Text => "a string in UTF-8",
            Expected::ImportName => "an import name in quotes",
            Expected::Type => "a type",
            Expected::KeyType => "an integer type, 'bool' or 'string'",
            Expected::Label => {
                "'optional', 'required' or 'repeated' (a file without a syntax statement is proto2)"
            }
            Expected::Bool => "'true' or 'false'",
            Expected::OptimizeMode => "'SPEED', 'CODE_SIZE' or 'LITE_RUNTIME'",
            Expected::KnownOption => "a known option (only some options are supported here)",
            Expected::UnsetOption => "an option that is not set yet",
            Expected::NoCustomOption => "a known option (custom options are not supported)",
            Expected::NoMessageSet => "a known option (message sets are not supported)",
            Expected::NoFloatDefault => {
                "a known option (defaults of 'float' and 'double' are not supported)"
            }
            Expected::NoGroup => "';' (groups are not supported)",
            Expected::NoLabel => "'=' (a field has at most one label, and none in a oneof)",
            Expected::NoMap => {
                "an identifier (a map field has no label, and stands directly in a message)"
            }
            Expected::NoRangeOptions => "',' or ';' (options of ranges are not supported)",
            Expected::OnePackage => "no second package",
            Expected::Version => "\"proto2\" or \"proto3\"",
            Expected::Keyword => "a keyword",
            Expected::Top => "';' or a keyword that begins a statement",
            Expected::NoEdition => {
                "';' or a keyword that begins a statement (editions are not supported)"
            }
            Expected::Level => "a message of at most 31 levels",
            Expected::ServiceItem => "';', 'rpc', 'option' or '}'",
            Expected::MethodItem => "';', 'option' or '}'",
            Expected::Returns => "'returns'",
            Expected::MethodEnd => "';' or '{'",
            Expected::Mark(mark) => mark_words(mark),
        }
    }
}

/// What may be set in a list of options.
#[derive(Clone, Copy)]
pub enum Allowed<'k, 'a> {
    /// What a field of the kind has.
    Field(&'k Kind<'a>),
    /// What a map has.
    Map,
    /// The options of the place.
    Option(OptionPlace),
}

/// What a setting may be set to.
#[derive(Clone, Copy)]
pub enum Wanted<'k, 'a> {
    /// A value of the kind.
    Option(OptionKind),
    /// A default of a field of the type.
    Default(&'k Kind<'a>),
}

/// Nothing, where the test holds, else what could stand there.
fn fitting(fits: bool, expected: Expected) -> Result<(), Expected>
    ensures { Fits fits result }
{
    if fits { Ok(()) } else { Err(expected) }
}

fn is_scalar_word(text: &str) -> bool
    ensures { result ≡ is_scalar_word_of text.now }
{
    matches!(
        text,
        "double"
            | "float"
            | "int32"
            | "int64"
            | "uint32"
            | "uint64"
            | "sint32"
            | "sint64"
            | "fixed32"
            | "fixed64"
            | "sfixed32"
            | "sfixed64"
            | "bool"
            | "string"
            | "bytes"
    )
}

/// The name of a scalar type is no other type's, unless a dot stands before it.
pub fn type_fits(name: &TypeName<'_>) -> Result<(), Expected>
    ensures { Fits (type_fits_of (type_of name.now)) result }
{
    let bare = name.dot.is_none();
    fitting(
        !(bare && is_scalar_word(name.full.first.text)),
        Expected::Type,
    )
}

fn is_key(scalar: Scalar) -> bool
    ensures { result ≡ is_key_of scalar }
{
    !matches!(scalar, Scalar::Double | Scalar::Float | Scalar::Bytes)
}

/// The key of a map is an integer, a truth value or a text.
pub fn key_fits(scalar: Scalar) -> Result<(), Expected>
    ensures { Fits (is_key_of scalar) result }
{
    fitting(is_key(scalar), Expected::KeyType)
}

/// What a string stands for is a text.
pub fn text_fits(literal: &Literal<'_>) -> Result<(), Expected>
    ensures { Fits (is_text_of (literal_of literal.now)) result }
{
    fitting(literal.is_text, Expected::Text)
}

fn is_true_or_false(name: &Name<'_>) -> bool
    ensures { result ≡ is_true_or_false_of (name_of name.now) }
{
    name.text == "true" || name.text == "false"
}

fn is_of_kind(kind: OptionKind, value: &Constant<'_>) -> bool
    ensures { result ≡ is_of_kind_of kind (constant_of value.now) }
{
    match (kind, value) {
        (OptionKind::Bool, Constant::Identifier(name)) => is_true_or_false(name),
        (OptionKind::Text, Constant::String(literal)) => literal.is_text,
        (OptionKind::OptimizeMode, Constant::Identifier(name)) => optimize_mode(
            name.text,
        ).is_some(),
        _ => false,
    }
}

/// What a value of the kind is.
fn kind_expected(kind: OptionKind) -> Expected {
    match kind {
        OptionKind::Bool => Expected::Bool,
        OptionKind::Text => Expected::Text,
        OptionKind::OptimizeMode => Expected::OptimizeMode,
    }
}

/// What the default of a field of the type is.
fn default_expected(kind: &Kind<'_>) -> Expected {
    match kind {
        Kind::Scalar(Scalar::Bool, _) => Expected::Bool,
        Kind::Scalar(Scalar::String, _) => Expected::Text,
        Kind::Scalar(Scalar::Bytes, _) => Expected::String,
        Kind::Scalar(_, _) => Expected::Integer,
        Kind::Named(_) => Expected::Identifier,
    }
}

fn scalar_default_fits(scalar: Scalar, value: &Constant<'_>) -> bool
    ensures { (span : Span) → result ≡ default_fits_of (tree.scalar scalar span) (constant_of value.now) }
{
    match scalar {
        Scalar::Double | Scalar::Float => false,
        Scalar::Bool => is_of_kind(OptionKind::Bool, value),
        Scalar::String => is_of_kind(OptionKind::Text, value),
        Scalar::Bytes => matches!(value, Constant::String(_)),
        _ => matches!(value, Constant::Number(_)),
    }
}

fn default_fits(kind: &Kind<'_>, value: &Constant<'_>) -> bool
    ensures { result ≡ default_fits_of (kind_of kind.now) (constant_of value.now) }
{
    match kind {
        Kind::Scalar(scalar, _) => scalar_default_fits(*scalar, value),
        Kind::Named(_) => matches!(value, Constant::Identifier(_)),
    }
}

/// The value is one of those that are wanted.
pub fn value_fits(wanted: Wanted<'_, '_>, value: &Constant<'_>) -> Result<(), Expected>
    ensures { Fits (wanted_fits wanted.entry (constant_of value.now)) result }
{
    match wanted {
        Wanted::Option(kind) => fitting(is_of_kind(kind, value), kind_expected(kind)),
        Wanted::Default(kind) => fitting(default_fits(kind, value), default_expected(kind)),
    }
}

/// A float has no default, whatever stands there.
fn is_float(kind: &Kind<'_>) -> bool
    ensures { result ≡ true → (c : tree.Constant) → default_fits_of (kind_of kind.now) c ≡ false }
{
    matches!(kind, Kind::Scalar(Scalar::Double | Scalar::Float, _))
}

/// What an option of the name is set to, if the place has one.
fn option_wanted<'k, 'a>(place: OptionPlace, name: &Name<'_>) -> Option<Wanted<'k, 'a>>
    ensures { (equals : Span) (value : tree.Constant) → option_fits_of place (record { name = name_of name.now; equals = equals; value = value }) ≡ if_wanted result value }
{
    match known_option(place, name.text) {
        Some(option) => Some(Wanted::Option(option.kind)),
        None => None,
    }
}

/// What is set of a map by the name, if it may be.
fn map_wanted<'k, 'a>(name: &Name<'_>) -> Option<Wanted<'k, 'a>>
    ensures { (equals : Span) (value : tree.Constant) → map_setting_fits_of (record { name = name_of name.now; equals = equals; value = value }) ≡ if_wanted result value }
{
    if name.text == "json_name" {
        Some(Wanted::Option(OptionKind::Text))
    } else {
        option_wanted(OptionPlace::Field, name)
    }
}

/// What is set of a field of the type by the name, if it may be.
fn field_wanted<'k, 'a>(kind: &'k Kind<'a>, name: &Name<'_>) -> Option<Wanted<'k, 'a>>
    ensures { (equals : Span) (value : tree.Constant) → field_setting_fits_of (kind_of kind.now) (record { name = name_of name.now; equals = equals; value = value }) ≡ if_wanted result value }
{
    if name.text == "default" {
        return if is_float(kind) {
            None
        } else {
            Some(Wanted::Default(kind))
        };
    }
    map_wanted(name)
}

/// What a setting of the name is set to, if one may stand there.
fn wanted_by<'k, 'a>(allowed: Allowed<'k, 'a>, name: &Name<'_>) -> Option<Wanted<'k, 'a>>
    ensures { (equals : Span) (value : tree.Constant) → allowed_of allowed.entry (record { name = name_of name.now; equals = equals; value = value }) ≡ if_wanted result value }
{
    if let Allowed::Field(kind) = allowed {
        return field_wanted(kind, name);
    }
    if let Allowed::Option(place) = allowed {
        return option_wanted(place, name);
    }
    map_wanted(name)
}

/// No setting of the name stands here.
#[tactic(auto, unfolding(crate::specs::Conditions::lacks))]
fn lacks(name: &str, settings: &[Setting<'_>]) -> bool
    ensures { result ≡ lacks_of name.now (map setting_of settings.now) }
{
    let mut rest = settings;
    'scan: loop {
        match rest {
            [] => return true,
            [first, tail @ ..] => {
                if name == first.name.text {
                    return false;
                }
                rest = tail;
            }
        }
    }
}

/// What is said of a name that may not be set.
fn unknown(allowed: Allowed<'_, '_>, name: &Name<'_>) -> Expected {
    match (allowed, name.text) {
        (Allowed::Option(OptionPlace::Message), "message_set_wire_format") => {
            Expected::NoMessageSet
        }
        (Allowed::Field(_), "default") => Expected::NoFloatDefault,
        _ => Expected::KnownOption,
    }
}

/// The name is one that may be set there, and is not set yet; gives what it may be set to.
pub fn name_fits<'k, 'a>(
    allowed: Allowed<'k, 'a>,
    name: &Name<'_>,
    seen: &[Setting<'_>],
) -> Result<Wanted<'k, 'a>, Expected>
    ensures { (equals : Span) (value : tree.Constant) → may_follow (allowed_of allowed.entry) (map setting_of seen.now) (record { name = name_of name.now; equals = equals; value = value }) ≡ named_fits result value }
{
    let Some(wanted) = wanted_by(allowed, name) else {
        return Err(unknown(allowed, name));
    };
    if !lacks(name.text, seen) {
        return Err(Expected::UnsetOption);
    }
    Ok(wanted)
}

/// The settings in brackets.
pub fn listed<'a>(
    alloc: Global,
    settings: &Option<Settings<'a>>,
) -> Result<Vec<Setting<'a>>, AllocError>
    ensures { IfOk result (λ v. map setting_of v.items ≡ some_settings_of (option_map settings_of settings.now)) }
{
    let Some(list) = settings else {
        return Ok(Vec::new(alloc));
    };
    let set = list.settings.as_ref();
    let mut all = Vec::new(alloc);
    all.push(set.first)?;
    'each: for (_, setting) in &set.more {
        all.push(*setting)?;
    }
    Ok(all)
}
