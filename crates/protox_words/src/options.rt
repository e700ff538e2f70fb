ghost use Rattle.std.specs.Prelude.{◌≡◌, option_copied, MatchOption};
ghost use Rattle.protox_words.specs.Words.{spelled, long_spellings, short_option as short_option_in, long_option as long_option_in};
ghost use Rattle.protox_words.specs.Words.{option_in as option_of_word, some_rest as some_rest_of, behind_sign, before_sign};
ghost use Rattle.protox_words.specs.Words.{takes_value as takes_value_of, is_given as is_given_in};
ghost use Rattle.protox_words.specs.Told.{args_told, given_told};

use crate::args::Args;
use crate::json::JsonFlag;

/// What an option is for.
#[derive(Clone, Copy)]
pub(crate) enum Flag {
    Include,
    Output,
    IncludeImports,
    IncludeSourceInfo,
    DescriptorSetIn,
    Retries,
    TypeName,
    Wire,
    Generate,
    Json(JsonFlag),
}

impl Flag {
    /// Whether the option has a value.
    pub(crate) fn takes_value(self) -> bool
        ensures { result ≡ takes_value_of self }
    {
        !matches!(
            self,
            Flag::IncludeImports | Flag::IncludeSourceInfo | Flag::Json(_)
        )
    }

    /// Whether the option was given and may stand once.
    pub(crate) fn is_given(self, args: &Args<'_>) -> bool
        ensures { result ≡ is_given_in self (args_told args.now) }
    {
        match self {
            Flag::Include => false,
            Flag::Output => args.output.is_some(),
            Flag::IncludeImports => args.include_imports,
            Flag::IncludeSourceInfo => args.include_source_info,
            Flag::DescriptorSetIn => args.descriptor_set_in.is_some(),
            Flag::Retries => args.retries.is_some(),
            Flag::TypeName => args.type_name.is_some(),
            Flag::Wire => args.wire.is_some(),
            Flag::Generate => args.generate.is_some(),
            Flag::Json(flag) => args.json.has(flag),
        }
    }
}

/// An option as it is written, with the value that is attached to it.
#[derive(Clone, Copy)]
pub(crate) struct Given<'w> {
    pub(crate) flag: Flag,
    pub(crate) written: &'w str,
    pub(crate) value: Option<&'w str>,
}

/// The long option that is spelled so.
fn long_flag(written: &str) -> Option<Flag>
    ensures { result ≡ spelled long_spellings written.now }
{
    match written {
        "--include" | "--proto_path" => Some(Flag::Include),
        "--output" | "--descriptor_set_out" => Some(Flag::Output),
        "--include_imports" | "--include-imports" => Some(Flag::IncludeImports),
        "--include_source_info" | "--include-source-info" => Some(Flag::IncludeSourceInfo),
        "--descriptor_set_in" | "--descriptor-set-in" => Some(Flag::DescriptorSetIn),
        "--retries" => Some(Flag::Retries),
        "--type" => Some(Flag::TypeName),
        "--wire" => Some(Flag::Wire),
        "--generate" => Some(Flag::Generate),
        "--json_int64_numbers" => Some(Flag::Json(JsonFlag::Int64Numbers)),
        "--json_enum_numbers" => Some(Flag::Json(JsonFlag::EnumNumbers)),
        "--json_proto_names" => Some(Flag::Json(JsonFlag::ProtoNames)),
        "--json_defaults" => Some(Flag::Json(JsonFlag::Defaults)),
        _ => None,
    }
}

/// What stands before the first `=`, and behind it if there is one.
fn split_sign(word: &str) -> (&str, Option<&str>)
    ensures written { result.0.now ≡ before_sign word.now }
    ensures value { option_copied result.1 ≡ behind_sign word.now }
{
    match word.split_once('=') {
        Some((written, value)) => (written, Some(value)),
        None => (word, None),
    }
}

/// The word as a long option.
fn long_option(word: &str) -> Option<Given<'_>>
    ensures { MatchOption result (long_option_in word.now ≡ None) (λ given. long_option_in word.now ≡ Some (given_told given)) }
{
    let (written, value) = split_sign(word);
    match long_flag(written) {
        Some(flag) => Some(Given {
            flag,
            written,
            value,
        }),
        None => None,
    }
}

/// The rest of a word, if there is some.
fn some_rest(rest: &str) -> Option<&str>
    ensures { option_copied result ≡ some_rest_of rest.now }
{
    if rest.is_empty() { None } else { Some(rest) }
}

/// The word as a short option.
fn short_option(word: &str) -> Option<Given<'_>>
    ensures { MatchOption result (short_option_in word.now ≡ None) (λ given. short_option_in word.now ≡ Some (given_told given)) }
{
    let (flag, written, rest) = if let Some(rest) = word.strip_prefix("-I") {
        (Flag::Include, "-I", rest)
    } else if let Some(rest) = word.strip_prefix("-o") {
        (Flag::Output, "-o", rest)
    } else {
        return None;
    };
    Some(Given {
        flag,
        written,
        value: some_rest(rest),
    })
}

/// The option that the word is.
pub(crate) fn option_in(word: &str) -> Option<Given<'_>>
    ensures { MatchOption result (option_of_word word.now ≡ None) (λ given. option_of_word word.now ≡ Some (given_told given)) }
{
    match short_option(word) {
        Some(given) => Some(given),
        None => long_option(word),
    }
}
