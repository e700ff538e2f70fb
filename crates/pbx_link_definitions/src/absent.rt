// Texts and numbers of a record that may be absent.
ghost use Rattle.std.specs.Prelude.{◌≡◌};
ghost use Rattle.pbx_link_definitions.specs.Names.{is_named as is_named_of, text_or_empty as text_or_empty_of};
ghost use Rattle.pbx_link_definitions.specs.Says.{number_or_zero as number_or_zero_of};

use pbx_wire::Text;

/// The text, or the empty one.
pub fn text_or_empty(text: &Option<Text>) -> &str
    ensures { result.now ≡ text_or_empty_of text.now }
{
    match text {
        Some(text) => text.as_str(),
        None => "",
    }
}

/// Whether the text is there, and is this name.
pub fn is_named(text: &Option<Text>, name: &str) -> bool
    ensures { result ≡ is_named_of text.now name.now }
{
    match text {
        Some(text) => text.as_str() == name,
        None => false,
    }
}

/// The number where it is above 0, and else 0, which no field has.
pub fn number_or_zero(number: Option<i32>) -> u32
    ensures { result ≡ number_or_zero_of number }
{
    match number {
        Some(number) if number > 0 => number as u32,
        _ => 0,
    }
}
