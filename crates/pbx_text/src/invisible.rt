//! Which characters a reader of a line does not see.

ghost use Rattle.std.specs.Prelude.{◌≡◌};
ghost use Rattle.pbx_text.specs.Invisible.{is_invisible as is_invisible_of};

use ucd_category::GeneralCategory;

/// Whether nobody sees the character in a line, or sees a space that is none: a control character, white space other than the space
/// itself, or a format character, as a byte order mark (U+FEFF), U+200B and U+202E are.
pub fn is_invisible(c: char) -> bool
    ensures { result ≡ is_invisible_of c }
{
    c.is_control()
        || (c.is_whitespace() && c != ' ')
        || matches!(GeneralCategory::for_char(c), GeneralCategory::Format)
}
