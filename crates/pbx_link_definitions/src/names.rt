// Identifiers (Protocol Buffers language specification: "Identifiers").
ghost use Rattle.std.specs.Prelude.{◌≡◌};
ghost use Rattle.std.specs.List.{list_all};
ghost use Rattle.pbx_link_definitions.specs.Names.{begins_ident as begins_ident_of, goes_on_ident as goes_on_ident_of, is_ident as is_ident_of};

fn begins_ident(byte: u8) -> bool
    ensures { result ≡ begins_ident_of byte }
{
    (97 <= byte && byte <= 122) || (65 <= byte && byte <= 90) || byte == 95
}

fn goes_on_ident(byte: u8) -> bool
    ensures { result ≡ goes_on_ident_of byte }
{
    begins_ident(byte) || (48 <= byte && byte <= 57)
}

fn go_on_ident(bytes: &[u8]) -> bool
    ensures { result ≡ list_all goes_on_ident_of bytes.now }
{
    bytes.iter().all(|byte| goes_on_ident(*byte))
}

/// Whether the text is an identifier of the language: an ASCII letter or `_`, and then such characters and digits.
pub fn is_ident(text: &str) -> bool
    ensures { result ≡ is_ident_of text.now }
{
    match text.as_bytes() {
        [] => false,
        [first, others @ ..] => begins_ident(*first) && go_on_ident(others),
    }
}
