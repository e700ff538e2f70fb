//! Bytes that are read as far as they go.

ghost use Rattle.std.specs.Prelude.{◌≡◌, ◌≤◌, length};
ghost use Rattle.std.specs.List.{prefix_len};
ghost use Rattle.pbx_parse_token.specs.Bytes.{passes};

use crate::digits::digit_value;

/// Bytes that are read as far as they go.
#[derive(Clone, Copy, Debug)]
pub enum Run {
    Identifier,
    Number,
    Line,
    /// Digits of this base.
    Digits(u64),
}

fn passes_run(run: Run, b: u8) -> bool
    ensures { result ≡ passes run b }
{
    match run {
        Run::Identifier => b.is_ascii_alphanumeric() || b == b'_',
        Run::Number => b.is_ascii_alphanumeric() || b == b'_' || b == b'.',
        Run::Line => b != b'\n',
        Run::Digits(base) => digit_value(b) < base,
    }
}

/// How many bytes at the front belong to a run.
pub fn run_len(bytes: &[u8], run: Run) -> usize
    ensures is { result ≡ prefix_len (passes run) bytes.now }
    ensures within { result ≤ length bytes.now }
{
    let mut n = 0;
    while n < bytes.len() && passes_run(run, bytes[n]) {
        n += 1;
    }
    n
}
