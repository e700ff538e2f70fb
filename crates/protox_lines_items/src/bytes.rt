//! Parts of bytes.

ghost use Rattle.std.specs.Prelude.{◌≡◌, ◌≤◌, length, drop, take};

/// The first of the bytes.
pub(crate) fn front(bytes: &[u8], count: usize) -> &[u8]
    requires { count ≤ length bytes.now }
    ensures { result.now ≡ take count bytes.now }
{
    &bytes[..count]
}

/// The bytes behind the first ones.
pub(crate) fn behind(bytes: &[u8], count: usize) -> &[u8]
    requires { count ≤ length bytes.now }
    ensures { result.now ≡ drop count bytes.now }
{
    &bytes[count..]
}
