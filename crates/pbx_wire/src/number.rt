//! The field numbers that records may have.

ghost use Rattle.std.specs.Prelude.{◌≡◌, ◌^◌, nat_lt, IsTrue};
ghost use Rattle.pbx_wire.specs.Text.{is_record_number as is_record_number_of};

/// The first number above those of records, 2 to the 29th.
pub const NUMBER_END: u32 = 536870912;

/// Whether a record may have the number, which is 1 to 536,870,911.
pub fn is_record_number(number: u32) -> bool
    ensures { result ≡ is_record_number_of number }
{
    0 < number && number < NUMBER_END
}

/// The same with the record's value, or the length of its payload, which may be any; that it fits is known only where it is
/// at hand.
pub(crate) fn is_long_number(number: u32, _value: u64) -> bool
    ensures numbered { result ≡ is_record_number_of number }
    ensures fit { IsTrue (nat_lt _value (2 ^ 64)) }
{
    is_record_number(number)
}

/// The same with a value of 32 bits.
pub(crate) fn is_short_number(number: u32, _value: u32) -> bool
    ensures numbered { result ≡ is_record_number_of number }
    ensures fit { IsTrue (nat_lt _value (2 ^ 32)) }
{
    is_record_number(number)
}
