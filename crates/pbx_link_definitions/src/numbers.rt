// Numbers of fields (language guide: "Assigning Field Numbers").
ghost use Rattle.std.specs.Prelude.{◌≡◌};
ghost use Rattle.pbx_link_definitions.specs.Ranges.{is_field_number as is_field_number_of};

/// Whether a field may have the number: 1 to 536,870,911 without 19,000 to 19,999.
pub fn is_field_number(number: Option<i32>) -> bool
    ensures { result ≡ is_field_number_of number }
{
    match number {
        Some(number) => 0 < number && number < 536870912 && !(19000 <= number && number <= 19999),
        None => false,
    }
}
