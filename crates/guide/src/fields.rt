// The strings of a text field by itself.
ghost use Rattle.std.specs.Prelude.{◌≡◌, length};
ghost use Rattle.refusal.specs.Outputs.{output_after};
ghost use Rattle.text.specs.Answers.{amount_of};
ghost use Rattle.text.specs.Texts.{fitting, field_count, field_units, field_replaced, field_heading};
ghost use Rattle.telling.specs.Told.{Told, one_number};
ghost use Rattle.telling.specs.Fields.{heading_numbers, amount_numbers};

use telling::fields::{tell_amount, tell_count, tell_heading};
use telling::told::wide;
use text::{count_strings, string_heading, string_text, string_units};

// The number of strings.
pub fn guide_field_strings(field: &[u8], count: &mut [u32; 1]) -> u32
    ensures { Told one_number (field_count field.now) count.old result count.new }
{
    tell_count(count_strings(field), count)
}

// The language and the number of segments of a string.
pub fn guide_field_heading(field: &[u8], string: u32, told: &mut [u32; 2]) -> u32
    ensures { Told heading_numbers (field_heading field.now string) told.old result told.new }
{
    tell_heading(string_heading(field, wide(string)), told)
}

// How many units a string has.
pub fn guide_field_units(field: &[u8], string: u32, told: &mut [u32; 2]) -> u32
    ensures { Told amount_numbers (amount_of (field_replaced field.now string) (field_units field.now string)) told.old result told.new }
{
    tell_amount(string_units(field, wide(string)), told)
}

// The units themselves, where there is room for them.
pub fn guide_field_text(field: &[u8], string: u32, units: &mut [u16], told: &mut [u32; 2]) -> u32
    ensures answers { Told amount_numbers (amount_of (field_replaced field.now string) (fitting (length units.old) (field_units field.now string))) told.old result told.new }
    ensures writes { units.new ≡ output_after units.old (fitting (length units.old) (field_units field.now string)) }
{
    tell_amount(string_text(field, wide(string), units), told)
}
