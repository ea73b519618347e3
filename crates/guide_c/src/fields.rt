// The strings of a text field by itself.
ghost use Rattle.std.specs.Prelude.{◌≡◌, length};
ghost use Rattle.refusal.specs.Outputs.{output_after};
ghost use Rattle.text.specs.Answers.{amount_of};
ghost use Rattle.text.specs.Texts.{fitting, field_count, field_units, field_replaced, field_heading};
ghost use Rattle.telling.specs.Told.{Told, one_number};
ghost use Rattle.telling.specs.Fields.{heading_numbers, amount_numbers};

// The number of strings.
#[unsafe(no_mangle)]
pub extern "C" fn guide_field_strings(field: &[u8], count: &mut [u32; 1]) -> u32
    ensures { Told one_number (field_count field.now) count.old result count.new }
{
    guide::fields::guide_field_strings(field, count)
}

// The language and the number of segments of a string.
#[unsafe(no_mangle)]
pub extern "C" fn guide_field_heading(field: &[u8], string: u32, told: &mut [u32; 2]) -> u32
    ensures { Told heading_numbers (field_heading field.now string) told.old result told.new }
{
    guide::fields::guide_field_heading(field, string, told)
}

// How many units a string has.
#[unsafe(no_mangle)]
pub extern "C" fn guide_field_units(field: &[u8], string: u32, told: &mut [u32; 2]) -> u32
    ensures { Told amount_numbers (amount_of (field_replaced field.now string) (field_units field.now string)) told.old result told.new }
{
    guide::fields::guide_field_units(field, string, told)
}

// The units themselves, where there is room for them.
#[unsafe(no_mangle)]
pub extern "C" fn guide_field_text(
    field: &[u8],
    string: u32,
    units: &mut [u16],
    told: &mut [u32; 2],
) -> u32
    ensures answers { Told amount_numbers (amount_of (field_replaced field.now string) (fitting (length units.old) (field_units field.now string))) told.old result told.new }
    ensures writes { units.new ≡ output_after units.old (fitting (length units.old) (field_units field.now string)) }
{
    guide::fields::guide_field_text(field, string, units, told)
}
