// The strings of a text of a section.
ghost use Rattle.std.specs.Prelude.{◌≡◌, length};
ghost use Rattle.refusal.specs.Outputs.{output_after};
ghost use Rattle.telling.specs.Told.{Told, one_number};
ghost use Rattle.telling.specs.Fields.{heading_numbers, amount_numbers};
ghost use Rattle.telling.specs.Texts.{asked_count, asked_heading, asked_amount, fitting_amount, fitting_units};

// The number of strings.
#[unsafe(no_mangle)]
pub extern "C" fn guide_strings(s: &[u8], which: &[u32; 4], count: &mut [u32; 1]) -> u32
    ensures { Told one_number (asked_count s.now which.now) count.old result count.new }
{
    guide::texts::guide_strings(s, which, count)
}

// The language and the number of segments of a string.
#[unsafe(no_mangle)]
pub extern "C" fn guide_heading(s: &[u8], which: &[u32; 4], told: &mut [u32; 2]) -> u32
    ensures { Told heading_numbers (asked_heading s.now which.now) told.old result told.new }
{
    guide::texts::guide_heading(s, which, told)
}

// How many units a string has.
#[unsafe(no_mangle)]
pub extern "C" fn guide_units(s: &[u8], which: &[u32; 4], told: &mut [u32; 2]) -> u32
    ensures { Told amount_numbers (asked_amount s.now which.now) told.old result told.new }
{
    guide::texts::guide_units(s, which, told)
}

// The units themselves, where there is room for them.
#[unsafe(no_mangle)]
pub extern "C" fn guide_text(
    s: &[u8],
    which: &[u32; 4],
    units: &mut [u16],
    told: &mut [u32; 2],
) -> u32
    ensures answers { Told amount_numbers (fitting_amount s.now which.now (length units.old)) told.old result told.new }
    ensures writes { units.new ≡ output_after units.old (fitting_units s.now which.now (length units.old)) }
{
    guide::texts::guide_text(s, which, units, told)
}
