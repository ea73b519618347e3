// The strings of a text of a section.
ghost use Rattle.std.specs.Prelude.{◌≡◌, length};
ghost use Rattle.refusal.specs.Outputs.{output_after};
ghost use Rattle.telling.specs.Told.{Told, one_number};
ghost use Rattle.telling.specs.Fields.{heading_numbers, amount_numbers};
ghost use Rattle.telling.specs.Texts.{asked_count, asked_heading, asked_amount, fitting_amount, fitting_units};

use refusal::Refusal;
use section_text::{count_strings, string_heading, string_text, string_units};
use telling::fields::{tell_amount, tell_count, tell_heading};
use telling::texts::which_of;
use telling::told::{number_of, wide};

// The number of strings.
pub fn guide_strings(s: &[u8], which: &[u32; 4], count: &mut [u32; 1]) -> u32
    ensures { Told one_number (asked_count s.now which.now) count.old result count.new }
{
    match which_of(which) {
        None => number_of(Refusal::NoSuchEntry),
        Some(w) => tell_count(count_strings(s, w), count),
    }
}

// The language and the number of segments of a string.
pub fn guide_heading(s: &[u8], which: &[u32; 4], told: &mut [u32; 2]) -> u32
    ensures { Told heading_numbers (asked_heading s.now which.now) told.old result told.new }
{
    match which_of(which) {
        None => number_of(Refusal::NoSuchEntry),
        Some(w) => tell_heading(string_heading(s, w, wide(which[3])), told),
    }
}

// How many units a string has.
pub fn guide_units(s: &[u8], which: &[u32; 4], told: &mut [u32; 2]) -> u32
    ensures { Told amount_numbers (asked_amount s.now which.now) told.old result told.new }
{
    match which_of(which) {
        None => number_of(Refusal::NoSuchEntry),
        Some(w) => tell_amount(string_units(s, w, wide(which[3])), told),
    }
}

// The units themselves, where there is room for them.
pub fn guide_text(s: &[u8], which: &[u32; 4], units: &mut [u16], told: &mut [u32; 2]) -> u32
    ensures answers { Told amount_numbers (fitting_amount s.now which.now (length units.old)) told.old result told.new }
    ensures writes { units.new ≡ output_after units.old (fitting_units s.now which.now (length units.old)) }
{
    match which_of(which) {
        None => number_of(Refusal::NoSuchEntry),
        Some(w) => tell_amount(string_text(s, w, wide(which[3]), units), told),
    }
}
