// What was answered about a text, and a count or a length by itself, as it is told.
ghost use Rattle.refusal.specs.Outcomes.{outcome};
ghost use Rattle.telling.specs.Told.{Told, one_number};
ghost use Rattle.telling.specs.Fields.{heading_numbers, amount_numbers};

use crate::told::{number_of, one, two};
use refusal::Refusal;
use text::{Amount, Heading};

pub fn tell_count(answer: Result<usize, Refusal>, told: &mut [u32; 1]) -> u32
    ensures { Told one_number (outcome answer) told.old result told.new }
{
    match answer {
        Err(k) => number_of(k),
        Ok(n) => {
            *told = one(n);
            0
        }
    }
}

pub fn tell_heading(answer: Result<Heading, Refusal>, told: &mut [u32; 2]) -> u32
    ensures { Told heading_numbers (outcome answer) told.old result told.new }
{
    match answer {
        Err(k) => number_of(k),
        Ok(h) => {
            *told = two(h.language, h.segments);
            0
        }
    }
}

pub fn tell_amount(answer: Result<Amount, Refusal>, told: &mut [u32; 2]) -> u32
    ensures { Told amount_numbers (outcome answer) told.old result told.new }
{
    match answer {
        Err(k) => number_of(k),
        Ok(a) => {
            *told = two(a.units, a.replaced);
            0
        }
    }
}
