// How many events and units of titles there are, as it is told.
ghost use Rattle.refusal.specs.Outcomes.{outcome};
ghost use Rattle.telling.specs.Told.{Told};
ghost use Rattle.telling.specs.Titled.{counts_numbers};

use crate::told::{number_of, two};
use refusal::Refusal;
use titles::Counts;

pub fn tell_counts(answer: Result<Counts, Refusal>, told: &mut [u32; 2]) -> u32
    ensures { Told counts_numbers (outcome answer) told.old result told.new }
{
    match answer {
        Err(k) => number_of(k),
        Ok(c) => {
            *told = two(c.events, c.units);
            0
        }
    }
}
