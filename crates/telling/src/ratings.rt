// What is answered about an event or its descriptor list, as it is told.
ghost use Rattle.std.specs.Prelude.{◌≡◌, map};
ghost use Rattle.rating.specs.Ratings.{rated_of};
ghost use Rattle.refusal.specs.Outcomes.{outcome, outcome_by};
ghost use Rattle.telling.specs.Told.{Told, noted};
ghost use Rattle.telling.specs.Ratings.{rating_numbers, descriptor_numbers, text_numbers};

use crate::told::{NO_VALUE, number_of, three, two};
use rating::Rating;
use reading::eits::{Descriptor, Part};
use refusal::Refusal;

// An answer without a value is never told as the value 0.
fn rating_numbers(rating: Rating) -> [u32; 2]
    ensures { result ≡ map noted (rating_numbers (rated_of rating)) }
{
    match rating {
        Rating::NoAdvisory => two(1, NO_VALUE),
        Rating::RegionAbsent => two(2, NO_VALUE),
        Rating::DimensionAbsent => two(3, NO_VALUE),
        Rating::Value(v) => two(4, v),
    }
}

// Each sort of answer, as it is told.
pub fn tell_rating(answer: Result<Rating, Refusal>, told: &mut [u32; 2]) -> u32
    ensures { Told rating_numbers (outcome_by rated_of answer) told.old result told.new }
{
    match answer {
        Err(k) => number_of(k),
        Ok(r) => {
            *told = rating_numbers(r);
            0
        }
    }
}

pub fn tell_descriptor(answer: Result<Descriptor, Refusal>, told: &mut [u32; 3]) -> u32
    ensures { Told descriptor_numbers (outcome answer) told.old result told.new }
{
    match answer {
        Err(k) => number_of(k),
        Ok(d) => {
            *told = three(d.tag, d.start, d.size);
            0
        }
    }
}

pub fn tell_text(answer: Result<Part, Refusal>, told: &mut [u32; 2]) -> u32
    ensures { Told text_numbers (outcome answer) told.old result told.new }
{
    match answer {
        Err(k) => number_of(k),
        Ok(p) => {
            *told = two(p.start, p.length);
            0
        }
    }
}
