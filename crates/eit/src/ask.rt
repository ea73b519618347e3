// What is asked of the event that begins at a.
ghost use Rattle.std.specs.Prelude.{◌≡◌, ◌≤◌, length};
ghost use Rattle.rating.specs.Ratings.{rated_of};
ghost use Rattle.eit.specs.Questions.{rating_at, event_descriptor, advisory_text_at};

use crate::event::descriptors_at;
use part::Part;
use rating::{Descriptor, Rating, advisory_text_in, descriptor_in, rating_in};

// The rating for a region and a dimension.
pub fn rating_at(s: &[u8], a: usize, region: usize, dimension: usize) -> Rating
    requires { a ≤ length s.now }
    ensures { rated_of result ≡ rating_at s.now a region dimension }
{
    let d = descriptors_at(s, a);
    let from = d.start;
    rating_in(s, region, dimension, from + d.length, from)
}

// Descriptor k, from 0.
pub fn descriptor_at(s: &[u8], a: usize, k: usize) -> Option<Descriptor>
    requires { a ≤ length s.now }
    ensures { result ≡ event_descriptor s.now a k }
{
    let d = descriptors_at(s, a);
    let from = d.start;
    descriptor_in(s, from + d.length, from, k)
}

// The text of the first such region in the first content advisory.
pub fn advisory_text_at(s: &[u8], a: usize, region: usize) -> Option<Part>
    requires { a ≤ length s.now }
    ensures { result ≡ advisory_text_at s.now a region }
{
    let d = descriptors_at(s, a);
    let from = d.start;
    advisory_text_in(s, region, from + d.length, from)
}
