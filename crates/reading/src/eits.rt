// The event information table: a section's fields and events, and what is asked of an event, by its section or by its list alone.
ghost use Rattle.std.specs.Prelude.{◌≡◌};
ghost use Rattle.refusal.specs.Outcomes.{outcome, outcome_by};
ghost use Rattle.rating.specs.Ratings.{rated_of};
ghost use Rattle.reading.specs.Eits.{fields_of, entry_of, rating_of, descriptor_of, advisory_text_of, is_filled, list_rating, list_descriptor, list_text};

use descriptor::{CONTENT_ADVISORY, whole_descriptors};
use eit::{advisory_text_at, descriptor_at, event_at, fields_at, rating_at};
pub use eit::{Event, Table, Title, title_of};
use entry::{Entry, spot_of};
use kind::Kind;
pub use part::Part;
pub use rating::{Descriptor, Rating};
use rating::{advisory_text_in, descriptor_in, rating_in};
use refusal::Refusal;
use section::inner::body_start;
use section::judge_kind;

// The source and the count of events.
pub fn fields(s: &[u8]) -> Result<Table, Refusal>
    ensures { outcome result ≡ fields_of s.now }
{
    let h = judge_kind(s, Kind::Eit)?;
    let at = body_start(Kind::Eit);
    Ok(fields_at(s, h.extension, at))
}

// Event i, from 0.
pub fn entry(s: &[u8], i: usize) -> Result<Event, Refusal>
    ensures { outcome result ≡ entry_of s.now i }
{
    let a = spot_of(s, Entry::Event, i)?;
    Ok(event_at(s, a))
}

// The rating of event i for a region and a dimension.
pub fn rating(s: &[u8], i: usize, region: usize, dimension: usize) -> Result<Rating, Refusal>
    ensures { outcome_by rated_of result ≡ rating_of s.now i region dimension }
{
    let a = spot_of(s, Entry::Event, i)?;
    Ok(rating_at(s, a, region, dimension))
}

// Descriptor k of event i: its tag, and where its content stands.
pub fn descriptor(s: &[u8], i: usize, k: usize) -> Result<Descriptor, Refusal>
    ensures { outcome result ≡ descriptor_of s.now i k }
{
    let a = spot_of(s, Entry::Event, i)?;
    descriptor_at(s, a, k).ok_or(Refusal::NoSuchEntry)
}

// The text of event i's advisory for a region.
pub fn advisory_text(s: &[u8], i: usize, region: usize) -> Result<Part, Refusal>
    ensures { outcome result ≡ advisory_text_of s.now i region }
{
    let a = spot_of(s, Entry::Event, i)?;
    advisory_text_at(s, a, region).ok_or(Refusal::NoSuchEntry)
}

// Whether a list by itself is filled exactly, its advisories too.
fn is_filled(list: &[u8]) -> bool
    ensures { result ≡ is_filled list.now }
{
    whole_descriptors(list, CONTENT_ADVISORY, list.len(), 0).is_ok()
}

// The rating by a list that an event's row points to: the list is judged and the section is not, so that many questions cost one judging.
pub fn list_rating(list: &[u8], region: usize, dimension: usize) -> Result<Rating, Refusal>
    ensures { outcome_by rated_of result ≡ list_rating list.now region dimension }
{
    if !is_filled(list) {
        return Err(Refusal::Body);
    }
    Ok(rating_in(list, region, dimension, list.len(), 0))
}

// Descriptor k of such a list. Its part is one of the list.
pub fn list_descriptor(list: &[u8], k: usize) -> Result<Descriptor, Refusal>
    ensures { outcome result ≡ list_descriptor list.now k }
{
    if !is_filled(list) {
        return Err(Refusal::Body);
    }
    descriptor_in(list, list.len(), 0, k).ok_or(Refusal::NoSuchEntry)
}

// The text of such a list's advisory for a region. Its part is one of the list.
pub fn list_text(list: &[u8], region: usize) -> Result<Part, Refusal>
    ensures { outcome result ≡ list_text list.now region }
{
    if !is_filled(list) {
        return Err(Refusal::Body);
    }
    advisory_text_in(list, region, list.len(), 0).ok_or(Refusal::NoSuchEntry)
}
