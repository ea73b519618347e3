// The walk through the body, and past its events.
ghost use Rattle.std.specs.Prelude.{◌≡◌};
ghost use Rattle.bytes_at.specs.Walks.{many};
ghost use Rattle.format.specs.Formats.{walks, walks_all};
ghost use Rattle.eit.specs.Walked.{event, events, eit};

use bytes_at::{Walk, at_end, back, repeated, skip, skip_fields};
use descriptor::{CONTENT_ADVISORY, whole_list12};
use strings::sized_text;

fn one_event(s: &[u8], end: usize, at: usize) -> Walk
    ensures { result ≡ walks event s.now end at }
{
    let b = skip_fields(at, 16, 32, 4, 20, end)?;
    let d = sized_text(s, end, b)?;
    whole_list12(s, CONTENT_ADVISORY, end, d)
}

// Past n events: event n begins there.
pub fn past(s: &[u8], end: usize, n: usize, from: usize) -> Walk
    ensures { result ≡ many (walks event s.now end) n from }
{
    repeated(n, from, |at| one_event(s, end, at))
}

// The count, and the events.
fn all_events(s: &[u8], end: usize, at: usize) -> Walk
    ensures { result ≡ walks events s.now end at }
{
    let b = skip(0, at, 1, end)?;
    past(s, end, back(s, b, 1), b)
}

// The body from `at` to `end`.
pub fn body(s: &[u8], end: usize, at: usize) -> Walk
    ensures { result ≡ walks_all eit s.now end at }
{
    let b = all_events(s, end, at)?;
    at_end(b, end)
}
