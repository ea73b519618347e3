// The fields of an event that begins at a.
ghost use Rattle.std.specs.Prelude.{◌≡◌, ◌+◌, ◌<◌, ◌≤◌, length};
ghost use Rattle.eit.specs.Titles.{title_of};
ghost use Rattle.eit.specs.Fields.{title_part, title_at, descriptors_at, event_end, event_at};

use bytes_at::{byte, long, word};
use descriptor::{list_at, list_end};
use part::Part;
use strings::{text_at, text_end};

// A title is one of three.
#[derive(Clone, Copy)]
pub enum Title {
    None,
    NoStrings,
    Text(Part),
}

#[derive(Clone, Copy)]
pub struct Event {
    pub event_id: usize,
    pub start_time: usize,
    pub etm_location: usize,
    pub length_in_seconds: usize,
    pub title: Title,
    pub descriptors: Part,
}

// The sort of a title that begins at `start` and has n bytes.
pub fn title_of(s: &[u8], start: usize, n: usize) -> Title
    ensures { result ≡ title_of s.now start n }
{
    match n {
        0 => Title::None,
        1 if byte(s, start) == 0 => Title::NoStrings,
        _ => Title::Text(Part { start, length: n }),
    }
}

// Where the title stands.
pub fn title_part(s: &[u8], a: usize) -> Part
    requires { a ≤ length s.now }
    ensures { (result ≡ title_part s.now a) × ((result.start ≤ a + 10) × (result.length ≤ 255)) }
{
    text_at(s, a + 9)
}

pub fn title_at(s: &[u8], a: usize) -> Title
    requires { a ≤ length s.now }
    ensures { result ≡ title_at s.now a }
{
    let p = title_part(s, a);
    title_of(s, p.start, p.length)
}

// Where the descriptors stand.
pub fn descriptors_at(s: &[u8], a: usize) -> Part
    requires { a ≤ length s.now }
    ensures { (result ≡ descriptors_at s.now a) × ((result.start ≤ a + 267) × (result.length < 4096)) }
{
    list_at(s, 4096, text_end(s, a + 9))
}

// Where the event ends.
pub fn event_end(s: &[u8], a: usize) -> usize
    requires { a ≤ length s.now }
    ensures { result ≡ event_end s.now a }
{
    list_end(s, 4096, text_end(s, a + 9))
}

pub fn event_at(s: &[u8], a: usize) -> Event
    requires { a ≤ length s.now }
    ensures { result ≡ event_at s.now a }
{
    let x = byte(s, a + 6);
    let title = title_at(s, a);
    let descriptors = descriptors_at(s, a);
    Event {
        event_id: word(s, a) % 16384,
        start_time: long(s, a + 2),
        etm_location: x / 16 % 4,
        length_in_seconds: x % 16 * 65536 + word(s, a + 7),
        title,
        descriptors,
    }
}
