// Judging descriptor lists and the content advisory, and where a list with its length stands.
#![tactic(auto)]

ghost use Rattle.std.specs.Prelude.{◌≡◌, [], ◌∷◌, ℕ, ◌+◌, ◌<◌, ◌≤◌, length};
ghost use Rattle.bytes_at.specs.Walks.{many, fields_to};
ghost use Rattle.format.specs.Lawful.{unto};
ghost use Rattle.format.specs.Formats.{walks, walks_all};
ghost use Rattle.descriptor.specs.Descriptors.{rated, region, advisory, content, descriptor, descriptors};
ghost use Rattle.descriptor.specs.Places.{list12, list10, list_at, list_end};
ghost use Rattle.descriptor.specs.Inner.{sized_descriptors};

use bytes_at::{Walk, at_end, back, repeated, skip, skip_fields, word, word_back};
use part::Part;
use strings::sized_text;

// The tag that is judged in the events of an EIT, and what is given where none is.
pub const CONTENT_ADVISORY: usize = 0x87;

pub const NO_TAG: usize = 256;

// Past n dimensions of two bytes each. Every field of theirs is a byte, so the first that does not
// fit stands at the container's end.
fn dimensions(end: usize, n: usize, at: usize) -> Walk
    ensures { result ≡ many (λ a. fields_to (8 ∷ 8 ∷ []) a end) n at }
{
    if n == 0 {
        return Ok(at);
    }
    if end < at {
        return Err(at);
    }
    if n <= (end - at) / 2 {
        Ok(at + 2 * n)
    } else {
        Err(end)
    }
}

fn one_rated(s: &[u8], end: usize, at: usize) -> Walk
    ensures { result ≡ walks rated s.now end at }
{
    let b = skip_fields(at, 8, 8, 0, 0, end)?;
    dimensions(end, back(s, b, 1), b)
}

fn one_region(s: &[u8], end: usize, at: usize) -> Walk
    ensures { result ≡ walks region s.now end at }
{
    let b = one_rated(s, end, at)?;
    sized_text(s, end, b)
}

fn regions(s: &[u8], end: usize, n: usize, from: usize) -> Walk
    ensures { result ≡ many (walks region s.now end) n from }
{
    repeated(n, from, |at| one_region(s, end, at))
}

fn all_regions(s: &[u8], end: usize, at: usize) -> Walk
    ensures { result ≡ walks advisory s.now end at }
{
    let b = skip(0, at, 1, end)?;
    regions(s, end, back(s, b, 1) % 64, b)
}

// The content of a descriptor with this tag.
fn whole_content(s: &[u8], judged: usize, tag: usize, end: usize, at: usize) -> Walk
    ensures { result ≡ (content judged).walk tag s.now end at }
{
    if judged == tag {
        let b = all_regions(s, end, at)?;
        at_end(b, end)
    } else {
        Ok(end)
    }
}

fn one_descriptor(s: &[u8], judged: usize, end: usize, at: usize) -> Walk
    ensures { result ≡ walks (descriptor judged) s.now end at }
{
    let b = skip_fields(at, 8, 8, 0, 0, end)?;
    let e = skip(1, b, back(s, b, 1), end)?;
    whole_content(s, judged, back(s, b, 2), e, b)
}

// A descriptor list is a first descriptor and the rest, until the end. The call is the last thing done,
// so that the compiler makes a loop of it and a list of any length takes no stack.
fn first_and_rest(s: &[u8], judged: usize, end: usize, at: usize) -> Walk
    ensures { (f : ℕ) → end ≤ at + f → result ≡ unto (walks (descriptor judged) s.now) f end at }
{
    if end <= at {
        return at_end(at, end);
    }
    let e = one_descriptor(s, judged, end, at)?;
    first_and_rest(s, judged, end, e)
}

// The descriptor list from `at` to `end`; `judged` is the tag whose content is judged.
pub fn whole_descriptors(s: &[u8], judged: usize, end: usize, at: usize) -> Walk
    ensures { result ≡ walks_all (descriptors judged) s.now end at }
{
    first_and_rest(s, judged, end, at)
}

// A length in the low bits of 16, below `m`, and a descriptor list of that length.
fn sized_descriptors(s: &[u8], judged: usize, m: usize, end: usize, at: usize) -> Walk
    requires { 0 < m }
    ensures { result ≡ walks (sized_descriptors judged m) s.now end at }
{
    let b = skip(0, at, 2, end)?;
    let e = skip(2, b, word_back(s, b) % m, end)?;
    whole_descriptors(s, judged, e, b)
}

// The list after 4 reserved bits and its length of 12.
pub fn whole_list12(s: &[u8], judged: usize, end: usize, at: usize) -> Walk
    ensures { result ≡ walks (list12 judged) s.now end at }
{
    sized_descriptors(s, judged, 4096, end, at)
}

// The list after 6 reserved bits and its length of 10.
pub fn whole_list10(s: &[u8], judged: usize, end: usize, at: usize) -> Walk
    ensures { result ≡ walks (list10 judged) s.now end at }
{
    sized_descriptors(s, judged, 1024, end, at)
}

// Where the list stands whose length is the low bits, below m, of the word at `at`, which is in the
// section or less than an entry behind it.
pub fn list_at(s: &[u8], m: usize, at: usize) -> Part
    requires { ((0 < m) × (m ≤ 4096)) × (at ≤ length s.now + 512) }
    ensures { (result ≡ list_at m s.now at) × ((result.start ≤ at + 2) × (result.length < 4096)) }
{
    Part {
        start: at + 2,
        length: word(s, at) % m,
    }
}

// Where it ends.
pub fn list_end(s: &[u8], m: usize, at: usize) -> usize
    requires { ((0 < m) × (m ≤ 4096)) × (at ≤ length s.now + 512) }
    ensures { (result ≡ list_end m s.now at) × (result ≤ at + 4098) }
{
    at + 2 + word(s, at) % m
}
