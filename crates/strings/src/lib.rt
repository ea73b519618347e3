// Judging the multiple string structure, finding its strings, and where a text with its length stands.
#![tactic(auto)]

ghost use Rattle.std.specs.Prelude.{◌≡◌, ◌+◌, ◌≤◌, length};
ghost use Rattle.bytes_at.specs.Walks.{many};
ghost use Rattle.format.specs.Formats.{walks, walks_all};
ghost use Rattle.strings.specs.Strings.{segment, string, structure, text, sized_text};
ghost use Rattle.strings.specs.Places.{text_at, text_end};

use bytes_at::{Walk, at_end, back, byte, repeated, skip, skip_fields};
use part::Part;

fn one_segment(s: &[u8], end: usize, at: usize) -> Walk
    ensures { result ≡ walks segment s.now end at }
{
    let b = skip_fields(at, 8, 8, 8, 0, end)?;
    skip(1, b, back(s, b, 1), end)
}

// Past n segments.
pub fn segments(s: &[u8], end: usize, n: usize, from: usize) -> Walk
    ensures { result ≡ many (walks segment s.now end) n from }
{
    repeated(n, from, |at| one_segment(s, end, at))
}

fn one_string(s: &[u8], end: usize, at: usize) -> Walk
    ensures { result ≡ walks string s.now end at }
{
    let b = skip_fields(at, 24, 8, 0, 0, end)?;
    segments(s, end, back(s, b, 1), b)
}

// Past n strings: string n of a structure begins there.
pub fn strings(s: &[u8], end: usize, n: usize, from: usize) -> Walk
    ensures { result ≡ many (walks string s.now end) n from }
{
    repeated(n, from, |at| one_string(s, end, at))
}

// A structure: number_strings and the strings.
pub fn all_strings(s: &[u8], end: usize, at: usize) -> Walk
    ensures { result ≡ walks structure s.now end at }
{
    let b = skip(0, at, 1, end)?;
    strings(s, end, back(s, b, 1), b)
}

// A text field from `at` to `end`.
pub fn whole_text(s: &[u8], end: usize, at: usize) -> Walk
    ensures { result ≡ walks_all text s.now end at }
{
    if at == end {
        return Ok(at);
    }
    let b = all_strings(s, end, at)?;
    at_end(b, end)
}

// A length of 8 bits and a text of that length.
pub fn sized_text(s: &[u8], end: usize, at: usize) -> Walk
    ensures { result ≡ walks sized_text s.now end at }
{
    let b = skip(0, at, 1, end)?;
    let e = skip(1, b, back(s, b, 1), end)?;
    whole_text(s, e, b)
}

// Where the text stands whose length is the byte at `at`, which is in the section or less than a text
// behind it.
pub fn text_at(s: &[u8], at: usize) -> Part
    requires { at ≤ length s.now + 256 }
    ensures { (result ≡ text_at s.now at) × ((result.start ≤ at + 1) × (result.length ≤ 255)) }
{
    Part {
        start: at + 1,
        length: byte(s, at),
    }
}

// Where it ends.
pub fn text_end(s: &[u8], at: usize) -> usize
    requires { at ≤ length s.now + 256 }
    ensures { (result ≡ text_end s.now at) × (result ≤ at + 256) }
{
    at + 1 + byte(s, at)
}
