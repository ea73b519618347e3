// Questions to a descriptor list that has been judged, as an event of an EIT has one. The list stands
// in the section s from `from` to `end`. Nothing is asked of the caller: what does not fit into the
// list is not there.
#![tactic(auto)]

ghost use Rattle.std.specs.Prelude.{None, ◌≡◌, ◌+◌, ◌-◌, ◌<◌, ◌≤◌};
ghost use Rattle.std.specs.Option.{SomeIff};
ghost use Rattle.bytes_at.specs.Fields.{byte_at};
ghost use Rattle.rating.specs.Ratings.{descriptor_size, rated_size, region_size, first_match, rated_of, rating_in, descriptor_in, region_text_at, text_in};

use bytes_at::byte;
use descriptor::CONTENT_ADVISORY;
use part::Part;

// What a rating question answers. Absent is not 0.
#[derive(Clone, Copy)]
pub enum Rating {
    NoAdvisory,
    RegionAbsent,
    DimensionAbsent,
    Value(usize),
}

// A descriptor's tag, and where its content stands.
#[derive(Clone, Copy)]
pub struct Descriptor {
    pub tag: usize,
    pub start: usize,
    pub size: usize,
}

// The byte k after a place.
fn ahead(s: &[u8], at: usize, k: usize) -> usize
    ensures { (result ≡ byte_at s.now (at + k)) × (result < 256) }
{
    if s.len().saturating_sub(at) <= k {
        0
    } else {
        byte(s, at + k)
    }
}

// Where `size` bytes from a place on end, if that is by `end`.
fn behind(at: usize, size: usize, end: usize) -> Option<usize>
    ensures { SomeIff result (at + size ≤ end) (at + size) }
{
    let next = at.checked_add(size)?;
    if next <= end { Some(next) } else { None }
}

fn descriptor_size(s: &[u8], at: usize) -> usize
    ensures { (result ≡ descriptor_size s.now at) × ((2 ≤ result) × (result < 258)) }
{
    2 + ahead(s, at, 1)
}

// The start of a region, up to its text's length.
fn rated_size(s: &[u8], at: usize) -> usize
    ensures { (result ≡ rated_size s.now at) × ((2 ≤ result) × (result < 513)) }
{
    2 + 2 * ahead(s, at, 1)
}

fn region_size(s: &[u8], at: usize) -> usize
    ensures { (result ≡ region_size s.now at) × (2 < result) }
{
    let rated = rated_size(s, at);
    rated + 1 + ahead(s, at, rated)
}

// The first match in byte order decides: the first content advisory, its first such region, and that
// region's first such dimension.
pub fn rating_in(s: &[u8], region: usize, dimension: usize, end: usize, from: usize) -> Rating
    ensures { rated_of result ≡ rating_in s.now region dimension end from }
{
    let mut at = from;
    'search: loop {
        let Some(close) = behind(at, descriptor_size(s, at), end) else {
            break 'search Rating::NoAdvisory;
        };
        if byte(s, at) == CONTENT_ADVISORY {
            let regions = ahead(s, at, 2) % 64;
            let mut p = at + 3;
            for _ in 0..regions {
                let Some(next) = behind(p, region_size(s, p), close) else {
                    break;
                };
                if byte(s, p) == region {
                    let dimensions = byte(s, p + 1);
                    for i in 0..dimensions {
                        let q = p + 2 + 2 * i;
                        if byte(s, q) == dimension {
                            break 'search Rating::Value(byte(s, q + 1) % 16);
                        }
                    }
                    break 'search Rating::DimensionAbsent;
                }
                p = next;
            }
            break 'search Rating::RegionAbsent;
        }
        at = close;
    }
}

// Descriptor number k, counted from 0.
pub fn descriptor_in(s: &[u8], end: usize, from: usize, k: usize) -> Option<Descriptor>
    ensures { result ≡ descriptor_in s.now end k from }
{
    let mut at = from;
    for _ in 0..k {
        at = behind(at, descriptor_size(s, at), end)?;
    }
    behind(at, descriptor_size(s, at), end)?;
    Some(Descriptor {
        tag: byte(s, at),
        start: at + 2,
        size: byte(s, at + 1),
    })
}

// The text of the first such region of n from a place, which are to end at `close`.
fn text_of_first(s: &[u8], region: usize, n: usize, close: usize, from: usize) -> Option<Part>
    ensures { result ≡ first_match s.now (region_size s.now) n close from region (region_text_at s.now) None }
{
    let mut at = from;
    for _ in 0..n {
        let next = behind(at, region_size(s, at), close)?;
        if byte(s, at) == region {
            let rated = rated_size(s, at);
            return Some(Part {
                start: at + rated + 1,
                length: ahead(s, at, rated),
            });
        }
        at = next;
    }
    None
}

// The text of the first such region in the first content advisory.
pub fn advisory_text_in(s: &[u8], region: usize, end: usize, from: usize) -> Option<Part>
    ensures { result ≡ text_in s.now region end from }
{
    let mut at = from;
    loop {
        let close = behind(at, descriptor_size(s, at), end)?;
        if byte(s, at) == CONTENT_ADVISORY {
            return text_of_first(s, region, ahead(s, at, 2) % 64, close, at + 3);
        }
        at = close;
    }
}
