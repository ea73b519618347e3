// The places as they are lent: rows of numbers.
ghost use Rattle.std.specs.Prelude.{◌≡◌, ◌<◌, ◌≤◌, ◌+◌, ◌*◌, length, get_or, set, replicate};
ghost use Rattle.shelf_state.specs.Records.{blank_place};
ghost use Rattle.lent_memory.specs.Meaning.{clamp, place_meant, row_count, row_size, places_meant, shelf_in};
ghost use Rattle.lent_memory.specs.Changes.{write_row};

use crate::records::{Book, is_on};
use shelf_state::inner::blank_place;
use shelf_state::{Place, Shelf};

// A row: used, watch, number, length, and the time, which is 0 and is not read.
pub const ROW: usize = 5;

fn wide_number(x: u32) -> usize
    ensures { (result ≡ x) × (result < 4294967296) }
{
    x as usize
}

pub fn number_at(l: &[u32], i: usize) -> usize
    requires { i < length l.now }
    ensures { (result ≡ get_or l.now i 0) × (result < 4294967296) }
{
    wide_number(l[i])
}

pub fn put_number(l: &mut [u32], i: usize, x: usize)
    requires { (i < length l.old) × (x < 4294967296) }
    ensures { l.new ≡ set l.old i x }
{
    l[i] = x as u32;
}

// Too large a number becomes one that breaks the shelf's rules.
fn byte_of(x: usize) -> u8
    ensures { result ≡ clamp 255 x }
{
    u8::try_from(x).unwrap_or(u8::MAX)
}

fn word_of(x: usize) -> u16
    ensures { result ≡ clamp 65535 x }
{
    u16::try_from(x).unwrap_or(u16::MAX)
}

pub fn at_most(m: usize, x: usize) -> usize
    ensures { (result ≡ clamp m x) × (result ≤ m) }
{
    x.min(m)
}

fn place_meant(l: &[u32], i: usize) -> Place
    requires { (i < 64) × (i * row_size + row_size ≤ length l.now) }
    ensures { result ≡ place_meant l.now i }
{
    let k = i * ROW;
    Place {
        used: is_on(number_at(l, k)),
        watch: byte_of(number_at(l, k + 1)),
        number: byte_of(number_at(l, k + 2)),
        length: word_of(number_at(l, k + 3)),
    }
}

fn row_count(n: usize) -> usize
    ensures { result ≡ row_count n }
{
    if n % ROW == 0 { n / ROW } else { 0 }
}

fn places_meant(l: &[u32], n: usize) -> [Place; 64]
    requires { (n ≤ 64) × (n * row_size ≤ length l.now) }
    ensures { result ≡ places_meant n l.now (replicate 64 blank_place) }
{
    let blank = blank_place();
    let mut ps = [blank; 64];
    for i in 0..n {
        ps[i] = place_meant(l, i);
    }
    ps
}

// The shelf that is lent.
pub fn shelf_in(b: Book, l: &[u32]) -> Shelf
    ensures { result ≡ shelf_in b.records b.watches l.now }
{
    let count = row_count(l.len());
    let places = places_meant(l, at_most(64, count));
    let watches = b.watches;
    Shelf {
        watches,
        records: b.records,
        places,
        count,
    }
}

pub fn write_row(l: &mut [u32], i: usize, p: Place)
    requires { (i < 64) × (i * row_size + row_size ≤ length l.old) }
    ensures { l.new ≡ write_row l.old i p }
{
    let k = i * ROW;
    put_number(l, k, usize::from(p.used));
    put_number(l, k + 1, usize::from(p.watch));
    put_number(l, k + 2, usize::from(p.number));
    put_number(l, k + 3, usize::from(p.length));
    put_number(l, k + 4, 0);
}
