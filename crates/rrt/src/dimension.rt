// The fields of a dimension that begins at d, and of a value that begins at a.
ghost use Rattle.std.specs.Prelude.{◌≡◌, ◌<◌, ◌≤◌, length};
ghost use Rattle.rrt.specs.Fields.{values_at, first_value_at, dimension_at, texts_at, value_end, values_end, dimension_end};
ghost use Rattle.rrt.specs.Inner.{DimensionStands, ValuesStand};

use bytes_at::byte;
use part::Part;
use strings::{text_at, text_end};

#[derive(Clone, Copy)]
pub struct Dimension {
    pub name: Part,
    pub graduated_scale: usize,
    pub values: usize,
}

#[derive(Clone, Copy)]
pub struct ValueTexts {
    pub short_text: Part,
    pub long_text: Part,
}

// How many values the dimension has.
pub fn values(s: &[u8], d: usize) -> usize
    requires { d ≤ length s.now }
    ensures { (result ≡ values_at s.now d) × (result < 16) }
{
    byte(s, text_end(s, d)) % 16
}

// Where its first value begins.
pub fn first_value(s: &[u8], d: usize) -> usize
    requires { d ≤ length s.now }
    ensures { result ≡ first_value_at s.now d }
{
    text_end(s, d) + 1
}

pub fn dimension_at(s: &[u8], d: usize) -> Dimension
    requires { d ≤ length s.now }
    ensures { result ≡ dimension_at s.now d }
{
    let name = text_at(s, d);
    let x = byte(s, text_end(s, d));
    Dimension {
        name,
        graduated_scale: x / 16 % 2,
        values: x % 16,
    }
}

// The texts of the value that begins at a.
pub fn texts_at(s: &[u8], a: usize) -> ValueTexts
    requires { a ≤ length s.now }
    ensures { result ≡ texts_at s.now a }
{
    let short_text = text_at(s, a);
    let long_text = text_at(s, text_end(s, a));
    ValueTexts {
        short_text,
        long_text,
    }
}

// Where the value that begins at a ends.
fn value_end(s: &[u8], a: usize) -> usize
    requires { a ≤ length s.now }
    ensures { result ≡ value_end s.now a }
{
    text_end(s, text_end(s, a))
}

// Where n values end, the first of which begins at `from`.
fn values_end(s: &[u8], n: usize, from: usize) -> usize
    requires { ValuesStand s.now n from }
    ensures { result ≡ values_end s.now n from }
{
    let mut a = from;
    for _ in 0..n {
        a = value_end(s, a);
    }
    a
}

// Where the dimension ends.
pub fn dimension_end(s: &[u8], d: usize) -> usize
    requires { DimensionStands s.now d }
    ensures { result ≡ dimension_end s.now d }
{
    values_end(s, values(s, d), first_value(s, d))
}
