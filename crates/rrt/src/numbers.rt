// A dimension, and a value, as a row of numbers.
ghost use Rattle.std.specs.Prelude.{◌≡◌, ◌+◌, ◌<◌, ◌≤◌, length};
ghost use Rattle.std.proofs.lemmas.List.Edits.{sets};
ghost use Rattle.rrt.specs.Fields.{value_end, dimension_end, dimension_row, texts_row, value_row};
ghost use Rattle.rrt.specs.Inner.{DimensionStands};

use crate::dimension::dimension_end;
use bytes_at::byte;
use row::{narrow, put_all, put_part};
use strings::{text_at, text_end};

// The numbers of the dimension that begins at d, from p on.
fn put_numbers(s: &[u8], d: usize, p: usize, out: &mut [u32])
    requires { ((d ≤ length s.now) × (length s.now ≤ 4096)) × (p + 4 ≤ length out.old) }
    ensures { out.new ≡ sets out.old p (dimension_row s.now d) }
{
    let name = text_at(s, d);
    let x = byte(s, text_end(s, d));
    let numbers = [
        narrow(name.start),
        narrow(name.length),
        narrow(x / 16 % 2),
        narrow(x % 16),
    ];
    put_all(out, p, numbers);
}

// The row of the dimension that begins at d, from p on, and where the next one begins.
pub fn put_row(s: &[u8], d: usize, p: usize, out: &mut [u32]) -> usize
    requires { (DimensionStands s.now d × (length s.now ≤ 4096)) × (p + 4 ≤ length out.old) }
    ensures next { result ≡ dimension_end s.now d }
    ensures puts { out.new ≡ sets out.old p (dimension_row s.now d) }
{
    put_numbers(s, d, p, out);
    dimension_end(s, d)
}

// The texts of the value that begins at a, from p on, and where the next value begins.
fn put_texts(s: &[u8], a: usize, p: usize, out: &mut [u32]) -> usize
    requires { ((a ≤ length s.now) × (length s.now ≤ 4096)) × (p + 4 ≤ length out.old) }
    ensures next { result ≡ value_end s.now a }
    ensures puts { out.new ≡ sets out.old p (texts_row s.now a) }
{
    let b = text_end(s, a);
    put_part(out, p, text_at(s, a));
    put_part(out, p + 2, text_at(s, b));
    text_end(s, b)
}

// The row of value j of dimension i, which begins at a, from p on, and where the next value begins.
pub fn put_value(s: &[u8], i: usize, j: usize, a: usize, p: usize, out: &mut [u32]) -> usize
    requires { (((i < 256) × (j < 16)) × ((a ≤ length s.now) × (length s.now ≤ 4096))) × (p + 6 ≤ length out.old) }
    ensures next { result ≡ value_end s.now a }
    ensures puts { out.new ≡ sets out.old p (value_row s.now i j a) }
{
    put_all(out, p, [narrow(i), narrow(j)]);
    put_texts(s, a, p + 2, out)
}
