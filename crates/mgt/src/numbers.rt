// A defined table as a row of numbers.
ghost use Rattle.std.specs.Prelude.{◌≡◌, ◌+◌, ◌≤◌, length};
ghost use Rattle.std.proofs.lemmas.List.Edits.{sets};
ghost use Rattle.mgt.specs.Fields.{defined_end, numbers_row, defined_row};

use crate::defined::descriptors_at;
use bytes_at::{byte, long, word};
use descriptor::list_end;
use row::{narrow, put_all, put_part};

// The first four numbers of a row, from p on.
fn put_numbers(s: &[u8], a: usize, p: usize, out: &mut [u32])
    requires { (a ≤ length s.now) × (p + 4 ≤ length out.old) }
    ensures { out.new ≡ sets out.old p (numbers_row s.now a) }
{
    let numbers = [
        narrow(word(s, a)),
        narrow(word(s, a + 2) % 8192),
        narrow(byte(s, a + 4) % 32),
        narrow(long(s, a + 5)),
    ];
    put_all(out, p, numbers);
}

// The row of the defined table that begins at a, from p on, and where the next one begins.
pub fn put_row(s: &[u8], a: usize, p: usize, out: &mut [u32]) -> usize
    requires { ((a ≤ length s.now) × (length s.now ≤ 4096)) × (p + 6 ≤ length out.old) }
    ensures next { result ≡ defined_end s.now a }
    ensures puts { out.new ≡ sets out.old p (defined_row s.now a) }
{
    put_numbers(s, a, p, out);
    put_part(out, p + 4, descriptors_at(s, a));
    list_end(s, 4096, a + 9)
}
