// An event as a row of numbers.
ghost use Rattle.std.specs.Prelude.{◌≡◌, ◌+◌, ◌≤◌, length};
ghost use Rattle.std.proofs.lemmas.List.Edits.{sets};
ghost use Rattle.eit.specs.Fields.{event_end, times_row, event_row};

use crate::event::{descriptors_at, event_end, title_part};
use bytes_at::{byte, long, word};
use row::{narrow, put_all, put_part};

// The first four numbers of a row, from p on.
fn put_times(s: &[u8], a: usize, p: usize, out: &mut [u32])
    requires { (a ≤ length s.now) × (p + 4 ≤ length out.old) }
    ensures { out.new ≡ sets out.old p (times_row s.now a) }
{
    let x = byte(s, a + 6);
    let numbers = [
        narrow(word(s, a) % 16384),
        narrow(long(s, a + 2)),
        narrow(x / 16 % 4),
        narrow(x % 16 * 65536 + word(s, a + 7)),
    ];
    put_all(out, p, numbers);
}

// The row of the event that begins at a, from p on, and where the next event begins.
pub fn put_row(s: &[u8], a: usize, p: usize, out: &mut [u32]) -> usize
    requires { ((a ≤ length s.now) × (length s.now ≤ 4096)) × (p + 8 ≤ length out.old) }
    ensures next { result ≡ event_end s.now a }
    ensures puts { out.new ≡ sets out.old p (event_row s.now a) }
{
    put_times(s, a, p, out);
    put_part(out, p + 4, title_part(s, a));
    put_part(out, p + 6, descriptors_at(s, a));
    event_end(s, a)
}
