// The event with an event_id.
ghost use Rattle.std.specs.Prelude.{◌≡◌};
ghost use Rattle.eit.specs.Questions.{find_from};
ghost use Rattle.eit.specs.Inner.{Events};

use crate::event::event_end;
use bytes_at::word;

// Where the first of n events that has this id begins; the first of them begins at `from`.
pub fn find(s: &[u8], n: usize, from: usize, id: usize) -> Option<usize>
    requires { Events s.now n from }
    ensures { result ≡ find_from s.now id n from }
{
    let mut a = from;
    for _ in 0..n {
        if word(s, a) % 16384 == id {
            return Some(a);
        }
        a = event_end(s, a);
    }
    None
}
