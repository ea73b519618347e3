// The walk through the body.
ghost use Rattle.std.specs.Prelude.{◌≡◌};
ghost use Rattle.format.specs.Formats.{walks_all};
ghost use Rattle.ett.specs.Walked.{ett};

use bytes_at::{Walk, at_end, skip};
use strings::all_strings;

// The body from `at` to `end`.
pub fn body(s: &[u8], end: usize, at: usize) -> Walk
    ensures { result ≡ walks_all ett s.now end at }
{
    let b = skip(0, at, 4, end)?;
    let e = all_strings(s, end, b)?;
    at_end(e, end)
}
