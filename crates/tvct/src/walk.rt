// The walk through the body.
ghost use Rattle.std.specs.Prelude.{◌≡◌};
ghost use Rattle.format.specs.Formats.{walks, walks_all};
ghost use Rattle.tvct.specs.Walked.{channels, tvct};

use bytes_at::{Walk, at_end, back, skip};
use channel::past;
use descriptor::{NO_TAG, whole_list10};

// The count, and the channels.
fn all_channels(s: &[u8], end: usize, at: usize) -> Walk
    ensures { result ≡ walks channels s.now end at }
{
    let b = skip(0, at, 1, end)?;
    past(s, end, back(s, b, 1), b)
}

// The body from `at` to `end`.
pub fn body(s: &[u8], end: usize, at: usize) -> Walk
    ensures { result ≡ walks_all tvct s.now end at }
{
    let b = all_channels(s, end, at)?;
    let e = whole_list10(s, NO_TAG, end, b)?;
    at_end(e, end)
}
