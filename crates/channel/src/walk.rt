// The walk past channels.
ghost use Rattle.std.specs.Prelude.{◌≡◌, [], ◌∷◌};
ghost use Rattle.bytes_at.specs.Walks.{many, fields_to};
ghost use Rattle.format.specs.Formats.{walks};
ghost use Rattle.channel.specs.Walked.{channel};

use bytes_at::{Walk, repeated, skip_fields};
use descriptor::{NO_TAG, whole_list10};

// The fields of a channel before its descriptors. Those from ETM_location to the six bits begin in one
// byte, so they are one step.
fn channel_fields(at: usize, end: usize) -> Walk
    ensures { result ≡ fields_to (112 ∷ 14 ∷ 10 ∷ 8 ∷ 32 ∷ 16 ∷ 16 ∷ 2 ∷ 1 ∷ 1 ∷ 6 ∷ 6 ∷ 16 ∷ []) at end }
{
    let b = skip_fields(at, 112, 14, 10, 8, end)?;
    let d = skip_fields(b, 32, 16, 16, 0, end)?;
    skip_fields(d, 10, 6, 16, 0, end)
}

fn one_channel(s: &[u8], end: usize, at: usize) -> Walk
    ensures { result ≡ walks channel s.now end at }
{
    let b = channel_fields(at, end)?;
    whole_list10(s, NO_TAG, end, b)
}

// Past n channels: channel n begins there.
pub fn past(s: &[u8], end: usize, n: usize, from: usize) -> Walk
    ensures { result ≡ many (walks channel s.now end) n from }
{
    repeated(n, from, |at| one_channel(s, end, at))
}
