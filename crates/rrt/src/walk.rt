// The walk through the body, past its dimensions and past their values.
ghost use Rattle.std.specs.Prelude.{◌≡◌, ◌-◌, ℕ, Err, eqb};
ghost use Rattle.logic.specs.Choices.{pick};
ghost use Rattle.bytes_at.specs.Walks.{Walk, many};
ghost use Rattle.format.specs.Formats.{walks, walks_all};
ghost use Rattle.rrt.specs.Walked.{value, dimension, dimensions, dimensions_and_list, rrt};

use bytes_at::{Walk, at_end, back, repeated, skip, zero_count};
use descriptor::{NO_TAG, whole_list10};
use strings::sized_text;

// n times a step, from a place on. A count that is 0 is itself to blame; it stands just before.
fn one_or_more<F: Fn(usize) -> Walk>(n: usize, from: usize, step: F) -> Walk
    requires { F.IsAlwaysCallable step }
    ensures { (p : ℕ → Walk) → ((a : ℕ) (w : Walk) → F.post step a w → w ≡ p a) → result ≡ pick (eqb n 0) (Err (from - 1)) (many p n from) }
{
    if n == 0 {
        return zero_count(1, from);
    }
    repeated(n, from, step)
}

fn one_value(s: &[u8], end: usize, at: usize) -> Walk
    ensures { result ≡ walks value s.now end at }
{
    let b = sized_text(s, end, at)?;
    sized_text(s, end, b)
}

// Past n values: value n begins there.
pub fn past_values(s: &[u8], end: usize, n: usize, from: usize) -> Walk
    ensures { result ≡ many (walks value s.now end) n from }
{
    repeated(n, from, |at| one_value(s, end, at))
}

fn one_dimension(s: &[u8], end: usize, at: usize) -> Walk
    ensures { result ≡ walks dimension s.now end at }
{
    let b = sized_text(s, end, at)?;
    let d = skip(0, b, 1, end)?;
    one_or_more(back(s, d, 1) % 16, d, |at| one_value(s, end, at))
}

// Past n dimensions: dimension n begins there.
pub fn past(s: &[u8], end: usize, n: usize, from: usize) -> Walk
    ensures { result ≡ many (walks dimension s.now end) n from }
{
    repeated(n, from, |at| one_dimension(s, end, at))
}

// The count, and the dimensions.
fn all_dimensions(s: &[u8], end: usize, at: usize) -> Walk
    ensures { result ≡ walks dimensions s.now end at }
{
    let b = skip(0, at, 1, end)?;
    one_or_more(back(s, b, 1), b, |at| one_dimension(s, end, at))
}

// What follows the region name.
fn after_name(s: &[u8], end: usize, at: usize) -> Walk
    ensures { result ≡ walks dimensions_and_list s.now end at }
{
    let b = all_dimensions(s, end, at)?;
    whole_list10(s, NO_TAG, end, b)
}

// The body from `at` to `end`.
pub fn body(s: &[u8], end: usize, at: usize) -> Walk
    ensures { result ≡ walks_all rrt s.now end at }
{
    let b = sized_text(s, end, at)?;
    let e = after_name(s, end, b)?;
    at_end(e, end)
}
