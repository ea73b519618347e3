// The walk through the body, and past the tables that it defines.
ghost use Rattle.std.specs.Prelude.{◌≡◌};
ghost use Rattle.bytes_at.specs.Walks.{many};
ghost use Rattle.format.specs.Formats.{walks, walks_all};
ghost use Rattle.mgt.specs.Walked.{defined, tables, mgt};

use bytes_at::{Walk, at_end, repeated, skip, skip_fields, word_back};
use descriptor::{NO_TAG, whole_list12};

fn one_defined(s: &[u8], end: usize, at: usize) -> Walk
    ensures { result ≡ walks defined s.now end at }
{
    let b = skip_fields(at, 16, 16, 8, 32, end)?;
    whole_list12(s, NO_TAG, end, b)
}

// Past n defined tables: the one of number n begins there.
pub fn past(s: &[u8], end: usize, n: usize, from: usize) -> Walk
    ensures { result ≡ many (walks defined s.now end) n from }
{
    repeated(n, from, |at| one_defined(s, end, at))
}

// tables_defined, and the tables.
fn all_tables(s: &[u8], end: usize, at: usize) -> Walk
    ensures { result ≡ walks tables s.now end at }
{
    let b = skip(0, at, 2, end)?;
    past(s, end, word_back(s, b), b)
}

// The body from `at` to `end`.
pub fn body(s: &[u8], end: usize, at: usize) -> Walk
    ensures { result ≡ walks_all mgt s.now end at }
{
    let b = all_tables(s, end, at)?;
    let e = whole_list12(s, NO_TAG, end, b)?;
    at_end(e, end)
}
