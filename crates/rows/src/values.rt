// The rows of all values of all dimensions of an RRT. A row has six numbers: the dimension's number
// and the value's number in it, both counted from 0; where the short text begins, its length; where
// the long text begins, its length.
ghost use Rattle.std.specs.Prelude.{◌≡◌, ◌+◌, ◌*◌, ◌<◌, ◌≤◌, length};
ghost use Rattle.std.proofs.lemmas.List.Edits.{sets};
ghost use Rattle.rrt.specs.Fields.{values_end};
ghost use Rattle.rrt.specs.Inner.{ValuesStand};
ghost use Rattle.refusal.specs.Outcomes.{outcome};
ghost use Rattle.entry.specs.Entries.{entry_count, first_entry};
ghost use Rattle.entry.specs.Inner.{Begins};
ghost use Rattle.rows.specs.Values.{value_rows, dimension_rows, value_count, value_rows_in, value_rows_of, with_value_rows};
ghost use Rattle.rows.specs.Inner.{Entries};

use entry::{Entry, count_of, first_of};
use kind::Kind;
use refusal::Refusal;
use rrt::{dimension_end, first_value, put_value, values};
use section::judge_kind;

// The rows of n values of dimension i, the first of which begins at `from`, from p on, and where the
// values end.
fn put_values(s: &[u8], i: usize, n: usize, from: usize, p: usize, out: &mut [u32]) -> usize
    requires { (((i < 256) × (n < 16)) × (ValuesStand s.now n from × (length s.now ≤ 4096))) × (p + 6 * n ≤ length out.old) }
    ensures next { result ≡ values_end s.now n from }
    ensures puts { out.new ≡ sets out.old p (value_rows s.now i 0 n from) }
{
    let mut a = from;
    let mut q = p;
    for j in 0..n {
        a = put_value(s, i, j, a, q, out);
        q += 6;
    }
    a
}

// The rows of the values of n dimensions, the first of which begins at `from`.
fn put_dimensions(s: &[u8], n: usize, from: usize, out: &mut [u32])
    requires { ((n < 256) × Entries Entry.Dimension s.now n from) × (6 * value_count s.now n from ≤ length out.old) }
    ensures { out.new ≡ sets out.old 0 (dimension_rows s.now 0 n from) }
{
    let mut d = from;
    let mut p = 0;
    for i in 0..n {
        let size = values(s, d);
        d = put_values(s, i, size, first_value(s, d), p, out);
        p += 6 * size;
    }
}

// How many values n dimensions have, the first of which begins at `from`.
fn count_values(s: &[u8], n: usize, from: usize) -> usize
    requires { (n < 256) × Entries Entry.Dimension s.now n from }
    ensures { (result ≡ value_count s.now n from) × (result < 4096) }
{
    let mut d = from;
    let mut count = 0;
    for _ in 0..n {
        count += values(s, d);
        d = dimension_end(s, d);
    }
    count
}

// The rows of a section that was judged.
fn value_rows_in(s: &[u8], out: &mut [u32]) -> Result<usize, Refusal>
    requires { Begins Entry.Dimension s.now × Entries Entry.Dimension s.now (entry_count Entry.Dimension s.now) (first_entry Entry.Dimension s.now) }
    ensures told { outcome result ≡ value_rows_in s.now (length out.old) }
    ensures put { out.new ≡ with_value_rows s.now (value_rows_in s.now (length out.old)) out.old }
{
    let n = count_of(s, Entry::Dimension);
    let from = first_of(s, Entry::Dimension);
    let count = count_values(s, n, from);
    if out.len() < 6 * count {
        return Err(Refusal::OutputShort);
    }
    put_dimensions(s, n, from, out);
    Ok(count)
}

// The rows of all values.
pub fn value_rows(s: &[u8], out: &mut [u32]) -> Result<usize, Refusal>
    ensures told { outcome result ≡ value_rows_of s.now (length out.old) }
    ensures put { out.new ≡ with_value_rows s.now (value_rows_of s.now (length out.old)) out.old }
{
    judge_kind(s, Kind::Rrt)?;
    value_rows_in(s, out)
}
