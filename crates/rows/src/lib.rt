// All entries of a table at once, and all values of an RRT: the section is judged once, and a lent
// list of numbers takes a row for each.
#![tactic(auto)]

mod values;

ghost use Rattle.std.specs.Prelude.{◌≡◌, ◌+◌, ◌*◌, ◌≤◌, length};
ghost use Rattle.std.proofs.lemmas.List.Edits.{sets};
ghost use Rattle.refusal.specs.Outcomes.{outcome};
ghost use Rattle.entry.specs.Entries.{entry_count, first_entry};
ghost use Rattle.entry.specs.Inner.{Begins};
ghost use Rattle.rows.specs.Rows.{row_width, row_at, next_at, rows_from, rows_in, rows_of, with_rows};
ghost use Rattle.rows.specs.Inner.{Entries};

pub use entry::Entry;
use entry::{count_of, first_of, table_of};
use refusal::Refusal;
use section::judge_kind;
pub use values::value_rows;

// How many numbers the row of an entry has. A table's row has six numbers: table_type, PID, version, number_bytes,
// where the descriptors begin, descriptors_length. A channel's has 21: the seven units of the short
// name, major, minor, modulation, carrier, channel_TSID, program_number, ETM_location,
// access_controlled, hidden, the six bits, service_type, source_id, where the descriptors begin,
// descriptors_length. A dimension's has four: where the name begins, name_length, graduated_scale,
// the number of its values. An event's has eight: event_id, start_time, ETM_location,
// length_in_seconds, where the title begins, title_length, where the descriptors begin,
// descriptors_length.
fn width_of(entry: Entry) -> usize
    ensures { (result ≡ row_width entry) × (result ≤ 21) }
{
    match entry {
        Entry::Table => 6,
        Entry::Channel => 21,
        Entry::Dimension => 4,
        Entry::Event => 8,
    }
}

// The row of the entry that begins at a, from p on, and where the next one begins.
fn put_row(s: &[u8], entry: Entry, a: usize, p: usize, out: &mut [u32]) -> usize
    requires { Entries entry s.now 1 a × (p + row_width entry ≤ length out.old) }
    ensures next { result ≡ next_at entry s.now a }
    ensures puts { out.new ≡ sets out.old p (row_at entry s.now a) }
{
    match entry {
        Entry::Table => mgt::put_row(s, a, p, out),
        Entry::Channel => channel::put_row(s, a, p, out),
        Entry::Dimension => rrt::put_row(s, a, p, out),
        Entry::Event => eit::put_row(s, a, p, out),
    }
}

// The rows of n entries, the first of which begins at `from`.
fn put_rows(s: &[u8], entry: Entry, n: usize, from: usize, out: &mut [u32])
    requires { Entries entry s.now n from × (row_width entry * n ≤ length out.old) }
    ensures { out.new ≡ sets out.old 0 (rows_from entry s.now n from) }
{
    let size = width_of(entry);
    let mut a = from;
    let mut p = 0;
    for _ in 0..n {
        a = put_row(s, entry, a, p, out);
        p += size;
    }
}

// The rows of a section that was judged.
fn rows_in(s: &[u8], entry: Entry, out: &mut [u32]) -> Result<usize, Refusal>
    requires { Begins entry s.now × Entries entry s.now (entry_count entry s.now) (first_entry entry s.now) }
    ensures told { outcome result ≡ rows_in entry s.now (length out.old) }
    ensures put { out.new ≡ with_rows entry s.now (rows_in entry s.now (length out.old)) out.old }
{
    let n = count_of(s, entry);
    if out.len() < width_of(entry) * n {
        return Err(Refusal::OutputShort);
    }
    put_rows(s, entry, n, first_of(s, entry), out);
    Ok(n)
}

// The rows of all entries.
pub fn rows(s: &[u8], entry: Entry, out: &mut [u32]) -> Result<usize, Refusal>
    ensures told { outcome result ≡ rows_of entry s.now (length out.old) }
    ensures put { out.new ≡ with_rows entry s.now (rows_of entry s.now (length out.old)) out.old }
{
    judge_kind(s, table_of(entry))?;
    rows_in(s, entry, out)
}
