// What a call changed, found by comparing the shelf before it and after it: only that is written.
ghost use Rattle.std.specs.Prelude.{◌≡◌, ◌<◌, ◌≤◌, length};
ghost use Rattle.lent_memory.specs.Changes.{changed_at, rows_after};
ghost use Rattle.lent_memory.specs.Inner.{ending_of, RowsFit};

use crate::records::{Ending, blank_record, record_of};
use crate::rows::{at_most, write_row};
use shelf_state::Shelf;

// The first record below n that is another after the call, or n.
fn changed_at(s: &Shelf, t: &Shelf, n: usize) -> usize
    requires { n ≤ 16 }
    ensures { result ≡ changed_at s.now t.now n }
{
    for i in 0..n {
        if s.watches[i] != t.watches[i] {
            return i;
        }
    }
    n
}

fn ending_of(s: &Shelf, t: &Shelf, number: u32) -> Ending
    ensures { result ≡ ending_of s.now t.now number }
{
    let n = at_most(16, s.records);
    let at = changed_at(s, t, n);
    if at < n {
        return Ending {
            number,
            at,
            watch: record_of(t.watches[at]),
        };
    }
    Ending {
        number,
        at: s.records,
        watch: blank_record(),
    }
}

fn write_rows(l: &mut [u32], s: &Shelf, t: &Shelf)
    requires { RowsFit s.now.count (length l.old) }
    ensures { l.new ≡ rows_after s.now t.now l.old }
{
    for i in 0..at_most(64, s.count) {
        if s.places[i] != t.places[i] {
            write_row(l, i, t.places[i]);
        }
    }
}

// The rows are written, and the record is told. The shelves are lent to what compares them, since copies of them cost stack.
pub fn settle(l: &mut [u32], s: Shelf, t: Shelf, number: u32) -> Ending
    requires { RowsFit s.count (length l.old) }
    ensures { (result ≡ ending_of s t number) × (l.new ≡ rows_after s t l.old) }
{
    write_rows(l, &s, &t);
    ending_of(&s, &t, number)
}
