// All events of an EIT with the text of their titles: the section is judged once, and two lent lists take a row for each event and
// the units of all titles.
#![tactic(auto)]

mod title;

ghost use Rattle.std.specs.Prelude.{◌≡◌, true, false, ◌*◌, ◌<◌, ◌≤◌, length};
ghost use Rattle.std.proofs.lemmas.List.Edits.{sets};
ghost use Rattle.refusal.specs.Outcomes.{outcome};
ghost use Rattle.eit.specs.Inner.{Events};
ghost use Rattle.titles.specs.Titles.{event_count, first_event, units_from, title_rows_from, titles_in, titles_of, with_title_rows, with_units};

use crate::title::{put_title, read_title, units_of};
use eit::{count, event_end, first, put_row};
use kind::Kind;
use refusal::Refusal;
use section::inner::body_start;
use section::judge_kind;
pub use title::{NO_STRINGS, NO_TITLE, NO_VALUE, TEXT};

// How many events there are, and how many units their titles have.
#[derive(Clone, Copy)]
pub struct Counts {
    pub events: usize,
    pub units: usize,
}

// How many units the titles of k events have, the first of which begins at `from`.
fn count_units(s: &[u8], k: usize, from: usize, o: &mut [u16; 2040]) -> usize
    requires { Events s.now k from }
    ensures { result ≡ length (units_from s.now k from) }
{
    let mut a = from;
    let mut n = 0;
    for _ in 0..k {
        n += units_of(read_title(s, a, o));
        a = event_end(s, a);
    }
    n
}

// Whether a list of so many units has room for theirs. A byte has at most eight units, so that a long list needs no count.
fn has_room(s: &[u8], k: usize, from: usize, o: &mut [u16; 2040], room: usize) -> bool
    requires { Events s.now k from }
    ensures enough { (result ≡ true) → length (units_from s.now k from) ≤ room }
    ensures short { (result ≡ false) → room < length (units_from s.now k from) }
{
    if 8 * s.len() <= room {
        return true;
    }
    count_units(s, k, from, o) <= room
}

// Their rows and units, and how many units there are.
fn put_titles(
    s: &[u8],
    k: usize,
    from: usize,
    o: &mut [u16; 2040],
    rows: &mut [u32],
    units: &mut [u16],
) -> usize
    requires { Events s.now k from × (12 * k ≤ length rows.old) × (length (units_from s.now k from) ≤ length units.old) }
    ensures counts { result ≡ length (units_from s.now k from) }
    ensures rows { rows.new ≡ sets rows.old 0 (title_rows_from s.now 0 k from) }
    ensures units { units.new ≡ sets units.old 0 (units_from s.now k from) }
{
    let mut a = from;
    let mut p = 0;
    let mut n = 0;
    for _ in 0..k {
        let next = put_row(s, a, p, rows);
        n = put_title(s, a, p + 8, n, o, rows, units);
        a = next;
        p += 12;
    }
    n
}

// The events and titles of a section that was judged. The array is there once for all titles.
fn titles_in(s: &[u8], rows: &mut [u32], units: &mut [u16]) -> Result<Counts, Refusal>
    requires { Events s.now (event_count s.now) first_event }
    ensures told { outcome result ≡ titles_in s.now (length rows.old) (length units.old) }
    ensures rows { rows.new ≡ with_title_rows s.now (titles_in s.now (length rows.old) (length units.old)) rows.old }
    ensures units { units.new ≡ with_units s.now (titles_in s.now (length rows.old) (length units.old)) units.old }
{
    let at = body_start(Kind::Eit);
    let k = count(s, at);
    let from = first(at);
    if rows.len() < 12 * k {
        return Err(Refusal::OutputShort);
    }
    let mut o = [0u16; 2040];
    if has_room(s, k, from, &mut o, units.len()) {
        let n = put_titles(s, k, from, &mut o, rows, units);
        return Ok(Counts {
            events: k,
            units: n,
        });
    }
    Err(Refusal::OutputShort)
}

// All events, and their titles' first strings.
pub fn titles(s: &[u8], rows: &mut [u32], units: &mut [u16]) -> Result<Counts, Refusal>
    ensures told { outcome result ≡ titles_of s.now (length rows.old) (length units.old) }
    ensures rows { rows.new ≡ with_title_rows s.now (titles_of s.now (length rows.old) (length units.old)) rows.old }
    ensures units { units.new ≡ with_units s.now (titles_of s.now (length rows.old) (length units.old)) units.old }
{
    judge_kind(s, Kind::Eit)?;
    titles_in(s, rows, units)
}
