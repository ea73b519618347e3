// One title: it is read into an array that has room for every text of 255 bytes, and put into the lent lists from there.
ghost use Rattle.std.specs.Prelude.{◌≡◌, ◌+◌, ◌<◌, ◌≤◌, length};
ghost use Rattle.std.proofs.lemmas.List.Edits.{sets};
ghost use Rattle.refusal.specs.Numbers.{number_of};
ghost use Rattle.eit.specs.declared.event.Title;
ghost use Rattle.titles.specs.Titles.{told_of, title_told, units_told, blank_row, title_row};
ghost use Rattle.titles.specs.Inner.{Read, unit_count, replaced_in, row_of};

use eit::{Title, title_at};
use part::{Part, part_of};
use refusal::Refusal;
use row::{narrow, put_all};
use text::Amount;
use text::inner::{copy_units, string_read};

// The sorts of a title in its row; one whose text is refused has the refusal's number for its sort.
pub const NO_TITLE: u32 = 1;

pub const NO_STRINGS: u32 = 2;

pub const TEXT: u32 = 3;

// What stands for a number that a title does not have: a blank is not a nought.
pub const NO_VALUE: u32 = 0xffff_ffff;

// A title that was read; the units of a text stand at the array's start.
#[derive(Clone, Copy)]
pub enum Found {
    NoTitle,
    NoStrings,
    Text(Result<Amount, Refusal>),
}

// The text of a title that stands at p.
fn read_text(s: &[u8], p: Part, o: &mut [u16; 2040]) -> Found
    requires { p.length < 256 }
    ensures { Read (told_of s.now (Title.Text p)) result o.new }
{
    let f = part_of(s, p.start, p.length);
    Found::Text(string_read(f, f.len(), 0, 0, o))
}

// The title of the event that begins at a.
pub fn read_title(s: &[u8], a: usize, o: &mut [u16; 2040]) -> Found
    requires { a ≤ length s.now }
    ensures { Read (title_told s.now a) result o.new }
{
    match title_at(s, a) {
        Title::None => Found::NoTitle,
        Title::NoStrings => Found::NoStrings,
        Title::Text(p) => read_text(s, p, o),
    }
}

// How many units it has.
pub fn units_of(t: Found) -> usize
    ensures { result ≡ unit_count t }
{
    match t {
        Found::Text(Ok(a)) => a.units,
        _ => 0,
    }
}

// The four numbers of a title that is no text, from p on.
#[tactic(auto, unfolding(crate::specs::Titles::blank_row))]
fn put_blank(sort: u32, p: usize, rows: &mut [u32])
    requires { p + 4 ≤ length rows.old }
    ensures { rows.new ≡ sets rows.old p (blank_row sort) }
{
    put_all(rows, p, [sort, NO_VALUE, NO_VALUE, NO_VALUE]);
}

fn number_of(k: Refusal) -> u32
    ensures { result ≡ number_of k }
{
    k.number() as u32
}

// The four numbers of a title whose units begin at n, from p on.
fn put_found(t: Found, n: usize, p: usize, rows: &mut [u32])
    requires { ((n < 4294967296) × ((unit_count t ≤ 2040) × (replaced_in t < 256))) × (p + 4 ≤ length rows.old) }
    ensures { rows.new ≡ sets rows.old p (row_of n t) }
{
    match t {
        Found::NoTitle => put_blank(NO_TITLE, p, rows),
        Found::NoStrings => put_blank(NO_STRINGS, p, rows),
        Found::Text(r) => match r {
            Ok(a) => put_all(
                rows,
                p,
                [TEXT, narrow(n), narrow(a.units), narrow(a.replaced)],
            ),
            Err(k) => put_blank(number_of(k), p, rows),
        },
    }
}

// The title of the event that begins at a: its four numbers from p on, and its units from n on; and where the next title's begin.
pub fn put_title(
    s: &[u8],
    a: usize,
    p: usize,
    n: usize,
    o: &mut [u16; 2040],
    rows: &mut [u32],
    units: &mut [u16],
) -> usize
    requires { (a ≤ length s.now) × (p + 4 ≤ length rows.old) × (n < 4294967296) × (n + length (units_told (title_told s.now a)) ≤ length units.old) }
    ensures next { result ≡ n + length (units_told (title_told s.now a)) }
    ensures rows { rows.new ≡ sets rows.old p (title_row n (title_told s.now a)) }
    ensures units { units.new ≡ sets units.old n (units_told (title_told s.now a)) }
{
    let t = read_title(s, a, o);
    let k = units_of(t);
    put_found(t, n, p, rows);
    copy_units(o, k, units, n);
    n + k
}
