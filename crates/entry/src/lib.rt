// The entries that tables repeat, and where entry i of a section begins.
#![tactic(auto)]

ghost use Rattle.std.specs.Prelude.{◌≡◌, ◌≤◌, length};
ghost use Rattle.refusal.specs.Outcomes.{outcome};
ghost use Rattle.bytes_at.specs.Walks.{standing};
ghost use Rattle.entry.specs.Entries.{entry_count, first_entry, entry_walk, spot_in, spot_of, rest_in, value_spot};
ghost use Rattle.entry.specs.Records.{kind_of_entry};
ghost use Rattle.entry.specs.Inner.{Begins, Inside};

use bytes_at::Walk;
use kind::Kind;
use refusal::Refusal;
use section::inner::{body_end, body_start};
use section::judge_kind;

#[derive(Clone, Copy)]
pub enum Entry {
    Table,
    Channel,
    Dimension,
    Event,
}

// The kind of table that repeats the entry.
pub fn table_of(entry: Entry) -> Kind
    ensures { result ≡ kind_of_entry entry }
{
    match entry {
        Entry::Table => Kind::Mgt,
        Entry::Channel => Kind::Tvct,
        Entry::Dimension => Kind::Rrt,
        Entry::Event => Kind::Eit,
    }
}

// How many entries a section that was judged has.
pub fn count_of(s: &[u8], entry: Entry) -> usize
    requires { Begins entry s.now }
    ensures { result ≡ entry_count entry s.now }
{
    match entry {
        Entry::Table => mgt::count(s, body_start(Kind::Mgt)),
        Entry::Channel => tvct::count(s, body_start(Kind::Tvct)),
        Entry::Dimension => rrt::count(s, body_start(Kind::Rrt)),
        Entry::Event => eit::count(s, body_start(Kind::Eit)),
    }
}

// Where the first begins.
pub fn first_of(s: &[u8], entry: Entry) -> usize
    requires { Begins entry s.now }
    ensures { result ≡ first_entry entry s.now }
{
    match entry {
        Entry::Table => mgt::first(body_start(Kind::Mgt)),
        Entry::Channel => tvct::first(body_start(Kind::Tvct)),
        Entry::Dimension => rrt::first(s, body_start(Kind::Rrt)),
        Entry::Event => eit::first(body_start(Kind::Eit)),
    }
}

// Past i entries: entry i begins there.
fn past(s: &[u8], entry: Entry, i: usize) -> Walk
    requires { Begins entry s.now }
    ensures { result ≡ entry_walk entry s.now i }
{
    let end = body_end(s);
    let from = first_of(s, entry);
    match entry {
        Entry::Table => mgt::past(s, end, i, from),
        Entry::Channel => channel::past(s, end, i, from),
        Entry::Dimension => rrt::past(s, end, i, from),
        Entry::Event => eit::past(s, end, i, from),
    }
}

// Where the walk past i entries stands.
fn spot_past(s: &[u8], entry: Entry, i: usize) -> Result<usize, Refusal>
    requires { Begins entry s.now }
    ensures { (outcome result ≡ standing (entry_walk entry s.now i)) × Inside s.now result }
{
    past(s, entry, i).map_err(|_| Refusal::Body)
}

// Where entry i of a section that was judged begins.
pub fn spot_in(s: &[u8], entry: Entry, i: usize) -> Result<usize, Refusal>
    requires { Begins entry s.now }
    ensures { (outcome result ≡ spot_in entry s.now i) × Inside s.now result }
{
    if i < count_of(s, entry) {
        spot_past(s, entry, i)
    } else {
        Err(Refusal::NoSuchEntry)
    }
}

// Where what follows all entries of a section that was judged begins.
pub fn rest_in(s: &[u8], entry: Entry) -> Result<usize, Refusal>
    requires { Begins entry s.now }
    ensures { (outcome result ≡ rest_in entry s.now) × Inside s.now result }
{
    spot_past(s, entry, count_of(s, entry))
}

// Where entry i of any section begins.
pub fn spot_of(s: &[u8], entry: Entry, i: usize) -> Result<usize, Refusal>
    ensures { (outcome result ≡ spot_of entry s.now i) × Inside s.now result }
{
    judge_kind(s, table_of(entry))?;
    spot_in(s, entry, i)
}

// Where value j of the dimension that begins at d begins.
pub fn value_spot(s: &[u8], d: usize, j: usize) -> Result<usize, Refusal>
    requires { d ≤ length s.now }
    ensures { (outcome result ≡ value_spot s.now d j) × Inside s.now result }
{
    if j >= rrt::values(s, d) {
        return Err(Refusal::NoSuchEntry);
    }
    rrt::past_values(s, body_end(s), j, rrt::first_value(s, d)).map_err(|_| Refusal::Body)
}
