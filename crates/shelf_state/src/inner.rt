// Under the rules' test: searches in a shelf and changes of one, for the calls.
ghost use Rattle.std.specs.Prelude.{◌≡◌, ◌≤◌, ◌<◌, length, take};
ghost use Rattle.shelf_state.specs.Records.{no_edition, blank_watch, blank_place};
ghost use Rattle.shelf_state.specs.Searches.{empty_shelf, find_watch, first_closed, find_place, first_free, set_watch, release, dropped, held_among};
ghost use Rattle.shelf_state.specs.Rules.{quota_of};
ghost use Rattle.shelf_state.specs.Tests.{room_in};

use crate::records::{Asked, Edition, Key, Place, Shelf, Watch, holds_for, holds_section, is_of};
pub use crate::records::{asked_of, key_of, same_key, wide};

// Of a shelf's arrays, what is in use.
pub fn watches_in_use(s: &Shelf) -> &[Watch]
    requires { s.now.records ≤ 16 }
    ensures { (result.now ≡ take s.now.records s.now.watches) × (length result.now ≡ s.now.records) }
{
    &s.watches[..s.records]
}

pub fn places_in_use(s: &Shelf) -> &[Place]
    requires { s.now.count ≤ 64 }
    ensures { (result.now ≡ take s.now.count s.now.places) × (length result.now ≡ s.now.count) }
{
    &s.places[..s.count]
}

// The first open watch with the key, or the number of all.
pub fn find_watch(ws: &[Watch], a: Asked) -> usize
    ensures { result ≡ find_watch ws.now (length ws.now) a }
{
    ws.iter().position(|w| is_of(*w, a)).unwrap_or(ws.len())
}

// The lowest record that is not open, or the number of all.
pub fn free_record(ws: &[Watch]) -> usize
    ensures { result ≡ first_closed ws.now (length ws.now) }
{
    ws.iter().position(|w| !w.live).unwrap_or(ws.len())
}

// The first place with the watch's section of that number, or the number of all.
pub fn find_place(ps: &[Place], w: usize, number: usize) -> usize
    ensures { result ≡ find_place ps.now (length ps.now) w number }
{
    ps.iter()
        .position(|p| holds_section(*p, w, number))
        .unwrap_or(ps.len())
}

// The lowest free place, or the number of all.
pub fn free_place(ps: &[Place]) -> usize
    ensures { result ≡ first_free ps.now (length ps.now) }
{
    ps.iter().position(|p| !p.used).unwrap_or(ps.len())
}

// How many sections the watch holds in the places.
pub fn held_in(ps: &[Place], w: usize) -> usize
    ensures { result ≡ held_among ps.now (length ps.now) w }
{
    let mut held = 0;
    for p in ps {
        if holds_for(*p, w) {
            held += 1;
        }
    }
    held
}

#[tactic(auto, using(logic::proofs::TestLaws::joined), unfolding(crate::specs::Rules::quota_of))]
pub fn quota_of(w: Watch) -> usize
    ensures { result ≡ quota_of w }
{
    if w.live { usize::from(w.quota) } else { 0 }
}

// Whether the quotas of the watches and `extra` more fit so many places.
pub fn room(ws: &[Watch], places: usize, extra: usize) -> bool
    ensures { result ≡ room_in ws.now (length ws.now) places extra }
{
    if extra > places {
        return false;
    }
    let mut left = places - extra;
    for w in ws {
        let q = quota_of(*w);
        if q > left {
            return false;
        }
        left -= q;
    }
    true
}

pub fn set_watch(s: Shelf, i: usize, w: Watch) -> Shelf
    requires { i < 16 }
    ensures { result ≡ set_watch s i w }
{
    let mut t = s;
    t.watches[i] = w;
    t
}

// Nothing has been heard.
pub fn no_edition() -> Edition
    ensures { result ≡ no_edition }
{
    Edition {
        heard: false,
        version: 0,
        last: 0,
    }
}

pub fn blank_watch() -> Watch
    ensures { result ≡ blank_watch }
{
    let k = Key {
        pid: 0,
        table_id: 0,
        extension: 0,
    };
    Watch {
        live: false,
        key: k,
        quota: 0,
        edition: no_edition(),
    }
}

pub fn blank_place() -> Place
    ensures { result ≡ blank_place }
{
    Place {
        used: false,
        watch: 0,
        number: 0,
        length: 0,
    }
}

// A shelf of closed records and free places.
pub fn empty_shelf(count: usize, records: usize) -> Shelf
    ensures { result ≡ empty_shelf count records }
{
    let w = blank_watch();
    let p = blank_place();
    Shelf {
        watches: [w; 16],
        records,
        places: [p; 64],
        count,
    }
}

// The place, free if it was the watch's.
#[tactic(auto, using(logic::proofs::TestLaws::joined), unfolding(crate::specs::Searches::release))]
pub fn released(p: Place, w: usize) -> Place
    ensures { result ≡ release w p }
{
    if holds_for(p, w) { blank_place() } else { p }
}

// The shelf without the watch's sections, and with this record in its place.
pub fn renew(s: Shelf, w: usize, x: Watch) -> Shelf
    requires { (w < 16) × (s.count ≤ 64) }
    ensures { result ≡ set_watch (dropped s w) w x }
{
    let mut t = s;
    t.watches[w] = x;
    for i in 0..s.count {
        t.places[i] = released(t.places[i], w);
    }
    t
}
