// The rules of the shelf, tested: a pass over the watches, a pass over the places.
ghost use Rattle.std.specs.Prelude.{◌≡◌, true, false, ℕ, ◌+◌, ◌*◌, ◌≤◌, ◌<◌, length, get_or};
ghost use Rattle.kind.specs.Kinds.{kind_of};
ghost use Rattle.shelf_state.specs.Rules.{watchable, in_range, sizes_in_range, sizes_fit, obeys};
ghost use Rattle.shelf_state.specs.Tests.{last_ok, watch_sound, key_is_new, watches_ok, sound_under, places_ok};

use crate::inner::{find_watch, room, watches_in_use};
use crate::records::{Asked, Place, Shelf, Watch, asked_of};
use kind::Kind;

#[tactic(auto, using(logic::proofs::TestLaws::joined), unfolding(crate::specs::Rules::watchable))]
fn watchable_id(id: usize) -> bool
    ensures { result ≡ watchable (kind_of id) }
{
    match Kind::of(id) {
        Some(kind) => kind.limits().watched,
        None => false,
    }
}

// Whether a watch of this key and quota may be opened, refusal 15.
#[tactic(auto, using(logic::proofs::TestLaws::joined), unfolding(crate::specs::Rules::in_range))]
pub fn in_range(a: Asked, quota: usize) -> bool
    ensures { result ≡ in_range a quota }
{
    a.pid <= 8191 && watchable_id(a.table_id) && 1 <= quota && quota <= 64
}

#[tactic(auto, using(logic::proofs::TestLaws::joined), unfolding(crate::specs::Tests::last_ok))]
fn last_ok(w: Watch) -> bool
    ensures { result ≡ last_ok w }
{
    let e = w.edition;
    !e.heard || e.last < w.quota
}

// Whether a watch's own numbers are sound.
#[tactic(auto, using(logic::proofs::TestLaws::joined), unfolding(crate::specs::Tests::watch_sound))]
fn watch_sound(w: Watch) -> bool
    ensures { result ≡ watch_sound w }
{
    !w.live || in_range(asked_of(w.key), usize::from(w.quota)) && last_ok(w)
}

// Whether no open watch below i has the key of the watch at i.
#[tactic(auto, using(logic::proofs::TestLaws::joined), unfolding(crate::specs::Tests::key_is_new))]
fn key_is_new(ws: &[Watch], i: usize) -> bool
    requires { i < length ws.now }
    ensures { result ≡ key_is_new ws.now i }
{
    let w = ws[i];
    !w.live || find_watch(&ws[..i], asked_of(w.key)) == i
}

fn watches_ok(ws: &[Watch]) -> bool
    ensures { result ≡ watches_ok ws.now (length ws.now) }
{
    for i in 0..ws.len() {
        if !watch_sound(ws[i]) {
            return false;
        }
        if !key_is_new(ws, i) {
            return false;
        }
    }
    true
}

// Whether a watch may hold the section.
#[tactic(auto, using(logic::proofs::TestLaws::joined), unfolding(crate::specs::Tests::sound_under))]
fn sound_under(w: Watch, p: Place) -> bool
    ensures { result ≡ sound_under w p }
{
    let e = w.edition;
    p.length <= 4096 && w.live && e.heard && p.number <= e.last
}

// A flag for each number of each watch, none set.
fn none_seen() -> [bool; 1024]
    ensures { (length result ≡ 1024) × ((k : ℕ) → get_or result k false ≡ false) }
{
    [false; 1024]
}

// Where the flag of a section stands.
fn flag_of(p: Place) -> usize
    ensures { result ≡ p.watch * 64 + p.number }
{
    usize::from(p.watch) * 64 + usize::from(p.number)
}

// One pass: the flags say which sections were met.
fn places_ok(s: &Shelf) -> bool
    requires { (s.now.count ≤ 64) × (s.now.records ≤ 16) × (watches_ok s.now.watches s.now.records ≡ true) }
    ensures { result ≡ places_ok s.now }
{
    let mut seen = none_seen();
    for i in 0..s.count {
        let p = s.places[i];
        if p.used {
            let o = usize::from(p.watch);
            if o >= s.records {
                return false;
            }
            if !sound_under(s.watches[o], p) {
                return false;
            }
            let k = flag_of(p);
            if seen[k] {
                return false;
            }
            seen[k] = true;
        }
    }
    true
}

// The arrays' lengths, for the proofs.
fn formed(w: &[Watch; 16], p: &[Place; 64]) -> bool
    ensures { (length w.now ≡ 16) × (length p.now ≡ 64) }
{
    true
}

#[tactic(auto, using(logic::proofs::TestLaws::joined), unfolding(crate::specs::Rules::sizes_in_range))]
pub fn sizes_in_range(places: usize, records: usize) -> bool
    ensures { result ≡ sizes_in_range places records }
{
    1 <= places && places <= 64 && 1 <= records && records <= 16
}

#[tactic(auto, using(logic::proofs::TestLaws::joined), unfolding(crate::specs::Rules::sizes_fit))]
fn sizes_fit(s: &Shelf, area: usize) -> bool
    ensures { result ≡ sizes_fit s.now area }
{
    formed(&s.watches, &s.places);
    sizes_in_range(s.count, s.records) && area == s.count * 4096
}

// Whether the shelf obeys its rules and fits the area, refusal 14. The shelf is lent, since a copy of it costs stack.
pub fn obeys_rules(s: &Shelf, area: &[u8]) -> bool
    ensures { result ≡ obeys s.now (length area.now) }
{
    if !sizes_fit(s, area.len()) {
        return false;
    }
    let ws = watches_in_use(s);
    watches_ok(ws) && room(ws, s.count, 0) && places_ok(s)
}
