// Opening, closing, status and fetching, each with its refusals in the order of SCOPE 6.2. What may be refused is asked of a shelf that is lent and
// answered as a `Result`; the call puts the shelf beside it.
ghost use Rattle.std.specs.Prelude.{◌≡◌, true, ◌≤◌, ◌<◌, length};
ghost use Rattle.refusal.specs.Outcomes.{outcome, outcome_by};
ghost use Rattle.shelf_state.specs.Records.{blank_watch};
ghost use Rattle.shelf_state.specs.Searches.{set_watch, dropped};
ghost use Rattle.shelf_state.specs.Rules.{in_range};
ghost use Rattle.shelf.specs.Answers.{after, after_by, status_told};
ghost use Rattle.shelf.specs.Calls.{made, fresh, opened, closed, status_after, fetched};
ghost use Rattle.shelf.specs.Inner.{opening, known, asking, fetching};

use crate::answers::{After, Progress};
use crate::inner::{fetch_from, progress_of};
use part::Part;
use refusal::Refusal;
use shelf_state::inner::{
    blank_watch, empty_shelf, find_watch, free_record, key_of, no_edition, renew, room, set_watch,
    watches_in_use,
};
use shelf_state::{Asked, Shelf, Watch, in_range, obeys_rules, sizes_in_range};

// A shelf with nothing on it.
pub fn empty(places: usize, records: usize) -> After<()>
    ensures { after result ≡ made places records }
{
    if !sizes_in_range(places, records) {
        return After {
            answer: Err(Refusal::ShelfBroken),
            shelf: empty_shelf(0, 0),
        };
    }
    After {
        answer: Ok(()),
        shelf: empty_shelf(places, records),
    }
}

// A watch that has heard nothing.
fn fresh_watch(a: Asked, quota: usize) -> Watch
    requires { in_range a quota ≡ true }
    ensures { result ≡ fresh a quota }
{
    Watch {
        live: true,
        key: key_of(a),
        quota: quota as u8,
        edition: no_edition(),
    }
}

// 14, 15, 19, 20 and 21, or the record that is opened.
fn record_for(s: &Shelf, area: &[u8], a: Asked, quota: usize) -> Result<usize, Refusal>
    ensures { outcome result ≡ opening s.now (length area.now) a quota }
{
    if !obeys_rules(s, area) {
        return Err(Refusal::ShelfBroken);
    }
    if !in_range(a, quota) {
        return Err(Refusal::OutOfRange);
    }
    let ws = watches_in_use(s);
    if find_watch(ws, a) < s.records {
        return Err(Refusal::AlreadyWatched);
    }
    let f = free_record(ws);
    if f >= s.records {
        return Err(Refusal::NoRecordLeft);
    }
    if !room(ws, s.count, quota) {
        return Err(Refusal::NoPlacesLeft);
    }
    Ok(f)
}

pub fn open(s: Shelf, area: &[u8], a: Asked, quota: usize) -> After<()>
    ensures { after result ≡ opened s (length area.now) a quota }
{
    match record_for(&s, area, a, quota) {
        Err(k) => After {
            answer: Err(k),
            shelf: s,
        },
        Ok(f) => After {
            answer: Ok(()),
            shelf: set_watch(s, f, fresh_watch(a, quota)),
        },
    }
}

// 14 and 17, or the watch of the key.
fn watch_of(s: &Shelf, area: &[u8], a: Asked) -> Result<usize, Refusal>
    ensures { outcome result ≡ known s.now (length area.now) a }
{
    if !obeys_rules(s, area) {
        return Err(Refusal::ShelfBroken);
    }
    let w = find_watch(watches_in_use(s), a);
    if w >= s.records {
        return Err(Refusal::NotWatched);
    }
    Ok(w)
}

// The shelf without the watch and its sections.
fn without(s: Shelf, w: usize) -> Shelf
    requires { (w < 16) × (s.count ≤ 64) }
    ensures { result ≡ set_watch (dropped s w) w blank_watch }
{
    renew(s, w, blank_watch())
}

pub fn close(s: Shelf, area: &[u8], a: Asked) -> After<()>
    ensures { after result ≡ closed s (length area.now) a }
{
    match watch_of(&s, area, a) {
        Err(k) => After {
            answer: Err(k),
            shelf: s,
        },
        Ok(w) => After {
            answer: Ok(()),
            shelf: without(s, w),
        },
    }
}

fn status_in(s: &Shelf, area: &[u8], a: Asked) -> Result<Progress, Refusal>
    ensures { outcome_by status_told result ≡ asking s.now (length area.now) a }
{
    let w = watch_of(s, area, a)?;
    Ok(progress_of(s, w))
}

pub fn status(s: Shelf, area: &[u8], a: Asked) -> After<Progress>
    ensures { after_by status_told result ≡ status_after s (length area.now) a }
{
    After {
        answer: status_in(&s, area, a),
        shelf: s,
    }
}

fn fetch_in(s: &Shelf, area: &[u8], a: Asked, number: usize) -> Result<Part, Refusal>
    ensures { outcome result ≡ fetching s.now (length area.now) a number }
{
    let w = watch_of(s, area, a)?;
    fetch_from(s, w, number)
}

pub fn fetch(s: Shelf, area: &[u8], a: Asked, number: usize) -> After<Part>
    ensures { after result ≡ fetched s (length area.now) a number }
{
    After {
        answer: fetch_in(&s, area, a, number),
        shelf: s,
    }
}
