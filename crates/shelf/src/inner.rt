// Questions to a watch by its record, on a shelf that obeys its rules: for the calls, and for what is told of kept sections above them.
ghost use Rattle.std.specs.Prelude.{◌≡◌, ◌≤◌, ◌<◌, length};
ghost use Rattle.refusal.specs.Outcomes.{outcome};
ghost use Rattle.shelf_state.specs.Records.{watch_at};
ghost use Rattle.shelf_state.specs.Rules.{held_by};
ghost use Rattle.shelf.specs.Answers.{status_told};
ghost use Rattle.shelf.specs.Calls.{held_numbers, fetched_from};
ghost use Rattle.shelf.specs.Inner.{lowest_missing, kept_bytes, readable_in};
ghost use Rattle.shelf.specs.Views.{status_of};

use crate::answers::Progress;
use part::{Part, part_of};
use refusal::Refusal;
use section::judge_any;
use shelf_state::Shelf;
use shelf_state::inner::{find_place, held_in, places_in_use, wide};

// The status of a watch: on a shelf that obeys its rules the places it holds are as many as its numbers.
pub fn progress_of(s: &Shelf, w: usize) -> Progress
    requires { (w < 16) × (s.now.count ≤ 64) × (held_by s.now w ≡ held_numbers s.now w) }
    ensures { status_told result ≡ status_of (watch_at s.now w).edition (held_numbers s.now w) }
{
    let x = s.watches[w];
    let e = x.edition;
    if !e.heard {
        return Progress::NothingHeard;
    }
    let of = usize::from(e.last) + 1;
    let held = held_in(places_in_use(s), w);
    if held == of {
        return Progress::Complete { of };
    }
    Progress::Part { held, of }
}

// 22, or where the section is kept.
pub fn fetch_from(s: &Shelf, w: usize, number: usize) -> Result<Part, Refusal>
    requires { s.now.count ≤ 64 }
    ensures { outcome result ≡ (fetched_from s.now w number).outcome }
{
    let i = find_place(places_in_use(s), w, number);
    if i >= s.count {
        return Err(Refusal::NotHeld);
    }
    let p = s.places[i];
    Ok(Part {
        start: i * 4096,
        length: usize::from(p.length),
    })
}

// The lowest number up to last that the watch lacks, or last + 1.
pub fn lowest_missing(s: Shelf, w: usize) -> usize
    requires { (w < 16) × (s.count ≤ 64) }
    ensures { result ≡ lowest_missing s w }
{
    let x = s.watches[w];
    let e = x.edition;
    let n = wide(e.last) + 1;
    let ps = places_in_use(&s);
    for m in 0..n {
        if find_place(ps, w, m) >= s.count {
            return m;
        }
    }
    n
}

// The bytes of a kept section, where they stand; no byte where it is not held.
pub fn kept(s: Shelf, area: &[u8], w: usize, number: usize) -> &[u8]
    requires { s.count ≤ 64 }
    ensures { result.now ≡ kept_bytes s area.now w number }
{
    let i = find_place(places_in_use(&s), w, number);
    if i >= s.count {
        return part_of(area, 0, 0);
    }
    let p = s.places[i];
    part_of(area, i * 4096, usize::from(p.length))
}

// Whether the watch holds the section and it passes the tests 1 to 9: kept bytes are not judged by the shelf's rules.
pub fn readable(s: Shelf, area: &[u8], w: usize, number: usize) -> bool
    requires { s.count ≤ 64 }
    ensures { result ≡ readable_in s area.now w number }
{
    judge_any(kept(s, area, w, number)).is_ok()
}
