// Shelves that are made and used within one call, since a shelf does not cross to C. Watch w has the PID w, and all
// watches have one quota and sections of the same numbers. With no rounds the making alone is measured.
ghost use Rattle.std.specs.Prelude.{◌≡◌, ◌≤◌};

use bytes_at::word;
use part::part_of;
use shelf::Progress;
use shelf_state::{Asked, Shelf};

// A shelf, and how many of the calls that led to it answered as the measurement wants.
#[derive(Clone, Copy)]
struct Tally {
    good: u64,
    shelf: Shelf,
}

pub fn key(w: usize) -> Asked
    ensures { result.pid ≡ w }
{
    shelf_bytes::named(w, 0xCB, 7)
}

// An empty shelf for the area, with its watches open.
fn opened(area: &[u8], watches: usize, quota: usize) -> Shelf {
    let mut s = shelf::empty(area.len() / 4096, watches).shelf;
    for w in 0..watches {
        s = shelf::open(s, area, key(w), quota).shelf;
    }
    s
}

// One more, as far as there are numbers, where a call answered well.
fn counted(good: u64, well: bool) -> u64
    ensures { good ≤ result }
{
    good.saturating_add(u64::from(well))
}

// A delivery, counted where it is done.
fn deliver_one(t: Tally, area: &mut [u8], w: usize, section: &[u8]) -> Tally
    ensures { t.good ≤ result.good }
{
    let r = shelf::deliver(t.shelf, area, w, section);
    Tally {
        good: counted(t.good, r.answer.is_ok()),
        shelf: r.shelf,
    }
}

// The sections that stand in `run` one after the other, each as long as it says, to one watch.
fn deliver_run(t: Tally, area: &mut [u8], w: usize, run: &[u8]) -> Tally
    ensures { t.good ≤ result.good }
{
    let mut u = t;
    let mut at = 0;
    while at < run.len() {
        let n = word(run, at + 1) % 4096 + 3;
        u = deliver_one(u, area, w, part_of(run, at, n));
        at += n;
    }
    u
}

// The same to every watch.
fn deliver_all(t: Tally, area: &mut [u8], watches: usize, run: &[u8]) -> Tally
    ensures { t.good ≤ result.good }
{
    let mut u = t;
    for w in 0..watches {
        u = deliver_run(u, area, w, run);
    }
    u
}

// A shelf on which every watch has been delivered the sections of `run`; nothing counted yet.
fn filled(area: &mut [u8], watches: usize, quota: usize, run: &[u8]) -> Tally
    ensures { result.good ≡ 0 }
{
    let t = Tally {
        good: 0,
        shelf: opened(area, watches, quota),
    };
    Tally {
        good: 0,
        shelf: deliver_all(t, area, watches, run).shelf,
    }
}

// How many deliveries are done when, on a shelf filled with `first`, every watch is delivered the sections
// of `then` in each round.
#[unsafe(no_mangle)]
pub extern "C" fn bench_deliveries(
    area: &mut [u8],
    watches: usize,
    quota: usize,
    first: &[u8],
    then: &[u8],
    rounds: usize,
) -> u64
    ensures { rounds ≡ 0 → result ≡ 0 }
{
    let mut t = filled(area, watches, quota, first);
    for _ in 0..rounds {
        t = deliver_all(t, area, watches, then);
    }
    t.good
}

// A status call, counted where the watch is complete.
fn ask_one(t: Tally, area: &[u8], w: usize) -> Tally
    ensures { t.good ≤ result.good }
{
    let r = shelf::status(t.shelf, area, key(w));
    Tally {
        good: counted(t.good, matches!(r.answer, Ok(Progress::Complete { .. }))),
        shelf: r.shelf,
    }
}

fn ask_all(t: Tally, area: &[u8], watches: usize) -> Tally
    ensures { t.good ≤ result.good }
{
    let mut u = t;
    for w in 0..watches {
        u = ask_one(u, area, w);
    }
    u
}

// How many watches are found complete when, on a shelf filled with `first`, every watch is asked for its
// status in each round.
#[unsafe(no_mangle)]
pub extern "C" fn bench_statuses(
    area: &mut [u8],
    watches: usize,
    quota: usize,
    first: &[u8],
    rounds: usize,
) -> u64
    ensures { rounds ≡ 0 → result ≡ 0 }
{
    let mut t = filled(area, watches, quota, first);
    for _ in 0..rounds {
        t = ask_all(t, area, watches);
    }
    t.good
}
