// The digest of a shelf's records and places, for the programs that run histories of calls.
#![tactic(auto)]

use shelf_state::{Edition, Key, Place, Shelf, Watch};
use test_lines::digest::{Sums, none, number, told};

fn flag(d: Sums, b: bool) -> Sums {
    number(d, usize::from(b))
}

fn key(d: Sums, k: Key) -> Sums {
    let e = number(d, usize::from(k.pid));
    let f = number(e, usize::from(k.table_id));
    number(f, usize::from(k.extension))
}

fn edition(d: Sums, x: Edition) -> Sums {
    let e = flag(d, x.heard);
    let f = number(e, usize::from(x.version));
    number(f, usize::from(x.last))
}

fn watch(d: Sums, w: Watch) -> Sums {
    let e = flag(d, w.live);
    let f = key(e, w.key);
    let g = number(f, usize::from(w.quota));
    edition(g, w.edition)
}

fn place(d: Sums, p: Place) -> Sums {
    let e = flag(d, p.used);
    let f = number(e, usize::from(p.watch));
    let g = number(f, usize::from(p.number));
    number(g, usize::from(p.length))
}

fn watches(d: Sums, s: Shelf) -> Sums {
    let mut e = number(d, s.records);
    for w in s.watches.iter().take(s.records) {
        e = watch(e, *w);
    }
    e
}

fn places(d: Sums, s: Shelf) -> Sums {
    let mut e = number(d, s.count);
    for p in s.places.iter().take(s.count) {
        e = place(e, *p);
    }
    e
}

// The sizes, and the records and places that are in use.
pub fn of_records(s: Shelf) -> usize {
    told(places(watches(none(), s), s))
}
