// The lent list of watch records: read into a book of sixteen watches by value, and one record written back.
ghost use Rattle.std.specs.Prelude.{◌≡◌, get_or, set};
ghost use Rattle.lent_memory.specs.Meaning.{blank, is_on, watch_meant, lent_record};
ghost use Rattle.lent_memory.specs.Inner.{four_at, sixteen, Gathered};

use shelf_state::inner::blank_watch;
use shelf_state::{Edition, Key, Watch};

// A watch record as it is lent: `live` and `heard` are set where they are not 0.
#[repr(C)]
#[derive(Clone, Copy)]
pub struct LentWatch {
    pub live: u8,
    pub key: Key,
    pub quota: u8,
    pub heard: u8,
    pub version: u8,
    pub last: u8,
}

// The records by value: how many are lent, and what the first sixteen mean, closed past the end.
#[derive(Clone, Copy)]
pub struct Book {
    pub records: usize,
    pub watches: [Watch; 16],
}

// How a call ends: its number, and the one record to write, past the end where none is.
#[derive(Clone, Copy)]
pub struct Ending {
    pub number: u32,
    pub at: usize,
    pub watch: LentWatch,
}

// A call's number, and the records after it.
#[derive(Clone, Copy)]
pub struct Called {
    pub number: u32,
    pub watches: [LentWatch; 16],
}

#[derive(Clone, Copy)]
pub struct Four {
    pub a: Watch,
    pub b: Watch,
    pub c: Watch,
    pub d: Watch,
}

pub fn is_on(x: usize) -> bool
    ensures { result ≡ is_on x }
{
    x != 0
}

pub fn blank_record() -> LentWatch
    ensures { result ≡ blank }
{
    record_of(blank_watch())
}

pub fn watch_meant(r: LentWatch) -> Watch
    ensures { result ≡ watch_meant r }
{
    Watch {
        live: r.live != 0,
        key: r.key,
        quota: r.quota,
        edition: Edition {
            heard: r.heard != 0,
            version: r.version,
            last: r.last,
        },
    }
}

pub fn record_of(w: Watch) -> LentWatch
    ensures { result ≡ lent_record w }
{
    let edition = w.edition;
    LentWatch {
        live: u8::from(w.live),
        key: w.key,
        quota: w.quota,
        heard: u8::from(edition.heard),
        version: edition.version,
        last: edition.last,
    }
}

// Past the end it is the blank record.
fn record_or(ws: &[LentWatch], i: usize) -> LentWatch
    ensures { result ≡ get_or ws.now i blank }
{
    if i < ws.len() { ws[i] } else { blank_record() }
}

// Past the end nothing changes.
pub fn put_or(ws: &mut [LentWatch], i: usize, w: LentWatch)
    ensures { ws.new ≡ set ws.old i w }
{
    if i < ws.len() {
        ws[i] = w;
    }
}

fn four_of(a: LentWatch, b: LentWatch, c: LentWatch, d: LentWatch) -> Four
    ensures { (result.a ≡ watch_meant a) × (result.b ≡ watch_meant b) × (result.c ≡ watch_meant c) × (result.d ≡ watch_meant d) }
{
    Four {
        a: watch_meant(a),
        b: watch_meant(b),
        c: watch_meant(c),
        d: watch_meant(d),
    }
}

fn fours(ws: &[LentWatch], i: usize, j: usize, k: usize, l: usize) -> Four
    ensures { result ≡ four_at ws.now i j k l }
{
    let a = record_or(ws, i);
    let b = record_or(ws, j);
    let c = record_or(ws, k);
    let d = record_or(ws, l);
    four_of(a, b, c, d)
}

fn book_of(n: usize, p: Four, q: Four, r: Four, t: Four) -> Book
    ensures { (result.records ≡ n) × (result.watches ≡ sixteen p q r t) }
{
    let a = p.a;
    let b = p.b;
    let c = p.c;
    let d = p.d;
    let e = q.a;
    let f = q.b;
    let g = q.c;
    let h = q.d;
    let i = r.a;
    let j = r.b;
    let k = r.c;
    let l = r.d;
    let m = t.a;
    let o = t.b;
    let u = t.c;
    let v = t.d;
    let watches = [a, b, c, d, e, f, g, h, i, j, k, l, m, o, u, v];
    Book {
        records: n,
        watches,
    }
}

// No loop: one that hands the sixteen on by value takes twice the time of the whole call.
pub fn gather(ws: &[LentWatch]) -> Book
    ensures { Gathered result ws.now }
{
    let p = fours(ws, 0, 1, 2, 3);
    let q = fours(ws, 4, 5, 6, 7);
    let r = fours(ws, 8, 9, 10, 11);
    let t = fours(ws, 12, 13, 14, 15);
    book_of(ws.len(), p, q, r, t)
}

pub fn called_with(number: u32, watches: [LentWatch; 16]) -> Called
    ensures { (result.number ≡ number) × (result.watches ≡ watches) }
{
    Called { number, watches }
}
