// A shelf as bytes, for the programs that test and measure: its records and its places (1 byte each), 2 bytes that are left to the program,
// 16 watches of 10 bytes (open 1, PID 2, table_id 1, extension 2, quota 1, heard 1, version 1, last 1) and 64 places of 5 (taken 1, watch 1,
// number 1, length 2), numbers with their high byte first. Bytes past the end are 0, and are not written.
#![tactic(auto)]

ghost use Rattle.std.specs.Prelude.{◌≡◌, ◌<◌};

use shelf_state::{Asked, Edition, Key, Place, Shelf, Watch};

// A key as a call names it: where these programs make one.
pub fn named(pid: usize, table_id: usize, extension: u16) -> Asked
    ensures { result.pid ≡ pid }
{
    Asked {
        pid,
        table_id,
        extension,
    }
}

fn byte(s: &[u8], i: usize) -> u8 {
    bytes_at::byte(s, i) as u8
}

fn word(s: &[u8], i: usize) -> u16 {
    bytes_at::word(s, i) as u16
}

fn key(s: &[u8], at: usize) -> Key
    requires { at < 1000 }
{
    Key {
        pid: word(s, at),
        table_id: byte(s, at + 2),
        extension: word(s, at + 3),
    }
}

fn edition(s: &[u8], at: usize) -> Edition
    requires { at < 1000 }
{
    Edition {
        heard: byte(s, at) == 1,
        version: byte(s, at + 1),
        last: byte(s, at + 2),
    }
}

fn watch(s: &[u8], at: usize) -> Watch
    requires { at < 900 }
{
    Watch {
        live: byte(s, at) == 1,
        key: key(s, at + 1),
        quota: byte(s, at + 6),
        edition: edition(s, at + 7),
    }
}

fn place(s: &[u8], at: usize) -> Place
    requires { at < 1000 }
{
    Place {
        used: byte(s, at) == 1,
        watch: byte(s, at + 1),
        number: byte(s, at + 2),
        length: word(s, at + 3),
    }
}

fn with_watches(s: &[u8], given: Shelf) -> Shelf {
    let mut t = given;
    for i in 0..16 {
        t.watches[i] = watch(s, 4 + i * 10);
    }
    t
}

fn with_places(s: &[u8], given: Shelf) -> Shelf {
    let mut t = given;
    for i in 0..64 {
        t.places[i] = place(s, 164 + i * 5);
    }
    t
}

pub fn read(s: &[u8]) -> Shelf {
    let none = shelf_state::inner::empty_shelf(bytes_at::byte(s, 1), bytes_at::byte(s, 0));
    with_places(s, with_watches(s, none))
}

fn put(out: &mut [u8], i: usize, x: u8) {
    if i < out.len() {
        out[i] = x;
    }
}

fn put_word(out: &mut [u8], at: usize, x: u16)
    requires { at < 1000 }
{
    let [high, low] = x.to_be_bytes();
    put(out, at, high);
    put(out, at + 1, low);
}

fn put_flag(out: &mut [u8], i: usize, x: bool) {
    put(out, i, u8::from(x));
}

fn put_key(out: &mut [u8], at: usize, k: Key)
    requires { at < 900 }
{
    put_word(out, at, k.pid);
    put(out, at + 2, k.table_id);
    put_word(out, at + 3, k.extension);
}

fn put_edition(out: &mut [u8], at: usize, e: Edition)
    requires { at < 900 }
{
    put_flag(out, at, e.heard);
    put(out, at + 1, e.version);
    put(out, at + 2, e.last);
}

fn put_watch(out: &mut [u8], at: usize, w: Watch)
    requires { at < 800 }
{
    put_flag(out, at, w.live);
    put_key(out, at + 1, w.key);
    put(out, at + 6, w.quota);
    put_edition(out, at + 7, w.edition);
}

fn put_place(out: &mut [u8], at: usize, p: Place)
    requires { at < 900 }
{
    put_flag(out, at, p.used);
    put(out, at + 1, p.watch);
    put(out, at + 2, p.number);
    put_word(out, at + 3, p.length);
}

fn put_watches(out: &mut [u8], s: Shelf) {
    for i in 0..16 {
        put_watch(out, 4 + i * 10, s.watches[i]);
    }
}

fn put_places(out: &mut [u8], s: Shelf) {
    for i in 0..64 {
        put_place(out, 164 + i * 5, s.places[i]);
    }
}

// The watches and the places of a shelf, over bytes that have its two sizes: no call changes these.
pub fn write(out: &mut [u8], s: Shelf) {
    put_watches(out, s);
    put_places(out, s);
}
