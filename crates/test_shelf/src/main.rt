// Runs the shelves and the histories of calls of tests/test_shelf.py. Of the op r the bytes are a whole shelf (rules.rt); every other op
// is the letter of a call on the one shelf that goes from call to call (calls.rt), with an area whose bytes stay.
#![tactic(auto)]

mod calls;
mod rules;

use part::part_of;
use shelf_digest::of_records;
use shelf_state::Shelf;
use std::io;
use test_lines::digest::of_bytes;
use test_lines::{ROOM, Vector, number};

fn call(rt: &impl Print, v: Vector, s: Shelf, area: &mut [u8], b: &[u8]) -> io::Result<Shelf> {
    let t = calls::answer(rt, v, s, area, b)?;
    number(rt, of_records(t))?;
    number(rt, of_bytes(area))?;
    Ok(t)
}

fn answer(rt: &impl Print, v: Vector, s: Shelf, area: &mut [u8], b: &[u8]) -> io::Result<Shelf> {
    if calls::letter(v.op) == b'r' {
        rules::answer(rt, b)?;
        return Ok(s);
    }
    call(rt, v, s, area, b)
}

// The shelf after a vector, if there was one.
fn step(rt: &(impl Input + Print), n: u64, s: Shelf, area: &mut [u8]) -> io::Result<Option<Shelf>> {
    let mut b = [0u8; ROOM];
    let Some(v) = test_lines::next(rt, n, &mut b)? else {
        return Ok(None);
    };
    let t = answer(rt, v, s, area, part_of(&b, 0, v.size))?;
    test_lines::say(rt, b"\n")?;
    Ok(Some(t))
}

// How many vectors there were.
fn run(rt: &(impl Input + Print), area: &mut [u8]) -> io::Result<u64> {
    let first = shelf::empty(1, 1);
    let mut s = first.shelf;
    for n in 0..u64::MAX {
        let Some(t) = step(rt, n, s, area)? else {
            return Ok(n);
        };
        s = t;
    }
    Ok(u64::MAX)
}

fn main(rt: HostRuntime) -> io::Result<()> {
    let mut area = [0u8; 262144];
    let n = run(&rt, &mut area)?;
    test_lines::end(&rt, n)
}
