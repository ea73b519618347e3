// Runs the histories of tests/shelf_runs.py in lent memory, which goes from call to call: watch records, rows of numbers and an area. The lines are those of test_shelf.
#![tactic(auto)]

mod calls;

use calls::Held;
use part::part_of;
use shelf_digest::of_records;
use std::io;
use test_lines::digest::of_bytes;
use test_lines::{ROOM, number};

// What is held after a vector, if there was one.
fn step(
    rt: &(impl Input + Print),
    n: u64,
    h: Held,
    rows: &mut [u32],
    area: &mut [u8],
) -> io::Result<Option<Held>> {
    let mut b = [0u8; ROOM];
    let Some(v) = test_lines::next(rt, n, &mut b)? else {
        return Ok(None);
    };
    let held = calls::answer(rt, v, h, rows, area, part_of(&b, 0, v.size))?;
    number(rt, of_records(calls::shelf_of(held, rows)))?;
    number(rt, of_bytes(area))?;
    test_lines::say(rt, b"\n")?;
    Ok(Some(held))
}

// How many vectors there were.
fn run(rt: &(impl Input + Print), rows: &mut [u32], area: &mut [u8]) -> io::Result<u64> {
    let mut h = calls::blank(1, 1);
    for n in 0..u64::MAX {
        let Some(held) = step(rt, n, h, rows, area)? else {
            return Ok(n);
        };
        h = held;
    }
    Ok(u64::MAX)
}

fn main(rt: HostRuntime) -> io::Result<()> {
    let mut rows = [0u32; 320];
    let mut area = [0u8; 262144];
    let n = run(&rt, &mut rows, &mut area)?;
    test_lines::end(&rt, n)
}
