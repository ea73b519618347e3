// Asks the questions of tests/test_reading.py. The op's high four bits say of what: 0 EIT, 1 ETT, 2 MGT, 3 TVCT, 4 RRT, and
// 5 a descriptor list alone; the low four say what is asked.
#![tactic(auto)]

mod eits;
mod lists;
mod mgts;
mod rrts;
mod show;
mod stored;
mod tvcts;

use std::io;
use test_lines::{Vector, each};

fn answer(rt: &impl Print, v: Vector, s: &[u8]) -> io::Result<()> {
    match v.op / 16 {
        0 => eits::answer(rt, v, s),
        1 => eits::ett(rt, s),
        2 => mgts::answer(rt, v, s),
        3 => tvcts::answer(rt, v, s),
        4 => rrts::answer(rt, v, s),
        _ => lists::answer(rt, v, s),
    }
}

fn main(rt: HostRuntime) -> io::Result<()> {
    each(&rt, |v, s| answer(&rt, v, s))
}
