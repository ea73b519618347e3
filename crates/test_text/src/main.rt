// Reads the texts of tests/test_text.py. The op says what the bytes are: 1 and 2 a segment that is compressed so, 3 a text field from a
// to b of the bytes, 16 to 22 a section, of whose texts it says the sort (sections.rt), and 23 a section, of which all events and
// titles are asked at once (events.rt). Of a field c is the number of the string and d the room of the output in units.
#![tactic(auto)]

mod events;
mod fields;
mod outputs;
mod sections;
mod segments;
mod words;

use std::io;
use test_lines::{Vector, each};

fn answer(rt: &impl Print, v: Vector, s: &[u8]) -> io::Result<()> {
    match v.op {
        1 => segments::answer(rt, true, s),
        2 => segments::answer(rt, false, s),
        3 => fields::answer(rt, v, s),
        23 => events::answer(rt, v, s),
        _ => sections::answer(rt, v, s),
    }
}

fn main(rt: HostRuntime) -> io::Result<()> {
    each(&rt, |v, s| answer(&rt, v, s))
}
