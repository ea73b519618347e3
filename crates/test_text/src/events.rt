// All events of a section with their titles, in two lent lists of which a and b are the lengths. All numbers of the one are 7 before
// and all of the other 65535, behind what is lent too, so that the digests of the whole lists show what changed there.
use std::io;
use test_lines::digest::of_numbers;
use test_lines::{Vector, answered, told};
use titles::{Counts, titles};

fn show(rt: &impl Print, c: Counts) -> io::Result<()> {
    told(rt, b" events", c.events)?;
    told(rt, b" units", c.units)
}

pub fn answer(rt: &impl Print, v: Vector, s: &[u8]) -> io::Result<()> {
    let mut rows = [7u32; 3084];
    let mut units = [65535u16; 32800];
    if let (Some(r), Some(u)) = (rows.get_mut(..v.a), units.get_mut(..v.b)) {
        answered(rt, titles(s, r, u), |c| show(rt, c))?;
    }
    told(rt, b" rows", of_numbers(&rows))?;
    told(rt, b" text", of_numbers(&units))
}
