// The rows of all entries, and of all values of an RRT, stored in a lent list that is all 7 before, so that what changed there shows.
use refusal::Refusal;
use rows::{Entry, rows, value_rows};
use std::io;
use test_lines::{Vector, answered, numbers, say, told};

fn stored(op: usize, s: &[u8], out: &mut [u32]) -> Result<usize, Refusal> {
    match op {
        3 => rows(s, Entry::Event, out),
        35 => rows(s, Entry::Table, out),
        51 => rows(s, Entry::Channel, out),
        68 => rows(s, Entry::Dimension, out),
        _ => value_rows(s, out),
    }
}

// The room that is lent is the vector's first number.
pub fn answer(rt: &impl Print, v: Vector, s: &[u8]) -> io::Result<()> {
    let mut list = [7u32; 4000];
    let Some(out) = list.get_mut(..v.a) else {
        return Ok(());
    };
    answered(rt, stored(v.op, s, out), |n| told(rt, b" rows", n))?;
    say(rt, b":")?;
    numbers(rt, out)
}
