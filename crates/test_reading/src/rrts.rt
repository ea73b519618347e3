// Questions to RRT.
use crate::show::part;
use crate::stored;
use reading::rrts;
use reading::rrts::{Dimension, Table, ValueTexts};
use std::io;
use test_lines::{Vector, answered, number, numbers};

fn table(rt: &impl Print, t: Table) -> io::Result<()> {
    numbers(rt, &[t.extension, t.region])?;
    part(rt, t.name)?;
    number(rt, t.dimensions)?;
    part(rt, t.descriptors)
}

fn dimension(rt: &impl Print, e: Dimension) -> io::Result<()> {
    part(rt, e.name)?;
    numbers(rt, &[e.graduated_scale, e.values])
}

fn texts(rt: &impl Print, t: ValueTexts) -> io::Result<()> {
    part(rt, t.short_text)?;
    part(rt, t.long_text)
}

pub fn answer(rt: &impl Print, v: Vector, s: &[u8]) -> io::Result<()> {
    match v.op % 16 {
        1 => answered(rt, rrts::fields(s), |t| table(rt, t)),
        2 => answered(rt, rrts::entry(s, v.a), |e| dimension(rt, e)),
        3 => answered(rt, rrts::value(s, v.a, v.b), |t| texts(rt, t)),
        _ => stored::answer(rt, v, s),
    }
}
