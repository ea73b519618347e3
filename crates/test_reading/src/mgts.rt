// Questions to MGT.
use crate::show::part;
use crate::stored;
use reading::mgts;
use reading::mgts::{Defined, Table};
use std::io;
use test_lines::{Vector, answered, number, numbers};

fn table(rt: &impl Print, t: Table) -> io::Result<()> {
    number(rt, t.tables_defined)?;
    part(rt, t.descriptors)
}

fn defined(rt: &impl Print, e: Defined) -> io::Result<()> {
    numbers(rt, &[e.table_type, e.pid, e.version, e.number_bytes])?;
    part(rt, e.descriptors)
}

pub fn answer(rt: &impl Print, v: Vector, s: &[u8]) -> io::Result<()> {
    match v.op % 16 {
        1 => answered(rt, mgts::fields(s), |t| table(rt, t)),
        2 => answered(rt, mgts::entry(s, v.a), |e| defined(rt, e)),
        _ => stored::answer(rt, v, s),
    }
}
