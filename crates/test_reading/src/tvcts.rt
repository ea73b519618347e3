// Questions to TVCT.
use crate::show::part;
use crate::stored;
use reading::tvcts;
use reading::tvcts::{Channel, Name, Service, Table, Tuning};
use std::io;
use test_lines::{Vector, answered, numbers};

fn table(rt: &impl Print, t: Table) -> io::Result<()> {
    numbers(rt, &[t.tsid, t.count])?;
    part(rt, t.descriptors)
}

fn name(rt: &impl Print, n: Name) -> io::Result<()> {
    numbers(rt, &[n.n0, n.n1, n.n2, n.n3, n.n4, n.n5, n.n6])
}

fn tuning(rt: &impl Print, t: Tuning) -> io::Result<()> {
    numbers(
        rt,
        &[
            t.major,
            t.minor,
            t.modulation,
            t.carrier,
            t.channel_tsid,
            t.program_number,
        ],
    )
}

fn service(rt: &impl Print, v: Service) -> io::Result<()> {
    numbers(
        rt,
        &[
            v.etm_location,
            v.access_controlled,
            v.hidden,
            v.six_bits,
            v.service_type,
            v.source_id,
        ],
    )
}

fn channel(rt: &impl Print, c: Channel) -> io::Result<()> {
    name(rt, c.name)?;
    tuning(rt, c.tuning)?;
    service(rt, c.service)?;
    part(rt, c.descriptors)
}

pub fn answer(rt: &impl Print, v: Vector, s: &[u8]) -> io::Result<()> {
    match v.op % 16 {
        1 => answered(rt, tvcts::fields(s), |t| table(rt, t)),
        2 => answered(rt, tvcts::entry(s, v.a), |c| channel(rt, c)),
        _ => stored::answer(rt, v, s),
    }
}
