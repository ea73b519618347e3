// Questions to a descriptor list that stands from c to d of the bytes.
use crate::show;
use part::Part;
use rating::{Descriptor, advisory_text_in, descriptor_in, rating_in};
use std::io;
use test_lines::{Vector, say, told};

fn place(rt: &impl Print, start: usize, size: usize) -> io::Result<()> {
    told(rt, b" at", start)?;
    told(rt, b" size", size)
}

fn descriptor(rt: &impl Print, found: Option<Descriptor>) -> io::Result<()> {
    let Some(d) = found else {
        return say(rt, b" no descriptor");
    };
    told(rt, b" tag", d.tag)?;
    place(rt, d.start, d.size)
}

fn text(rt: &impl Print, found: Option<Part>) -> io::Result<()> {
    let Some(p) = found else {
        return say(rt, b" no text");
    };
    say(rt, b" text")?;
    place(rt, p.start, p.length)
}

pub fn answer(rt: &impl Print, v: Vector, s: &[u8]) -> io::Result<()> {
    match v.op % 16 {
        1 => show::rating(rt, rating_in(s, v.a, v.b, v.d, v.c)),
        2 => descriptor(rt, descriptor_in(s, v.d, v.c, v.a)),
        _ => text(rt, advisory_text_in(s, v.a, v.d, v.c)),
    }
}
