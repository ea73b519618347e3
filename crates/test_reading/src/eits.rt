// Questions to EIT and ETT.
use crate::show::{part, rating};
use crate::stored;
use reading::eits::{Descriptor, Event, Title};
use reading::{eits, etts};
use std::io;
use test_lines::{Vector, answered, numbers, say};

fn title(rt: &impl Print, t: Title) -> io::Result<()> {
    match t {
        Title::None => say(rt, b" none"),
        Title::NoStrings => say(rt, b" empty"),
        Title::Text(p) => {
            say(rt, b" text")?;
            part(rt, p)
        }
    }
}

fn event(rt: &impl Print, e: Event) -> io::Result<()> {
    numbers(
        rt,
        &[
            e.event_id,
            e.start_time,
            e.etm_location,
            e.length_in_seconds,
        ],
    )?;
    title(rt, e.title)?;
    part(rt, e.descriptors)
}

fn descriptor(rt: &impl Print, d: Descriptor) -> io::Result<()> {
    numbers(rt, &[d.tag, d.start, d.size])
}

pub fn answer(rt: &impl Print, v: Vector, s: &[u8]) -> io::Result<()> {
    match v.op % 16 {
        1 => answered(rt, eits::fields(s), |t| numbers(rt, &[t.source, t.count])),
        2 => answered(rt, eits::entry(s, v.a), |e| event(rt, e)),
        3 => stored::answer(rt, v, s),
        4 => answered(rt, eits::rating(s, v.a, v.b, v.c), |r| rating(rt, r)),
        5 => answered(rt, eits::descriptor(s, v.a, v.b), |d| descriptor(rt, d)),
        6 => answered(rt, eits::advisory_text(s, v.a, v.b), |p| part(rt, p)),
        7 => answered(rt, eits::list_rating(s, v.a, v.b), |r| rating(rt, r)),
        8 => answered(rt, eits::list_descriptor(s, v.a), |d| descriptor(rt, d)),
        _ => answered(rt, eits::list_text(s, v.a), |p| part(rt, p)),
    }
}

pub fn ett(rt: &impl Print, s: &[u8]) -> io::Result<()> {
    answered(rt, etts::fields(s), |t| {
        numbers(rt, &[t.extension, t.etm_id])?;
        part(rt, t.text)
    })
}
