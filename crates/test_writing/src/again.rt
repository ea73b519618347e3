// There and back: a section that was written is judged and read, and written again from nothing but what was read.
use crate::show::digest;
use crate::{ROOM, ROWS};
use kind::Kind;
use part::part_of;
use reading::etts;
use refusal::Refusal;
use rows::{Entry, rows};
use section::write::Given;
use section::{Header, judge_any};
use std::io;
use test_lines::{answered, say};

fn given_of(h: Header) -> Given {
    Given {
        extension: h.extension,
        version: h.version,
        current: h.current,
        number: h.number,
        last: h.last,
    }
}

// The rows stand at the list's start, and their places are in the section's own bytes.
fn from_rows(
    rt: &impl Print,
    h: Header,
    s: &[u8],
    count: usize,
    list: &[u32],
    out: &mut [u8],
) -> io::Result<()> {
    if count <= list.len() / 8 {
        let w = writing::eits::write(given_of(h), count, &list[..8 * count], s, out);
        digest(rt, w, out)?;
    }
    Ok(())
}

fn eit(rt: &impl Print, h: Header, s: &[u8], out: &mut [u8]) -> io::Result<()> {
    let mut list = [0u32; ROWS];
    answered(rt, rows(s, Entry::Event, &mut list), |count| {
        from_rows(rt, h, s, count, &list, out)
    })
}

fn from_text(
    rt: &impl Print,
    h: Header,
    s: &[u8],
    t: etts::Table,
    out: &mut [u8],
) -> io::Result<()> {
    let text = part_of(s, t.text.start, t.text.length);
    let w = writing::etts::write(given_of(h), t.etm_id, text, out);
    digest(rt, w, out)
}

fn rewritten(rt: &impl Print, h: Header, s: &[u8]) -> io::Result<()> {
    let mut out = [0xa5u8; ROOM];
    match h.kind {
        Kind::Eit => eit(rt, h, s, &mut out),
        _ => answered(rt, etts::fields(s), |t| from_text(rt, h, s, t, &mut out)),
    }
}

pub fn answer(rt: &impl Print, w: Result<usize, Refusal>, out: &[u8]) -> io::Result<()> {
    if let Ok(n) = w {
        say(rt, b" again")?;
        let s = part_of(out, 0, n);
        answered(rt, judge_any(s), |h| rewritten(rt, h, s))?;
    }
    Ok(())
}
