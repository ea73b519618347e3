// A shelf that is given whole goes through every call: told are the calls' refusals, 0 for none, and whether they changed anything. Its
// bytes are those of `shelf_bytes`, with the length of its area, which is all 0, in the two that are left to the program.
use refusal::Refusal;
use shelf_bytes::named;
use shelf_state::{Asked, Shelf};
use std::io;
use test_lines::{ROOM, say, told};

fn is_clear(area: &[u8]) -> bool {
    area.iter().all(|b| *b == 0)
}

fn refusal_of<T: Drop>(answer: Result<T, Refusal>) -> usize {
    match answer {
        Ok(_) => 0,
        Err(k) => usize::from(k.number()),
    }
}

fn opens(rt: &impl Print, s: Shelf, area: &[u8]) -> io::Result<bool> {
    let a = named(0x1D01, 0xCB, 9);
    let r = shelf::open(s, area, a, 1);
    told(rt, b" open", refusal_of(r.answer))?;
    Ok(s == r.shelf)
}

fn closes(rt: &impl Print, s: Shelf, area: &[u8], a: Asked) -> io::Result<bool> {
    let r = shelf::close(s, area, a);
    told(rt, b" close", refusal_of(r.answer))?;
    Ok(s == r.shelf)
}

fn tells(rt: &impl Print, s: Shelf, area: &[u8], a: Asked) -> io::Result<bool> {
    let r = shelf::status(s, area, a);
    told(rt, b" status", refusal_of(r.answer))?;
    Ok(s == r.shelf)
}

fn fetches(rt: &impl Print, s: Shelf, area: &[u8], a: Asked) -> io::Result<bool> {
    let r = shelf::fetch(s, area, a, 0);
    told(rt, b" fetch", refusal_of(r.answer))?;
    Ok(s == r.shelf)
}

// A section of two bytes: refused 1 on a sound shelf.
fn delivers(rt: &impl Print, s: Shelf, area: &mut [u8]) -> io::Result<bool> {
    let r = shelf::deliver(s, area, 0x1D00, b"ab");
    told(rt, b" deliver", refusal_of(r.answer))?;
    Ok(s == r.shelf)
}

fn asks(rt: &impl Print, s: Shelf, area: &[u8]) -> io::Result<bool> {
    let a = named(0x1D00, 0xCB, 7);
    let status = tells(rt, s, area, a)?;
    let fetch = fetches(rt, s, area, a)?;
    let close = closes(rt, s, area, a)?;
    Ok(status && fetch && close)
}

fn run(rt: &impl Print, s: Shelf, area: &mut [u8]) -> io::Result<()> {
    let delivered = delivers(rt, s, area)?;
    let opened = opens(rt, s, area)?;
    let asked = asks(rt, s, area)?;
    if delivered && opened && asked && is_clear(area) {
        say(rt, b" same")
    } else {
        say(rt, b" changed")
    }
}

pub fn answer(rt: &impl Print, b: &[u8]) -> io::Result<()> {
    let size = bytes_at::word(b, 2);
    let mut area = [0u8; ROOM];
    run(rt, shelf_bytes::read(b), &mut area[..size])
}
