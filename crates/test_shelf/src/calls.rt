// One call on a shelf, told by its name and its answer. The bytes have its arguments.
use bytes_at::{byte, word};
use part::{Part, part_of};
use refusal::Refusal;
use shelf::Progress;
use shelf_bytes::named;
use shelf_state::{Asked, Shelf};
use std::io;
use test_lines::digest::of_bytes;
use test_lines::{Vector, number, refused, say, told};

fn key(b: &[u8]) -> Asked {
    named(word(b, 0), byte(b, 2), word(b, 3) as u16)
}

fn show_change(rt: &impl Print, answer: Result<(), Refusal>) -> io::Result<()> {
    match answer {
        Ok(()) => say(rt, b" done"),
        Err(k) => refused(rt, k),
    }
}

fn show_progress(rt: &impl Print, answer: Result<Progress, Refusal>) -> io::Result<()> {
    match answer {
        Ok(Progress::NothingHeard) => say(rt, b" nothing heard"),
        Ok(Progress::Part { held, of }) => {
            number(rt, held)?;
            told(rt, b" of", of)
        }
        Ok(Progress::Complete { of }) => told(rt, b" complete", of),
        Err(k) => refused(rt, k),
    }
}

// A section that was fetched is told by its place and a digest of its bytes.
fn show_fetched(rt: &impl Print, answer: Result<Part, Refusal>, area: &[u8]) -> io::Result<()> {
    match answer {
        Ok(p) => {
            number(rt, p.start)?;
            number(rt, p.length)?;
            number(rt, of_bytes(part_of(area, p.start, p.length)))
        }
        Err(k) => refused(rt, k),
    }
}

// A new shelf, or the one that there was where its sizes are refused.
fn empties(rt: &impl Print, s: Shelf, b: &[u8]) -> io::Result<Shelf> {
    let r = shelf::empty(byte(b, 0), byte(b, 1));
    say(rt, b" empty")?;
    show_change(rt, r.answer)?;
    Ok(if r.answer.is_ok() { r.shelf } else { s })
}

fn opens(rt: &impl Print, s: Shelf, area: &[u8], b: &[u8]) -> io::Result<Shelf> {
    let r = shelf::open(s, area, key(b), byte(b, 5));
    say(rt, b" open")?;
    show_change(rt, r.answer)?;
    Ok(r.shelf)
}

fn closes(rt: &impl Print, s: Shelf, area: &[u8], b: &[u8]) -> io::Result<Shelf> {
    let r = shelf::close(s, area, key(b));
    say(rt, b" close")?;
    show_change(rt, r.answer)?;
    Ok(r.shelf)
}

fn tells(rt: &impl Print, s: Shelf, area: &[u8], b: &[u8]) -> io::Result<Shelf> {
    let r = shelf::status(s, area, key(b));
    say(rt, b" status")?;
    show_progress(rt, r.answer)?;
    Ok(r.shelf)
}

fn fetches(rt: &impl Print, s: Shelf, area: &[u8], b: &[u8]) -> io::Result<Shelf> {
    let r = shelf::fetch(s, area, key(b), word(b, 5));
    say(rt, b" fetch")?;
    show_fetched(rt, r.answer, area)?;
    Ok(r.shelf)
}

fn delivers(rt: &impl Print, s: Shelf, area: &mut [u8], b: &[u8]) -> io::Result<Shelf> {
    let r = shelf::deliver(s, area, word(b, 0), part_of(b, 2, b.len()));
    say(rt, b" deliver")?;
    show_change(rt, r.answer)?;
    Ok(r.shelf)
}

pub fn letter(op: usize) -> u8 {
    (op % 256) as u8
}

fn act(rt: &impl Print, op: usize, s: Shelf, area: &mut [u8], b: &[u8]) -> io::Result<Shelf> {
    match letter(op) {
        b'c' => closes(rt, s, area, b),
        b'd' => delivers(rt, s, area, b),
        b'f' => fetches(rt, s, area, b),
        b'o' => opens(rt, s, area, b),
        b's' => tells(rt, s, area, b),
        _ => empties(rt, s, b),
    }
}

// The call on the first bytes of the area, as many as the vector's first number.
pub fn answer(
    rt: &impl Print,
    v: Vector,
    s: Shelf,
    area: &mut [u8],
    b: &[u8],
) -> io::Result<Shelf> {
    let size = v.a;
    if size <= area.len() {
        return act(rt, v.op, s, &mut area[..size], b);
    }
    Ok(s)
}
