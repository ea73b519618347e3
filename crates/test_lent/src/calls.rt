// One call in lent memory, told by its name and its answer. The bytes have its arguments.
ghost use Rattle.std.specs.Prelude.{◌≤◌};

use bytes_at::{byte, word};
use lent::{Called, LentWatch, ROW, blank_record, by_value};
use part::part_of;
use shelf_state::{Shelf, sizes_in_range};
use std::io;
use test_lines::digest::of_bytes;
use test_lines::{Vector, number, say, told};

// The records, how many of them are lent, and how many rows.
#[derive(Clone, Copy)]
pub struct Held {
    pub watches: [LentWatch; 16],
    pub records: usize,
    pub count: usize,
}

// Closed records.
pub fn blank(count: usize, records: usize) -> Held {
    let w = blank_record();
    Held {
        watches: [w; 16],
        records,
        count,
    }
}

// How many numbers are in use of so many.
fn in_use(count: usize, numbers: usize) -> usize
    ensures { result ≤ numbers }
{
    if count <= 64 {
        let used = count * ROW;
        if used <= numbers {
            return used;
        }
    }
    0
}

pub fn shelf_of(h: Held, rows: &[u32]) -> Shelf {
    let ws = h.watches;
    let n = in_use(h.count, rows.len());
    by_value::shelf_of(ws, h.records, &rows[..n])
}

fn narrow(x: usize) -> u32 {
    (x % 4294967296) as u32
}

fn wide(x: u32) -> usize {
    x as usize
}

fn question(b: &[u8], amount: usize) -> [u32; 4] {
    let pid = narrow(word(b, 0));
    let table_id = narrow(byte(b, 2));
    let extension = narrow(word(b, 3));
    let last = narrow(amount);
    [pid, table_id, extension, last]
}

fn show_change(rt: &impl Print, k: u32) -> io::Result<()> {
    if k == 0 {
        say(rt, b" done")
    } else {
        told(rt, b" refused", wide(k))
    }
}

fn show_status(rt: &impl Print, k: u32, reply: &[u32; 3]) -> io::Result<()> {
    if k != 0 {
        return show_change(rt, k);
    }
    let c = wide(reply[1]);
    let n = wide(reply[2]);
    match reply[0] {
        1 => say(rt, b" nothing heard"),
        2 => {
            number(rt, c)?;
            told(rt, b" of", n)
        }
        _ => told(rt, b" complete", n),
    }
}

// A section that was fetched is told by its place and a digest of its bytes.
fn show_part(rt: &impl Print, k: u32, reply: &[u32; 3], area: &[u8]) -> io::Result<()> {
    if k != 0 {
        return show_change(rt, k);
    }
    let start = wide(reply[1]);
    let length = wide(reply[2]);
    number(rt, start)?;
    number(rt, length)?;
    number(rt, of_bytes(part_of(area, start, length)))
}

fn opens(
    rt: &impl Print,
    ws: [LentWatch; 16],
    n: usize,
    rows: &mut [u32],
    area: &mut [u8],
    s: &[u8],
) -> io::Result<Called> {
    let q = question(s, byte(s, 5));
    let mut reply = [0u32; 3];
    let c = by_value::open(ws, n, rows, area, b"", &q, &mut reply);
    say(rt, b" open")?;
    show_change(rt, c.number)?;
    Ok(c)
}

fn closes(
    rt: &impl Print,
    ws: [LentWatch; 16],
    n: usize,
    rows: &mut [u32],
    area: &mut [u8],
    s: &[u8],
) -> io::Result<Called> {
    let q = question(s, 0);
    let mut reply = [0u32; 3];
    let c = by_value::close(ws, n, rows, area, b"", &q, &mut reply);
    say(rt, b" close")?;
    show_change(rt, c.number)?;
    Ok(c)
}

fn tells(
    rt: &impl Print,
    ws: [LentWatch; 16],
    n: usize,
    rows: &mut [u32],
    area: &mut [u8],
    s: &[u8],
) -> io::Result<Called> {
    let q = question(s, 0);
    let mut reply = [0u32; 3];
    let c = by_value::status(ws, n, rows, area, b"", &q, &mut reply);
    say(rt, b" status")?;
    show_status(rt, c.number, &reply)?;
    Ok(c)
}

fn fetches(
    rt: &impl Print,
    ws: [LentWatch; 16],
    n: usize,
    rows: &mut [u32],
    area: &mut [u8],
    s: &[u8],
) -> io::Result<Called> {
    let q = question(s, word(s, 5));
    let mut reply = [0u32; 3];
    let c = by_value::fetch(ws, n, rows, area, b"", &q, &mut reply);
    say(rt, b" fetch")?;
    show_part(rt, c.number, &reply, area)?;
    Ok(c)
}

fn delivers(
    rt: &impl Print,
    ws: [LentWatch; 16],
    n: usize,
    rows: &mut [u32],
    area: &mut [u8],
    s: &[u8],
) -> io::Result<Called> {
    let q = question(s, 0);
    let mut reply = [0u32; 3];
    let c = by_value::deliver(ws, n, rows, area, part_of(s, 2, s.len()), &q, &mut reply);
    say(rt, b" deliver")?;
    show_change(rt, c.number)?;
    Ok(c)
}

fn clear(rows: &mut [u32]) {
    rows.fill(0);
}

// Memory of zeros alone, or what there was where its sizes are refused.
fn empties(rt: &impl Print, h: Held, rows: &mut [u32], s: &[u8]) -> io::Result<Held> {
    say(rt, b" empty")?;
    let places = byte(s, 0);
    let records = byte(s, 1);
    if sizes_in_range(places, records) {
        show_change(rt, 0)?;
        clear(rows);
        return Ok(blank(places, records));
    }
    show_change(rt, 14)?;
    Ok(h)
}

fn letter(op: usize) -> u8 {
    (op % 256) as u8
}

fn act(
    rt: &impl Print,
    op: u8,
    ws: [LentWatch; 16],
    n: usize,
    rows: &mut [u32],
    area: &mut [u8],
    s: &[u8],
) -> io::Result<Called> {
    match op {
        b'c' => closes(rt, ws, n, rows, area, s),
        b'd' => delivers(rt, ws, n, rows, area, s),
        b'f' => fetches(rt, ws, n, rows, area, s),
        b'o' => opens(rt, ws, n, rows, area, s),
        _ => tells(rt, ws, n, rows, area, s),
    }
}

fn call(
    rt: &impl Print,
    op: u8,
    h: Held,
    rows: &mut [u32],
    area: &mut [u8],
    s: &[u8],
) -> io::Result<Held> {
    let ws = h.watches;
    let n = in_use(h.count, rows.len());
    let c = act(rt, op, ws, h.records, &mut rows[..n], area, s)?;
    let watches = c.watches;
    Ok(Held {
        watches,
        records: h.records,
        count: h.count,
    })
}

// The call on the first bytes of the area, as many as the vector's first number.
pub fn answer(
    rt: &impl Print,
    v: Vector,
    h: Held,
    rows: &mut [u32],
    area: &mut [u8],
    s: &[u8],
) -> io::Result<Held> {
    let op = letter(v.op);
    if op == b'n' {
        return empties(rt, h, rows, s);
    }
    let size = v.a;
    if size <= area.len() {
        return call(rt, op, h, rows, &mut area[..size], s);
    }
    Ok(h)
}
