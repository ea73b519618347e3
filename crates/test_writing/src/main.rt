// Writes the sections of tests/test_writing.py, op 1 an EIT and op 2 an ETT, into a buffer that is filled before, so that what changed
// there shows; what is written is then read and written again. Op 3 is op 1 with every byte of the buffer shown.
#![tactic(auto)]

mod again;
mod show;

ghost use Rattle.std.specs.Prelude.{◌≤◌, length};

use bytes_at::long;
use part::part_of;
use row::narrow;
use section::write::Given;
use std::io;
use test_lines::{Vector, each};

// The five numbers of a header stand before all else.
const HEAD: usize = 20;

// How many bytes a buffer has at most.
const ROOM: usize = 4200;

// How many numbers a list of rows has at most.
const ROWS: usize = 2048;

fn given(s: &[u8]) -> Given {
    Given {
        extension: long(s, 0),
        version: long(s, 4),
        current: long(s, 8),
        number: long(s, 12),
        last: long(s, 16),
    }
}

// The numbers of the rows, four bytes each.
fn gather(s: &[u8], rows: &mut [u32])
    requires { length rows.old ≤ 2048 }
{
    for i in 0..rows.len() {
        rows[i] = narrow(long(s, 4 * i));
    }
}

fn eit(rt: &impl Print, v: Vector, s: &[u8], rows: &mut [u32], out: &mut [u8]) -> io::Result<()>
    requires { length rows.old ≤ 2048 }
{
    let size = 4 * rows.len();
    gather(part_of(s, HEAD, size), rows);
    let data = part_of(s, HEAD + size, 65535);
    let w = writing::eits::write(given(s), v.a, rows, data, out);
    if v.op == 3 {
        show::bytes(rt, w, out)?;
    } else {
        show::digest(rt, w, out)?;
    }
    again::answer(rt, w, out)
}

// The rows have as many numbers as the vector's second one says.
fn eit_with_rows(rt: &impl Print, v: Vector, s: &[u8], out: &mut [u8]) -> io::Result<()> {
    let mut list = [0u32; ROWS];
    let Some(rows) = list.get_mut(..v.b) else {
        return Ok(());
    };
    eit(rt, v, s, rows, out)
}

fn ett(rt: &impl Print, v: Vector, s: &[u8], out: &mut [u8]) -> io::Result<()> {
    let w = writing::etts::write(given(s), v.a, part_of(s, HEAD, 65535), out);
    show::digest(rt, w, out)?;
    again::answer(rt, w, out)
}

// The room that is lent is the vector's third number.
fn answer(rt: &impl Print, v: Vector, s: &[u8]) -> io::Result<()> {
    let mut room = [0xa5u8; ROOM];
    let Some(out) = room.get_mut(..v.c) else {
        return Ok(());
    };
    if v.op == 2 {
        ett(rt, v, s, out)
    } else {
        eit_with_rows(rt, v, s, out)
    }
}

fn main(rt: HostRuntime) -> io::Result<()> {
    each(&rt, |v, s| answer(&rt, v, s))
}
