// All four calls of a text of a section. The op says its sort, and a and b say which of that sort it is.
use crate::{outputs, words};
use section_text::{Which, count_strings, string_heading, string_text, string_units};
use std::io;
use test_lines::Vector;

fn which(v: Vector) -> Which {
    match v.op {
        16 => Which::Title(v.a),
        17 => Which::Advisory(v.a, v.b),
        18 => Which::Extended,
        19 => Which::RegionName,
        20 => Which::DimensionName(v.a),
        21 => Which::ShortText(v.a, v.b),
        _ => Which::LongText(v.a, v.b),
    }
}

pub fn answer(rt: &impl Print, v: Vector, s: &[u8]) -> io::Result<()> {
    let w = which(v);
    words::count(rt, b" strings", count_strings(s, w))?;
    words::heading(rt, string_heading(s, w, v.c))?;
    words::amount(rt, b" units", string_units(s, w, v.c))?;
    outputs::answer(rt, v.d, |out| string_text(s, w, v.c, out))
}
