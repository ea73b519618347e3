// All four calls of a text field; where it is sound its text is read once more as a part of other bytes.
use crate::{outputs, words};
use part::part_of;
use std::io;
use test_lines::{Vector, say};

pub fn answer(rt: &impl Print, v: Vector, s: &[u8]) -> io::Result<()> {
    let field = part_of(part_of(s, 0, v.b), v.a, v.b);
    let strings = text::count_strings(field);
    words::count(rt, b" strings", strings)?;
    words::heading(rt, text::string_heading(field, v.c))?;
    words::amount(rt, b" units", text::string_units(field, v.c))?;
    outputs::answer(rt, v.d, |out| text::string_text(field, v.c, out))?;
    if strings.is_ok() {
        say(rt, b" inside")?;
        outputs::answer(
            rt,
            v.d,
            |out| text::inner::string_text(s, v.b, v.a, v.c, out),
        )?;
    }
    Ok(())
}
