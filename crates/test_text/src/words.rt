// The words in which the answers of a text are told.
use refusal::Refusal;
use std::io;
use test_lines::{answered, number, say, told};
use text::{Amount, Heading};

pub fn count(rt: &impl Print, name: &[u8], c: Result<usize, Refusal>) -> io::Result<()> {
    say(rt, name)?;
    answered(rt, c, |n| number(rt, n))
}

// The number of units, and 0 for a refusal. Where segments were replaced their number follows.
pub fn amount(rt: &impl Print, name: &[u8], u: Result<Amount, Refusal>) -> io::Result<usize> {
    say(rt, name)?;
    answered(rt, u, |a| {
        number(rt, a.units)?;
        if 0 < a.replaced {
            told(rt, b" replaced", a.replaced)?;
        }
        Ok(())
    })?;
    Ok(u.map_or(0, |a| a.units))
}

pub fn heading(rt: &impl Print, h: Result<Heading, Refusal>) -> io::Result<()> {
    say(rt, b" language")?;
    answered(rt, h, |v| {
        number(rt, v.language)?;
        told(rt, b" segments", v.segments)
    })
}

// After a colon n units from a place on, as far as there are any.
pub fn units(rt: &impl Print, out: &[u16], from: usize, n: usize) -> io::Result<()> {
    say(rt, b":")?;
    for u in out.iter().skip(from).take(n) {
        number(rt, *u)?;
    }
    Ok(())
}
