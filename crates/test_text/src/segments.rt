// A compressed segment, judged and then written from place 3 on of an output that is all 65535 before. The units are shown with
// the one before and the one after them, which stay so.
ghost use Rattle.std.specs.Prelude.{◌≤◌, length};

use crate::words::units;
use refusal::Refusal;
use std::io;
use test_lines::{answered, say, told};

// The number of units, and 0 for a refusal.
fn tell(rt: &impl Print, judged: Result<usize, Refusal>) -> io::Result<usize> {
    answered(rt, judged, |k| told(rt, b" units", k))?;
    Ok(judged.unwrap_or(0))
}

fn decode(rt: &impl Print, titles: bool, s: &[u8]) -> io::Result<()>
    requires { length s.now ≤ 255 }
{
    let mut out = [65535u16; 2048];
    tell(rt, segment::judge(titles, s))?;
    let k = tell(rt, segment::write(titles, s, &mut out, 3))?;
    units(rt, &out, 2, k.saturating_add(2))
}

pub fn answer(rt: &impl Print, titles: bool, s: &[u8]) -> io::Result<()> {
    if s.len() <= 255 {
        decode(rt, titles, s)
    } else {
        say(rt, b" no segment")
    }
}
