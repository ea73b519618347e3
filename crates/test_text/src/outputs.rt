// A text that is written to an output. All of the output is 65535 before, so that a unit written where none belongs is counted.
use crate::words;
use refusal::Refusal;
use std::io;
use test_lines::told;
use text::Amount;

// How many from n on are not as they were.
fn changed(out: &[u16], n: usize) -> usize {
    let mut k = 0;
    for i in n..out.len() {
        if out[i] != 65535 {
            k += 1;
        }
    }
    k
}

// The number of units, how many others of the output changed, and the units.
fn show(rt: &impl Print, out: &[u16], a: Result<Amount, Refusal>) -> io::Result<()> {
    let n = words::amount(rt, b" text", a)?;
    told(rt, b" changed", changed(out, n))?;
    words::units(rt, out, 0, n)
}

// Nothing where the output has no such room to lend.
pub fn answer<F: FnOnce(&mut [u16]) -> Result<Amount, Refusal>>(
    rt: &impl Print,
    room: usize,
    write: F,
) -> io::Result<()>
    requires { F.IsAlwaysCallable write }
{
    let mut out = [65535u16; 4096];
    let Some(lent) = out.get_mut(..room) else {
        return Ok(());
    };
    let a = write(lent);
    show(rt, &out, a)
}
