// Prints when each event of an EIT starts, until there is no further event (13) or for what else the section is refused.
#![tactic(auto)]

ghost use Rattle.std.specs.Prelude.{IfOk, ◌≤◌, length};

use reading::eits::entry;
use std::io;
use std::io::Read;

// Reads until the room is full or the input ends; answers how many bytes came.
fn filled(input: &mut impl Read, room: &mut [u8]) -> io::Result<usize>
    ensures { IfOk result (λ n. n ≤ length room.new) }
{
    let mut n = 0;
    while n < room.len() {
        match input.read(&mut room[n..])? {
            0 => break,
            came => n += came,
        }
    }
    Ok(n)
}

fn say(rt: &impl Print, words: &str, number: usize) -> io::Result<()> {
    println!(rt; "{words} {number}")
}

fn main(rt: HostRuntime) -> io::Result<()> {
    let mut room = [0u8; 4096];
    let n = filled(&mut rt.stdin(), &mut room)?;
    for i in 0..256 {
        match entry(&room[..n], i) {
            Ok(event) => say(&rt, "start", event.start_time)?,
            Err(why) => return say(&rt, "refused", usize::from(why.number())),
        }
    }
    Ok(())
}
