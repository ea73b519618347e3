// The lister: reads records from standard input and prints what each holds, one write a record. The steps and their lines are made by
// `listing`; here are only the reading and the writing.
#![tactic(auto)]

mod unread;

ghost use Rattle.std.specs.Prelude.{◌≡◌, ◌-◌, ◌≤◌, ◌<◌, length, IfSome};
ghost use Rattle.lister.specs.Reading.{told_read, ReadMeans, Fetched, StepsTaken};

use listing::{Input, Next};
use record::LARGEST;
use std::io;
use std::io::{ErrorKind, Read};

// Room for the input, and for the lines of any record.
const ROOM: usize = 65536;

const LINES: usize = 262144;

// The bytes in hand, from one place of the room up to another, and how the input stands behind them.
#[derive(Clone, Copy)]
struct Hand {
    from: usize,
    to: usize,
    input: Input,
}

// The number of the next record, and how many bytes are done with.
#[derive(Clone, Copy)]
struct Answered {
    number: usize,
    taken: usize,
}

// A read that a signal interrupted is tried again.
fn input_after(errors: &impl Print, got: io::Result<usize>) -> Input
    ensures { ReadMeans (told_read got) result }
{
    match got {
        Ok(0) => Input::Ended,
        Ok(_) => Input::More,
        Err(e) if e.kind() == ErrorKind::Interrupted => Input::More,
        Err(e) => {
            unread::tell(errors, e);
            Input::Unread
        }
    }
}

// One read into the room behind what is in hand.
fn read_behind(
    source: &mut impl Read,
    errors: &impl Print,
    room: &mut [u8],
    from: usize,
    to: usize,
) -> Hand
    requires { (from ≤ to) × (to < length room.old) }
    ensures { Fetched room.old from to result room.new }
{
    let got = source.read(&mut room[to..]);
    let input = input_after(errors, got);
    let came = got.unwrap_or(0);
    Hand {
        from,
        to: to + came,
        input,
    }
}

// Where the room behind what is in hand may be too short for a record, what is in hand is moved to the room's front first.
fn fetch(
    source: &mut impl Read,
    errors: &impl Print,
    room: &mut [u8],
    from: usize,
    to: usize,
) -> Hand
    requires { (from ≤ to) × ((to ≤ length room.old) × ((to - from < 4102) × (length room.old ≡ 65536))) }
    ensures { Fetched room.old from to result room.new }
{
    if room.len() - to < LARGEST {
        room.copy_within(from..to, 0);
        return read_behind(source, errors, room, 0, to - from);
    }
    read_behind(source, errors, room, from, to)
}

// Every record that is in hand, until more input is needed; nothing where the run is over or the output takes no more.
fn answer(
    output: &impl Print,
    number: usize,
    held: &[u8],
    input: Input,
    out: &mut [u8],
) -> Option<Answered>
    ensures { IfSome result (StepsTaken number held.now input) }
{
    let mut at = 0;
    for n in number..usize::MAX {
        let s = listing::step(n, &held[at..], input, out);
        output.write_all(&out[..s.put]).ok()?;
        match s.next {
            Next::Record => at += s.taken,
            Next::Wait => {
                return Some(Answered {
                    number: n,
                    taken: at,
                });
            }
            Next::Over => return None,
        }
    }
    None
}

// Every record, as it comes, until the run is over.
fn list(
    source: &mut impl Read,
    output: &impl Print,
    errors: &impl Print,
    room: &mut [u8],
    out: &mut [u8],
)
    requires { length room.old ≡ 65536 }
{
    let mut h = Hand {
        from: 0,
        to: 0,
        input: Input::More,
    };
    let mut number = 0;
    for _ in 0..usize::MAX {
        let Some(a) = answer(output, number, &room[h.from..h.to], h.input, out) else {
            return;
        };
        number = a.number;
        h = fetch(source, errors, room, h.from + a.taken, h.to);
    }
}

fn main(rt: HostRuntime) {
    let mut room = [0u8; ROOM];
    let mut out = [0u8; LINES];
    let output = rt.stdout();
    let n = lines::begin(&mut out);
    if output.write_all(&out[..n]).is_err() {
        return;
    }
    list(&mut rt.stdin(), &output, &rt.stderr(), &mut room, &mut out);
}
