// The lister's listing, record by record: one step over the bytes in hand.
#![tactic(auto)]

ghost use Rattle.std.specs.Prelude.{◌≡◌};
ghost use Rattle.listing.specs.Steps.{short_step, step_of, Tells};

use lines::{put_bad, put_last, put_record};
use record::{HEAD, is_whole, to_come};

// How the input stands behind the bytes in hand: more of it may come, it ended, or it could not be read.
#[derive(Clone, Copy)]
pub enum Input {
    More,
    Ended,
    Unread,
}

// What comes next: the next record, a wait for more input, or nothing.
#[derive(Clone, Copy)]
pub enum Next {
    Record,
    Wait,
    Over,
}

// How many of the bytes in hand are done with, how many bytes of the output were put, and what comes next.
#[derive(Clone, Copy)]
pub struct Stepped {
    pub taken: usize,
    pub put: usize,
    pub next: Next,
}

fn over(put: usize) -> Stepped
    ensures { (result.taken ≡ 0) × ((result.put ≡ put) × (result.next ≡ Next.Over)) }
{
    Stepped {
        taken: 0,
        put,
        next: Next::Over,
    }
}

fn put_end(number: usize, held: &[u8], out: &mut [u8]) -> Stepped
    ensures { Tells (short_step number held.now Input.Ended) out.old result out.new }
{
    if held.is_empty() {
        return over(put_last(out, 0, number));
    }
    over(put_bad(out, number))
}

// The bytes in hand are not a whole record, as far as they tell.
fn put_short(number: usize, held: &[u8], input: Input, out: &mut [u8]) -> Stepped
    ensures { Tells (short_step number held.now input) out.old result out.new }
{
    match input {
        Input::More => Stepped {
            taken: 0,
            put: 0,
            next: Next::Wait,
        },
        Input::Ended => put_end(number, held, out),
        Input::Unread => over(put_bad(out, number)),
    }
}

// The next record of the input, of which the bytes in hand are the next ones.
pub fn step(number: usize, held: &[u8], input: Input, out: &mut [u8]) -> Stepped
    ensures { Tells (step_of number held.now input) out.old result out.new }
{
    let size = HEAD + to_come(held);
    if held.len() < size {
        return put_short(number, held, input, out);
    }
    if is_whole(held) {
        return Stepped {
            taken: size,
            put: put_record(number, held, out),
            next: Next::Record,
        };
    }
    over(put_bad(out, number))
}
