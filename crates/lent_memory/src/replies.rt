// What a call is asked and what it answers, as numbers in lent memory.
ghost use Rattle.std.specs.Prelude.{◌≡◌, [], ◌∷◌, ◌<◌, length};
ghost use Rattle.refusal.specs.Numbers.{number_of};
ghost use Rattle.refusal.specs.Outcomes.{outcome, outcome_by};
ghost use Rattle.shelf.specs.Answers.{status_told};
ghost use Rattle.lent_memory.specs.Meaning.{blank};
ghost use Rattle.refusal.specs.Outputs.{number_in};
ghost use Rattle.lent_memory.specs.Replies.{status_numbers, part_numbers, reply_after, call_fits, asked_in, amount_in};
ghost use Rattle.lent_memory.specs.Inner.{SmallStatus, SmallPart};

use crate::records::{Ending, blank_record};
use crate::rows::{number_at, put_number};
use part::Part;
use refusal::Refusal;
use shelf::Progress;
use shelf_state::Asked;

// A question: PID, table_id, extension, and a quota or a section's number.
pub const QUESTION: usize = 4;

// A reply: a code and two values.
pub const REPLY: usize = 3;

// What stands where there is no value: a blank is not a nought.
pub const NO_VALUE: usize = 0xffff_ffff;

#[tactic(auto, using(logic::proofs::TestLaws::joined), unfolding(crate::specs::Replies::call_fits))]
pub fn call_fits(question: &[u32], reply: &[u32]) -> bool
    ensures { result ≡ call_fits question.now reply.now }
{
    question.len() == QUESTION && reply.len() == REPLY
}

// An extension that does not fit its field makes the PID one that no watch can have.
pub fn asked_in(question: &[u32]) -> Asked
    requires { length question.now ≡ 4 }
    ensures { result ≡ asked_in question.now }
{
    let pid = number_at(question, 0);
    let extension = number_at(question, 2);
    Asked {
        pid: pid + 65536 * (extension / 65536),
        table_id: number_at(question, 1),
        extension: (extension % 65536) as u16,
    }
}

pub fn amount_in(question: &[u32]) -> usize
    requires { length question.now ≡ 4 }
    ensures { result ≡ amount_in question.now }
{
    number_at(question, 3)
}

// Memory that no rule allows: nothing is written.
pub fn broken(records: usize) -> Ending
    ensures { result ≡ record { number = 14; at = records; watch = blank } }
{
    Ending {
        number: 14,
        at: records,
        watch: blank_record(),
    }
}

fn number_of(k: Refusal) -> u32
    ensures { result ≡ number_of k }
{
    u32::from(k.number())
}

pub fn change_number(answer: Result<(), Refusal>) -> u32
    ensures { result ≡ number_in (outcome answer) }
{
    match answer {
        Ok(()) => 0,
        Err(k) => number_of(k),
    }
}

fn tell(reply: &mut [u32], code: usize, x: usize, y: usize)
    requires { (length reply.old ≡ 3) × (code < 4294967296) × (x < 4294967296) × (y < 4294967296) }
    ensures { reply.new ≡ code ∷ x ∷ y ∷ [] }
{
    put_number(reply, 0, code);
    put_number(reply, 1, x);
    put_number(reply, 2, y);
}

pub fn tell_status(reply: &mut [u32], answer: Result<Progress, Refusal>) -> u32
    requires { (length reply.old ≡ 3) × SmallStatus (outcome_by status_told answer) }
    ensures { (result ≡ number_in (outcome_by status_told answer)) × (reply.new ≡ reply_after status_numbers reply.old (outcome_by status_told answer)) }
{
    match answer {
        Ok(Progress::NothingHeard) => tell(reply, 1, NO_VALUE, NO_VALUE),
        Ok(Progress::Part { held, of }) => tell(reply, 2, held, of),
        Ok(Progress::Complete { of }) => tell(reply, 3, of, of),
        Err(k) => return number_of(k),
    }
    0
}

pub fn tell_fetched(reply: &mut [u32], answer: Result<Part, Refusal>) -> u32
    requires { (length reply.old ≡ 3) × SmallPart (outcome answer) }
    ensures { (result ≡ number_in (outcome answer)) × (reply.new ≡ reply_after part_numbers reply.old (outcome answer)) }
{
    match answer {
        Ok(p) => {
            tell(reply, 4, p.start, p.length);
            0
        }
        Err(k) => number_of(k),
    }
}
