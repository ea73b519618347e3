// What is answered of a section that is judged, as it is told.
ghost use Rattle.std.specs.Prelude.{◌≡◌, map};
ghost use Rattle.refusal.specs.Outcomes.{outcome};
ghost use Rattle.section.specs.Answers.{verdict_of};
ghost use Rattle.telling.specs.Told.{Told, noted, one_number};
ghost use Rattle.telling.specs.Sections.{header_numbers, fault_of};

use crate::told::{NO_VALUE, note, number_of, one};
use refusal::Refusal;
use section::Header;
use section::inner::Fault;

fn header_numbers(h: Header) -> [u32; 6]
    ensures { result ≡ map noted (header_numbers h) }
{
    let kind = h.kind;
    [
        note(kind.table_id()),
        note(h.extension),
        note(h.version),
        note(h.current),
        note(h.number),
        note(h.last),
    ]
}

// The header.
pub fn tell_header(answer: Result<Header, Refusal>, header: &mut [u32; 6]) -> u32
    ensures { Told header_numbers (outcome answer) header.old result header.new }
{
    match answer {
        Err(k) => number_of(k),
        Ok(h) => {
            *header = header_numbers(h);
            0
        }
    }
}

// Where the body fails.
pub fn tell_fault(answer: Result<Header, Fault>, offset: &mut [u32; 1]) -> u32
    ensures { Told one_number (fault_of (verdict_of answer)) offset.old result offset.new }
{
    match answer {
        Ok(_) => {
            *offset = one(NO_VALUE);
            0
        }
        Err(Fault::Refused(k)) => number_of(k),
        Err(Fault::Broken(x)) => {
            *offset = one(x);
            0
        }
    }
}
