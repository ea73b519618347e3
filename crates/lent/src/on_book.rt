// The cores of the five calls, on the book of a lent list: what each leaves in the other memory, and the one record to write.
ghost use Rattle.lent.specs.Calls.{opening_in, closing_in, asking_in, fetching_in, delivery_in};
ghost use Rattle.lent.specs.Inner.{Ends};

use lent_memory::changes::settle;
use lent_memory::records::{Book, Ending};
use lent_memory::replies::{
    amount_in, asked_in, broken, call_fits, change_number, tell_fetched, tell_status,
};
use lent_memory::rows::{number_at, shelf_in};

pub fn open(
    b: Book,
    places: &mut [u32],
    area: &mut [u8],
    section: &[u8],
    question: &[u32],
    reply: &mut [u32],
) -> Ending
    ensures { Ends opening_in b places.old area.old section.now question.now reply.old result places.new area.new reply.new }
{
    if !call_fits(question, reply) {
        return broken(b.records);
    }
    let before = shelf_in(b, places);
    let r = shelf::open(before, area, asked_in(question), amount_in(question));
    settle(places, before, r.shelf, change_number(r.answer))
}

pub fn close(
    b: Book,
    places: &mut [u32],
    area: &mut [u8],
    section: &[u8],
    question: &[u32],
    reply: &mut [u32],
) -> Ending
    ensures { Ends closing_in b places.old area.old section.now question.now reply.old result places.new area.new reply.new }
{
    if !call_fits(question, reply) {
        return broken(b.records);
    }
    let before = shelf_in(b, places);
    let r = shelf::close(before, area, asked_in(question));
    settle(places, before, r.shelf, change_number(r.answer))
}

pub fn status(
    b: Book,
    places: &mut [u32],
    area: &mut [u8],
    section: &[u8],
    question: &[u32],
    reply: &mut [u32],
) -> Ending
    ensures { Ends asking_in b places.old area.old section.now question.now reply.old result places.new area.new reply.new }
{
    if !call_fits(question, reply) {
        return broken(b.records);
    }
    let before = shelf_in(b, places);
    let r = shelf::status(before, area, asked_in(question));
    let number = tell_status(reply, r.answer);
    settle(places, before, r.shelf, number)
}

pub fn fetch(
    b: Book,
    places: &mut [u32],
    area: &mut [u8],
    section: &[u8],
    question: &[u32],
    reply: &mut [u32],
) -> Ending
    ensures { Ends fetching_in b places.old area.old section.now question.now reply.old result places.new area.new reply.new }
{
    if !call_fits(question, reply) {
        return broken(b.records);
    }
    let before = shelf_in(b, places);
    let r = shelf::fetch(before, area, asked_in(question), amount_in(question));
    let number = tell_fetched(reply, r.answer);
    settle(places, before, r.shelf, number)
}

pub fn deliver(
    b: Book,
    places: &mut [u32],
    area: &mut [u8],
    section: &[u8],
    question: &[u32],
    reply: &mut [u32],
) -> Ending
    ensures { Ends delivery_in b places.old area.old section.now question.now reply.old result places.new area.new reply.new }
{
    if !call_fits(question, reply) {
        return broken(b.records);
    }
    let before = shelf_in(b, places);
    let r = shelf::deliver(before, area, number_at(question, 0), section);
    settle(places, before, r.shelf, change_number(r.answer))
}
