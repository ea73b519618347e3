// The five calls on lent memory, of C and of Rattle, all of one shape: the records are gathered, a call on the book ends with the one
// record to write, and that is written. Opening, closing and delivering leave the reply; what a call does not use is not read.
ghost use Rattle.std.specs.Prelude.{◌≡◌};
ghost use Rattle.lent_memory.specs.Meaning.{lent};
ghost use Rattle.lent.specs.Calls.{left, called, opening_in, closing_in, asking_in, fetching_in, delivery_in};

use crate::on_book;
use lent_memory::records::{LentWatch, gather, put_or};

pub fn lent_open(
    ws: &mut [LentWatch],
    places: &mut [u32],
    area: &mut [u8],
    section: &[u8],
    question: &[u32],
    reply: &mut [u32],
) -> u32
    ensures { left result ws.new places.new area.new reply.new ≡ called opening_in (lent ws.old places.old area.old) section.now question.now reply.old }
{
    let b = gather(&*ws);
    let c = on_book::open(b, places, area, section, question, reply);
    put_or(ws, c.at, c.watch);
    c.number
}

pub fn lent_close(
    ws: &mut [LentWatch],
    places: &mut [u32],
    area: &mut [u8],
    section: &[u8],
    question: &[u32],
    reply: &mut [u32],
) -> u32
    ensures { left result ws.new places.new area.new reply.new ≡ called closing_in (lent ws.old places.old area.old) section.now question.now reply.old }
{
    let b = gather(&*ws);
    let c = on_book::close(b, places, area, section, question, reply);
    put_or(ws, c.at, c.watch);
    c.number
}

pub fn lent_status(
    ws: &mut [LentWatch],
    places: &mut [u32],
    area: &mut [u8],
    section: &[u8],
    question: &[u32],
    reply: &mut [u32],
) -> u32
    ensures { left result ws.new places.new area.new reply.new ≡ called asking_in (lent ws.old places.old area.old) section.now question.now reply.old }
{
    let b = gather(&*ws);
    let c = on_book::status(b, places, area, section, question, reply);
    put_or(ws, c.at, c.watch);
    c.number
}

pub fn lent_fetch(
    ws: &mut [LentWatch],
    places: &mut [u32],
    area: &mut [u8],
    section: &[u8],
    question: &[u32],
    reply: &mut [u32],
) -> u32
    ensures { left result ws.new places.new area.new reply.new ≡ called fetching_in (lent ws.old places.old area.old) section.now question.now reply.old }
{
    let b = gather(&*ws);
    let c = on_book::fetch(b, places, area, section, question, reply);
    put_or(ws, c.at, c.watch);
    c.number
}

pub fn lent_deliver(
    ws: &mut [LentWatch],
    places: &mut [u32],
    area: &mut [u8],
    section: &[u8],
    question: &[u32],
    reply: &mut [u32],
) -> u32
    ensures { left result ws.new places.new area.new reply.new ≡ called delivery_in (lent ws.old places.old area.old) section.now question.now reply.old }
{
    let b = gather(&*ws);
    let c = on_book::deliver(b, places, area, section, question, reply);
    put_or(ws, c.at, c.watch);
    c.number
}
