// The shelf's five calls on lent memory as C has them: those of `lent` under the same names, each with the clause that it has there. include/guide.h
// declares them.
#![tactic(auto)]

ghost use Rattle.std.specs.Prelude.{◌≡◌};
ghost use Rattle.lent_memory.specs.Meaning.{lent};
ghost use Rattle.lent.specs.Calls.{left, called, opening_in, closing_in, asking_in, fetching_in, delivery_in};

use lent::LentWatch;

#[unsafe(no_mangle)]
pub extern "C" fn lent_open(
    ws: &mut [LentWatch],
    places: &mut [u32],
    area: &mut [u8],
    section: &[u8],
    question: &[u32],
    reply: &mut [u32],
) -> u32
    ensures { left result ws.new places.new area.new reply.new ≡ called opening_in (lent ws.old places.old area.old) section.now question.now reply.old }
{
    lent::lent_open(ws, places, area, section, question, reply)
}

#[unsafe(no_mangle)]
pub extern "C" fn lent_close(
    ws: &mut [LentWatch],
    places: &mut [u32],
    area: &mut [u8],
    section: &[u8],
    question: &[u32],
    reply: &mut [u32],
) -> u32
    ensures { left result ws.new places.new area.new reply.new ≡ called closing_in (lent ws.old places.old area.old) section.now question.now reply.old }
{
    lent::lent_close(ws, places, area, section, question, reply)
}

#[unsafe(no_mangle)]
pub extern "C" fn lent_status(
    ws: &mut [LentWatch],
    places: &mut [u32],
    area: &mut [u8],
    section: &[u8],
    question: &[u32],
    reply: &mut [u32],
) -> u32
    ensures { left result ws.new places.new area.new reply.new ≡ called asking_in (lent ws.old places.old area.old) section.now question.now reply.old }
{
    lent::lent_status(ws, places, area, section, question, reply)
}

#[unsafe(no_mangle)]
pub extern "C" fn lent_fetch(
    ws: &mut [LentWatch],
    places: &mut [u32],
    area: &mut [u8],
    section: &[u8],
    question: &[u32],
    reply: &mut [u32],
) -> u32
    ensures { left result ws.new places.new area.new reply.new ≡ called fetching_in (lent ws.old places.old area.old) section.now question.now reply.old }
{
    lent::lent_fetch(ws, places, area, section, question, reply)
}

#[unsafe(no_mangle)]
pub extern "C" fn lent_deliver(
    ws: &mut [LentWatch],
    places: &mut [u32],
    area: &mut [u8],
    section: &[u8],
    question: &[u32],
    reply: &mut [u32],
) -> u32
    ensures { left result ws.new places.new area.new reply.new ≡ called delivery_in (lent ws.old places.old area.old) section.now question.now reply.old }
{
    lent::lent_deliver(ws, places, area, section, question, reply)
}
