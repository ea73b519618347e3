// The five calls with the watch records by value, for callers that hold no lent list of them: the first n of sixteen are lent.
ghost use Rattle.std.specs.Prelude.{◌≡◌, ◌≤◌, take};
ghost use Rattle.lent_memory.specs.Meaning.{shelf_in, watches_meant};
ghost use Rattle.lent.specs.Calls.{CallIn, left, called_first, opening_in, closing_in, asking_in, fetching_in, delivery_in};
ghost use Rattle.lent.specs.Inner.{Runs};

use crate::calls::{
    lent_close as closes, lent_deliver as delivers, lent_fetch as fetches, lent_open as opens,
    lent_status as asks,
};
use lent_memory::records::{Book, Called, LentWatch, called_with, watch_meant};
use lent_memory::rows::{at_most, shelf_in};
use shelf_state::inner::blank_watch;
use shelf_state::{Shelf, Watch};

// A call, `run`, on the first n of the records. More than sixteen are refused before it runs.
fn on_first<F: FnOnce(&mut [LentWatch], &mut [u32], &mut [u8], &[u8], &[u32], &mut [u32]) -> u32>(
    ws: &mut [LentWatch; 16],
    n: usize,
    places: &mut [u32],
    area: &mut [u8],
    section: &[u8],
    question: &[u32],
    reply: &mut [u32],
    run: F,
) -> u32
    requires { F.IsAlwaysCallable run }
    ensures { (f : CallIn) → Runs f (F.post run) → left result ws.new places.new area.new reply.new ≡ called_first f n ws.old places.old area.old section.now question.now reply.old }
{
    if 16 < n {
        14
    } else {
        run(&mut ws[..n], places, area, section, question, reply)
    }
}

pub fn open(
    mut ws: [LentWatch; 16],
    n: usize,
    places: &mut [u32],
    area: &mut [u8],
    section: &[u8],
    question: &[u32],
    reply: &mut [u32],
) -> Called
    ensures { left result.number result.watches places.new area.new reply.new ≡ called_first opening_in n ws places.old area.old section.now question.now reply.old }
{
    let number = on_first(&mut ws, n, places, area, section, question, reply, opens);
    called_with(number, ws)
}

pub fn close(
    mut ws: [LentWatch; 16],
    n: usize,
    places: &mut [u32],
    area: &mut [u8],
    section: &[u8],
    question: &[u32],
    reply: &mut [u32],
) -> Called
    ensures { left result.number result.watches places.new area.new reply.new ≡ called_first closing_in n ws places.old area.old section.now question.now reply.old }
{
    let number = on_first(&mut ws, n, places, area, section, question, reply, closes);
    called_with(number, ws)
}

pub fn status(
    mut ws: [LentWatch; 16],
    n: usize,
    places: &mut [u32],
    area: &mut [u8],
    section: &[u8],
    question: &[u32],
    reply: &mut [u32],
) -> Called
    ensures { left result.number result.watches places.new area.new reply.new ≡ called_first asking_in n ws places.old area.old section.now question.now reply.old }
{
    let number = on_first(&mut ws, n, places, area, section, question, reply, asks);
    called_with(number, ws)
}

pub fn fetch(
    mut ws: [LentWatch; 16],
    n: usize,
    places: &mut [u32],
    area: &mut [u8],
    section: &[u8],
    question: &[u32],
    reply: &mut [u32],
) -> Called
    ensures { left result.number result.watches places.new area.new reply.new ≡ called_first fetching_in n ws places.old area.old section.now question.now reply.old }
{
    let number = on_first(&mut ws, n, places, area, section, question, reply, fetches);
    called_with(number, ws)
}

pub fn deliver(
    mut ws: [LentWatch; 16],
    n: usize,
    places: &mut [u32],
    area: &mut [u8],
    section: &[u8],
    question: &[u32],
    reply: &mut [u32],
) -> Called
    ensures { left result.number result.watches places.new area.new reply.new ≡ called_first delivery_in n ws places.old area.old section.now question.now reply.old }
{
    let number = on_first(&mut ws, n, places, area, section, question, reply, delivers);
    called_with(number, ws)
}

fn watches_meant(ws: [LentWatch; 16], n: usize) -> [Watch; 16]
    requires { n ≤ 16 }
    ensures { result ≡ watches_meant 16 (take n ws) }
{
    let blank = blank_watch();
    let mut r = [blank; 16];
    for i in 0..n {
        r[i] = watch_meant(ws[i]);
    }
    r
}

// The shelf that the first n records and the rows mean. More than sixteen break its rules by their number.
pub fn shelf_of(ws: [LentWatch; 16], n: usize, places: &[u32]) -> Shelf
    ensures { result ≡ shelf_in n (watches_meant 16 (take n ws)) places.now }
{
    let watches = watches_meant(ws, at_most(16, n));
    let book = Book {
        records: n,
        watches,
    };
    shelf_in(book, places)
}
