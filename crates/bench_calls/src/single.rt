// One call each, on a shelf that is lent as bytes: what the programs in bench/stack/ paint. Beside the call's own stack an entry has the
// shelf that the call takes and the one that it gives.
use crate::shelves::key;
use part::Part;
use refusal::Refusal;
use shelf::Progress;

// Where a kept section stands in the area.
#[repr(C)]
#[derive(Clone, Copy)]
pub struct Span {
    pub start: usize,
    pub length: usize,
}

// The refusal's number, or 0.
fn number_of(answer: Result<(), Refusal>) -> u8 {
    match answer {
        Err(k) => k.number(),
        Ok(()) => 0,
    }
}

#[unsafe(no_mangle)]
pub extern "C" fn stack_open(held: &mut [u8], area: &[u8], pid: usize, quota: usize) -> u8 {
    let r = shelf::open(shelf_bytes::read(held), area, key(pid), quota);
    shelf_bytes::write(held, r.shelf);
    number_of(r.answer)
}

#[unsafe(no_mangle)]
pub extern "C" fn stack_close(held: &mut [u8], area: &[u8], pid: usize) -> u8 {
    let r = shelf::close(shelf_bytes::read(held), area, key(pid));
    shelf_bytes::write(held, r.shelf);
    number_of(r.answer)
}

// How many sections a complete watch has, or 0.
#[unsafe(no_mangle)]
pub extern "C" fn stack_status(held: &mut [u8], area: &[u8], pid: usize) -> usize {
    let r = shelf::status(shelf_bytes::read(held), area, key(pid));
    shelf_bytes::write(held, r.shelf);
    match r.answer {
        Ok(Progress::Complete { of }) => of,
        _ => 0,
    }
}

// All 0 where the section is refused.
#[unsafe(no_mangle)]
pub extern "C" fn stack_fetch(held: &mut [u8], area: &[u8], pid: usize, number: usize) -> Span {
    let r = shelf::fetch(shelf_bytes::read(held), area, key(pid), number);
    shelf_bytes::write(held, r.shelf);
    let p = r.answer.unwrap_or(Part {
        start: 0,
        length: 0,
    });
    Span {
        start: p.start,
        length: p.length,
    }
}

#[unsafe(no_mangle)]
pub extern "C" fn stack_deliver(
    held: &mut [u8],
    area: &mut [u8],
    pid: usize,
    section: &[u8],
) -> u8 {
    let r = shelf::deliver(shelf_bytes::read(held), area, pid, section);
    shelf_bytes::write(held, r.shelf);
    number_of(r.answer)
}
