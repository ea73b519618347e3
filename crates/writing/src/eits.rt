// An EIT section that is written: a row of eight numbers for each event, with places in one list of bytes.
ghost use Rattle.std.specs.Prelude.{◌≡◌, ◌*◌, ◌<◌, ◌≤◌, eqb, ltb, length};
ghost use Rattle.logic.specs.Loops.{◌&◌};
ghost use Rattle.refusal.specs.Outcomes.{outcome, resulted};
ghost use Rattle.refusal.specs.Outputs.{counted, output_after};
ghost use Rattle.eit.specs.Given.{rows_fit, rows_sound};
ghost use Rattle.section.specs.Writing.{header_fits};
ghost use Rattle.writing.specs.Inner.{EitFits};
ghost use Rattle.writing.specs.Written.{eit_bytes, whole_rows, eit_written};

use crate::room::length_of;
use eit::{events_size, put_body, rows_fit, rows_sound};
use kind::Kind;
use refusal::Refusal;
use section::inner::{put_header, seal};
use section::write::{Given, header_fits, numbers_fit};

// The rows that are there whole, at most as many as are counted.
fn whole_rows(count: usize, rows: &[u32]) -> usize
    ensures { (result ≡ whole_rows count rows.now) × (8 * result ≤ length rows.now) }
{
    count.min(rows.len() / 8)
}

// 23: has each number room in its field?
#[tactic(auto, using(logic::proofs::TestLaws::joined))]
fn numbers_have_room(g: Given, count: usize, rows: &[u32]) -> bool
    ensures { result ≡ header_fits g & ltb count 256 & rows_fit rows.now (whole_rows count rows.now) 0 }
{
    header_fits(g) && count < 256 && rows_fit(rows, whole_rows(count, rows))
}

// 9: is there a row for each event, and would reading accept every title and descriptor list?
#[tactic(auto, using(logic::proofs::TestLaws::joined))]
fn events_sound(count: usize, rows: &[u32], bytes: &[u8]) -> bool
    requires { count < 256 }
    ensures { result ≡ eqb (length rows.now) (8 * count) & rows_sound rows.now bytes.now count 0 }
{
    rows.len() == 8 * count && rows_sound(rows, count, bytes)
}

// The tests, in their order.
fn check(g: Given, count: usize, rows: &[u32], bytes: &[u8], room: usize) -> Result<usize, Refusal>
    ensures { outcome result ≡ counted (eit_written g count rows.now bytes.now room) }
{
    if !numbers_have_room(g, count, rows) {
        return Err(Refusal::FieldTooLarge);
    }
    if !numbers_fit(Kind::Eit, g) {
        return Err(Refusal::SectionNumber);
    }
    if !events_sound(count, rows, bytes) {
        return Err(Refusal::Body);
    }
    length_of(Kind::Eit, room, events_size(rows, count) + 14)
}

// The section, of n bytes, at the buffer's start.
fn put(g: Given, count: usize, rows: &[u32], bytes: &[u8], n: usize, out: &mut [u8])
    requires { EitFits g count rows.now bytes.now n (length out.old) }
    ensures { out.new ≡ output_after out.old (resulted (eit_bytes g count rows.now bytes.now)) }
{
    let body = n - 13;
    put_header(Kind::Eit, g, body, out);
    put_body(rows, count, bytes, out, 9);
    seal(out, 9 + body);
}

// An EIT section: 23, 8, 9, 24, or its length. The section then stands at the buffer's start, and nothing else changes.
pub fn write(
    g: Given,
    count: usize,
    rows: &[u32],
    bytes: &[u8],
    out: &mut [u8],
) -> Result<usize, Refusal>
    ensures answers { outcome result ≡ counted (eit_written g count rows.now bytes.now (length out.old)) }
    ensures writes { out.new ≡ output_after out.old (eit_written g count rows.now bytes.now (length out.old)) }
{
    let n = check(g, count, rows, bytes, out.len())?;
    put(g, count, rows, bytes, n, out);
    Ok(n)
}
