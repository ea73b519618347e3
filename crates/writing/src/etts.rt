// An ETT section that is written: ETM_id, and a text as bytes.
ghost use Rattle.std.specs.Prelude.{◌≡◌, ◌+◌, ◌<◌, ltb, length};
ghost use Rattle.logic.specs.Loops.{◌&◌};
ghost use Rattle.refusal.specs.Outcomes.{outcome, resulted, or_refuse};
ghost use Rattle.refusal.specs.Outputs.{counted, output_after};
ghost use Rattle.kind.specs.declared.Kind.TheVariants.{Ett};
ghost use Rattle.format.specs.Formats.{walks_all};
ghost use Rattle.strings.specs.Strings.{text};
ghost use Rattle.eit.specs.Given.{stands};
ghost use Rattle.section.specs.Writing.{header_fits, length_fits};
ghost use Rattle.writing.specs.Inner.{Fits};
ghost use Rattle.writing.specs.Written.{ett_bytes, ett_written};

use crate::room::length_of;
use ett::put_body;
use kind::Kind;
use refusal::Refusal;
use section::inner::{put_header, seal};
use section::write::{Given, header_fits, numbers_fit};
use strings::whole_text;

// 23: has each number room in its field?
#[tactic(auto, using(logic::proofs::TestLaws::joined))]
fn numbers_have_room(g: Given, etm: usize) -> bool
    ensures { result ≡ header_fits g & ltb etm 4294967296 }
{
    header_fits(g) && etm < 4294967296
}

// 9: is it a text that is not empty, and that reading would accept?
#[tactic(auto, using(logic::proofs::TestLaws::joined))]
fn text_sound(t: &[u8]) -> bool
    ensures { result ≡ ltb 0 (length t.now) & stands (walks_all text t.now (length t.now) 0) }
{
    !t.is_empty() && whole_text(t, t.len(), 0).is_ok()
}

// 24, or the length of a section whose text has n bytes. A text that is longer than any section is refused before its
// length is added to the rest.
fn length_with(room: usize, n: usize) -> Result<usize, Refusal>
    ensures { outcome result ≡ or_refuse 24 (length_fits Ett room (n + 17)) (resulted (n + 17)) }
{
    if 4096 < n {
        return Err(Refusal::SectionTooLong);
    }
    length_of(Kind::Ett, room, n + 17)
}

// The tests, in their order.
fn check(g: Given, etm: usize, t: &[u8], room: usize) -> Result<usize, Refusal>
    ensures { outcome result ≡ counted (ett_written g etm t.now room) }
{
    if !numbers_have_room(g, etm) {
        return Err(Refusal::FieldTooLarge);
    }
    if !numbers_fit(Kind::Ett, g) {
        return Err(Refusal::SectionNumber);
    }
    if !text_sound(t) {
        return Err(Refusal::Body);
    }
    length_with(room, t.len())
}

// The section, at the buffer's start.
fn put(g: Given, etm: usize, t: &[u8], out: &mut [u8])
    requires { Fits g (length t.now + 4) (length out.old) × (etm < 4294967296) }
    ensures { out.new ≡ output_after out.old (resulted (ett_bytes g etm t.now)) }
{
    let n = t.len() + 4;
    put_header(Kind::Ett, g, n, out);
    put_body(etm, t, out, 9);
    seal(out, 9 + n);
}

// An ETT section: 23, 8, 9, 24, or its length. The section then stands at the buffer's start, and nothing else changes.
pub fn write(g: Given, etm: usize, text: &[u8], out: &mut [u8]) -> Result<usize, Refusal>
    ensures answers { outcome result ≡ counted (ett_written g etm text.now (length out.old)) }
    ensures writes { out.new ≡ output_after out.old (ett_written g etm text.now (length out.old)) }
{
    let n = check(g, etm, text, out.len())?;
    put(g, etm, text, out);
    Ok(n)
}
