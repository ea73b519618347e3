// The lines of a section.
ghost use Rattle.std.specs.Prelude.{◌≡◌};
ghost use Rattle.refusal.specs.Numbers.{number_of};
ghost use Rattle.refusal.specs.Outcomes.{resulted};
ghost use Rattle.kind.specs.Kinds.{kind_of};
ghost use Rattle.section.specs.Sections.{section_by};
ghost use Rattle.lines.specs.Lines.{kind_word, key_shown, edition_shown, rest_shown, refusal_shown, outcome_shown, section_shown};
ghost use Rattle.shown.specs.Output.{Put};

use crate::event::put_eit;
use kind::Kind;
use refusal::Refusal;
use section::inner::body_start;
use section::{Header, judge_any};
use shown::{number_of, put_all, put_field, put_number};

fn put_kind(out: &mut [u8], n: usize, kind: Kind) -> usize
    ensures { Put (kind_word kind) out.old n result out.new }
{
    match kind {
        Kind::Mgt => put_all(out, n, b" mgt "),
        Kind::Tvct => put_all(out, n, b" tvct "),
        Kind::Rrt => put_all(out, n, b" rrt "),
        Kind::Eit => put_all(out, n, b" eit "),
        Kind::Ett => put_all(out, n, b" ett "),
    }
}

fn put_key(out: &mut [u8], n: usize, pid: usize, h: Header) -> usize
    ensures { Put (key_shown pid h) out.old n result out.new }
{
    let kind = h.kind;
    let m = put_field(out, n, b" pid ", pid);
    let x = put_kind(out, m, kind);
    put_number(out, x, h.extension)
}

fn put_edition(out: &mut [u8], n: usize, h: Header) -> usize
    ensures { Put (edition_shown h) out.old n result out.new }
{
    let number = put_field(out, n, b" v", h.version);
    let last = put_field(out, number, b" ", h.number);
    put_field(out, last, b"/", h.last)
}

fn put_body(s: &[u8], h: Header, out: &mut [u8], n: usize) -> usize
    requires { section_by kind_of s.now ≡ resulted h }
    ensures { Put (rest_shown s.now h.kind) out.old n result out.new }
{
    let kind = h.kind;
    match kind {
        Kind::Eit => put_eit(s, body_start(kind), out, n),
        _ => put_all(out, n, b"\n"),
    }
}

fn put_sound(pid: usize, s: &[u8], h: Header, out: &mut [u8], n: usize) -> usize
    requires { section_by kind_of s.now ≡ resulted h }
    ensures { Put (outcome_shown pid s.now (resulted h)) out.old n result out.new }
{
    let m = put_key(out, n, pid, h);
    let x = put_edition(out, m, h);
    put_body(s, h, out, x)
}

fn put_refusal(out: &mut [u8], n: usize, k: Refusal) -> usize
    ensures { Put (refusal_shown (number_of k)) out.old n result out.new }
{
    let m = put_field(out, n, b" refused ", number_of(k));
    put_all(out, m, b"\n")
}

// 15, then 1 to 9.
pub fn put_section(pid: usize, s: &[u8], out: &mut [u8], n: usize) -> usize
    ensures { Put (section_shown pid s.now) out.old n result out.new }
{
    if 8191 < pid {
        return put_refusal(out, n, Refusal::OutOfRange);
    }
    match judge_any(s) {
        Ok(h) => put_sound(pid, s, h, out, n),
        Err(k) => put_refusal(out, n, k),
    }
}
