// One compressed segment of annex C, of a title or of a description. The reading of a coded symbol and of a raw character are
// two functions that call each other along the bits. They answer a number and store into an array of fixed size: a Result as the
// answer, or a lent slice, would keep the compiler from making jumps of the calls.
//
// A segment has at most 255 bytes, since its number_bytes is one byte, and each unit takes a bit or more: 2,040 units have room.
#![tactic(auto)]

pub mod inner;

ghost use Rattle.std.specs.Prelude.{◌≡◌, ◌+◌, ◌*◌, ◌<◌, ◌≤◌, length, get_or, take, drop};
ghost use Rattle.annex_c.specs.Tree.{tree, walked};
ghost use Rattle.trees.specs.Which.{table_of};
ghost use Rattle.steps.specs.Reaches.{Stepping};
ghost use Rattle.refusal.specs.Outcomes.{outcome};
ghost use Rattle.segment.specs.Bits.{all_bits, number_of_bits};
ghost use Rattle.segment.specs.Inner.{judged_text, written, Window, on_from, Finds, answer, PairOutcome, CodedAt, RawAt, Room};
ghost use Rattle.segment.specs.Segment.{ended_text, cut_text, segment_text};

use crate::inner::copy;
use bytes_at::byte;
use refusal::Refusal;
use steps::step_of;
use trees::{byte_of, root_of};

// The pair answers how many units there are, or 4096 and the refusal's number: 11 for broken text.
const BROKEN: usize = 4107;

// Bit i of the bytes, and 0 past their end.
fn bit_at(s: &[u8], i: usize) -> usize
    ensures { (result ≡ get_or (all_bits s.now) i 0) × (result < 2) }
{
    (byte(s, i / 8) >> (7 - i % 8)) % 2
}

// The eight bits from `at` on, with 0 for each past the end.
fn window(s: &[u8], at: usize) -> usize
    ensures { Window s.now at result }
{
    ((256 * byte(s, at / 8) + byte(s, at / 8 + 1)) >> (8 - at % 8)) % 256
}

// The number that the eight bits from `at` on are.
fn eight_at(s: &[u8], at: usize) -> u8
    requires { at + 8 ≤ 8 * length s.now }
    ensures { result ≡ number_of_bits 0 (take 8 (drop at (all_bits s.now))) }
{
    window(s, at) as u8
}

// What is left of a coded symbol: from the node `first` of its tree on, at bit `from`. The symbol and the place of the bit after it,
// or nothing where the bits end early.
fn rest_at(titles: bool, s: &[u8], from: usize, prior: u8, first: usize) -> Option<(u8, usize)>
    requires { (length s.now ≤ 255) × (first < 128) }
    ensures { Finds (on_from (table_of titles) first) s.now from prior result }
{
    let base = root_of(titles, prior);
    let mut node = first;
    for i in from..8 * s.len() {
        let v = byte_of(titles, base + (2 * node + bit_at(s, i)));
        if 128 <= v {
            return Some(((v - 128) as u8, i + 1));
        }
        node = v;
    }
    None
}

// One coded symbol, from bit `at` on: where the step e leads, and the rest of a longer code by the tree.
fn step_at(titles: bool, s: &[u8], at: usize, prior: u8, e: usize) -> Option<(u8, usize)>
    requires { (length s.now ≤ 255) × (at ≤ 8 * length s.now) × Stepping (tree (table_of titles) prior) (all_bits s.now) at e }
    ensures { Finds (walked (table_of titles)) s.now at prior result }
{
    let next = at + e % 16;
    if e < 2048 {
        return rest_at(titles, s, next, prior, e / 16);
    }
    if 8 * s.len() < next {
        return None;
    }
    let symbol = (e / 16 % 128) as u8;
    Some((symbol, next))
}

// One coded symbol, from bit `at` on.
fn symbol_at(titles: bool, s: &[u8], at: usize, prior: u8) -> Option<(u8, usize)>
    requires { (length s.now ≤ 255) × (at ≤ 8 * length s.now) }
    ensures { Finds (walked (table_of titles)) s.now at prior result }
{
    let e = step_of(titles, 16 * (prior as usize) + window(s, at) / 16);
    step_at(titles, s, at, prior, e)
}

// The end of a segment, with so many bits following it.
#[tactic(auto, using(crate::proofs::SegmentLaws::ended_done, crate::proofs::SegmentLaws::ended_broken), unfolding(crate::specs::Inner::answer))]
fn ended(following: usize, n: usize) -> usize
    ensures { result ≡ answer n (ended_text following) }
{
    if following < 8 { n } else { BROKEN }
}

// The bits end inside a symbol that began with so many bits left: broken text, however many.
#[tactic(auto, unfolding(crate::specs::Inner::answer, crate::specs::Segment::cut_text))]
fn cut(left: usize, n: usize) -> usize
    ensures { result ≡ answer n (cut_text left) }
{
    BROKEN
}

// A coded symbol at bit `at`, and what follows it.
#[cycle(coded_raw)]
fn coded(titles: bool, s: &&[u8], at: usize, prior: u8, out: &mut [u16; 2040], n: usize) -> usize
    requires { Room s.now.now at n }
    ensures { CodedAt (walked (table_of titles)) s.now.now at prior n out.old result out.new }
{
    let total = 8 * (*s).len();
    let Some((u, next)) = symbol_at(titles, *s, at, prior) else {
        return cut(total - at, n);
    };
    if u == 0 {
        return ended(total - next, n);
    }
    if u == 27 {
        return raw(titles, s, next, total - at, out, n);
    }
    out[n] = u16::from(u);
    coded(titles, s, next, u, out, n + 1)
}

// A raw character at bit `at`, of a symbol that began with `left` bits left, and what follows it.
#[cycle(coded_raw)]
fn raw(titles: bool, s: &&[u8], at: usize, left: usize, out: &mut [u16; 2040], n: usize) -> usize
    requires { Room s.now.now at n }
    ensures { RawAt (walked (table_of titles)) s.now.now at left n out.old result out.new }
{
    if 8 * (*s).len() < at + 8 {
        return cut(left, n);
    }
    let c = eight_at(*s, at);
    if 127 < c {
        return BROKEN;
    }
    out[n] = u16::from(c);
    coded(titles, s, at + 8, c, out, n + 1)
}

// The units of the segment s, from place n of the array on, and the place after them; or 4096 and the refusal's number.
pub fn read(titles: bool, s: &[u8], out: &mut [u16; 2040], n: usize) -> usize
    requires { Room s.now 0 n }
    ensures { PairOutcome (segment_text (walked (table_of titles)) s.now) n out.old result out.new }
{
    coded(titles, &s, 0, 0, out, n)
}

// How many units the segment s holds, or its refusal.
pub fn judge(titles: bool, s: &[u8]) -> Result<usize, Refusal>
    requires { length s.now ≤ 255 }
    ensures { outcome result ≡ judged_text 0 (segment_text (walked (table_of titles)) s.now) }
{
    let mut o = [0u16; 2040];
    let r = coded(titles, &s, 0, 0, &mut o, 0);
    if r < 4096 {
        return Ok(r);
    }
    Err(Refusal::BrokenText)
}

// The same, with the units written from place n of the output on, those that have room. A refusal writes none.
pub fn write(titles: bool, s: &[u8], out: &mut [u16], n: usize) -> Result<usize, Refusal>
    requires { length s.now ≤ 255 }
    ensures judges { outcome result ≡ judged_text 0 (segment_text (walked (table_of titles)) s.now) }
    ensures writes { out.new ≡ written out.old n (segment_text (walked (table_of titles)) s.now) }
{
    let mut o = [0u16; 2040];
    let r = coded(titles, &s, 0, 0, &mut o, 0);
    if r < 4096 {
        copy(&o, r, out, n);
        return Ok(r);
    }
    Err(Refusal::BrokenText)
}
