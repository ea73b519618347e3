// Reading from a text field that stands from `at` to `end` of the bytes, as in a section that was judged: the field is not judged
// again, and a walk that meets a fault of its structure answers 9 all the same.
ghost use Rattle.std.specs.Prelude.{◌≡◌, true, ◌+◌, ◌<◌, ◌≤◌, length, take};
ghost use Rattle.std.proofs.lemmas.List.Edits.{sets};
ghost use Rattle.refusal.specs.Outcomes.{outcome};
ghost use Rattle.text.specs.Answers.{amount_of};
ghost use Rattle.text.specs.Strings.{string_count, string_at, joined_units, string_units, joined_replaced, string_replaced, string_heading};
ghost use Rattle.refusal.specs.Outputs.{output_after};
ghost use Rattle.text.specs.Texts.{fitting};
ghost use Rattle.text.specs.Inner.{joined_plain, OnceAll};

use crate::answer::{Amount, Heading};
use crate::once::{all_segments, segments_once};
use crate::segments::{any_compressed, plain_segments, standing};
use bytes_at::{back, byte, skip_fields};
use refusal::Refusal;

// number_strings.
pub fn count_strings(s: &[u8], end: usize, at: usize) -> usize
    ensures { (result ≡ string_count s.now end at) × (result < 256) }
{
    if at == end { 0 } else { byte(s, at) }
}

// The place behind the head of string k.
fn find_string(s: &[u8], end: usize, at: usize, k: usize) -> Result<usize, Refusal>
    ensures { outcome result ≡ string_at s.now end at k }
{
    if count_strings(s, end, at) <= k {
        return Err(Refusal::NoSuchEntry);
    }
    let b = standing(strings::strings(s, end, k, at + 1))?;
    standing(skip_fields(b, 24, 8, 0, 0, end))
}

// Language and number_segments of string k.
pub fn string_heading(s: &[u8], end: usize, at: usize, k: usize) -> Result<Heading, Refusal>
    ensures { outcome result ≡ string_heading s.now end at k }
{
    let b = find_string(s, end, at, k)?;
    Ok(Heading {
        language: back(s, b, 4) * 65536 + back(s, b, 3) * 256 + back(s, b, 2),
        segments: back(s, b, 1),
    })
}

// The number of units of string k, and of replaced segments.
pub fn string_units(s: &[u8], end: usize, at: usize, k: usize) -> Result<Amount, Refusal>
    ensures { outcome result ≡ amount_of (string_replaced s.now end at k) (string_units s.now end at k) }
{
    let b = find_string(s, end, at, k)?;
    units_from(s, end, back(s, b, 1), b)
}

// The text of string k, at the output's start, and the same numbers.
pub fn string_text(
    s: &[u8],
    end: usize,
    at: usize,
    k: usize,
    out: &mut [u16],
) -> Result<Amount, Refusal>
    ensures answers { outcome result ≡ amount_of (string_replaced s.now end at k) (fitting (length out.old) (string_units s.now end at k)) }
    ensures writes { out.new ≡ output_after out.old (fitting (length out.old) (string_units s.now end at k)) }
{
    let b = find_string(s, end, at, k)?;
    text_from(s, end, back(s, b, 1), b, out)
}

// The same of a field of at most 255 bytes, into an array that has room for every text of it.
pub fn string_read(
    s: &[u8],
    end: usize,
    at: usize,
    k: usize,
    o: &mut [u16; 2040],
) -> Result<Amount, Refusal>
    requires { end ≤ at + 255 }
    ensures { OnceAll (string_units s.now end at k) (string_replaced s.now end at k) o.old result o.new }
{
    let b = find_string(s, end, at, k)?;
    segments_once(s, end, back(s, b, 1), b, o)
}

// The units of m segments, counted: the plain ones by their lengths.
fn units_from(s: &[u8], end: usize, m: usize, from: usize) -> Result<Amount, Refusal>
    requires { m < 256 }
    ensures { outcome result ≡ amount_of (joined_replaced s.now end m from) (joined_units s.now end m from) }
{
    if any_compressed(s, end, m, from) {
        return units_through(s, end, m, from);
    }
    plain_segments(s, end, m, from, &mut [])
}

fn units_through(s: &[u8], end: usize, m: usize, from: usize) -> Result<Amount, Refusal>
    requires { m < 256 }
    ensures { outcome result ≡ amount_of (joined_replaced s.now end m from) (joined_units s.now end m from) }
{
    let mut o = [0u16; 2040];
    all_segments(s, end, m, from, &mut o, &mut [])
}

// The segments' units at the output's start, and how many they are. A text without a compressed segment needs no array.
fn text_from(
    s: &[u8],
    end: usize,
    m: usize,
    from: usize,
    out: &mut [u16],
) -> Result<Amount, Refusal>
    requires { m < 256 }
    ensures answers { outcome result ≡ amount_of (joined_replaced s.now end m from) (fitting (length out.old) (joined_units s.now end m from)) }
    ensures writes { out.new ≡ output_after out.old (fitting (length out.old) (joined_units s.now end m from)) }
{
    if any_compressed(s, end, m, from) {
        text_through(s, end, m, from, out)
    } else {
        plain_text(s, end, m, from, out)
    }
}

// All lengths are judged before the first unit is written.
fn plain_text(
    s: &[u8],
    end: usize,
    m: usize,
    from: usize,
    out: &mut [u16],
) -> Result<Amount, Refusal>
    requires { (m < 256) × (joined_plain s.now end m from ≡ joined_units s.now end m from) }
    ensures answers { outcome result ≡ amount_of (joined_replaced s.now end m from) (fitting (length out.old) (joined_units s.now end m from)) }
    ensures writes { out.new ≡ output_after out.old (fitting (length out.old) (joined_units s.now end m from)) }
{
    let a = plain_segments(s, end, m, from, &mut [])?;
    if out.len() < a.units {
        return Err(Refusal::OutputShort);
    }
    plain_segments(s, end, m, from, out)
}

fn is_short(end: usize, from: usize) -> bool
    ensures { (result ≡ true) → end ≤ from + 255 }
{
    end < 256 || end - 255 <= from
}

// The one array of a text.
fn text_through(
    s: &[u8],
    end: usize,
    m: usize,
    from: usize,
    out: &mut [u16],
) -> Result<Amount, Refusal>
    requires { m < 256 }
    ensures answers { outcome result ≡ amount_of (joined_replaced s.now end m from) (fitting (length out.old) (joined_units s.now end m from)) }
    ensures writes { out.new ≡ output_after out.old (fitting (length out.old) (joined_units s.now end m from)) }
{
    let mut o = [0u16; 2040];
    if is_short(end, from) {
        read_and_copy(s, end, m, from, &mut o, out)
    } else {
        judge_and_write(s, end, m, from, &mut o, out)
    }
}

// The first k units of o, from place n of the output on.
pub fn copy_units(o: &[u16; 2040], k: usize, out: &mut [u16], n: usize)
    requires { (k ≤ 2040) × (n + k ≤ length out.old) }
    ensures { out.new ≡ sets out.old n (take k o.now) }
{
    for i in 0..k {
        out[n + i] = o[i];
    }
}

// One pass over a text that has room in the array: the units are written to the output when all segments were read.
fn read_and_copy(
    s: &[u8],
    end: usize,
    m: usize,
    from: usize,
    o: &mut [u16; 2040],
    out: &mut [u16],
) -> Result<Amount, Refusal>
    requires { (m < 256) × (end ≤ from + 255) }
    ensures answers { outcome result ≡ amount_of (joined_replaced s.now end m from) (fitting (length out.old) (joined_units s.now end m from)) }
    ensures writes { out.new ≡ output_after out.old (fitting (length out.old) (joined_units s.now end m from)) }
{
    let a = segments_once(s, end, m, from, o)?;
    if out.len() < a.units {
        return Err(Refusal::OutputShort);
    }
    copy_units(o, a.units, out, 0);
    Ok(a)
}

// A longer text is read twice, segment by segment: all are judged before the first unit is written.
fn judge_and_write(
    s: &[u8],
    end: usize,
    m: usize,
    from: usize,
    o: &mut [u16; 2040],
    out: &mut [u16],
) -> Result<Amount, Refusal>
    requires { m < 256 }
    ensures answers { outcome result ≡ amount_of (joined_replaced s.now end m from) (fitting (length out.old) (joined_units s.now end m from)) }
    ensures writes { out.new ≡ output_after out.old (fitting (length out.old) (joined_units s.now end m from)) }
{
    let a = all_segments(s, end, m, from, o, &mut [])?;
    if out.len() < a.units {
        return Err(Refusal::OutputShort);
    }
    all_segments(s, end, m, from, o, out)
}
