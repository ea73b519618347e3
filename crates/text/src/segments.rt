// Plain segments. They are judged and written by the same code: what has no room is not written, so judging is writing into an
// output of nothing, and reads no byte but those of the heads.
ghost use Rattle.std.specs.Prelude.{◌≡◌, false, List, ℕ, ◌+◌, ◌*◌, ◌^◌, ◌<◌, ◌≤◌, length, get_or, take};
ghost use Rattle.std.proofs.lemmas.List.Edits.{sets};
ghost use Rattle.bytes_at.specs.Walks.{standing};
ghost use Rattle.format.specs.Formats.{walks};
ghost use Rattle.refusal.specs.Outcomes.{resulted, outcome};
ghost use Rattle.strings.specs.Strings.{segment};
ghost use Rattle.text.specs.Segments.{way_of, utf16_units, units_by};
ghost use Rattle.text.specs.Strings.{segment_units, joined_units, joined_replaced};
ghost use Rattle.text.specs.Inner.{plain_pairs, plain_by, plain_units, joined_plain, Wrote, WroteAll};

use crate::answer::Amount;
use bytes_at::{Walk, byte};
use part::part_of;
use refusal::Refusal;
use segment::inner::put_unit;

// How a segment is read.
#[derive(Clone, Copy)]
pub enum Way {
    Plain,
    Utf16,
    Titles,
    Descriptions,
    Unread,
}

// A walk's place; 9 where it does not stand.
pub fn standing(w: Walk) -> Result<usize, Refusal>
    ensures { outcome result ≡ standing w }
{
    w.map_err(|_| Refusal::Body)
}

// The place behind the segment whose head begins at `at`.
pub fn past_segment(s: &[u8], end: usize, at: usize) -> Result<usize, Refusal>
    ensures { outcome result ≡ standing (walks segment s.now end at) }
{
    standing(strings::segments(s, end, 1, at))
}

pub fn way_of(compression: usize, mode: usize) -> Way
    ensures { result ≡ way_of compression mode }
{
    match (mode, compression) {
        (0, 0) => Way::Plain,
        (0, 1) => Way::Titles,
        (0, 2) => Way::Descriptions,
        (0x3F, 0) => Way::Utf16,
        _ => Way::Unread,
    }
}

// Unit i of plain bytes, one or two of them a unit.
fn unit_at(s: &[u8], wide: bool, i: usize) -> u16
    requires { (length s.now ≤ 255) × (i < length (plain_pairs wide s.now)) }
    ensures { result ≡ get_or (plain_pairs wide s.now) i 0 }
{
    if wide {
        256 * u16::from(s[2 * i]) + u16::from(s[2 * i + 1])
    } else {
        u16::from(s[i])
    }
}

// The first k units of plain bytes, from place n of the output on.
fn store(s: &[u8], wide: bool, k: usize, out: &mut [u16], n: usize)
    requires { (length s.now ≤ 255) × (k ≤ length (plain_pairs wide s.now)) }
    ensures { out.new ≡ sets out.old n (take k (plain_pairs wide s.now)) }
{
    if out.len() <= n {
        return;
    }
    for i in 0..k {
        put_unit(out, n, i, unit_at(s, wide, i));
    }
}

// Bytes that are units.
pub fn bytes(s: &[u8], out: &mut [u16], n: usize) -> Result<usize, Refusal>
    requires { length s.now ≤ 255 }
    ensures { Wrote (resulted s.now) out.old n result out.new }
{
    store(s, false, s.len(), out, n);
    Ok(s.len())
}

pub fn utf16(s: &[u8], out: &mut [u16], n: usize) -> Result<usize, Refusal>
    requires { length s.now ≤ 255 }
    ensures { Wrote (utf16_units s.now) out.old n result out.new }
{
    if s.len() % 2 != 0 {
        return Err(Refusal::BrokenText);
    }
    store(s, true, s.len() / 2, out, n);
    Ok(s.len() / 2)
}

// One plain segment: its units from place n of the output on, and how many they are.
fn plain_one(way: Way, s: &[u8], out: &mut [u16], n: usize) -> Result<usize, Refusal>
    requires { length s.now ≤ 255 }
    ensures { Wrote (plain_by way s.now) out.old n result out.new }
{
    match way {
        Way::Plain => bytes(s, out, n),
        Way::Utf16 => utf16(s, out, n),
        Way::Titles | Way::Descriptions | Way::Unread => Err(Refusal::NotAReadPair),
    }
}

// The segment whose head begins at `at`.
fn plain_at(s: &[u8], at: usize, out: &mut [u16], n: usize) -> Result<usize, Refusal>
    requires { at + 3 < 2 ^ 64 }
    ensures { Wrote (plain_units s.now at) out.old n result out.new }
{
    let w = way_of(byte(s, at), byte(s, at + 1));
    let bytes = part_of(s, at + 3, byte(s, at + 2));
    plain_one(w, bytes, out, n)
}

// m segments from a place on, joined, from the output's start on.
pub fn plain_segments(
    s: &[u8],
    end: usize,
    m: usize,
    from: usize,
    out: &mut [u16],
) -> Result<Amount, Refusal>
    requires { m < 256 }
    ensures { WroteAll (joined_plain s.now end m from) (joined_replaced s.now end m from) out.old result out.new }
{
    let mut at = from;
    let mut n = 0;
    for _ in 0..m {
        let b = past_segment(s, end, at)?;
        let k = plain_at(s, at, out, n)?;
        at = b;
        n += k;
    }
    Ok(Amount {
        units: n,
        replaced: 0,
    })
}

fn is_compressed(way: Way) -> bool
    ensures { ((result ≡ false) → (b : List ℕ) → plain_by way b ≡ units_by way b) }
{
    matches!(way, Way::Titles | Way::Descriptions)
}

fn compressed_at(s: &[u8], at: usize) -> bool
    requires { at + 3 < 2 ^ 64 }
    ensures { ((result ≡ false) → plain_units s.now at ≡ segment_units s.now at) }
{
    is_compressed(way_of(byte(s, at), byte(s, at + 1)))
}

// Whether one of m segments from a place on is compressed, as far as they lie in the field. Without one the plain bytes are all.
pub fn any_compressed(s: &[u8], end: usize, m: usize, from: usize) -> bool
    ensures { ((result ≡ false) → joined_plain s.now end m from ≡ joined_units s.now end m from) }
{
    let mut at = from;
    for _ in 0..m {
        let Ok(b) = past_segment(s, end, at) else {
            return false;
        };
        if compressed_at(s, at) {
            return true;
        }
        at = b;
    }
    false
}
