// The segments of a string, read into an array. It has room for each of them, since a segment has at most 255 bytes and a unit takes a
// bit or more, and for a whole text of at most 255 bytes, which is read in one pass. What a refused text leaves in the array is of no
// use, so it is never an output.
ghost use Rattle.std.specs.Prelude.{◌+◌, ◌*◌, ◌^◌, ◌<◌, ◌≤◌, length};
ghost use Rattle.annex_c.specs.Tree.{walked};
ghost use Rattle.trees.specs.Which.{table_of};
ghost use Rattle.bytes_at.specs.Fields.{byte_at};
ghost use Rattle.segment.specs.Segment.{segment_text};
ghost use Rattle.text.specs.Segments.{units_or_refusal, units_by};
ghost use Rattle.text.specs.Strings.{segment_units, joined_units, joined_replaced};
ghost use Rattle.text.specs.Inner.{Wrote, WroteAll, Once, OnceAll};

use crate::answer::Amount;
use crate::segments::{Way, bytes, past_segment, utf16, way_of};
use bytes_at::byte;
use part::part_of;
use refusal::Refusal;
use segment::inner::copy;

// A compressed segment.
fn compressed_once(titles: bool, s: &[u8], o: &mut [u16; 2040], n: usize) -> Result<usize, Refusal>
    requires { (length s.now ≤ 255) × (n + 8 * length s.now ≤ 2040) }
    ensures { Once (units_or_refusal (segment_text (walked (table_of titles)) s.now)) o.old n result o.new }
{
    let r = segment::read(titles, s, o, n);
    if r < 4096 {
        Ok(r - n)
    } else {
        Err(Refusal::BrokenText)
    }
}

// One segment: its units from place n on, and how many they are.
fn one_once(way: Way, s: &[u8], o: &mut [u16; 2040], n: usize) -> Result<usize, Refusal>
    requires { (length s.now ≤ 255) × (n + 8 * length s.now ≤ 2040) }
    ensures { Once (units_by way s.now) o.old n result o.new }
{
    match way {
        Way::Plain => bytes(s, o, n),
        Way::Utf16 => utf16(s, o, n),
        Way::Titles => compressed_once(true, s, o, n),
        Way::Descriptions => compressed_once(false, s, o, n),
        Way::Unread => Err(Refusal::NotAReadPair),
    }
}

// The segment whose head begins at `at`; there is room for its units, and for one at least.
fn segment_once(s: &[u8], at: usize, o: &mut [u16; 2040], n: usize) -> Result<usize, Refusal>
    requires { (at + 3 < 2 ^ 64) × (n < 2040) × (n + 8 * byte_at s.now (at + 2) ≤ 2040) }
    ensures { Once (segment_units s.now at) o.old n result o.new }
{
    let w = way_of(byte(s, at), byte(s, at + 1));
    let bytes = part_of(s, at + 3, byte(s, at + 2));
    one_once(w, bytes, o, n)
}

// m segments from a place on, joined, from the array's start on.
pub fn segments_once(
    s: &[u8],
    end: usize,
    m: usize,
    from: usize,
    o: &mut [u16; 2040],
) -> Result<Amount, Refusal>
    requires { (m < 256) × (end ≤ from + 255) }
    ensures { OnceAll (joined_units s.now end m from) (joined_replaced s.now end m from) o.old result o.new }
{
    let mut at = from;
    let mut n = 0;
    for _ in 0..m {
        let b = past_segment(s, end, at)?;
        let k = segment_once(s, at, o, n)?;
        at = b;
        n += k;
    }
    Ok(Amount {
        units: n,
        replaced: 0,
    })
}

// The segment whose head begins at `at`, through the array: its units from place n of the output on, and how many they are.
fn segment_through(
    s: &[u8],
    at: usize,
    o: &mut [u16; 2040],
    out: &mut [u16],
    n: usize,
) -> Result<usize, Refusal>
    requires { at + 3 < 2 ^ 64 }
    ensures { Wrote (segment_units s.now at) out.old n result out.new }
{
    let k = segment_once(s, at, o, 0)?;
    copy(o, k, out, n);
    Ok(k)
}

// m segments from a place on, joined, from the output's start on.
pub fn all_segments(
    s: &[u8],
    end: usize,
    m: usize,
    from: usize,
    o: &mut [u16; 2040],
    out: &mut [u16],
) -> Result<Amount, Refusal>
    requires { m < 256 }
    ensures { WroteAll (joined_units s.now end m from) (joined_replaced s.now end m from) out.old result out.new }
{
    let mut at = from;
    let mut n = 0;
    for _ in 0..m {
        let b = past_segment(s, end, at)?;
        let k = segment_through(s, at, o, out, n)?;
        at = b;
        n += k;
    }
    Ok(Amount {
        units: n,
        replaced: 0,
    })
}
