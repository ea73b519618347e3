// What crates above build on: judging with the place of the fault; and what stands before a body that is written, and behind it,
// put where the header's numbers have passed their test and the buffer has room.
ghost use Rattle.std.specs.Prelude.{◌≡◌, true, ◌+◌, ◌-◌, ◌*◌, ◌<◌, ◌≤◌, length, take};
ghost use Rattle.std.proofs.lemmas.List.Edits.{sets};
ghost use Rattle.checksum.specs.Register.{register, four_bytes};
ghost use Rattle.refusal.specs.Outcomes.{outcome};
ghost use Rattle.kind.specs.Kinds.{limits_of, kind_of, only_of};
ghost use Rattle.format.specs.Formats.{walks_all};
ghost use Rattle.format.specs.Values.{number, bytes_of};
ghost use Rattle.section.specs.declared.inner.Fault.TheVariants.{Refused};
ghost use Rattle.section.specs.Walked.{body_of};
ghost use Rattle.section.specs.Answers.{verdict_of, verdict_by, with_body, body_verdict};
ghost use Rattle.section.specs.Encoding.{header_head, length_with, head_for};
ghost use Rattle.section.specs.Writing.{header_given, header_fits};

use crate::header::{Header, header_of_any, header_of_kind};
use crate::write::Given;
use bytes_at::Walk;
use bytes_put::put_number;
use kind::Kind;
use part::part_of;
use refusal::Refusal;

// What is wrong with a section: a refusal by one of the tests 1 to 8, or a body that fails test 9, with the offset of the
// field that is to blame.
#[derive(Clone, Copy)]
pub enum Fault {
    Refused(Refusal),
    Broken(usize),
}

impl From<Refusal> for Fault {
    ghost from_gives = { λ k x. x ≡ Refused k };

    fn from(k: Refusal) -> Fault {
        Fault::Refused(k)
    }
}

// A section of any of the kinds.
pub fn inspect_any(s: &[u8]) -> Result<Header, Fault>
    ensures { verdict_of result ≡ verdict_by kind_of s.now }
{
    with_body(s, header_of_any(s))
}

// A section of one kind; the others are refused.
pub fn inspect_kind(s: &[u8], kind: Kind) -> Result<Header, Fault>
    ensures { verdict_of result ≡ verdict_by (only_of kind) s.now }
{
    with_body(s, header_of_kind(s, kind))
}

// 9, after what the header's tests said.
fn with_body(s: &[u8], head: Result<Header, Refusal>) -> Result<Header, Fault>
    ensures { verdict_of result ≡ with_body (outcome head) s.now }
{
    body_test(s, head?)
}

// The body of a section of this kind, from `at` to `end`.
fn whole_body(s: &[u8], kind: Kind, end: usize, at: usize) -> Walk
    ensures { result ≡ walks_all (body_of kind) s.now end at }
{
    match kind {
        Kind::Mgt => mgt::body(s, end, at),
        Kind::Tvct => tvct::body(s, end, at),
        Kind::Rrt => rrt::body(s, end, at),
        Kind::Eit => eit::body(s, end, at),
        Kind::Ett => ett::body(s, end, at),
    }
}

fn body_test(s: &[u8], h: Header) -> Result<Header, Fault>
    ensures { verdict_of result ≡ body_verdict h s.now }
{
    whole_body(s, h.kind, body_end(s), body_start(h.kind)).map_err(Fault::Broken)?;
    Ok(h)
}

// Where the body of a section of this kind begins.
pub fn body_start(kind: Kind) -> usize
    ensures { (result ≡ (limits_of kind).body) × (result < 4096) }
{
    let limits = kind.limits();
    limits.body
}

// Where the body ends and the checksum begins.
pub fn body_end(s: &[u8]) -> usize
    ensures { result ≡ length s.now - 4 }
{
    s.len().saturating_sub(4)
}

// The first three bytes of a header, to section_length, where the body has n bytes. Indicators and reserved bits are ones.
fn id_and_length(id: usize, n: usize) -> usize
    requires { (id < 256) × (n + 13 ≤ 4096) }
    ensures { (result ≡ id * 65536 + 61440 + length_with n) × (result < 16777216) }
{
    id * 0x1_0000 + 0xf000 + (n + 10)
}

// The next three, to current_next_indicator. Reserved bits are ones.
fn extension_and_version(extension: usize, version: usize, current: usize) -> usize
    requires { (extension < 65536) × ((version < 32) × (current < 2)) }
    ensures { (result ≡ extension * 256 + 192 + version * 2 + current) × (result < 16777216) }
{
    extension * 0x100 + 0xc0 + version * 2 + current
}

// The last three: protocol_version is 0.
fn numbers_and_protocol(number: usize, last: usize) -> usize
    requires { (number < 256) × (last < 256) }
    ensures { (result ≡ number * 65536 + last * 256) × (result < 16777216) }
{
    number * 0x1_0000 + last * 0x100
}

// The header of a section whose body has n bytes, at the buffer's start.
pub fn put_header(kind: Kind, g: Given, n: usize, out: &mut [u8])
    requires { (header_fits g ≡ true) × ((n + 13 ≤ 4096) × (9 ≤ length out.old)) }
    ensures { out.new ≡ sets out.old 0 (bytes_of 9 (number header_head (head_for kind (header_given g) n))) }
{
    put_number::<3>(out, 0, id_and_length(kind.table_id(), n));
    put_number::<3>(
        out,
        3,
        extension_and_version(g.extension, g.version, g.current),
    );
    put_number::<3>(out, 6, numbers_and_protocol(g.number, g.last));
}

// The checksum of the first n bytes, behind them.
pub fn seal(out: &mut [u8], n: usize)
    requires { n + 4 ≤ length out.old }
    ensures { out.new ≡ sets out.old n (four_bytes (register (take n out.old))) }
{
    let checksum = checksum::register_of(part_of(out, 0, n));
    put_number::<4>(out, n, checksum as usize);
}
