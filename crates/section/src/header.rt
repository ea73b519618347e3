// The header: its tests 1 to 8 and its fields.
ghost use Rattle.std.specs.Prelude.{◌≡◌};
ghost use Rattle.refusal.specs.Outcomes.{outcome};
ghost use Rattle.kind.specs.Kinds.{kind_of, only_of};
ghost use Rattle.section.specs.Headers.{header_by, of_kind, length_tests, checksum_test, number_tests};

use bytes_at::{byte, word};
use kind::{Kind, Limits};
use refusal::Refusal;

// The header's fields, as numbers.
#[derive(Clone, Copy)]
pub struct Header {
    pub kind: Kind,
    pub extension: usize,
    pub version: usize,
    pub current: usize,
    pub number: usize,
    pub last: usize,
}

// The header of a section of any of the kinds.
pub fn header_of_any(s: &[u8]) -> Result<Header, Refusal>
    ensures { outcome result ≡ header_by kind_of s.now }
{
    if s.len() < 3 {
        return Err(Refusal::TooShort);
    }
    of_found(s, Kind::of(byte(s, 0)))
}

// The header of a section of one kind; the others are refused.
pub fn header_of_kind(s: &[u8], kind: Kind) -> Result<Header, Refusal>
    ensures { outcome result ≡ header_by (only_of kind) s.now }
{
    if s.len() < 3 {
        return Err(Refusal::TooShort);
    }
    of_found(s, kind.only(byte(s, 0)))
}

// 2, then the others.
fn of_found(s: &[u8], found: Option<Kind>) -> Result<Header, Refusal>
    ensures { outcome result ≡ of_kind s.now found }
{
    let Some(kind) = found else {
        return Err(Refusal::OtherTable);
    };
    length_tests(s, kind, kind.limits())
}

// 3, 4 and 5, then the others.
fn length_tests(s: &[u8], kind: Kind, limits: Limits) -> Result<Header, Refusal>
    ensures { outcome result ≡ length_tests limits kind s.now }
{
    let flags = byte(s, 1);
    if flags / 128 == 0 {
        return Err(Refusal::Indicator);
    }
    if flags / 64 % 2 == 0 {
        return Err(Refusal::Indicator);
    }
    let length = word(s, 1) % 4096;
    if length < limits.smallest {
        return Err(Refusal::LengthRange);
    }
    if limits.largest < length {
        return Err(Refusal::LengthRange);
    }
    if s.len() != length + 3 {
        return Err(Refusal::ByteCount);
    }
    checksum_test(s, kind, limits)
}

// 6, then the others.
fn checksum_test(s: &[u8], kind: Kind, limits: Limits) -> Result<Header, Refusal>
    ensures { outcome result ≡ checksum_test limits kind s.now }
{
    if !checksum::is_sound(s) {
        return Err(Refusal::Checksum);
    }
    number_tests(s, kind, limits)
}

// The byte that must be 0, then 8, then the fields.
fn number_tests(s: &[u8], kind: Kind, limits: Limits) -> Result<Header, Refusal>
    ensures { outcome result ≡ number_tests limits kind s.now }
{
    let refusal = limits.zero_refusal;
    if byte(s, limits.zero_byte) != 0 {
        return Err(refusal);
    }
    let number = byte(s, 6);
    let last = byte(s, 7);
    if last < number {
        return Err(Refusal::SectionNumber);
    }
    if limits.last < last {
        return Err(Refusal::SectionNumber);
    }
    let flags = byte(s, 5);
    Ok(Header {
        kind,
        extension: word(s, 3),
        version: flags / 2 % 32,
        current: flags % 2,
        number,
        last,
    })
}
