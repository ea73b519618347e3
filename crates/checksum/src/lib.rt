// The checksum of a section: CRC_32 of ITU-T H.222.0, annex A.
// A byte has to wait for the register that the byte before it leaves. So up to sixteen bytes are looked up side by side,
// each as what the bits after it will make of it (src/tables.rt), and what is looked up is added. It has 40 bits, and is
// not brought down to 32: it stands for the register eight bits ahead (specs/Ahead.antt). One byte more leads back to the
// register itself, so a block goes in only where another byte follows it.
#![tactic(auto)]

ghost use Rattle.std.specs.Prelude.{◌≡◌, [], ◌∷◌, ◌+◌, ◌^◌, ◌≤◌, ◌<◌, eqb, length, take, drop};
ghost use Rattle.checksum.specs.Register.{bit_in, bits_in, register_from, register, four_bytes};
ghost use Rattle.checksum.specs.Ahead.{StandsAfter, End};

mod tables;

use tables::{byte_ahead, word_ahead};

// The register after a bit 0.
fn shift(r: u32) -> u32
    ensures { result ≡ bit_in r 0 }
{
    if r < 0x8000_0000 {
        r << 1
    } else {
        (r << 1) ^ 0x04c1_1db7
    }
}

// The register after one byte. (Eight shifts written out are several times slower: the compiler knows only the loop.)
fn byte_in(r: u32, x: u8) -> u32
    ensures { result ≡ bits_in 8 x r }
{
    let mut q = r ^ ((x as u32) << 24);
    for _ in 0..8u32 {
        q = shift(q);
    }
    q
}

// The number whose four bytes these are: as one number they are added to a register at once.
fn number(x0: u8, x1: u8, x2: u8, x3: u8) -> u64
    ensures { (result < 2 ^ 32) × (four_bytes result ≡ x0 ∷ x1 ∷ x2 ∷ x3 ∷ []) }
{
    ((x0 as u64) << 24) + ((x1 as u64) << 16) + ((x2 as u64) << 8) + (x3 as u64)
}

fn four(s: &[u8], at: usize) -> u64
    requires { at + 4 ≤ length s.now }
    ensures { (result < 2 ^ 32) × (four_bytes result ≡ take 4 (drop at s.now)) }
{
    number(s[at], s[at + 1], s[at + 2], s[at + 3])
}

// From what stands for the register eight bits ahead, what stands for it after the byte `x`, as far ahead.
fn one_more(a: u64, x: u8) -> u64
    ensures { StandsAfter (x ∷ []) a 8 result }
{
    byte_ahead::<5>((a >> 32) ^ (x as u64)) ^ ((a % 0x1_0000_0000) << 8)
}

// The same after two bytes.
fn two_more(a: u64, x: u8, y: u8) -> u64
    ensures { StandsAfter (x ∷ y ∷ []) a 8 result }
{
    byte_ahead::<6>((a >> 32) ^ (x as u64))
        ^ (byte_ahead::<5>((a >> 24) ^ (y as u64)) ^ ((a % 0x100_0000) << 16))
}

// The same after four bytes of `s`.
fn four_more(a: u64, s: &[u8], at: usize) -> u64
    requires { at + 4 ≤ length s.now }
    ensures { StandsAfter (take 4 (drop at s.now)) a 8 result }
{
    word_ahead::<8, 7, 6, 5>((a >> 8) ^ four(s, at)) ^ ((a % 256) << 32)
}

// The same after eight.
fn eight_more(a: u64, s: &[u8], at: usize) -> u64
    requires { at + 8 ≤ length s.now }
    ensures { StandsAfter (take 8 (drop at s.now)) a 8 result }
{
    word_ahead::<12, 11, 10, 9>((a >> 8) ^ four(s, at))
        ^ word_ahead::<8, 7, 6, 5>(((a % 256) << 24) ^ four(s, at + 4))
}

// The same after eight and 64 bits 0.
fn eight_far(a: u64, s: &[u8], at: usize) -> u64
    requires { at + 8 ≤ length s.now }
    ensures { StandsAfter (take 8 (drop at s.now)) a 72 result }
{
    word_ahead::<20, 19, 18, 17>((a >> 8) ^ four(s, at))
        ^ word_ahead::<16, 15, 14, 13>(((a % 256) << 24) ^ four(s, at + 4))
}

// The same after sixteen: the second eight need not wait for the first.
fn sixteen_more(a: u64, s: &[u8], at: usize) -> u64
    requires { at + 16 ≤ length s.now }
    ensures { StandsAfter (take 16 (drop at s.now)) a 8 result }
{
    eight_far(a, s, at) ^ eight_more(0, s, at + 8)
}

// The register itself, after the byte `x`.
fn last_byte(a: u64, x: u8) -> u32
    ensures { End (x ∷ []) a result }
{
    let top = (a >> 32) as u32;
    let low = (a % 0x1_0000_0000) as u32;
    byte_in(top << 24, x) ^ low
}

// The register after the bytes of `s` from `at` on, of which there are one to sixteen.
fn up_to_16(mut a: u64, s: &[u8], mut at: usize) -> u32
    requires { (at < length s.now) × (length s.now ≤ at + 16) }
    ensures { End (drop at s.now) a result }
{
    if s.len() - at > 8 {
        a = eight_more(a, s, at);
        at += 8;
    }
    if s.len() - at > 4 {
        a = four_more(a, s, at);
        at += 4;
    }
    if s.len() - at > 2 {
        a = two_more(a, s[at], s[at + 1]);
        at += 2;
    }
    if s.len() - at > 1 {
        a = one_more(a, s[at]);
        at += 1;
    }
    last_byte(a, s[at])
}

// The register after the bytes of `s`, from `r` on.
pub fn register_from(r: u32, s: &[u8]) -> u32
    ensures { result ≡ register_from r s.now }
{
    if s.is_empty() {
        return r;
    }
    let blocks = (s.len() - 1) / 16;
    let mut a = (r as u64) << 8;
    for k in 0..blocks {
        a = sixteen_more(a, s, 16 * k);
    }
    up_to_16(a, s, 16 * blocks)
}

// The register after the bytes of `s`, from its start.
pub fn register_of(s: &[u8]) -> u32
    ensures { result ≡ register s.now }
{
    register_from(0xffff_ffff, s)
}

// Does the section `s` end in its own checksum?
pub fn is_sound(s: &[u8]) -> bool
    ensures { result ≡ eqb (register s.now) 0 }
{
    register_of(s) == 0
}
