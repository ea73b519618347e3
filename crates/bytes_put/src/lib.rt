// Bytes put into a lent buffer, the high byte first.
#![tactic(auto)]

ghost use Rattle.std.specs.Prelude.{◌≡◌, ◌+◌, ◌*◌, ◌^◌, ◌<◌, ◌≤◌, length};
ghost use Rattle.std.proofs.lemmas.List.Edits.{sets};
ghost use Rattle.part.specs.Parts.{end_of, bytes_in};
ghost use Rattle.format.specs.Values.{bytes_of};

use part::Part;

// A number in N bytes.
pub fn put_number<const N: usize>(out: &mut [u8], at: usize, x: usize)
    requires { (N ≤ 8) × ((at + N ≤ length out.old) × (x < 2 ^ (8 * N))) }
    ensures { out.new ≡ sets out.old at (bytes_of N x) }
{
    out[at..at + N].copy_from_slice(&x.to_be_bytes()[8 - N..]);
}

// The bytes of a part of s. (`copy_from_slice` would call `memmove`, which a program that links the library need not have; a loop calls `memcpy`.)
pub fn put_part(out: &mut [u8], at: usize, s: &[u8], p: Part)
    requires { (at + p.length ≤ length out.old) × (end_of p ≤ length s.now) }
    ensures { out.new ≡ sets out.old at (bytes_in s.now p) }
{
    for i in 0..p.length {
        out[at + i] = s[p.start + i];
    }
}
