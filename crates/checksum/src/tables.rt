// What stands for a byte that some bytes 0 follow, and for the four bytes of a number. There is no array here, since a constant one is
// laid on the stack anew at each call: the compiler knows a loop of eight shifts for a checksum, whatever its constant and its width, and
// makes a table of each in read-only memory. It does so only where it knows the constant in the loop's own function. So how many bytes 0
// follow is a parameter of the type: there is a function for each number, and in it `of_one` is a constant.
ghost use Rattle.std.specs.Prelude.{◌≡◌, ◌+◌, ◌*◌, ◌%◌, ◌^◌};
ghost use Rattle.checksum.specs.Register.{bits_in};
ghost use Rattle.checksum.specs.Ahead.{StandsFor};

use crate::byte_in;

// What so many bytes 0 make of the register 1.
fn of_one<const BYTES: usize>() -> u32
    ensures { result ≡ bits_in (8 * BYTES) 0 1 }
{
    let mut r = 1;
    for _ in 0..BYTES {
        r = byte_in(r, 0);
    }
    r
}

// What stands for the low byte of `y`, so many bytes 0 ahead.
pub fn byte_ahead<const BYTES: usize>(y: u64) -> u64
    ensures { StandsFor (bits_in (8 * BYTES) 0 (y % 256)) result }
{
    let one = u64::from(of_one::<BYTES>());
    let mut q = y << 56;
    for _ in 0..8u32 {
        q = if q < 0x8000_0000_0000_0000 {
            q << 1
        } else {
            (q << 1) ^ one
        };
    }
    q
}

// The same of the four low bytes, as bytes of a section: high byte first, and A, B, C and D are how many bytes follow each.
pub fn word_ahead<const A: usize, const B: usize, const C: usize, const D: usize>(y: u64) -> u64
    requires { (A ≡ D + 3) × ((B ≡ D + 2) × (C ≡ D + 1)) }
    ensures { StandsFor (bits_in (8 * D) 0 (y % 2 ^ 32)) result }
{
    byte_ahead::<A>(y >> 24)
        ^ (byte_ahead::<B>(y >> 16) ^ (byte_ahead::<C>(y >> 8) ^ byte_ahead::<D>(y)))
}
