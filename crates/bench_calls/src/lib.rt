// What the programs in bench/ measure, under C names.
#![tactic(auto)]

mod shelves;
mod single;
mod writers;

ghost use Rattle.std.specs.Prelude.{◌≡◌, ◌≤◌, length};
ghost use Rattle.checksum.specs.Register.{register};
ghost use Rattle.kind.specs.Kinds.{kind_of};
ghost use Rattle.section.specs.Sections.{section_by};
ghost use Rattle.bench_calls.specs.Told.{told};

use bytes_at::byte;
use part::part_of;

// The register after the bytes of `s`, from its start.
#[unsafe(no_mangle)]
pub extern "C" fn bench_register(s: &[u8]) -> u32
    ensures { result ≡ register s.now }
{
    checksum::register_of(s)
}

// The refusal's number of a section, or 0.
#[unsafe(no_mangle)]
pub extern "C" fn bench_judge(s: &[u8]) -> u8
    ensures { result ≡ told (section_by kind_of s.now) }
{
    match section::judge_any(s) {
        Err(k) => k.number(),
        Ok(_) => 0,
    }
}

// One segment of type 1 into the output: 1 where it is text, and else 0.
fn title(s: &[u8], out: &mut [u16]) -> usize
    requires { length s.now ≤ 255 }
    ensures { result ≤ 1 }
{
    usize::from(segment::write(true, s, out, 0).is_ok())
}

// How many of the segments of type 1 in `s`, each with its length before it, are text. Each is written
// to the output, over the one before.
#[unsafe(no_mangle)]
pub extern "C" fn bench_titles(s: &[u8], out: &mut [u16]) -> usize
    ensures { result ≤ length s.now }
{
    let mut at = 0;
    let mut texts = 0;
    while at < s.len() {
        let n = byte(s, at);
        texts += title(part_of(s, at + 1, n), out);
        at += n + 1;
    }
    texts
}
