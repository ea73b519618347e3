// The frame that a section is stored in: a record of the mark, PID and the section. Bytes are read here, and not judged.
#![tactic(auto)]

ghost use Rattle.std.specs.Prelude.{◌≡◌, ◌<◌};
ghost use Rattle.record.specs.Records.{length_in, to_come, whole, pid_in, section_in};

use bytes_at::word;
use part::part_of;

// The first bytes, which tell how many follow.
pub const HEAD: usize = 7;

// The longest record: those, and as many as a section_length of 12 bits can say.
pub const LARGEST: usize = 4102;

// What a record begins with.
const MARK: usize = 0xA55A;

// What the section's own section_length says.
fn length_of(bytes: &[u8]) -> usize
    ensures { (result ≡ length_in bytes.now) × (result < 4096) }
{
    word(bytes, 5) % 4096
}

// How many bytes of a record follow its first ones.
pub fn to_come(head: &[u8]) -> usize
    ensures { (result ≡ to_come head.now) × (result < 4096) }
{
    if HEAD <= head.len() && word(head, 0) == MARK {
        length_of(head)
    } else {
        0
    }
}

pub fn is_whole(bytes: &[u8]) -> bool
    ensures { result ≡ whole bytes.now }
{
    HEAD <= bytes.len() && word(bytes, 0) == MARK && HEAD + length_of(bytes) <= bytes.len()
}

pub fn pid_of(bytes: &[u8]) -> usize
    ensures { (result ≡ pid_in bytes.now) × (result < 65536) }
{
    word(bytes, 2)
}

// The section, without a copy.
pub fn section_of(bytes: &[u8]) -> &[u8]
    ensures { result.now ≡ section_in bytes.now }
{
    part_of(bytes, 4, 3 + length_of(bytes))
}
