// A part of lent bytes: where it stands, and its bytes, handed back without a copy.
#![tactic(auto)]

ghost use Rattle.std.specs.Prelude.{◌≡◌, take, drop};

// Where a part begins, and how many bytes it has.
#[derive(Clone, Copy)]
pub struct Part {
    pub start: usize,
    pub length: usize,
}

// The bytes from `start` on, `length` of them, as far as they are there.
pub fn part_of(s: &[u8], start: usize, length: usize) -> &[u8]
    ensures { result.now ≡ take length (drop start s.now) }
{
    let rest = &s[start.min(s.len())..];
    rest.get(..length).unwrap_or(rest)
}
