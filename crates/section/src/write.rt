// A section that is given to be written: its header's numbers, and the tests of them and of its length.
ghost use Rattle.std.specs.Prelude.{◌≡◌};
ghost use Rattle.section.specs.Writing.{header_fits, numbers_fit, length_fits};

use kind::Kind;

// What a header is given by: the rest of it is told by the kind and the body.
#[derive(Clone, Copy)]
pub struct Given {
    pub extension: usize,
    pub version: usize,
    pub current: usize,
    pub number: usize,
    pub last: usize,
}

// 23: has each number room in its field?
#[tactic(auto, using(logic::proofs::TestLaws::joined), unfolding(crate::specs::Writing::header_fits))]
pub fn header_fits(g: Given) -> bool
    ensures { result ≡ header_fits g }
{
    g.extension < 65536 && g.version < 32 && g.current < 2 && g.number < 256 && g.last < 256
}

// 8: may a section of this kind have these numbers?
#[tactic(auto, using(logic::proofs::TestLaws::joined), unfolding(crate::specs::Writing::numbers_fit))]
pub fn numbers_fit(kind: Kind, g: Given) -> bool
    ensures { result ≡ numbers_fit kind g }
{
    g.number <= g.last && g.last <= kind.limits().last
}

// 24: may a section of this kind have n bytes, and has a buffer of so many bytes room for them?
#[tactic(auto, using(logic::proofs::TestLaws::joined), unfolding(crate::specs::Writing::length_fits))]
pub fn length_fits(kind: Kind, room: usize, n: usize) -> bool
    ensures { result ≡ length_fits kind room n }
{
    n <= kind.limits().largest + 3 && n <= room
}
