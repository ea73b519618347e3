// 24: whether a section has room.
ghost use Rattle.std.specs.Prelude.{◌≡◌};
ghost use Rattle.refusal.specs.Outcomes.{outcome, resulted, or_refuse};
ghost use Rattle.section.specs.Writing.{length_fits};

use kind::Kind;
use refusal::Refusal;
use section::write::length_fits;

// 24, or the n bytes that a section of this kind has.
pub fn length_of(kind: Kind, room: usize, n: usize) -> Result<usize, Refusal>
    ensures { outcome result ≡ or_refuse 24 (length_fits kind room n) (resulted n) }
{
    if length_fits(kind, room, n) {
        Ok(n)
    } else {
        Err(Refusal::SectionTooLong)
    }
}
