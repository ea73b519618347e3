// The judge: a whole section by the tests 1 to 9.
ghost use Rattle.std.specs.Prelude.{◌≡◌};
ghost use Rattle.refusal.specs.Outcomes.{outcome};
ghost use Rattle.kind.specs.Kinds.{kind_of, only_of};
ghost use Rattle.section.specs.Answers.{verdict_of, plainly};
ghost use Rattle.section.specs.Sections.{section_by};

use crate::header::Header;
use crate::inner::{Fault, inspect_any, inspect_kind};
use kind::Kind;
use refusal::Refusal;

// A section of any of the kinds.
pub fn judge_any(s: &[u8]) -> Result<Header, Refusal>
    ensures { outcome result ≡ section_by kind_of s.now }
{
    plain(inspect_any(s))
}

// A section of one kind; the others are refused.
pub fn judge_kind(s: &[u8], kind: Kind) -> Result<Header, Refusal>
    ensures { outcome result ≡ section_by (only_of kind) s.now }
{
    plain(inspect_kind(s, kind))
}

// The number alone: a refusal tells no more.
fn plain(judged: Result<Header, Fault>) -> Result<Header, Refusal>
    ensures { outcome result ≡ plainly (verdict_of judged) }
{
    judged.map_err(|fault| match fault {
        Fault::Refused(k) => k,
        Fault::Broken(_) => Refusal::Body,
    })
}
