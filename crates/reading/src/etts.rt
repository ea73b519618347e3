// The extended text table.
ghost use Rattle.std.specs.Prelude.{◌≡◌};
ghost use Rattle.refusal.specs.Outcomes.{outcome};
ghost use Rattle.reading.specs.Etts.{fields_of};

pub use ett::Table;
use ett::fields_at;
use kind::Kind;
use refusal::Refusal;
use section::inner::{body_end, body_start};
use section::judge_kind;

// The extension, ETM_id and where the text stands.
pub fn fields(s: &[u8]) -> Result<Table, Refusal>
    ensures { outcome result ≡ fields_of s.now }
{
    let h = judge_kind(s, Kind::Ett)?;
    let at = body_start(Kind::Ett);
    Ok(fields_at(s, h.extension, at, body_end(s)))
}
