// The master guide table.
ghost use Rattle.std.specs.Prelude.{◌≡◌};
ghost use Rattle.refusal.specs.Outcomes.{outcome};
ghost use Rattle.entry.specs.Inner.{Begins};
ghost use Rattle.reading.specs.Mgts.{fields_in, fields_of, entry_of};

use entry::{Entry, rest_in, spot_of};
use kind::Kind;
use mgt::{defined_at, fields_at};
pub use mgt::{Defined, Table};
use refusal::Refusal;
use section::inner::body_start;
use section::judge_kind;

// The count of defined tables and the table's own descriptors.
pub fn fields(s: &[u8]) -> Result<Table, Refusal>
    ensures { outcome result ≡ fields_of s.now }
{
    judge_kind(s, Kind::Mgt)?;
    fields_in(s)
}

// The fields of a section that was judged.
fn fields_in(s: &[u8]) -> Result<Table, Refusal>
    requires { Begins Entry.Table s.now }
    ensures { outcome result ≡ fields_in s.now }
{
    let b = rest_in(s, Entry::Table)?;
    Ok(fields_at(s, body_start(Kind::Mgt), b))
}

// Defined table i, from 0.
pub fn entry(s: &[u8], i: usize) -> Result<Defined, Refusal>
    ensures { outcome result ≡ entry_of s.now i }
{
    let a = spot_of(s, Entry::Table, i)?;
    Ok(defined_at(s, a))
}
