// The rating region table.
ghost use Rattle.std.specs.Prelude.{◌≡◌};
ghost use Rattle.refusal.specs.Outcomes.{outcome};
ghost use Rattle.entry.specs.Inner.{Begins};
ghost use Rattle.reading.specs.Rrts.{fields_in, fields_of, entry_of, value_of};

use entry::{Entry, rest_in, spot_of, value_spot};
use kind::Kind;
use refusal::Refusal;
use rrt::{dimension_at, fields_at, texts_at};
pub use rrt::{Dimension, Table, ValueTexts};
use section::inner::body_start;
use section::judge_kind;

// The extension, the region and its name, the count of dimensions and the table's own descriptors.
pub fn fields(s: &[u8]) -> Result<Table, Refusal>
    ensures { outcome result ≡ fields_of s.now }
{
    let h = judge_kind(s, Kind::Rrt)?;
    fields_in(s, h.extension)
}

// The fields of a section that was judged.
fn fields_in(s: &[u8], extension: usize) -> Result<Table, Refusal>
    requires { Begins Entry.Dimension s.now }
    ensures { outcome result ≡ fields_in extension s.now }
{
    let b = rest_in(s, Entry::Dimension)?;
    Ok(fields_at(s, extension, body_start(Kind::Rrt), b))
}

// Dimension i, from 0.
pub fn entry(s: &[u8], i: usize) -> Result<Dimension, Refusal>
    ensures { outcome result ≡ entry_of s.now i }
{
    let a = spot_of(s, Entry::Dimension, i)?;
    Ok(dimension_at(s, a))
}

// Value j of dimension i, both from 0.
pub fn value(s: &[u8], i: usize, j: usize) -> Result<ValueTexts, Refusal>
    ensures { outcome result ≡ value_of s.now i j }
{
    let d = spot_of(s, Entry::Dimension, i)?;
    let a = value_spot(s, d, j)?;
    Ok(texts_at(s, a))
}
