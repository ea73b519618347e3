// The terrestrial virtual channel table.
ghost use Rattle.std.specs.Prelude.{◌≡◌};
ghost use Rattle.refusal.specs.Outcomes.{outcome};
ghost use Rattle.entry.specs.Inner.{Begins};
ghost use Rattle.reading.specs.Tvcts.{fields_in, fields_of, entry_of};

use channel::channel_at;
pub use channel::{Channel, Name, Service, Tuning};
use entry::{Entry, rest_in, spot_of};
use kind::Kind;
use refusal::Refusal;
use section::inner::body_start;
use section::judge_kind;
pub use tvct::Table;
use tvct::fields_at;

// The transport stream, the count of channels and the table's own descriptors.
pub fn fields(s: &[u8]) -> Result<Table, Refusal>
    ensures { outcome result ≡ fields_of s.now }
{
    let h = judge_kind(s, Kind::Tvct)?;
    fields_in(s, h.extension)
}

// The fields of a section that was judged.
fn fields_in(s: &[u8], extension: usize) -> Result<Table, Refusal>
    requires { Begins Entry.Channel s.now }
    ensures { outcome result ≡ fields_in extension s.now }
{
    let b = rest_in(s, Entry::Channel)?;
    Ok(fields_at(s, extension, body_start(Kind::Tvct), b))
}

// Channel i, from 0.
pub fn entry(s: &[u8], i: usize) -> Result<Channel, Refusal>
    ensures { outcome result ≡ entry_of s.now i }
{
    let a = spot_of(s, Entry::Channel, i)?;
    Ok(channel_at(s, a))
}
