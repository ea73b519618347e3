// Which texts a section has, and where each stands.
ghost use Rattle.std.specs.Prelude.{◌≡◌};
ghost use Rattle.refusal.specs.Outcomes.{outcome};
ghost use Rattle.entry.specs.declared.Entry.TheVariants.{Event, Dimension};
ghost use Rattle.entry.specs.Inner.{Begins, Inside};
ghost use Rattle.section_text.specs.Fields.{kind_for, title_field, title_in, advisory_text_in, extended_text_in, region_name_in, dimension_name_in, value_in, short_text_in, long_text_in, field_in, field_of};
ghost use Rattle.section_text.specs.Inner.{Begun};

use eit::{Title, advisory_text_at, title_at};
use entry::{Entry, spot_in, value_spot};
use kind::Kind;
use part::Part;
use refusal::Refusal;
use rrt::{dimension_at, texts_at};
use section::inner::{body_end, body_start};
use section::judge_kind;
use strings::text_at;

// Which text of a section is asked for, its entries counted from 0.
#[derive(Clone, Copy)]
pub enum Which {
    // of event i
    Title(usize),
    // of event i, for a region
    Advisory(usize, usize),
    // the text of an ETT
    Extended,
    RegionName,
    // of dimension i
    DimensionName(usize),
    // of dimension i, value j
    ShortText(usize, usize),
    LongText(usize, usize),
}

fn kind_for(which: Which) -> Kind
    ensures { result ≡ kind_for which }
{
    match which {
        Which::Title(_) | Which::Advisory(_, _) => Kind::Eit,
        Which::Extended => Kind::Ett,
        Which::RegionName
        | Which::DimensionName(_)
        | Which::ShortText(_, _)
        | Which::LongText(_, _) => Kind::Rrt,
    }
}

// A title of none and one of no strings have no string: an empty field stands for both.
fn title_field(t: Title) -> Part
    ensures { result ≡ title_field t }
{
    match t {
        Title::None | Title::NoStrings => Part {
            start: 0,
            length: 0,
        },
        Title::Text(p) => p,
    }
}

fn title_in(s: &[u8], i: usize) -> Result<Part, Refusal>
    requires { Begins Event s.now }
    ensures { outcome result ≡ title_in s.now i }
{
    let a = spot_in(s, Entry::Event, i)?;
    Ok(title_field(title_at(s, a)))
}

fn advisory_in(s: &[u8], i: usize, region: usize) -> Result<Part, Refusal>
    requires { Begins Event s.now }
    ensures { outcome result ≡ advisory_text_in s.now i region }
{
    let a = spot_in(s, Entry::Event, i)?;
    advisory_text_at(s, a, region).ok_or(Refusal::NoSuchEntry)
}

fn extended_in(s: &[u8]) -> Part
    ensures { result ≡ extended_text_in s.now }
{
    ett::fields_at(s, 0, body_start(Kind::Ett), body_end(s)).text
}

fn region_in(s: &[u8]) -> Part
    requires { Begins Dimension s.now }
    ensures { result ≡ region_name_in s.now }
{
    text_at(s, body_start(Kind::Rrt))
}

fn dimension_in(s: &[u8], i: usize) -> Result<Part, Refusal>
    requires { Begins Dimension s.now }
    ensures { outcome result ≡ dimension_name_in s.now i }
{
    let d = spot_in(s, Entry::Dimension, i)?;
    Ok(dimension_at(s, d).name)
}

// Where value j of dimension i begins.
fn value_in(s: &[u8], i: usize, j: usize) -> Result<usize, Refusal>
    requires { Begins Dimension s.now }
    ensures { (outcome result ≡ value_in s.now i j) × Inside s.now result }
{
    let d = spot_in(s, Entry::Dimension, i)?;
    value_spot(s, d, j)
}

fn short_in(s: &[u8], i: usize, j: usize) -> Result<Part, Refusal>
    requires { Begins Dimension s.now }
    ensures { outcome result ≡ short_text_in s.now i j }
{
    let a = value_in(s, i, j)?;
    Ok(texts_at(s, a).short_text)
}

fn long_in(s: &[u8], i: usize, j: usize) -> Result<Part, Refusal>
    requires { Begins Dimension s.now }
    ensures { outcome result ≡ long_text_in s.now i j }
{
    let a = value_in(s, i, j)?;
    Ok(texts_at(s, a).long_text)
}

// Where the text asked for stands in a section that was judged: 13 for its entry.
pub fn field_in(s: &[u8], which: Which) -> Result<Part, Refusal>
    requires { Begun s.now which }
    ensures { outcome result ≡ field_in s.now which }
{
    match which {
        Which::Title(i) => title_in(s, i),
        Which::Advisory(i, region) => advisory_in(s, i, region),
        Which::Extended => Ok(extended_in(s)),
        Which::RegionName => Ok(region_in(s)),
        Which::DimensionName(i) => dimension_in(s, i),
        Which::ShortText(i, j) => short_in(s, i, j),
        Which::LongText(i, j) => long_in(s, i, j),
    }
}

// Where the text asked for stands: 1 to 9, then 13 for its entry.
pub fn field_of(s: &[u8], which: Which) -> Result<Part, Refusal>
    ensures { outcome result ≡ field_of s.now which }
{
    judge_kind(s, kind_for(which))?;
    field_in(s, which)
}
