// The texts of a section, read where they stand: an event's title and advisory text, the extended text,
// and the texts of a rating region. The section is judged once, and the string asked for is then read
// from the field's own bytes.
#![tactic(auto)]

mod field;
pub mod inner;

ghost use Rattle.std.specs.Prelude.{◌≡◌, length};
ghost use Rattle.refusal.specs.Outcomes.{outcome};
ghost use Rattle.text.specs.Answers.{amount_of};
ghost use Rattle.refusal.specs.Outputs.{output_after};
ghost use Rattle.text.specs.Texts.{fitting};
ghost use Rattle.section_text.specs.Texts.{text_count, text_heading, text_units, text_replaced};

pub use field::Which;
use field::field_of;
use part::part_of;
use refusal::Refusal;
use text::{Amount, Heading};

// The number of strings: 1 to 9, 13 for the entry.
pub fn count_strings(s: &[u8], which: Which) -> Result<usize, Refusal>
    ensures { outcome result ≡ text_count s.now which }
{
    let p = field_of(s, which)?;
    let f = part_of(s, p.start, p.length);
    Ok(text::inner::count_strings(f, f.len(), 0))
}

// The language and the number of segments of string k: 1 to 9, 13 for the entry, 13.
pub fn string_heading(s: &[u8], which: Which, k: usize) -> Result<Heading, Refusal>
    ensures { outcome result ≡ text_heading s.now which k }
{
    let p = field_of(s, which)?;
    let f = part_of(s, p.start, p.length);
    text::inner::string_heading(f, f.len(), 0, k)
}

// The number of units of string k, and of replaced segments: 1 to 9, 13 for the entry, 13, then 10 or 11.
pub fn string_units(s: &[u8], which: Which, k: usize) -> Result<Amount, Refusal>
    ensures { outcome result ≡ amount_of (text_replaced s.now which k) (text_units s.now which k) }
{
    let p = field_of(s, which)?;
    let f = part_of(s, p.start, p.length);
    text::inner::string_units(f, f.len(), 0, k)
}

// The text of string k, at the output's start, and the same numbers: the same order, then 12.
pub fn string_text(s: &[u8], which: Which, k: usize, out: &mut [u16]) -> Result<Amount, Refusal>
    ensures answers { outcome result ≡ amount_of (text_replaced s.now which k) (fitting (length out.old) (text_units s.now which k)) }
    ensures writes { out.new ≡ output_after out.old (fitting (length out.old) (text_units s.now which k)) }
{
    let p = field_of(s, which)?;
    let f = part_of(s, p.start, p.length);
    text::inner::string_text(f, f.len(), 0, k, out)
}
