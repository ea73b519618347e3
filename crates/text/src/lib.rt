// The text of a string as 16-bit units, from a text field.
#![tactic(auto)]

mod answer;
mod field;
pub mod inner;
mod once;
mod segments;

pub use answer::{Amount, Heading};
pub use field::{count_strings, string_heading, string_text, string_units};
