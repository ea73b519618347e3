// The rating region table: its walk, its fields, its dimensions and their values. Nothing is judged
// here: places are those of a section that was.
#![tactic(auto)]

mod dimension;
mod numbers;
mod table;
mod walk;

pub use dimension::{
    Dimension, ValueTexts, dimension_at, dimension_end, first_value, texts_at, values,
};
pub use numbers::{put_row, put_value};
pub use table::{Table, count, fields_at, first};
pub use walk::{body, past, past_values};
