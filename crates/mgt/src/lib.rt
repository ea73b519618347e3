// The master guide table: its walk, its fields and the tables that it defines. Nothing is judged here:
// places are those of a section that was.
#![tactic(auto)]

mod defined;
mod numbers;
mod table;
mod walk;

pub use defined::{Defined, defined_at};
pub use numbers::put_row;
pub use table::{Table, count, fields_at, first};
pub use walk::{body, past};
