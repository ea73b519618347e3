// The terrestrial virtual channel table: its walk and its fields; its channels are those of `channel`.
// Nothing is judged here: places are those of a section that was.
#![tactic(auto)]

mod table;
mod walk;

pub use table::{Table, count, fields_at, first};
pub use walk::body;
