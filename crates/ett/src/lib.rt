// The extended text table: its walk, its fields, and its body written. Nothing is judged here: places
// are those of a section that was.
#![tactic(auto)]

mod table;
mod walk;
mod write;

pub use table::{Table, fields_at};
pub use walk::body;
pub use write::put_body;
