// The shelf in lent memory: a list of watch records, rows of numbers for the places, and the area, all changed where they stand.
#![tactic(auto)]

pub mod by_value;
mod calls;
mod on_book;

pub use calls::{lent_close, lent_deliver, lent_fetch, lent_open, lent_status};
pub use lent_memory::records::{Called, LentWatch, blank_record};
pub use lent_memory::replies::{NO_VALUE, QUESTION, REPLY};
pub use lent_memory::rows::ROW;
