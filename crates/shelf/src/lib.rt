// The shelf: watches are opened and closed, asked for their status and for sections, and sections are delivered.
#![tactic(auto)]

mod answers;
mod calls;
mod delivery;
pub mod inner;

pub use answers::{After, Progress};
pub use calls::{close, empty, fetch, open, status};
pub use delivery::deliver;
