// The shelf's records, their rules, and what is found and changed in them. The calls stand above.
#![tactic(auto)]

pub mod inner;
mod records;
mod rules;

pub use records::{Asked, Edition, Key, Place, Shelf, Watch};
pub use rules::{in_range, obeys_rules, sizes_in_range};
