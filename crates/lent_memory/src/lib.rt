// What lent memory means as a shelf, and what is written there: watch records, rows of numbers for the places, questions and replies. The
// calls stand above.
#![tactic(auto)]

pub mod changes;
pub mod records;
pub mod replies;
pub mod rows;
