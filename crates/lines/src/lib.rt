// The bytes that the lister prints, put into a lent output. What has no room is left out, and the answer is how many bytes were put.
#![tactic(auto)]

mod event;
mod records;
mod sections;

pub use records::{begin, put_bad, put_last, put_record};
