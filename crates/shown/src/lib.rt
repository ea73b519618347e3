// Words, numbers and titles as the bytes that show them, put into a lent output. What has no room is left out, and the answer is
// the next place.
#![tactic(auto)]

mod put;
mod title;

pub use put::{number_of, put_all, put_field, put_number};
pub use title::put_title;
