// Judging a section: the header's tests 1 to 8, then the body, test 9, in the order of SCOPE 6.2.
// Writing one: the tests of what is given, and what stands before its body and behind it.
#![tactic(auto)]

mod header;
pub mod inner;
mod judge;
pub mod write;

pub use header::Header;
pub use judge::{judge_any, judge_kind};
