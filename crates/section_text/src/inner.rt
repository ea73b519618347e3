// The field of a text in a section that was judged: what crates above build on.
pub use crate::field::field_in;
