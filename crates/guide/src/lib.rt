// The library as C has it: every call with numbers, pointers and lengths alone. include/guide.h declares them and says what each does; what is told stands in `telling`.
#![tactic(auto)]

pub mod all;
pub mod fields;
pub mod ratings;
pub mod sections;
pub mod tables;
pub mod texts;
pub mod titled;
pub mod writers;
