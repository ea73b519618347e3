// What a call tells C: a refusal's number, or a result as numbers of 32 bits; and what C asks for, out of such numbers. The calls stand above, in `guide`.
#![tactic(auto)]

pub mod fields;
pub mod ratings;
pub mod sections;
pub mod tables;
pub mod texts;
pub mod titled;
pub mod told;
pub mod writers;
