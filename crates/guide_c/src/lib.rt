// The library as C has it: the calls of `guide` under the same names, each with the clauses that it has there. include/guide.h declares them.
#![tactic(auto)]

mod all;
mod fields;
mod ratings;
mod sections;
mod tables;
mod texts;
mod titled;
mod writers;
