// The fields of each table and of its entries. Each table has a module with the same names: `fields`
// answers the table's own fields, and `entry` those of entry i. An RRT's entries are its dimensions;
// `value` answers the texts of one of their values. The section is judged once in each call.
#![tactic(auto)]

pub mod eits;
pub mod etts;
pub mod mgts;
pub mod rrts;
pub mod tvcts;
