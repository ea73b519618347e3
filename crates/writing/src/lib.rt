// Writing: a whole EIT or ETT section with its checksum into a lent buffer, or one refusal and the buffer as it was.
#![tactic(auto)]

pub mod eits;
pub mod etts;
mod room;
