// A channel of a virtual channel table, and the walk past several: what such tables share. Nothing is
// judged here: places are those of a section that was.
#![tactic(auto)]

mod channel;
mod numbers;
mod walk;

pub use channel::{Channel, Name, Service, Tuning, channel_at};
pub use numbers::put_row;
pub use walk::past;
