// The event information table: its walk, its fields, its events and what is asked of them. Nothing is
// judged here: places are those of a section that was.
#![tactic(auto)]

mod ask;
mod event;
mod numbers;
mod search;
mod table;
mod walk;
mod write;

pub use ask::{advisory_text_at, descriptor_at, rating_at};
pub use event::{Event, Title, descriptors_at, event_at, event_end, title_at, title_of};
pub use numbers::put_row;
pub use search::find;
pub use table::{Table, count, fields_at, first};
pub use walk::{body, past};
pub use write::{events_size, put_body, put_event, put_events, rows_fit, rows_sound};
