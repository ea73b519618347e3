// What the calls answer. A shelf stands beside each answer: every call is a function from a shelf to an answer and a shelf.
use refusal::Refusal;
use shelf_state::Shelf;

#[derive(Clone, Copy)]
pub enum Progress {
    NothingHeard,
    Part { held: usize, of: usize },
    Complete { of: usize },
}

#[derive(Clone, Copy)]
pub struct After<T> {
    pub answer: Result<T, Refusal>,
    pub shelf: Shelf,
}
