//! How a state was reached, and what became of its row.
use fmp_base::Event;

/// How a state was reached.
#[derive(Clone, Copy)]
pub struct StateLink {
    /// The place of the state before it; its own place, if it is the first one.
    pub parent: u32,
    /// The event that led to it.
    pub event: Event,
    /// Whether the event kept a place, and was not done.
    pub kept: bool,
    /// How many events lead to it.
    pub depth: u32,
}

/// What became of a row.
#[derive(Clone, Copy, Debug, PartialEq, Eq)]
pub enum RowEntry {
    /// It is new, and is kept at this place.
    New(u32),
    /// It stands at this place already.
    Known(u32),
    /// It is new, and as many states are kept as are allowed.
    Full,
}
