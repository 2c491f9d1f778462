//! What a line of a trace can tell, and who acts.
use fmp_base::{Er, Fault};

/// What a line of a trace can tell.
#[derive(Clone, Copy)]
pub enum ExpectedDeed {
    /// A call, or the end of a wait, answers this code.
    Answer(Er),
    /// This value is printed.
    Put(i32),
    /// A body stops with this fault.
    Stop(Fault),
}

/// Who acts.
#[derive(Clone, Copy)]
pub enum ExpectedActor {
    /// A task, by its place.
    Task(usize),
    /// A cyclic handler, by its place.
    Cyclic(usize),
    /// The handler of an interrupt, by its number less 1.
    Interrupt(u8),
}

/// A deed, of anybody or of one actor.
#[derive(Clone, Copy)]
pub struct Happening {
    pub deed: ExpectedDeed,
    /// Whose deed it is, if that matters.
    pub by: Option<ExpectedActor>,
}

/// What is to come within some ticks.
#[derive(Clone, Copy)]
pub enum ExpectedResponse {
    /// This actor runs.
    Runs(ExpectedActor),
    /// This happens.
    Happens(Happening),
}

/// What starts the time within which something is to come.
#[derive(Clone, Copy)]
pub enum ExpectedTrigger {
    /// The interrupt at this place is requested: its number less 1.
    Interrupt(u8),
    /// This happens.
    Happens(Happening),
}
