//! How a number of steps came about.
use std::snapshot::Snapshot;

/// The steps, the last one first. It has bytes only where it is made.
#[derive(Drop)]
pub enum Tally {
    /// No step so far.
    Start,
    /// One more than the steps before.
    Next(Snapshot<Tally>),
}
