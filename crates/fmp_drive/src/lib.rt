//! Steps for a system that has none: its processors run in turn, and the clock ticks when none of them can go on.
#![tactic(auto)]

mod driving;
mod limits;
mod next;
mod plan;
mod trying;

pub use driving::{DriveStop, Driven, drive};
pub use next::{NextRun, next_runs};
pub use plan::Plan;
pub use trying::{EventSource, first_taken};
