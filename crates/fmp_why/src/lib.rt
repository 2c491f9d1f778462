//! Why a run has stopped: what tasks wait and spin for, who took it, and whether they wait for one another.
#![tactic(auto)]

mod cycles;
mod history;
mod obstacles;
mod quiet;
mod report;
mod verdicts;
mod waits;

pub use cycles::{first_on_cycle, is_on_cycle, next_of};
pub use history::{History, ObjectDeed, ObjectTrail};
pub use obstacles::{SpinWait, blocker_of, may_spin, spin_of, spin_on};
pub use report::{Scene, append_report};
pub use verdicts::{SystemVerdict, is_spin, verdict_of};
pub use waits::{deed_for, deed_words, object_of};
