//! Every schedule of a system: a search over all lists of events for deadlocks and for what must never happen, and a
//! list of events that shows each finding.
#![tactic(auto)]

mod actors;
mod beginning;
mod crew;
mod edges;
mod entering;
mod examining;
mod exploring;
mod finding;
mod kernels;
mod notes;
mod noting;
mod outlooks;
mod rounds;
mod rows;
mod searches;
mod searching;
mod slices;
mod spreading;
mod standing;
mod standings;
mod stretching;
mod stuck;
mod targets;
mod trying;
mod values;

pub use exploring::{Report, StuckSearch, explore, explore_beside};
pub use fmp_question::{ANSWERS, CallSite, Never, NeverAt, Question, Ticks};
pub use fmp_schedules::{Breach, Monitor};
pub use fmp_witness::{
    Coverage, Finding, FindingKind, Left, Peaks, RunCoverage, SentenceBreach, Started, left_by,
};
pub use searching::{Ending, SearchWatcher};
pub use stuck::SearchLimit;
pub use values::{Varied, Variety};
