//! What a search shows: its findings, and whether they are so when their events are replayed; and all calls and values
//! that came up.
#![tactic(auto)]

mod breaching;
mod coverage;
mod finding;
mod replaying;
mod started;
mod subject;

pub use coverage::{Coverage, Peaks, RunCoverage};
pub use finding::{Finding, FindingKind, Left, SentenceBreach, is_so, left_by};
pub use replaying::{TAKEN_MOST, follow};
pub use started::Started;
pub use subject::SearchSubject;
