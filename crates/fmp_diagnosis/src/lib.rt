//! What is said of a fault of a text: its line with marks under the token, a sentence, and the nearest known name; and
//! the meaning of each code that the programs print.
#![tactic(auto)]

pub mod apis;
pub mod around;
mod calls;
mod culprit;
mod excerpt;
mod expected_api;
mod expected_statement;
mod explanations;
pub mod fields;
mod foreign;
mod habits;
mod known;
mod left_out;
mod limits;
mod names;
mod nearness;
mod needs;
mod records;
mod refusals;
mod reports;
mod sentence;
mod steps;
mod syntax;
mod topics;
mod twice;
pub mod words;

pub use culprit::culprit_of;
pub use excerpt::{Excerpt, excerpt_at};
pub use explanations::explain;
pub use known::name_meant;
pub use names::processors;
pub use nearness::nearest;
pub use reports::{FaultReport, column_after, finding_at};
pub use sentence::Texts;
pub use steps::{StepFlaw, step_finding, step_warning};
pub use topics::{TOPICS, Topic, every_topic_is_found, topic_asked, topic_named};
