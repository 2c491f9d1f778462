//! What a run must do: sentences, what they mean, and the finite monitors that watch for them.
#![tactic(auto)]

mod condition;
mod happening;
pub mod laws;
mod lines;
mod measuring;
mod monitor;
mod sentence;
mod standing;

pub use condition::{Condition, ConditionTest, MAX_TESTS, Measure, Relation, TestedFact};
pub use happening::{ExpectedActor, ExpectedDeed, ExpectedResponse, ExpectedTrigger, Happening};
pub use lines::is_state;
pub use monitor::{breaks_by_line, breaks_in_state, has_premise, is_premise, next_standing};
pub use sentence::Sentence;
pub use standing::Standing;
