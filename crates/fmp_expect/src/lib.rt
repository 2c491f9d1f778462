//! What is expected of a run: texts of expectations, and whether a run meets them.
#![tactic(auto)]

mod call_sentences;
mod checker;
mod conditions;
mod expectation;
mod fault;
mod judge;
mod laws;
mod named;
mod numbers;
mod parts;
mod reading;
mod running;
mod sentences;
mod words;

pub use call_sentences::{CallSentence, read_call_sentences, read_other_sentences};
pub use checker::{BrokenExpectation, Checker, Watch};
pub use expectation::Expected;
pub use fault::{ExpectFault, ExpectationFlaw, Expects};
pub use judge::{LineJudge, judge_run};
pub use laws::{events_tell_as_their_run, sentences_are_read_as_written};
pub use named::{CODES, STATES, interrupt_named};
pub use parts::faulty_word;
pub use reading::read_expectations;
pub use running::tell_run;
pub use words::line_at;
