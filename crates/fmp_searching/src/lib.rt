//! The command `explore` of the program `fmp_view`: what its words ask of all schedules, the search, its findings in
//! the words of the two texts, and their steps. It also reads two texts, and prints their fault, for the other
//! commands.
#![tactic(auto)]

mod answers;
mod asked_question;
mod asking;
mod at_calls;
mod call_sentences;
mod claiming;
mod condition_words;
mod counts;
mod coverage_records;
mod covering;
mod end_records;
mod ending;
mod exploration;
mod explore_form;
mod exploring;
mod finding;
mod fresh;
mod giving;
mod judging;
pub mod laws;
mod left;
mod limits;
mod lists;
mod made;
mod naming;
mod parts;
mod peak_records;
mod reading;
mod records;
mod refused;
mod reporting;
mod searching;
mod seen;
mod sentence_faults;
mod sentences;
mod sites;
mod sources;
mod steps_files;
mod stuck;
mod stuck_words;
mod suggesting;
mod telling;
mod test_reports;
mod unhandled;
mod unsaid;
mod varied;
mod varieties;
mod words;

pub use answers::Answered;
pub use asking::{CommandMistake, ExploreChoices, ExploreWords};
pub use exploration::exploring_of;
pub use explore_form::EXPLORE;
pub use exploring::{Explored, explored_image};
pub use naming::LocalNames;
pub use reading::read_both;
pub use reporting::print_fault;
pub use searching::run_explore;
pub use sites::CallLines;
pub use sources::{ExploredSources, Exploring, Named};
pub use suggesting::said_of_code;
pub use words::{CodeAt, Section};
