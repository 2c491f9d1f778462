//! Text: the events of a steps text, which are read and written, the lines of the trace, and the states of the tasks at
//! the end. The events that are written can be read back.
#![tactic(auto)]

mod calls;
mod decimals;
mod events;
mod faults;
mod lines;
mod names;
mod numeral;
mod padded;
mod page;
mod reading;
mod states;
mod steps;
mod texts;

pub use events::{print_steps, printed_steps_read_back};
pub use faults::StepsFault;
pub use lines::print;
pub use page::{PIECE, Page};
pub use reading::{MOST_STEPS, read_steps};
pub use states::{listed_states_are_states, print_states};
pub use steps::Steps;
