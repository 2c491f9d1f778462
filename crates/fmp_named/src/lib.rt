//! The lines of a trace, and the states at the end, with the names of objects in place of numbers, as text and as JSON.
#![tactic(auto)]

mod lines;
mod names;
mod records;
mod states;
mod text;

pub use lines::{append_call, append_lines};
pub use names::{append_caller, append_task, kind_word, object_name};
pub use records::{append_records, append_state_records};
pub use states::{append_object, append_state, append_states, append_wait};
