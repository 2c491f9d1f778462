//! A session: a system takes events one by one, and takes them back; and the commands of a session.
#![tactic(auto)]

mod answers;
mod command;
mod interrupts;
mod laws;
mod numbers;
mod replaying;
mod session;
mod telling;

pub use answers::{answer_line, failure_line, note, object_record};
pub use command::{Command, LineMistake, argument_of, command_of, word_of};
pub use interrupts::NamedInterrupt;
pub use laws::{calls_that_do_nothing_spin, lines_of_steps_are_commands, once_goes_without_saying};
pub use session::{Session, TakenEvent};
pub use telling::{append_kept, append_nothing};
