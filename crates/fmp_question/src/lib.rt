//! What is asked about all schedules of a system, and whether the present state of a kernel shows it.
#![tactic(auto)]

mod callers;
mod endless;
mod fitting;
mod question;
mod queueing;
mod site;
mod standing;

pub use callers::{body_of, first_bad_at, is_bad, is_started, last_call, tells_there};
pub use endless::{Outlook, is_endless, is_same, outlook_of};
pub use fitting::are_written;
pub use question::{ANSWERS, Never, NeverAt, Question, Ticks, first_forbidden, interrupt_count};
pub use queueing::queues_within;
pub use site::CallSite;
pub use standing::{is_deadlock, may_rest, stands_still};
