//! Which lists of events a search covers, which events it tries, what holds along all of them, and what a search has to
//! show for it.
#![tactic(auto)]

mod acting;
pub mod laws;
mod limit;
mod monitor;
mod tries;

pub use acting::is_act;
pub use limit::InterruptLimit;
pub use monitor::{Breach, Monitor, MonitorSubject, all_let};
pub use tries::tries_of;
