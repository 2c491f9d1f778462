//! Live locals: those that a body may read before it writes them again. Worlds that differ in dead locals alone do the
//! same.
#![tactic(auto)]

mod fitting;
mod judging;
pub mod laws;
mod live_rows;
mod tracing;

pub use fitting::is_behind_out;
pub use live_rows::{LiveLocals, LiveRows};
pub use tracing::live_locals;
