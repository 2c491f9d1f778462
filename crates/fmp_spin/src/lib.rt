//! The processors: what each runs, whether its CPU is locked, and if by a spin lock, by which, and whether its
//! dispatching is disabled (uITRON 4.0, section 4.8; FMP kernel, spin locks).
#![tactic(auto)]

mod bits;
pub mod pending;
pub mod processors;

pub use pending::PendingHandlers;
pub use processors::Processors;
