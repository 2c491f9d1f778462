//! Kernels for bodies that run elsewhere, as C functions do: what each body does is handed in, and the kernel keeps
//! only what it told the body last.
#![tactic(auto)]

mod coming;
mod foreign;
mod hosted;
pub mod laws;
mod looking;
mod requests;
mod same;
mod shadow;

pub use foreign::{Foreign, LastTold};
pub use hosted::HostedSystem;
pub use looking::{Acting, Bodies};
pub use requests::{Refusal, call_of};
pub use shadow::{BodyVerdict, Departure, Shadow};
