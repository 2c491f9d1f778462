//! Bodies that run outside the kernel, as C functions do: what they do is handed in, and the text of a body says what
//! that may be.
#![tactic(auto)]

mod given;
pub mod laws;

pub use given::{Act, Given};
