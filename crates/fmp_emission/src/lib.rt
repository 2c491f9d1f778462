//! The stack code of the statements and expressions of a body, in their order of evaluation.
#![tactic(auto)]

mod emission;
mod expressions;

pub use emission::emit_statements;
pub use expressions::{Output, put};
