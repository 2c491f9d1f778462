//! Lists of numbers kept as rings of links: a node is in at most one list, and enters or leaves a list in a few steps,
//! wherever it is. No call but `new` takes memory.
#![tactic(auto)]

pub mod nodes;
pub mod rings;

pub use nodes::as_byte;
pub use rings::Rings;
