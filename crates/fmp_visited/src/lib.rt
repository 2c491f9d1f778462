//! Rows of bytes that tell the values of a state's fields, and the table of the states that were seen.
#![tactic(auto)]

mod kept;
pub mod laws;
mod link;
mod numbers;
mod packing;
mod seen;
mod slots;
mod unpacking;

pub use link::{RowEntry, StateLink};
pub use packing::pack;
pub use seen::Seen;
pub use unpacking::{unpack, unpack_checked};
