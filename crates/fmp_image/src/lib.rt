//! Images: built from the two texts of a system, stored as bytes and loaded. What images are, and their bytes, is in
//! `fmp_image_bytes`, and exported here too.
#![tactic(auto)]

mod building;
mod entries;
mod heads;
pub mod laws;
mod tables;

pub use building::build;
pub use fmp_image_bytes::{Image, LoadFault, load, one_spelling, store};
