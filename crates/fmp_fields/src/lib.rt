//! The fields of a state: everything in it that a later event can show, and their values.
#![tactic(auto)]

mod blocks;
mod body_values;
mod field;
mod field_plan;
mod filling;
pub mod laws;
mod listing;
mod owner;
mod piece;
mod piece_values;
mod reading;
mod room;
mod state_values;

pub use field::{What, low_byte};
pub use field_plan::FieldPlan;
pub use filling::SavedRow;
pub use listing::fields_of;
pub use reading::read;
