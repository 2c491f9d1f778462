//! What holds of every state that is reached, what a row of numbers tells of it, and what room its bodies have. States
//! with the same row are alike. What is kept of a body lies within the room of its code. The worlds of an image's
//! kernel tell all their fields.
#![tactic(auto)]

pub mod numbers;
pub mod room_laws;
pub mod row_laws;
pub mod sound_laws;
pub mod soundness;
pub mod world_laws;
