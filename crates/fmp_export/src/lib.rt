//! The C of explored texts: the bodies of a task text as functions that make the same calls on the port, with the names
//! of its configuration. What is written for each construct stands in `specs/`.
#![tactic(auto)]

mod bodies;
mod calls;
mod expressions;
mod files;
mod objects;
mod pieces;
pub mod project;
mod remarks;
mod source;
mod statements;
mod text;
mod words;

pub use bodies::{append_bodies, append_prototypes};
pub use files::{ExportedText, append_header, append_main, export_c, export_c_with_lines};
pub use objects::append_kind;
pub use pieces::{ExpressionShape, Piece, Risk};
pub use text::{append, append_count, append_signed};
pub use words::{append_function, append_name, is_among};
