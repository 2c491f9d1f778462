//! The task language: the syntax trees of the bodies of tasks and handlers, and the reader of a text. The grammar and
//! what a body means (names, values, contexts, stretches) are defined in `specs/`.
#![tactic(auto)]

mod argument_list;
mod bodies;
mod calls;
mod expressions;
mod forms;
pub mod laws;
mod reading;
mod receivers;
mod statements;
mod streaming;
pub mod trees;
mod words;

pub use argument_list::ArgumentList;
pub use bodies::body;
pub use reading::read_tasks;
pub use receivers::Receivers;
pub use streaming::{hold_heading, stream_body};
pub use trees::{
    Body, BodyKind, Declaration, Expression, Length, Link, Operator, Program, ServiceCall,
    Statement, Word,
};
pub use words::body_kind_at;
