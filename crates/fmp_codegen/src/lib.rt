//! From the syntax trees of task bodies to stack code.
#![tactic(auto)]

mod compiling;
pub mod laws;
mod texts;

pub use compiling::compile;
pub use fmp_scopes::{EntryUse, Heading, body_place, check_entries, check_headings};
pub use texts::{CompiledText, compile_text};
