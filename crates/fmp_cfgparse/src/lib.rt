//! Configurations: the grammar, the tree and the reader of a text, and the tables of the system that a tree describes.
//! The grammar and the meaning of the static APIs stand in `specs/`.
#![tactic(auto)]

mod configuring;
mod forms;
pub mod laws;
mod making;
mod objects;
mod parsing;
mod places;
mod reading;
mod syntax;
mod tree;
mod used_names;
mod values;

pub use configuring::configure;
pub use fmp_lex::ObjectName;
pub use making::Making;
pub use objects::MakingStop;
pub use parsing::{Parsed, parse};
pub use reading::{Configured, read_cfg, read_configuration};
pub use tree::{ApiField, Class, Configuration, Item, StaticApi, Value};
pub use values::{name_at, number_at, word_of};
