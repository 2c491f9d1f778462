//! A configuration of TOPPERS/FMP, FMP3 or a kernel of uITRON 4.0 becomes one of this project. What is written for each
//! object stands in `specs/`.
#![tactic(auto)]

mod constants;
mod defining;
mod directives;
mod importing;
mod lexemes;
mod notes;
mod objects;
mod placing;
mod plan;
mod reading;
mod renewing;
mod same_names;
mod source_words;
mod statement;
mod terms;
mod text;
mod values;
mod walking;
mod words;
mod writing;

pub use constants::Constants;
pub use importing::{Header, ImportFault, Imported, import, included};
pub use plan::{Block, PlanItem, Record, SourceClass, TextSpan};
