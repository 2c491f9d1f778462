//! The files of TOPPERS/FMP for explored texts: a configuration for its configurator, a header, and the bodies, whose C
//! is that of `fmp_export`. What is written for each construct stands in `specs/`.
#![tactic(auto)]

mod attributes;
mod configuration;
mod declarations;
mod files;
mod heads;
mod lines;
mod names;
mod row;
mod tables;
mod target;

pub use files::{RefusedObjects, ToppersFiles, ToppersRefusal, export_toppers, refused_objects};
pub use target::Target;
