//! A language server for the two texts of a system: a pure machine that takes the bytes of an editor and gives those
//! that answer it.
#![tactic(auto)]

mod capabilities;
mod catalogue;
mod completion;
mod diagnostics;
mod documents;
mod framing;
mod hover;
pub mod laws;
mod messages;
mod navigation;
mod objects;
mod outline;
mod parameters;
mod positions;
mod renaming;
mod requests;
mod roles;
mod sayings;
mod server;
mod serving;
mod workspace;
mod writing;

pub use server::Server;
pub use serving::serve;
