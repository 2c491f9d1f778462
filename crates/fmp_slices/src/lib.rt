//! Runs as files for the viewers of other projects: slices on tracks, in the Trace Event Format, which
//! `ui.perfetto.dev` and `chrome://tracing` open, and in the standard log of TraceLogVisualizer with its resource file;
//! and pages for browsers, with what happened to each task and object, and the states at each event.
#![tactic(auto)]

mod changes;
mod clock;
mod contents;
mod entries;
mod escape;
mod flows;
mod labels;
mod lanes;
mod log_lines;
mod page;
mod resource_file;
mod script;
mod style;
mod tracing;
mod words;

pub use clock::Clock;
pub use labels::{append_body, append_state};
pub use log_lines::standard_log;
pub use page::page_of;
pub use resource_file::resources;
pub use tracing::trace_events;
