//! Drawings of timelines: a picture of a run for a browser.
#![tactic(auto)]

mod axis;
mod buses;
mod calls;
mod handlers;
mod legend;
mod links;
mod overview;
mod panel;
mod picture;
mod processors;
mod rows;
mod scene;
mod shapes;
mod signs;
mod strips;
mod style;
mod tasks;
mod times;
mod titles;
mod waits;

pub use picture::{DrawFault, MOST_BYTES, draw, draw_timed};
