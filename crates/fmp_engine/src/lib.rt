//! The engine of the program: from the bytes of texts, images and steps to the bytes that are printed.
#![tactic(auto)]

mod building;
mod counts;
mod events;
mod fault;
mod hosting;
mod outlet;
mod play;
mod simulation;

pub use building::{build_image, check};
pub use counts::EventCounts;
pub use fault::{SimCut, SimFault};
pub use hosting::{HostFault, Hosted, Workload, host};
pub use outlet::{Outlet, Stopped};
pub use simulation::{sim, sim_into};
