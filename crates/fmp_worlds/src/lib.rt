//! Laws of the kernel's worlds, over all systems: what setup and steps keep, and what a call that spins leaves.
#![tactic(auto)]

pub mod laws;
