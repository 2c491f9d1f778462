//! Worlds that differ in nothing that a later event could show: what a search over all schedules needs to be complete.
#![tactic(auto)]

pub mod laws;
