//! The programs, each run on a small system, and boards.

mod boards;
mod following;
mod hosting;
mod overtaking;
mod pulses;
mod restarting;
mod running;
mod threads;
