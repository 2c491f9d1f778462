//! The programs of docs/LIBRARY.md: a system that is built and run step by step, bodies of your own, and a board of
//! threads; and in `worked_traces` small systems with the exact bytes that they print, proved from the definitions.
//! There are also tests of gates, of what a board shows beyond its contract, and of files whose calls fail.
#![tactic(auto)]

#[cfg(test)]
mod files;
#[cfg(test)]
mod gate;
#[cfg(test)]
mod pulse;
#[cfg(test)]
mod refusing;
#[cfg(test)]
mod tests;
pub mod worked_traces;
