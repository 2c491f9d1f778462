//! What is legal in two texts but usually a mistake; and what is shown of the texts of a system and of the steps of a
//! run, their faults or these warnings.
#![tactic(auto)]

mod arithmetic;
mod before;
mod bits;
mod construct_end;
mod constructs;
mod contexts;
mod found;
mod further;
mod holds;
mod idle;
mod indices;
mod landmarks;
mod left;
mod locks;
mod loops;
mod mistakes;
mod objects;
mod packets;
mod pieces;
mod sections;
mod sleeps;
mod unreached;
mod verdicts;
mod walk;
mod wanted;
mod warnings;
mod ways;

pub use found::Warning;
pub use further::{ROUNDS, ToldFault, further_faults};
pub use verdicts::{
    FileNames, Form, Shown, StepFault, TextsFault, TextsVerdict, found_in, shown_fault,
};
pub use warnings::warnings_of;
