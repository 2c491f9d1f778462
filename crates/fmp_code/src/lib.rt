//! Stack code: the machine that runs it. Its instructions and the verifier are in `fmp_instructions`, and exported here
//! too.
#![tactic(auto)]

mod contexts;
mod decoded;
mod decoded_code;
mod delivery;
mod effects;
mod holding;
pub mod laws;
mod machine;
mod prepared;
mod stretches;
mod vm;

pub use decoded_code::DecodedCode;
pub use delivery::{deliver, deliver_in_place};
pub use fmp_instructions::{
    BodyCode, Code, Instruction, MachineContext, keeps_table, stretch_of, verify, verify_body,
};
pub use machine::start;
pub use stretches::{stretch, stretch_in_place};
pub use vm::Vm;
