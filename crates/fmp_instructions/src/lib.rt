//! The instructions of stack code and their operands, the verifier that says which code is fit to run, and the form in
//! which the machine runs it.
#![tactic(auto)]

mod cuts;
mod decoder;
pub mod decoder_input;
mod elements;
mod ending;
pub mod instructions;
mod loops;
mod operands;
pub mod operators;
pub mod register_file;
pub mod registers;
pub mod table;
pub mod verified;
mod verifier;

pub use cuts::{leave, leave_none, move_to, stand_at};
pub use elements::{load_indexed, store_indexed};
pub use ending::stretch_of;
pub use instructions::{BodyCode, Code, Instruction, MachineContext};
pub use operands::{call, pop, pop_argument, push, push_argument};
pub use operators::{apply_binary, apply_unary, place_of};
pub use verifier::{is_fit, keeps_table, verify, verify_body};
