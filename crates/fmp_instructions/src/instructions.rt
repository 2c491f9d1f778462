//! The instructions of the stack machine, and contexts.
use fmp_base::{BinaryOperator, Service, UnaryOperator};

/// An instruction of the stack machine. Places in a body count from 0, and so do its locals.
#[derive(Clone, Copy)]
pub enum Instruction {
    /// Pushes a number.
    Push(i32),
    /// Pushes a local.
    Load(u8),
    /// Pops into a local.
    Store(u8),
    /// Pops an index and pushes the local at that place of an array.
    LoadIndexed {
        /// The first local of the array.
        base: u8,
        /// How many places the array has.
        places: u8,
    },
    /// Pops a value, then an index, and puts the value into the local at that place of an array.
    StoreIndexed {
        /// The first local of the array.
        base: u8,
        /// How many places the array has.
        places: u8,
    },
    /// Pops an operand and pushes what the operator gives.
    Unary(UnaryOperator),
    /// Pops an operand and pushes 0 for 0, else 1.
    Truth,
    /// Pops the second operand, then the first, and pushes what the operator gives.
    Binary(BinaryOperator),
    /// Goes on at this place.
    Jump(u16),
    /// Pops an operand, and goes on at this place if it is 0.
    JumpIfZero(u16),
    /// Makes a service call with all operands as its arguments.
    Call {
        service: Service,
        /// The local at the out place.
        out: Option<u8>,
        /// The local before `=`.
        result: Option<u8>,
    },
    /// Ends the body.
    End,
}

/// The code of one body.
#[derive(Drop)]
pub struct BodyCode {
    /// How many locals the body has.
    pub locals: u8,
    pub instructions: Vec<Instruction>,
    /// How many operands stand before each instruction.
    pub depths: Vec<u8>,
}

/// The code of all bodies, in order of number.
#[derive(Drop)]
pub struct Code {
    pub bodies: Vec<BodyCode>,
}

/// Where a body stands between two stretches. Only a stretch that was cut at its bound leaves operands.
#[derive(Clone, Copy)]
pub struct MachineContext {
    /// The place of the next instruction.
    pub pc: u16,
    /// How many operands there are, 64 at most.
    pub count: u8,
    pub locals: [i32; 64],
    /// The operands, the one pushed first in front. The places after them hold 0.
    pub operands: [i32; 64],
}
