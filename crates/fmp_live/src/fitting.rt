//! Whether a body stands after a call with an out place.
ghost use Rattle.std.specs.Prelude.{◌≡◌};
ghost use Rattle.fmp_instructions.specs.Instructions.{code_tables, found_instructions, instructions_at};
ghost use Rattle.fmp_instructions.specs.Machine.{call_before as instruction_before};
ghost use Rattle.fmp_live.specs.Fits as spec;

use crate::judging::call_before;
use fmp_instructions::{Code, Instruction};

/// Whether an instruction is a call with an out place.
fn has_out(instruction: Option<Instruction>) -> bool
    ensures { result ≡ spec.has_out instruction }
{
    match instruction {
        Some(Instruction::Call { out: Some(_), .. }) => true,
        _ => false,
    }
}

/// The instructions of a body; one that is missing ends at once.
fn instructions_of(code: &Code, body: u8) -> &[Instruction]
    ensures { result.now ≡ instructions_at (code_tables code.now) body }
{
    match code.bodies.get(usize::from(body)) {
        Some(tables) => &tables.instructions,
        None => &[Instruction::End],
    }
}

/// Whether the instruction before a place of a body is a call with an out place.
pub fn is_behind_out(code: &Code, body: u8, pc: u16) -> bool
    ensures { result ≡ spec.is_behind_out (code_tables code.now) body pc }
{
    has_out(call_before(instructions_of(code, body), usize::from(pc)))
}
