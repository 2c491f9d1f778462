//! Which of the branches of its body each branch of a code is.
ghost use Rattle.std.specs.Prelude.{◌≡◌, IfOk, get_or, true};
ghost use Rattle.fmp_instructions.specs.Instructions.{code_tables};
ghost use Rattle.fmp_looking.specs.BranchNumbers as numbered;
ghost use Rattle.fmp_looking.specs.Branches as spec;

use fmp_instructions::{BodyCode, Code, Instruction};
use std::alloc::{AllocError, Global};

/// For each instruction of each body of a code, how many branches the body has before it.
#[derive(Drop)]
pub struct BranchNumbers {
    bodies: Vec<Vec<usize>>,
}

/// Whether an instruction is a branch.
pub fn is_branch(instruction: &Instruction) -> bool
    ensures { result ≡ spec.is_branch instruction.now }
{
    match instruction {
        Instruction::JumpIfZero(_) => true,
        _ => false,
    }
}

/// For each of these instructions how many branches stand before it.
fn body_numbers(alloc: Global, instructions: &[Instruction]) -> Result<Vec<usize>, AllocError>
    ensures { IfOk result (λ numbers. numbered.AreNumbers instructions.now numbers.items) }
{
    let mut numbers = Vec::new(alloc);
    let mut branches = 0;
    for instruction in instructions {
        numbers.push(branches)?;
        if is_branch(instruction) {
            branches += 1;
        }
    }
    Ok(numbers)
}

/// The same of each of these bodies.
fn all_numbers(alloc: Global, code: &[BodyCode]) -> Result<Vec<Vec<usize>>, AllocError>
    ensures { IfOk result (λ bodies. numbered.AreAllNumbers code.now bodies.items) }
{
    let mut bodies = Vec::new(alloc);
    for body in code {
        bodies.push(body_numbers(alloc, &body.instructions)?)?;
    }
    Ok(bodies)
}

impl BranchNumbers {
    ghost use Rattle.std.specs.Prelude.{◌≡◌, IfOk, get_or};
    ghost use Rattle.fmp_instructions.specs.Instructions.{code_tables};
    ghost use Rattle.fmp_looking.specs.BranchNumbers.{AreOfCode, numbers_in};

    /// Those of a code. `AllocError` if memory runs out.
    pub fn new(alloc: Global, code: &Code) -> Result<BranchNumbers, AllocError>
        ensures { IfOk result (λ numbers. AreOfCode (code_tables code.now) numbers) }
    {
        Ok(BranchNumbers {
            bodies: all_numbers(alloc, &code.bodies)?,
        })
    }

    /// Those of a body; none if there is no such body.
    pub fn body(&self, entry: u8) -> &[usize]
        ensures { result.now ≡ numbers_in self.now.bodies.items entry }
    {
        match self.bodies.get(usize::from(entry)) {
            Some(numbers) => numbers,
            None => &[],
        }
    }
}
