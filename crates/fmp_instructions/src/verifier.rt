//! Code is verified before it runs: depths, locals and jumps.
ghost use Rattle.std.specs.Prelude.{◌≡◌, ◌+◌, ◌<◌, ◌≤◌, ◌↔◌, ◌^◌, IsTrue, Some, length, slice_get};
ghost use Rattle.fmp_instructions.specs.Instructions.{body_tables, code_tables};
ghost use Rattle.fmp_instructions.specs.Verify.{AreLow, array_fits, entry_is, local_fits, places_fit, fits, EachFits};
ghost use Rattle.fmp_instructions.specs.Verify.{KeepsTable, VerifiedBody, Verified};

use crate::instructions::{BodyCode, Code, Instruction};
use fmp_base::Service;

#[inline(always)]
fn is_entry(depths: &[u8], place: usize, depth: usize) -> bool
    requires { AreLow depths.now }
    ensures { result ≡ entry_is depths.now place depth }
{
    match depths.get(place) {
        None => false,
        Some(entry) => *entry as usize == depth,
    }
}

fn is_local(locals: u8, local: Option<u8>) -> bool
    ensures { result ≡ local_fits locals local }
{
    match local {
        None => true,
        Some(place) => place < locals,
    }
}

fn has_places(locals: u8, service: Service, out: Option<u8>, receiver: Option<u8>) -> bool
    ensures { result ≡ places_fit locals service out receiver }
{
    service.out_place().is_some() == out.is_some()
        && is_local(locals, out)
        && is_local(locals, receiver)
}

fn has_array(locals: u8, base: u8, places: u8) -> bool
    ensures { result ≡ array_fits locals base places }
{
    1 <= base && 1 <= places && base as u16 + places as u16 <= locals as u16
}

/// Whether a body's code may have an instruction at a place before which this many operands stand: it finds its
/// operands and its locals, and the places where it goes on have the depths that it leaves. No depth is above 64.
#[inline(always)]
pub fn is_fit(
    locals: u8,
    depths: &[u8],
    place: usize,
    depth: usize,
    instruction: Instruction,
) -> bool
    requires place { place + 1 < 2 ^ 64 }
    requires depth { depth ≤ 64 }
    requires low { AreLow depths.now }
    ensures { result ≡ fits locals depths.now place depth instruction }
{
    let next = place + 1;
    match instruction {
        Instruction::Push(_) => is_entry(depths, next, depth + 1),
        Instruction::Load(v) => v < locals && is_entry(depths, next, depth + 1),
        Instruction::Store(v) => v < locals && 1 <= depth && is_entry(depths, next, depth - 1),
        Instruction::LoadIndexed { base, places } => {
            has_array(locals, base, places) && 1 <= depth && is_entry(depths, next, depth)
        }
        Instruction::StoreIndexed { base, places } => {
            has_array(locals, base, places) && 2 <= depth && is_entry(depths, next, depth - 2)
        }
        Instruction::Unary(_) => 1 <= depth && is_entry(depths, next, depth),
        Instruction::Truth => 1 <= depth && is_entry(depths, next, depth),
        Instruction::Binary(_) => 2 <= depth && is_entry(depths, next, depth - 1),
        Instruction::Jump(target) => is_entry(depths, target as usize, depth),
        Instruction::JumpIfZero(target) => {
            1 <= depth
                && is_entry(depths, target as usize, depth - 1)
                && is_entry(depths, next, depth - 1)
        }
        Instruction::Call {
            service,
            out,
            result: receiver,
        } => {
            depth == service.arity() as usize
                && has_places(locals, service, out, receiver)
                && is_entry(depths, next, 0)
        }
        Instruction::End => depth == 0,
    }
}

fn are_low(depths: &[u8]) -> bool
    ensures { IsTrue result ↔ AreLow depths.now }
{
    for depth in depths {
        if *depth > 64 {
            return false;
        }
    }
    true
}

fn starts_at_zero(depths: &[u8]) -> bool
    ensures { IsTrue result ↔ (slice_get depths.now 0 ≡ Some 0) }
{
    match depths.first() {
        None => false,
        Some(entry) => *entry == 0,
    }
}

fn each_fits(locals: u8, instructions: &[Instruction], depths: &[u8]) -> bool
    requires { length depths.now ≡ length instructions.now }
    ensures { IsTrue result ↔ EachFits locals instructions.now depths.now }
{
    if !are_low(depths) {
        return false;
    }
    for place in 0..instructions.len() {
        if !is_fit(
            locals,
            depths,
            place,
            depths[place] as usize,
            instructions[place],
        ) {
            return false;
        }
    }
    true
}

/// Whether a body has 1 to 65535 instructions that keep to its depth table and to its own count of locals. That
/// count itself is not judged.
pub fn keeps_table(body: &BodyCode) -> bool
    ensures { IsTrue result ↔ KeepsTable (body_tables body.now) }
{
    starts_at_zero(&body.depths)
        && body.instructions.len() <= 65535
        && body.depths.len() == body.instructions.len()
        && each_fits(body.locals, &body.instructions, &body.depths)
}

/// Whether the machine may run a body: it keeps to its depth table, and has 64 locals at most.
pub fn verify_body(body: &BodyCode) -> bool
    ensures { IsTrue result ↔ VerifiedBody (body_tables body.now) }
{
    body.locals <= 64 && keeps_table(body)
}

/// Whether the machine may run the code: each body of it.
pub fn verify(code: &Code) -> bool
    ensures { IsTrue result ↔ Verified (code_tables code.now) }
{
    for body in &code.bodies {
        if !verify_body(body) {
            return false;
        }
    }
    true
}
