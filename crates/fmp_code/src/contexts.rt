//! Tells the contexts of a body from other values.
ghost use Rattle.std.specs.Prelude.{◌≡◌, ◌≤◌, ◌<◌, ℕ, get_or, length, pos, true};
ghost use Rattle.fmp_instructions.specs.Instructions.{body_tables};
ghost use Rattle.fmp_instructions.specs.Verify.{IsPlaced, VerifiedBody};

use fmp_instructions::{BodyCode, MachineContext};

/// Whether the places of the operands hold 0 from this one on.
fn is_clear_from(operands: &[i32; 64], first: u8) -> bool
    ensures long { length operands.now ≡ 64 }
    ensures clear { result ≡ true → (k : ℕ) → first ≤ k → k < 64 → get_or operands.now k (pos 0) ≡ pos 0 }
{
    // Counted in a loop of known length, and not left at the first one: so several are looked at at once.
    let mut zeros: u32 = 0;
    for k in 0..64 {
        if operands[k] == 0 {
            zeros += 1;
        }
    }
    for k in 0..usize::from(first).min(64) {
        if operands[k] != 0 {
            zeros += 1;
        }
    }
    zeros == 64
}

/// Whether this is a context of a body: as many operands stand in it as the depth table says of its place, and the
/// places after them hold 0.
#[tactic(auto, using(crate::proofs::Placed::clear_placed))]
pub fn is_context_of(body: &BodyCode, context: &MachineContext) -> bool
    requires { VerifiedBody (body_tables body.now) }
    ensures { result ≡ true → IsPlaced (body_tables body.now).depths context.now }
{
    match body.depths.get(context.pc as usize) {
        Some(depth) => {
            if *depth == context.count {
                is_clear_from(&context.operands, context.count)
            } else {
                false
            }
        }
        None => false,
    }
}
