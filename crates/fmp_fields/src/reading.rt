//! The values of the fields in a state, piece by piece.
ghost use Rattle.std.specs.Prelude.{◌≡◌, IfOk, length, map, true};
ghost use Rattle.fmp_fields.specs.FieldNumbers.{number_of};
ghost use Rattle.fmp_fields.specs.Pieces.{fields_of_pieces};
ghost use Rattle.fmp_live.specs.LiveLocals.{live_tables};
ghost use Rattle.fmp_live.specs.Zeroed.{zeroed};

use crate::field_plan::FieldPlan;
use crate::piece::Piece;
use crate::piece_values::write_piece;
use fmp_base::Body;
use fmp_instructions::MachineContext;
use fmp_kernel::Kernel;
use fmp_live::LiveLocals;
use std::alloc::AllocError;

/// Writes the values of the fields of pieces, where this many interrupts came, with 0 for each dead local: whether no
/// time is too far ahead.
fn write_pieces<B: Body<Ctx = MachineContext>>(
    kernel: &Kernel<B>,
    live: &LiveLocals,
    came: usize,
    pieces: &[Piece],
    values: &mut [u32],
) -> bool
    requires { length values.old ≡ length (fields_of_pieces pieces.now) }
    ensures length { length values.new ≡ length values.old }
    ensures values { result ≡ true → values.new ≡ map (number_of kernel.now.system
        (zeroed kernel.now.system (live_tables live.now) kernel.now.world) came) (fields_of_pieces pieces.now) }
{
    let mut at: usize = 0;
    for next in 0..pieces.len() {
        match write_piece(kernel, live, came, pieces[next], values, at) {
            Some(end) => at = end,
            None => return false,
        }
    }
    true
}

/// Gives values another length, where they have one.
fn set_length(values: &mut Vec<u32>, count: usize) -> Result<(), AllocError>
    ensures { IfOk result (λ _. length values.new.items ≡ count) }
{
    if values.len() != count {
        values.resize(count, 0)?;
    }
    Ok(())
}

/// Writes the values of the fields in a state, with 0 for each dead local, into the place of others. This many
/// interrupts came. `AllocError` if memory runs out, or if a time lies 2^32 - 1 ticks ahead, as none does in a run.
pub fn read<B: Body<Ctx = MachineContext>>(
    kernel: &Kernel<B>,
    live: &LiveLocals,
    came: usize,
    fields: &FieldPlan,
    values: &mut Vec<u32>,
) -> Result<(), AllocError>
    ensures { IfOk result
        (λ _. values.new.items ≡ map (number_of kernel.now.system
        (zeroed kernel.now.system (live_tables live.now) kernel.now.world) came) fields.now.items) }
{
    set_length(values, fields.list().len())?;
    if write_pieces(kernel, live, came, fields.pieces(), values) {
        Ok(())
    } else {
        Err(AllocError)
    }
}
