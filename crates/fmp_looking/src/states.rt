//! The states of the tasks of a system, as they are printed.
ghost use Rattle.std.specs.Prelude.{◌≡◌, IfOk};
ghost use Rattle.fmp_base.specs.Systems.{tables_of};
ghost use Rattle.fmp_looking.specs.Traces.{states_text};

use fmp_base::{System, TaskBlock, TaskState};
use fmp_named::{append_state_records, append_states};
use fmp_warnings::Form;
use std::alloc::{AllocError, Global};

/// The states of the tasks of a system, from what is shown and what is kept of each: as lines, or as objects of JSON.
/// `AllocError` if memory runs out.
pub fn states_in(
    alloc: Global,
    form: Form,
    sys: &System,
    states: &[TaskState],
    blocks: &[TaskBlock],
) -> Result<Vec<u8>, AllocError>
    ensures { IfOk result (λ out. out.items ≡ states_text form (tables_of sys.now) states.now blocks.now) }
{
    let mut out = Vec::new(alloc);
    match form {
        Form::Text => append_states(sys, states, blocks, &mut out)?,
        Form::Json => append_state_records(alloc, sys, states, blocks, &mut out)?,
    }
    Ok(out)
}
