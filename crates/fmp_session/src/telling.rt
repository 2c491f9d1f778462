//! What is told of events that leave no lines.
ghost use Rattle.std.specs.Prelude.{◌≡◌, ◌++◌, OnOk};
ghost use Rattle.fmp_base.specs.Systems.{tables_of};
ghost use Rattle.fmp_session.specs.Tellings as spec;

use fmp_base::{Event, System};
use fmp_drive::NextRun;
use fmp_frames::is_handled;
use fmp_json::{append, append_number};
use std::alloc::AllocError;

/// Appends words, a number, and words after it.
fn append_around(
    front: &[u8],
    number: u8,
    after: &[u8],
    out: &mut Vec<u8>,
) -> Result<(), AllocError>
    ensures { OnOk result (out.new.items ≡ out.old.items ++ spec.around front.now number after.now) }
{
    append(front, out)?;
    append_number(u64::from(number), out)?;
    append(after, out)
}

/// Appends why the run of the processor of this number does nothing, given how its next run ends. A call does nothing
/// only if it asks for a spin lock that is held.
fn append_standing(number: u8, next: NextRun, out: &mut Vec<u8>) -> Result<(), AllocError>
    ensures { OnOk result (out.new.items ≡ out.old.items ++ spec.standing number next) }
{
    match next {
        NextRun::NoActor => append_around(b"nothing: processor ", number, b" is idle\n", out),
        NextRun::Calls(_) => append_around(
            b"nothing: what runs on processor ",
            number,
            b" spins for a spin lock\n",
            out,
        ),
        NextRun::OverBound | NextRun::Ends => {
            append_around(b"nothing: processor ", number, b" stands\n", out)
        }
    }
}

/// Appends why an event does nothing, given how the next runs of the processors end. `AllocError` if memory runs out.
pub fn append_nothing(
    sys: &System,
    e: Event,
    next: &[NextRun; 8],
    out: &mut Vec<u8>,
) -> Result<(), AllocError>
    ensures { OnOk result (out.new.items ≡ out.old.items ++ spec.nothing (tables_of sys.now) e next.now) }
{
    match e {
        Event::Run(number) => {
            let place = usize::from(number).saturating_sub(1);
            let run = next.get(place).copied().unwrap_or(NextRun::NoActor);
            append_standing(number, run, out)
        }
        Event::Int(number) if is_handled(sys, number) => append_around(
            b"nothing: the handler of interrupt ",
            number,
            b" is pending\n",
            out,
        ),
        Event::Int(number) => {
            append_around(b"nothing: interrupt ", number, b" has no handler\n", out)
        }
        Event::Tick => Ok(()),
    }
}

/// Appends that the run of a processor kept a place. `AllocError` if memory runs out.
pub fn append_kept(e: Event, out: &mut Vec<u8>) -> Result<(), AllocError>
    ensures { OnOk result (out.new.items ≡ out.old.items ++ spec.kept e) }
{
    match e {
        Event::Run(number) => append_around(
            b"kept: what runs on processor ",
            number,
            b" reached the bound, and goes on from there\n",
            out,
        ),
        _ => Ok(()),
    }
}
