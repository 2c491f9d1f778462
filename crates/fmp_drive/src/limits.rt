//! Which waits end by the clock.
ghost use Rattle.std.specs.Prelude.{◌≡◌, slice_set};
ghost use Rattle.fmp_drive.specs.Plans as spec;

use fmp_base::{Call, Caller, Line, Parameter};

/// Whether a wait that begins with this call ends by the clock. A delay or a time limit is the last argument.
fn has_end(call: Call) -> bool
    ensures { result ≡ spec.ends_by_clock call }
{
    let arguments = call.arguments();
    match (
        call.service().parameters().last(),
        arguments.as_slice().last(),
    ) {
        (Some(Parameter::Delay), _) => true,
        (Some(Parameter::Limit), Some(limit)) => *limit > 0,
        _ => false,
    }
}

/// Records for the task at a place, if there is one, whether its wait ends by the clock.
fn set_end(ending: &mut [bool], task: usize, ends: bool)
    ensures { ending.new ≡ slice_set ending.old task ends }
{
    if task < ending.len() {
        ending[task] = ends;
    }
}

/// Records whether the wait of a task that this line tells ends by the clock.
fn note_wait(line: Line, ending: &mut [bool])
    ensures { ending.new ≡ spec.waits_after ending.old line }
{
    match line {
        Line::Call {
            caller: Caller::Task(task),
            call,
            reply: None,
            ..
        } => set_end(ending, usize::from(task), has_end(call)),
        _ => {}
    }
}

/// Records for each task whether the wait that it began last ends by the clock.
pub fn note_waits(lines: &[Line], ending: &mut [bool])
    ensures { ending.new ≡ spec.waits_after_all ending.old lines.now }
{
    for line in lines {
        note_wait(*line, ending);
    }
}
