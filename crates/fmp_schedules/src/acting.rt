//! Lines by which a task goes on.
ghost use Rattle.std.specs.Prelude.{◌≡◌};
ghost use Rattle.fmp_schedules.specs.Stuck as spec;

use fmp_base::{Call, Caller, Er, Line, Reply};

/// Whether a caller is this task.
fn is_task(t: u8, caller: Caller) -> bool
    ensures { result ≡ spec.is_task t caller }
{
    match caller {
        Caller::Task(task) => task == t,
        Caller::Handler(_) => false,
    }
}

/// Whether a call terminates this task if it is answered `E_OK`.
fn terminates(t: u8, call: Call) -> bool
    ensures { result ≡ spec.terminates t call }
{
    match call {
        Call::TerTsk { task } => task == i32::from(t) + 1,
        _ => false,
    }
}

/// Whether an answer is `E_OK`.
fn is_ok(reply: Option<Reply>) -> bool
    ensures { result ≡ spec.is_ok reply }
{
    match reply {
        Some(reply) => reply.code == Er::Ok,
        None => false,
    }
}

/// Whether a line is an act of the task at this place: a call of its own, the end of its wait, its end or a fault of
/// its body; or that it is terminated.
pub fn is_act(t: u8, line: &Line) -> bool
    ensures { result ≡ spec.acts t line.now }
{
    match line {
        Line::Call {
            caller,
            call,
            reply,
            ..
        } => is_task(t, *caller) || terminates(t, *call) && is_ok(*reply),
        Line::Gets { task, .. } => *task == t,
        Line::End { caller, .. } | Line::Fault { caller, .. } => is_task(t, *caller),
        _ => false,
    }
}
