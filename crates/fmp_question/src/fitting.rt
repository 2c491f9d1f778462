//! Whether the replies that an event told write the out places of calls: E_OK does.
ghost use Rattle.std.specs.Prelude.{◌≡◌, slice_get};
ghost use Rattle.std.specs.List.{list_all};
ghost use Rattle.fmp_base.specs.Systems.{tables_of};
ghost use Rattle.fmp_instructions.specs.Instructions.{code_tables};
ghost use Rattle.fmp_live.specs.Fits as spec;

use crate::callers::{body_of, is_started};
use fmp_base::{Caller, Er, HandlerContext, Held, Line, Reply, System};
use fmp_code::{MachineContext, Vm};
use fmp_instructions::Code;
use fmp_kernel::Kernel;
use fmp_live::is_behind_out;

/// Whether a body of which this is kept stands after a call with an out place.
fn held_behind_out(code: &Code, body: u8, held: &Held<MachineContext>) -> bool
    ensures { result ≡ spec.held_behind_out (code_tables code.now) body held.now }
{
    match held {
        Held::Goes(context) => is_behind_out(code, body, context.pc),
        Held::Awaits(context) => is_behind_out(code, body, context.pc),
    }
}

/// Whether a body of which this is kept, if anything is, stands after no such call.
fn is_clear(code: &Code, body: u8, held: Option<Held<MachineContext>>) -> bool
    ensures { result ≡ spec.is_clear (code_tables code.now) body held }
{
    match held {
        Some(held) => !held_behind_out(code, body, &held),
        None => true,
    }
}

/// The same of the body of a task; false if there is no such task.
fn is_body_clear(sys: &System, code: &Code, t: u8, held: Option<Held<MachineContext>>) -> bool
    ensures { result ≡ spec.is_clear_of (code_tables code.now) (slice_get (tables_of sys.now).tasks t) held }
{
    match sys.tasks.get(usize::from(t)) {
        Some(config) => is_clear(code, body_of(config.entry), held),
        None => false,
    }
}

/// Whether a task is started, and stands after no such call.
fn is_task_clear(kernel: &Kernel<Vm<'_>>, sys: &System, code: &Code, t: u8) -> bool
    ensures { result ≡ spec.is_task_clear (tables_of sys.now) (code_tables code.now) kernel.now.world t }
{
    is_started(kernel.tables(), t) && is_body_clear(sys, code, t, kernel.held(t))
}

/// Whether a handler of which this is kept, if one runs, stands after no such call.
fn is_handler_clear(code: &Code, held: Option<HandlerContext<Held<MachineContext>>>) -> bool
    ensures { result ≡ spec.is_handler_clear (code_tables code.now) held }
{
    match held {
        Some(held) => !held_behind_out(code, held.body, &held.context),
        None => true,
    }
}

/// Whether the caller on a processor stands after no such call.
fn is_caller_clear(
    kernel: &Kernel<Vm<'_>>,
    sys: &System,
    code: &Code,
    p: u8,
    caller: Caller,
) -> bool
    ensures { result ≡ spec.is_caller_clear (tables_of sys.now) (code_tables code.now) kernel.now.world p caller }
{
    match caller {
        Caller::Task(t) => is_task_clear(kernel, sys, code, t),
        Caller::Handler(_) => is_handler_clear(code, kernel.held_handler(p)),
    }
}

/// Whether a code is E_OK.
fn is_e_ok(code: Er) -> bool
    ensures { result ≡ spec.is_e_ok code }
{
    match code {
        Er::Ok => true,
        _ => false,
    }
}

/// Whether a reply is E_OK, or does not come yet.
fn is_reply_ok(reply: Option<Reply>) -> bool
    ensures { result ≡ spec.is_reply_ok reply }
{
    match reply {
        Some(reply) => is_e_ok(reply.code),
        None => true,
    }
}

/// Whether a line that was just told on a kernel tells E_OK, or its caller stands after no call with an out place.
#[tactic(auto, unfolding(fmp_live::specs::Fits::is_written))]
fn is_written(kernel: &Kernel<Vm<'_>>, sys: &System, code: &Code, line: &Line) -> bool
    ensures { result ≡ spec.is_written (tables_of sys.now) (code_tables code.now) kernel.now.world line.now }
{
    match line {
        Line::Call {
            processor,
            caller,
            reply,
            ..
        } => is_reply_ok(*reply) || is_caller_clear(kernel, sys, code, *processor, *caller),
        Line::Gets { task, reply, .. } => {
            is_e_ok(reply.code) || is_task_clear(kernel, sys, code, *task)
        }
        _ => true,
    }
}

/// Whether the replies in the lines that were just told on a kernel with these bodies write the out places of their
/// calls.
pub fn are_written(kernel: &Kernel<Vm<'_>>, sys: &System, code: &Code) -> bool
    ensures { result ≡ list_all (spec.is_written (tables_of sys.now) (code_tables code.now) kernel.now.world)
        kernel.now.lines }
{
    kernel
        .lines()
        .iter()
        .all(|line| is_written(kernel, sys, code, line))
}
