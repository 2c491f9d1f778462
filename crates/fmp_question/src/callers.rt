//! Where the callers of lines stand in their bodies: whether a line tells an answer that one call must never get.
ghost use Rattle.std.specs.Prelude.{◌≡◌, Some, not, slice_get};
ghost use Rattle.std.specs.List.{position};
ghost use Rattle.fmp_base.specs.States.{task_at};
ghost use Rattle.fmp_base.specs.Systems.{body_of as number_of, tables_of};
ghost use Rattle.fmp_base.specs.TaskCalls.{is_dormant as sleeps};
ghost use Rattle.fmp_question.specs.Sites as spec;

use crate::question::{NeverAt, Question, is_forbidden, is_same_code};
use crate::site::CallSite;
use fmp_base::{Caller, Entry, HandlerContext, Held, Line, Phase, System};
use fmp_code::{MachineContext, Vm};
use fmp_kernel::Kernel;
use fmp_tasks::KernelState;

/// The next instruction of a body of which this is kept.
fn pc_of(held: &Held<MachineContext>) -> u16
    ensures { result ≡ spec.pc_of held.now }
{
    match held {
        Held::Goes(context) => context.pc,
        Held::Awaits(context) => context.pc,
    }
}

/// The place before the next instruction of a body of which this is kept, 0 if nothing is. Where the body stands after
/// a call, that is the call.
pub fn last_call(held: Option<Held<MachineContext>>) -> u16
    ensures { result ≡ spec.last_call held }
{
    match held {
        Some(held) => pc_of(&held).saturating_sub(1),
        None => 0,
    }
}

/// Whether the next instruction of a body is the one after a call.
fn is_next(site: CallSite, held: &Held<MachineContext>) -> bool
    ensures { result ≡ spec.is_after site (Some held.now) }
{
    u32::from(pc_of(held)) == u32::from(site.pc) + 1
}

/// The same of what is kept of a body, if anything is.
fn is_after(site: CallSite, held: Option<Held<MachineContext>>) -> bool
    ensures { result ≡ spec.is_after site held }
{
    match held {
        Some(held) => is_next(site, &held),
        None => false,
    }
}

/// The body of an entry.
pub fn body_of(entry: Entry) -> u8
    ensures { result ≡ number_of entry }
{
    match entry {
        Entry::Body(body) => body,
        Entry::Named(_) => 0,
    }
}

/// Whether a task has the body of a call.
fn has_body(sys: &System, site: CallSite, t: u8) -> bool
    ensures { result ≡ spec.has_body site (slice_get (tables_of sys.now).tasks t) }
{
    match sys.tasks.get(usize::from(t)) {
        Some(config) => body_of(config.entry) == site.body,
        None => false,
    }
}

/// Whether a task in this phase is dormant.
fn is_dormant(phase: Phase) -> bool
    ensures { result ≡ sleeps phase }
{
    match phase {
        Phase::Dormant => true,
        Phase::Ready | Phase::Waiting(_) => false,
    }
}

/// Whether there is a task of this place, and it is started.
pub fn is_started(tables: &KernelState, t: u8) -> bool
    ensures { result ≡ not (sleeps (task_at tables.now.state.tasks t).phase) }
{
    if usize::from(t) >= tables.task_count() {
        return false;
    }
    !is_dormant(tables.task(t).phase)
}

/// Whether a task is started, and stands after a call.
fn is_task_after(kernel: &Kernel<Vm<'_>>, sys: &System, site: CallSite, t: u8) -> bool
    ensures { result ≡ spec.is_task_after (tables_of sys.now) kernel.now.world site t }
{
    is_started(kernel.tables(), t) && has_body(sys, site, t) && is_after(site, kernel.held(t))
}

/// Whether what is kept of a handler stands after a call.
fn is_handler_after(site: CallSite, held: Option<HandlerContext<Held<MachineContext>>>) -> bool
    ensures { result ≡ spec.is_handler_after site held }
{
    match held {
        Some(held) => held.body == site.body && is_next(site, &held.context),
        None => false,
    }
}

/// Whether the caller on a processor stands after a call.
fn is_caller_after(
    kernel: &Kernel<Vm<'_>>,
    sys: &System,
    site: CallSite,
    p: u8,
    caller: Caller,
) -> bool
    ensures { result ≡ spec.is_caller_after (tables_of sys.now) kernel.now.world site p caller }
{
    match caller {
        Caller::Task(t) => is_task_after(kernel, sys, site, t),
        Caller::Handler(_) => is_handler_after(site, kernel.held_handler(p)),
    }
}

/// Whether the answers of a task are meant.
fn is_of(by: Option<usize>, t: u8) -> bool
    ensures { result ≡ spec.is_of by t }
{
    match by {
        Some(task) => task == usize::from(t),
        None => true,
    }
}

/// Whether the answers of a caller are meant.
fn is_of_caller(by: Option<usize>, caller: Caller) -> bool
    ensures { result ≡ spec.is_of_caller by caller }
{
    match caller {
        Caller::Task(t) => is_of(by, t),
        Caller::Handler(_) => by.is_none(),
    }
}

/// Whether a line that was just told on a kernel tells that a call gets an answer that it must never get.
#[tactic(auto, unfolding(crate::specs::Sites::tells_there))]
pub fn tells_there(kernel: &Kernel<Vm<'_>>, sys: &System, never: NeverAt, line: &Line) -> bool
    ensures { result ≡ spec.tells_there (tables_of sys.now) kernel.now.world never line.now }
{
    match line {
        Line::Call {
            processor,
            caller,
            reply: Some(reply),
            ..
        } => {
            is_same_code(reply.code, never.code)
                && is_of_caller(never.by, *caller)
                && is_caller_after(kernel, sys, never.site, *processor, *caller)
        }
        Line::Gets { task, reply, .. } => {
            is_same_code(reply.code, never.code)
                && is_of(never.by, *task)
                && is_task_after(kernel, sys, never.site, *task)
        }
        _ => false,
    }
}

/// Whether a line that was just told on a kernel tells something of these.
fn tells_any_there(kernel: &Kernel<Vm<'_>>, sys: &System, nevers: &[NeverAt], line: &Line) -> bool
    ensures { result ≡ spec.forbids_there (tables_of sys.now) nevers.now kernel.now.world line.now }
{
    for never in nevers {
        if tells_there(kernel, sys, *never, line) {
            return true;
        }
    }
    false
}

/// Whether a line that was just told on a kernel tells something that must never happen.
pub fn is_bad(kernel: &Kernel<Vm<'_>>, sys: &System, question: &Question, line: &Line) -> bool
    ensures { result ≡ spec.is_bad (tables_of sys.now) question.now kernel.now.world line.now }
{
    is_forbidden(question, line) || tells_any_there(kernel, sys, &question.nevers_at, line)
}

/// The place of the first answer that must never be given to one call, of those that a line tells. The line was just
/// told on a kernel. None if it tells none.
pub fn first_bad_at(
    kernel: &Kernel<Vm<'_>>,
    sys: &System,
    question: &Question,
    line: &Line,
) -> Option<usize>
    ensures { result ≡ position (λ never. spec.tells_there (tables_of sys.now) kernel.now.world never line.now)
        question.now.nevers_at.items }
{
    question
        .nevers_at
        .iter()
        .position(|never| tells_there(kernel, sys, *never, line))
}
