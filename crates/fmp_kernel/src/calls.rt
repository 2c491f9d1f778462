//! The service calls: the test of where a call is made from, then the case of the call, from tasks and from handlers.
ghost use Rattle.std.specs.Prelude.{◌≡◌, ◌<◌, ◌||◌, [], length, not, vec_capacity, false, true, IfNone, IfSome};
ghost use Rattle.fmp_base.specs.declared.states.Handler.{Handler};
ghost use Rattle.fmp_base.specs.Calls.{called, case_by, case_of};
ghost use Rattle.fmp_base.specs.Permissions.{permission, is_barred as barred};
ghost use Rattle.fmp_base.specs.ProcessorCalls.{is_cpu_locked as is_locked};
ghost use Rattle.fmp_base.specs.Ranges.{IsInRange};
ghost use Rattle.fmp_base.specs.Services.{service_of};
ghost use Rattle.fmp_base.specs.States.{processor_at, task_at};
ghost use Rattle.fmp_kernel.specs.Groups.{IsForHandlers, IsForTasks, group_of};
ghost use Rattle.fmp_tasks.specs.Callers.{IsTaskOf};
ghost use Rattle.fmp_tasks.specs.Lines.{AreEmptyWithRoom};
ghost use Rattle.fmp_tasks.specs.Tables.{outcome, SameShape};

use crate::calls::context::is_barred;
use crate::calls::groups::{ServiceGroup, group};
use crate::calls::handlers::handler_call;
use crate::calls::management::management_call;
use crate::calls::objects::object_call;
use crate::calls::own::own_call;
use crate::calls::processors::processor_call;
use crate::calls::queues::queue_call;
use crate::calls::synchronization::synchronization_call;
use fmp_base::{Answer, Call, Caller, Er, Line, TimeLimit};
use fmp_migrate::{slp_tsk, wup_tsk};
use fmp_objects::{sig_sem, wai_sem};
use fmp_tasks::KernelState;
use fmp_tasks::answers::replied;

pub mod context;
mod groups;
mod handlers;
mod management;
mod objects;
mod own;
mod processors;
mod queues;
mod synchronization;

/// The case of a call that task me, which processor p runs, may make.
#[inline(always)]
fn case_of_task(
    tables: &mut KernelState,
    lines: &mut Vec<Line>,
    p: u8,
    me: u8,
    made: &Call,
) -> Answer
    requires group { IsForTasks (group_of (service_of made.now)) }
    requires caller { me < length tables.old.system.tasks }
    requires processor { p < tables.old.system.processors }
    requires range { IsInRange tables.old.system }
    requires lines { AreEmptyWithRoom 255 lines.old }
    ensures outcome { outcome result tables.new lines.new.items
        ≡ case_of tables.old.system tables.old.state p me (task_at tables.old.state.tasks me) made.now }
    ensures shape { SameShape tables.old tables.new }
    ensures capacity { vec_capacity lines.new ≡ vec_capacity lines.old }
{
    match group(made.service()) {
        ServiceGroup::Own => own_call(tables, made),
        ServiceGroup::Management => management_call(tables, lines, p, me, made),
        ServiceGroup::Synchronization => synchronization_call(tables, lines, me, made),
        ServiceGroup::Objects => object_call(tables, lines, me, made),
        ServiceGroup::Queues => queue_call(tables, lines, me, made),
        ServiceGroup::Processors => processor_call(tables, p, made),
        ServiceGroup::Handlers => unreachable!(),
    }
}

/// The case of a call that a handler on processor p may make.
fn case_of_handler(tables: &mut KernelState, lines: &mut Vec<Line>, p: u8, made: &Call) -> Answer
    requires group { IsForHandlers (group_of (service_of made.now)) }
    requires processor { p < tables.old.system.processors }
    requires range { IsInRange tables.old.system }
    requires lines { AreEmptyWithRoom 255 lines.old }
    ensures outcome { outcome result tables.new lines.new.items
        ≡ case_of tables.old.system tables.old.state p 0 (task_at [] 0) made.now }
    ensures shape { SameShape tables.old tables.new }
    ensures capacity { vec_capacity lines.new ≡ vec_capacity lines.old }
{
    match group(made.service()) {
        ServiceGroup::Own => own_call(tables, made),
        ServiceGroup::Handlers => handler_call(tables, lines, p, made),
        _ => unreachable!(),
    }
}

/// The case of a call that its caller on processor p may make.
#[tactic(auto, using(crate::proofs::GroupLemmas::handlers_call, crate::proofs::GroupLemmas::tasks_call))]
#[inline(always)]
fn permitted_call(
    tables: &mut KernelState,
    lines: &mut Vec<Line>,
    p: u8,
    who: Caller,
    made: &Call,
) -> Answer
    requires permitted { barred (permission (service_of made.now)) (processor_at tables.old.state p) who made.now
        ≡ false }
    requires caller { IsTaskOf tables.old.system who }
    requires processor { p < tables.old.system.processors }
    requires range { IsInRange tables.old.system }
    requires lines { AreEmptyWithRoom 255 lines.old }
    ensures outcome { outcome result tables.new lines.new.items
        ≡ case_by tables.old.system tables.old.state p who made.now }
    ensures shape { SameShape tables.old tables.new }
    ensures capacity { vec_capacity lines.new ≡ vec_capacity lines.old }
{
    match who {
        Caller::Task(me) => case_of_task(tables, lines, p, me, made),
        Caller::Handler(_) => case_of_handler(tables, lines, p, made),
    }
}

/// Carries out a call of this caller on processor p. The lines of its effects are added to those that are given.
#[inline(always)]
pub fn call(
    tables: &mut KernelState,
    lines: &mut Vec<Line>,
    p: u8,
    who: Caller,
    made: &Call,
) -> Answer
    requires caller { IsTaskOf tables.old.system who }
    requires processor { p < tables.old.system.processors }
    requires range { IsInRange tables.old.system }
    requires lines { AreEmptyWithRoom 255 lines.old }
    ensures outcome { outcome result tables.new lines.new.items
        ≡ called tables.old.system tables.old.state p who made.now }
    ensures shape { SameShape tables.old tables.new }
    ensures capacity { vec_capacity lines.new ≡ vec_capacity lines.old }
{
    if is_barred(&tables.processor(p), who, made) {
        return replied(Er::Ctx);
    }
    permitted_call(tables, lines, p, who, made)
}

/// Carries out a call of those that are made most often, by task me, which processor p runs, with its CPU free and its
/// dispatching enabled, as `call` does. None of another call: then nothing is done.
#[tactic(auto, using(crate::proofs::GroupLemmas::called_open))]
#[inline(always)]
pub fn frequent_call(
    tables: &mut KernelState,
    lines: &mut Vec<Line>,
    p: u8,
    me: u8,
    made: &Call,
) -> Option<Answer>
    requires caller { me < length tables.old.system.tasks }
    requires open { not (is_locked (processor_at tables.old.state p)
        || (processor_at tables.old.state p).dispatch_disabled) ≡ true }
    requires lines { AreEmptyWithRoom 255 lines.old }
    ensures outcome { IfSome result (λ a. outcome a tables.new lines.new.items
        ≡ called tables.old.system tables.old.state p (Caller.Task me) made.now) }
    ensures other { IfNone result (tables.new ≡ tables.old) }
    ensures untold { IfNone result (lines.new ≡ lines.old) }
    ensures shape { SameShape tables.old tables.new }
    ensures capacity { vec_capacity lines.new ≡ vec_capacity lines.old }
{
    match *made {
        Call::SigSem { semaphore } => Some(sig_sem(tables, lines, semaphore)),
        Call::WaiSem { semaphore } => Some(wai_sem(tables, me, TimeLimit::Forever, semaphore)),
        Call::PolSem { semaphore } => Some(wai_sem(tables, me, TimeLimit::Poll, semaphore)),
        Call::SlpTsk => Some(slp_tsk(tables, me)),
        Call::WupTsk { task } => Some(wup_tsk(tables, lines, me, task)),
        _ => None,
    }
}
