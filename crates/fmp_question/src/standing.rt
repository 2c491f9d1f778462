//! Deadlocks: states in which no processor can do anything and no time runs, though a task waits.
ghost use Rattle.std.specs.Prelude.{◌≡◌, ◌<◌, ◌≤◌, ◌^◌, ◌≢◌, ◌↔◌, IsTrue, false, length, slice_index_or};
ghost use Rattle.fmp_drive.specs.Driving.{AllStand};
ghost use Rattle.fmp_schedules.specs.Deadlocks.{IsDeadlock, IsStuck};
ghost use Rattle.fmp_question.specs.Standing.{IsStuckAt, NoHandlerComes, NoWaitEnds, NoneDoes, StandsStill};

use crate::question::Question;
use fmp_base::Phase;
use fmp_drive::{EventSource, first_taken};
use fmp_kernel::{Body, Kernel};
use fmp_tasks::KernelState;

/// The end of the interrupts' numbers.
const INTERRUPTS_END: u8 = 33;

/// Whether no wait of a task ends by the clock.
fn no_wait_ends(tables: &KernelState) -> bool
    ensures { IsTrue result ↔ NoWaitEnds tables.now.state (length tables.now.system.tasks) }
{
    for t in 0..tables.task_count() as u8 {
        match tables.task(t).deadline {
            Some(_) => return false,
            None => {}
        }
    }
    true
}

/// Whether no cyclic handler is started.
fn no_handler_comes(tables: &KernelState) -> bool
    ensures { IsTrue result ↔ NoHandlerComes tables.now.state (length tables.now.system.cyclics) }
{
    for c in 0..tables.cyclic_count() as u8 {
        match tables.due_time(c) {
            Some(_) => return false,
            None => {}
        }
    }
    true
}

/// Whether the task at a place may wait forever.
pub fn may_rest(question: &Question, t: u8) -> bool
    ensures { result ≡ slice_index_or question.now.rest.items t false }
{
    match question.rest.get(usize::from(t)) {
        Some(rests) => *rests,
        None => false,
    }
}

/// Whether a task in this phase is started.
fn is_started(phase: Phase) -> bool
    ensures { IsTrue result ↔ (phase ≢ Phase.Dormant) }
{
    match phase {
        Phase::Dormant => false,
        Phase::Ready | Phase::Waiting(_) => true,
    }
}

/// Whether the task at a place is started, and may not wait forever.
fn is_stuck_at(tables: &KernelState, question: &Question, t: u8) -> bool
    requires { t < length tables.now.system.tasks }
    ensures { IsTrue result ↔ IsStuckAt question.now.rest.items tables.now.state t }
{
    if may_rest(question, t) {
        return false;
    }
    is_started(tables.task(t).phase)
}

/// Whether a task that may not wait forever is started.
fn is_someone_stuck(tables: &KernelState, question: &Question) -> bool
    ensures { IsTrue result
        ↔ IsStuck question.now.rest.items tables.now.state (length tables.now.system.tasks) }
{
    for t in 0..tables.task_count() as u8 {
        if is_stuck_at(tables, question, t) {
            return true;
        }
    }
    false
}

/// Whether no time runs, and a task that may not wait forever is started.
fn time_stands(tables: &KernelState, question: &Question) -> bool
    ensures { IsTrue result ↔ StandsStill question.now.rest.items tables.now.system tables.now.state }
{
    if !no_wait_ends(tables) {
        return false;
    }
    if !no_handler_comes(tables) {
        return false;
    }
    is_someone_stuck(tables, question)
}

/// Whether no time runs on a kernel, though a task that may not wait forever is started.
pub fn stands_still<B: Body>(kernel: &Kernel<B>, question: &Question) -> bool
    ensures { IsTrue result ↔ StandsStill question.now.rest.items kernel.now.system kernel.now.world.state }
{
    time_stands(kernel.tables(), question)
}

/// Whether no event of a source, by the numbers from 1 up to the end, which is left out, does anything. Where one does,
/// it is taken.
fn all_stand<B: Body>(kernel: &mut Kernel<B>, source: EventSource, end: u8) -> bool
    requires { kernel.old.taken < 2 ^ 20 }
    ensures stand { IsTrue result ↔ AllStand B.meaning kernel.old source 1 end }
    ensures same { IsTrue result → kernel.new ≡ kernel.old }
{
    match first_taken(kernel, source, 1, end) {
        Some(_) => false,
        None => true,
    }
}

/// Whether no event that may still come does anything. Where one does, it is taken.
fn none_does<B: Body>(kernel: &mut Kernel<B>, processors: u8, interrupts: bool) -> bool
    requires few { kernel.old.taken < 2 ^ 20 }
    requires processors { processors ≤ 8 }
    ensures { IsTrue result ↔ NoneDoes B.meaning kernel.old processors interrupts }
{
    if !all_stand(kernel, EventSource::Processor, processors + 1) {
        return false;
    }
    if !interrupts {
        return true;
    }
    all_stand(kernel, EventSource::Interrupt, INTERRUPTS_END)
}

/// How many processors a kernel has.
pub fn processor_count<B: Body>(kernel: &Kernel<B>) -> u8
    ensures count { result ≡ kernel.now.system.processors }
    ensures few { result ≤ 8 }
{
    kernel.tables().processor_count() as u8
}

/// Whether a kernel is a deadlock, where one more interrupt may come or may not.
pub fn is_deadlock<B: Body>(kernel: &mut Kernel<B>, question: &Question, interrupts: bool) -> bool
    requires few { kernel.old.taken < 2 ^ 20 }
    ensures { IsTrue result ↔ IsDeadlock kernel.old.system (B.meaning kernel.old.body) kernel.old.bound
        kernel.old.world question.now.rest.items interrupts }
{
    let processors = processor_count(kernel);
    if !stands_still(kernel, question) {
        return false;
    }
    none_does(kernel, processors, interrupts)
}
