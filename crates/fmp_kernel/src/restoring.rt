//! Whether a world that was put in place is one between events: this is tested, processor by processor and task by
//! task.
ghost use Rattle.std.specs.Prelude.{◌≡◌, ◌<◌, None, false, length, true};
ghost use Rattle.fmp_base.specs.Meanings.{context_at, context_in};
ghost use Rattle.fmp_base.specs.ProcessorCalls.{is_cpu_locked as is_locked};
ghost use Rattle.fmp_base.specs.Queues.{is_ready_phase as is_ready_in};
ghost use Rattle.fmp_base.specs.Settles.{pending_handler};
ghost use Rattle.fmp_contexts.specs.Contexts.{HasPlaces};
ghost use Rattle.fmp_kernel.specs.Restored.{AreKeptOf, AreSettledOn, IsKeptOf, IsSettledOn, RunsOwn};
ghost use Rattle.fmp_worlds.specs.Settled.{AwaitsNone, IsSettledWorld, IsThere};

use crate::calls::context::is_cpu_locked;
use fmp_base::{Caller, Handler, Phase, Processor};
use fmp_contexts::{BodyContexts, SavedContexts};
use fmp_tasks::{KernelState, SavedState};

/// A state of a kernel as it is saved: that of its tables, and the contexts of its bodies.
#[derive(Drop)]
pub struct Saved<C: Copy> {
    /// The state of the tables.
    pub state: SavedState,
    /// The contexts of the bodies.
    pub contexts: SavedContexts<C>,
}

/// Whether a phase is that of a task that is able to run, if it is not suspended.
fn is_ready_phase(phase: Phase) -> bool
    ensures { result ≡ is_ready_in phase }
{
    match phase {
        Phase::Dormant => false,
        Phase::Ready => true,
        Phase::Waiting(_) => false,
    }
}

/// Whether the task that processor p runs, if it runs one, is assigned to it and ready.
#[tactic(auto, using(crate::proofs::RestoredLemmas::ready_is))]
fn runs_own(tables: &KernelState, p: u8, run: Option<u8>) -> bool
    ensures { result ≡ true → RunsOwn tables.now.state.tasks p run }
{
    let Some(t) = run else {
        return true;
    };
    if t as usize >= tables.task_count() {
        return false;
    }
    let x = tables.task(t);
    if x.processor == p {
        is_ready_phase(x.phase)
    } else {
        false
    }
}

/// Whether a handler runs on processor p, which is cpu, or may not begin, or none is pending on it.
fn has_begun(tables: &KernelState, p: u8, cpu: &Processor) -> bool
    requires { p < tables.now.system.processors }
    ensures { result ≡ true → cpu.now.handler ≡ None → is_locked cpu.now ≡ false →
        pending_handler tables.now.system tables.now.state p ≡ None }
{
    if cpu.handler.is_some() {
        return true;
    }
    if is_cpu_locked(cpu) {
        return true;
    }
    tables.first_pending(p).is_none()
}

/// Whether a context is kept of the handler of processor p exactly where one runs, and goes on.
fn keeps_handler<C: Copy>(contexts: &BodyContexts<C>, p: u8, handler: Option<Handler>) -> bool
    ensures kept { result ≡ true → IsThere handler → IsThere (context_at contexts.now.handlers p) }
    ensures free { result ≡ true → AwaitsNone (context_in (context_at contexts.now.handlers p)) }
{
    match handler {
        Some(h) => contexts.goes(p, Caller::Handler(h)),
        None => !contexts.has_handler(p),
    }
}

/// Whether processor p is as between events.
fn is_settled_on<C: Copy>(tables: &KernelState, contexts: &BodyContexts<C>, p: u8) -> bool
    requires { p < tables.now.system.processors }
    ensures { result ≡ true → IsSettledOn tables.now.system tables.now.state contexts.now p }
{
    let cpu = tables.processor(p);
    if !runs_own(tables, p, cpu.run) {
        return false;
    }
    if !has_begun(tables, p, &cpu) {
        return false;
    }
    keeps_handler(contexts, p, cpu.handler)
}

/// Whether all processors are as between events.
fn are_settled<C: Copy>(tables: &KernelState, contexts: &BodyContexts<C>) -> bool
    ensures { result ≡ true → AreSettledOn tables.now.system tables.now.state contexts.now }
{
    let count = tables.processor_count() as u8;
    for p in 0..count {
        if !is_settled_on(tables, contexts, p) {
            return false;
        }
    }
    true
}

/// Whether a context is kept of task t, and goes on if the task is ready.
fn is_kept_of<C: Copy>(tables: &KernelState, contexts: &BodyContexts<C>, t: u8) -> bool
    requires { t < length tables.now.system.tasks }
    ensures { result ≡ true → IsKeptOf tables.now.state contexts.now t }
{
    if is_ready_phase(tables.task(t).phase) {
        contexts.goes(0, Caller::Task(t))
    } else {
        contexts.has_task(t)
    }
}

/// Whether a context is kept of each task, and goes on if the task is ready.
fn are_kept<C: Copy>(tables: &KernelState, contexts: &BodyContexts<C>) -> bool
    ensures { result ≡ true → AreKeptOf tables.now.system tables.now.state contexts.now }
{
    let count = tables.task_count() as u8;
    for t in 0..count {
        if !is_kept_of(tables, contexts, t) {
            return false;
        }
    }
    true
}

/// Whether the world of these tables and contexts is one between events.
pub fn is_settled<C: Copy>(tables: &KernelState, contexts: &BodyContexts<C>) -> bool
    requires { HasPlaces tables.now.system contexts.now }
    ensures { result ≡ true → IsSettledWorld tables.now.system
        (record { state = tables.now.state; contexts = contexts.now }) }
{
    let _ = tables.task_count();
    let _ = tables.cyclic_count();
    let _ = tables.processor_count();
    if !are_settled(tables, contexts) {
        return false;
    }
    are_kept(tables, contexts)
}
