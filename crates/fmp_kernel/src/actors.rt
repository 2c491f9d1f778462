//! The actor of a processor: its running handler, else the task that it runs.
ghost use Rattle.std.specs.Prelude.{◌≡◌, ◌<◌, OnSome};
ghost use Rattle.fmp_base.specs.States.{processor_at};
ghost use Rattle.fmp_base.specs.Steps.{actor_of};

use fmp_base::{Caller, Processor};
use fmp_tasks::KernelState;

/// The actor of a processor: the number of its body, the context from which it goes on, and the stamp of the processor,
/// which changes with any event that may have changed the actor or its context.
#[derive(Clone, Copy)]
pub struct Actor<C> {
    pub entry: u8,
    pub context: C,
    pub stamp: u32,
}

/// The actor of a processor, if any.
fn acting_on(cpu: &Processor) -> Option<Caller>
    ensures { result ≡ actor_of cpu.now }
{
    match cpu.handler {
        Some(h) => Some(Caller::Handler(h)),
        None => match cpu.run {
            Some(t) => Some(Caller::Task(t)),
            None => None,
        },
    }
}

/// The actor of processor p, if any.
pub fn actor_on(tables: &KernelState, p: u8) -> Option<Caller>
    ensures value { result ≡ actor_of (processor_at tables.now.state p) }
    ensures there { OnSome result (p < tables.now.system.processors) }
{
    if p as usize >= tables.processor_count() {
        return None;
    }
    acting_on(&tables.processor(p))
}
