//! The contexts of bodies are put in place as they were saved. Each is tested, so that none stands here that its body
//! does not know.
ghost use Rattle.std.specs.Prelude.{◌≡◌, ◌<◌, IfSome, Some, length, true};
ghost use Rattle.fmp_base.specs.Meanings.{handler_start};
ghost use Rattle.fmp_base.specs.Ranges.{IsInRange};
ghost use Rattle.fmp_contexts.specs.Contexts.{Entered, Fitting, HasPlaces};
ghost use Rattle.fmp_tasks.specs.Homes.{is_waiting as is_waiting_phase};

use crate::contexts::{BodyContexts, body_number};
use crate::deliveries::handler_start;
use fmp_base::{Body, Handler, HandlerStart, Phase};
use fmp_tasks::KernelState;

/// Tells the contexts of bodies from other values.
pub trait ContextTest<B: Body> {
    /// Whether this is a context of the body of an entry. False says nothing.
    fn accepts(&self, body: &B, entry: u8, context: &B::Ctx) -> bool
        ensures { result ≡ true → B.is_context body.now entry context.now };
}

/// The contexts of bodies as they were saved.
#[derive(Drop)]
pub struct SavedContexts<C: Copy> {
    /// The context of each task. What is kept of a task of which none was saved stays: that of a task that is not
    /// started is looked at by nobody.
    pub tasks: Vec<Option<C>>,
    /// The context of the handler that runs on each processor, where one does.
    pub handlers: Vec<Option<C>>,
}

/// Whether a task of this phase awaits a reply.
fn awaits_reply(phase: Phase) -> bool
    ensures { result ≡ is_waiting_phase phase }
{
    match phase {
        Phase::Dormant => false,
        Phase::Ready => false,
        Phase::Waiting(_) => true,
    }
}

/// This context is kept of task t, and awaits a reply where the task waits. Gives whether it is one of the task's body.
fn restore_task<B: Body, T: ContextTest<B>>(
    test: &T,
    body: &B,
    tables: &KernelState,
    contexts: &mut BodyContexts<B::Ctx>,
    t: u8,
    context: &B::Ctx,
) -> bool
    requires there { t < length tables.now.system.tasks }
    requires places { HasPlaces tables.now.system contexts.old }
    requires contexts { Fitting B.has_entry B.is_context body.now tables.now.system contexts.old }
    ensures places { HasPlaces tables.now.system contexts.new }
    ensures fitting { Fitting B.has_entry B.is_context body.now tables.now.system contexts.new }
{
    let entry = body_number(tables.task_config(t).entry);
    if test.accepts(body, entry, context) {
        let awaits = awaits_reply(tables.task(t).phase);
        contexts.put_task(t, context, awaits);
        true
    } else {
        false
    }
}

/// The contexts of the tasks. Gives whether there are as many places, and each is one of its task's body.
fn restore_tasks<B: Body, T: ContextTest<B>>(
    test: &T,
    body: &B,
    tables: &KernelState,
    contexts: &mut BodyContexts<B::Ctx>,
    saved: &[Option<B::Ctx>],
) -> bool
    requires places { HasPlaces tables.now.system contexts.old }
    requires contexts { Fitting B.has_entry B.is_context body.now tables.now.system contexts.old }
    ensures places { HasPlaces tables.now.system contexts.new }
    ensures fitting { Fitting B.has_entry B.is_context body.now tables.now.system contexts.new }
{
    let count = tables.task_count() as u8;
    if saved.len() != count as usize {
        return false;
    }
    for t in 0..count {
        if let Some(context) = &saved[t as usize] {
            if !restore_task(test, body, tables, contexts, t, context) {
                return false;
            }
        }
    }
    true
}

/// The start of handler h, if there is such a handler and this context is one of its body.
fn accepted_start<B: Body, T: ContextTest<B>>(
    test: &T,
    body: &B,
    tables: &KernelState,
    h: Handler,
    context: &B::Ctx,
) -> Option<HandlerStart>
    requires { IsInRange tables.now.system }
    ensures start { IfSome result (λ start. handler_start tables.now.system h ≡ Some start) }
    ensures context { IfSome result (λ start. B.is_context body.now start.body context.now) }
{
    let start = handler_start(tables, h)?;
    if !test.accepts(body, start.body, context) {
        return None;
    }
    Some(start)
}

/// What is kept of the handler of processor p: this context where one runs, else nothing. Gives whether a handler runs
/// exactly where a context was saved, and that is one of its body.
#[tactic(auto, using(crate::proofs::ContextLemmas::fitting_handler, crate::proofs::RestoreLemmas::places_handler))]
fn restore_on<B: Body, T: ContextTest<B>>(
    test: &T,
    body: &B,
    tables: &KernelState,
    contexts: &mut BodyContexts<B::Ctx>,
    p: u8,
    saved: &Option<B::Ctx>,
) -> bool
    requires range { IsInRange tables.now.system }
    requires there { p < tables.now.system.processors }
    requires places { HasPlaces tables.now.system contexts.old }
    requires entries { Entered B.has_entry body.now tables.now.system }
    requires contexts { Fitting B.has_entry B.is_context body.now tables.now.system contexts.old }
    ensures places { HasPlaces tables.now.system contexts.new }
    ensures fitting { Fitting B.has_entry B.is_context body.now tables.now.system contexts.new }
{
    match tables.processor(p).handler {
        Some(h) => {
            let Some(context) = saved else {
                return false;
            };
            match accepted_start(test, body, tables, h, context) {
                Some(start) => {
                    contexts.begin_handler(p, start.body, *context);
                    true
                }
                None => false,
            }
        }
        None => {
            if contexts.has_handler(p) {
                contexts.forget_handler(p);
            }
            saved.is_none()
        }
    }
}

/// The contexts of the handlers that run. Gives whether there are as many places as processors, a handler runs exactly
/// where a context was saved, and each is one of its handler's body.
fn restore_handlers<B: Body, T: ContextTest<B>>(
    test: &T,
    body: &B,
    tables: &KernelState,
    contexts: &mut BodyContexts<B::Ctx>,
    saved: &[Option<B::Ctx>],
) -> bool
    requires range { IsInRange tables.now.system }
    requires places { HasPlaces tables.now.system contexts.old }
    requires entries { Entered B.has_entry body.now tables.now.system }
    requires contexts { Fitting B.has_entry B.is_context body.now tables.now.system contexts.old }
    ensures places { HasPlaces tables.now.system contexts.new }
    ensures fitting { Fitting B.has_entry B.is_context body.now tables.now.system contexts.new }
{
    let count = tables.processor_count() as u8;
    if saved.len() != count as usize {
        return false;
    }
    for p in 0..count {
        if !restore_on(test, body, tables, contexts, p, &saved[p as usize]) {
            return false;
        }
    }
    true
}

/// Puts the contexts of bodies in place as they were saved, for tables that are in the saved state. Gives whether they
/// are contexts of their bodies; where one is not, some are in place. It takes no memory.
pub fn restore_contexts<B: Body, T: ContextTest<B>>(
    test: &T,
    body: &B,
    tables: &KernelState,
    contexts: &mut BodyContexts<B::Ctx>,
    saved: &SavedContexts<B::Ctx>,
) -> bool
    requires range { IsInRange tables.now.system }
    requires places { HasPlaces tables.now.system contexts.old }
    requires entries { Entered B.has_entry body.now tables.now.system }
    requires contexts { Fitting B.has_entry B.is_context body.now tables.now.system contexts.old }
    ensures places { HasPlaces tables.now.system contexts.new }
    ensures fitting { Fitting B.has_entry B.is_context body.now tables.now.system contexts.new }
{
    if restore_tasks(test, body, tables, contexts, &saved.tasks) {
        restore_handlers(test, body, tables, contexts, &saved.handlers)
    } else {
        false
    }
}
