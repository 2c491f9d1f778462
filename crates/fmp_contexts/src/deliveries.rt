//! What the lines of an event mean for the bodies: fresh contexts, and replies.
ghost use Rattle.std.specs.Prelude.{◌≡◌};
ghost use Rattle.fmp_base.specs.Meanings.{caller_body, contexts_after, contexts_after_all, delivered_to, handler_begun};
ghost use Rattle.fmp_base.specs.Meanings.{handler_start as start_of_handler, task_begun};
ghost use Rattle.fmp_base.specs.Ranges.{IsInRange};
ghost use Rattle.fmp_base.specs.Steps.{contexts_ended};
ghost use Rattle.fmp_contexts.specs.Contexts.{Entered, Fitting, HasPlaces};

use crate::contexts::{self, BodyContexts, body_number, fresh_context};
use fmp_base::{Body, Caller, Handler, HandlerStart, Line, Reply};
use fmp_tasks::KernelState;

/// How a handler begins, where the system has it.
#[tactic(auto, using(crate::proofs::RangeLemmas::no_interrupt_beyond))]
pub fn handler_start(tables: &KernelState, h: Handler) -> Option<HandlerStart>
    requires { IsInRange tables.now.system }
    ensures { result ≡ start_of_handler tables.now.system h }
{
    match h {
        Handler::Interrupt(i) => {
            if i >= 32 {
                return None;
            }
            let config = tables.interrupt_config(i)?;
            Some(HandlerStart {
                body: body_number(config.entry),
                exinf: 0,
            })
        }
        Handler::Cyclic(c) => {
            if c as usize >= tables.cyclic_count() {
                return None;
            }
            let config = tables.cyclic_config(c);
            Some(HandlerStart {
                body: body_number(config.entry),
                exinf: config.exinf,
            })
        }
    }
}

/// The number of the body of the caller on processor p.
pub fn entry_of<C: Copy>(tables: &KernelState, contexts: &BodyContexts<C>, p: u8, who: Caller) -> u8
    requires { HasPlaces tables.now.system contexts.now }
    ensures { result ≡ caller_body tables.now.system contexts.now p who }
{
    match who {
        Caller::Task(t) if (t as usize) < tables.task_count() => {
            body_number(tables.task_config(t).entry)
        }
        Caller::Task(_) => 0,
        Caller::Handler(_) => contexts.handler_body(p),
    }
}

/// Task t has a fresh context.
#[tactic(auto, using(crate::proofs::ContextLemmas::fitting_task))]
fn begin_task<B: Body>(body: &B, tables: &KernelState, contexts: &mut BodyContexts<B::Ctx>, t: u8)
    requires places { HasPlaces tables.now.system contexts.old }
    requires entries { Entered B.has_entry body.now tables.now.system }
    requires contexts { Fitting B.has_entry B.is_context body.now tables.now.system contexts.old }
    ensures contexts { contexts.new ≡ task_begun tables.now.system (B.meaning body.now) contexts.old t }
    ensures fitting { Fitting B.has_entry B.is_context body.now tables.now.system contexts.new }
{
    if (t as usize) < tables.task_count() {
        let context = fresh_context(body, tables, t);
        contexts.begin_task(t, context);
    }
}

/// Handler h has a fresh context on processor p.
#[tactic(auto, using(crate::proofs::ContextLemmas::fitting_handler))]
fn begin_handler<B: Body>(
    body: &B,
    tables: &KernelState,
    contexts: &mut BodyContexts<B::Ctx>,
    p: u8,
    h: Handler,
)
    requires range { IsInRange tables.now.system }
    requires entries { Entered B.has_entry body.now tables.now.system }
    requires contexts { Fitting B.has_entry B.is_context body.now tables.now.system contexts.old }
    ensures contexts { contexts.new ≡ handler_begun tables.now.system (B.meaning body.now) contexts.old p h }
    ensures fitting { Fitting B.has_entry B.is_context body.now tables.now.system contexts.new }
{
    match handler_start(tables, h) {
        Some(start) => {
            let context = body.start(start.body, start.exinf);
            contexts.begin_handler(p, start.body, context);
        }
        None => contexts.forget_handler(p),
    }
}

/// The caller on processor p has ended: a task has a fresh context, as at setup, and of a handler nothing is kept.
#[tactic(auto, using(crate::proofs::ContextLemmas::fitting_handler, crate::proofs::ContextLemmas::places_ended))]
pub fn end_context<B: Body>(
    body: &B,
    tables: &KernelState,
    contexts: &mut BodyContexts<B::Ctx>,
    p: u8,
    who: Caller,
)
    requires places { HasPlaces tables.now.system contexts.old }
    requires entries { Entered B.has_entry body.now tables.now.system }
    requires contexts { Fitting B.has_entry B.is_context body.now tables.now.system contexts.old }
    ensures contexts { contexts.new
        ≡ contexts_ended tables.now.system (B.meaning body.now) contexts.old p who }
    ensures places { HasPlaces tables.now.system contexts.new }
    ensures fitting { Fitting B.has_entry B.is_context body.now tables.now.system contexts.new }
{
    match who {
        Caller::Task(t) => begin_task(body, tables, contexts, t),
        Caller::Handler(_) => contexts.forget_handler(p),
    }
}

/// The caller on processor p is told a reply, where its context awaits one.
#[tactic(auto, using(crate::proofs::ContextLemmas::fits_of, crate::proofs::ContextLemmas::entry_of_context, crate::proofs::ContextLemmas::fitting_set))]
#[inline(always)]
fn tell<B: Body>(
    body: &B,
    tables: &KernelState,
    contexts: &mut BodyContexts<B::Ctx>,
    p: u8,
    who: Caller,
    reply: Reply,
)
    requires places { HasPlaces tables.now.system contexts.old }
    requires entries { Entered B.has_entry body.now tables.now.system }
    requires contexts { Fitting B.has_entry B.is_context body.now tables.now.system contexts.old }
    ensures contexts { contexts.new ≡ delivered_to tables.now.system (B.meaning body.now) contexts.old p who reply }
    ensures fitting { Fitting B.has_entry B.is_context body.now tables.now.system contexts.new }
{
    let entry = entry_of(tables, contexts, p, who);
    contexts::tell(body, entry, contexts, p, who, reply);
}

/// The contexts after what a line tells.
fn follow<B: Body>(body: &B, tables: &KernelState, contexts: &mut BodyContexts<B::Ctx>, line: &Line)
    requires range { IsInRange tables.now.system }
    requires places { HasPlaces tables.now.system contexts.old }
    requires entries { Entered B.has_entry body.now tables.now.system }
    requires contexts { Fitting B.has_entry B.is_context body.now tables.now.system contexts.old }
    ensures contexts { contexts.new ≡ contexts_after tables.now.system (B.meaning body.now) contexts.old line.now }
    ensures places { HasPlaces tables.now.system contexts.new }
    ensures fitting { Fitting B.has_entry B.is_context body.now tables.now.system contexts.new }
{
    match *line {
        Line::Starts { task, .. } => begin_task(body, tables, contexts, task),
        Line::Gets {
            processor,
            task,
            reply,
        } => tell(body, tables, contexts, processor, Caller::Task(task), reply),
        Line::Begins { processor, handler } => {
            begin_handler(body, tables, contexts, processor, handler)
        }
        Line::Call {
            processor,
            caller,
            reply: Some(reply),
            ..
        } => tell(body, tables, contexts, processor, caller, reply),
        _ => {}
    }
}

/// The contexts after what the lines of an event tell: a task or handler that starts has a fresh one, a caller and a
/// released task are told their replies.
pub fn carry_out<B: Body>(
    body: &B,
    tables: &KernelState,
    contexts: &mut BodyContexts<B::Ctx>,
    lines: &Vec<Line>,
)
    requires range { IsInRange tables.now.system }
    requires places { HasPlaces tables.now.system contexts.old }
    requires entries { Entered B.has_entry body.now tables.now.system }
    requires contexts { Fitting B.has_entry B.is_context body.now tables.now.system contexts.old }
    ensures contexts { contexts.new
        ≡ contexts_after_all tables.now.system (B.meaning body.now) contexts.old lines.now.items }
    ensures places { HasPlaces tables.now.system contexts.new }
    ensures fitting { Fitting B.has_entry B.is_context body.now tables.now.system contexts.new }
{
    for line in lines {
        follow(body, tables, contexts, line);
    }
}
