//! What is kept of the bodies between their stretches.
ghost use Rattle.std.specs.Prelude.{◌≡◌, ◌<◌, ◌≤◌, is_some, length, replicate, slice_set, true, IfOk, Some, None};
ghost use Rattle.std.specs.Option.{option_copied};
ghost use Rattle.fmp_base.specs.declared.bodies.Held.TheVariants.{Goes};
ghost use Rattle.fmp_base.specs.Meanings.{body_in, context_at, context_for, context_in, context_of, kept_context};
ghost use Rattle.fmp_base.specs.Meanings.{task_body, told as told_by, with_context, with_handler_context};
ghost use Rattle.fmp_base.specs.Setups.{first_contexts};
ghost use Rattle.fmp_base.specs.Systems.{body_of, tables_of, task_config};
ghost use Rattle.fmp_contexts.specs.Contexts.{AllContexts, Entered, Fitting, HandsOver, HasContext, OfHeld, OfOption};
ghost use Rattle.fmp_contexts.specs.Contexts.{going_context, held_by, is_going, kept_after, stop_of, stretched_from};
ghost use Rattle.fmp_worlds.specs.Settled.{IsThere};

use crate::kept::{self, KeptContext};
use fmp_base::{Body, Caller, Entry, HandlerContext, Held, Reply, StretchStop, System};
use fmp_tasks::KernelState;
use std::alloc::{AllocError, Global};
use std::marker::Model;

mod copying;

/// What is kept of a handler that runs: the number of its body, and what is kept of that.
#[derive(Drop)]
struct KeptHandler<C: Copy> {
    body: u8,
    kept: KeptContext<C>,
}

impl<C: Copy> Model for KeptHandler<C> {
    ghost use Rattle.fmp_base.specs.declared.bodies.HandlerContext.{HandlerContext};
    ghost use Rattle.fmp_base.specs.declared.bodies.Held.{Held};

    ghost Value = { HandlerContext (Held C) };

    ghost view = { λ h. record { body = h.body; context = h.kept } };
}

/// What is kept of the bodies of tasks, by their places, and of the handlers that run, by the places of their
/// processors.
#[derive(Drop)]
pub struct BodyContexts<C: Copy> {
    tasks: Vec<Option<KeptContext<C>>>,
    handlers: Vec<Option<KeptHandler<C>>>,
}

impl<C: Copy> Model for BodyContexts<C> {
    ghost use Rattle.fmp_base.specs.declared.bodies.Held.{Held};
    ghost use Rattle.fmp_base.specs.Meanings.{Contexts};

    ghost Value = { Contexts (Held C) };

    ghost view = { λ a. record { tasks = a.tasks.items; handlers = a.handlers.items } };
}

/// This many places, with nothing kept.
fn empty_places<A>(alloc: Global, count: usize) -> Result<Vec<Option<A>>, AllocError>
    ensures { IfOk result (λ v. v.items ≡ replicate count None) }
{
    let mut places = Vec::with_capacity(alloc, count)?;
    for _ in 0..count {
        places.push_reserved(None);
    }
    Ok(places)
}

/// The number of the body of an entry.
pub fn body_number(entry: Entry) -> u8
    ensures { result ≡ body_of entry }
{
    match entry {
        Entry::Body(body) => body,
        Entry::Named(_) => 0,
    }
}

/// A fresh context of task t.
pub fn fresh_context<B: Body>(body: &B, tables: &KernelState, t: u8) -> B::Ctx
    requires there { t < length tables.now.system.tasks }
    requires entries { Entered B.has_entry body.now tables.now.system }
    ensures value { result
        ≡ (B.meaning body.now).start (task_body tables.now.system t) (task_config tables.now.system t).exinf }
    ensures context { B.is_context body.now (task_body tables.now.system t) result }
{
    let config = tables.task_config(t);
    body.start(body_number(config.entry), config.exinf)
}

/// The first context of task t of a system.
fn first_context<B: Body>(body: &B, sys: &System, t: u8) -> B::Ctx
    requires there { t < length (tables_of sys.now).tasks }
    requires entries { Entered B.has_entry body.now (tables_of sys.now) }
    ensures value { result
        ≡ (B.meaning body.now).start (task_body (tables_of sys.now) t) (task_config (tables_of sys.now) t).exinf }
    ensures context { B.is_context body.now (task_body (tables_of sys.now) t) result }
{
    let config = &sys.tasks[t as usize];
    body.start(body_number(config.entry), config.exinf)
}

/// What is kept of each task at first: a fresh context. `AllocError` if memory runs out.
#[tactic(auto, using(crate::proofs::ContextLemmas::first_none))]
fn fresh_tasks<B: Body>(
    alloc: Global,
    body: &B,
    sys: &System,
) -> Result<Vec<Option<KeptContext<B::Ctx>>>, AllocError>
    requires entries { Entered B.has_entry body.now (tables_of sys.now) }
    requires few { length (tables_of sys.now).tasks ≤ 255 }
    ensures items { IfOk result
        (λ v. v.items ≡ (first_contexts (tables_of sys.now) (B.meaning body.now)).tasks) }
    ensures fits { IfOk result
        (λ v. AllContexts (λ t. OfHeld (B.is_context body.now (task_body (tables_of sys.now) t))) v.items) }
{
    let count = sys.tasks.len() as u8;
    let mut places = Vec::with_capacity(alloc, count as usize)?;
    for t in 0..count {
        let context = first_context(body, sys, t);
        places.push_reserved(Some(KeptContext::going_from(context)));
    }
    Ok(places)
}

impl<C: Copy> BodyContexts<C> {
    /// What is kept at first: a fresh context of each task, and nothing of handlers, since none runs. `AllocError` if
    /// memory runs out.
    pub fn new<B: Body<Ctx = C>>(alloc: Global, body: &B, sys: &System) -> Result<Self, AllocError>
        requires entries { Entered B.has_entry body.now (tables_of sys.now) }
        requires few { length (tables_of sys.now).tasks ≤ 255 }
        ensures contexts { IfOk result (λ cs. cs ≡ first_contexts (tables_of sys.now) (B.meaning body.now)) }
        ensures fitting { IfOk result (λ cs. Fitting B.has_entry B.is_context body.now (tables_of sys.now) cs) }
    {
        let tasks = fresh_tasks(alloc, body, sys)?;
        let handlers = empty_places(alloc, sys.processors as usize)?;
        Ok(BodyContexts { tasks, handlers })
    }

    /// What is kept of a task, where it stands, if there is anything.
    fn kept_task(&self, t: u8) -> Option<&KeptContext<C>>
        ensures { option_copied result ≡ context_at self.now.tasks t }
    {
        self.tasks.get(t as usize)?.as_ref()
    }

    /// What is kept of the handler that runs on a processor, where it stands, if one does.
    fn kept_handler(&self, p: u8) -> Option<&KeptHandler<C>>
        ensures { option_copied result ≡ context_at self.now.handlers p }
    {
        self.handlers.get(p as usize)?.as_ref()
    }

    /// What is kept of the caller on processor p, where it stands, if there is anything.
    #[inline(always)]
    fn kept_caller(&self, p: u8, who: Caller) -> Option<&KeptContext<C>>
        ensures { option_copied result ≡ context_of self.now p who }
    {
        match who {
            Caller::Task(t) => self.kept_task(t),
            Caller::Handler(_) => {
                let handler = self.kept_handler(p)?;
                Some(&handler.kept)
            }
        }
    }

    /// The number of the body of the handler that runs on a processor, or 0 if none does.
    pub fn handler_body(&self, p: u8) -> u8
        ensures { result ≡ body_in (context_at self.now.handlers p) }
    {
        match self.kept_handler(p) {
            Some(handler) => handler.body,
            None => 0,
        }
    }

    /// The context of the caller on processor p, where it stands, whether it goes on or awaits a reply. `None` where
    /// nothing is kept of it.
    pub fn context(&self, p: u8, who: Caller) -> Option<&C>
        ensures { option_copied result ≡ kept_context (context_of self.now p who) }
    {
        let kept = self.kept_caller(p, who)?;
        Some(kept.context())
    }

    /// The context from which the caller on processor p goes on, unless it awaits a reply or nothing is kept of it.
    pub fn going(&self, p: u8, who: Caller) -> Option<&C>
        ensures { option_copied result ≡ going_context (context_of self.now p who) }
    {
        self.kept_caller(p, who)?.going()
    }

    /// Whether the caller on processor p goes on from a context: not if it awaits a reply, or nothing is kept of it.
    #[inline(always)]
    pub fn goes(&self, p: u8, who: Caller) -> bool
        ensures { result ≡ is_going (context_of self.now p who) }
    {
        match self.kept_caller(p, who) {
            Some(kept) => kept.goes(),
            None => false,
        }
    }

    /// What is kept of a task, if there is one.
    pub fn task(&self, t: u8) -> Option<Held<C>>
        ensures { result ≡ context_at self.now.tasks t }
    {
        let kept = self.kept_task(t)?;
        Some(kept.held())
    }

    /// What is kept of the handler that runs on a processor, if one does.
    pub fn handler(&self, p: u8) -> Option<HandlerContext<Held<C>>>
        ensures { result ≡ context_at self.now.handlers p }
    {
        let handler = self.kept_handler(p)?;
        Some(HandlerContext {
            body: handler.body,
            context: handler.kept.held(),
        })
    }

    /// Whether something is kept of a task.
    pub fn has_task(&self, t: u8) -> bool
        ensures { result ≡ is_some (context_at self.now.tasks t) }
    {
        self.kept_task(t).is_some()
    }

    /// Whether something is kept of a handler on a processor.
    pub fn has_handler(&self, p: u8) -> bool
        ensures { result ≡ is_some (context_at self.now.handlers p) }
    {
        self.kept_handler(p).is_some()
    }

    /// This context is kept of a task, if there is one, and awaits a reply, or does not.
    pub fn put_task(&mut self, t: u8, context: &C, awaits: bool)
        ensures { self.new
            ≡ record self.old { tasks = slice_set self.old.tasks t (Some (held_by awaits context.now)) } }
    {
        if (t as usize) < self.tasks.len() {
            match &mut self.tasks[t as usize] {
                Some(kept) => kept.put(context, awaits),
                None => {
                    let mut kept = KeptContext::going_from(*context);
                    kept.put(context, awaits);
                    self.tasks[t as usize] = Some(kept);
                }
            }
        }
    }

    /// A task, if there is one, goes on from this context.
    pub fn begin_task(&mut self, t: u8, context: C)
        ensures { self.new ≡ record self.old { tasks = slice_set self.old.tasks t (Some (Goes context)) } }
    {
        if (t as usize) < self.tasks.len() {
            self.tasks[t as usize] = Some(KeptContext::going_from(context));
        }
    }

    /// A handler of this body begins on a processor, if there is one, and goes on from this context.
    pub fn begin_handler(&mut self, p: u8, body: u8, context: C)
        ensures { self.new
            ≡ with_handler_context self.old p (Some (record { body = body; context = Goes context })) }
    {
        if (p as usize) < self.handlers.len() {
            let kept = KeptContext::going_from(context);
            self.handlers[p as usize] = Some(KeptHandler { body, kept });
        }
    }

    /// Nothing is kept of a handler on a processor.
    pub fn forget_handler(&mut self, p: u8)
        ensures { self.new ≡ with_handler_context self.old p None }
    {
        if (p as usize) < self.handlers.len() {
            self.handlers[p as usize] = None;
        }
    }

    /// Nothing is kept of the caller on processor p.
    pub fn forget(&mut self, p: u8, who: Caller)
        ensures { self.new ≡ with_context self.old p who None }
    {
        match who {
            Caller::Task(t) => {
                if (t as usize) < self.tasks.len() {
                    self.tasks[t as usize] = None;
                }
            }
            Caller::Handler(_) => self.forget_handler(p),
        }
    }

    /// This context is kept of the caller on processor p, of which something is kept, and awaits a reply, or does not.
    #[inline(always)]
    pub fn put(&mut self, p: u8, who: Caller, context: &C, awaits: bool)
        requires { HasContext self.old p who }
        ensures { self.new ≡ with_context self.old p who (Some (held_by awaits context.now)) }
    {
        match who {
            Caller::Task(t) => {
                if let Some(kept) = &mut self.tasks[t as usize] {
                    kept.put(context, awaits);
                }
            }
            Caller::Handler(_) => {
                if let Some(handler) = &mut self.handlers[p as usize] {
                    handler.kept.put(context, awaits);
                }
            }
        }
    }
}

/// A stretch of a task's body, of at most n units, from the context that is kept, which goes on. Where the body ends,
/// nothing is kept of it.
fn stretch_task<B: Body>(
    body: &B,
    entry: u8,
    n: u64,
    place: &mut Option<KeptContext<B::Ctx>>,
) -> StretchStop
    requires entry { B.has_entry body.now entry }
    requires context { OfOption (OfHeld (B.is_context body.now entry)) place.old }
    requires goes { is_going place.old ≡ true }
    ensures stop { result ≡ stop_of (stretched_from (B.meaning body.now) entry n place.old) }
    ensures place { place.new ≡ kept_after (stretched_from (B.meaning body.now) entry n place.old) }
    ensures fits { OfOption (OfHeld (B.is_context body.now entry)) place.new }
    ensures hands_over { HandsOver (stretched_from (B.meaning body.now) entry n place.old) }
{
    let Some(kept) = place else { unreachable!() };
    match kept::stretch(body, entry, n, kept) {
        StretchStop::Call(made) => StretchStop::Call(made),
        StretchStop::Over => StretchStop::Over,
        StretchStop::End => {
            *place = None;
            StretchStop::End
        }
        StretchStop::Fault(fault) => {
            *place = None;
            StretchStop::Fault(fault)
        }
    }
}

/// `stretch_task` of the body of a handler.
fn stretch_handler<B: Body>(
    body: &B,
    entry: u8,
    n: u64,
    place: &mut Option<KeptHandler<B::Ctx>>,
) -> StretchStop
    requires entry { B.has_entry body.now entry }
    requires context { OfOption (OfHeld (B.is_context body.now entry)) (context_in place.old) }
    requires goes { is_going (context_in place.old) ≡ true }
    ensures stop { result ≡ stop_of (stretched_from (B.meaning body.now) entry n (context_in place.old)) }
    ensures place { place.new ≡ context_for (body_in place.old)
        (kept_after (stretched_from (B.meaning body.now) entry n (context_in place.old))) }
    ensures fits { OfOption (OfHeld (B.is_context body.now entry)) (context_in place.new) }
    ensures hands_over { HandsOver (stretched_from (B.meaning body.now) entry n (context_in place.old)) }
{
    let Some(handler) = place else { unreachable!() };
    match kept::stretch(body, entry, n, &mut handler.kept) {
        StretchStop::Call(made) => StretchStop::Call(made),
        StretchStop::Over => StretchStop::Over,
        StretchStop::End => {
            *place = None;
            StretchStop::End
        }
        StretchStop::Fault(fault) => {
            *place = None;
            StretchStop::Fault(fault)
        }
    }
}

/// The caller on processor p, of which a context goes on, makes a stretch of at most n units of the body of its entry.
/// This is kept of it then: after a call the context that awaits the reply, at the bound the one that goes on, and
/// after its end nothing.
#[tactic(auto, using(crate::proofs::HeldLemmas::inside_task, crate::proofs::HeldLemmas::inside_handler))]
#[inline(always)]
pub fn stretch<B: Body>(
    body: &B,
    entry: u8,
    n: u64,
    contexts: &mut BodyContexts<B::Ctx>,
    p: u8,
    who: Caller,
) -> StretchStop
    requires entry { B.has_entry body.now entry }
    requires context { OfOption (OfHeld (B.is_context body.now entry)) (context_of contexts.old p who) }
    requires goes { is_going (context_of contexts.old p who) ≡ true }
    ensures stop { result ≡ stop_of (stretched_from (B.meaning body.now) entry n (context_of contexts.old p who)) }
    ensures contexts { contexts.new ≡ with_context contexts.old p who
        (kept_after (stretched_from (B.meaning body.now) entry n (context_of contexts.old p who))) }
    ensures fits { OfOption (OfHeld (B.is_context body.now entry))
        (kept_after (stretched_from (B.meaning body.now) entry n (context_of contexts.old p who))) }
    ensures hands_over { HandsOver
        (stretched_from (B.meaning body.now) entry n (context_of contexts.old p who)) }
{
    match who {
        Caller::Task(t) => stretch_task(body, entry, n, &mut contexts.tasks[t as usize]),
        Caller::Handler(_) => stretch_handler(body, entry, n, &mut contexts.handlers[p as usize]),
    }
}

/// The task of which this is kept, if anything, is told a reply, where its context awaits one.
fn tell_task<B: Body>(body: &B, entry: u8, place: &mut Option<KeptContext<B::Ctx>>, reply: Reply)
    requires entry { IsThere place.old → B.has_entry body.now entry }
    requires fits { OfOption (OfHeld (B.is_context body.now entry)) place.old }
    ensures place { place.new ≡ told_by (B.meaning body.now) entry reply place.old }
    ensures fits { OfOption (OfHeld (B.is_context body.now entry)) place.new }
{
    if let Some(kept) = place {
        kept::tell(body, entry, kept, reply);
    }
}

/// The handler of which this is kept, if anything, is told a reply, where its context awaits one.
fn tell_handler<B: Body>(body: &B, entry: u8, place: &mut Option<KeptHandler<B::Ctx>>, reply: Reply)
    requires entry { IsThere (context_in place.old) → B.has_entry body.now entry }
    requires fits { OfOption (OfHeld (B.is_context body.now entry)) (context_in place.old) }
    ensures place { place.new ≡ context_for (body_in place.old)
        (told_by (B.meaning body.now) entry reply (context_in place.old)) }
    ensures fits { OfOption (OfHeld (B.is_context body.now entry)) (context_in place.new) }
{
    if let Some(handler) = place {
        kept::tell(body, entry, &mut handler.kept, reply);
    }
}

/// The caller on processor p, whose body is that of this entry, is told a reply, where its context awaits one.
pub fn tell<B: Body>(
    body: &B,
    entry: u8,
    contexts: &mut BodyContexts<B::Ctx>,
    p: u8,
    who: Caller,
    reply: Reply,
)
    requires entry { HasContext contexts.old p who → B.has_entry body.now entry }
    requires fits { OfOption (OfHeld (B.is_context body.now entry)) (context_of contexts.old p who) }
    ensures contexts { contexts.new ≡ with_context contexts.old p who
        (told_by (B.meaning body.now) entry reply (context_of contexts.old p who)) }
    ensures fits { OfOption (OfHeld (B.is_context body.now entry))
        (told_by (B.meaning body.now) entry reply (context_of contexts.old p who)) }
{
    match who {
        Caller::Task(t) => {
            if (t as usize) < contexts.tasks.len() {
                tell_task(body, entry, &mut contexts.tasks[t as usize], reply);
            }
        }
        Caller::Handler(_) => {
            if (p as usize) < contexts.handlers.len() {
                tell_handler(body, entry, &mut contexts.handlers[p as usize], reply);
            }
        }
    }
}
