//! Stretches that are handed in: the actor of a processor has made one elsewhere. The calls that tasks make most often
//! are carried out inline.
ghost use Rattle.std.specs.Prelude.{◌≡◌, ◌<◌, ◌∷◌, [], None, Some, length, true};
ghost use Rattle.fmp_base.specs.declared.bodies.Held.TheVariants.{Awaits};
ghost use Rattle.fmp_base.specs.Calls.{called};
ghost use Rattle.fmp_base.specs.Meanings.{caller_body, context_of, with_context};
ghost use Rattle.fmp_base.specs.Queues.{top};
ghost use Rattle.fmp_base.specs.Settles.{is_same_task, pending_handler};
ghost use Rattle.fmp_base.specs.States.{processor_at};
ghost use Rattle.fmp_base.specs.Steps.{Did, actor_of, call_made, finished};
ghost use Rattle.fmp_base.specs.Stretches.{ending};
ghost use Rattle.fmp_base.specs.Contexts.{OfCall};
ghost use Rattle.fmp_contexts.specs.Contexts.{HasContext, IsFor, is_going, stop_of};
ghost use Rattle.fmp_kernel.specs.KernelViews.{Reacts, kept_in, progress_of, with_stretch};
ghost use Rattle.fmp_tasks.specs.Callers.{IsTaskOf};
ghost use Rattle.fmp_worlds.specs.Spins.{MaySpin};
ghost use Rattle.fmp_worlds.specs.Stamps.{actor_at, applied_by, applied_in};

use crate::actors::actor_on;
use crate::calls::context::is_open;
use crate::calls::frequent_call;
use crate::runner::Runner;
use crate::spins::may_spin;
use fmp_base::{Answer, Body, Call, Caller, Effect, Handler, Line, Reply, Stretch, StretchStop};
use fmp_contexts::entry_of;

impl<B: Body> Runner<B> {
    /// The stretch of the actor of processor p, which goes on from a context, is handed in. What is kept of it then
    /// stands in place.
    #[tactic(auto, using(fmp_contexts::proofs::ContextLemmas::task_going, fmp_contexts::proofs::ContextLemmas::going_has))]
    #[inline(always)]
    fn take(&mut self, p: u8, who: Caller, stretch: Stretch<B::Ctx>) -> StretchStop
        requires goes { is_going (context_of self.old.world.contexts p who) ≡ true }
        requires context { OfCall
            (B.is_context self.old.body (caller_body self.old.system self.old.world.contexts p who))
            (ending stretch) }
        ensures stop { result ≡ stop_of (ending stretch) }
        ensures kept { self.new ≡ with_stretch self.old p who (ending stretch) }
        ensures caller { IsTaskOf self.old.system who }
    {
        // Only a look at a field tells the proof that the contexts fit.
        let _ = &self.tables;
        match stretch {
            Stretch::Over(context) => {
                self.contexts.put(p, who, &context, false);
                StretchStop::Over
            }
            Stretch::Call(context, made) => {
                self.contexts.put(p, who, &context, true);
                StretchStop::Call(made)
            }
            Stretch::End(_) => {
                self.contexts.forget(p, who);
                StretchStop::End
            }
            Stretch::Fault(_, fault) => {
                self.contexts.forget(p, who);
                StretchStop::Fault(fault)
            }
        }
    }

    /// The caller on processor p, of which something is kept, awaits a reply in this context.
    #[tactic(auto, using(fmp_contexts::proofs::ContextLemmas::places_set, fmp_contexts::proofs::ContextLemmas::fitting_set))]
    #[inline(always)]
    fn await_reply(&mut self, p: u8, who: Caller, context: &B::Ctx)
        requires kept { HasContext self.old.world.contexts p who }
        requires context { B.is_context self.old.body (caller_body self.old.system self.old.world.contexts p who)
            context.now }
        ensures { self.new ≡ kept_in self.old
            (with_context self.old.world.contexts p who (Some (Awaits context.now))) }
    {
        self.contexts.put(p, who, context, true);
    }

    /// Ends the event of this call, with which nothing else has happened, and after which the single processor has
    /// nothing to settle. The caller made it in this context, and is told the reply there.
    #[tactic(auto, using(crate::proofs::AloneLemmas::finished_alone, fmp_contexts::proofs::ContextLemmas::places_set, fmp_contexts::proofs::ContextLemmas::fitting_set, fmp_contexts::proofs::ContextLemmas::entry_of_context))]
    #[inline(always)]
    fn reply_at_once(&mut self, p: u8, who: Caller, context: &B::Ctx, made: &Call, reply: Reply)
        requires kept { HasContext self.old.world.contexts p who }
        requires context { B.is_context self.old.body (caller_body self.old.system self.old.world.contexts p who)
            context.now }
        requires alone { self.old.caused ≡ [] }
        requires single { length self.old.world.state.processors ≡ 1 }
        requires none { pending_handler self.old.system self.old.world.state 0 ≡ None }
        requires same { is_same_task (processor_at self.old.world.state 0).run (top self.old.world.state 0) ≡ true }
        ensures { Reacts self.old self.new Effect.Done
            (Did (finished self.old.system (B.meaning self.old.body)
            (with_context self.old.world.contexts p who (Some (Awaits context.now)))
            (Line.Call p who made.now (Some reply) ∷ []) (progress_of self.old))) }
    {
        let entry = entry_of(&self.tables, &self.contexts, p, who);
        let told = self.body.deliver(entry, *context, reply);
        self.contexts.put(p, who, &told, false);
        self.lines.clear();
        self.lines.push_reserved(Line::Call {
            processor: p,
            caller: who,
            call: *made,
            reply: Some(reply),
        });
    }

    /// Ends the event of this call, which the caller made in this context, with this reply.
    #[inline(always)]
    fn reply_to(&mut self, p: u8, who: Caller, context: &B::Ctx, made: &Call, reply: Reply)
        requires kept { HasContext self.old.world.contexts p who }
        requires context { B.is_context self.old.body (caller_body self.old.system self.old.world.contexts p who)
            context.now }
        ensures { Reacts self.old self.new Effect.Done
            (Did (finished self.old.system (B.meaning self.old.body)
            (with_context self.old.world.contexts p who (Some (Awaits context.now)))
            (Line.Call p who made.now (Some reply) ∷ []) (progress_of self.old))) }
    {
        if self.is_alone() {
            self.reply_at_once(p, who, context, made, reply);
        } else {
            self.await_reply(p, who, context);
            self.finish_call(p, who, made, Some(reply));
        }
    }

    /// Task t, which processor p runs, makes a call in this context, and awaits the reply in it. It finds no spin lock
    /// held.
    #[inline(never)]
    fn call_apart(&mut self, p: u8, t: u8, context: B::Ctx, made: Call) -> Effect
        requires there { p < self.old.system.processors }
        requires caller { t < length self.old.system.tasks }
        requires kept { HasContext self.old.world.contexts p (Caller.Task t) }
        requires context { B.is_context self.old.body
            (caller_body self.old.system self.old.world.contexts p (Caller.Task t)) context }
        requires free { MaySpin self.old.system self.old.world.state p (Caller.Task t) → ⊥ }
        ensures { Reacts self.old self.new result
            (call_made self.old.system (B.meaning self.old.body)
            (with_context self.old.world.contexts p (Caller.Task t) (Some (Awaits context))) p (Caller.Task t)
            made (called self.old.system self.old.world.state p (Caller.Task t) made)) }
    {
        let who = Caller::Task(t);
        self.await_reply(p, who, &context);
        self.make_call(p, who, &made)
    }

    /// As `call_apart`, but a call that is made often is carried out inline.
    #[inline(always)]
    fn call_from(&mut self, p: u8, t: u8, context: &B::Ctx, made: &Call) -> Effect
        requires there { p < self.old.system.processors }
        requires caller { t < length self.old.system.tasks }
        requires kept { HasContext self.old.world.contexts p (Caller.Task t) }
        requires context { B.is_context self.old.body
            (caller_body self.old.system self.old.world.contexts p (Caller.Task t)) context.now }
        requires free { MaySpin self.old.system self.old.world.state p (Caller.Task t) → ⊥ }
        ensures { Reacts self.old self.new result
            (call_made self.old.system (B.meaning self.old.body)
            (with_context self.old.world.contexts p (Caller.Task t) (Some (Awaits context.now))) p (Caller.Task t)
            made.now (called self.old.system self.old.world.state p (Caller.Task t) made.now)) }
    {
        let who = Caller::Task(t);
        if !is_open(&self.tables.processor(p)) {
            return self.call_apart(p, t, *context, *made);
        }
        self.caused.clear();
        match frequent_call(&mut self.tables, &mut self.caused, p, t, made) {
            Some(Answer::Replies(reply)) => self.reply_to(p, who, context, made, reply),
            Some(Answer::Waits) => {
                self.await_reply(p, who, context);
                self.finish_call(p, who, made, None);
            }
            Some(Answer::Ends) => {
                self.await_reply(p, who, context);
                self.finish_end(p, who);
            }
            Some(Answer::Spins) => return Effect::Nothing,
            None => return self.call_apart(p, t, *context, *made),
        }
        Effect::Done
    }

    /// The actor of processor p, which goes on from a context, has made this stretch: the call, end or fault is carried
    /// out, or its place is kept. It finds no spin lock held.
    #[tactic(auto, using(crate::proofs::StopLemmas::ending_hands, fmp_contexts::proofs::ContextLemmas::task_going, fmp_contexts::proofs::ContextLemmas::going_has))]
    #[inline(always)]
    fn apply_stretch(&mut self, p: u8, who: Caller, stretch: Stretch<B::Ctx>) -> Effect
        requires there { p < self.old.system.processors }
        requires goes { is_going (context_of self.old.world.contexts p who) ≡ true }
        requires context { OfCall
            (B.is_context self.old.body (caller_body self.old.system self.old.world.contexts p who))
            (ending stretch) }
        requires free { MaySpin self.old.system self.old.world.state p who → ⊥ }
        ensures { Reacts self.old self.new result
            (applied_in self.old.system (B.meaning self.old.body) self.old.world p who
            (context_of self.old.world.contexts p who) (ending stretch)) }
    {
        // Only a look at a field tells the proof that the task is there.
        let _ = &self.tables;
        match (who, stretch) {
            (Caller::Task(t), Stretch::Call(context, made)) => {
                self.call_from(p, t, &context, &made)
            }
            _ => {
                let stop = self.take(p, who, stretch);
                self.carry_out_stop(p, who, &stop)
            }
        }
    }

    /// `apply_stretch` of an actor that may find a spin lock held: an actor that spins goes on from the context from
    /// which it came.
    #[tactic(auto, using(crate::proofs::StopLemmas::ending_hands))]
    #[inline(never)]
    fn apply_stretch_or_spin(&mut self, p: u8, who: Caller, stretch: Stretch<B::Ctx>) -> Effect
        requires there { p < self.old.system.processors }
        requires goes { is_going (context_of self.old.world.contexts p who) ≡ true }
        requires context { OfCall
            (B.is_context self.old.body (caller_body self.old.system self.old.world.contexts p who))
            (ending stretch) }
        ensures { Reacts self.old self.new result
            (applied_in self.old.system (B.meaning self.old.body) self.old.world p who
            (context_of self.old.world.contexts p who) (ending stretch)) }
    {
        let first = self.first_context(p, who);
        let stop = self.take(p, who, stretch);
        self.carry_out_or_spin(p, who, &stop, &first)
    }

    /// The actor of processor p has made this stretch. Nothing happens if it awaits a reply, or nothing is kept of it.
    #[tactic(auto, using(crate::proofs::StopLemmas::still_applied, fmp_contexts::proofs::ContextLemmas::going_fits))]
    #[inline(always)]
    fn apply_actor(&mut self, p: u8, who: Caller, stretch: Stretch<B::Ctx>) -> Effect
        requires there { p < self.old.system.processors }
        requires actor { actor_of (processor_at self.old.world.state p) ≡ Some who }
        requires context { IsFor B.is_context self.old.body (ending stretch)
            (actor_at self.old.system self.old.world p) }
        ensures { Reacts self.old self.new result
            (applied_by self.old.system (B.meaning self.old.body) self.old.world p (Some who) (ending stretch)) }
    {
        if !self.contexts.goes(p, who) {
            return Effect::Nothing;
        }
        if may_spin(&self.tables, p, who) {
            self.apply_stretch_or_spin(p, who, stretch)
        } else {
            self.apply_stretch(p, who, stretch)
        }
    }

    /// The handler of processor p has made this stretch.
    #[inline(never)]
    fn apply_handler(&mut self, p: u8, handler: Handler, stretch: Stretch<B::Ctx>) -> Effect
        requires there { p < self.old.system.processors }
        requires actor { actor_of (processor_at self.old.world.state p) ≡ Some (Caller.Handler handler) }
        requires context { IsFor B.is_context self.old.body (ending stretch)
            (actor_at self.old.system self.old.world p) }
        ensures { Reacts self.old self.new result
            (applied_by self.old.system (B.meaning self.old.body) self.old.world p (Some (Caller.Handler handler))
            (ending stretch)) }
    {
        self.apply_actor(p, Caller::Handler(handler), stretch)
    }

    /// Processor p runs its actor, whose stretch is this one.
    #[inline(always)]
    pub fn apply(&mut self, p: u8, stretch: Stretch<B::Ctx>) -> Effect
        requires { IsFor B.is_context self.old.body (ending stretch) (actor_at self.old.system self.old.world p) }
        ensures { Reacts self.old self.new result
            (applied_by self.old.system (B.meaning self.old.body) self.old.world p
            (actor_of (processor_at self.old.world.state p)) (ending stretch)) }
    {
        match actor_on(&self.tables, p) {
            None => Effect::Nothing,
            Some(Caller::Task(t)) => self.apply_actor(p, Caller::Task(t), stretch),
            Some(Caller::Handler(handler)) => self.apply_handler(p, handler, stretch),
        }
    }
}
