//! What events do: the actor of a processor runs, the clock advances, an interrupt is raised.
ghost use Rattle.std.specs.Prelude.{◌≡◌, ◌+◌, ◌<◌, ◌≤◌, ◌^◌, ◌∷◌, [], None, Some, true};
ghost use Rattle.fmp_base.specs.declared.bodies.Held.TheVariants.{Goes};
ghost use Rattle.fmp_base.specs.Calls.{called};
ghost use Rattle.fmp_base.specs.Meanings.{caller_body, context_of, with_context};
ghost use Rattle.fmp_base.specs.States.{processor_at};
ghost use Rattle.fmp_base.specs.Steps.{Did, actor_of, call_made, effect_of, ended_with, finished};
ghost use Rattle.fmp_base.specs.Steps.{handler_ended as ended_handler, run_by, run_in, step};
ghost use Rattle.fmp_contexts.specs.Contexts.{HandsOver, HasContext, is_call, is_going, stop_of};
ghost use Rattle.fmp_kernel.specs.KernelViews.{Reacts, SameBodies, done_of, done_or, kept_in, progress_of, stopped_on};
ghost use Rattle.fmp_kernel.specs.KernelViews.{stretch_in, with_stretch};
ghost use Rattle.fmp_tasks.specs.Callers.{IsTaskOf};
ghost use Rattle.fmp_worlds.specs.Spins.{MaySpin};

use crate::actors::actor_on;
use crate::calls::call;
use crate::runner::Runner;
use crate::spins::may_spin;
use crate::ticks::advance;
use fmp_base::{
    Answer, Body, Call, Caller, Effect, Event, Fault, Handler, Line, Processor, Reply, StretchStop,
};
use fmp_contexts::{end_context, entry_of, stretch};
use fmp_migrate::end_itself;
use fmp_tasks::KernelState;

mod applying;

/// The handler of processor p no longer runs.
fn end_handler(tables: &mut KernelState, p: u8)
    requires { p < tables.old.system.processors }
    ensures { tables.new ≡ record tables.old { state = ended_handler tables.old.state p } }
{
    let cpu = tables.processor(p);
    tables.set_processor(
        p,
        Processor {
            handler: None,
            ..cpu
        },
    );
}

impl<B: Body> Runner<B> {
    /// The actor of processor p ends, with this line.
    fn end_actor(&mut self, p: u8, who: Caller, own: Line)
        requires there { p < self.old.system.processors }
        requires caller { IsTaskOf self.old.system who }
        ensures { Reacts self.old self.new Effect.Done
            (Did (ended_with self.old.system (B.meaning self.old.body) self.old.world p who own)) }
    {
        self.caused.clear();
        end_context(&self.body, &self.tables, &mut self.contexts, p, who);
        match who {
            Caller::Task(t) => end_itself(&mut self.tables, &mut self.caused, p, t),
            Caller::Handler(_) => end_handler(&mut self.tables, p),
        }
        self.finish(own);
    }

    /// The actor of processor p has come to the end of its body.
    #[inline(never)]
    fn end_well(&mut self, p: u8, who: Caller)
        requires there { p < self.old.system.processors }
        requires caller { IsTaskOf self.old.system who }
        ensures { Reacts self.old self.new Effect.Done
            (Did (ended_with self.old.system (B.meaning self.old.body) self.old.world p who (Line.End p who))) }
    {
        let own = Line::End {
            processor: p,
            caller: who,
        };
        self.end_actor(p, who, own);
    }

    /// The actor of processor p ends by a fault.
    #[inline(never)]
    fn end_by_fault(&mut self, p: u8, who: Caller, fault: Fault)
        requires there { p < self.old.system.processors }
        requires caller { IsTaskOf self.old.system who }
        ensures { Reacts self.old self.new Effect.Done
            (Did (ended_with self.old.system (B.meaning self.old.body) self.old.world p who (Line.Fault p who fault))) }
    {
        let own = Line::Fault {
            processor: p,
            caller: who,
            fault,
        };
        self.end_actor(p, who, own);
    }

    /// Ends the event of this call, with its reply if it has one.
    #[inline(always)]
    fn finish_call(&mut self, p: u8, who: Caller, made: &Call, reply: Option<Reply>)
        ensures { Reacts self.old self.new Effect.Done
            (Did (finished self.old.system (B.meaning self.old.body) self.old.world.contexts
            (Line.Call p who made.now reply ∷ []) (progress_of self.old))) }
    {
        self.finish(Line::Call {
            processor: p,
            caller: who,
            call: *made,
            reply,
        });
    }

    /// Ends the event of a call with which the caller has ended.
    fn finish_end(&mut self, p: u8, who: Caller)
        ensures { Reacts self.old self.new Effect.Done
            (Did (finished self.old.system (B.meaning self.old.body) self.old.world.contexts (Line.End p who ∷ [])
            (progress_of self.old))) }
    {
        self.finish(Line::End {
            processor: p,
            caller: who,
        });
    }

    /// The actor of processor p makes a call; its context awaits the reply. Where it spins for a held spin lock,
    /// nothing has changed.
    fn make_call(&mut self, p: u8, who: Caller, made: &Call) -> Effect
        requires there { p < self.old.system.processors }
        requires caller { IsTaskOf self.old.system who }
        ensures { Reacts self.old self.new result
            (call_made self.old.system (B.meaning self.old.body) self.old.world.contexts p who made.now
            (called self.old.system self.old.world.state p who made.now)) }
    {
        self.caused.clear();
        match call(&mut self.tables, &mut self.caused, p, who, made) {
            Answer::Replies(reply) => self.finish_call(p, who, made, Some(reply)),
            Answer::Waits => self.finish_call(p, who, made, None),
            Answer::Ends => self.finish_end(p, who),
            Answer::Spins => return Effect::Nothing,
        }
        Effect::Done
    }

    /// The actor of processor p makes a stretch from the context from which it goes on. What is kept of it then stands
    /// in place.
    #[tactic(auto, using(fmp_contexts::proofs::ContextLemmas::task_going, fmp_contexts::proofs::ContextLemmas::entry_going, fmp_contexts::proofs::ContextLemmas::fits_of))]
    #[inline(always)]
    fn go_on(&mut self, p: u8, who: Caller) -> StretchStop
        requires { is_going (context_of self.old.world.contexts p who) ≡ true }
        ensures stop { result ≡ stop_of (stretch_in B.meaning self.old p who) }
        ensures kept { self.new ≡ with_stretch self.old p who (stretch_in B.meaning self.old p who) }
        ensures caller { IsTaskOf self.old.system who }
        ensures hands_over { HandsOver (stretch_in B.meaning self.old p who) }
    {
        let entry = entry_of(&self.tables, &self.contexts, p, who);
        stretch(&self.body, entry, self.bound, &mut self.contexts, p, who)
    }

    /// Carries out the call, end or fault with which a stretch of the actor of processor p has stopped; what is kept of
    /// it is in place. If it was over its bound, the place is kept, and nothing else happens.
    #[inline(always)]
    fn carry_out_stop(&mut self, p: u8, who: Caller, stop: &StretchStop) -> Effect
        requires there { p < self.old.system.processors }
        requires caller { IsTaskOf self.old.system who }
        ensures { Reacts self.old self.new result
            (stopped_on self.old.system (B.meaning self.old.body) self.old.world p who stop.now) }
    {
        match stop {
            StretchStop::Over => Effect::Kept,
            StretchStop::Call(made) => self.make_call(p, who, made),
            StretchStop::End => {
                self.end_well(p, who);
                Effect::Done
            }
            StretchStop::Fault(fault) => {
                self.end_by_fault(p, who, *fault);
                Effect::Done
            }
        }
    }

    /// The caller on processor p, of which something is kept, goes on from this context again.
    #[tactic(auto, using(fmp_contexts::proofs::ContextLemmas::places_set, fmp_contexts::proofs::ContextLemmas::fitting_set))]
    fn go_back(&mut self, p: u8, who: Caller, first: &B::Ctx)
        requires kept { HasContext self.old.world.contexts p who }
        requires context { B.is_context self.old.body (caller_body self.old.system self.old.world.contexts p who)
            first.now }
        ensures { self.new ≡ kept_in self.old
            (with_context self.old.world.contexts p who (Some (Goes first.now))) }
    {
        self.contexts.put(p, who, first, false);
    }

    /// Carries out the stop of a stretch that began in this context, as `carry_out_stop` does. Where the actor spins
    /// for a held spin lock, it goes on from this context again, so that nothing has happened.
    #[tactic(auto, using(crate::proofs::StopLemmas::nothing_calls))]
    #[inline(always)]
    fn carry_out_or_spin(
        &mut self,
        p: u8,
        who: Caller,
        stop: &StretchStop,
        first: &B::Ctx,
    ) -> Effect
        requires there { p < self.old.system.processors }
        requires caller { IsTaskOf self.old.system who }
        requires kept { is_call stop.now ≡ true → HasContext self.old.world.contexts p who }
        requires context { is_call stop.now ≡ true
            → B.is_context self.old.body (caller_body self.old.system self.old.world.contexts p who) first.now }
        ensures { Reacts (kept_in self.old (with_context self.old.world.contexts p who (Some (Goes first.now))))
            self.new result (stopped_on self.old.system (B.meaning self.old.body) self.old.world p who stop.now) }
    {
        match self.carry_out_stop(p, who, stop) {
            Effect::Done => Effect::Done,
            Effect::Kept => Effect::Kept,
            Effect::Nothing => {
                self.go_back(p, who, first);
                Effect::Nothing
            }
        }
    }

    /// The actor of processor p makes a stretch from the context from which it goes on: the call, end or fault is
    /// carried out, or its place is kept. It finds no spin lock held.
    #[inline(always)]
    fn make_stretch(&mut self, p: u8, who: Caller) -> Effect
        requires there { p < self.old.system.processors }
        requires goes { is_going (context_of self.old.world.contexts p who) ≡ true }
        requires free { MaySpin self.old.system self.old.world.state p who → ⊥ }
        ensures { Reacts self.old self.new result
            (run_in self.old.system (B.meaning self.old.body) self.old.bound self.old.world p who
            (context_of self.old.world.contexts p who)) }
    {
        let stop = self.go_on(p, who);
        self.carry_out_stop(p, who, &stop)
    }

    /// `make_stretch` of an actor that may find a spin lock held. The context in which the stretch began is kept aside:
    /// an actor that spins goes on from there.
    #[inline(never)]
    fn make_stretch_or_spin(&mut self, p: u8, who: Caller) -> Effect
        requires there { p < self.old.system.processors }
        requires goes { is_going (context_of self.old.world.contexts p who) ≡ true }
        ensures { Reacts self.old self.new result
            (run_in self.old.system (B.meaning self.old.body) self.old.bound self.old.world p who
            (context_of self.old.world.contexts p who)) }
    {
        let first = self.first_context(p, who);
        let stop = self.go_on(p, who);
        self.carry_out_or_spin(p, who, &stop, &first)
    }

    /// The context from which the caller on processor p goes on.
    #[tactic(auto, using(fmp_contexts::proofs::ContextLemmas::goes_in, fmp_contexts::proofs::HeldLemmas::going_some, fmp_contexts::proofs::HeldLemmas::going_none))]
    #[inline(always)]
    fn first_context(&self, p: u8, who: Caller) -> B::Ctx
        requires { is_going (context_of self.now.world.contexts p who) ≡ true }
        ensures value { context_of self.now.world.contexts p who ≡ Some (Goes result) }
        ensures context { B.is_context self.now.body (caller_body self.now.system self.now.world.contexts p who)
            result }
    {
        match self.contexts.going(p, who) {
            Some(context) => *context,
            None => unreachable!(),
        }
    }

    /// The actor of processor p runs for a stretch. Nothing happens if it awaits a reply, or nothing is kept of it.
    #[tactic(auto, using(crate::proofs::StopLemmas::still_runs))]
    #[inline(always)]
    fn run_actor(&mut self, p: u8, who: Caller) -> Effect
        requires { p < self.old.system.processors }
        ensures { Reacts self.old self.new result
            (run_by self.old.system (B.meaning self.old.body) self.old.bound self.old.world p (Some who)) }
    {
        if !self.contexts.goes(p, who) {
            return Effect::Nothing;
        }
        if may_spin(&self.tables, p, who) {
            self.make_stretch_or_spin(p, who)
        } else {
            self.make_stretch(p, who)
        }
    }

    /// The handler of processor p runs for a stretch.
    #[inline(never)]
    fn run_handler(&mut self, p: u8, handler: Handler) -> Effect
        requires { p < self.old.system.processors }
        ensures { Reacts self.old self.new result
            (run_by self.old.system (B.meaning self.old.body) self.old.bound self.old.world p
            (Some (Caller.Handler handler))) }
    {
        self.run_actor(p, Caller::Handler(handler))
    }

    /// Processor p runs its actor for a stretch.
    fn run(&mut self, p: u8) -> Effect
        ensures { Reacts self.old self.new result
            (run_by self.old.system (B.meaning self.old.body) self.old.bound self.old.world p
            (actor_of (processor_at self.old.world.state p))) }
    {
        match actor_on(&self.tables, p) {
            None => Effect::Nothing,
            Some(Caller::Task(t)) => self.run_actor(p, Caller::Task(t)),
            Some(Caller::Handler(handler)) => self.run_handler(p, handler),
        }
    }

    /// The clock advances by one.
    fn tick(&mut self)
        requires { self.old.world.state.clock < 2 ^ 31 }
        ensures after { Did (done_of self.new)
            ≡ step self.old.system (B.meaning self.old.body) self.old.bound self.old.world Event.Tick }
        ensures bodies { SameBodies self.old self.new }
        ensures clock { self.new.world.state.clock ≡ self.old.world.state.clock + 1 }
    {
        self.caused.clear();
        advance(&mut self.tables, &mut self.caused);
        let own = Line::Tick(self.tables.clock());
        self.finish(own);
    }

    /// An interrupt, by its number, is raised: its handler becomes pending. Nothing happens if it has none, or it is
    /// pending already.
    #[tactic(auto, using(fmp_contexts::proofs::RangeLemmas::no_interrupt_beyond))]
    fn interrupt(&mut self, number: u8) -> Effect
        ensures { Reacts self.old self.new result
            (step self.old.system (B.meaning self.old.body) self.old.bound self.old.world (Event.Int number)) }
    {
        let tables = &self.tables;
        if number == 0 {
            return Effect::Nothing;
        }
        let i = number - 1;
        if i >= 32 {
            return Effect::Nothing;
        }
        if tables.interrupt_config(i).is_none() || tables.is_interrupt_pending(i) {
            return Effect::Nothing;
        }
        self.caused.clear();
        self.tables.pend_interrupt(i);
        self.finish(Line::Int(i));
        Effect::Done
    }

    /// One event.
    pub fn react(&mut self, e: Event) -> Effect
        requires { self.old.world.state.clock < 2 ^ 31 }
        ensures effect { result
            ≡ effect_of (step self.old.system (B.meaning self.old.body) self.old.bound self.old.world e) }
        ensures after { done_of self.new
            ≡ done_or (done_of self.old)
            (step self.old.system (B.meaning self.old.body) self.old.bound self.old.world e) }
        ensures bodies { SameBodies self.old self.new }
        ensures clock { self.new.world.state.clock ≤ self.old.world.state.clock + 1 }
    {
        match e {
            Event::Run(0) => Effect::Nothing,
            Event::Run(number) => self.run(number - 1),
            Event::Tick => {
                self.tick();
                Effect::Done
            }
            Event::Int(number) => self.interrupt(number),
        }
    }
}
