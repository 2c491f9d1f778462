//! The kernel over lawful bodies: setup, and one event after the other.
ghost use Rattle.std.specs.Prelude.{◌≡◌, ◌+◌, ◌<◌, ◌≤◌, ◌^◌, length, IfNone, IfOk, IfSome};
ghost use Rattle.std.specs.Option.{option_copied};
ghost use Rattle.fmp_bisimulation.specs.Alike.{Alike};
ghost use Rattle.fmp_base.specs.Meanings.{body_in, context_at, context_of, kept_context};
ghost use Rattle.fmp_base.specs.Ranges.{IsInRange};
ghost use Rattle.fmp_base.specs.Runs.{task_state};
ghost use Rattle.fmp_base.specs.Setups.{setup};
ghost use Rattle.fmp_base.specs.Steps.{effect_of, step};
ghost use Rattle.fmp_base.specs.Stretches.{ending};
ghost use Rattle.fmp_base.specs.Systems.{tables_of};
ghost use Rattle.fmp_contexts.specs.Contexts.{Entered, IsFor, is_going};
ghost use Rattle.fmp_kernel.specs.KernelViews.{HasNoActor, actor_in, stamp_of, view_after, view_of_setup};
ghost use Rattle.fmp_kernel.specs.Restarts.{counts_restarted};
ghost use Rattle.fmp_worlds.specs.Settled.{RunOnce};
ghost use Rattle.fmp_worlds.specs.Stamps.{actor_at_number, applied};

use crate::actors::Actor;
use crate::runner::Runner;
use crate::stamps::{Stamps, run_place};
use fmp_base::{
    Body, Caller, Effect, Event, HandlerContext, Held, Line, Stretch, System, TaskState,
};
use fmp_tasks::KernelState;
use std::alloc::{AllocError, Global};
use std::marker::Model;
use thiserror::Error;

mod copying;
mod laws;
mod restoring;

/// Why there is no kernel.
#[derive(Debug, Drop, Error)]
pub enum KernelFault {
    /// There is not enough memory.
    #[error("K1: out of memory")]
    Memory,
}

impl From<AllocError> for KernelFault {
    fn from(_: AllocError) -> Self {
        KernelFault::Memory
    }
}

/// A kernel with its bodies.
#[derive(Drop)]
pub struct Kernel<B: Body> {
    runner: Runner<B>,
    done: u32,
    taken: u32,
    stamps: Stamps,
}

impl<B: Body> Model for Kernel<B> {
    ghost use Rattle.fmp_kernel.specs.KernelViews.{KernelView, kernel_of};
    ghost use Rattle.fmp_kernel.specs.Rooms.{IsEarly};
    ghost use Rattle.fmp_kernel.specs.Stamps.{AreStamps};
    ghost use Rattle.fmp_worlds.specs.Settled.{IsSettledWorld};

    ghost Value = { KernelView B B.Ctx };

    ghost view = { λ k. kernel_of k.runner k.stamps k.done k.taken };

    ghost invariant = { λ k. IsEarly k.runner.world.state.clock k.done k.taken
        × IsSettledWorld k.runner.system k.runner.world
        × AreStamps k.stamps k.runner.system.processors k.taken };
}

impl<B: Body + Drop> Kernel<B> {
    /// A kernel after setup (uITRON 4.0, section 3.7): all objects are made, the tasks with TA_ACT are started, in
    /// order of number, and all processors settle. A stretch of a body takes at most n units; a longer one keeps its
    /// place. `KernelFault::Memory` if memory runs out: no call after this one takes any.
    pub fn new(alloc: Global, body: B, sys: &System, n: u64) -> Result<Self, KernelFault>
        requires entries { Entered B.has_entry body (tables_of sys.now) }
        requires range { IsInRange (tables_of sys.now) }
        ensures { IfOk result
            (λ k. k ≡ view_of_setup body n (tables_of sys.now) (setup (tables_of sys.now) (B.meaning body))) }
    {
        let stamps = Stamps::new(alloc, sys.processors)?;
        let mut runner = Runner::new(alloc, body, sys, n)?;
        runner.set_up();
        runner.world_is_whole();
        Ok(Kernel {
            runner,
            done: 0,
            taken: 0,
            stamps,
        })
    }
}

impl<B: Body> Kernel<B> {
    /// The lines of the last event that was done, or of setup. Any other event leaves them as they are.
    pub fn lines(&self) -> &[Line]
        ensures { result.now ≡ self.now.lines }
    {
        self.runner.lines()
    }

    /// What its bodies are.
    pub fn body(&self) -> &B
        ensures { result.now ≡ self.now.body }
    {
        &self.runner.body
    }

    /// How many units a stretch of a body takes at most.
    pub fn bound(&self) -> u64
        ensures { result ≡ self.now.bound }
    {
        self.runner.bound
    }

    /// How many events were done: the number of the last one in the trace.
    pub fn done(&self) -> u32
        ensures { result ≡ self.now.done }
    {
        self.done
    }

    /// How many events were taken: they were done, or kept a place.
    pub fn taken(&self) -> u32
        ensures value { result ≡ self.now.taken }
        ensures done { self.now.done ≤ self.now.taken }
    {
        self.taken
    }

    /// What is shown of the task at place t, from 0: its state, its processor and its priority.
    pub fn state(&self, t: u8) -> TaskState
        requires { t < length self.now.system.tasks }
        ensures { result ≡ task_state self.now.world.state t }
    {
        self.runner.state(t)
    }

    /// The tables of the system and the state of the kernel, as the last event that was done (or setup) left them: what
    /// may be seen of them by the public calls of `KernelState`, by places from 0.
    pub fn tables(&self) -> &KernelState
        ensures system { result.now.system ≡ self.now.system }
        ensures state { result.now.state ≡ self.now.world.state }
    {
        self.runner.tables()
    }

    /// What is kept of the body of the task at place t, from 0, if there is such a task.
    pub fn held(&self, t: u8) -> Option<Held<B::Ctx>>
        ensures { result ≡ context_at self.now.world.contexts.tasks t }
    {
        self.runner.contexts.task(t)
    }

    /// What is kept of the body of the handler that runs on the processor at place p, from 0, if one does.
    pub fn held_handler(&self, p: u8) -> Option<HandlerContext<Held<B::Ctx>>>
        ensures { result ≡ context_at self.now.world.contexts.handlers p }
    {
        self.runner.contexts.handler(p)
    }

    /// The context that is kept of this caller on the processor at place p, from 0, where it stands, whether it goes on
    /// or awaits a reply. `None` where nothing is kept of it.
    pub fn context(&self, p: u8, who: Caller) -> Option<&B::Ctx>
        ensures { option_copied result ≡ kept_context (context_of self.now.world.contexts p who) }
    {
        self.runner.contexts.context(p, who)
    }

    /// Whether this caller goes on from its context: not if it awaits a reply, or nothing is kept of it.
    pub fn goes(&self, p: u8, who: Caller) -> bool
        ensures { result ≡ is_going (context_of self.now.world.contexts p who) }
    {
        self.runner.contexts.goes(p, who)
    }

    /// The number of the body of the handler that runs on the processor at place p, from 0; 0 if none does.
    pub fn handler_body(&self, p: u8) -> u8
        ensures { result ≡ body_in (context_at self.now.world.contexts.handlers p) }
    {
        self.runner.contexts.handler_body(p)
    }

    /// A law: an event has at most 519 lines.
    pub fn lines_are_few(&self)
        ensures { length self.now.lines ≤ 519 }
    {
        let _ = self.runner.lines();
    }

    /// A law: no task is run by two processors.
    pub fn no_task_runs_twice(&self)
        ensures { RunOnce self.now.world.state }
    {
        // Only a look at a field tells the proof that the world is settled.
        let _ = &self.runner;
    }

    /// The actor of the processor of this number, from 1: its running handler, else the task that it runs. None exactly
    /// where there is no such processor, or it has no actor. The stamp is how many of the events taken ran the
    /// processor or left it another actor than they found: along one run equal stamps mean the same actor in the same
    /// context.
    #[tactic(auto, using(crate::proofs::ActorNone::no_actor))]
    #[inline(always)]
    pub fn actor(&self, p: u8) -> Option<Actor<B::Ctx>>
        ensures value { result ≡ actor_in self.now p }
        ensures exact { IfNone result (HasNoActor self.now p) }
        ensures entry { IfSome result (λ a. B.has_entry self.now.body a.entry) }
        ensures context { IfSome result (λ a. B.is_context self.now.body a.entry a.context) }
    {
        if p == 0 {
            return None;
        }
        self.runner.actor(p - 1, self.stamps.stamp(p - 1))
    }

    /// The stamp of the actor of the processor of this number, from 1, as `actor` gives it, without its context. None
    /// where that gives none.
    pub fn stamp(&self, p: u8) -> Option<u32>
        ensures { result ≡ stamp_of (actor_in self.now p) }
    {
        if p == 0 {
            return None;
        }
        self.runner.stamp(p - 1, self.stamps.stamp(p - 1))
    }

    /// One event, while fewer than 2^20 were taken: what it does. If it is done, its lines and the state after it stand
    /// here then. If it keeps the place of an actor, the actor goes on from there, and nothing else of the world
    /// changes. If it does nothing, nothing has changed. It takes no memory.
    pub fn step(&mut self, e: Event) -> Effect
        requires { self.old.taken < 2 ^ 20 }
        ensures effect { result
            ≡ effect_of (step self.old.system (B.meaning self.old.body) self.old.bound self.old.world e) }
        ensures state { self.new
            ≡ view_after self.old (step self.old.system (B.meaning self.old.body) self.old.bound self.old.world e) }
    {
        self.step_long(e)
    }

    /// As `step`, while fewer than 2^31 events were taken: a run of days.
    pub fn step_long(&mut self, e: Event) -> Effect
        requires { self.old.taken < 2 ^ 31 }
        ensures effect { result
            ≡ effect_of (step self.old.system (B.meaning self.old.body) self.old.bound self.old.world e) }
        ensures state { self.new
            ≡ view_after self.old (step self.old.system (B.meaning self.old.body) self.old.bound self.old.world e) }
    {
        let effect = self.runner.react(e);
        self.runner.world_is_whole();
        match effect {
            Effect::Nothing => Effect::Nothing,
            Effect::Kept => {
                self.taken += 1;
                self.stamps.count_kept(run_place(e));
                Effect::Kept
            }
            Effect::Done => {
                self.done += 1;
                self.taken += 1;
                self.stamps.count(self.runner.lines(), run_place(e));
                Effect::Done
            }
        }
    }

    /// The run of the processor of this number, from 1, where its actor has made this stretch: as `step` of this run,
    /// which makes the stretch itself. The stretch is one of the present actor's; if there is none, nothing happens.
    pub fn apply(&mut self, p: u8, s: Stretch<B::Ctx>) -> Effect
        requires early { self.old.taken < 2 ^ 20 }
        requires stretch { IsFor B.is_context self.old.body (ending s)
            (actor_at_number self.old.system self.old.world p) }
        ensures effect { result
            ≡ effect_of (applied self.old.system (B.meaning self.old.body) self.old.world p (ending s)) }
        ensures state { self.new
            ≡ view_after self.old (applied self.old.system (B.meaning self.old.body) self.old.world p (ending s)) }
    {
        self.apply_long(p, s)
    }

    /// As `apply`, while fewer than 2^31 events were taken.
    #[inline(always)]
    pub fn apply_long(&mut self, p: u8, s: Stretch<B::Ctx>) -> Effect
        requires early { self.old.taken < 2 ^ 31 }
        requires stretch { IsFor B.is_context self.old.body (ending s)
            (actor_at_number self.old.system self.old.world p) }
        ensures effect { result
            ≡ effect_of (applied self.old.system (B.meaning self.old.body) self.old.world p (ending s)) }
        ensures state { self.new
            ≡ view_after self.old (applied self.old.system (B.meaning self.old.body) self.old.world p (ending s)) }
    {
        if p == 0 {
            return Effect::Nothing;
        }
        let effect = self.runner.apply(p - 1, s);
        self.runner.world_is_whole();
        match effect {
            Effect::Nothing => Effect::Nothing,
            Effect::Kept => {
                self.taken += 1;
                self.stamps.count_kept(Some(p - 1));
                Effect::Kept
            }
            Effect::Done => {
                self.done += 1;
                self.taken += 1;
                self.stamps.count(self.runner.lines(), Some(p - 1));
                Effect::Done
            }
        }
    }

    /// The counts begin again: the clock, the numbers of events done and taken, and the stamps are 0. Each deadline and
    /// each due time is as far from the clock as before, and nothing else changes. The world is alike to what it was:
    /// each later event does what it would do without this call, by lines that differ in the number of the clock at
    /// most (`fmp_bisimulation::laws::events_do_the_same`). A stamp from before this call says nothing after it. It
    /// takes no memory.
    pub fn restart_count(&mut self)
        ensures state { self.new ≡ counts_restarted self.old }
        ensures alike { Alike self.old.system self.old.world self.new.world }
    {
        self.runner.restart_clock();
        self.stamps.restart();
        self.done = 0;
        self.taken = 0;
    }
}
