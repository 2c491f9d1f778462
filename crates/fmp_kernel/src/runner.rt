//! The runner of events: the bodies with their contexts over the tables, and room for the lines of an event.
ghost use Rattle.std.specs.Prelude.{◌≡◌, ◌+◌, ◌≤◌, ◌<◌, ◌^◌, ◌++◌, ◌∷◌, ℕ, [], get_or, length, map, replicate, vec_len};
ghost use Rattle.std.specs.Prelude.{vec_capacity, IfOk, IfSome, Some, None, true};
ghost use Rattle.fmp_base.specs.declared.events.Effect.TheVariants as effect;
ghost use Rattle.fmp_base.specs.Queues.{top};
ghost use Rattle.fmp_base.specs.Runs.{task_state};
ghost use Rattle.fmp_base.specs.Ranges.{IsInRange};
ghost use Rattle.fmp_base.specs.Setups.{created_state, first_contexts, setup};
ghost use Rattle.fmp_base.specs.Settles.{is_same_task as runs_same, pending_handler};
ghost use Rattle.fmp_base.specs.States.{processor_at};
ghost use Rattle.fmp_base.specs.Steps.{Did, finished};
ghost use Rattle.fmp_base.specs.Systems.{tables_of};
ghost use Rattle.fmp_contexts.specs.Contexts.{Entered};
ghost use Rattle.fmp_kernel.specs.KernelViews.{Reacts, SameBodies, done_of, progress_of, stamp_of, with_stamp};
ghost use Rattle.fmp_kernel.specs.Restarts.{clock_restarted_in};
ghost use Rattle.fmp_ticks.specs.Times.{NoneBefore};
ghost use Rattle.fmp_worlds.specs.Settled.{IsWorldOf};
ghost use Rattle.fmp_worlds.specs.Stamps.{actor_at};

use crate::actors::{Actor, actor_on};
use crate::settling::{is_same_task, settle};
use crate::starting::start_active;
use fmp_base::{Body, Line, StateWord, System, TaskState};
use fmp_contexts::{BodyContexts, carry_out, entry_of};
use fmp_tasks::KernelState;
use std::alloc::{AllocError, Global};
use std::marker::Model;

mod copying;
mod laws;
mod restoring;

/// The bodies with their contexts over the tables of a system, and the lines of an event: those that it has caused so
/// far, and all of the last event that was done, or of setup.
#[derive(Drop)]
pub struct Runner<B: Body> {
    pub body: B,
    pub bound: u64,
    pub tables: KernelState,
    pub contexts: BodyContexts<B::Ctx>,
    pub caused: Vec<Line>,
    pub lines: Vec<Line>,
}

impl<B: Body> Model for Runner<B> {
    ghost use Rattle.std.specs.Prelude.{vec_capacity};
    ghost use Rattle.fmp_contexts.specs.Contexts.{Fitting, Entered, HasPlaces};
    ghost use Rattle.fmp_kernel.specs.KernelViews.{RunnerView};
    ghost use Rattle.fmp_kernel.specs.Rooms.{HasRoom};

    ghost Value = { RunnerView B B.Ctx };

    ghost view = { λ r. record {
      body = r.body;
      bound = r.bound;
      system = r.tables.system;
      world = record
          { state = r.tables.state; contexts = r.contexts };
      caused = r.caused.items;
      lines = r.lines.items;
    } };

    ghost invariant = { λ r. HasRoom r.tables.system (vec_capacity r.caused) (vec_capacity r.lines)
        × HasPlaces r.tables.system r.contexts
        × Entered B.has_entry r.body r.tables.system
        × Fitting B.has_entry B.is_context r.body r.tables.system r.contexts };
}

/// Adds lines to others.
fn append(lines: &mut Vec<Line>, more: &Vec<Line>)
    requires room { vec_len lines.old + vec_len more.now ≤ vec_capacity lines.old }
    ensures items { lines.new.items ≡ lines.old.items ++ more.now.items }
    ensures capacity { vec_capacity lines.new ≡ vec_capacity lines.old }
{
    for line in more {
        lines.push_reserved(*line);
    }
}

impl<B: Body + Drop> Runner<B> {
    /// The bodies on a system whose objects have just been made. `AllocError` if memory runs out: nothing else takes
    /// any.
    pub fn new(alloc: Global, body: B, sys: &System, n: u64) -> Result<Self, AllocError>
        requires entries { Entered B.has_entry body (tables_of sys.now) }
        requires range { IsInRange (tables_of sys.now) }
        ensures { IfOk result (λ r. r
            ≡ record {
              body = body;
              bound = n;
              system = tables_of sys.now;
              world = record {
                state = created_state (tables_of sys.now);
                contexts = first_contexts (tables_of sys.now) (B.meaning body);
              };
              caused = [];
              lines = [];
            }) }
    {
        let caused = Vec::with_capacity(alloc, 510)?;
        let lines = Vec::with_capacity(alloc, 519)?;
        let contexts = BodyContexts::new(alloc, &body, sys)?;
        let tables = KernelState::new(alloc, sys)?;
        Ok(Runner {
            body,
            bound: n,
            tables,
            contexts,
            caused,
            lines,
        })
    }
}

impl<B: Body> Runner<B> {
    /// The lines of the last event that was done, or of setup: at most 519.
    pub fn lines(&self) -> &[Line]
        ensures lines { result.now ≡ self.now.lines }
        ensures few { length self.now.lines ≤ 519 }
    {
        self.lines.as_slice()
    }

    /// The tables of the system and the state of the kernel.
    pub fn tables(&self) -> &KernelState
        ensures system { result.now.system ≡ self.now.system }
        ensures state { result.now.state ≡ self.now.world.state }
    {
        &self.tables
    }

    /// What is shown of a task.
    pub fn state(&self, t: u8) -> TaskState
        requires { t < length self.now.system.tasks }
        ensures { result ≡ task_state self.now.world.state t }
    {
        let x = self.tables.task(t);
        let runs = is_same_task(self.tables.processor(x.processor).run, Some(t));
        TaskState {
            word: StateWord::of(x.phase, x.suspended, runs),
            processor: x.processor,
            priority: x.priority,
        }
    }

    /// A law: the state has a block for each task and a flag for each cyclic handler, and the contexts have a place for
    /// the handler of each processor.
    pub fn world_is_whole(&self)
        ensures { IsWorldOf self.now.system self.now.world }
    {
        let _ = self.tables.task_count();
        let _ = self.tables.cyclic_count();
        let _ = self.tables.processor_count();
    }

    /// The clock begins again at 0, as by `KernelState::restart_clock`.
    pub fn restart_clock(&mut self)
        ensures state { self.new ≡ record self.old { world = clock_restarted_in self.old.world } }
        ensures deadlines { NoneBefore (self.old.world.state.clock + 1)
            (map (λ x. x.deadline) self.old.world.state.tasks) }
        ensures due_times { NoneBefore (self.old.world.state.clock + 1) self.old.world.state.due_times }
    {
        self.tables.restart_clock();
    }

    /// The actor of processor p, with this stamp: None if it has no actor, or one that awaits a reply or of which
    /// nothing is kept.
    #[tactic(auto, using(fmp_contexts::proofs::ContextLemmas::entry_of, fmp_contexts::proofs::ContextLemmas::goes_in))]
    #[inline(always)]
    pub fn actor(&self, p: u8, stamp: u32) -> Option<Actor<B::Ctx>>
        ensures value { result ≡ with_stamp stamp (actor_at self.now.system self.now.world p) }
        ensures entry { IfSome result (λ a. B.has_entry self.now.body a.entry) }
        ensures context { IfSome result (λ a. B.is_context self.now.body a.entry a.context) }
    {
        let who = actor_on(&self.tables, p)?;
        let context = self.contexts.going(p, who)?;
        let entry = entry_of(&self.tables, &self.contexts, p, who);
        Some(Actor {
            entry,
            context: *context,
            stamp,
        })
    }

    /// The stamp of the actor of processor p, with this stamp: None where `actor` gives none.
    #[tactic(auto, using(crate::proofs::ActorNone::stamp_goes))]
    pub fn stamp(&self, p: u8, stamp: u32) -> Option<u32>
        ensures { result ≡ stamp_of (with_stamp stamp (actor_at self.now.system self.now.world p)) }
    {
        let who = actor_on(&self.tables, p)?;
        if self.contexts.goes(p, who) {
            Some(stamp)
        } else {
            None
        }
    }

    /// Ends an event or setup, of which the first lines are there: those of what it caused follow, all processors
    /// settle, and the contexts follow the lines.
    fn conclude(&mut self)
        requires few { length self.old.lines ≤ 1 }
        ensures { Reacts self.old self.new effect.Done
            (Did (finished self.old.system (B.meaning self.old.body) self.old.world.contexts self.old.lines
            (progress_of self.old))) }
    {
        append(&mut self.lines, &self.caused);
        settle(&mut self.tables, &mut self.lines);
        carry_out(&self.body, &self.tables, &mut self.contexts, &self.lines);
    }

    /// Ends an event: its own line, the lines of what it caused, and settling.
    #[inline(always)]
    pub fn finish(&mut self, own: Line)
        ensures { Reacts self.old self.new effect.Done
            (Did (finished self.old.system (B.meaning self.old.body) self.old.world.contexts (own ∷ [])
            (progress_of self.old))) }
    {
        self.lines.clear();
        self.lines.push_reserved(own);
        self.conclude();
    }

    /// Whether an event has caused nothing, and the single processor has nothing to settle.
    #[inline(always)]
    pub fn is_alone(&self) -> bool
        ensures alone { result ≡ true → self.now.caused ≡ [] }
        ensures single { result ≡ true → length self.now.world.state.processors ≡ 1 }
        ensures none { result ≡ true → pending_handler self.now.system self.now.world.state 0 ≡ None }
        ensures same { result ≡ true
            → runs_same (processor_at self.now.world.state 0).run (top self.now.world.state 0) ≡ true }
    {
        self.caused.is_empty() && self.tables.processor_count() == 1 && !self.tables.is_marked(0)
    }

    /// Setup, where all objects have just been made: the tasks with TA_ACT start, in order of number, and all
    /// processors settle (uITRON 4.0, section 3.7).
    pub fn set_up(&mut self)
        requires state { self.old.world.state ≡ created_state self.old.system }
        requires contexts { self.old.world.contexts ≡ first_contexts self.old.system (B.meaning self.old.body) }
        requires caused { self.old.caused ≡ [] }
        requires lines { self.old.lines ≡ [] }
        ensures after { done_of self.new ≡ setup self.old.system (B.meaning self.old.body) }
        ensures bodies { SameBodies self.old self.new }
        ensures clock { self.new.world.state.clock ≡ 0 }
    {
        start_active(&mut self.tables, &mut self.caused);
        self.conclude();
    }
}
