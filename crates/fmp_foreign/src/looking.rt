//! What is read of a hosted system after an event.
ghost use Rattle.std.specs.Prelude.{◌≡◌, ◌≢◌, ◌<◌, ◌≤◌, ◌↔◌, IsTrue, MatchOption, None, get_or, length};
ghost use Rattle.std.specs.List.{list_any};
ghost use Rattle.fmp_base.specs.Runs.{task_state};
ghost use Rattle.fmp_foreign.specs.Looking.{acting_on, bodies_of, caller_at, callers_in, is_begin, is_end, is_start};

use crate::foreign::LastTold;
use crate::hosted::HostedSystem;
use fmp_base::{Caller, Held, Line, TaskState};
use fmp_kernel::actors::actor_on;

/// Who acts on a processor, and what it was told last: the reply to its last call, or at its start its extended
/// information.
#[derive(Clone, Copy)]
pub struct Acting {
    pub caller: Caller,
    pub told: LastTold,
}

/// What an event did to bodies.
#[derive(Clone, Copy, PartialEq, Eq)]
pub struct Bodies {
    /// A task started.
    pub started: bool,
    /// A handler began.
    pub began: bool,
    /// A task or a handler ended, or stopped with a fault.
    pub ended: bool,
}

/// A task started.
fn has_started(lines: &[Line]) -> bool
    ensures { result ≡ list_any is_start lines.now }
{
    lines.iter().any(|line| is_start(line))
}

/// A handler began.
fn has_begun(lines: &[Line]) -> bool
    ensures { result ≡ list_any is_begin lines.now }
{
    lines.iter().any(|line| is_begin(line))
}

/// A body ended, or stopped with a fault.
fn has_ended(lines: &[Line]) -> bool
    ensures { result ≡ list_any is_end lines.now }
{
    lines.iter().any(|line| is_end(line))
}

fn is_start(line: &Line) -> bool
    ensures { result ≡ is_start line.now }
{
    matches!(line, Line::Starts { .. })
}

fn is_begin(line: &Line) -> bool
    ensures { result ≡ is_begin line.now }
{
    matches!(line, Line::Begins { .. })
}

fn is_end(line: &Line) -> bool
    ensures { result ≡ is_end line.now }
{
    matches!(line, Line::End { .. } | Line::Fault { .. })
}

impl HostedSystem {
    /// Who acts on the processor of this number, from 1, and what it was told last. None where there is no such
    /// processor, or it has no actor.
    pub fn acting(&self, p: u8) -> Option<Acting>
        ensures { result ≡ acting_on self.now.kernel p }
    {
        if p == 0 {
            return None;
        }
        let caller = actor_on(self.kernel.tables(), p - 1)?;
        let held = match caller {
            Caller::Task(t) => self.kernel.held(t)?,
            Caller::Handler(_) => self.kernel.held_handler(p - 1)?.context,
        };
        match held {
            Held::Goes(told) => Some(Acting { caller, told }),
            Held::Awaits(_) => None,
        }
    }

    /// The actors of the processors, by their places from 0; none where there is no processor.
    pub fn callers(&self) -> [Option<Caller>; 8]
        ensures { result ≡ callers_in self.now.kernel.world.state }
    {
        let tables = self.kernel.tables();
        [
            actor_on(tables, 0),
            actor_on(tables, 1),
            actor_on(tables, 2),
            actor_on(tables, 3),
            actor_on(tables, 4),
            actor_on(tables, 5),
            actor_on(tables, 6),
            actor_on(tables, 7),
        ]
    }

    /// Whether the processor at this place, from 0, has another actor than before.
    pub fn has_moved(&self, before: &[Option<Caller>; 8], p: u8) -> bool
        requires { p < 8 }
        ensures { IsTrue result ↔ caller_at self.now.kernel.world.state p ≢ get_or before.now p None }
    {
        actor_on(self.kernel.tables(), p) != before[p as usize]
    }

    /// What the last event that was done, or setup, did to bodies.
    pub fn bodies(&self) -> Bodies
        ensures { result ≡ bodies_of self.now.kernel.lines }
    {
        let lines = self.kernel.lines();
        Bodies {
            started: has_started(lines),
            began: has_begun(lines),
            ended: has_ended(lines),
        }
    }

    /// What is shown of the task at this place, from 0: its state, its processor and its priority. None where there is
    /// no such task.
    pub fn state(&self, t: u8) -> Option<TaskState>
        ensures { MatchOption result (length self.now.kernel.system.tasks ≤ t)
            (λ state. (t < length self.now.kernel.system.tasks) × (state ≡ task_state self.now.kernel.world.state t)) }
    {
        if t as usize >= self.kernel.tables().task_count() {
            return None;
        }
        Some(self.kernel.state(t))
    }
}
