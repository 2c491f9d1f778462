//! What a drive tries next.
ghost use Rattle.std.specs.Prelude.{◌≡◌, ◌<◌, ◌≤◌, ℕ, IfOk, None, false, get_or, length, max};
ghost use Rattle.std.specs.List.{list_any, range_with_len};
ghost use Rattle.fmp_drive.specs.declared.plan.Wish.TheVariants as kind;
ghost use Rattle.fmp_drive.specs.Driving.{turn_after};
ghost use Rattle.fmp_drive.specs.Plans as spec;
ghost use Rattle.fmp_drive.specs.Plans.{IsFirstPlan, waits_after_all};

use crate::limits::note_waits;
use fmp_base::{Event, Line, StateWord, System};
use fmp_kernel::{Body, Kernel};
use rand_core::SeedableRng;
use rand_core::utils::NextWord;
use rand_pcg::Pcg32;
use std::alloc::{AllocError, Global};

/// What is tried first.
#[derive(Clone, Copy)]
pub enum Wish {
    /// The processors, from this number on.
    Run(u8),
    /// The clock.
    Tick,
    /// The interrupts, from this number on.
    Interrupt(u8),
}

/// Whether a task in this state waits.
fn is_waiting(word: StateWord) -> bool
    ensures { result ≡ spec.is_waiting word }
{
    matches!(word, StateWord::Waiting | StateWord::WaitingSuspended)
}

/// Whether the wait that the task at a place began last ends by the clock.
fn is_ending(ending: &[bool], task: usize) -> bool
    ensures { result ≡ get_or ending.now task false }
{
    match ending.get(task) {
        Some(ends) => *ends,
        None => false,
    }
}

impl Wish {
    /// The processor that is tried first.
    pub(crate) fn first(self) -> u8
        ensures least { 1 ≤ result }
        ensures run { (n : ℕ) → self ≡ kind.Run n → result ≡ max n 1 }
    {
        match self {
            Wish::Run(first) => first.max(1),
            _ => 1,
        }
    }
}

/// What a drive tries next: the processors in turn, or at random with the clock and the interrupts between. It knows
/// which waits end by the clock.
#[derive(Drop)]
pub struct Plan {
    /// The number of the processor that is next.
    turn: u8,
    random: Option<Pcg32>,
    /// Whether interrupts come at random.
    stirred: bool,
    /// For each task, whether the wait that it began last ends by the clock.
    ending: Vec<bool>,
}

impl Plan {
    /// The processors in turn; with a seed at random, and the clock and the interrupts between. `AllocError` if memory
    /// runs out.
    pub fn new(alloc: Global, sys: &System, seed: Option<u64>) -> Result<Plan, AllocError>
        ensures { IfOk result (IsFirstPlan (length sys.now.tasks.items) seed) }
    {
        let random = match seed {
            Some(seed) => Some(Pcg32::seed_from_u64(seed)),
            None => None,
        };
        Ok(Plan {
            turn: 1,
            random,
            stirred: seed.is_some() && !sys.interrupts.is_empty(),
            ending: vec![in alloc; false; sys.tasks.len()]?,
        })
    }

    /// What is tried first now.
    pub(crate) fn wish(&mut self) -> Wish
        ensures run { self.old.random ≡ None → result ≡ kind.Run self.old.turn }
        ensures random { self.old.random ≡ None → self.new.random ≡ None }
        ensures turn { self.new.turn ≡ self.old.turn }
        ensures stirred { self.new.stirred ≡ self.old.stirred }
        ensures ending { self.new.ending.items ≡ self.old.ending.items }
    {
        let Some(random) = &mut self.random else {
            return Wish::Run(self.turn);
        };
        let word = random.next_word();
        let number = (word / 8 % 32) as u8;
        match word % 8 {
            0 => Wish::Tick,
            1 => Wish::Interrupt(1 + number),
            _ => Wish::Run(1 + number % 8),
        }
    }

    /// Whether the clock can change something: a task waits with a time limit, a cyclic handler is started, or
    /// interrupts come at random, and may start one.
    pub(crate) fn is_due<B: Body>(&self, kernel: &Kernel<B>, tasks: u8) -> bool
        requires { tasks ≤ length kernel.now.system.tasks }
        ensures { result ≡ spec.is_due self.now kernel.now.world.state tasks }
    {
        self.stirred || kernel.tables().has_started_cyclic() || self.any_is_timed(kernel, tasks)
    }

    /// Whether a task waits, and its wait ends by the clock.
    fn is_timed<B: Body>(&self, kernel: &Kernel<B>, task: u8) -> bool
        requires { task < length kernel.now.system.tasks }
        ensures { result ≡ spec.is_timed self.now.ending.items kernel.now.world.state task }
    {
        is_waiting(kernel.state(task).word) && is_ending(&self.ending, usize::from(task))
    }

    /// Whether one of this many tasks waits for the clock.
    fn any_is_timed<B: Body>(&self, kernel: &Kernel<B>, tasks: u8) -> bool
        requires { tasks ≤ length kernel.now.system.tasks }
        ensures { result ≡ list_any (spec.is_timed self.now.ending.items kernel.now.world.state)
            (range_with_len 0 tasks) }
    {
        for task in 0..tasks {
            if self.is_timed(kernel, task) {
                return true;
            }
        }
        false
    }

    /// An event has been taken, and these are the lines of the last one that was done: the processor after it is the
    /// next.
    pub(crate) fn done(&mut self, e: Event, lines: &[Line], processors: u8)
        requires { 1 ≤ processors }
        ensures turn { self.new.turn ≡ turn_after self.old.turn processors e }
        ensures random { self.new.random ≡ self.old.random }
        ensures stirred { self.new.stirred ≡ self.old.stirred }
        ensures ending { self.new.ending.items ≡ waits_after_all self.old.ending.items lines.now }
    {
        if let Event::Run(number) = e {
            self.turn = number % processors + 1;
        }
        note_waits(lines, self.ending.as_mut_slice());
    }
}
