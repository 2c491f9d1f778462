//! The events between the states of a search, and who acted by them. They tell where to look for a task that can never
//! go on; no claim rests on them.
ghost use Rattle.std.specs.Prelude.{◌≡◌, [], false, true};

use crate::actors::ActorBits;
use crate::spreading::spread;
use crate::targets::{EnteredStates, TargetList, at, low_word};
use fmp_base::{Call, Caller, Er, Line, Reply};
use fmp_visited::{RowEntry, Seen};
use std::alloc::{AllocError, Global};

/// The events that did something in the states that were examined.
#[derive(Drop)]
pub struct Edges {
    /// The states to which they led.
    targets: TargetList,
    /// Which tasks act by them. The last bit of a state is set by `spread`.
    actors: ActorBits,
    /// The states that were examined and are deadlocks, or in which an event was left out that may not come, though it
    /// does something.
    ends: Vec<u32>,
    /// The states that were examined and can go on only by an interrupt.
    waiting: Vec<u32>,
    /// How many tasks there are.
    tasks: usize,
    /// Whether some are missing, since memory ran out.
    lost: bool,
}

/// The task that a call terminates, which is answered so.
fn terminated(call: Call, reply: Option<Reply>) -> Option<u8> {
    match (call, reply) {
        (Call::TerTsk { task }, Some(Reply { code: Er::Ok, .. })) if task >= 1 && task <= 255 => {
            Some((task - 1) as u8)
        }
        _ => None,
    }
}

impl Edges {
    /// No state was examined, in a system of this many tasks.
    pub fn new(alloc: Global, tasks: usize) -> Edges
        ensures targets { result.targets.count ≡ 0 }
        ensures ends { result.ends.items ≡ [] }
        ensures waiting { result.waiting.items ≡ [] }
        ensures tasks { result.tasks ≡ tasks }
        ensures lost { result.lost ≡ false }
    {
        Edges {
            targets: TargetList::new(alloc),
            actors: ActorBits::new(alloc, tasks),
            ends: Vec::new(alloc),
            waiting: Vec::new(alloc),
            tasks,
            lost: false,
        }
    }

    /// Whether some of the events are missing, since memory ran out.
    pub fn is_lost(&self) -> bool
        ensures { result ≡ self.now.lost }
    {
        self.lost
    }

    /// How many states were examined, if none of their events is missing.
    pub fn len(&self) -> u32
        ensures { result ≡ self.now.targets.count }
    {
        self.targets.len()
    }

    /// Gives up: everything is dropped, and nothing more is noted.
    pub fn give_up(&mut self, alloc: Global)
        ensures targets { self.new.targets.count ≡ 0 }
        ensures ends { self.new.ends.items ≡ [] }
        ensures waiting { self.new.waiting.items ≡ [] }
        ensures tasks { self.new.tasks ≡ self.old.tasks }
        ensures lost { self.new.lost ≡ true }
    {
        self.lost = true;
        self.targets = TargetList::new(alloc);
        self.actors.clear(alloc);
        self.ends = Vec::new(alloc);
        self.waiting = Vec::new(alloc);
    }

    /// Adds a state with no event, where this many states are kept.
    fn push_state(&mut self, kept: usize) -> Result<(), AllocError> {
        self.targets.begin(low_word(kept))?;
        self.actors.begin()
    }

    /// The next state is examined, where this many are kept.
    pub fn begin_state(&mut self, alloc: Global, kept: usize) {
        if !self.lost && self.push_state(kept).is_err() {
            self.give_up(alloc);
        }
    }

    /// An event leads from the state that is examined to the state of this entry of the table.
    pub fn note_entry(&mut self, alloc: Global, entry: RowEntry) {
        if let RowEntry::Known(state) = entry
            && !self.lost
            && self.targets.push(state).is_err()
        {
            self.give_up(alloc);
        }
    }

    /// A task acts by an event of the state that is examined, or goes on forever in it.
    pub fn note_act(&mut self, t: u8) {
        self.actors.set(self.targets.last(), usize::from(t));
    }

    /// A line is told by an event of the state that is examined.
    fn note_line(&mut self, line: &Line) {
        match line {
            Line::Call {
                caller,
                call,
                reply,
                ..
            } => {
                if let Caller::Task(t) = caller {
                    self.note_act(*t);
                }
                if let Some(t) = terminated(*call, *reply) {
                    self.note_act(t);
                }
            }
            Line::End {
                caller: Caller::Task(t),
                ..
            }
            | Line::Fault {
                caller: Caller::Task(t),
                ..
            }
            | Line::Gets { task: t, .. } => self.note_act(*t),
            _ => {}
        }
    }

    /// These lines are told by an event of the state that is examined.
    pub fn note_lines(&mut self, lines: &[Line]) {
        for line in lines {
            self.note_line(line);
        }
    }

    /// The state that is examined is a deadlock, or an event is left out in it: no task is reported as stuck in a state
    /// from which this one can be reached.
    pub fn note_end(&mut self, alloc: Global) {
        let state = self.targets.last();
        if self.lost || self.ends.last() == Some(&state) {
            return;
        }
        if self.ends.push(state).is_err() {
            self.give_up(alloc);
        }
    }

    /// The state that is examined can go on only by an interrupt, though a task that may not rest waits.
    pub fn note_waiting(&mut self, alloc: Global) {
        let state = self.targets.last();
        if !self.lost && self.waiting.push(state).is_err() {
            self.give_up(alloc);
        }
    }

    /// Adds the events of a slice.
    fn push_all(&mut self, other: &Edges, states: EnteredStates<'_>) -> Result<(), AllocError> {
        self.targets.join(&other.targets, states)?;
        self.actors.join(&other.actors)?;
        for state in &other.ends {
            self.ends.push(at(states.places, *state))?;
        }
        for state in &other.waiting {
            self.waiting.push(at(states.places, *state))?;
        }
        Ok(())
    }

    /// Adds the events of a slice. If some of them are missing, all is forgotten.
    pub fn join(&mut self, alloc: Global, other: &Edges, states: EnteredStates<'_>) {
        if self.lost {
            return;
        }
        if other.lost || self.push_all(other, states).is_err() {
            self.give_up(alloc);
        }
    }

    /// The states that can go on only by an interrupt, though a task that may not rest waits.
    pub fn waiting(&self) -> &[u32]
        ensures { result.now ≡ self.now.waiting.items }
    {
        &self.waiting
    }

    /// Notes of each state, where these were seen, what can be reached from it. `AllocError` if some of the events are
    /// missing, or memory runs out.
    pub fn spread(&mut self, alloc: Global, seen: &Seen) -> Result<(), AllocError> {
        if self.lost {
            return Err(AllocError);
        }
        for state in &self.ends {
            self.actors.set(*state, self.tasks);
        }
        spread(alloc, &self.targets, seen, &mut self.actors, self.tasks)
    }

    /// A bit for each task: whether there is a state from which it acts in no state, and from which no end can be
    /// reached, as `spread` noted. `AllocError` if memory runs out.
    pub fn lacking(&self, alloc: Global) -> Result<Vec<u8>, AllocError> {
        let mut lacking = Vec::new(alloc);
        for byte in 0..self.actors.width() {
            lacking.push(self.actors.lacking(self.len(), byte, self.tasks))?;
        }
        Ok(lacking)
    }

    /// Whether a task acts in a state, or in one that can be reached from it, as `spread` noted.
    pub fn acts_from(&self, state: u32, t: u8) -> bool {
        self.actors.has(state, usize::from(t))
    }

    /// Whether a deadlock can be reached from a state, or one in which an event was left out, as `spread` noted: this
    /// may be missing where each task acts in the state or in one that can be reached from it.
    pub fn ends_from(&self, state: u32) -> bool {
        self.actors.has(state, self.tasks)
    }
}
