//! What has happened so far in a host whose threads wait for one another.
use crate::perform::INTERRUPTS_MAX;
use fmp_engine::EventCounts;
use std::fmt;
use std::time::Instant;

/// What came of a host.
#[derive(Clone, Copy, PartialEq, Eq)]
pub struct Arrivals {
    /// How many events of each kind are in the journal.
    pub events: EventCounts,
    /// How many lines of standard input were read.
    pub lines: u64,
}

impl fmt::Display for Arrivals {
    ghost use Rattle.std.specs.Prelude.{Some};
    ghost use Rattle.fmp.specs.Messages.{arrivals_line};

    ghost output = { λ arrivals. Some (arrivals_line arrivals) };

    /// What came, in one line.
    fn fmt<W: fmt::Write>(&self, f: &mut fmt::Formatter<W>) -> fmt::Result {
        let Arrivals { events, lines } = self;
        let EventCounts {
            runs,
            ticks,
            interrupts,
        } = events;
        write!(
            f,
            "ticks {ticks}, interrupts {interrupts}, runs {runs}, lines {lines}\n"
        )
    }
}

/// What has happened so far.
#[derive(Drop)]
pub struct Progress {
    /// How many lines of standard input were read.
    lines: u64,
    /// How many events are in the journal.
    moment: u64,
    /// How many threads there are.
    threads: usize,
    /// How many of them have done their parts.
    ended: usize,
    /// How many wait for the next event.
    waiting: usize,
    /// Whether no more events come, since all threads wait or have done their parts, or one was refused.
    over: bool,
    /// When the threads began, where the clock can be read.
    began: Option<Instant>,
    /// How many lines raise the interrupt: at most `INTERRUPTS_MAX`, and those that come later do nothing.
    raised: u32,
    /// For how many of them it has come.
    taken: u32,
    /// Whether more lines may come.
    input_open: bool,
}

impl Progress {
    /// Nothing has happened, and lines may come or not.
    pub fn new(input_open: bool) -> Progress {
        Progress {
            lines: 0,
            moment: 0,
            threads: 0,
            ended: 0,
            waiting: 0,
            over: false,
            began: None,
            raised: 0,
            taken: 0,
            input_open,
        }
    }

    /// How many lines of standard input were read.
    pub fn lines(&self) -> u64 {
        self.lines
    }

    /// How many events are in the journal.
    pub fn moment(&self) -> u64 {
        self.moment
    }

    /// When the threads began, where the clock can be read.
    pub fn began(&self) -> Option<Instant> {
        self.began
    }

    /// Whether no more events come.
    pub fn is_over(&self) -> bool {
        self.over
    }

    /// Whether nothing has happened since this moment, and something may.
    pub fn is_at(&self, moment: u64) -> bool {
        self.moment == moment && !self.over
    }

    /// Whether a line has come that is not yet taken, or none will come.
    pub fn has_line(&self) -> bool {
        self.taken < self.raised || !self.input_open
    }

    /// That many threads begin.
    pub fn begin(&mut self, threads: usize, now: Option<Instant>) {
        self.threads = threads;
        self.began = now;
    }

    /// It is over where each thread waits or has done its part, and each line that raises the interrupt is taken.
    fn judge(&mut self) {
        let still = self.waiting.saturating_add(self.ended);
        if still >= self.threads && self.taken >= self.raised {
            self.over = true;
        }
    }

    /// It is over.
    pub fn end(&mut self) {
        self.over = true;
    }

    /// A thread has done its part.
    pub fn end_thread(&mut self) {
        self.ended = self.ended.saturating_add(1);
        self.judge();
    }

    /// A thread waits for the next event.
    pub fn wait(&mut self) {
        self.waiting = self.waiting.saturating_add(1);
        self.judge();
    }

    /// A thread no longer waits, with no event.
    pub fn go_on(&mut self) {
        self.waiting = self.waiting.saturating_sub(1);
    }

    /// An event is in the journal: all who wait look again.
    pub fn count_event(&mut self) {
        self.moment = self.moment.wrapping_add(1);
        self.waiting = 0;
    }

    /// A line has come that raises the interrupt, or not.
    pub fn take_line(&mut self, raises: bool) {
        self.lines = self.lines.saturating_add(1);
        if raises && self.raised < INTERRUPTS_MAX {
            self.raised = self.raised.saturating_add(1);
        }
    }

    /// No more lines come.
    pub fn end_input(&mut self) {
        self.input_open = false;
    }

    /// Whether the interrupt comes now or no more, where it is known.
    pub fn next_interrupt(&mut self) -> Option<bool> {
        if self.over {
            return Some(false);
        }
        if self.taken < self.raised {
            self.taken = self.taken.saturating_add(1);
            return Some(true);
        }
        if self.input_open { None } else { Some(false) }
    }
}
