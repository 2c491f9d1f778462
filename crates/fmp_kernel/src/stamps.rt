//! The stamps of the processors: how many events ran a processor or left it another actor.
ghost use Rattle.std.specs.Prelude.{◌≡◌, ◌+◌, ◌<◌, ◌≤◌, ◌^◌, ℕ, [], Some, length, get_or, replicate, IfOk};
ghost use Rattle.fmp_kernel.specs.Stamps.{AreCounted, AreRaised, behind_own, given_by as given_by_line, raised};
ghost use Rattle.fmp_kernel.specs.Stamps.{raised_unless};
ghost use Rattle.fmp_worlds.specs.Stamps.{run_place as place_of_event};

use crate::settling::is_same_task;
use fmp_base::{Event, Line};
use std::alloc::{AllocError, Global};
use std::marker::Model;

mod copying;

/// The stamps of the processors, by their places.
#[derive(Drop)]
pub struct Stamps {
    counts: Vec<u32>,
}

impl Model for Stamps {
    ghost use Rattle.std.specs.Prelude.{ℕ, List};

    ghost Value = { List ℕ };

    ghost view = { λ a. a.counts.items };
}

/// The processor that an event runs, if it runs one.
pub fn run_place(e: Event) -> Option<u8>
    ensures { result ≡ place_of_event e }
{
    match e {
        Event::Run(0) => None,
        Event::Run(number) => Some(number - 1),
        Event::Tick => None,
        Event::Int(_) => None,
    }
}

/// The processor that a line of settling gives another actor, if any.
fn given_by(line: &Line) -> Option<u8>
    ensures { result ≡ given_by_line line.now }
{
    match line {
        Line::Runs { processor, .. } => Some(*processor),
        Line::Begins { processor, .. } => Some(*processor),
        _ => None,
    }
}

/// All counts are 0 again.
fn clear(counts: &mut [u32])
    ensures { counts.new ≡ replicate (length counts.old) 0 }
{
    for p in 0..counts.len() {
        counts[p] = 0;
    }
}

impl Stamps {
    /// Stamps 0 of processors. `AllocError` if memory runs out.
    pub fn new(alloc: Global, processors: u8) -> Result<Stamps, AllocError>
        ensures { IfOk result (λ s. s ≡ replicate processors 0) }
    {
        let counts = vec![in alloc; 0u32; processors as usize]?;
        Ok(Stamps { counts })
    }

    /// All stamps are 0 again.
    pub fn restart(&mut self)
        ensures { self.new ≡ replicate (length self.old) 0 }
    {
        clear(self.counts.as_mut_slice());
    }

    /// The stamp of processor p, or 0 if there is none.
    pub fn stamp(&self, p: u8) -> u32
        ensures { result ≡ get_or self.now p 0 }
    {
        match self.counts.get(p as usize) {
            Some(stamp) => *stamp,
            None => 0,
        }
    }

    /// Processor p, if there is one, is counted once more.
    fn raise(&mut self, p: u8)
        requires { get_or self.old p 0 < 2 ^ 31 + 2 ^ 10 }
        ensures { self.new ≡ raised self.old (Some p) }
    {
        if (p as usize) < self.counts.len() {
            self.counts[p as usize] += 1;
        }
    }

    /// The processor that a line of settling gives another actor, if any, is counted once more, unless the event ran
    /// it.
    #[inline(always)]
    fn count_line(&mut self, line: &Line, ran: Option<u8>)
        requires { (p : ℕ) → get_or self.old p 0 < 2 ^ 31 + 2 ^ 10 }
        ensures { self.new ≡ raised_unless ran self.old (given_by_line line.now) }
    {
        if let Some(p) = given_by(line) {
            if !is_same_task(ran, Some(p)) {
                self.raise(p);
            }
        }
    }

    /// The processor that an event ran, if any, is counted once more.
    #[inline(always)]
    fn count_run(&mut self, ran: Option<u8>)
        requires { (p : ℕ) → get_or self.old p 0 < 2 ^ 31 }
        ensures { self.new ≡ raised self.old ran }
    {
        if let Some(p) = ran {
            self.raise(p);
        }
    }

    /// Counts an event that kept a place, which gives no processor another actor, for the one that it ran.
    #[tactic(auto, using(crate::proofs::CountLemmas::counted_run))]
    pub fn count_kept(&mut self, ran: Option<u8>)
        requires { (p : ℕ) → get_or self.old p 0 < 2 ^ 31 }
        ensures { AreCounted self.old self.new ran [] }
    {
        self.count_run(ran);
    }

    /// Counts the lines of settling for the processors that they give another actor, unless the event ran them.
    #[inline(always)]
    fn count_lines(&mut self, lines: &[Line], ran: Option<u8>)
        requires few { (p : ℕ) → get_or self.old p 0 ≤ 2 ^ 31 }
        requires short { length lines.now ≤ 519 }
        ensures { AreRaised self.old self.new ran lines.now }
    {
        for line in lines {
            self.count_line(line, ran);
        }
    }

    /// Counts a done event of these lines for the processor that it ran, if any, and for each that a line gives another
    /// actor.
    #[inline(always)]
    pub fn count(&mut self, lines: &[Line], ran: Option<u8>)
        requires few { (p : ℕ) → get_or self.old p 0 < 2 ^ 31 }
        requires short { length lines.now ≤ 519 }
        ensures { AreCounted self.old self.new ran (behind_own lines.now) }
    {
        self.count_run(ran);
        if let Some((_, rest)) = lines.split_first() {
            self.count_lines(rest, ran);
        }
    }
}
