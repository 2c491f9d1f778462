//! The processors: what each runs, CPU locks, disabled dispatching and spin locks.
ghost use Rattle.std.specs.Prelude.{◌≡◌, ◌<◌, ℕ, length, replicate, slice_set, IfOk};
ghost use Rattle.fmp_base.specs.ProcessorCalls.{loc_cpu, unl_cpu, dispatch_set, is_held as is_held_in};
ghost use Rattle.fmp_base.specs.ProcessorCalls.{is_cpu_locked as is_locked, is_spin as is_lock, spin_lock_taken};
ghost use Rattle.fmp_base.specs.Outcomes.{code};
ghost use Rattle.fmp_base.specs.States.{KernelState, idle as idle_processor};
ghost use Rattle.fmp_spin.specs.Processors.{with_processors, answered_in, processor_in, tried_by, released_by};

use fmp_base::{Answer, Er, Lock, Processor, Reply};
use std::alloc::{AllocError, Global};
use std::marker::Model;

mod copying;

/// The processors of a system, by their places.
#[derive(Drop)]
pub struct Processors {
    table: Vec<Processor>,
}

impl Model for Processors {
    ghost use Rattle.std.specs.Prelude.{List};
    ghost use Rattle.fmp_base.specs.declared.states.Processor.{Processor};

    ghost Value = { List Processor };

    ghost view = { λ a. a.table.items };
}

/// A processor on which nothing runs and that nothing holds.
fn idle() -> Processor
    ensures { result ≡ idle_processor }
{
    Processor {
        run: None,
        lock: Lock::Free,
        dispatch_disabled: false,
        handler: None,
    }
}

/// The answer that is only a code.
fn replied(e: Er) -> Answer
    ensures { result ≡ Answer.Replies (code e) }
{
    Answer::Replies(Reply {
        code: e,
        value: None,
    })
}

/// Whether this lock is spin lock l.
fn is_spin(l: u8, lock: Lock) -> bool
    ensures { result ≡ is_lock l lock }
{
    match lock {
        Lock::Spin(held) => held == l,
        Lock::Free | Lock::Cpu => false,
    }
}

/// Whether some of these processors holds spin lock l.
fn holds_any(table: &[Processor], l: u8) -> bool
    ensures { result ≡ is_held_in l table.now }
{
    for x in table {
        if is_spin(l, x.lock) {
            return true;
        }
    }
    false
}

impl Processors {
    /// This many processors, all idle. Running out of memory is the only error.
    pub fn new(alloc: Global, count: u8) -> Result<Self, AllocError>
        ensures { IfOk result (λ xs. xs ≡ replicate count idle_processor) }
    {
        let mut table = Vec::with_capacity(alloc, count as usize)?;
        for _ in 0..count {
            table.push_reserved(idle());
        }
        Ok(Processors { table })
    }

    /// How many processors there are.
    pub fn count(&self) -> usize
        ensures { result ≡ length self.now }
    {
        self.table.len()
    }

    /// A processor, or an idle one if there is none.
    pub fn processor(&self, p: u8) -> Processor
        ensures { result ≡ processor_in self.now p }
    {
        match self.table.get(p as usize) {
            Some(x) => *x,
            None => idle(),
        }
    }

    /// Changes a processor, if there is one.
    pub fn set(&mut self, p: u8, x: Processor)
        ensures { self.new ≡ slice_set self.old p x }
    {
        if (p as usize) < self.table.len() {
            self.table[p as usize] = x;
        }
    }

    /// Whether the CPU of a processor is locked, by loc_cpu or by a spin lock.
    pub fn is_cpu_locked(&self, p: u8) -> bool
        ensures { result ≡ is_locked (processor_in self.now p) }
    {
        !matches!(self.processor(p).lock, Lock::Free)
    }

    /// `loc_cpu` on processor p: a free CPU is locked, a locked one stays as it is.
    #[tactic(auto, using(crate::proofs::RunLemmas::run_kept))]
    pub fn lock_cpu(&mut self, p: u8) -> Answer
        ensures outcome { (s : KernelState)
            → loc_cpu (with_processors s self.old) p ≡ answered_in (with_processors s self.new) result }
        ensures count { length self.new ≡ length self.old }
        ensures runs { (q : ℕ) → (processor_in self.new q).run ≡ (processor_in self.old q).run }
    {
        let x = self.processor(p);
        if matches!(x.lock, Lock::Free) {
            self.set(
                p,
                Processor {
                    lock: Lock::Cpu,
                    ..x
                },
            );
        }
        replied(Er::Ok)
    }

    /// `unl_cpu` on processor p: E_CTX while it holds a spin lock, and then nothing changes; else its CPU is free.
    #[tactic(auto, using(crate::proofs::RunLemmas::run_kept))]
    pub fn unlock_cpu(&mut self, p: u8) -> Answer
        ensures outcome { (s : KernelState)
            → unl_cpu (with_processors s self.old) p ≡ answered_in (with_processors s self.new) result }
        ensures count { length self.new ≡ length self.old }
        ensures runs { (q : ℕ) → (processor_in self.new q).run ≡ (processor_in self.old q).run }
    {
        let x = self.processor(p);
        match x.lock {
            Lock::Free => replied(Er::Ok),
            Lock::Cpu => {
                self.set(
                    p,
                    Processor {
                        lock: Lock::Free,
                        ..x
                    },
                );
                replied(Er::Ok)
            }
            Lock::Spin(_) => replied(Er::Ctx),
        }
    }

    /// `dis_dsp` and `ena_dsp` on processor p.
    #[tactic(auto, using(crate::proofs::RunLemmas::run_kept))]
    pub fn set_dispatch(&mut self, p: u8, disabled: bool) -> Answer
        ensures outcome { (s : KernelState)
            → dispatch_set (with_processors s self.old) p disabled ≡ answered_in (with_processors s self.new) result }
        ensures count { length self.new ≡ length self.old }
        ensures runs { (q : ℕ) → (processor_in self.new q).run ≡ (processor_in self.old q).run }
    {
        let x = self.processor(p);
        self.set(
            p,
            Processor {
                dispatch_disabled: disabled,
                ..x
            },
        );
        replied(Er::Ok)
    }

    /// Whether some processor holds spin lock l.
    pub fn is_held(&self, l: u8) -> bool
        ensures { result ≡ is_held_in l self.now }
    {
        holds_any(self.table.as_slice(), l)
    }

    /// Spin lock l is taken on processor p, whose CPU it locks.
    fn take(&mut self, p: u8, l: u8)
        ensures { self.new ≡ slice_set self.old p (record (processor_in self.old p) { lock = Lock.Spin l }) }
    {
        let x = self.processor(p);
        self.set(
            p,
            Processor {
                lock: Lock::Spin(l),
                ..x
            },
        );
    }

    /// `loc_spn` of spin lock l on processor p: a free lock is taken, and the CPU is locked by it; for a held one the
    /// caller spins, and nothing changes.
    #[tactic(auto, using(crate::proofs::RunLemmas::run_kept))]
    pub fn acquire(&mut self, p: u8, l: u8) -> Answer
        ensures outcome { (s : KernelState)
            → spin_lock_taken (is_held_in l self.old) (with_processors s self.old) p l
            ≡ answered_in (with_processors s self.new) result }
        ensures count { length self.new ≡ length self.old }
        ensures runs { (q : ℕ) → (processor_in self.new q).run ≡ (processor_in self.old q).run }
    {
        if self.is_held(l) {
            return Answer::Spins;
        }
        self.take(p, l);
        replied(Er::Ok)
    }

    /// `try_spn` of spin lock l on processor p: E_OBJ for a held lock, and then nothing changes; a free one is taken.
    #[tactic(auto, using(crate::proofs::RunLemmas::run_kept))]
    pub fn try_acquire(&mut self, p: u8, l: u8) -> Answer
        ensures outcome { (s : KernelState)
            → tried_by (is_held_in l self.old) (with_processors s self.old) p l
            ≡ answered_in (with_processors s self.new) result }
        ensures count { length self.new ≡ length self.old }
        ensures runs { (q : ℕ) → (processor_in self.new q).run ≡ (processor_in self.old q).run }
    {
        if self.is_held(l) {
            return replied(Er::Obj);
        }
        self.take(p, l);
        replied(Er::Ok)
    }

    /// `unl_spn` of spin lock l on processor p: E_ILUSE if it does not hold this lock, and then nothing changes; else
    /// its CPU is free.
    #[tactic(auto, using(crate::proofs::RunLemmas::run_kept))]
    pub fn release(&mut self, p: u8, l: u8) -> Answer
        ensures outcome { (s : KernelState)
            → released_by (is_lock l (processor_in self.old p).lock) (with_processors s self.old) p
            ≡ answered_in (with_processors s self.new) result }
        ensures count { length self.new ≡ length self.old }
        ensures runs { (q : ℕ) → (processor_in self.new q).run ≡ (processor_in self.old q).run }
    {
        let x = self.processor(p);
        if !is_spin(l, x.lock) {
            return replied(Er::Iluse);
        }
        self.set(
            p,
            Processor {
                lock: Lock::Free,
                ..x
            },
        );
        replied(Er::Ok)
    }
}
