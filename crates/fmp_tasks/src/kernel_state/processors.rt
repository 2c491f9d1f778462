//! The processors: what each runs, its CPU lock and spin locks, and whether its dispatching is disabled.
ghost use Rattle.std.specs.Prelude.{◌≡◌, ◌<◌, ◌≤◌, [], length, false, true, None};
ghost use Rattle.fmp_base.specs.ProcessorCalls as calls;
ghost use Rattle.fmp_base.specs.Queues.{top};
ghost use Rattle.fmp_base.specs.Settles.{is_same_task, pending_handler};
ghost use Rattle.fmp_base.specs.States.{processor_at, with_processor};
ghost use Rattle.fmp_tasks.specs.Tables.{outcome, SameShape};

use crate::answers::replied;
use crate::kernel_state::KernelState;
use fmp_base::arguments::numbered;
use fmp_base::{Answer, Er, Processor};

impl KernelState {
    /// How many processors there are.
    pub fn processor_count(&self) -> usize
        ensures state { result ≡ length self.now.state.processors }
        ensures system { result ≡ self.now.system.processors }
        ensures few { result ≤ 8 }
    {
        self.processors.count()
    }

    /// A processor.
    pub fn processor(&self, p: u8) -> Processor
        requires { p < self.now.system.processors }
        ensures { result ≡ processor_at self.now.state p }
    {
        self.processors.processor(p)
    }

    /// Changes a processor.
    pub fn set_processor(&mut self, p: u8, x: Processor)
        requires { p < self.old.system.processors }
        ensures { self.new ≡ record self.old { state = with_processor self.old.state p x } }
    {
        self.marks.mark(p);
        self.processors.set(p, x);
    }

    /// Whether a processor is marked. If not, it has nothing to settle: no handler is pending on it, and it runs its
    /// most urgent ready task.
    pub fn is_marked(&self, p: u8) -> bool
        requires { p < self.now.system.processors }
        ensures none { result ≡ false → pending_handler self.now.system self.now.state p ≡ None }
        ensures same { result ≡ false
            → is_same_task (processor_at self.now.state p).run (top self.now.state p) ≡ true }
    {
        self.marks.is_marked(p)
    }

    /// A processor that has nothing to settle is no longer marked.
    pub fn unmark(&mut self, p: u8)
        requires there { p < self.old.system.processors }
        requires none { pending_handler self.old.system self.old.state p ≡ None }
        requires same { is_same_task (processor_at self.old.state p).run (top self.old.state p) ≡ true }
        ensures { self.new ≡ self.old }
    {
        self.marks.unmark(p);
    }

    /// `loc_cpu` on processor p: its CPU is locked; a locked one stays as it is (uITRON 4.0, section 4.8).
    #[tactic(auto, using(crate::proofs::MarkLemmas::at_rest_runs))]
    pub fn loc_cpu(&mut self, p: u8) -> Answer
        ensures outcome { outcome result self.new [] ≡ calls.loc_cpu self.old.state p }
        ensures shape { SameShape self.old self.new }
    {
        self.processors.lock_cpu(p)
    }

    /// `unl_cpu` on processor p: its CPU is free. E_CTX while it holds a spin lock, and then nothing changes (uITRON
    /// 4.0, section 4.8; FMP kernel, spin locks).
    #[tactic(auto, using(crate::proofs::MarkLemmas::at_rest_runs))]
    pub fn unl_cpu(&mut self, p: u8) -> Answer
        ensures outcome { outcome result self.new [] ≡ calls.unl_cpu self.old.state p }
        ensures shape { SameShape self.old self.new }
    {
        self.processors.unlock_cpu(p)
    }

    /// `dis_dsp` and `ena_dsp` on processor p: its dispatching is disabled or enabled (uITRON 4.0, section 4.8).
    #[tactic(auto, using(crate::proofs::MarkLemmas::at_rest_runs))]
    pub fn set_dispatch(&mut self, p: u8, disabled: bool) -> Answer
        ensures outcome { outcome result self.new [] ≡ calls.dispatch_set self.old.state p disabled }
        ensures shape { SameShape self.old self.new }
    {
        self.processors.set_dispatch(p, disabled)
    }

    /// `loc_spn` on processor p: a free spin lock is taken, and locks the CPU; for a held one the caller spins. E_ID if
    /// the number names no spin lock. Unless a lock is taken, nothing changes (FMP kernel, spin locks).
    #[tactic(auto, using(crate::proofs::MarkLemmas::at_rest_runs))]
    pub fn loc_spn(&mut self, p: u8, lock: i32) -> Answer
        ensures outcome { outcome result self.new [] ≡ calls.loc_spn self.old.system self.old.state p lock }
        ensures shape { SameShape self.old self.new }
    {
        match numbered(self.spin_lock_count(), lock) {
            Some(l) => self.processors.acquire(p, l),
            None => replied(Er::Id),
        }
    }

    /// `try_spn` on processor p: a free spin lock is taken, and locks the CPU. E_ID if the number names no spin lock,
    /// then E_OBJ for a held one; nothing changes then (FMP kernel, spin locks).
    #[tactic(auto, using(crate::proofs::MarkLemmas::at_rest_runs))]
    pub fn try_spn(&mut self, p: u8, lock: i32) -> Answer
        ensures outcome { outcome result self.new [] ≡ calls.try_spn self.old.system self.old.state p lock }
        ensures shape { SameShape self.old self.new }
    {
        match numbered(self.spin_lock_count(), lock) {
            Some(l) => self.processors.try_acquire(p, l),
            None => replied(Er::Id),
        }
    }

    /// `unl_spn` on processor p: its spin lock is given up and its CPU is free. E_ID if the number names no spin lock,
    /// then E_ILUSE if the processor does not hold it; nothing changes then (FMP kernel, spin locks).
    #[tactic(auto, using(crate::proofs::MarkLemmas::at_rest_runs))]
    pub fn unl_spn(&mut self, p: u8, lock: i32) -> Answer
        ensures outcome { outcome result self.new [] ≡ calls.unl_spn self.old.system self.old.state p lock }
        ensures shape { SameShape self.old self.new }
    {
        match numbered(self.spin_lock_count(), lock) {
            Some(l) => self.processors.release(p, l),
            None => replied(Er::Id),
        }
    }
}
