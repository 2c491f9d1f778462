//! The clock, and the handlers that are due or pending.
ghost use Rattle.std.specs.Prelude.{◌≡◌, ◌+◌, ◌<◌, ◌≤◌, ◌^◌, is_some, length, map, slice_get, IfSome, None};
ghost use Rattle.std.specs.List.{list_any};
ghost use Rattle.fmp_base.specs.ProcessorCalls.{with_due};
ghost use Rattle.fmp_base.specs.Settles.{pending_handler, without_pending};
ghost use Rattle.fmp_base.specs.Systems.{found};
ghost use Rattle.fmp_base.specs.Ticks.{with_clock_advanced, with_cyclic_pending, with_interrupt_pending, is_pending};
ghost use Rattle.fmp_tasks.specs.Restarts.{clock_restarted};
ghost use Rattle.fmp_tasks.specs.Tables.{HasHandler};
ghost use Rattle.fmp_ticks.specs.Times.{first_due, NoneBefore};

use crate::kernel_state::KernelState;
use crate::marks::SettleMarks;
use crate::queues::set_due_time;
use crate::restart::{restart_blocks, restart_deadlines, restart_due_times};
use fmp_base::{Handler, WorkCount};

impl KernelState {
    /// The system clock.
    pub fn clock(&self) -> u32
        ensures value { result ≡ self.now.state.clock }
        ensures early { result ≤ 2 ^ 31 }
    {
        self.clock
    }

    /// Advances the clock by one.
    pub fn advance(&mut self)
        requires time { self.old.state.clock < 2 ^ 31 }
        requires none_due { first_due (self.old.state.clock + 1) (map (λ x. x.deadline) self.old.state.tasks) ≡ None }
        requires no_cyclic_due { first_due (self.old.state.clock + 1) self.old.state.due_times ≡ None }
        ensures { self.new ≡ record self.old { state = with_clock_advanced self.old.state } }
    {
        self.clock += 1;
    }

    /// The clock begins again at 0: each deadline and each due time becomes the time that is left until it. All of them
    /// lay after the clock.
    pub fn restart_clock(&mut self)
        ensures state { self.new ≡ record self.old { state = clock_restarted self.old.state } }
        ensures deadlines { NoneBefore (self.old.state.clock + 1) (map (λ x. x.deadline) self.old.state.tasks) }
        ensures due_times { NoneBefore (self.old.state.clock + 1) self.old.state.due_times }
    {
        restart_blocks(self.blocks.as_mut_slice(), self.clock);
        restart_deadlines(&mut self.deadlines, self.blocks.as_slice());
        restart_due_times(
            &mut self.cyclics,
            self.system.cyclics.len() as u8,
            self.clock,
        );
        self.clock = 0;
    }

    /// Of the tasks whose deadline is the next tick the first by number, if any.
    pub fn due(&self) -> Option<u8>
        ensures value { result ≡ first_due (self.now.state.clock + 1) (map (λ x. x.deadline) self.now.state.tasks) }
        ensures there { IfSome result (λ t. t < length self.now.system.tasks) }
    {
        self.deadlines.due(self.clock + 1, &mut WorkCount::new())
    }

    /// How many cyclic handlers there are.
    pub fn cyclic_count(&self) -> usize
        ensures due_times { result ≡ length self.now.state.due_times }
        ensures pending { result ≡ length self.now.state.pending_cyclics }
        ensures system { result ≡ length self.now.system.cyclics }
        ensures few { result ≤ 255 }
    {
        self.pending.cyclic_count()
    }

    /// Of the cyclic handlers that are due at the next tick the first by number, if any.
    pub fn due_cyclic(&self) -> Option<u8>
        ensures value { result ≡ first_due (self.now.state.clock + 1) self.now.state.due_times }
        ensures there { IfSome result (λ c. c < length self.now.system.cyclics) }
    {
        self.cyclics.due(self.clock + 1)
    }

    /// The clock at which a cyclic handler is due next, if it is started.
    pub fn due_time(&self, c: u8) -> Option<u32>
        requires { c < length self.now.system.cyclics }
        ensures { result ≡ found None (slice_get self.now.state.due_times c) }
    {
        self.cyclics.due_time(c)
    }

    /// Whether a cyclic handler is started.
    pub fn has_started_cyclic(&self) -> bool
        ensures { result ≡ list_any is_some self.now.state.due_times }
    {
        self.cyclics.has_started()
    }

    /// Sets the clock at which a cyclic handler is due, which lies after now; with none it is no longer due.
    pub fn set_due(&mut self, c: u8, due: Option<u32>)
        requires there { c < length self.old.system.cyclics }
        requires later { IfSome due (λ w. self.old.state.clock + 1 ≤ w) }
        ensures { self.new ≡ record self.old { state = with_due self.old.state c due } }
    {
        set_due_time(&mut self.cyclics, c, due);
    }

    /// Whether a cyclic handler is pending.
    pub fn is_cyclic_pending(&self, c: u8) -> bool
        requires { c < length self.now.system.cyclics }
        ensures { result ≡ is_pending self.now.state.pending_cyclics c }
    {
        self.pending.is_cyclic_pending(c)
    }

    /// A cyclic handler becomes pending.
    #[tactic(auto, using(crate::proofs::MarkLemmas::at_rest_all))]
    pub fn pend_cyclic(&mut self, c: u8)
        requires { c < length self.old.system.cyclics }
        ensures { self.new ≡ record self.old { state = with_cyclic_pending self.old.state c } }
    {
        self.marks = SettleMarks::all();
        self.pending.pend_cyclic(c);
    }

    /// Whether the interrupt at a place, 0 to 31, is pending.
    pub fn is_interrupt_pending(&self, i: u8) -> bool
        requires { i < 32 }
        ensures { result ≡ is_pending self.now.state.pending_interrupts i }
    {
        self.pending.is_interrupt_pending(i)
    }

    /// The interrupt at a place, 0 to 31, becomes pending.
    #[tactic(auto, using(crate::proofs::MarkLemmas::at_rest_all))]
    pub fn pend_interrupt(&mut self, i: u8)
        requires { i < 32 }
        ensures { self.new ≡ record self.old { state = with_interrupt_pending self.old.state i } }
    {
        self.marks = SettleMarks::all();
        self.pending.pend_interrupt(i);
    }

    /// The first pending handler of a processor, if any: interrupts by number, then cyclic handlers by number.
    pub fn first_pending(&self, p: u8) -> Option<Handler>
        requires there { p < self.now.system.processors }
        ensures value { result ≡ pending_handler self.now.system self.now.state p }
        ensures valid { IfSome result (λ h. HasHandler self.now.system h) }
    {
        self.pending.first(p)
    }

    /// A handler is no longer pending.
    pub fn clear_pending(&mut self, h: Handler)
        requires there { HasHandler self.old.system h }
        ensures { self.new ≡ record self.old { state = without_pending self.old.state h } }
    {
        self.pending.clear(h);
    }
}
