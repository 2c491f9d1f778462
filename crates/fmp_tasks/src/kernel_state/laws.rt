//! What holds of every kernel state, each the contract of a function that does nothing, or next to nothing.
ghost use Rattle.std.specs.Prelude.{◌≡◌, ◌+◌, ◌<◌, length, map};
ghost use Rattle.fmp_base.specs.MailboxCalls.{messages_at};
ghost use Rattle.fmp_ring.specs.Orders.{IsOrder};
ghost use Rattle.fmp_ring.specs.RingLists.{AreDisjoint};
ghost use Rattle.fmp_tasks.specs.Homes.{Standing};
ghost use Rattle.fmp_ticks.specs.Times.{NoneBefore};

use crate::kernel_state::KernelState;
use fmp_base::WorkCount;

impl KernelState {
    /// Each task that is ready or waiting stands in the order, once, and no other one does.
    pub fn order_is_standing(&self)
        ensures distinct { IsOrder (length self.now.state.tasks) self.now.state.order }
        ensures standing { Standing self.now.state.tasks self.now.state.order }
    {
        // Only a look at a field tells the proof that the tables are whole.
        let _ = &self.blocks;
    }

    /// Each deadline and each due time lies after the clock.
    pub fn times_lie_ahead(&self)
        ensures deadlines { NoneBefore (self.now.state.clock + 1) (map (λ x. x.deadline) self.now.state.tasks) }
        ensures due_times { NoneBefore (self.now.state.clock + 1) self.now.state.due_times }
    {
        let _ = &self.blocks;
    }

    /// The state says of each of the 32 interrupts whether it is pending.
    pub fn interrupts_are_all_there(&self)
        ensures { length self.now.state.pending_interrupts ≡ 32 }
    {
        let _ = &self.blocks;
    }

    /// No message is in two mailboxes.
    pub fn mailboxes_are_disjoint(&self)
        ensures { AreDisjoint self.now.state.mailboxes }
    {
        self.mailboxes.lists_are_disjoint();
    }

    /// No message is in a mailbox twice.
    pub fn mailbox_has_each_once(&self, x: u8)
        requires { x < length self.now.system.mailboxes }
        ensures { IsOrder (length self.now.system.messages) (messages_at self.now.state x) }
    {
        let _ = self.mailboxes.first(x as u16, &mut WorkCount::new());
    }
}
