//! The one order of the tasks that are ready or waiting. It has no bytes: only the contracts see it.
ghost use Rattle.std.specs.Prelude.{◌≡◌, [], true};
ghost use Rattle.fmp_base.specs.States.{to_end, without};

use crate::trail::OrderTrail;
use std::marker::Model;
use std::snapshot::Snapshot;

mod copying;

/// The order of which every queue is a part. What binds it is the invariant of `KernelState` alone.
#[derive(Drop)]
pub struct Order {
    past: Snapshot<OrderTrail>,
}

impl Model for Order {
    ghost use Rattle.std.specs.Prelude.{ℕ, List};
    ghost use Rattle.fmp_tasks.specs.Trails.{order_of};

    ghost Value = { List ℕ };

    ghost view = { λ o. order_of o.past.value };
}

impl Order {
    /// No task.
    pub fn new() -> Order
        ensures { result ≡ [] }
    {
        let start = OrderTrail::Start;
        Order {
            past: Snapshot::of(&start),
        }
    }

    /// A task goes to the end, from wherever it is.
    pub fn to_end(&mut self, t: u8)
        ensures { self.new ≡ to_end self.old t }
    {
        let start = OrderTrail::Start;
        let before = std::mem::replace(&mut self.past, Snapshot::of(&start));
        let next = OrderTrail::Last(t, before);
        self.past = Snapshot::of(&next);
    }

    /// A task leaves.
    pub fn leave(&mut self, t: u8)
        ensures { self.new ≡ without self.old t }
    {
        let start = OrderTrail::Start;
        let before = std::mem::replace(&mut self.past, Snapshot::of(&start));
        let next = OrderTrail::Left(t, before);
        self.past = Snapshot::of(&next);
    }
}

/// Whether a value may go to another thread.
fn is_sendable<T: Send>(_x: &T) -> bool
    ensures { result ≡ true }
{
    true
}

/// An order has no bytes, and may go to another thread.
pub fn order_is_ghost() -> bool
    ensures { result ≡ true }
{
    const _: () = prove!(size_of::<Order>() == 0);
    is_sendable(&Order::new())
}
