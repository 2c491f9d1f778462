//! An order that is put back as another one is.
ghost use Rattle.std.specs.Prelude.{◌≡◌};

use crate::order::Order;
use crate::trail::OrderTrail;
use std::snapshot::Snapshot;

impl Order {
    /// Puts another order in the place of this one.
    pub fn put_back(&mut self, from: &Order)
        ensures { self.new ≡ from.now }
    {
        let same = OrderTrail::Same(Snapshot::of(&from.past));
        self.past = Snapshot::of(&same);
    }
}
