//! Deadlines that are put back as others are.
ghost use Rattle.std.specs.Prelude.{◌≡◌, length};

use crate::deadlines::TickQueue;

impl TickQueue {
    /// Puts the deadlines of as many other tasks in the place of these.
    pub fn put_back(&mut self, from: &TickQueue)
        requires { length self.old ≡ length from.now }
        ensures { self.new ≡ from.now }
    {
        self.deadlines.copy_from_slice(from.deadlines.as_slice());
        self.heap.put_back(&from.heap);
    }
}
