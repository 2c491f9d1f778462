//! Slots that are put back as others are.
ghost use Rattle.std.specs.Prelude.{◌≡◌, length};

use crate::deadline_heap::DeadlineHeap;

impl DeadlineHeap {
    /// Puts the slots of as many other tasks in the place of these.
    pub fn put_back(&mut self, from: &DeadlineHeap)
        requires { length self.old.tasks ≡ length from.now.tasks }
        ensures { self.new ≡ from.now }
    {
        self.slots.copy_from_slice(from.slots.as_slice());
        self.ranks.copy_from_slice(from.ranks.as_slice());
        self.positions.copy_from_slice(from.positions.as_slice());
        self.count = from.count;
    }
}
