//! Bitmaps that are put back as others are.
ghost use Rattle.std.specs.Prelude.{◌≡◌, length};

use crate::queues::ReadyQueues;

impl ReadyQueues {
    /// Puts the bitmaps of other queues, of as many processors, in the place of these.
    pub fn put_back(&mut self, from: &ReadyQueues)
        requires { length self.old ≡ length from.now }
        ensures { self.new ≡ from.now }
    {
        self.bitmaps.copy_from_slice(from.bitmaps.as_slice());
    }
}
