//! Words that are put back as others are.
ghost use Rattle.std.specs.Prelude.{◌≡◌};

use crate::words::QueueWords;

impl QueueWords {
    /// Puts other words in the place of these.
    pub fn put_back(&mut self, from: &QueueWords)
        ensures { self.new ≡ from.now }
    {
        self.ring.clear();
        for i in 0..from.ring.len() {
            self.ring.push_back_reserved(from.ring[i]);
        }
    }
}
