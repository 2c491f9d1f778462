//! Times that are put back as others are.
ghost use Rattle.std.specs.Prelude.{◌≡◌, length};

use crate::cyclics::Cyclics;

impl Cyclics {
    /// Puts the times of as many other handlers in the place of these.
    pub fn put_back(&mut self, from: &Cyclics)
        requires { length self.old ≡ length from.now }
        ensures { self.new ≡ from.now }
    {
        self.due_times.copy_from_slice(from.due_times.as_slice());
        self.earliest = from.earliest;
    }
}
