//! Marks that are put back as others are.
ghost use Rattle.std.specs.Prelude.{◌≡◌};

use crate::pending::PendingHandlers;

impl PendingHandlers {
    /// Puts the marks of other handlers, on the same processors, in the place of these.
    pub fn put_back(&mut self, from: &PendingHandlers)
        requires { self.old.processors ≡ from.now.processors }
        ensures { self.new ≡ from.now }
    {
        self.interrupts.copy_from_slice(from.interrupts.as_slice());
        self.cyclics.copy_from_slice(from.cyclics.as_slice());
        self.words.copy_from_slice(from.words.as_slice());
        self.busy.copy_from_slice(from.busy.as_slice());
    }
}
