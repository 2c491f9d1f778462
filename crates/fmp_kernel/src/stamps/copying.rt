//! Stamps that are put back as others are.
ghost use Rattle.std.specs.Prelude.{◌≡◌, length};

use crate::stamps::Stamps;

impl Stamps {
    /// Puts the stamps of as many other processors in the place of these.
    pub fn put_back(&mut self, from: &Stamps)
        requires { length self.old ≡ length from.now }
        ensures { self.new ≡ from.now }
    {
        self.counts.copy_from_slice(from.counts.as_slice());
    }
}
