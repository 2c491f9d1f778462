//! Processors that are put back as others are.
ghost use Rattle.std.specs.Prelude.{◌≡◌, length};

use crate::processors::Processors;

impl Processors {
    /// Puts as many other processors in the place of these.
    pub fn put_back(&mut self, from: &Processors)
        requires { length self.old ≡ length from.now }
        ensures { self.new ≡ from.now }
    {
        self.table.copy_from_slice(from.table.as_slice());
    }
}
