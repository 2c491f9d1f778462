//! A kernel whose state is put back as that of another one is.
ghost use Rattle.std.specs.Prelude.{◌≡◌};

use crate::kernel::Kernel;
use fmp_base::Body;

impl<B: Body> Kernel<B> {
    /// Puts the state of another kernel in the place of this one. Both are of the same bodies, bound and system. It
    /// takes no memory.
    pub fn put_back(&mut self, from: &Kernel<B>)
        requires body { self.old.body ≡ from.now.body }
        requires bound { self.old.bound ≡ from.now.bound }
        requires system { self.old.system ≡ from.now.system }
        ensures { self.new ≡ from.now }
    {
        self.runner.put_back(&from.runner);
        self.stamps.put_back(&from.stamps);
        self.done = from.done;
        self.taken = from.taken;
    }
}
