//! A kernel that is put into a saved state.
ghost use Rattle.std.specs.Prelude.{◌≡◌, false, true};
ghost use Rattle.fmp_kernel.specs.Restored.{HasBegun};

use crate::kernel::Kernel;
use crate::restoring::Saved;
use fmp_base::Body;
use fmp_contexts::ContextTest;

impl<B: Body> Kernel<B> {
    /// Puts a saved state in place of this one. True: the saved state is one between events, and `test` accepts each
    /// of its contexts. Then the clock, the numbers of events done and taken, and the stamps are 0, and there are no
    /// lines. False: it is not, and the state of `fallback`, a kernel of the same bodies, bound and system, stands
    /// here. The contract does not say that the state is the saved one: a caller that needs this reads the state and
    /// compares. It takes no memory.
    pub fn restore<T: ContextTest<B>>(
        &mut self,
        fallback: &Kernel<B>,
        saved: &Saved<B::Ctx>,
        test: &T,
    ) -> bool
        requires body { self.old.body ≡ fallback.now.body }
        requires bound { self.old.bound ≡ fallback.now.bound }
        requires system { self.old.system ≡ fallback.now.system }
        ensures body { self.new.body ≡ self.old.body }
        ensures bound { self.new.bound ≡ self.old.bound }
        ensures system { self.new.system ≡ self.old.system }
        ensures begun { result ≡ true → HasBegun self.new }
        ensures other { result ≡ false → self.new ≡ fallback.now }
    {
        if self.runner.restore(saved, test) {
            self.stamps.restart();
            self.done = 0;
            self.taken = 0;
            true
        } else {
            self.runner.put_back(&fallback.runner);
            self.stamps.put_back(&fallback.stamps);
            self.done = fallback.done;
            self.taken = fallback.taken;
            false
        }
    }
}
