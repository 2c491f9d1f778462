//! A runner that is put into a saved state.
ghost use Rattle.std.specs.Prelude.{◌≡◌, [], true};
ghost use Rattle.fmp_kernel.specs.KernelViews.{SameBodies};
ghost use Rattle.fmp_worlds.specs.Settled.{IsSettledWorld};

use crate::restoring::{Saved, is_settled};
use crate::runner::Runner;
use fmp_base::Body;
use fmp_contexts::{ContextTest, restore_contexts};
use fmp_tasks::restoring::restore;

impl<B: Body> Runner<B> {
    /// Puts a saved state in place of this one, with clock 0 and no lines. Gives whether it is one between events;
    /// where it is not, some state stands here. What was caused last stays.
    pub fn restore<T: ContextTest<B>>(&mut self, saved: &Saved<B::Ctx>, test: &T) -> bool
        ensures bodies { SameBodies self.old self.new }
        ensures clock { self.new.world.state.clock ≡ 0 }
        ensures lines { self.new.lines ≡ [] }
        ensures settled { result ≡ true → IsSettledWorld self.new.system self.new.world }
    {
        self.lines.clear();
        if !restore(&mut self.tables, &saved.state) {
            return false;
        }
        if !restore_contexts(
            test,
            &self.body,
            &self.tables,
            &mut self.contexts,
            &saved.contexts,
        ) {
            return false;
        }
        is_settled(&self.tables, &self.contexts)
    }
}
