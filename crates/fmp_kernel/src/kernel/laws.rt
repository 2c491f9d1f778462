//! What holds of the world of every kernel, each the contract of a function that does next to nothing.
ghost use Rattle.fmp_contexts.specs.Contexts.{Fitting, HasPlaces};
ghost use Rattle.fmp_worlds.specs.Settled.{IsSettledWorld};

use crate::kernel::Kernel;
use fmp_base::Body;

impl<B: Body> Kernel<B> {
    /// The world is one between events.
    pub fn world_is_settled(&self)
        ensures { IsSettledWorld self.now.system self.now.world }
    {
        // Only a look at a field tells the proof that the world is settled.
        let _ = &self.runner;
    }

    /// There is a place for the context of each task and of the handler of each processor, and each context that is
    /// kept is one of its body.
    pub fn contexts_fit(&self)
        ensures places { HasPlaces self.now.system self.now.world.contexts }
        ensures fitting { Fitting B.has_entry B.is_context self.now.body self.now.system self.now.world.contexts }
    {
        self.runner.contexts_fit();
    }
}
