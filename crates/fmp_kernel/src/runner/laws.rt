//! What holds of every runner: the contract of a function that does next to nothing.
ghost use Rattle.fmp_contexts.specs.Contexts.{Fitting, HasPlaces};

use crate::runner::Runner;
use fmp_base::Body;

impl<B: Body> Runner<B> {
    /// There is a place for the context of each task and of the handler of each processor, and each context that is
    /// kept is one of its body.
    pub fn contexts_fit(&self)
        ensures places { HasPlaces self.now.system self.now.world.contexts }
        ensures fitting { Fitting B.has_entry B.is_context self.now.body self.now.system self.now.world.contexts }
    {
        // Only a look at a field tells the proof what holds of the contexts.
        let _ = &self.body;
    }
}
