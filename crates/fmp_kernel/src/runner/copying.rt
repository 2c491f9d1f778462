//! A runner whose state is put back as that of another one is.
ghost use Rattle.std.specs.Prelude.{◌≡◌};

use crate::runner::{Runner, append};
use fmp_base::Body;

impl<B: Body> Runner<B> {
    /// Puts the state of another runner of the same bodies and system in the place of this one. What was caused last
    /// stays.
    pub fn put_back(&mut self, from: &Runner<B>)
        requires body { self.old.body ≡ from.now.body }
        requires bound { self.old.bound ≡ from.now.bound }
        requires system { self.old.system ≡ from.now.system }
        ensures { self.new ≡ record from.now { caused = self.old.caused } }
    {
        let _few = from.lines();
        self.tables.put_back(&from.tables);
        self.contexts.put_back(&from.contexts);
        self.lines.clear();
        append(&mut self.lines, &from.lines);
    }
}
