//! Objects that have a line of the configuration.
ghost use Rattle.std.specs.Prelude.{◌≡◌, ◌++◌, map, OnOk};
ghost use Rattle.fmp_tasklang.specs.Views.{body_view};

use crate::target::Target;
use fmp_tasklang::Body;
use std::alloc::AllocError;

/// An object that has a line of the configuration.
pub trait ConfigurationRow {
    ghost use Rattle.std.specs.Prelude.{List, ℕ};
    ghost use Rattle.fmp_tasklang.specs.Trees.{BodyTree};
    ghost use Rattle.fmp_toppers.specs.declared.target.Target as kernel;

    ghost line_of: { kernel.Target → List BodyTree → Self → List ℕ };

    /// Appends the line.
    fn append_line(
        &self,
        target: Target,
        bodies: &[Body],
        out: &mut Vec<u8>,
    ) -> Result<(), AllocError>
        ensures { OnOk result (out.new.items ≡ out.old.items
            ++ line_of target (map body_view bodies.now) self.now) };
}
