//! How a stretch ends.
ghost use Rattle.std.specs.Prelude.{◌≡◌};
ghost use Rattle.fmp_base.specs.Contexts.{stopped};
ghost use Rattle.fmp_base.specs.Stretches.{ending};

use crate::instructions::MachineContext;
use fmp_base::{Stretch, StretchStop};

/// The end of a stretch that stops so, in the context that it leaves.
#[inline(always)]
pub fn stretch_of(stop: StretchStop, after: MachineContext) -> Stretch<MachineContext>
    ensures { ending result ≡ stopped stop after }
{
    match stop {
        StretchStop::Call(made) => Stretch::Call(after, made),
        StretchStop::End => Stretch::End(after),
        StretchStop::Fault(fault) => Stretch::Fault(after, fault),
        StretchStop::Over => Stretch::Over(after),
    }
}
