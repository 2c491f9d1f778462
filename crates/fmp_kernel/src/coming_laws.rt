//! What holds of a kernel to which only events come, the contract of a function that does nothing.
ghost use Rattle.std.specs.Prelude.{◌≡◌, List};
ghost use Rattle.fmp_base.specs.declared.events.Event.{Event};
ghost use Rattle.fmp_kernel.specs.Comings.{reaction_of, view_after_each};
ghost use Rattle.fmp_kernel.specs.KernelViews.{KernelView, view_after_all};

use fmp_base::Body;

/// A kernel after events is the kernel that has made them step by step.
#[tactic(auto, using(crate::proofs::Comings::steps_here))]
pub fn events_are_steps<B: Body>()
    ensures { (k : KernelView B B.Ctx) (es : List Event) →
        view_after_each (reaction_of B.meaning) k es ≡ view_after_all B.meaning k es }
{}
