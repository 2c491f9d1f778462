//! What holds of frames where only events come, the contract of a function that does nothing.
ghost use Rattle.std.specs.Prelude.{◌≡◌, List};
ghost use Rattle.fmp_base.specs.declared.events.Event.{Event};
ghost use Rattle.fmp_kernel.specs.Comings.{reaction_of};
ghost use Rattle.fmp_frames.specs.DumpLaws.{IdentifiersDiffer};
ghost use Rattle.fmp_frames.specs.DumpedRuns.{DumpsAreOfTheirFrames};
ghost use Rattle.fmp_frames.specs.Frames.{frames, frames_of_each};
ghost use Rattle.fmp_frames.specs.RefusalLaws.{RefusedCallsAreNeverDone};
ghost use Rattle.fmp_kernel.specs.KernelViews.{KernelView};

use fmp_instructions::MachineContext;
use fmp_kernel::Body;

/// The frames of events that come to a kernel are those of its run over them.
#[tactic(auto, using(crate::proofs::FrameLemmas::same_frames))]
pub fn frames_are_of_the_run<B: Body>()
    ensures { (k : KernelView B B.Ctx) (es : List Event) → frames_of_each B.meaning (reaction_of B.meaning) k es
        ≡ frames k.system (B.meaning k.body) k.bound k.world es }
{}

/// A dump that has begun and was shown the frames of a run is the dump of this run.
pub fn dumps_are_of_their_frames()
    ensures { DumpsAreOfTheirFrames }
{}

/// A call of a run that is told as always refused is never answered E_OK in this run.
#[tactic(auto, using(crate::proofs::RefusalLaws::refused_calls_are_never_done))]
pub fn refused_calls_are_never_done<B: Body<Ctx = MachineContext>>()
    ensures { RefusedCallsAreNeverDone B.meaning }
{}

/// No two of the first 94^4 variables of a dump have the same identifier.
#[tactic(auto, using(crate::proofs::DumpLaws::identifiers_differ))]
pub fn identifiers_differ()
    ensures { IdentifiersDiffer }
{}
