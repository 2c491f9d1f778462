//! Laws of kernels whose bodies run elsewhere, each the contract of a function that does nothing. `D` is the type of
//! the contexts that are kept of bodies outside.
ghost use Rattle.std.specs.Prelude.{◌≡◌, ◌≢◌, ℕ, List, Some};
ghost use Rattle.fmp_bisimulation.specs.Alike.{Alike};
ghost use Rattle.fmp_base.specs.Meanings.{Meaning, World};
ghost use Rattle.fmp_base.specs.Setups.{setup};
ghost use Rattle.fmp_base.specs.Systems.{SystemTables};
ghost use Rattle.fmp_kernel.specs.KernelViews.{KernelView, view_of_setup};
ghost use Rattle.fmp_outside.specs.declared.given.Act.{Act};
ghost use Rattle.fmp_outside.specs.declared.given.Given.{Given};
ghost use Rattle.fmp_outside.specs.declared.given.Given.TheVariants as given;
ghost use Rattle.fmp_outside.specs.Outside.{outside_run};
ghost use Rattle.fmp_foreign.specs.AlikeRuns.{RunAlike};
ghost use Rattle.fmp_foreign.specs.Following.{DoesOtherwise, HasFollowed, act_on};
ghost use Rattle.fmp_foreign.specs.FollowingLaws.{AgreesWith};

use fmp_base::Body;

/// A kernel whose bodies run outside, and whose journal the text has followed from setup on, has had the lines of a run
/// of the text all along, and stands in its state. Nothing is asked of what the bodies computed.
pub fn followed_journals_agree<B: Body, D>()
    ensures { (body : B) (sys : SystemTables) (F : Meaning D) (m : ℕ) (d : D) (n : ℕ) (gs : List Given)
        (k : KernelView B B.Ctx) → HasFollowed B.meaning (view_of_setup body n sys (setup sys (B.meaning body))) gs k →
        AgreesWith sys F m d (B.meaning body) n gs k }
{}

/// Where the text does another thing than the act that came from the actor of the processor of this number, it is known
/// what it does: `Shadow::next` gives that.
pub fn other_acts_are_known<B: Body>()
    ensures { (k : KernelView B B.Ctx) (p : ℕ) (a : Act) → DoesOtherwise B.meaning k (given.Act p a) →
        (b : Act) × (act_on B.meaning k p ≡ Some b) × (b ≢ a) }
{}

/// In alike worlds, as before and after `HostedSystem::restart_count`, what comes does the same, one after the other:
/// the lines differ at most in the number of the clock, and the worlds are alike again.
pub fn alike_worlds_run_alike<D>()
    ensures { (sys : SystemTables) (F : Meaning D) (n : ℕ) (d : D) (gs : List Given) (v w : World D) →
        Alike sys v w → RunAlike sys (outside_run sys F n d v gs) (outside_run sys F n d w gs) }
{}
