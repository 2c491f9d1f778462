//! A kernel over the text of bodies that run elsewhere: it says of each of their acts whether their text does it.
ghost use Rattle.std.specs.Prelude.{◌≡◌, ◌≢◌, ◌+◌, ◌<◌, ◌≤◌, ◌^◌, ◌∷◌, [], IfErr, IfOk, MatchOption, None, Some};
ghost use Rattle.std.specs.Prelude.{length, slice_get};
ghost use Rattle.fmp_outside.specs.Outside.{IsOfText};
ghost use Rattle.fmp_base.specs.Stretches.{ending};
ghost use Rattle.fmp_kernel.specs.Restarts.{counts_restarted};
ghost use Rattle.fmp_foreign.specs.Following.{Departs, DoesOtherwise, GoesOn, HasFollowed, act_on, stretch_on};

use crate::same::is_same;
use fmp_base::{Body, Stretch};
use fmp_kernel::Kernel;
use fmp_outside::{Act, Given};
use std::marker::Model;

/// How many events a kernel takes.
const MOST_EVENTS: u32 = 1 << 31;

/// Whether the text of a body does what the body does.
#[derive(Clone, Copy, Debug, PartialEq, Eq)]
pub enum BodyVerdict {
    /// It does it, and its kernel has made the event.
    Follows,
    /// It does another thing.
    Differs,
    /// It has used up its turns within one stretch.
    Long,
    /// Its kernel has taken 2^31 events, and takes no more.
    Full,
}

/// Where a journal departs from the text.
#[derive(Clone, Copy, Debug, PartialEq, Eq)]
pub struct Departure {
    /// The place, from 0, of the first entry of the journal that the text does not follow.
    pub at: usize,
    /// Why it does not; never `BodyVerdict::Follows`.
    pub why: BodyVerdict,
}

/// A kernel that runs the text of bodies, beside those bodies or in place of their own kernel.
#[derive(Drop)]
pub struct Shadow<B: Body> {
    kernel: Kernel<B>,
}

impl<B: Body> Model for Shadow<B> {
    ghost use Rattle.fmp_kernel.specs.KernelViews.{KernelView};

    ghost Value = { KernelView B B.Ctx };

    ghost view = { λ s. s.kernel };
}

/// The stretch that the text of this processor's actor makes next, if there is an actor.
#[tactic(auto, using(crate::proofs::Judging::no_stretch, crate::proofs::Judging::its_stretch))]
fn next_stretch<B: Body>(kernel: &Kernel<B>, p: u8) -> Option<Stretch<B::Ctx>>
    ensures { MatchOption result (stretch_on B.meaning kernel.now p ≡ None)
        (λ s. stretch_on B.meaning kernel.now p ≡ Some (ending s)) }
{
    let actor = kernel.actor(p)?;
    Some(
        kernel
            .body()
            .stretch(actor.entry, kernel.bound(), actor.context),
    )
}

/// How the next stretch of the text compares with what comes: it ends in that way, or in another, or is over its bound.
#[tactic(auto, using(crate::proofs::Judging::nobody_follows, crate::proofs::Judging::over_goes_on))]
fn judge<B: Body>(kernel: &Kernel<B>, given: Given) -> BodyVerdict
    ensures follows { result ≡ BodyVerdict.Follows
        → IsOfText kernel.now.system (B.meaning kernel.now.body) kernel.now.bound kernel.now.world given }
    ensures differs { result ≡ BodyVerdict.Differs → DoesOtherwise B.meaning kernel.now given }
    ensures long { result ≡ BodyVerdict.Long → GoesOn B.meaning kernel.now given }
    ensures full { result ≢ BodyVerdict.Full }
{
    let Given::Act(p, act) = given else {
        return BodyVerdict::Follows;
    };
    let Some(stretch) = next_stretch(kernel, p) else {
        return BodyVerdict::Follows;
    };
    match Act::of(stretch) {
        Some(made) => {
            if is_same(made, act) {
                BodyVerdict::Follows
            } else {
                BodyVerdict::Differs
            }
        }
        None => BodyVerdict::Long,
    }
}

/// What comes, in one turn of the text.
#[tactic(auto, using(crate::proofs::Following::once, crate::proofs::Following::within, crate::proofs::Following::within_counts, crate::proofs::Following::nothing_yet))]
fn take_turn<B: Body>(kernel: &mut Kernel<B>, given: Given) -> BodyVerdict
    ensures follows { result ≡ BodyVerdict.Follows → HasFollowed B.meaning kernel.old (given ∷ []) kernel.new }
    ensures stays { result ≢ BodyVerdict.Follows → HasFollowed B.meaning kernel.old [] kernel.new }
    ensures differs { result ≡ BodyVerdict.Differs → DoesOtherwise B.meaning kernel.new given }
    ensures long { result ≡ BodyVerdict.Long → kernel.new.taken ≡ kernel.old.taken + 1 }
    ensures full { result ≡ BodyVerdict.Full → 2 ^ 31 ≤ kernel.new.taken }
{
    if kernel.taken() >= MOST_EVENTS {
        return BodyVerdict::Full;
    }
    let verdict = judge(kernel, given);
    if verdict != BodyVerdict::Differs {
        kernel.step_long(given.event());
    }
    verdict
}

/// What comes, in at most `turns` turns of the text.
#[tactic(auto, using(crate::proofs::Following::nothing_yet))]
fn take_turns<B: Body>(kernel: &mut Kernel<B>, given: Given, turns: u32) -> BodyVerdict
    ensures follows { result ≡ BodyVerdict.Follows → HasFollowed B.meaning kernel.old (given ∷ []) kernel.new }
    ensures stays { result ≢ BodyVerdict.Follows → HasFollowed B.meaning kernel.old [] kernel.new }
    ensures differs { result ≡ BodyVerdict.Differs → DoesOtherwise B.meaning kernel.new given }
    ensures long { result ≡ BodyVerdict.Long → kernel.new.taken ≡ kernel.old.taken + turns }
    ensures full { result ≡ BodyVerdict.Full → 2 ^ 31 ≤ kernel.new.taken }
{
    for _ in 0..turns {
        let verdict = take_turn(kernel, given);
        if verdict != BodyVerdict::Long {
            return verdict;
        }
    }
    BodyVerdict::Long
}

/// What stands at this place of a journal.
fn given_at(journal: &[Given], at: usize) -> Given
    requires { at < length journal.now }
    ensures { slice_get journal.now at ≡ Some result }
{
    journal[at]
}

/// Takes a whole journal, up to the first entry that the text does not follow.
#[tactic(auto, using(crate::proofs::Journals::all_followed, crate::proofs::Following::nothing_yet))]
fn replay_all<B: Body>(
    kernel: &mut Kernel<B>,
    journal: &[Given],
    turns: u32,
) -> Result<(), Departure>
    ensures follows { IfOk result (λ _. HasFollowed B.meaning kernel.old journal.now kernel.new) }
    ensures departs { IfErr result (Departs B.meaning kernel.old journal.now kernel.new turns) }
{
    for at in 0..journal.len() {
        let given = given_at(journal, at);
        let why = take_turns(kernel, given, turns);
        if why != BodyVerdict::Follows {
            return Err(Departure { at, why });
        }
    }
    Ok(())
}

impl<B: Body> Shadow<B> {
    /// A shadow from this kernel on.
    pub fn new(kernel: Kernel<B>) -> Shadow<B>
        ensures { result ≡ kernel }
    {
        Shadow { kernel }
    }

    /// Its kernel.
    pub fn kernel(&self) -> &Kernel<B>
        ensures { result.now ≡ self.now }
    {
        &self.kernel
    }

    /// What the text of the actor of the processor of this number, from 1, does next. None where no one acts there, and
    /// where the text does not come to it within the bound.
    pub fn next(&self, p: u8) -> Option<Act>
        ensures { result ≡ act_on B.meaning self.now p }
    {
        let stretch = next_stretch(&self.kernel, p)?;
        Act::of(stretch)
    }

    /// Takes what comes, in at most `turns` turns of the text. The verdict is `Follows` if the text does just this
    /// next, and its kernel has then made the event. Else its kernel has only gone on within the stretch of the actor:
    /// up to where the text does another thing, or for all of the turns; then another call of `take` goes on.
    pub fn take(&mut self, given: Given, turns: u32) -> BodyVerdict
        ensures follows { result ≡ BodyVerdict.Follows → HasFollowed B.meaning self.old (given ∷ []) self.new }
        ensures stays { result ≢ BodyVerdict.Follows → HasFollowed B.meaning self.old [] self.new }
        ensures differs { result ≡ BodyVerdict.Differs → DoesOtherwise B.meaning self.new given }
        ensures long { result ≡ BodyVerdict.Long → self.new.taken ≡ self.old.taken + turns }
        ensures full { result ≡ BodyVerdict.Full → 2 ^ 31 ≤ self.new.taken }
    {
        take_turns(&mut self.kernel, given, turns)
    }

    /// Takes a whole journal, each entry in at most `turns` turns of the text, up to the first entry that the text does
    /// not follow.
    pub fn replay(&mut self, journal: &[Given], turns: u32) -> Result<(), Departure>
        ensures follows { IfOk result (λ _. HasFollowed B.meaning self.old journal.now self.new) }
        ensures departs { IfErr result (Departs B.meaning self.old journal.now self.new turns) }
    {
        replay_all(&mut self.kernel, journal, turns)
    }

    /// The counts of its kernel begin again, as by `Kernel::restart_count`.
    pub fn restart_count(&mut self)
        ensures { self.new ≡ counts_restarted self.old }
    {
        self.kernel.restart_count();
    }
}
