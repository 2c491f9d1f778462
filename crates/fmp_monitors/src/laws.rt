//! Laws of monitors, each the contract of a function that does nothing.
ghost use Rattle.std.specs.Prelude.{◌≡◌, ◌∷◌, List, false, true};
ghost use Rattle.fmp_base.specs.declared.events.Line.{Line};
ghost use Rattle.fmp_base.specs.States.{KernelState};
ghost use Rattle.fmp_base.specs.Systems.{SystemTables};
ghost use Rattle.fmp_bisimulation.specs.Alike.{AlikeStates};
ghost use Rattle.fmp_bisimulation.specs.Closed.{timeless};
ghost use Rattle.fmp_monitors.specs.declared.condition.Condition.{Condition};
ghost use Rattle.fmp_monitors.specs.declared.sentence.Sentence.{Sentence};
ghost use Rattle.fmp_monitors.specs.declared.standing.Standing.{Standing};
ghost use Rattle.fmp_monitors.specs.Conditions.{holds as is_so};
ghost use Rattle.fmp_monitors.specs.Meaning.{Seen, breaks};
ghost use Rattle.fmp_monitors.specs.Monitors.{breaks_by_line, is_broken_by, is_empty_claim, next_by_line};
ghost use Rattle.fmp_monitors.specs.Monitors.{next_standing, standing_of};
ghost use Rattle.fmp_monitors.specs.Standings.{code};

/// What a monitor keeps is what was seen so far comes to, and it tells what breaks the sentence.
#[tactic(auto, using(crate::proofs::MonitorLaws::next_is, crate::proofs::MonitorLaws::breaks_is))]
pub fn monitors_tell_what_breaks()
    ensures next { (e : Sentence) (before : List Seen) (x : Seen) →
        next_standing e (standing_of e before) x ≡ standing_of e (x ∷ before) }
    ensures breaks { (e : Sentence) (before : List Seen) (x : Seen) →
        is_broken_by e (standing_of e before) x ≡ breaks e before x }
{}

/// A sentence that says nothing of what was seen is not broken by it.
#[tactic(auto, using(crate::proofs::EmptyLaws::empty_is_kept))]
pub fn empty_claims_are_kept()
    ensures { (e : Sentence) (before : List Seen) (x : Seen) → is_empty_claim e (x ∷ before) ≡ true →
        breaks e before x ≡ false }
{}

/// The number of what is kept of a sentence tells it.
#[tactic(auto, using(crate::proofs::MonitorLaws::codes_tell))]
pub fn codes_tell_standings()
    ensures { (e : Sentence) (xs ys : List Seen) → code (standing_of e xs) ≡ code (standing_of e ys) →
        standing_of e xs ≡ standing_of e ys }
{}

/// Monitors do not look at the number of the clock.
#[tactic(auto, using(crate::proofs::TimelessLaws::next_timeless, crate::proofs::TimelessLaws::breaks_timeless))]
pub fn monitors_are_timeless()
    ensures next { (e : Sentence) (s : Standing) (l : Line) → next_by_line e s (timeless l) ≡ next_by_line e s l }
    ensures breaks { (e : Sentence) (s : Standing) (l : Line) →
        breaks_by_line e s (timeless l) ≡ breaks_by_line e s l }
{}

/// A condition is the same in alike states.
pub fn conditions_are_the_same_in_alike_states()
    ensures { (sys : SystemTables) (s u : KernelState) (c : Condition) → AlikeStates sys s u →
        is_so c s ≡ is_so c u }
{}
