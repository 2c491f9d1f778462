//! Tests judge as searches do, and a seed has one random run.
ghost use Rattle.std.specs.Prelude.{◌≡◌, ℕ, List, [], ◌∷◌, is_some, true};
ghost use Rattle.std.specs.List.{list_any};
ghost use Rattle.fmp_base.specs.declared.events.Event.{Event};
ghost use Rattle.fmp_base.specs.declared.events.Line.{Line};
ghost use Rattle.fmp_base.specs.Runs.{run};
ghost use Rattle.fmp_expect.specs.declared.expectation.Expected.{Expected};
ghost use Rattle.fmp_expect.specs.Meaning.{failure};
ghost use Rattle.fmp_expect.specs.Runs.{with_events};
ghost use Rattle.fmp_kernel.specs.Comings.{reaction_of};
ghost use Rattle.fmp_kernel.specs.KernelViews.{KernelView};
ghost use Rattle.fmp_monitors.specs.declared.sentence.Sentence.{Sentence};
ghost use Rattle.fmp_schedules.specs.Monitors.{at_open, is_broken_along, is_broken_in};
ghost use Rattle.fmp_trials.specs.declared.choices.Choices.{Choices};
ghost use Rattle.fmp_trials.specs.Drawn.{IsRandomRun};
ghost use Rattle.fmp_trials.specs.Lines.{goes_by_lines, goes_by_states, states_after};
ghost use Rattle.fmp_trials.specs.Verdicts.{verdict};

use fmp_kernel::Body;

/// The monitor with which a search goes along the lines of events is broken where a line breaks the sentence by the
/// history of lines before it.
#[tactic(auto, using(crate::proofs::AlongLaws::along))]
pub fn monitors_go_by_histories()
    ensures { (e : Sentence) (n : ℕ) (events : List (List Line)) →
        is_broken_along (at_open e) events ≡ is_some (failure e (with_events n events [])) }
{}

/// A run fails a sentence about its lines exactly where the monitor of a search breaks along these lines. So no run
/// fails a sentence that holds along its lines, and each fails one that does not.
#[tactic(auto, using(crate::proofs::AlongLaws::judged_along))]
pub fn runs_are_judged_as_searches_judge<B: Body>()
    ensures { (k : KernelView B B.Ctx) (es : List Event) (x : Expected) → goes_by_lines x.sentence ≡ true →
        is_some (verdict (reaction_of B.meaning) k es (x ∷ []))
        ≡ is_broken_along (at_open x.sentence)
        (k.lines ∷ (run k.system (B.meaning k.body) k.bound k.world es).events) }
{}

/// A run fails `always` exactly where the state after setup, or after an event that is done, breaks it: in such states
/// a search looks for what breaks it.
#[tactic(auto, using(crate::proofs::StateLaws::judged_in_states))]
pub fn states_are_judged_as_searches_judge<B: Body>()
    ensures { (k : KernelView B B.Ctx) (es : List Event) (x : Expected) → goes_by_states x.sentence ≡ true →
        is_some (verdict (reaction_of B.meaning) k es (x ∷ []))
        ≡ list_any (is_broken_in (at_open x.sentence)) (k.world.state ∷ states_after B.meaning k es) }
{}

/// The choices of a seed make one random run: whoever knows the seed makes it again.
#[tactic(auto, using(crate::proofs::SeedLaws::one_run))]
pub fn a_seed_has_one_run<B: Body>()
    ensures { (k : KernelView B B.Ctx) (xs : List Expected) (c : Choices) (es fs : List Event) →
        IsRandomRun B.meaning k xs c es → IsRandomRun B.meaning k xs c fs → es ≡ fs }
{}
