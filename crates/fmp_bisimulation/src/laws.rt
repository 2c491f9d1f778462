//! Laws of alike worlds, each the contract of a function that does nothing. `C` is the type of the contexts of bodies,
//! `S` that of what is watched.
ghost use Rattle.std.specs.Prelude.{◌≡◌, ℕ, Bool, List, false};
ghost use Rattle.fmp_base.specs.declared.events.Event.{Event};
ghost use Rattle.fmp_base.specs.declared.calls.Call.{Call};
ghost use Rattle.fmp_base.specs.declared.states.Caller.{Caller};
ghost use Rattle.fmp_base.specs.declared.states.WaitQueue.{WaitQueue};
ghost use Rattle.fmp_base.specs.Calls.{called};
ghost use Rattle.fmp_base.specs.Meanings.{Meaning, World};
ghost use Rattle.fmp_base.specs.Queues.{first_ready, top, wait_queue};
ghost use Rattle.fmp_base.specs.Runs.{run};
ghost use Rattle.fmp_base.specs.Settles.{settled};
ghost use Rattle.fmp_base.specs.Setups.{setup};
ghost use Rattle.fmp_base.specs.States.{KernelState, Progress};
ghost use Rattle.fmp_base.specs.Steps.{step};
ghost use Rattle.fmp_base.specs.Systems.{SystemTables};
ghost use Rattle.fmp_base.specs.Ticks.{ticked};
ghost use Rattle.fmp_worlds.specs.Settled.{IsSettled};
ghost use Rattle.fmp_bisimulation.specs.Alike.{Alike, AlikeStates, SameOutcome, SameProgress};
ghost use Rattle.fmp_bisimulation.specs.Closed.{
  AreAllowed,
  IsBlind,
  IsChained,
  IsClosed,
  IsCovered,
  IsListed,
  IsRule,
  KeepsAlike,
  NoneIsBad,
  Seen,
  Watch,
  anything,
  watched,
};
ghost use Rattle.fmp_bisimulation.specs.Still.{IsStill};

/// Worlds are alike themselves; where one is alike to another, that is alike to the one; and what is alike to one is
/// alike to whatever that is alike to.
pub fn alike_worlds_are_chained<C>()
    ensures same { (sys : SystemTables) (w : World C) → IsSettled sys w.state → Alike sys w w }
    ensures turned { (sys : SystemTables) (v w : World C) → Alike sys v w → Alike sys w v }
    ensures chained { (sys : SystemTables) → IsChained {C = C} (Alike sys) }
{}

/// Alike states have the same queues: the task that a processor is to run, the first of a priority there, and those
/// that wait at each object, in order.
pub fn alike_states_have_the_same_queues()
    ensures top { (sys : SystemTables) (s u : KernelState) (p : ℕ) → AlikeStates sys s u → top s p ≡ top u p }
    ensures first_ready { (sys : SystemTables) (s u : KernelState) (p priority : ℕ) →
        AlikeStates sys s u → first_ready s p priority ≡ first_ready u p priority }
    ensures wait_queue { (sys : SystemTables) (s u : KernelState) (q : WaitQueue) →
        AlikeStates sys s u → wait_queue sys s q ≡ wait_queue sys u q }
{}

/// The clock does the same in alike states.
pub fn ticks_do_the_same()
    ensures { (sys : SystemTables) (s u : KernelState) →
        AlikeStates sys s u → SameProgress sys (ticked sys s) (ticked sys u) }
{}

/// All processors settle in the same way in alike states.
pub fn processors_settle_the_same()
    ensures { (sys : SystemTables) (g i : Progress) →
        SameProgress sys g i → SameProgress sys (settled sys g) (settled sys i) }
{}

/// Every service call, by every caller, comes to the same in alike states: the same answer and the same lines, and
/// alike states after it.
pub fn calls_come_to_the_same()
    ensures { (sys : SystemTables) (s u : KernelState) → AlikeStates sys s u → (p : ℕ) (who : Caller) (c : Call) →
        SameOutcome sys (called sys s p who c) (called sys u p who c) }
{}

/// Each event does the same in alike worlds: nothing in both, or the same, by lines that differ in the number of the
/// clock at most, or the same processor's actor keeps its place; and leaves alike worlds.
pub fn events_do_the_same<C>()
    ensures { (sys : SystemTables) (M : Meaning C) (n : ℕ) → KeepsAlike (Alike sys) (step sys M n) }
{}

/// No list of events, however long, leads out of a closed list of worlds: a run that begins in a world like one of the
/// list ends in a world like one of the list, with the watch that this one has. A run from setup does, if the list has
/// the world after setup. Where a rule says which events may come, so it is with each list of events that the rule
/// allows.
pub fn closed_lists_keep<C, S>()
    ensures allowed { (sys : SystemTables) (M : Meaning C) (n : ℕ) (W : Watch S) (may : World C → S → Event → Bool)
        (seen : List (Seen C S)) →
        IsBlind W → IsRule (Alike sys) may → IsClosed (Alike sys) W may (step sys M n) (IsListed seen) →
        (v : World C) (a : S) (es : List Event) → AreAllowed W may (step sys M n) v a es →
        IsCovered (Alike sys) (IsListed seen) v a →
        IsCovered (Alike sys) (IsListed seen) (run sys M n v es).world (watched W a (run sys M n v es).events) }
    ensures all { (sys : SystemTables) (M : Meaning C) (n : ℕ) (W : Watch S) (seen : List (Seen C S)) →
        IsBlind W → IsClosed (Alike sys) W anything (step sys M n) (IsListed seen) →
        (a : S) (es : List Event) → IsListed seen (setup sys M).world a →
        IsCovered (Alike sys) (IsListed seen) (run sys M n (setup sys M).world es).world
        (watched W a (run sys M n (setup sys M).world es).events) }
{}

/// Where none of a closed list is bad, what is watched turns bad along no list of events that the rule allows, nor,
/// without a rule, along any from setup.
pub fn closed_lists_miss_nothing<C, S>()
    ensures allowed { (sys : SystemTables) (M : Meaning C) (n : ℕ) (W : Watch S) (may : World C → S → Event → Bool)
        (seen : List (Seen C S)) →
        IsBlind W → IsRule (Alike sys) may → IsClosed (Alike sys) W may (step sys M n) (IsListed seen) →
        NoneIsBad W (IsListed seen) → (v : World C) (a : S) (es : List Event) →
        AreAllowed W may (step sys M n) v a es → IsCovered (Alike sys) (IsListed seen) v a →
        W.is_bad (watched W a (run sys M n v es).events) ≡ false }
    ensures all { (sys : SystemTables) (M : Meaning C) (n : ℕ) (W : Watch S) (seen : List (Seen C S)) →
        IsBlind W → IsClosed (Alike sys) W anything (step sys M n) (IsListed seen) → NoneIsBad W (IsListed seen) →
        (a : S) (es : List Event) → IsListed seen (setup sys M).world a →
        W.is_bad (watched W a (run sys M n (setup sys M).world es).events) ≡ false }
{}

/// No list of events that may come leads out of a world that stands still, as at a deadlock; and what is like a world
/// that stands still stands still.
pub fn still_worlds_stay<C, S>()
    ensures alike { (sys : SystemTables) (M : Meaning C) (n : ℕ) (W : Watch S) (may : World C → S → Event → Bool) →
        IsBlind W → IsRule (Alike sys) may → (v w : World C) (a : S) → Alike sys v w →
        IsStill (Alike sys) W may (step sys M n) v a → IsStill (Alike sys) W may (step sys M n) w a }
    ensures world { (sys : SystemTables) (M : Meaning C) (n : ℕ) (W : Watch S) (may : World C → S → Event → Bool) →
        IsBlind W → IsRule (Alike sys) may → (w : World C) (a : S) (es : List Event) →
        IsSettled sys w.state → IsStill (Alike sys) W may (step sys M n) w a → AreAllowed W may (step sys M n) w a es →
        Alike sys w (run sys M n w es).world }
    ensures watch { (sys : SystemTables) (M : Meaning C) (n : ℕ) (W : Watch S) (may : World C → S → Event → Bool) →
        IsBlind W → IsRule (Alike sys) may → (w : World C) (a : S) (es : List Event) →
        IsSettled sys w.state → IsStill (Alike sys) W may (step sys M n) w a → AreAllowed W may (step sys M n) w a es →
        watched W a (run sys M n w es).events ≡ a }
{}
