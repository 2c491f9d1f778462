//! Laws of schedules, each the contract of a function that does nothing. `C` is the type of the contexts of bodies, `S`
//! that of what is watched. They speak of alike worlds, but are proved for any relation that is `IsLikeness`. Those of
//! lists of worlds are proved for any set of worlds: by `tried-closed` of `proofs/TriedLaws`, by `closed-holds` and
//! `searched-holds` of `proofs/HoldLaws`, by `searched-silent` of `proofs/SilentLaws`, and by `none-stuck` of
//! `proofs/WayLaws`. No contract can speak of all sets, or of all relations.
ghost use Rattle.std.specs.Prelude.{◌≡◌, ◌+◌, ◌<◌, ◌≤◌, ℕ, Bool, List, Option, None, false, true, count_by, length};
ghost use Rattle.std.specs.Prelude.{if◌then◌else◌};
ghost use Rattle.fmp_base.specs.declared.events.Event.{Event};
ghost use Rattle.fmp_base.specs.declared.events.Event.TheVariants.{Run};
ghost use Rattle.fmp_base.specs.declared.events.Line.{Line};
ghost use Rattle.fmp_base.specs.Meanings.{Meaning, World};
ghost use Rattle.fmp_base.specs.Setups.{setup};
ghost use Rattle.fmp_base.specs.Steps.{Did, Done, Nothing, step};
ghost use Rattle.fmp_base.specs.Systems.{SystemTables};
ghost use Rattle.fmp_bisimulation.specs.Alike.{Alike};
ghost use Rattle.fmp_bisimulation.specs.Closed.{IsBlind, IsClosed, IsCovered, IsListed, IsRule, NoneIsBad, Seen, Watch};
ghost use Rattle.fmp_schedules.specs.Deadlocks.{IsDeadlock, is_interrupt};
ghost use Rattle.fmp_schedules.specs.Likeness.{AnyFits};
ghost use Rattle.fmp_schedules.specs.Monitors.{are_limiting};
ghost use Rattle.fmp_schedules.specs.Schedules.{
  Holds,
  HoldsThere,
  IsSchedule,
  Rules,
  Watched,
  watched_at_setup,
  is_request,
  may_come,
  none_runs,
  watch,
};
ghost use Rattle.fmp_schedules.specs.Stuck.{NoneIsStuck};
ghost use Rattle.fmp_schedules.specs.Tried.{
  AreSilent,
  IsEven,
  IsSearched,
  IsTimeless,
  IsTried,
  NoneBreaks,
  NoneIsDeadlock,
  is_event_of,
};
ghost use Rattle.fmp_schedules.specs.WaysOn.{HaveWays, IsNoted};

/// Where the clock may advance at any time, any number of interrupts may come, none of which is limited by itself, and
/// any number of activations and wakeups may be queued, every list of events is a schedule.
pub fn all_lists_are_schedules<C>()
    ensures { (rules : Rules) (sys : SystemTables) (M : Meaning C) (n : ℕ) (forbidden : Line → Bool)
        (es : List Event) → rules.idle_ticks ≡ false → rules.most ≡ None → rules.queued ≡ None →
        are_limiting rules.monitors ≡ false → IsSchedule rules sys M n forbidden es }
{}

/// `none_runs` is true exactly where none of the processors with these numbers can do anything.
pub fn idle_processors_do_nothing<C>()
    ensures each { (sys : SystemTables) (M : Meaning C) (n : ℕ) (w : World C) (processors : ℕ) →
        none_runs sys M n w processors ≡ true →
        (p : ℕ) → 1 ≤ p → p < processors + 1 → step sys M n w (Run p) ≡ Nothing }
    ensures none { (sys : SystemTables) (M : Meaning C) (n : ℕ) (w : World C) (processors : ℕ) →
        ((p : ℕ) → 1 ≤ p → p < processors + 1 → step sys M n w (Run p) ≡ Nothing) →
        none_runs sys M n w processors ≡ true }
{}

/// An interrupt that is done tells one line of an interrupt. Every other event that is done tells none, nor does setup.
pub fn interrupts_tell_one_line<C>()
    ensures done { (sys : SystemTables) (M : Meaning C) (n : ℕ) (w : World C) (e : Event) (d : Done C) →
        step sys M n w e ≡ Did d → count_by is_request d.lines ≡ (if is_interrupt e then 1 else 0) }
    ensures setup { (sys : SystemTables) (M : Meaning C) → count_by is_request (setup sys M).lines ≡ 0 }
{}

/// The rules let the same events come to alike worlds. What is watched does not look at the number of the clock, unless
/// the forbidden lines do.
pub fn rules_are_rules<C>()
    ensures rules { (rules : Rules) (sys : SystemTables) (M : Meaning C) (n : ℕ) →
        IsRule (Alike sys) (may_come rules sys M n) }
    ensures watch { (rules : Rules) (forbidden : Line → Bool) → IsTimeless forbidden →
        IsBlind (watch rules forbidden) }
{}

/// What is like a deadlock is a deadlock.
pub fn deadlocks_are_alike<C>()
    ensures { (sys : SystemTables) (M : Meaning C) (n : ℕ) (v w : World C) (rest : List Bool) (interrupts : Bool) →
        IsDeadlock sys M n v rest interrupts → Alike sys v w → IsDeadlock sys M n w rest interrupts }
{}

/// An event that is none of a system's does nothing in any world that has its processors.
pub fn other_events_do_nothing<C>()
    ensures { (sys : SystemTables) (M : Meaning C) (n : ℕ) (w : World C) (e : Event) →
        length w.state.processors ≡ sys.processors → is_event_of sys e ≡ false → step sys M n w e ≡ Nothing }
{}

/// A list of worlds is closed if each of the system's events that may come to one of them was tried, on that world or
/// one like it, and led to nothing outside the list.
pub fn tried_lists_are_closed<C, S>()
    ensures { (sys : SystemTables) (M : Meaning C) (n : ℕ) (W : Watch S) (may : World C → S → Event → Bool)
        (seen : List (Seen C S)) → IsBlind W →
        ((w : World C) (a : S) → IsListed seen w a → length w.state.processors ≡ sys.processors) →
        ((w : World C) (a : S) (e : Event) → IsListed seen w a → is_event_of sys e ≡ true → may w a e ≡ true →
        IsTried (Alike sys) (λ v f. AnyFits v f) W (step sys M n) (IsListed seen) w a e) →
        IsClosed (Alike sys) W may (step sys M n) (IsListed seen) }
{}

/// If a closed list has a world like that after setup, and in none of its worlds was a forbidden line told or a
/// sentence broken by a line or by the state, and none is a deadlock, then no schedule, however long, tells a forbidden
/// line, breaks a sentence, or reaches a deadlock.
pub fn closed_lists_hold<C>()
    ensures { (rules : Rules) (sys : SystemTables) (M : Meaning C) (n : ℕ) (forbidden : Line → Bool)
        (rest : List Bool) (seen : List (Seen C Watched)) → IsTimeless forbidden →
        IsClosed (Alike sys) (watch rules forbidden) (may_come rules sys M n) (step sys M n) (IsListed seen) →
        IsCovered (Alike sys) (IsListed seen) (setup sys M).world (watched_at_setup rules sys M forbidden) →
        NoneIsBad (watch rules forbidden) (IsListed seen) → NoneBreaks rules (IsListed seen) →
        NoneIsDeadlock rules sys M n rest (IsListed seen) →
        Holds rules sys M n forbidden rest }
{}

/// A search that tried each event and found nothing shows the same.
pub fn complete_searches_hold<C>()
    ensures { (rules : Rules) (sys : SystemTables) (M : Meaning C) (n : ℕ) (forbidden : Line → Bool)
        (rest : List Bool) (seen : List (Seen C Watched)) → IsTimeless forbidden →
        IsSearched (Alike sys) (λ w e. AnyFits w e) rules sys M n forbidden rest (IsListed seen) →
        Holds rules sys M n forbidden rest }
{}

/// A search that tried each event, and in which none told a line that is forbidden in the world that it left, shows
/// that no event of a schedule, however long, tells one.
pub fn silent_searches_hold<C>()
    ensures { (rules : Rules) (sys : SystemTables) (M : Meaning C) (n : ℕ) (forbidden : Line → Bool)
        (rest : List Bool) (seen : List (Seen C Watched)) → IsTimeless forbidden →
        IsSearched (Alike sys) (λ w e. AnyFits w e) rules sys M n forbidden rest (IsListed seen) →
        (there : World C → Line → Bool) → IsEven (Alike sys) there →
        AreSilent (Alike sys) (λ w e. AnyFits w e) rules sys M n there (IsListed seen) →
        HoldsThere rules sys M n forbidden there }
{}

/// A search that tried each event and found nothing, and in which, in each world, each task that is started and may not
/// rest has a way on: at the world's place in the list a distance is noted for the task, and some event that may come
/// there tells an act of the task, or leads to a world of the list with a smaller distance. Then no task is ever stuck:
/// after each schedule, however long, more events may come along which it acts.
pub fn ways_on_leave_none_stuck<C>()
    ensures { (rules : Rules) (sys : SystemTables) (M : Meaning C) (n : ℕ) (forbidden : Line → Bool)
        (rest resting : List Bool) (seen : List (Seen C Watched)) (distances : ℕ → ℕ → Option ℕ) →
        IsTimeless forbidden →
        IsSearched (Alike sys) (λ w e. AnyFits w e) rules sys M n forbidden rest (IsListed seen) →
        HaveWays (Alike sys) (λ w e. AnyFits w e) rules sys M n forbidden resting (IsListed seen)
        (λ t. IsNoted seen (distances t)) →
        NoneIsStuck rules sys M n resting }
{}
