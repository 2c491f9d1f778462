//! Laws of the kernel's worlds, each the contract of a function that does nothing. `C` is the type of the contexts of
//! bodies.
ghost use Rattle.std.specs.Prelude.{◌≡◌, ◌≤◌, ◌+◌, ◌++◌, ℕ, List, Some};
ghost use Rattle.fmp_base.specs.declared.bodies.Held.TheVariants.{Awaits};
ghost use Rattle.fmp_base.specs.declared.calls.Answer.TheVariants.{Spins};
ghost use Rattle.fmp_base.specs.declared.calls.Call.{Call};
ghost use Rattle.fmp_base.specs.declared.events.Event.{Event};
ghost use Rattle.fmp_base.specs.declared.events.Event.TheVariants.{Run};
ghost use Rattle.fmp_base.specs.declared.states.Caller.{Caller};
ghost use Rattle.fmp_base.specs.Calls.{called};
ghost use Rattle.fmp_base.specs.Meanings.{Meaning, World, context_of};
ghost use Rattle.fmp_base.specs.Runs.{run};
ghost use Rattle.fmp_base.specs.Setups.{setup};
ghost use Rattle.fmp_base.specs.States.{KernelState, processor_at, unchanged};
ghost use Rattle.fmp_base.specs.Steps.{Done, Did, Kept, actor_of, step};
ghost use Rattle.fmp_base.specs.Stretches.{Ending};
ghost use Rattle.fmp_base.specs.Systems.{SystemTables};
ghost use Rattle.fmp_worlds.specs.Settled.{RunOnce, IsSettled};
ghost use Rattle.fmp_worlds.specs.Spins.{MaySpin};
ghost use Rattle.fmp_worlds.specs.Stamps.{EndsSo, Going, actor_at, applied, stamp};

/// Setup leaves a settled state, and so does each event that is done in one. An event that keeps a place changes
/// nothing of the state.
pub fn worlds_are_settled<C>()
    ensures setup { (sys : SystemTables) (M : Meaning C) → IsSettled sys (setup sys M).world.state }
    ensures step { (sys : SystemTables) (M : Meaning C) (n : ℕ) (w : World C) (e : Event) (d : Done C) →
        IsSettled sys w.state → step sys M n w e ≡ Did d → IsSettled sys d.world.state }
    ensures kept { (sys : SystemTables) (M : Meaning C) (n : ℕ) (w v : World C) (e : Event) (p : ℕ) →
        step sys M n w e ≡ Kept p v → v.state ≡ w.state }
{}

/// In a settled state no task is run by two processors.
pub fn settled_states_run_once()
    ensures { (sys : SystemTables) (s : KernelState) → IsSettled sys s → RunOnce s }
{}

/// In no world that setup and events reach is a task run by two processors.
pub fn tasks_run_once<C>()
    ensures { (sys : SystemTables) (M : Meaning C) (n : ℕ) (es : List Event) →
        RunOnce (run sys M n (setup sys M).world es).world.state }
{}

/// In no world that setup and events reach does the actor of a processor await a reply.
pub fn actors_await_nothing<C>()
    ensures { (sys : SystemTables) (M : Meaning C) (n : ℕ) (es : List Event) (p : ℕ) (who : Caller) (c : C) →
        actor_of (processor_at (run sys M n (setup sys M).world es).world.state p) ≡ Some who →
        context_of (run sys M n (setup sys M).world es).world.contexts p who ≡ Some (Awaits c) → ⊥ }
{}

/// A call that finds its spin lock held, so that its caller spins, has changed nothing and has no line. Its caller is a
/// task then, its processor is not locked, and some processor holds a spin lock.
pub fn spinning_changes_nothing()
    ensures held { (sys : SystemTables) (s : KernelState) (p : ℕ) (who : Caller) (c : Call) →
        (called sys s p who c).answer ≡ Spins → MaySpin sys s p who }
    ensures unchanged { (sys : SystemTables) (s : KernelState) (p : ℕ) (who : Caller) (c : Call) →
        (called sys s p who c).answer ≡ Spins → (called sys s p who c).progress ≡ unchanged s }
{}

/// Along one run after setup the stamp of a processor never falls, and equal stamps mean the same actor in the same
/// context.
pub fn equal_stamps_mean_the_same_actor<C>()
    ensures never_falls { (sys : SystemTables) (M : Meaning C) (n : ℕ) (es fs : List Event) (p : ℕ) →
        stamp sys M n (setup sys M).world es p ≤ stamp sys M n (setup sys M).world (es ++ fs) p }
    ensures same { (sys : SystemTables) (M : Meaning C) (n : ℕ) (es fs : List Event) (p : ℕ) (a : Going C) →
        actor_at sys (run sys M n (setup sys M).world es).world p ≡ Some a →
        stamp sys M n (setup sys M).world (es ++ fs) p ≡ stamp sys M n (setup sys M).world es p →
        actor_at sys (run sys M n (setup sys M).world (es ++ fs)).world p ≡ Some a }
{}

/// To hand in the stretch that a processor's actor makes is to run the processor.
pub fn applying_is_running<C>()
    ensures { (sys : SystemTables) (M : Meaning C) (n : ℕ) (w : World C) (p : ℕ) (x : Ending C) →
        EndsSo M n x (actor_at sys w p) → applied sys M w (p + 1) x ≡ step sys M n w (Run (p + 1)) }
{}
