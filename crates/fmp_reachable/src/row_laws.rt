//! Laws of what rows tell, each the contract of a function that does nothing.
ghost use Rattle.std.specs.Prelude.{◌≡◌, ℕ};
ghost use Rattle.fmp_base.specs.Meanings.{World};
ghost use Rattle.fmp_base.specs.States.{KernelState};
ghost use Rattle.fmp_base.specs.Systems.{SystemTables};
ghost use Rattle.fmp_bisimulation.specs.Alike.{Alike, AlikeStates, SameBlocks, SameTimes, untimed};
ghost use Rattle.fmp_reachable.specs.Behind.{IsOrderly, task_behind};
ghost use Rattle.fmp_reachable.specs.Rows.{IsRegular, SameRow};
ghost use Rattle.fmp_reachable.specs.Worlds.{IsRegularWorld, SameBodies};

/// States are alike in which the blocks, the times and all values are the same, and the same task stands behind each.
pub fn states_told_are_alike()
    ensures { (sys : SystemTables) (s u : KernelState) → IsOrderly s → IsOrderly u →
        SameBlocks s.clock u.clock s.tasks u.tasks → ((t : ℕ) → task_behind sys s t ≡ task_behind sys u t) →
        SameTimes s.clock u.clock s.due_times u.due_times → untimed s ≡ untimed u → AlikeStates sys s u }
{}

/// States of one system of which a row tells the same are alike.
pub fn rows_tell_what_is_alike()
    ensures { (sys : SystemTables) (s u : KernelState) → IsRegular sys s → IsRegular sys u → SameRow sys s u →
        AlikeStates sys s u }
{}

/// Worlds of one system of which a row tells the same, and of whose bodies the same contexts are kept, are alike: the
/// phase of a task tells whether its context awaits a reply. `C` is the type of the contexts.
pub fn worlds_told_are_alike<C>()
    ensures { (sys : SystemTables) (v w : World C) → IsRegularWorld sys v → IsRegularWorld sys w →
        SameRow sys v.state w.state → SameBodies v w → Alike sys v w }
{}
