//! Laws of the worlds that are reached, each the contract of a function that does nothing. `C` is the type of the
//! contexts of bodies.
ghost use Rattle.std.specs.Prelude.{List, ℕ};
ghost use Rattle.fmp_base.specs.declared.events.Event.{Event};
ghost use Rattle.fmp_base.specs.Meanings.{Meaning};
ghost use Rattle.fmp_base.specs.Ranges.{IsInRange};
ghost use Rattle.fmp_base.specs.Runs.{run};
ghost use Rattle.fmp_base.specs.Setups.{setup};
ghost use Rattle.fmp_base.specs.States.{KernelState};
ghost use Rattle.fmp_base.specs.Systems.{SystemTables};
ghost use Rattle.fmp_image_bytes.specs.Images.{ImageTables, IsImage};
ghost use Rattle.fmp_replay.specs.Replays.{replay};
ghost use Rattle.fmp_reachable.specs.Values.{SameSizes};
ghost use Rattle.fmp_reachable.specs.Worlds.{IsRegularWorld};
ghost use Rattle.fmp_reachable.specs.Sizes.{AreWithinCapacity, IsOfSystem, IsWorldOfSystem};
ghost use Rattle.fmp_reachable.specs.Readable.{IsReadable};

/// Every world that setup and events reach is regular, and has as many of each as its system. None of its data queues
/// holds more words than its capacity.
pub fn worlds_are_regular<C>()
    ensures regular { (sys : SystemTables) (M : Meaning C) (n : ℕ) (es : List Event) → IsInRange sys →
        IsRegularWorld sys (run sys M n (setup sys M).world es).world }
    ensures sizes { (sys : SystemTables) (M : Meaning C) (n : ℕ) (es : List Event) → IsInRange sys →
        IsWorldOfSystem sys (run sys M n (setup sys M).world es).world }
    ensures words { (sys : SystemTables) (M : Meaning C) (n : ℕ) (es : List Event) → IsInRange sys →
        AreWithinCapacity sys (run sys M n (setup sys M).world es).world.state.data_queues }
{}

/// Every world of a replay on an image is regular, and the system of the image is in range.
pub fn replays_are_regular()
    ensures regular { (i : ImageTables) (n : ℕ) (es : List Event) → IsInRange i.system →
        IsRegularWorld i.system (replay i n es).world }
    ensures sizes { (i : ImageTables) (n : ℕ) (es : List Event) → IsInRange i.system →
        IsWorldOfSystem i.system (replay i n es).world }
    ensures words { (i : ImageTables) (n : ℕ) (es : List Event) → IsInRange i.system →
        AreWithinCapacity i.system (replay i n es).world.state.data_queues }
{}

/// Two states of one system have as many of each.
pub fn states_of_a_system_have_the_same_sizes()
    ensures { (sys : SystemTables) (s u : KernelState) → IsOfSystem sys s → IsOfSystem sys u → SameSizes s u }
{}

/// Every world that a replay on an image leaves is readable: it is regular and of the size of its system, each of its
/// contexts lies within the room of its body, and none of its data queues holds more words than its capacity.
pub fn replays_are_readable()
    ensures { (i : ImageTables) (n : ℕ) (es : List Event) → IsImage i →
        IsReadable i.system i.code (replay i n es).world }
{}
