//! The laws of sound worlds, each the contract of a function that does nothing.
ghost use Rattle.std.specs.Prelude.{List, ℕ};
ghost use Rattle.fmp_base.specs.declared.events.Event.{Event};
ghost use Rattle.fmp_base.specs.Meanings.{World};
ghost use Rattle.fmp_base.specs.Ranges.{IsInRange};
ghost use Rattle.fmp_base.specs.Steps.{step};
ghost use Rattle.fmp_base.specs.Systems.{SystemTables};
ghost use Rattle.fmp_image_bytes.specs.Images.{ImageTables, IsImage};
ghost use Rattle.fmp_instructions.specs.declared.instructions.MachineContext.{MachineContext};
ghost use Rattle.fmp_instructions.specs.Instructions.{BodyTables};
ghost use Rattle.fmp_instructions.specs.Machine.{code_meaning};
ghost use Rattle.fmp_replay.specs.Replays.{replay};
ghost use Rattle.fmp_reachable.specs.Readable.{IsReadable};
ghost use Rattle.fmp_reachable.specs.Rooms.{HasBodies, HasRooms};
ghost use Rattle.fmp_reachable.specs.Sound.{IsSound, LeavesSound};

/// Every world that a replay on an image leaves is sound.
pub fn replays_are_sound()
    ensures { (i : ImageTables) (n : ℕ) (es : List Event) → IsImage i →
        IsSound i.system i.code (replay i n es).world }
{}

/// What an event leaves of a sound world is sound, whichever events led to that, if any did.
pub fn events_keep_worlds_sound()
    ensures { (sys : SystemTables) (bodies : List BodyTables) → HasRooms bodies → HasBodies sys bodies → (n : ℕ) →
        IsInRange sys → (w : World MachineContext) (e : Event) → IsSound sys bodies w →
        LeavesSound sys bodies (step sys (code_meaning bodies) n w e) }
{}

/// A sound world is readable.
pub fn sound_worlds_are_readable()
    ensures { (sys : SystemTables) (bodies : List BodyTables) (w : World MachineContext) → IsSound sys bodies w →
        IsReadable sys bodies w }
{}
