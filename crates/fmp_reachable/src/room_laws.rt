//! Laws of the rooms of bodies, each the contract of a function that does nothing.
ghost use Rattle.std.specs.Prelude.{◌≡◌, ◌<◌, ℕ, ℤ, pos, List, Some, get_or, slice_get};
ghost use Rattle.fmp_base.specs.declared.events.Event.{Event};
ghost use Rattle.fmp_base.specs.Contexts.{OfCall};
ghost use Rattle.fmp_base.specs.Meanings.{World};
ghost use Rattle.fmp_base.specs.Runs.{run};
ghost use Rattle.fmp_base.specs.Setups.{setup};
ghost use Rattle.fmp_base.specs.Systems.{SystemTables};
ghost use Rattle.fmp_base.specs.declared.calls.Reply.{Reply};
ghost use Rattle.fmp_instructions.specs.declared.instructions.MachineContext.{MachineContext};
ghost use Rattle.fmp_instructions.specs.Instructions.{BodyTables};
ghost use Rattle.fmp_instructions.specs.Machine.{code_meaning};
ghost use Rattle.fmp_image_bytes.specs.Images.{ImageTables, IsImage};
ghost use Rattle.fmp_replay.specs.Replays.{replay};
ghost use Rattle.fmp_reachable.specs.Worlds.{SameBodies};
ghost use Rattle.fmp_reachable.specs.Told.{AreTold};
ghost use Rattle.fmp_reachable.specs.Rooms.{HasBodies, HasSizes, HasRooms, IsWithin, IsWithinRooms, locals_at};

/// A body begins within its room. A stretch that begins within the room of its body leaves a context within it, where
/// it makes a call or is cut at its bound, and a reply stays within it.
pub fn bodies_stay_within_their_rooms()
    ensures start { (bodies : List BodyTables) → HasRooms bodies → (k : ℕ) (body : BodyTables) →
        slice_get bodies k ≡ Some body → (exinf : ℤ) → IsWithin bodies k ((code_meaning bodies).start k exinf) }
    ensures stretch { (bodies : List BodyTables) → HasRooms bodies → (k n : ℕ) (c : MachineContext) →
        IsWithin bodies k c → OfCall (IsWithin bodies k) ((code_meaning bodies).stretch k n c) }
    ensures reply { (bodies : List BodyTables) → HasRooms bodies → (k : ℕ) (c : MachineContext) (reply : Reply) →
        IsWithin bodies k c → IsWithin bodies k ((code_meaning bodies).deliver k c reply) }
{}

/// In every world that setup and events reach, a context is kept of each task and of each handler that runs, within
/// the room of its body, if the states on the way have as many processors and cyclic handlers as the system.
pub fn worlds_stay_within_their_rooms()
    ensures { (sys : SystemTables) (bodies : List BodyTables) → HasRooms bodies → HasBodies sys bodies → (n : ℕ) →
        ((fs : List Event) →
        HasSizes sys (run sys (code_meaning bodies) n (setup sys (code_meaning bodies)).world fs).world.state) →
        (es : List Event) →
        IsWithinRooms sys bodies (run sys (code_meaning bodies) n (setup sys (code_meaning bodies)).world es).world }
{}

/// The place of a context within the room of its body, how many operands it has, these, and the body's own locals tell
/// all of it.
pub fn contexts_told_are_the_same()
    ensures { (bodies : List BodyTables) (k : ℕ) (c d : MachineContext) → IsWithin bodies k c → IsWithin bodies k d →
        c.pc ≡ d.pc → c.count ≡ d.count →
        ((l : ℕ) → l < locals_at bodies k → get_or c.locals l (pos 0) ≡ get_or d.locals l (pos 0)) →
        ((i : ℕ) → i < c.count → get_or c.operands i (pos 0) ≡ get_or d.operands i (pos 0)) → c ≡ d }
{}

/// Worlds within the rooms of one code, in which the same handlers run and the same is told of what is kept, keep the
/// same of each body.
pub fn bodies_told_are_the_same()
    ensures { (sys : SystemTables) (bodies : List BodyTables) (v w : World MachineContext) →
        IsWithinRooms sys bodies v → IsWithinRooms sys bodies w → AreTold sys bodies v w → SameBodies v w }
{}

/// The code of an image keeps to its depth tables, each of its bodies has a local for its extended information, and it
/// has the body of each task and of each handler.
pub fn images_have_rooms()
    ensures rooms { (i : ImageTables) → IsImage i → HasRooms i.code }
    ensures bodies { (i : ImageTables) → IsImage i → HasBodies i.system i.code }
{}

/// After the replay of any events on an image, a context is kept of each task and of each handler that runs, within the
/// room of its body, if the states on the way have as many processors and cyclic handlers as the system.
pub fn replays_stay_within_their_rooms()
    ensures { (i : ImageTables) → IsImage i → (n : ℕ) →
        ((fs : List Event) → HasSizes i.system (replay i n fs).world.state) → (es : List Event) →
        IsWithinRooms i.system i.code (replay i n es).world }
{}
