//! Laws of live locals, each the contract of a function that does nothing.
ghost use Rattle.std.specs.Prelude.{ℕ, Bool, List, false};
ghost use Rattle.fmp_bisimulation.specs.Alike.{Alike, AlikeStates};
ghost use Rattle.fmp_bisimulation.specs.Closed.{BothAlike, IsChained, KeepsAlike};
ghost use Rattle.fmp_base.specs.declared.events.Event.{Event};
ghost use Rattle.fmp_base.specs.Meanings.{World};
ghost use Rattle.fmp_base.specs.Steps.{step};
ghost use Rattle.fmp_base.specs.Systems.{SystemTables};
ghost use Rattle.fmp_instructions.specs.declared.instructions.MachineContext.{MachineContext};
ghost use Rattle.fmp_instructions.specs.Instructions.{BodyTables};
ghost use Rattle.fmp_instructions.specs.Machine.{code_meaning};
ghost use Rattle.fmp_live.specs.Fits.{IsFit};
ghost use Rattle.fmp_live.specs.LiveLocals.{AreLiveTables, LiveTable};
ghost use Rattle.fmp_live.specs.Zeroed.{IsLike, zeroed};
ghost use Rattle.fmp_worlds.specs.Settled.{IsSettled};

/// Being alike but for dead locals is symmetric and transitive, it holds of alike worlds, and the states of such worlds
/// are alike.
pub fn like_worlds_are_chained()
    ensures alike { (outs : Bool) (sys : SystemTables) (bodies : List BodyTables) (v w : World MachineContext) →
        Alike sys v w → IsLike outs sys bodies v w }
    ensures turned { (outs : Bool) (sys : SystemTables) (bodies : List BodyTables) (v w : World MachineContext) →
        IsLike outs sys bodies v w → IsLike outs sys bodies w v }
    ensures chained { (outs : Bool) (sys : SystemTables) (bodies : List BodyTables) →
        IsChained (IsLike outs sys bodies) }
    ensures states { (outs : Bool) (sys : SystemTables) (bodies : List BodyTables) (v w : World MachineContext) →
        IsLike outs sys bodies v w → AlikeStates sys v.state w.state }
{}

/// Worlds that are alike once dead locals are 0, each by tables of its own, are alike but for dead locals.
pub fn zeroed_worlds_are_like()
    ensures { (outs : Bool) (sys : SystemTables) (bodies : List BodyTables) (v w : World MachineContext)
        (tables others : List LiveTable) → AreLiveTables outs bodies tables → AreLiveTables outs bodies others →
        IsSettled sys v.state → IsSettled sys w.state → Alike sys (zeroed sys tables v) (zeroed sys others w) →
        IsLike outs sys bodies v w }
{}

/// Each event does the same in worlds that are alike but for dead locals: nothing in both, or the same, by lines that
/// differ in the number of the clock at most, or the same processor's actor keeps its place; and leaves such worlds.
/// Where out places count as written by every reply, this is so of each event that fits the second world. One that does
/// not fit does the same to the state, by such lines.
pub fn events_do_the_same_but_for_dead_locals()
    ensures each { (sys : SystemTables) (bodies : List BodyTables) (n : ℕ) →
        KeepsAlike (IsLike false sys bodies) (step sys (code_meaning bodies) n) }
    ensures fit { (outs : Bool) (sys : SystemTables) (bodies : List BodyTables) (n : ℕ) (v w : World MachineContext)
        (e : Event) → IsLike outs sys bodies v w → IsFit outs sys bodies n w e → BothAlike (IsLike outs sys bodies)
        (step sys (code_meaning bodies) n v e) (step sys (code_meaning bodies) n w e) }
    ensures states { (outs : Bool) (sys : SystemTables) (bodies : List BodyTables) (n : ℕ)
        (v w : World MachineContext) (e : Event) → IsLike outs sys bodies v w →
        BothAlike (λ a b. AlikeStates sys a.state b.state) (step sys (code_meaning bodies) n v e)
        (step sys (code_meaning bodies) n w e) }
{}
