//! The laws, each the contract of a function that does nothing.
ghost use Rattle.std.specs.Prelude.{◌≡◌, ◌<◌, ℕ, Bool, List, map, true};
ghost use Rattle.fmp_bisimulation.specs.Alike.{Alike};
ghost use Rattle.fmp_base.specs.Meanings.{World};
ghost use Rattle.fmp_base.specs.Systems.{SystemTables};
ghost use Rattle.fmp_fields.specs.declared.field.What.{What};
ghost use Rattle.fmp_fields.specs.FieldNumbers.{number_of};
ghost use Rattle.fmp_reachable.specs.Readable.{IsReadable};
ghost use Rattle.fmp_fields.specs.Fields.{AreAllFields};
ghost use Rattle.fmp_instructions.specs.declared.instructions.MachineContext.{MachineContext};
ghost use Rattle.fmp_instructions.specs.Instructions.{BodyTables};
ghost use Rattle.fmp_live.specs.LiveLocals.{AreLiveTables, LiveTable};
ghost use Rattle.fmp_live.specs.Zeroed.{IsLike, zeroed};

/// Worlds of one system and code in which each field has the same number are alike.
pub fn worlds_of_the_same_numbers_are_alike()
    ensures { (sys : SystemTables) (bodies : List BodyTables) (limited : Bool) (fields : List What)
        (v w : World MachineContext) (came other : ℕ) → AreAllFields sys bodies limited fields →
        IsReadable sys bodies v → IsReadable sys bodies w →
        map (number_of sys v came) fields ≡ map (number_of sys w other) fields → Alike sys v w }
{}

/// Worlds in which each field has the same number once dead locals are 0, each by tables of its own, are alike but for
/// dead locals.
pub fn worlds_of_the_same_live_numbers_are_like()
    ensures { (outs : Bool) (sys : SystemTables) (bodies : List BodyTables) (limited : Bool) (fields : List What)
        (v w : World MachineContext) (tables others : List LiveTable) (came other : ℕ) →
        AreAllFields sys bodies limited fields → AreLiveTables outs bodies tables →
        AreLiveTables outs bodies others → IsReadable sys bodies v → IsReadable sys bodies w →
        map (number_of sys (zeroed sys tables v) came) fields
        ≡ map (number_of sys (zeroed sys others w) other) fields → IsLike outs sys bodies v w }
{}

/// Where their number is limited, the numbers of the fields tell how many interrupts came, if these were fewer than
/// 256.
pub fn numbers_tell_how_many_interrupts_came()
    ensures { (sys : SystemTables) (bodies : List BodyTables) (limited : Bool) (fields : List What)
        (v w : World MachineContext) (came other : ℕ) → AreAllFields sys bodies limited fields → limited ≡ true →
        came < 256 → other < 256 →
        map (number_of sys v came) fields ≡ map (number_of sys w other) fields → came ≡ other }
{}
