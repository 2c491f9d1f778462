//! Laws of the stack machine, which the crates above take by name.
ghost use Rattle.fmp_code.specs.Laws.{StaysAtGreaterBounds, CutsGoOn, StaysStuck, MakesOnlyItsCalls, LastStops};

/// More instructions do not change how a stretch ends.
pub fn stretches_stay_at_greater_bounds()
    ensures { StaysAtGreaterBounds }
{}

/// A stretch that is cut at its bound goes on from what it hands over as if there had been no bound.
pub fn cut_stretches_go_on()
    ensures { CutsGoOn }
{}

/// A stretch that is stuck is stuck within any more instructions.
pub fn stuck_stretches_stay_stuck()
    ensures { StaysStuck }
{}

/// Code whose calls are all of services that pass a test makes no other call.
pub fn stretches_make_only_calls_of_the_code()
    ensures { MakesOnlyItsCalls }
{}

/// The last instruction of code that keeps to its table is a jump or the end.
pub fn last_instructions_stop()
    ensures { LastStops }
{}
