//! The room that bodies need: how many locals and operands they have at most.
ghost use Rattle.std.specs.Prelude.{◌≡◌, ◌≤◌, ℕ, Some, slice_get, true};
ghost use Rattle.fmp_base.specs.declared.bodies.HandlerStart.{HandlerStart};
ghost use Rattle.fmp_base.specs.declared.states.Handler.TheVariants as handlers;
ghost use Rattle.fmp_base.specs.Meanings.{handler_start};
ghost use Rattle.fmp_base.specs.Settles.{cycles_on, interrupts_on};
ghost use Rattle.fmp_base.specs.Systems.{body_of as numbered, tables_of};
ghost use Rattle.fmp_fields.specs.Listing.{HasHandlerRoom, HasRoom};
ghost use Rattle.fmp_instructions.specs.Instructions.{code_tables};

use fmp_base::{Entry, System};
use fmp_instructions::{BodyCode, Code};

/// How many locals and operands a body has at most.
#[derive(Clone, Copy)]
pub struct Room {
    pub locals: u8,
    pub operands: u8,
}

impl Room {
    /// No locals and no operands.
    const NONE: Room = Room {
        locals: 0,
        operands: 0,
    };

    /// Enough for either of two bodies.
    fn or(self, other: Room) -> Room
        ensures own_locals { self.locals ≤ result.locals }
        ensures own_operands { self.operands ≤ result.operands }
        ensures other_locals { other.locals ≤ result.locals }
        ensures other_operands { other.operands ≤ result.operands }
    {
        Room {
            locals: self.locals.max(other.locals),
            operands: self.operands.max(other.operands),
        }
    }
}

/// How many operands a body has at most.
fn operands_of(body: &BodyCode) -> u8
    ensures { (place depth : ℕ) → slice_get body.now.depths.items place ≡ Some depth → depth ≤ result }
{
    let mut most = 0;
    for depth in &body.depths {
        most = (*depth).max(most);
    }
    most
}

/// The place of the body of an entry; 0 where only its name is known, as in no system that runs.
pub fn body_of(entry: Entry) -> u8
    ensures { result ≡ numbered entry }
{
    match entry {
        Entry::Body(body) => body,
        Entry::Named(_) => 0,
    }
}

/// The room of the body of an entry; none if there is no such body.
pub fn room_of(code: &Code, entry: Entry) -> Room
    ensures { HasRoom (code_tables code.now) (numbered entry) result }
{
    match code.bodies.get(usize::from(body_of(entry))) {
        Some(body) => Room {
            locals: body.locals,
            operands: operands_of(body),
        },
        None => Room::NONE,
    }
}

/// The room of the cyclic handlers of processor p.
fn cyclic_room(sys: &System, code: &Code, p: u8) -> Room
    ensures { (c : ℕ) (start : HandlerStart) → cycles_on (tables_of sys.now) p c ≡ true →
        handler_start (tables_of sys.now) (handlers.Cyclic c) ≡ Some start →
        HasRoom (code_tables code.now) start.body result }
{
    let mut room = Room::NONE;
    for handler in &sys.cyclics {
        if handler.processor == p {
            room = room.or(room_of(code, handler.entry));
        }
    }
    room
}

/// The room of the interrupt handlers of processor p.
fn interrupt_room(sys: &System, code: &Code, p: u8) -> Room
    ensures { (i : ℕ) (start : HandlerStart) → interrupts_on (tables_of sys.now) p i ≡ true →
        handler_start (tables_of sys.now) (handlers.Interrupt i) ≡ Some start →
        HasRoom (code_tables code.now) start.body result }
{
    let mut room = Room::NONE;
    for handler in &sys.interrupts {
        if handler.processor == p {
            room = room.or(room_of(code, handler.entry));
        }
    }
    room
}

/// The room of the handlers of processor p.
pub fn handler_room(sys: &System, code: &Code, p: u8) -> Room
    ensures { HasHandlerRoom (tables_of sys.now) (code_tables code.now) p result }
{
    cyclic_room(sys, code, p).or(interrupt_room(sys, code, p))
}
