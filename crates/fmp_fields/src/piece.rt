//! Fields that stand in order and are read together.
ghost use Rattle.std.specs.Prelude.{◌≡◌, ◌+◌, ◌<◌, ◌++◌, OnOk, length, map};
ghost use Rattle.std.specs.List.{range_with_len};
ghost use Rattle.fmp_fields.specs.Pieces as pieces;

use crate::field::What;
use crate::owner::Owner;
use crate::room::Room;
use std::alloc::{AllocError, Global};

/// How many fields the block of a task has, with the task behind it in its queue.
pub const BLOCK: usize = 11;

/// How many fields a processor has, without those of its handler's body.
pub const PROCESSOR: usize = 5;

/// Fields that stand in order and are read together.
#[derive(Clone, Copy)]
pub enum Piece {
    /// The fields of a task: its block, the task behind it in its queue, and its body, which needs this room.
    Task(u8, Room),
    /// The fields of a processor, with those of its handler's body, which needs this room.
    Processor(u8, Room),
    /// A field alone.
    Single(What),
}

/// Where a body stands, as a field.
pub fn pc_of(owner: Owner) -> What
    ensures { result ≡ pieces.pc_of owner }
{
    match owner {
        Owner::Task(t) => What::Pc(t),
        Owner::Handler(p) => What::HandlerPc(p),
    }
}

/// A local of a body, as a field.
fn local_of(owner: Owner, l: u8) -> What
    ensures { result ≡ pieces.local_of owner l }
{
    match owner {
        Owner::Task(t) => What::Local(t, l),
        Owner::Handler(p) => What::HandlerLocal(p, l),
    }
}

/// How many operands a body has, as a field.
fn count_of(owner: Owner) -> What
    ensures { result ≡ pieces.count_of owner }
{
    match owner {
        Owner::Task(t) => What::Operands(t),
        Owner::Handler(p) => What::HandlerOperands(p),
    }
}

/// An operand of a body, as a field.
fn operand_of(owner: Owner, i: u8) -> What
    ensures { result ≡ pieces.operand_of owner i }
{
    match owner {
        Owner::Task(t) => What::Operand(t, i),
        Owner::Handler(p) => What::HandlerOperand(p, i),
    }
}

/// Appends the locals of a body, this many.
fn push_locals(fields: &mut Vec<What>, owner: Owner, count: u8) -> Result<(), AllocError>
    ensures { OnOk result
        (fields.new.items ≡ fields.old.items ++ map (pieces.local_of owner) (range_with_len 0 count)) }
{
    for l in 0..count {
        fields.push(local_of(owner, l))?;
    }
    Ok(())
}

/// Appends the operands of a body, this many.
fn push_operands(fields: &mut Vec<What>, owner: Owner, count: u8) -> Result<(), AllocError>
    ensures { OnOk result
        (fields.new.items ≡ fields.old.items ++ map (pieces.operand_of owner) (range_with_len 0 count)) }
{
    for i in 0..count {
        fields.push(operand_of(owner, i))?;
    }
    Ok(())
}

/// Appends the fields of a body of this room.
fn push_body(fields: &mut Vec<What>, owner: Owner, room: Room) -> Result<(), AllocError>
    ensures { OnOk result (fields.new.items ≡ fields.old.items ++ pieces.body_fields owner room) }
{
    fields.push(pc_of(owner))?;
    push_locals(fields, owner, room.locals)?;
    fields.push(count_of(owner))?;
    push_operands(fields, owner, room.operands)?;
    Ok(())
}

/// Appends the fields of a task's block.
fn push_block(fields: &mut Vec<What>, t: u8) -> Result<(), AllocError>
    ensures { OnOk result (fields.new.items ≡ fields.old.items ++ pieces.block_fields t) }
{
    fields.extend_from_slice(&[
        What::Phase(t),
        What::Object(t),
        What::Wanted(t),
        What::Suspended(t),
        What::Priority(t),
        What::Processor(t),
        What::Activations(t),
        What::NextProcessor(t),
        What::Wakeups(t),
        What::TicksLeft(t),
        What::Behind(t),
    ])?;
    Ok(())
}

/// Appends the fields of a processor, without those of its handler's body.
fn push_processor(fields: &mut Vec<What>, p: u8) -> Result<(), AllocError>
    ensures { OnOk result (fields.new.items ≡ fields.old.items ++ pieces.processor_fields p) }
{
    fields.extend_from_slice(&[
        What::Runs(p),
        What::Lock(p),
        What::DispatchDisabled(p),
        What::InterruptHandler(p),
        What::CyclicHandler(p),
    ])
}

/// Appends the fields of a task.
fn push_task(fields: &mut Vec<What>, t: u8, room: Room) -> Result<(), AllocError>
    ensures { OnOk result (fields.new.items ≡ fields.old.items ++ pieces.fields_of_task t room) }
{
    push_block(fields, t)?;
    push_body(fields, Owner::Task(t), room)?;
    Ok(())
}

/// Appends the fields of a processor, with those of its handler's body.
fn push_whole_processor(fields: &mut Vec<What>, p: u8, room: Room) -> Result<(), AllocError>
    ensures { OnOk result (fields.new.items ≡ fields.old.items ++ pieces.fields_of_processor p room) }
{
    push_processor(fields, p)?;
    push_body(fields, Owner::Handler(p), room)?;
    Ok(())
}

impl Room {
    /// How many fields a body has that needs this room.
    pub fn field_count(self) -> usize
        ensures { result ≡ self.locals + self.operands + 2 }
    {
        usize::from(self.locals) + usize::from(self.operands) + 2
    }
}

impl Piece {
    /// Appends the fields of a piece. `AllocError` if memory runs out.
    pub fn push_fields(self, fields: &mut Vec<What>) -> Result<(), AllocError>
        ensures { OnOk result (fields.new.items ≡ fields.old.items ++ pieces.fields_of_piece self) }
    {
        match self {
            Piece::Task(t, room) => push_task(fields, t, room),
            Piece::Processor(p, room) => push_whole_processor(fields, p, room),
            Piece::Single(what) => Ok(fields.push(what)?),
        }
    }

    /// How many fields a piece has.
    #[tactic(auto, using(crate::proofs::Pieces::task_size, crate::proofs::Pieces::processor_size))]
    pub fn len(self) -> usize
        ensures { result ≡ length (pieces.fields_of_piece self) }
    {
        match self {
            Piece::Task(_, room) => BLOCK + room.field_count(),
            Piece::Processor(_, room) => PROCESSOR + room.field_count(),
            Piece::Single(_) => 1,
        }
    }
}

/// How many of the fields from a place on are locals.
fn locals_from(fields: &[What], start: usize) -> u8 {
    let mut count: u8 = 0;
    for at in start..fields.len() {
        match fields[at] {
            What::Local(..) | What::HandlerLocal(..) => count = count.saturating_add(1),
            _ => return count,
        }
    }
    count
}

/// How many of the fields from a place on are operands.
fn operands_from(fields: &[What], start: usize) -> u8 {
    let mut count: u8 = 0;
    for at in start..fields.len() {
        match fields[at] {
            What::Operand(..) | What::HandlerOperand(..) => count = count.saturating_add(1),
            _ => return count,
        }
    }
    count
}

/// The room of a body whose fields seem to begin at a place.
fn room_from(fields: &[What], start: usize) -> Room {
    let locals = locals_from(fields, start.saturating_add(1));
    let operands = operands_from(
        fields,
        start.saturating_add(2).saturating_add(usize::from(locals)),
    );
    Room { locals, operands }
}

/// The piece that seems to begin at a place.
fn piece_at(fields: &[What], at: usize) -> Piece
    requires { at < length fields.now }
{
    match fields[at] {
        What::Phase(t) => Piece::Task(t, room_from(fields, at.saturating_add(BLOCK))),
        What::Runs(p) => Piece::Processor(p, room_from(fields, at.saturating_add(PROCESSOR))),
        what => Piece::Single(what),
    }
}

/// The pieces that these fields seem to be. `AllocError` if memory runs out.
pub fn guessed_pieces(alloc: Global, fields: &[What]) -> Result<Vec<Piece>, AllocError> {
    let mut pieces = Vec::new(alloc);
    let mut at: usize = 0;
    for _field in 0..fields.len() {
        if at >= fields.len() {
            return Ok(pieces);
        }
        let piece = piece_at(fields, at);
        pieces.push(piece)?;
        at = at.saturating_add(piece.len());
    }
    Ok(pieces)
}
