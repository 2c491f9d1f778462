//! The values of the fields of a piece: those of a block, a body or a processor with no look at each field.
ghost use Rattle.std.specs.Prelude.{◌≡◌, ◌≤◌, ◌+◌, ◌∷◌, ◌++◌, [], ℕ, IfSome, None, Some, get_or, length, map, pos};
ghost use Rattle.std.specs.Prelude.{take, true};
ghost use Rattle.std.specs.List.{range_with_len};
ghost use Rattle.fmp_base.specs.Meanings.{World};
ghost use Rattle.fmp_fields.specs.FieldNumbers.{body_number, number_of, owned_by, task_of as task_by};
ghost use Rattle.fmp_fields.specs.Pieces.{block_fields, body_fields, fields_of_piece, fields_of_processor};
ghost use Rattle.fmp_fields.specs.Pieces.{fields_of_task, processor_fields};
ghost use Rattle.fmp_fields.specs.Reading.{context_numbers};
ghost use Rattle.fmp_instructions.specs.declared.instructions.MachineContext.{MachineContext};
ghost use Rattle.fmp_live.specs.LiveLocals.{live_tables};
ghost use Rattle.fmp_live.specs.Zeroed.{zeroed, zeroed_by};
ghost use Rattle.fmp_reachable.specs.Behind.{task_behind};
ghost use Rattle.fmp_reachable.specs.Numbers as numbers;

use crate::body_values::{body_value, context_of, local_at, number_at, row_of};
use crate::field::What;
use crate::owner::{Owner, owner_of, task_of};
use crate::piece::{BLOCK, PROCESSOR, Piece};
use crate::room::Room;
use crate::state_values::{block_value, object_value, processor, task};
use fmp_base::Body;
use fmp_instructions::MachineContext;
use fmp_kernel::Kernel;
use fmp_live::LiveLocals;
use fmp_reachable::numbers::{
    bit, cyclic_of, interrupt_of, lock_number, phase_kind, place, ticks_to, wait_object, wait_value,
};
use fmp_tasks::KernelState;

/// Writes numbers over those from a place on. How many there are is known at compile time, and they are taken by value:
/// so they are written without a call.
#[inline(always)]
fn write_array<const N: usize>(numbers: [u32; N], values: &mut [u32], at: usize)
    requires { at + N ≤ length values.old }
    ensures length { length values.new ≡ length values.old }
    ensures values { take (at + N) values.new ≡ take at values.old ++ numbers.entry }
{
    values[at..at + N].copy_from_slice(&numbers);
}

/// The task behind another one in its queue, with 1 added; 0 if none is.
#[inline(always)]
fn behind_value(tables: &KernelState, t: u8) -> u32
    ensures { result ≡ numbers.place (task_behind tables.now.system tables.now.state t) }
{
    place(tables.behind(t))
}

/// The values of the fields of a task's block. `None` if a time is too far ahead.
#[inline(always)]
fn block_values(tables: &KernelState, t: u8) -> Option<[u32; BLOCK]>
    ensures { (w : World MachineContext) (came : ℕ) → w.state ≡ tables.now.state →
        IfSome result (λ numbers. numbers ≡ map (number_of tables.now.system w came) (block_fields t)) }
{
    let block = task(tables, t);
    let left = ticks_to(tables.clock(), block.deadline)?;
    Some([
        phase_kind(block.phase),
        place(wait_object(block.phase)),
        wait_value(block.phase),
        bit(block.suspended),
        u32::from(block.priority),
        u32::from(block.processor),
        u32::from(block.activations),
        place(block.next_processor),
        u32::from(block.wakeups),
        left,
        behind_value(tables, t),
    ])
}

/// Writes the values of the fields of a task's block over those from a place on: whether no time is too far ahead.
#[inline(always)]
fn write_block(tables: &KernelState, t: u8, values: &mut [u32], at: usize) -> bool
    requires { at + 11 ≤ length values.old }
    ensures length { length values.new ≡ length values.old }
    ensures values { (w : World MachineContext) (came : ℕ) → w.state ≡ tables.now.state → result ≡ true →
        take (at + 11) values.new
        ≡ take at values.old ++ map (number_of tables.now.system w came) (block_fields t) }
{
    match block_values(tables, t) {
        Some(numbers) => {
            write_array(numbers, values, at);
            true
        }
        None => false,
    }
}

/// The values of the fields of a processor, without those of its handler's body.
#[inline(always)]
fn processor_values(tables: &KernelState, p: u8) -> [u32; PROCESSOR]
    ensures { (w : World MachineContext) (came : ℕ) → w.state ≡ tables.now.state →
        result ≡ map (number_of tables.now.system w came) (processor_fields p) }
{
    let cpu = processor(tables, p);
    [
        place(cpu.run),
        lock_number(cpu.lock),
        bit(cpu.dispatch_disabled),
        place(interrupt_of(cpu.handler)),
        place(cyclic_of(cpu.handler)),
    ]
}

/// Writes the values of the fields of a processor, without those of its handler's body, over those from a place on.
#[inline(always)]
fn write_processor(tables: &KernelState, p: u8, values: &mut [u32], at: usize)
    requires { at + 5 ≤ length values.old }
    ensures length { length values.new ≡ length values.old }
    ensures values { (w : World MachineContext) (came : ℕ) → w.state ≡ tables.now.state →
        take (at + 5) values.new
        ≡ take at values.old ++ map (number_of tables.now.system w came) (processor_fields p) }
{
    write_array(processor_values(tables, p), values, at);
}

/// The values of the first four locals, with 0 for each that a row calls dead.
#[inline(always)]
fn first_locals(row: &[bool], locals: &[i32; 64]) -> [u32; 4]
    ensures { result
        ≡ map (λ l. numbers.unsigned (get_or (zeroed_by row.now locals.now) l (pos 0))) (range_with_len 0 4) }
{
    [
        local_at(row, locals, 0),
        local_at(row, locals, 1),
        local_at(row, locals, 2),
        local_at(row, locals, 3),
    ]
}

/// Writes the values of locals, at most four, over those from a place on, with 0 for each that a row calls dead. The
/// values after them may be any then.
#[inline(always)]
fn write_few_locals(row: &[bool], locals: &[i32; 64], count: u8, values: &mut [u32], at: usize)
    requires few { count ≤ 4 }
    requires room { at + 4 ≤ length values.old }
    ensures length { length values.new ≡ length values.old }
    ensures values { take (at + count) values.new ≡ take at values.old
        ++ map (λ l. numbers.unsigned (get_or (zeroed_by row.now locals.now) l (pos 0))) (range_with_len 0 count) }
{
    // Four are written together, with no test of each.
    write_array(first_locals(row, locals), values, at);
}

/// Writes the values of locals, this many, over those from a place on, with 0 for each that a row calls dead. The
/// values after them may be any then.
#[inline(always)]
fn write_locals(row: &[bool], locals: &[i32; 64], count: u8, values: &mut [u32], at: usize)
    requires { at + count ≤ length values.old }
    ensures length { length values.new ≡ length values.old }
    ensures values { take (at + count) values.new ≡ take at values.old
        ++ map (λ l. numbers.unsigned (get_or (zeroed_by row.now locals.now) l (pos 0))) (range_with_len 0 count) }
{
    if count <= 4 && row.len() >= 4 && at + 4 <= values.len() {
        write_few_locals(row, locals, count, values, at);
        return;
    }
    for l in 0..count {
        values[at + l as usize] = local_at(row, locals, l);
    }
}

/// The values of the first four operands.
#[inline(always)]
fn first_operands(operands: &[i32; 64]) -> [u32; 4]
    ensures { result ≡ map (λ i. numbers.unsigned (get_or operands.now i (pos 0))) (range_with_len 0 4) }
{
    [
        number_at(operands, 0),
        number_at(operands, 1),
        number_at(operands, 2),
        number_at(operands, 3),
    ]
}

/// Writes the values of operands, at most four, over those from a place on. The values after them may be any then.
#[inline(always)]
fn write_few_operands(operands: &[i32; 64], count: u8, values: &mut [u32], at: usize)
    requires few { count ≤ 4 }
    requires room { at + 4 ≤ length values.old }
    ensures length { length values.new ≡ length values.old }
    ensures values { take (at + count) values.new ≡ take at values.old
        ++ map (λ i. numbers.unsigned (get_or operands.now i (pos 0))) (range_with_len 0 count) }
{
    // Four are written together, with no test of each.
    write_array(first_operands(operands), values, at);
}

/// Writes the values of operands, this many, over those from a place on. The values after them may be any then.
#[inline(always)]
fn write_operands(operands: &[i32; 64], count: u8, values: &mut [u32], at: usize)
    requires { at + count ≤ length values.old }
    ensures length { length values.new ≡ length values.old }
    ensures values { take (at + count) values.new ≡ take at values.old
        ++ map (λ i. numbers.unsigned (get_or operands.now i (pos 0))) (range_with_len 0 count) }
{
    if count <= 4 && at + 4 <= values.len() {
        write_few_operands(operands, count, values, at);
        return;
    }
    for i in 0..count {
        values[at + i as usize] = number_at(operands, i);
    }
}

/// Writes a value at a place.
#[inline(always)]
fn write_value(value: u32, values: &mut [u32], at: usize)
    requires { at + 1 ≤ length values.old }
    ensures length { length values.new ≡ length values.old }
    ensures values { take (at + 1) values.new ≡ take at values.old ++ value ∷ [] }
{
    values[at] = value;
}

/// Writes the values of the fields of a body with this context and this row of live locals over those from a place on.
#[inline(always)]
fn write_context(context: &MachineContext, row: &[bool], room: Room, values: &mut [u32], at: usize)
    requires { at + (room.locals + room.operands + 2) ≤ length values.old }
    ensures length { length values.new ≡ length values.old }
    ensures values { take (at + (room.locals + room.operands + 2)) values.new ≡ take at values.old
        ++ context_numbers room (record context.now { locals = zeroed_by row.now context.now.locals }) }
{
    let locals = at + 1;
    let count = locals + room.locals as usize;
    write_value(u32::from(context.pc), values, at);
    write_locals(row, &context.locals, room.locals, values, locals);
    write_value(u32::from(context.count), values, count);
    write_operands(&context.operands, room.operands, values, count + 1);
}

/// Writes zeros, this many, over the values from a place on.
#[inline(always)]
fn write_zeros(count: usize, values: &mut [u32], at: usize)
    requires { at + count ≤ length values.old }
    ensures length { length values.new ≡ length values.old }
    ensures values { take (at + count) values.new ≡ take at values.old ++ map (λ _. 0) (range_with_len 0 count) }
{
    // The body of a processor without handlers has two: they are written without a call.
    if count == 2 {
        write_array([0, 0], values, at);
        return;
    }
    for field in 0..count {
        values[at + field] = 0;
    }
}

/// Writes the values of the fields of an owner's body of this room over those from a place on, with 0 for each dead
/// local, or a zero for each field where there is no such body.
#[inline(always)]
fn write_body<B: Body<Ctx = MachineContext>>(
    kernel: &Kernel<B>,
    live: &LiveLocals,
    owner: Owner,
    room: Room,
    values: &mut [u32],
    at: usize,
)
    requires { at + length (body_fields owner room) ≤ length values.old }
    ensures length { length values.new ≡ length values.old }
    ensures values { (came : ℕ) → take (at + length (body_fields owner room)) values.new ≡ take at values.old
        ++ map (number_of kernel.now.system
        (zeroed kernel.now.system (live_tables live.now) kernel.now.world) came) (body_fields owner room) }
{
    let found = context_of(kernel, owner);
    let row = row_of(kernel, live, owner, found);
    match found {
        Some(context) => write_context(context, row, room, values, at),
        None => write_zeros(room.field_count(), values, at),
    }
}

/// Writes the values of the fields of a task over those from a place on, with 0 for each dead local. Gives the place
/// after them. `None` if a time is too far ahead.
#[inline(always)]
fn write_task<B: Body<Ctx = MachineContext>>(
    kernel: &Kernel<B>,
    live: &LiveLocals,
    t: u8,
    room: Room,
    values: &mut [u32],
    at: usize,
) -> Option<usize>
    requires { at + length (fields_of_task t room) ≤ length values.old }
    ensures length { length values.new ≡ length values.old }
    ensures end { IfSome result (λ end. end ≡ at + length (fields_of_task t room)) }
    ensures values { (came : ℕ) → IfSome result (λ end. take end values.new
        ≡ take at values.old ++ map (number_of kernel.now.system
        (zeroed kernel.now.system (live_tables live.now) kernel.now.world) came) (fields_of_task t room)) }
{
    if !write_block(kernel.tables(), t, values, at) {
        return None;
    }
    let body = at + BLOCK;
    write_body(kernel, live, Owner::Task(t), room, values, body);
    Some(body + room.field_count())
}

/// Writes the values of the fields of a processor, with those of its handler's body, over those from a place on, with 0
/// for each dead local. Gives the place after them.
#[inline(always)]
fn write_whole_processor<B: Body<Ctx = MachineContext>>(
    kernel: &Kernel<B>,
    live: &LiveLocals,
    p: u8,
    room: Room,
    values: &mut [u32],
    at: usize,
) -> usize
    requires { at + length (fields_of_processor p room) ≤ length values.old }
    ensures length { length values.new ≡ length values.old }
    ensures end { result ≡ at + length (fields_of_processor p room) }
    ensures values { (came : ℕ) → take result values.new
        ≡ take at values.old ++ map (number_of kernel.now.system
        (zeroed kernel.now.system (live_tables live.now) kernel.now.world) came) (fields_of_processor p room) }
{
    write_processor(kernel.tables(), p, values, at);
    let body = at + PROCESSOR;
    write_body(kernel, live, Owner::Handler(p), room, values, body);
    body + room.field_count()
}

/// The value of a field of an owner's body, with 0 for each dead local.
fn body_field<B: Body<Ctx = MachineContext>>(
    kernel: &Kernel<B>,
    live: &LiveLocals,
    owner: Owner,
    what: What,
) -> u32
    ensures { result ≡ body_number (owned_by
        (zeroed kernel.now.system (live_tables live.now) kernel.now.world) owner) what }
{
    let context = context_of(kernel, owner);
    let row = row_of(kernel, live, owner, context);
    body_value(context, row, what)
}

/// The value of a field that the block of a task tells. `None` if a time is too far ahead.
fn block_field(tables: &KernelState, t: u8, what: What) -> Option<u32>
    requires { task_by what ≡ Some t }
    ensures { (w : World MachineContext) (came : ℕ) → w.state ≡ tables.now.state →
        IfSome result (λ n. n ≡ number_of tables.now.system w came what) }
{
    block_value(tables.clock(), &task(tables, t), what)
}

/// The value of a field, where this many interrupts came, 0 for each dead local. `None` if a time is too far ahead.
fn field_value<B: Body<Ctx = MachineContext>>(
    kernel: &Kernel<B>,
    live: &LiveLocals,
    came: usize,
    what: What,
) -> Option<u32>
    ensures { IfSome result (λ n. n ≡ number_of kernel.now.system
        (zeroed kernel.now.system (live_tables live.now) kernel.now.world) came what) }
{
    if let Some(t) = task_of(what) {
        return block_field(kernel.tables(), t, what);
    }
    match owner_of(what) {
        Some(owner) => Some(body_field(kernel, live, owner, what)),
        None => object_value(kernel.tables(), came, what),
    }
}

/// Writes the value of a field at a place, where this many interrupts came, with 0 for each dead local. Gives the place
/// after it. `None` if a time is too far ahead.
fn write_field<B: Body<Ctx = MachineContext>>(
    kernel: &Kernel<B>,
    live: &LiveLocals,
    came: usize,
    what: What,
    values: &mut [u32],
    at: usize,
) -> Option<usize>
    requires { at + 1 ≤ length values.old }
    ensures length { length values.new ≡ length values.old }
    ensures end { IfSome result (λ end. end ≡ at + 1) }
    ensures values { IfSome result (λ end. take end values.new ≡ take at values.old ++ number_of kernel.now.system
        (zeroed kernel.now.system (live_tables live.now) kernel.now.world) came what ∷ []) }
{
    let value = field_value(kernel, live, came, what)?;
    write_value(value, values, at);
    Some(at + 1)
}

/// Writes the values of the fields of a piece over those from a place on, where this many interrupts came, with 0 for
/// each dead local. Gives the place after them. `None` if a time is too far ahead.
pub fn write_piece<B: Body<Ctx = MachineContext>>(
    kernel: &Kernel<B>,
    live: &LiveLocals,
    came: usize,
    piece: Piece,
    values: &mut [u32],
    at: usize,
) -> Option<usize>
    requires { at + length (fields_of_piece piece) ≤ length values.old }
    ensures length { length values.new ≡ length values.old }
    ensures end { IfSome result (λ end. end ≡ at + length (fields_of_piece piece)) }
    ensures values { IfSome result (λ end. take end values.new ≡ take at values.old ++ map (number_of kernel.now.system
        (zeroed kernel.now.system (live_tables live.now) kernel.now.world) came) (fields_of_piece piece)) }
{
    match piece {
        Piece::Task(t, room) => write_task(kernel, live, t, room, values, at),
        Piece::Processor(p, room) => {
            Some(write_whole_processor(kernel, live, p, room, values, at))
        }
        Piece::Single(what) => write_field(kernel, live, came, what, values, at),
    }
}
