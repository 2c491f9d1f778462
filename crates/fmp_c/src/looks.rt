//! What C reads of a system. Nothing that is read changes it or takes memory. The answer is 1, or 4 where the handle is
//! blank, and then nothing is written.
ghost use Rattle.std.specs.Prelude.{◌≡◌, IfSome, None, length, slice_get};
ghost use Rattle.fmp_base.specs.Systems.{tables_of};
ghost use Rattle.fmp_base.specs.Texts.{lines_text};
ghost use Rattle.fmp_foreign.specs.Looking.{acting_on};
ghost use Rattle.fmp_c.specs.Exports.{IsSameSystem, counts_of, state_at};
ghost use Rattle.fmp_c.specs.Lines.{line_or_none};
ghost use Rattle.fmp_c.specs.Names.{body_of, count_of, detail_of, name_bytes, name_of, put};
ghost use Rattle.fmp_c.specs.Records.{acting_row};

use crate::handle::FmpSystem;
use crate::lines::{FmpLine, line_at};
use crate::names;
use crate::records::FmpActing;
use crate::states::FmpState;
use std::alloc::Global;
use std::mem;

/// What is answered where something was read.
const READ: u32 = 1;

/// What is answered where the handle holds no system.
const BLANK: u32 = 4;

/// Counts of a system and of its events.
#[repr(C)]
#[derive(Clone, Copy)]
pub struct FmpCounts {
    /// How many processors it has, 1 to 8.
    pub processors: u32,
    /// How many events were done: the number of the last one in the trace.
    pub done: u32,
    /// How many events were taken: as many as were done.
    pub taken: u32,
    /// How many lines the last event that was done has, or setup.
    pub lines: usize,
}

/// Counts of a system and of its events.
#[unsafe(no_mangle)]
pub extern "C" fn fmp_counts(alloc: Global, h: &mut FmpSystem, out: &mut FmpCounts) -> u32
    ensures kept { h.new.machine ≡ h.old.machine }
    ensures read { IfSome h.old.machine (λ m. (out.new ≡ counts_of m.hosted) × (result ≡ 1)) }
    ensures blank { h.old.machine ≡ None → (out.new ≡ out.old) × (result ≡ 4) }
{
    match mem::replace(h, FmpSystem::blank()).into_box(alloc) {
        Some(held) => {
            *out = FmpCounts {
                processors: u32::from(held.hosted.system.processors),
                done: held.hosted.kernel.done(),
                taken: held.hosted.kernel.taken(),
                lines: held.hosted.kernel.lines().len(),
            };
            *h = FmpSystem::of(held);
            READ
        }
        None => BLANK,
    }
}

/// Who acts on the processor of this number, from 1, and what it was told last.
#[unsafe(no_mangle)]
pub extern "C" fn fmp_acting(alloc: Global, h: &mut FmpSystem, p: u8, out: &mut FmpActing) -> u32
    ensures kept { h.new.machine ≡ h.old.machine }
    ensures read { IfSome h.old.machine (λ m. (out.new ≡ acting_row (acting_on m.hosted.kernel p)) × (result ≡ 1)) }
    ensures blank { h.old.machine ≡ None → (out.new ≡ out.old) × (result ≡ 4) }
{
    match mem::replace(h, FmpSystem::blank()).into_box(alloc) {
        Some(held) => {
            out.tell(held.hosted.acting(p));
            *h = FmpSystem::of(held);
            READ
        }
        None => BLANK,
    }
}

/// The line at this place, from 0, of the last event that was done, or of setup; of kind 0 where there is none.
#[unsafe(no_mangle)]
pub extern "C" fn fmp_line(alloc: Global, h: &mut FmpSystem, place: usize, out: &mut FmpLine) -> u32
    ensures kept { h.new.machine ≡ h.old.machine }
    ensures read { IfSome h.old.machine (λ m.
        (out.new ≡ line_or_none (slice_get m.hosted.kernel.lines place)) × (result ≡ 1)) }
    ensures blank { h.old.machine ≡ None → (out.new ≡ out.old) × (result ≡ 4) }
{
    match mem::replace(h, FmpSystem::blank()).into_box(alloc) {
        Some(held) => {
            *out = line_at(held.hosted.kernel.lines(), place);
            *h = FmpSystem::of(held);
            READ
        }
        None => BLANK,
    }
}

/// What is shown of the task of this number, from 1; of word 0 where there is none.
#[unsafe(no_mangle)]
pub extern "C" fn fmp_state(alloc: Global, h: &mut FmpSystem, task: u8, out: &mut FmpState) -> u32
    ensures kept { h.new.machine ≡ h.old.machine }
    ensures read { IfSome h.old.machine (λ m. (out.new ≡ state_at m.hosted.kernel task) × (result ≡ 1)) }
    ensures blank { h.old.machine ≡ None → (out.new ≡ out.old) × (result ≡ 4) }
{
    match mem::replace(h, FmpSystem::blank()).into_box(alloc) {
        Some(held) => {
            *out = FmpState::of(&held.hosted, task);
            *h = FmpSystem::of(held);
            READ
        }
        None => BLANK,
    }
}

/// The lines of the last event that was done, or of setup, as text, each ended by a line feed: how many bytes they are,
/// 0 where the handle is blank. They stand in the room if there is room for them, and else nothing is written.
#[unsafe(no_mangle)]
pub extern "C" fn fmp_print(alloc: Global, h: &mut FmpSystem, room: &mut [u8]) -> usize
    ensures kept { IsSameSystem h.old.machine h.new.machine }
    ensures text { IfSome h.old.machine (λ m. (room.new ≡ put (lines_text (tables_of m.hosted.system)
        m.hosted.kernel.done m.hosted.kernel.lines) room.old) × (result ≡ length (lines_text
        (tables_of m.hosted.system) m.hosted.kernel.done m.hosted.kernel.lines))) }
    ensures blank { h.old.machine ≡ None → (room.new ≡ room.old) × (result ≡ 0) }
{
    match mem::replace(h, FmpSystem::blank()).into_box(alloc) {
        Some(held) => {
            let mut machine = held;
            machine.print();
            let length = names::put(machine.page.bytes(), room);
            *h = FmpSystem::of(machine);
            length
        }
        None => 0,
    }
}

/// How many objects of this kind there are: 1 tasks, 2 semaphores, 3 eventflags, 4 data queues, 5 mailboxes,
/// 6 messages, 7 shared words, 8 spin locks, 9 cyclic handlers, 10 interrupt handlers. 0 of any other kind, and of a
/// blank handle.
#[unsafe(no_mangle)]
pub extern "C" fn fmp_count(alloc: Global, h: &mut FmpSystem, kind: u32) -> usize
    ensures kept { h.new.machine ≡ h.old.machine }
    ensures read { IfSome h.old.machine (λ m. result ≡ count_of (tables_of m.hosted.system) kind) }
    ensures blank { h.old.machine ≡ None → result ≡ 0 }
{
    match mem::replace(h, FmpSystem::blank()).into_box(alloc) {
        Some(held) => {
            let count = names::count_of(&held.hosted.system, kind);
            *h = FmpSystem::of(held);
            count
        }
        None => 0,
    }
}

/// The name of the object of this kind and number, from 1: how many bytes it has, 0 where there is none. It stands in
/// the room if there is room for it, and else nothing is written.
#[unsafe(no_mangle)]
pub extern "C" fn fmp_name(
    alloc: Global,
    h: &mut FmpSystem,
    kind: u32,
    number: usize,
    room: &mut [u8],
) -> usize
    ensures kept { h.new.machine ≡ h.old.machine }
    ensures read { IfSome h.old.machine (λ m.
        (room.new ≡ put (name_bytes (name_of (tables_of m.hosted.system) kind number)) room.old)
        × (result ≡ length (name_bytes (name_of (tables_of m.hosted.system) kind number)))) }
    ensures blank { h.old.machine ≡ None → (room.new ≡ room.old) × (result ≡ 0) }
{
    match mem::replace(h, FmpSystem::blank()).into_box(alloc) {
        Some(held) => {
            let length = names::put_name(names::name_of(&held.hosted.system, kind, number), room);
            *h = FmpSystem::of(held);
            length
        }
        None => 0,
    }
}

/// The name of the body of a task, a cyclic handler or an interrupt handler, as `fmp_name` gives names.
#[unsafe(no_mangle)]
pub extern "C" fn fmp_body(
    alloc: Global,
    h: &mut FmpSystem,
    kind: u32,
    number: usize,
    room: &mut [u8],
) -> usize
    ensures kept { h.new.machine ≡ h.old.machine }
    ensures read { IfSome h.old.machine (λ m.
        (room.new ≡ put (name_bytes (body_of (tables_of m.hosted.system) kind number)) room.old)
        × (result ≡ length (name_bytes (body_of (tables_of m.hosted.system) kind number)))) }
    ensures blank { h.old.machine ≡ None → (room.new ≡ room.old) × (result ≡ 0) }
{
    match mem::replace(h, FmpSystem::blank()).into_box(alloc) {
        Some(held) => {
            let length = names::put_name(names::body_of(&held.hosted.system, kind, number), room);
            *h = FmpSystem::of(held);
            length
        }
        None => 0,
    }
}

/// How many bytes the stack of a task has, or the number of the interrupt of a handler; 0 where there is none.
#[unsafe(no_mangle)]
pub extern "C" fn fmp_detail(alloc: Global, h: &mut FmpSystem, kind: u32, number: usize) -> u32
    ensures kept { h.new.machine ≡ h.old.machine }
    ensures read { IfSome h.old.machine (λ m. result ≡ detail_of (tables_of m.hosted.system) kind number) }
    ensures blank { h.old.machine ≡ None → result ≡ 0 }
{
    match mem::replace(h, FmpSystem::blank()).into_box(alloc) {
        Some(held) => {
            let number = names::detail_of(&held.hosted.system, kind, number);
            *h = FmpSystem::of(held);
            number
        }
        None => 0,
    }
}
