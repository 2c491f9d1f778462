//! Counts, names and numbers of a system's tables, by kinds of objects and their numbers.
ghost use Rattle.std.specs.Prelude.{◌≡◌, length};
ghost use Rattle.fmp_base.specs.Systems.{tables_of};
ghost use Rattle.fmp_c.specs.Names as spec;

use fmp_base::{Entry, Name, System};

/// A kind of what a configuration makes.
#[derive(Clone, Copy)]
pub enum Kind {
    Tasks,
    Semaphores,
    Flags,
    DataQueues,
    Mailboxes,
    Messages,
    SharedWords,
    SpinLocks,
    Cyclics,
    Interrupts,
}

/// The kinds in order of their numbers, from 1.
const KINDS: [Kind; 10] = [
    Kind::Tasks,
    Kind::Semaphores,
    Kind::Flags,
    Kind::DataQueues,
    Kind::Mailboxes,
    Kind::Messages,
    Kind::SharedWords,
    Kind::SpinLocks,
    Kind::Cyclics,
    Kind::Interrupts,
];

/// The item of this number, from 1.
pub fn item<T: Copy>(items: &[T], number: usize) -> Option<T>
    ensures { result ≡ spec.item items.now number }
{
    if number == 0 {
        return None;
    }
    match items.get(number - 1) {
        Some(it) => Some(*it),
        None => None,
    }
}

/// The kind of this number.
pub fn kind_by(number: u32) -> Option<Kind>
    ensures { result ≡ spec.kind_by number }
{
    item(&KINDS, number as usize)
}

fn count_in(system: &System, kind: Kind) -> usize
    ensures { result ≡ spec.count_in (tables_of system.now) kind }
{
    match kind {
        Kind::Tasks => system.tasks.len(),
        Kind::Semaphores => system.semaphores.len(),
        Kind::Flags => system.flags.len(),
        Kind::DataQueues => system.data_queues.len(),
        Kind::Mailboxes => system.mailboxes.len(),
        Kind::Messages => system.messages.len(),
        Kind::SharedWords => system.shared_words.len(),
        Kind::SpinLocks => system.spin_locks.len(),
        Kind::Cyclics => system.cyclics.len(),
        Kind::Interrupts => system.interrupts.len(),
    }
}

/// How many items of the kind of this number there are.
pub fn count_of(system: &System, kind: u32) -> usize
    ensures { result ≡ spec.count_of (tables_of system.now) kind }
{
    match kind_by(kind) {
        Some(kind) => count_in(system, kind),
        None => 0,
    }
}

fn name_in(system: &System, kind: Kind, number: usize) -> Option<Name>
    ensures { result ≡ spec.name_in (tables_of system.now) kind number }
{
    match kind {
        Kind::Tasks => match item(system.tasks.as_slice(), number) {
            Some(it) => Some(it.name),
            None => None,
        },
        Kind::Semaphores => match item(system.semaphores.as_slice(), number) {
            Some(it) => Some(it.name),
            None => None,
        },
        Kind::Flags => match item(system.flags.as_slice(), number) {
            Some(it) => Some(it.name),
            None => None,
        },
        Kind::DataQueues => match item(system.data_queues.as_slice(), number) {
            Some(it) => Some(it.name),
            None => None,
        },
        Kind::Mailboxes => match item(system.mailboxes.as_slice(), number) {
            Some(it) => Some(it.name),
            None => None,
        },
        Kind::Messages => match item(system.messages.as_slice(), number) {
            Some(it) => Some(it.name),
            None => None,
        },
        Kind::SharedWords => match item(system.shared_words.as_slice(), number) {
            Some(it) => Some(it.name),
            None => None,
        },
        Kind::SpinLocks => match item(system.spin_locks.as_slice(), number) {
            Some(it) => Some(it.name),
            None => None,
        },
        Kind::Cyclics => match item(system.cyclics.as_slice(), number) {
            Some(it) => Some(it.name),
            None => None,
        },
        Kind::Interrupts => None,
    }
}

/// The name of the item of this number, of the kind of this number.
pub fn name_of(system: &System, kind: u32, number: usize) -> Option<Name>
    ensures { result ≡ spec.name_of (tables_of system.now) kind number }
{
    match kind_by(kind) {
        Some(kind) => name_in(system, kind, number),
        None => None,
    }
}

fn named(entry: Entry) -> Option<Name>
    ensures { result ≡ spec.named_by entry }
{
    match entry {
        Entry::Named(name) => Some(name),
        Entry::Body(_) => None,
    }
}

fn body_in(system: &System, kind: Kind, number: usize) -> Option<Name>
    ensures { result ≡ spec.body_in (tables_of system.now) kind number }
{
    match kind {
        Kind::Tasks => match item(system.tasks.as_slice(), number) {
            Some(task) => named(task.entry),
            None => None,
        },
        Kind::Cyclics => match item(system.cyclics.as_slice(), number) {
            Some(cyclic) => named(cyclic.entry),
            None => None,
        },
        Kind::Interrupts => match item(system.interrupts.as_slice(), number) {
            Some(interrupt) => named(interrupt.entry),
            None => None,
        },
        _ => None,
    }
}

/// The name of the body of a task, a cyclic handler or an interrupt handler.
pub fn body_of(system: &System, kind: u32, number: usize) -> Option<Name>
    ensures { result ≡ spec.body_of (tables_of system.now) kind number }
{
    match kind_by(kind) {
        Some(kind) => body_in(system, kind, number),
        None => None,
    }
}

fn detail_in(system: &System, kind: Kind, number: usize) -> u32
    ensures { result ≡ spec.detail_in (tables_of system.now) kind number }
{
    match kind {
        Kind::Tasks => match item(system.tasks.as_slice(), number) {
            Some(task) => task.stack,
            None => 0,
        },
        Kind::Interrupts => match item(system.interrupts.as_slice(), number) {
            Some(interrupt) => u32::from(interrupt.number),
            None => 0,
        },
        _ => 0,
    }
}

/// The bytes of a task's stack, or the number of the interrupt of a handler; 0 where there is none.
pub fn detail_of(system: &System, kind: u32, number: usize) -> u32
    ensures { result ≡ spec.detail_of (tables_of system.now) kind number }
{
    match kind_by(kind) {
        Some(kind) => detail_in(system, kind, number),
        None => 0,
    }
}

/// Puts a text into C's room, if there is room for it: how many bytes the text has.
pub fn put(text: &[u8], room: &mut [u8]) -> usize
    ensures room { room.new ≡ spec.put text.now room.old }
    ensures length { result ≡ length text.now }
{
    if text.len() <= room.len() {
        room[..text.len()].copy_from_slice(text);
    }
    text.len()
}

/// Puts a name into C's room, if there is room for it: how many bytes it has, 0 where there is none.
pub fn put_name(name: Option<Name>, room: &mut [u8]) -> usize
    ensures room { room.new ≡ spec.put (spec.name_bytes name) room.old }
    ensures length { result ≡ length (spec.name_bytes name) }
{
    match name {
        Some(name) => put(name.as_bytes(), room),
        None => put(&[], room),
    }
}
