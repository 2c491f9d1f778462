//! Each static API makes its object.
ghost use Rattle.std.specs.Prelude.{◌≡◌, ◌<◌, ◌++◌, ◌∷◌, [], map, IfOk, OnOk, IfErr};
ghost use Rattle.fmp_base.specs.Systems.{tables_of};
ghost use Rattle.fmp_cfgparse.specs.Apis.{with_object};
ghost use Rattle.fmp_cfgparse.specs.Objects as spec;
ghost use Rattle.fmp_cfgparse.specs.Trees.{field_view};
ghost use Rattle.fmp_cfgparse.specs.declared.objects.MakingStop.TheVariants.{Memory};

use crate::places::ClassProcessors;
use crate::tree::ApiField;
use crate::values::{byte_of, half_of, name_at, number_at, word_of};
use fmp_base::{
    CyclicConfig, DataQueueConfig, Entry, FlagConfig, InterruptConfig, MailboxConfig,
    MessageConfig, QueueOrder, SemaphoreConfig, SharedWordConfig, SpinLockConfig, System,
    TaskConfig,
};
use fmp_lex::{Api, FaultKind};
use std::alloc::AllocFailed;

/// What ends the making of a system.
#[derive(Drop)]
pub enum MakingStop {
    /// An allocation was refused.
    Memory,
    /// The first fault, at the token in this place.
    Fault(usize, FaultKind),
}

impl<T: Drop> From<AllocFailed<T>> for MakingStop {
    ghost from_gives = { λ _ e. e ≡ Memory };

    fn from(_error: AllocFailed<T>) -> Self {
        MakingStop::Memory
    }
}

fn has_bit(bit: u8, attribute: i32) -> bool
    requires { 0 < bit }
    ensures { result ≡ spec.has_bit bit attribute }
{
    byte_of(attribute) / bit % 2 == 1
}

fn order_by(priority: bool) -> QueueOrder
    ensures { result ≡ spec.order_by priority }
{
    if priority {
        QueueOrder::Priority
    } else {
        QueueOrder::Fifo
    }
}

fn task(class: ClassProcessors, fields: &[ApiField]) -> TaskConfig
    ensures { result ≡ spec.task class (map field_view fields.now) }
{
    TaskConfig {
        name: name_at(fields, 0),
        activated: has_bit(2, number_at(fields, 1)),
        exinf: number_at(fields, 2),
        entry: Entry::Named(name_at(fields, 3)),
        priority: byte_of(number_at(fields, 4)),
        stack: word_of(number_at(fields, 5)),
        processor: class.processor,
        only: class.only,
    }
}

fn semaphore(fields: &[ApiField]) -> SemaphoreConfig
    ensures { result ≡ spec.semaphore (map field_view fields.now) }
{
    SemaphoreConfig {
        name: name_at(fields, 0),
        order: order_by(has_bit(1, number_at(fields, 1))),
        initial: half_of(number_at(fields, 2)),
        most: half_of(number_at(fields, 3)),
    }
}

fn flag(fields: &[ApiField]) -> FlagConfig
    ensures { result ≡ spec.flag (map field_view fields.now) }
{
    FlagConfig {
        name: name_at(fields, 0),
        order: order_by(has_bit(1, number_at(fields, 1))),
        multiple: has_bit(2, number_at(fields, 1)),
        clears: has_bit(4, number_at(fields, 1)),
        initial: half_of(number_at(fields, 2)),
    }
}

fn data_queue(fields: &[ApiField]) -> DataQueueConfig
    ensures { result ≡ spec.data_queue (map field_view fields.now) }
{
    DataQueueConfig {
        name: name_at(fields, 0),
        order: order_by(has_bit(1, number_at(fields, 1))),
        capacity: byte_of(number_at(fields, 2)),
    }
}

fn mailbox(fields: &[ApiField]) -> MailboxConfig
    ensures { result ≡ spec.mailbox (map field_view fields.now) }
{
    MailboxConfig {
        name: name_at(fields, 0),
        order: order_by(has_bit(1, number_at(fields, 1))),
        message_order: order_by(has_bit(2, number_at(fields, 1))),
        most: byte_of(number_at(fields, 2)),
    }
}

fn message(fields: &[ApiField]) -> MessageConfig
    ensures { result ≡ spec.message (map field_view fields.now) }
{
    MessageConfig {
        name: name_at(fields, 0),
        priority: byte_of(number_at(fields, 1)),
    }
}

fn shared_word(fields: &[ApiField]) -> SharedWordConfig
    ensures { result ≡ spec.shared_word (map field_view fields.now) }
{
    SharedWordConfig {
        name: name_at(fields, 0),
        initial: number_at(fields, 1),
    }
}

fn spin_lock(fields: &[ApiField]) -> SpinLockConfig
    ensures { result ≡ spec.spin_lock (map field_view fields.now) }
{
    SpinLockConfig {
        name: name_at(fields, 0),
    }
}

fn cyclic(class: ClassProcessors, fields: &[ApiField]) -> CyclicConfig
    ensures { result ≡ spec.cyclic class (map field_view fields.now) }
{
    CyclicConfig {
        name: name_at(fields, 0),
        started: has_bit(2, number_at(fields, 1)),
        exinf: number_at(fields, 2),
        entry: Entry::Named(name_at(fields, 3)),
        period: word_of(number_at(fields, 4)),
        phase: word_of(number_at(fields, 5)),
        processor: class.processor,
    }
}

fn interrupt(class: ClassProcessors, fields: &[ApiField]) -> InterruptConfig
    ensures { result ≡ spec.interrupt class (map field_view fields.now) }
{
    InterruptConfig {
        number: byte_of(number_at(fields, 0)),
        entry: Entry::Named(name_at(fields, 2)),
        processor: class.processor,
    }
}

/// Adds a row to a table.
fn add<T: Drop>(rows: &mut Vec<T>, row: T) -> Result<(), MakingStop>
    ensures added { OnOk result (rows.new.items ≡ rows.old.items ++ row ∷ []) }
    ensures memory { IfErr result (λ e. e ≡ Memory) }
{
    rows.push(row)?;
    Ok(())
}

/// Makes the object of a static API.
pub(crate) fn create(
    system: &mut System,
    class: ClassProcessors,
    api: Api,
    fields: &[ApiField],
) -> Result<(), MakingStop>
    ensures made { IfOk result
        (λ _. tables_of system.new ≡ with_object class api (map field_view fields.now) (tables_of system.old)) }
    ensures memory { IfErr result (λ e. e ≡ Memory) }
{
    match api {
        Api::CreTsk => add(&mut system.tasks, task(class, fields)),
        Api::CreSem => add(&mut system.semaphores, semaphore(fields)),
        Api::CreFlg => add(&mut system.flags, flag(fields)),
        Api::CreDtq => add(&mut system.data_queues, data_queue(fields)),
        Api::CreMbx => add(&mut system.mailboxes, mailbox(fields)),
        Api::CreMsg => add(&mut system.messages, message(fields)),
        Api::CreShr => add(&mut system.shared_words, shared_word(fields)),
        Api::CreSpn => add(&mut system.spin_locks, spin_lock(fields)),
        Api::CreCyc => add(&mut system.cyclics, cyclic(class, fields)),
        Api::DefInh => add(&mut system.interrupts, interrupt(class, fields)),
    }
}
