//! Objects by their names.
ghost use Rattle.std.specs.Prelude.{◌≡◌, ◌++◌, OnOk};
ghost use Rattle.fmp_base.specs.Names.{name_text};
ghost use Rattle.fmp_base.specs.Systems.{cyclic_config, tables_of};
ghost use Rattle.fmp_base.specs.Texts.{caller_name, handler_name as handler_text, run_text, task_name};
ghost use Rattle.fmp_named.specs.Names as spec;

use fmp_base::arguments::numbered;
use fmp_base::{Caller, Handler, Name, ObjectKind, System};
use fmp_json::{append, append_number};
use std::alloc::AllocError;

/// The greatest number of objects of a kind.
const MOST: usize = 255;

/// The name of the object of a kind at a place of its table, if there is one.
pub fn name_at(sys: &System, kind: ObjectKind, place: usize) -> Option<Name>
    ensures { result ≡ spec.name_at (tables_of sys.now) kind place }
{
    match kind {
        ObjectKind::Task => sys.tasks.get(place).map(|config| config.name),
        ObjectKind::Semaphore => sys.semaphores.get(place).map(|config| config.name),
        ObjectKind::Flag => sys.flags.get(place).map(|config| config.name),
        ObjectKind::DataQueue => sys.data_queues.get(place).map(|config| config.name),
        ObjectKind::Mailbox => sys.mailboxes.get(place).map(|config| config.name),
        ObjectKind::Message => sys.messages.get(place).map(|config| config.name),
        ObjectKind::SharedWord => sys.shared_words.get(place).map(|config| config.name),
        ObjectKind::SpinLock => sys.spin_locks.get(place).map(|config| config.name),
        ObjectKind::Cyclic => sys.cyclics.get(place).map(|config| config.name),
    }
}

/// The name of the object of a kind that a number names, from 1, if there is one.
pub fn object_name(sys: &System, kind: ObjectKind, number: i32) -> Option<Name>
    ensures { result ≡ spec.object_name (tables_of sys.now) kind number }
{
    name_at(sys, kind, usize::from(numbered(MOST, number)?))
}

/// A kind of objects in words.
pub fn kind_word(kind: ObjectKind) -> &'static str
    ensures { result.now ≡ spec.kind_word kind }
{
    match kind {
        ObjectKind::Task => "task",
        ObjectKind::Semaphore => "semaphore",
        ObjectKind::Flag => "eventflag",
        ObjectKind::DataQueue => "data queue",
        ObjectKind::Mailbox => "mailbox",
        ObjectKind::Message => "message",
        ObjectKind::SharedWord => "shared word",
        ObjectKind::SpinLock => "spin lock",
        ObjectKind::Cyclic => "cyclic handler",
    }
}

/// Appends the name of the task at a place.
pub fn append_task(sys: &System, task: usize, out: &mut Vec<u8>) -> Result<(), AllocError>
    ensures { OnOk result (out.new.items ≡ out.old.items ++ task_name (tables_of sys.now) task) }
{
    match sys.tasks.get(task) {
        Some(config) => append(config.name.as_bytes(), out),
        None => Ok(()),
    }
}

/// Appends the name of the cyclic handler at a place.
pub fn append_cyclic(sys: &System, cyclic: u8, out: &mut Vec<u8>) -> Result<(), AllocError>
    ensures { OnOk result (out.new.items
        ≡ out.old.items ++ name_text (cyclic_config (tables_of sys.now) cyclic).name) }
{
    match sys.cyclics.get(usize::from(cyclic)) {
        Some(config) => append(config.name.as_bytes(), out),
        None => Ok(()),
    }
}

/// Appends the name of a handler: of an interrupt `#` and its number.
pub fn append_handler(sys: &System, handler: Handler, out: &mut Vec<u8>) -> Result<(), AllocError>
    ensures { OnOk result (out.new.items ≡ out.old.items ++ handler_text (tables_of sys.now) handler) }
{
    match handler {
        Handler::Interrupt(place) => {
            append(b"#", out)?;
            append_number(u64::from(place) + 1, out)
        }
        Handler::Cyclic(cyclic) => append_cyclic(sys, cyclic, out),
    }
}

/// Appends the name of a task or a handler.
pub fn append_caller(sys: &System, caller: Caller, out: &mut Vec<u8>) -> Result<(), AllocError>
    ensures { OnOk result (out.new.items ≡ out.old.items ++ caller_name (tables_of sys.now) caller) }
{
    match caller {
        Caller::Task(task) => append_task(sys, usize::from(task), out),
        Caller::Handler(handler) => append_handler(sys, handler, out),
    }
}

/// Appends the name of the task that a processor runs, or `-`.
pub fn append_running(sys: &System, task: Option<u8>, out: &mut Vec<u8>) -> Result<(), AllocError>
    ensures { OnOk result (out.new.items ≡ out.old.items ++ run_text (tables_of sys.now) task) }
{
    match task {
        Some(task) => append_task(sys, usize::from(task), out),
        None => append(b"-", out),
    }
}
