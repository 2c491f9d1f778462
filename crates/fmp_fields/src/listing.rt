//! The list of all fields of the states of a system and its code.
ghost use Rattle.std.specs.Prelude.{◌≡◌, ◌≤◌, ◌<◌, ℕ, IfOk, length};
ghost use Rattle.std.specs.List.{Contains};
ghost use Rattle.fmp_base.specs.Ranges.{IsInRange};
ghost use Rattle.fmp_base.specs.Systems.{body_of, tables_of};
ghost use Rattle.fmp_fields.specs.declared.field.What.{What};
ghost use Rattle.fmp_fields.specs.Fields.{AreAllFields};
ghost use Rattle.fmp_fields.specs.Listing.{
  AreAmong,
  HasCyclics,
  HasInterrupts,
  HasObjects,
  HasProcessor,
  HasProcessors,
  HasQueue,
  HasQueues,
  HasTask,
  HasTasks,
};
ghost use Rattle.fmp_instructions.specs.Instructions.{code_tables};

use crate::field::{What, low_byte};
use crate::room::{handler_room, room_of};
use fmp_base::{Entry, System};
use fmp_instructions::Code;
use std::alloc::{AllocError, Global};

/// Adds the field of each place below a count.
fn add_each<F: Fn(u8) -> What>(
    fields: &mut Vec<What>,
    count: usize,
    field: F,
) -> Result<(), AllocError>
    requires callable { F.IsAlwaysCallable field }
    requires few { count ≤ 256 }
    ensures kept { IfOk result (λ _. AreAmong fields.old.items fields.new.items) }
    ensures added { (f : ℕ → What) → ((i : ℕ) (x : What) → i < count → F.post field i x → x ≡ f i) →
        IfOk result (λ _. (i : ℕ) → i < count → Contains fields.new.items (f i)) }
{
    for place in 0..count {
        fields.push(field(low_byte(place)))?;
    }
    Ok(())
}

/// Adds the fields of a task that starts at this entry.
fn add_task(fields: &mut Vec<What>, code: &Code, t: u8, entry: Entry) -> Result<(), AllocError>
    ensures kept { IfOk result (λ _. AreAmong fields.old.items fields.new.items) }
    ensures added { IfOk result (λ _. HasTask (code_tables code.now) t (body_of entry) fields.new.items) }
{
    let room = room_of(code, entry);
    fields.extend_from_slice(&[
        What::Phase(t),
        What::Object(t),
        What::Wanted(t),
        What::Suspended(t),
        What::Priority(t),
        What::Processor(t),
        What::Activations(t),
        What::NextProcessor(t),
        What::Wakeups(t),
        What::TicksLeft(t),
        What::Behind(t),
        What::Pc(t),
    ])?;
    add_each(fields, usize::from(room.locals), |l| What::Local(t, l))?;
    fields.push(What::Operands(t))?;
    add_each(fields, usize::from(room.operands), |i| What::Operand(t, i))
}

/// Adds the fields of a processor.
fn add_processor(fields: &mut Vec<What>, sys: &System, code: &Code, p: u8) -> Result<(), AllocError>
    ensures kept { IfOk result (λ _. AreAmong fields.old.items fields.new.items) }
    ensures added { IfOk result
        (λ _. HasProcessor (tables_of sys.now) (code_tables code.now) p fields.new.items) }
{
    let room = handler_room(sys, code, p);
    fields.extend_from_slice(&[
        What::Runs(p),
        What::Lock(p),
        What::DispatchDisabled(p),
        What::InterruptHandler(p),
        What::CyclicHandler(p),
        What::HandlerPc(p),
    ])?;
    add_each(
        fields,
        usize::from(room.locals),
        |l| What::HandlerLocal(p, l),
    )?;
    fields.push(What::HandlerOperands(p))?;
    add_each(
        fields,
        usize::from(room.operands),
        |i| What::HandlerOperand(p, i),
    )
}

/// Adds the fields of the tasks.
fn add_tasks(fields: &mut Vec<What>, sys: &System, code: &Code) -> Result<(), AllocError>
    requires { length (tables_of sys.now).tasks ≤ 255 }
    ensures kept { IfOk result (λ _. AreAmong fields.old.items fields.new.items) }
    ensures added { IfOk result (λ _. HasTasks (tables_of sys.now) (code_tables code.now) fields.new.items) }
{
    for t in 0..sys.tasks.len() {
        add_task(fields, code, low_byte(t), sys.tasks[t].entry)?;
    }
    Ok(())
}

/// Adds the fields of the tasks and the processors.
fn add_actors(fields: &mut Vec<What>, sys: &System, code: &Code) -> Result<(), AllocError>
    requires { length (tables_of sys.now).tasks ≤ 255 }
    ensures kept { IfOk result (λ _. AreAmong fields.old.items fields.new.items) }
    ensures tasks { IfOk result (λ _. HasTasks (tables_of sys.now) (code_tables code.now) fields.new.items) }
    ensures processors { IfOk result
        (λ _. HasProcessors (tables_of sys.now) (code_tables code.now) fields.new.items) }
{
    add_tasks(fields, sys, code)?;
    for p in 0..sys.processors {
        add_processor(fields, sys, code, p)?;
    }
    Ok(())
}

/// Adds the fields of a data queue of this capacity.
fn add_data_queue(fields: &mut Vec<What>, d: u8, capacity: u8) -> Result<(), AllocError>
    ensures kept { IfOk result (λ _. AreAmong fields.old.items fields.new.items) }
    ensures added { IfOk result (λ _. HasQueue d capacity fields.new.items) }
{
    fields.push(What::Words(d))?;
    add_each(fields, usize::from(capacity), |i| What::Word(d, i))
}

/// Adds the fields of the data queues.
fn add_data_queues(fields: &mut Vec<What>, sys: &System) -> Result<(), AllocError>
    requires { length (tables_of sys.now).data_queues ≤ 255 }
    ensures kept { IfOk result (λ _. AreAmong fields.old.items fields.new.items) }
    ensures added { IfOk result (λ _. HasQueues (tables_of sys.now) fields.new.items) }
{
    for d in 0..sys.data_queues.len() {
        add_data_queue(fields, low_byte(d), sys.data_queues[d].capacity)?;
    }
    Ok(())
}

/// Adds the fields of the objects at which tasks wait, and of the shared words.
fn add_objects(fields: &mut Vec<What>, sys: &System) -> Result<(), AllocError>
    requires { IsInRange (tables_of sys.now) }
    ensures kept { IfOk result (λ _. AreAmong fields.old.items fields.new.items) }
    ensures added { IfOk result (λ _. HasObjects (tables_of sys.now) fields.new.items) }
{
    add_each(fields, sys.semaphores.len(), What::Count)?;
    add_each(fields, sys.flags.len(), What::Pattern)?;
    add_data_queues(fields, sys)?;
    add_each(fields, sys.mailboxes.len(), What::FirstMessage)?;
    add_each(fields, sys.messages.len(), What::MessageBehind)?;
    add_each(fields, sys.shared_words.len(), What::SharedWord)
}

/// Adds the fields of the cyclic handlers.
fn add_cyclics(fields: &mut Vec<What>, sys: &System) -> Result<(), AllocError>
    requires { length (tables_of sys.now).cyclics ≤ 255 }
    ensures kept { IfOk result (λ _. AreAmong fields.old.items fields.new.items) }
    ensures added { IfOk result (λ _. HasCyclics (tables_of sys.now) fields.new.items) }
{
    for c in 0..sys.cyclics.len() {
        fields.push(What::TicksToDue(low_byte(c)))?;
        fields.push(What::PendingCyclic(low_byte(c)))?;
    }
    Ok(())
}

/// Adds the fields of the interrupts that have a handler.
fn add_interrupts(fields: &mut Vec<What>, sys: &System) -> Result<(), AllocError>
    ensures kept { IfOk result (λ _. AreAmong fields.old.items fields.new.items) }
    ensures added { IfOk result (λ _. HasInterrupts (tables_of sys.now) fields.new.items) }
{
    for handler in &sys.interrupts {
        fields.push(What::PendingInterrupt(handler.number.saturating_sub(1)))?;
    }
    Ok(())
}

/// The fields of the states of a system and its code, in order. `AllocError` if memory runs out.
pub fn fields_of(
    alloc: Global,
    sys: &System,
    code: &Code,
    limited: bool,
) -> Result<Vec<What>, AllocError>
    requires { IsInRange (tables_of sys.now) }
    ensures { IfOk result
        (λ fields. AreAllFields (tables_of sys.now) (code_tables code.now) limited fields.items) }
{
    let mut fields = Vec::new(alloc);
    if limited {
        fields.push(What::Interrupts)?;
    }
    add_actors(&mut fields, sys, code)?;
    add_objects(&mut fields, sys)?;
    add_cyclics(&mut fields, sys)?;
    add_interrupts(&mut fields, sys)?;
    Ok(fields)
}
