//! The resource file of a system for TraceLogVisualizer: what its objects are called, and what is known of them.
ghost use Rattle.std.specs.Prelude.{◌≡◌, ◌+◌, ◌++◌, IfOk, OnOk, codes, decimal};
ghost use Rattle.fmp_base.specs.Systems.{tables_of};
ghost use Rattle.fmp_json.specs.Members.{object_line};
ghost use Rattle.fmp_slices.specs.Labels.{entry_name as spec_entry};
ghost use Rattle.fmp_slices.specs.Resources as spec;

use crate::labels::entry_name;
use fmp_base::{Caller, CyclicConfig, Entry, Handler, InterruptConfig, Name, System, TaskConfig};
use fmp_json::{
    append, append_number, begin, begin_list, end_list, finish, number_member, text_member,
};
use fmp_named::append_caller;
use json::Writer;
use std::alloc::{AllocError, Global};

/// Appends the name that the handler of an interrupt has as an object.
fn append_interrupt(number: u8, out: &mut Vec<u8>) -> Result<(), AllocError>
    ensures { OnOk result (out.new.items ≡ out.old.items ++ (codes "INT_" ++ decimal number)) }
{
    append(b"INT_", out)?;
    append_number(u64::from(number), out)
}

/// Appends the name that a handler has as an object: of an interrupt `INT_` and its number.
pub fn append_handler(sys: &System, handler: Handler, out: &mut Vec<u8>) -> Result<(), AllocError>
    ensures { OnOk result (out.new.items ≡ out.old.items ++ spec.handler_object (tables_of sys.now) handler) }
{
    match handler {
        Handler::Interrupt(place) => append_interrupt(place.saturating_add(1), out),
        Handler::Cyclic(_) => append_caller(sys, Caller::Handler(handler), out),
    }
}

/// Appends the name that a task or a handler has as an object.
pub fn append_object(sys: &System, actor: Caller, out: &mut Vec<u8>) -> Result<(), AllocError>
    ensures { OnOk result (out.new.items ≡ out.old.items ++ spec.actor_object (tables_of sys.now) actor) }
{
    match actor {
        Caller::Task(_) => append_caller(sys, actor, out),
        Caller::Handler(handler) => append_handler(sys, handler, out),
    }
}

/// Appends the name of the context of the processor at a place.
pub fn append_context(processor: u8, out: &mut Vec<u8>) -> Result<(), AllocError>
    ensures { OnOk result (out.new.items ≡ out.old.items ++ (codes "CurrentContext_PRC" ++ decimal (processor + 1))) }
{
    append(b"CurrentContext_PRC", out)?;
    append_number(u64::from(processor) + 1, out)
}

/// Begins a resource of this name and type: its attributes follow, its number first.
fn begin_resource(
    alloc: Global,
    name: &[u8],
    kind: &str,
    number: u64,
    writer: &mut Writer,
) -> Result<(), AllocError>
    ensures before { writer.new.before ≡ writer.old.before }
    ensures tokens { OnOk result (writer.new.tokens
        ≡ writer.old.tokens ++ spec.resource_begin name.now kind.now number) }
{
    let name = String::from_utf8_lossy(alloc, name)?;
    writer.key(&name)?;
    writer.begin_object()?;
    text_member(writer, "Type", kind)?;
    writer.key("Attributes")?;
    writer.begin_object()?;
    number_member(writer, "id", number)
}

/// Ends a resource.
fn end_resource(writer: &mut Writer) -> Result<(), AllocError>
    ensures before { writer.new.before ≡ writer.old.before }
    ensures tokens { OnOk result (writer.new.tokens ≡ writer.old.tokens ++ spec.resource_end) }
{
    writer.end_object()?;
    writer.end_object()
}

/// Ends a task or a handler, which is dormant at first.
fn end_dormant(writer: &mut Writer) -> Result<(), AllocError>
    ensures before { writer.new.before ≡ writer.old.before }
    ensures tokens { OnOk result (writer.new.tokens ≡ writer.old.tokens ++ spec.dormant_end) }
{
    text_member(writer, "state", "DORMANT")?;
    end_resource(writer)
}

/// Writes the number of the processor at a place.
fn write_processor(processor: u8, writer: &mut Writer) -> Result<(), AllocError>
    ensures before { writer.new.before ≡ writer.old.before }
    ensures tokens { OnOk result (writer.new.tokens ≡ writer.old.tokens ++ spec.processor_member processor) }
{
    number_member(writer, "prcId", u64::from(processor) + 1)
}

/// Writes the context of the processor at a place, which is idle at first.
fn write_context(alloc: Global, processor: u8, writer: &mut Writer) -> Result<(), AllocError>
    ensures before { writer.new.before ≡ writer.old.before }
    ensures tokens { OnOk result (writer.new.tokens
        ≡ writer.old.tokens ++ spec.context_members processor) }
{
    let mut name = Vec::new(alloc);
    append_context(processor, &mut name)?;
    begin_resource(alloc, &name, "Context", u64::from(processor) + 1, writer)?;
    write_processor(processor, writer)?;
    text_member(writer, "name", "None")?;
    end_resource(writer)
}

/// Writes a member whose value is the name of the body of an entry, if that is known.
fn write_body(
    alloc: Global,
    member: &str,
    bodies: &[Name],
    entry: Entry,
    writer: &mut Writer,
) -> Result<(), AllocError>
    ensures before { writer.new.before ≡ writer.old.before }
    ensures tokens { OnOk result (writer.new.tokens
        ≡ writer.old.tokens ++ spec.body_member member.now (spec_entry bodies.now entry)) }
{
    match entry_name(bodies, entry) {
        Some(name) => {
            let text = String::from_utf8_lossy(alloc, name.as_bytes())?;
            text_member(writer, member, &text)
        }
        None => Ok(()),
    }
}

/// Writes a task of this number, which is dormant at first.
fn write_task(
    alloc: Global,
    number: u64,
    task: &TaskConfig,
    bodies: &[Name],
    writer: &mut Writer,
) -> Result<(), AllocError>
    ensures before { writer.new.before ≡ writer.old.before }
    ensures tokens { OnOk result (writer.new.tokens
        ≡ writer.old.tokens ++ spec.task_members bodies.now number task.now) }
{
    begin_resource(alloc, task.name.as_bytes(), "Task", number, writer)?;
    write_processor(task.processor, writer)?;
    number_member(writer, "pri", u64::from(task.priority))?;
    number_member(writer, "stksz", u64::from(task.stack))?;
    write_body(alloc, "task", bodies, task.entry, writer)?;
    end_dormant(writer)
}

/// Writes a cyclic handler of this number.
fn write_cyclic(
    alloc: Global,
    number: u64,
    cyclic: &CyclicConfig,
    bodies: &[Name],
    writer: &mut Writer,
) -> Result<(), AllocError>
    ensures before { writer.new.before ≡ writer.old.before }
    ensures tokens { OnOk result (writer.new.tokens
        ≡ writer.old.tokens ++ spec.cyclic_members bodies.now number cyclic.now) }
{
    begin_resource(
        alloc,
        cyclic.name.as_bytes(),
        "CyclicHandler",
        number,
        writer,
    )?;
    write_processor(cyclic.processor, writer)?;
    number_member(writer, "cyctim", u64::from(cyclic.period))?;
    number_member(writer, "cycphs", u64::from(cyclic.phase))?;
    write_body(alloc, "cychdr", bodies, cyclic.entry, writer)?;
    end_dormant(writer)
}

/// Begins the handler of the interrupt of this number.
#[tactic(auto, unfolding(crate::specs::Resources::interrupt_begin))]
fn begin_interrupt(alloc: Global, number: u8, writer: &mut Writer) -> Result<(), AllocError>
    ensures before { writer.new.before ≡ writer.old.before }
    ensures tokens { OnOk result (writer.new.tokens ≡ writer.old.tokens ++ spec.interrupt_begin number) }
{
    let mut name = Vec::new(alloc);
    append_interrupt(number, &mut name)?;
    begin_resource(alloc, &name, "InterruptHandler", u64::from(number), writer)
}

/// Writes the handler of an interrupt.
fn write_interrupt(
    alloc: Global,
    interrupt: &InterruptConfig,
    bodies: &[Name],
    writer: &mut Writer,
) -> Result<(), AllocError>
    ensures before { writer.new.before ≡ writer.old.before }
    ensures tokens { OnOk result (writer.new.tokens
        ≡ writer.old.tokens ++ spec.interrupt_members bodies.now interrupt.now) }
{
    begin_interrupt(alloc, interrupt.number, writer)?;
    write_processor(interrupt.processor, writer)?;
    write_body(alloc, "inthdr", bodies, interrupt.entry, writer)?;
    end_dormant(writer)
}

fn write_contexts(alloc: Global, sys: &System, writer: &mut Writer) -> Result<(), AllocError>
    ensures before { writer.new.before ≡ writer.old.before }
    ensures tokens { OnOk result (writer.new.tokens
        ≡ writer.old.tokens ++ spec.contexts_to sys.now.processors) }
{
    for processor in 0..sys.processors {
        write_context(alloc, processor, writer)?;
    }
    Ok(())
}

fn write_tasks(
    alloc: Global,
    sys: &System,
    bodies: &[Name],
    writer: &mut Writer,
) -> Result<(), AllocError>
    ensures before { writer.new.before ≡ writer.old.before }
    ensures tokens { OnOk result (writer.new.tokens
        ≡ writer.old.tokens ++ spec.tasks_members bodies.now 1 sys.now.tasks.items) }
{
    let mut number = 1u64;
    for task in &sys.tasks {
        write_task(alloc, number, task, bodies, writer)?;
        number = number.saturating_add(1);
    }
    Ok(())
}

fn write_cyclics(
    alloc: Global,
    sys: &System,
    bodies: &[Name],
    writer: &mut Writer,
) -> Result<(), AllocError>
    ensures before { writer.new.before ≡ writer.old.before }
    ensures tokens { OnOk result (writer.new.tokens
        ≡ writer.old.tokens ++ spec.cyclics_members bodies.now 1 sys.now.cyclics.items) }
{
    let mut number = 1u64;
    for cyclic in &sys.cyclics {
        write_cyclic(alloc, number, cyclic, bodies, writer)?;
        number = number.saturating_add(1);
    }
    Ok(())
}

fn write_interrupts(
    alloc: Global,
    sys: &System,
    bodies: &[Name],
    writer: &mut Writer,
) -> Result<(), AllocError>
    ensures before { writer.new.before ≡ writer.old.before }
    ensures tokens { OnOk result (writer.new.tokens
        ≡ writer.old.tokens ++ spec.interrupts_members bodies.now sys.now.interrupts.items) }
{
    for interrupt in &sys.interrupts {
        write_interrupt(alloc, interrupt, bodies, writer)?;
    }
    Ok(())
}

/// Writes a list of rules, of one: those of the multiprocessor kernel.
fn write_rules(name: &str, writer: &mut Writer) -> Result<(), AllocError>
    ensures before { writer.new.before ≡ writer.old.before }
    ensures tokens { OnOk result (writer.new.tokens
        ≡ writer.old.tokens ++ spec.rules_members name.now) }
{
    begin_list(writer, name)?;
    writer.string("fmp")?;
    end_list(writer)
}

/// Writes how times are written, and by which rules the visualizer reads and shows a log.
#[tactic(auto, unfolding(crate::specs::Resources::head_members))]
fn write_head(writer: &mut Writer) -> Result<(), AllocError>
    ensures before { writer.new.before ≡ writer.old.before }
    ensures tokens { OnOk result (writer.new.tokens
        ≡ writer.old.tokens ++ spec.head_members) }
{
    text_member(writer, "TimeScale", "us")?;
    number_member(writer, "TimeRadix", 10)?;
    write_rules("ConvertRules", writer)?;
    write_rules("VisualizeRules", writer)?;
    write_rules("ResourceHeaders", writer)
}

#[tactic(auto, unfolding(crate::specs::Resources::all_members))]
fn write_all(
    alloc: Global,
    sys: &System,
    bodies: &[Name],
    writer: &mut Writer,
) -> Result<(), AllocError>
    ensures before { writer.new.before ≡ writer.old.before }
    ensures tokens { OnOk result (writer.new.tokens
        ≡ writer.old.tokens ++ spec.all_members (tables_of sys.now) bodies.now) }
{
    write_contexts(alloc, sys, writer)?;
    write_tasks(alloc, sys, bodies, writer)?;
    write_cyclics(alloc, sys, bodies, writer)?;
    write_interrupts(alloc, sys, bodies, writer)
}

/// Begins a member whose value is an object.
#[tactic(auto, unfolding(crate::specs::Resources::object_begin))]
fn begin_object(name: &str, writer: &mut Writer) -> Result<(), AllocError>
    ensures before { writer.new.before ≡ writer.old.before }
    ensures tokens { OnOk result (writer.new.tokens ≡ writer.old.tokens ++ spec.object_begin name.now) }
{
    writer.key(name)?;
    writer.begin_object()
}

/// Ends it.
#[tactic(auto, unfolding(crate::specs::Resources::object_end))]
fn end_object(writer: &mut Writer) -> Result<(), AllocError>
    ensures before { writer.new.before ≡ writer.old.before }
    ensures tokens { OnOk result (writer.new.tokens ≡ writer.old.tokens ++ spec.object_end) }
{
    writer.end_object()
}

fn write_resources(
    alloc: Global,
    sys: &System,
    bodies: &[Name],
    writer: &mut Writer,
) -> Result<(), AllocError>
    ensures before { writer.new.before ≡ writer.old.before }
    ensures tokens { OnOk result (writer.new.tokens
        ≡ writer.old.tokens ++ spec.resources_members (tables_of sys.now) bodies.now) }
{
    begin_object("Resources", writer)?;
    write_all(alloc, sys, bodies, writer)?;
    end_object(writer)
}

/// The resource file of a system, an object of JSON in a line: the contexts of the processors, the tasks, the cyclic
/// handlers and the handlers of interrupts, each in order of number. The names of the bodies are those of an image, in
/// order of number. `AllocError` if memory runs out.
pub fn resources(alloc: Global, sys: &System, bodies: &[Name]) -> Result<Vec<u8>, AllocError>
    ensures { IfOk result (λ file. file.items
        ≡ object_line (spec.file_members (tables_of sys.now) bodies.now)) }
{
    let mut writer = begin(alloc)?;
    write_head(&mut writer)?;
    write_resources(alloc, sys, bodies, &mut writer)?;
    finish(writer)
}
