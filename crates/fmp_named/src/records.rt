//! The lines of a trace and the states of the tasks as objects of JSON, one a line.
ghost use Rattle.std.specs.Prelude.{◌≡◌, ◌++◌, ◌∷◌, [], ◌+◌, codes, IfOk, OnOk};
ghost use Rattle.std.specs.Str.Lossy.{utf8_lossy};
ghost use Rattle.std.specs.String.{string_bytes};
ghost use Rattle.json.specs.Token.{null, number, string};
ghost use Rattle.fmp_base.specs.Systems.{tables_of};
ghost use Rattle.fmp_base.specs.Texts.{caller_name};
ghost use Rattle.fmp_named.specs.Records as spec;

use crate::lines::is_out;
use crate::names::{append_caller, append_task, object_name};
use crate::states::append_wait;
use fmp_base::{Call, Caller, Handler, Line, Name, Parameter, Reply, System, TaskBlock, TaskState};
use fmp_json::{append, begin, begin_list, end_list, finish, number_member, text_member};
use json::Writer;
use std::alloc::{AllocError, Global};

/// The name of a task or a handler, as a text.
fn caller_string(alloc: Global, sys: &System, caller: Caller) -> Result<String, AllocError>
    ensures { IfOk result (λ text. string_bytes text ≡ utf8_lossy (caller_name (tables_of sys.now) caller)) }
{
    let mut bytes = Vec::new(alloc);
    append_caller(sys, caller, &mut bytes)?;
    String::from_utf8_lossy(alloc, &bytes)
}

/// Writes the processor at a place.
fn write_processor(writer: &mut Writer, processor: u8) -> Result<(), AllocError>
    ensures before { writer.new.before ≡ writer.old.before }
    ensures tokens { OnOk result (writer.new.tokens ≡ writer.old.tokens ++ spec.processor_member processor) }
{
    number_member(writer, "processor", u64::from(processor) + 1)
}

/// Writes an actor, after its processor.
fn write_actor(
    alloc: Global,
    sys: &System,
    processor: u8,
    caller: Caller,
    writer: &mut Writer,
) -> Result<(), AllocError>
    ensures before { writer.new.before ≡ writer.old.before }
    ensures tokens { OnOk result (writer.new.tokens
        ≡ writer.old.tokens ++ spec.actor_members (tables_of sys.now) processor caller) }
{
    let name = caller_string(alloc, sys, caller)?;
    write_processor(writer, processor)?;
    text_member(writer, "actor", &name)
}

/// Writes numbers, one after another.
fn write_numbers(writer: &mut Writer, numbers: &[i32]) -> Result<(), AllocError>
    ensures before { writer.new.before ≡ writer.old.before }
    ensures tokens { OnOk result (writer.new.tokens ≡ writer.old.tokens ++ spec.number_tokens numbers.now) }
{
    for number in numbers {
        writer.i64(i64::from(*number))?;
    }
    Ok(())
}

/// Writes a name, or null.
fn write_name(alloc: Global, writer: &mut Writer, name: Option<Name>) -> Result<(), AllocError>
    ensures before { writer.new.before ≡ writer.old.before }
    ensures tokens { OnOk result (writer.new.tokens ≡ writer.old.tokens ++ spec.name_token name ∷ []) }
{
    match name {
        Some(name) => {
            let text = String::from_utf8_lossy(alloc, name.as_bytes())?;
            writer.string(&text)
        }
        None => writer.null(),
    }
}

/// The name of the object that an argument at this parameter is, if it is one.
fn argument_name(sys: &System, parameter: Parameter, number: i32) -> Option<Name>
    ensures { result ≡ spec.argument_name (tables_of sys.now) parameter number }
{
    object_name(sys, parameter.object_kind()?, number)
}

/// Writes the names of the objects that arguments are, each at its parameter.
fn write_names(
    alloc: Global,
    sys: &System,
    parameters: &[Parameter],
    numbers: &[i32],
    writer: &mut Writer,
) -> Result<(), AllocError>
    ensures before { writer.new.before ≡ writer.old.before }
    ensures tokens { OnOk result (writer.new.tokens
        ≡ writer.old.tokens ++ spec.name_tokens (tables_of sys.now) parameters.now numbers.now) }
{
    let mut rest = numbers;
    for parameter in parameters {
        if is_out(*parameter) {
            continue;
        }
        let [number, more @ ..] = rest else {
            return Ok(());
        };
        write_name(alloc, writer, argument_name(sys, *parameter, *number))?;
        rest = more;
    }
    Ok(())
}

/// Writes the arguments of a call, and their names.
fn write_arguments(
    alloc: Global,
    sys: &System,
    call: Call,
    writer: &mut Writer,
) -> Result<(), AllocError>
    ensures before { writer.new.before ≡ writer.old.before }
    ensures tokens { OnOk result (writer.new.tokens
        ≡ writer.old.tokens ++ spec.argument_members (tables_of sys.now) call) }
{
    let arguments = call.arguments();
    begin_list(writer, "arguments")?;
    write_numbers(writer, arguments.as_slice())?;
    end_list(writer)?;
    begin_list(writer, "names")?;
    write_names(
        alloc,
        sys,
        call.service().parameters(),
        arguments.as_slice(),
        writer,
    )?;
    end_list(writer)
}

/// Writes the value of a reply, if there is one.
fn write_value(writer: &mut Writer, value: Option<i32>) -> Result<(), AllocError>
    ensures before { writer.new.before ≡ writer.old.before }
    ensures tokens { OnOk result (writer.new.tokens ≡ writer.old.tokens ++ spec.value_member value) }
{
    match value {
        Some(value) => {
            writer.key("value")?;
            writer.i64(i64::from(value))
        }
        None => Ok(()),
    }
}

/// Writes a reply, or null where the caller waits.
fn write_reply(writer: &mut Writer, reply: Option<Reply>) -> Result<(), AllocError>
    ensures before { writer.new.before ≡ writer.old.before }
    ensures tokens { OnOk result (writer.new.tokens ≡ writer.old.tokens ++ spec.reply_members reply) }
{
    match reply {
        Some(reply) => {
            text_member(writer, "reply", reply.code.name())?;
            write_value(writer, reply.value)
        }
        None => {
            writer.key("reply")?;
            writer.null()
        }
    }
}

/// Writes a call with its arguments and its answer.
fn write_call(
    alloc: Global,
    sys: &System,
    call: Call,
    reply: Option<Reply>,
    writer: &mut Writer,
) -> Result<(), AllocError>
    ensures before { writer.new.before ≡ writer.old.before }
    ensures tokens { OnOk result (writer.new.tokens
        ≡ writer.old.tokens ++ spec.call_members (tables_of sys.now) call reply) }
{
    text_member(writer, "call", call.service().name())?;
    write_arguments(alloc, sys, call, writer)?;
    write_reply(writer, reply)
}

/// Writes who a processor runs.
fn write_running(
    alloc: Global,
    sys: &System,
    processor: u8,
    task: Option<u8>,
    writer: &mut Writer,
) -> Result<(), AllocError>
    ensures before { writer.new.before ≡ writer.old.before }
    ensures tokens { OnOk result (writer.new.tokens
        ≡ writer.old.tokens ++ spec.running_members (tables_of sys.now) processor task) }
{
    match task {
        Some(task) => write_actor(alloc, sys, processor, Caller::Task(task), writer),
        None => {
            write_processor(writer, processor)?;
            writer.key("actor")?;
            writer.null()
        }
    }
}

/// What a line tells.
fn kind_of(line: Line) -> &'static str
    ensures { result.now ≡ spec.kind_of line }
{
    match line {
        Line::Tick(_) => "tick",
        Line::Int(_) => "interrupt",
        Line::Call { .. } => "call",
        Line::End { .. } => "end",
        Line::Fault { .. } => "fault",
        Line::Gets { .. } => "gets",
        Line::Starts { .. } => "starts",
        Line::Pends { .. } => "pends",
        Line::Begins { .. } => "begins",
        Line::Runs { .. } => "runs",
    }
}

/// Writes who acts in a line.
fn write_who(alloc: Global, sys: &System, line: Line, writer: &mut Writer) -> Result<(), AllocError>
    ensures before { writer.new.before ≡ writer.old.before }
    ensures tokens { OnOk result (writer.new.tokens
        ≡ writer.old.tokens ++ spec.who_members (tables_of sys.now) line) }
{
    match line {
        Line::Tick(clock) => number_member(writer, "clock", u64::from(clock)),
        Line::Int(place) => number_member(writer, "number", u64::from(place) + 1),
        Line::Call {
            processor,
            caller,
            ..
        }
        | Line::End { processor, caller }
        | Line::Fault {
            processor,
            caller,
            ..
        } => write_actor(alloc, sys, processor, caller, writer),
        Line::Gets {
            processor,
            task,
            ..
        }
        | Line::Starts { processor, task } => write_actor(
            alloc,
            sys,
            processor,
            Caller::Task(task),
            writer,
        ),
        Line::Pends { processor, cyclic } => {
            let handler = Caller::Handler(Handler::Cyclic(cyclic));
            write_actor(alloc, sys, processor, handler, writer)
        }
        Line::Begins { processor, handler } => write_actor(
            alloc,
            sys,
            processor,
            Caller::Handler(handler),
            writer,
        ),
        Line::Runs { processor, task } => write_running(alloc, sys, processor, task, writer),
    }
}

/// Writes what a line tells besides who acts.
fn write_rest(
    alloc: Global,
    sys: &System,
    line: Line,
    writer: &mut Writer,
) -> Result<(), AllocError>
    ensures before { writer.new.before ≡ writer.old.before }
    ensures tokens { OnOk result (writer.new.tokens
        ≡ writer.old.tokens ++ spec.rest_members (tables_of sys.now) line) }
{
    match line {
        Line::Call { call, reply, .. } => write_call(alloc, sys, call, reply, writer),
        Line::Fault { fault, .. } => text_member(writer, "fault", fault.name()),
        Line::Gets { reply, .. } => write_reply(writer, Some(reply)),
        _ => Ok(()),
    }
}

/// A line of the event of this number, as an object of JSON with a line feed after it.
fn line_record(alloc: Global, sys: &System, number: u32, line: Line) -> Result<Vec<u8>, AllocError>
    ensures { IfOk result (λ out. out.items ≡ spec.line_record (tables_of sys.now) number line) }
{
    let mut writer = begin(alloc)?;
    number_member(&mut writer, "event", u64::from(number))?;
    text_member(&mut writer, "what", kind_of(line))?;
    write_who(alloc, sys, line, &mut writer)?;
    write_rest(alloc, sys, line, &mut writer)?;
    finish(writer)
}

/// Appends the lines of the event of this number, each as an object of JSON in a line.
pub fn append_records(
    alloc: Global,
    sys: &System,
    number: u32,
    lines: &[Line],
    out: &mut Vec<u8>,
) -> Result<(), AllocError>
    ensures { OnOk result (out.new.items ≡ out.old.items ++ spec.line_records (tables_of sys.now) number lines.now) }
{
    for line in lines {
        let record = line_record(alloc, sys, number, *line)?;
        append(&record, out)?;
    }
    Ok(())
}

/// What a task of this block waits for, as a text; empty if it does not wait.
fn wait_string(alloc: Global, sys: &System, block: &TaskBlock) -> Result<String, AllocError>
    ensures { IfOk result (λ text. string_bytes text ≡ utf8_lossy (spec.wait_of (tables_of sys.now) block.now)) }
{
    let mut bytes = Vec::new(alloc);
    append_wait(sys, block, &mut bytes)?;
    String::from_utf8_lossy(alloc, &bytes)
}

/// The name of the task at a place, as a text.
fn task_string(alloc: Global, sys: &System, task: usize) -> Result<String, AllocError>
    ensures { IfOk result (λ text. string_bytes text ≡ utf8_lossy (spec.task_name (tables_of sys.now) task)) }
{
    let mut bytes = Vec::new(alloc);
    append_task(sys, task, &mut bytes)?;
    String::from_utf8_lossy(alloc, &bytes)
}

/// Writes the state of a task of this name.
fn write_state(writer: &mut Writer, name: &str, state: TaskState) -> Result<(), AllocError>
    ensures before { writer.new.before ≡ writer.old.before }
    ensures tokens { OnOk result (writer.new.tokens ≡ writer.old.tokens ++ spec.state_members name.now state) }
{
    text_member(writer, "task", name)?;
    text_member(writer, "state", state.word.name())?;
    write_processor(writer, state.processor)?;
    number_member(writer, "priority", u64::from(state.priority))
}

/// The state of the task at a place, as an object of JSON with a line feed after it.
fn state_record(
    alloc: Global,
    sys: &System,
    task: usize,
    state: TaskState,
    block: &TaskBlock,
) -> Result<Vec<u8>, AllocError>
    ensures { IfOk result (λ out. out.items ≡ spec.state_record (tables_of sys.now) task state block.now) }
{
    let name = task_string(alloc, sys, task)?;
    let wait = wait_string(alloc, sys, block)?;
    let mut writer = begin(alloc)?;
    text_member(&mut writer, "what", "state")?;
    write_state(&mut writer, &name, state)?;
    text_member(&mut writer, "waits", &wait)?;
    finish(writer)
}

/// Appends the states of all tasks, each as an object of JSON in a line, from what is shown and what is kept of them.
pub fn append_state_records(
    alloc: Global,
    sys: &System,
    states: &[TaskState],
    blocks: &[TaskBlock],
    out: &mut Vec<u8>,
) -> Result<(), AllocError>
    ensures { OnOk result (out.new.items
        ≡ out.old.items ++ spec.state_records (tables_of sys.now) 0 states.now blocks.now) }
{
    let mut rest = blocks;
    for (task, state) in states.iter().enumerate() {
        let [block, more @ ..] = rest else {
            return Ok(());
        };
        let record = state_record(alloc, sys, task, *state, block)?;
        append(&record, out)?;
        rest = more;
    }
    Ok(())
}
