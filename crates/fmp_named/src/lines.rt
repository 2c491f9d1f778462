//! The lines of a trace, with names in place of numbers.
ghost use Rattle.std.specs.Prelude.{◌≡◌, ◌++◌, ◌∷◌, [], ◌+◌, codes, decimal, OnOk};
ghost use Rattle.fmp_base.specs.Names.{name_text};
ghost use Rattle.fmp_base.specs.Systems.{cyclic_config, tables_of};
ghost use Rattle.fmp_base.specs.Texts.{answer_text, caller_name, handler_name, processor_text, reply_text, run_text};
ghost use Rattle.fmp_base.specs.Texts.{task_name, value_text};
ghost use Rattle.fmp_named.specs.Lines as spec;
ghost use Rattle.fmp_named.specs.Lines.{argument_text, arguments_text, name_or_number, named_body, named_call};
ghost use Rattle.fmp_named.specs.Lines.{named_lines};

use crate::names::{
    append_caller, append_cyclic, append_handler, append_running, append_task, object_name,
};
use crate::text::{append_numbered, append_processor};
use fmp_base::{Call, Caller, Handler, Line, Name, Parameter, Reply, System};
use fmp_json::{append, append_number, append_signed};
use std::alloc::AllocError;

/// Appends a name, or else a number.
fn append_name_or_number(
    name: Option<Name>,
    number: i32,
    out: &mut Vec<u8>,
) -> Result<(), AllocError>
    ensures { OnOk result (out.new.items ≡ out.old.items ++ name_or_number name number) }
{
    match name {
        Some(name) => append(name.as_bytes(), out),
        None => append_signed(i64::from(number), out),
    }
}

/// Appends an argument at this parameter.
#[tactic(auto, unfolding(crate::specs::Lines::argument_text))]
fn append_argument(
    sys: &System,
    parameter: Parameter,
    number: i32,
    out: &mut Vec<u8>,
) -> Result<(), AllocError>
    ensures { OnOk result (out.new.items ≡ out.old.items ++ argument_text (tables_of sys.now) parameter number) }
{
    match parameter.object_kind() {
        Some(kind) => append_name_or_number(object_name(sys, kind, number), number, out),
        None => append_signed(i64::from(number), out),
    }
}

/// Whether a parameter is an out place, which is no argument.
pub fn is_out(parameter: Parameter) -> bool
    ensures { result ≡ spec.is_out parameter }
{
    matches!(parameter, Parameter::Out)
}

/// Appends the comma that stands between an argument and those after it, if there are any.
#[tactic(auto, unfolding(crate::specs::Lines::comma))]
fn append_comma(rest: &[i32], out: &mut Vec<u8>) -> Result<(), AllocError>
    ensures { OnOk result (out.new.items ≡ out.old.items ++ spec.comma rest.now) }
{
    match rest {
        [] => Ok(()),
        _ => append(b",", out),
    }
}

/// Appends the first of these arguments, which is at this parameter, and the comma after it if others are after it.
#[tactic(auto, unfolding(crate::specs::Lines::first_argument))]
fn append_first(
    sys: &System,
    parameter: Parameter,
    numbers: &[i32],
    out: &mut Vec<u8>,
) -> Result<(), AllocError>
    ensures { OnOk result (out.new.items
        ≡ out.old.items ++ spec.first_argument (tables_of sys.now) parameter numbers.now) }
{
    match numbers {
        [] => Ok(()),
        [number, rest @ ..] => {
            append_argument(sys, parameter, *number, out)?;
            append_comma(rest, out)
        }
    }
}

/// The numbers after the first.
#[tactic(auto, unfolding(crate::specs::Lines::behind_first))]
fn behind_first(numbers: &[i32]) -> &[i32]
    ensures { result.now ≡ spec.behind_first numbers.now }
{
    match numbers {
        [] => numbers,
        [_, rest @ ..] => rest,
    }
}

/// Appends arguments, each at its parameter.
fn append_arguments(
    sys: &System,
    parameters: &[Parameter],
    numbers: &[i32],
    out: &mut Vec<u8>,
) -> Result<(), AllocError>
    ensures { OnOk result (out.new.items
        ≡ out.old.items ++ arguments_text (tables_of sys.now) parameters.now numbers.now) }
{
    let mut rest = numbers;
    for parameter in parameters {
        if is_out(*parameter) {
            continue;
        }
        append_first(sys, *parameter, rest, out)?;
        rest = behind_first(rest);
    }
    Ok(())
}

/// Appends a call with the names of the objects that its arguments are.
pub fn append_call(sys: &System, call: Call, out: &mut Vec<u8>) -> Result<(), AllocError>
    ensures { OnOk result (out.new.items ≡ out.old.items ++ named_call (tables_of sys.now) call) }
{
    let service = call.service();
    append(service.name().as_bytes(), out)?;
    append(b"(", out)?;
    append_arguments(sys, service.parameters(), call.arguments().as_slice(), out)?;
    append(b")", out)
}

/// Appends the value of a reply, if there is one.
fn append_value(value: Option<i32>, out: &mut Vec<u8>) -> Result<(), AllocError>
    ensures { OnOk result (out.new.items ≡ out.old.items ++ value_text value) }
{
    match value {
        Some(value) => {
            append(b" ", out)?;
            append_signed(i64::from(value), out)
        }
        None => Ok(()),
    }
}

/// Appends a reply.
fn append_reply(reply: Reply, out: &mut Vec<u8>) -> Result<(), AllocError>
    ensures { OnOk result (out.new.items ≡ out.old.items ++ reply_text reply) }
{
    append(reply.code.name().as_bytes(), out)?;
    append_value(reply.value, out)
}

/// Appends a reply, or `wait` where the caller waits.
fn append_answer(reply: Option<Reply>, out: &mut Vec<u8>) -> Result<(), AllocError>
    ensures { OnOk result (out.new.items ≡ out.old.items ++ answer_text reply) }
{
    match reply {
        Some(reply) => append_reply(reply, out),
        None => append(b"wait", out),
    }
}

/// Appends a task or a handler after its processor.
fn append_actor(
    sys: &System,
    processor: u8,
    caller: Caller,
    out: &mut Vec<u8>,
) -> Result<(), AllocError>
    ensures { OnOk result (out.new.items
        ≡ out.old.items ++ (processor_text processor ++ caller_name (tables_of sys.now) caller)) }
{
    append_processor(processor, out)?;
    append_caller(sys, caller, out)
}

/// Appends a call of an actor, with the answer.
fn append_called(
    sys: &System,
    processor: u8,
    caller: Caller,
    call: Call,
    reply: Option<Reply>,
    out: &mut Vec<u8>,
) -> Result<(), AllocError>
    ensures { OnOk result (out.new.items
        ≡ out.old.items ++ spec.called (tables_of sys.now) processor caller call reply) }
{
    append_actor(sys, processor, caller, out)?;
    append(b" ", out)?;
    append_call(sys, call, out)?;
    append(b" ", out)?;
    append_answer(reply, out)
}

/// Appends what became of an actor.
fn append_stopped(
    sys: &System,
    processor: u8,
    caller: Caller,
    what: &[u8],
    out: &mut Vec<u8>,
) -> Result<(), AllocError>
    ensures { OnOk result (out.new.items ≡ out.old.items
        ++ (processor_text processor ++ (caller_name (tables_of sys.now) caller ++ (codes " " ++ what.now)))) }
{
    append_actor(sys, processor, caller, out)?;
    append(b" ", out)?;
    append(what, out)
}

/// Appends the reply with which a task was released.
fn append_gets(
    sys: &System,
    processor: u8,
    task: u8,
    reply: Reply,
    out: &mut Vec<u8>,
) -> Result<(), AllocError>
    ensures { OnOk result (out.new.items ≡ out.old.items
        ++ (processor_text processor ++ (task_name (tables_of sys.now) task ++ (codes " gets " ++ reply_text reply)))) }
{
    append_processor(processor, out)?;
    append_task(sys, usize::from(task), out)?;
    append(b" gets ", out)?;
    append_reply(reply, out)
}

/// Appends that a task starts.
fn append_starts(sys: &System, processor: u8, task: u8, out: &mut Vec<u8>) -> Result<(), AllocError>
    ensures { OnOk result (out.new.items ≡ out.old.items
        ++ (processor_text processor ++ (task_name (tables_of sys.now) task ++ codes " starts"))) }
{
    append_processor(processor, out)?;
    append_task(sys, usize::from(task), out)?;
    append(b" starts", out)
}

/// Appends that a cyclic handler pends.
fn append_pends(
    sys: &System,
    processor: u8,
    cyclic: u8,
    out: &mut Vec<u8>,
) -> Result<(), AllocError>
    ensures { OnOk result (out.new.items ≡ out.old.items
        ++ (processor_text processor ++ (codes "cyc " ++ name_text (cyclic_config (tables_of sys.now) cyclic).name))) }
{
    append_processor(processor, out)?;
    append(b"cyc ", out)?;
    append_cyclic(sys, cyclic, out)
}

/// Appends that a handler begins.
fn append_begins(
    sys: &System,
    processor: u8,
    handler: Handler,
    out: &mut Vec<u8>,
) -> Result<(), AllocError>
    ensures { OnOk result (out.new.items ≡ out.old.items
        ++ (processor_text processor ++ (codes "begin " ++ handler_name (tables_of sys.now) handler))) }
{
    append_processor(processor, out)?;
    append(b"begin ", out)?;
    append_handler(sys, handler, out)
}

/// Appends which task a processor runs.
fn append_runs(
    sys: &System,
    processor: u8,
    task: Option<u8>,
    out: &mut Vec<u8>,
) -> Result<(), AllocError>
    ensures { OnOk result (out.new.items ≡ out.old.items
        ++ (processor_text processor ++ (codes "> " ++ run_text (tables_of sys.now) task))) }
{
    append_processor(processor, out)?;
    append(b"> ", out)?;
    append_running(sys, task, out)
}

/// Appends a line without its number and its end.
fn append_body(sys: &System, line: Line, out: &mut Vec<u8>) -> Result<(), AllocError>
    ensures { OnOk result (out.new.items ≡ out.old.items ++ named_body (tables_of sys.now) line) }
{
    match line {
        Line::Tick(clock) => append_numbered(b" tick ", clock, out),
        Line::Int(place) => append_numbered(b" int ", u32::from(place) + 1, out),
        Line::Call {
            processor,
            caller,
            call,
            reply,
        } => append_called(sys, processor, caller, call, reply, out),
        Line::End { processor, caller } => append_stopped(sys, processor, caller, b"end", out),
        Line::Fault {
            processor,
            caller,
            fault,
        } => append_stopped(sys, processor, caller, fault.name().as_bytes(), out),
        Line::Gets {
            processor,
            task,
            reply,
        } => append_gets(sys, processor, task, reply, out),
        Line::Starts { processor, task } => append_starts(sys, processor, task, out),
        Line::Pends { processor, cyclic } => append_pends(sys, processor, cyclic, out),
        Line::Begins { processor, handler } => append_begins(sys, processor, handler, out),
        Line::Runs { processor, task } => append_runs(sys, processor, task, out),
    }
}

/// Appends the lines of the event of this number, with names in place of numbers, each ended by a line feed.
pub fn append_lines(
    sys: &System,
    number: u32,
    lines: &[Line],
    out: &mut Vec<u8>,
) -> Result<(), AllocError>
    ensures { OnOk result (out.new.items ≡ out.old.items ++ named_lines (tables_of sys.now) number lines.now) }
{
    for line in lines {
        append_number(u64::from(number), out)?;
        append_body(sys, *line, out)?;
        append(b"\n", out)?;
    }
    Ok(())
}
