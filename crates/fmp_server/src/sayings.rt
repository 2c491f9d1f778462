//! What a hover says of a word, in Markdown.
ghost use Rattle.std.specs.Prelude.{◌≡◌, ◌++◌, OnOk, codes, flat_map};
ghost use Rattle.fmp_base.specs.Services.{service_name};
ghost use Rattle.fmp_server.specs.Hovers.{api_head, call_head, constant_head};
ghost use Rattle.fmp_server.specs.Messages.{Adds};

use crate::catalogue::{arguments_of, codes_of, deed_of};
use fmp_base::{Name, ObjectKind, Parameter, Permission, Service};
use fmp_diagnosis::fields::{Field, attributes_of, fields_of, object_of};
use fmp_json::{append, append_signed};
use fmp_lex::{Api, Constant};
use std::alloc::AllocError;

/// Appends bytes as code.
pub fn append_code(bytes: &[u8], out: &mut Vec<u8>) -> Result<(), AllocError> {
    append(b"`", out)?;
    append(bytes, out)?;
    append(b"`", out)
}

/// Appends texts, one after the other.
pub fn append_all(texts: &[&str], out: &mut Vec<u8>) -> Result<(), AllocError>
    ensures { OnOk result (out.new.items ≡ out.old.items ++ flat_map (λ text. text.now) texts.now) }
{
    for text in texts {
        append(text.as_bytes(), out)?;
    }
    Ok(())
}

/// Appends the name of a call and what stands between its parentheses.
pub fn append_call(service: Service, out: &mut Vec<u8>) -> Result<(), AllocError>
    ensures { OnOk result (Adds (out.old.items ++ (service_name service ++ codes "(")) out.new.items) }
{
    append_all(&[service.name(), "("], out)?;
    append_all(&[arguments_of(service), ")"], out)
}

/// What an object is of which a call takes the number.
fn called(kind: ObjectKind) -> &'static str {
    match kind {
        ObjectKind::Task => "u: a task",
        ObjectKind::Semaphore => "s: a semaphore",
        ObjectKind::Flag => "f: an eventflag",
        ObjectKind::DataQueue => "d: a data queue",
        ObjectKind::Mailbox => "x: a mailbox",
        ObjectKind::Message => "g: a message",
        ObjectKind::SharedWord => "w: a shared word",
        ObjectKind::SpinLock => "l: a spin lock",
        ObjectKind::Cyclic => "c: a cyclic handler",
    }
}

/// What a letter between the parentheses of a call stands for.
fn meaning(parameter: Parameter) -> &'static str {
    match parameter {
        Parameter::Object(kind) => called(kind),
        Parameter::TaskOrCaller => "t: a task, or 0 (`TSK_SELF`) for the caller",
        Parameter::Processor => "n: a processor",
        Parameter::Priority => "p: a priority",
        Parameter::Pattern => "b: bits",
        Parameter::Mode => "o: `TWF_ANDW` or `TWF_ORW`",
        Parameter::Number => "a: any number",
        Parameter::Delay => "k: ticks",
        Parameter::Limit => "m: ticks, 0 (`TMO_POL`), or -1 (`TMO_FEVR`) for ever",
        Parameter::Out => "&v: a variable for what the call gives",
    }
}

/// From where a call may be made.
fn permitted(permission: Permission) -> &'static str {
    match permission {
        Permission::Anywhere => "From tasks and handlers, also with the CPU locked.",
        Permission::LockedTasks => "From tasks, also with the CPU locked.",
        Permission::Tasks => "From tasks, with the CPU not locked.",
        Permission::TasksOnOthers => {
            "From tasks, with the CPU not locked; on the caller itself with dispatching enabled."
        }
        Permission::WaitingTasks => {
            "From tasks, with the CPU not locked and dispatching enabled: it may wait."
        }
        Permission::Handlers => "From handlers alone.",
    }
}

/// Says what stands for each argument of a call.
#[tactic(auto, using(crate::proofs::Adding::adding))]
fn say_parameters(service: Service, out: &mut Vec<u8>) -> Result<(), AllocError>
    ensures { OnOk result (Adds out.old.items out.new.items) }
{
    append(b"\n", out)?;
    for parameter in service.parameters() {
        append_all(&["\n- ", meaning(*parameter)], out)?;
    }
    Ok(())
}

/// Says when a call answers which codes, if any beside those of the general tests.
#[tactic(auto, using(crate::proofs::Adding::adding))]
fn say_codes(service: Service, out: &mut Vec<u8>) -> Result<(), AllocError>
    ensures { OnOk result (Adds out.old.items out.new.items) }
{
    let codes = codes_of(service);
    if codes.is_empty() {
        return Ok(());
    }
    append(b"\n\nCodes: ", out)?;
    append_all(codes, out)
}

/// Says what a call does and answers, after its name and arguments.
#[tactic(auto, using(crate::proofs::Adding::adding))]
fn say_deed(service: Service, out: &mut Vec<u8>) -> Result<(), AllocError>
    ensures { OnOk result (Adds out.old.items out.new.items) }
{
    append(b"`: ", out)?;
    append_all(deed_of(service), out)?;
    say_parameters(service, out)?;
    say_codes(service, out)?;
    append_all(&["\n\n", permitted(service.permission())], out)
}

/// Says what a call does and answers.
pub fn say_call(service: Service, out: &mut Vec<u8>) -> Result<(), AllocError>
    ensures { OnOk result (Adds (out.old.items ++ call_head service) out.new.items) }
{
    append(b"`", out)?;
    append_call(service, out)?;
    say_deed(service, out)
}

/// Says what number a constant stands for.
pub fn say_constant(constant: Constant, out: &mut Vec<u8>) -> Result<(), AllocError>
    ensures { OnOk result (out.new.items ≡ out.old.items ++ constant_head constant) }
{
    append_all(&["`", constant.name(), "` is "], out)?;
    append_signed(i64::from(constant.value()), out)
}

/// Says which values a field of a static API may have.
#[tactic(auto, using(crate::proofs::Adding::adding))]
fn say_values(api: Api, field: Field, out: &mut Vec<u8>) -> Result<(), AllocError>
    ensures { OnOk result (Adds out.old.items out.new.items) }
{
    if field == Field::Attribute {
        return append_all(&[": ", attributes_of(api)], out);
    }
    match field.range() {
        Some((least, greatest)) => {
            append(b": ", out)?;
            append_signed(i64::from(least), out)?;
            append(b" to ", out)?;
            append_signed(i64::from(greatest), out)
        }
        None => Ok(()),
    }
}

/// Says what a static API makes, and which fields it has, after its name.
#[tactic(auto, using(crate::proofs::Adding::adding))]
fn say_made(api: Api, out: &mut Vec<u8>) -> Result<(), AllocError>
    ensures { OnOk result (Adds out.old.items out.new.items) }
{
    append_all(&[object_of(api), "\n"], out)?;
    for field in fields_of(api) {
        append_all(&["\n- ", field.called()], out)?;
        say_values(api, *field, out)?;
    }
    Ok(())
}

/// Says what a static API makes, and which fields it has.
pub fn say_api(api: Api, out: &mut Vec<u8>) -> Result<(), AllocError>
    ensures { OnOk result (Adds (out.old.items ++ api_head api) out.new.items) }
{
    append_all(&["`", api.name(), "` makes "], out)?;
    say_made(api, out)
}

/// Says that a name is that of a class.
pub fn say_class(name: Name, out: &mut Vec<u8>) -> Result<(), AllocError> {
    append(b"class ", out)?;
    append_code(name.as_bytes(), out)?;
    append(b": tasks begin on the processor of its number", out)
}
