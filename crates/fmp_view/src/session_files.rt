//! The files of a session: steps that it takes, and steps that it writes.
ghost use Rattle.std.specs.Prelude.{IfOk, OnOk};
ghost use Rattle.fmp_session.specs.Sessions.{IsSession};
ghost use Rattle.fmp_session.specs.Taking.{HasTaken};
ghost use Rattle.fmp_view.specs.Stepped.{HasTakenText, IfTold, IsNoFile, IsRefused, IsTold, Leaves, Loads, Saves};

use crate::answering::{Answer, Stepping, append_told, take_one};
use crate::inputs::is_text;
use fmp_arguments::EVENTS_MAX;
use fmp_base::Event;
use fmp_engine::SimFault;
use fmp_files::{Failure, Outside, read_file, write_file};
use fmp_looking::events_of;
use fmp_session::Session;
use fmp_warnings::Form;
use std::alloc::{AllocError, Global};

/// Why a line fails that names a file so.
const NOT_UTF8: &str = "the name is not UTF-8";

/// Why a session does not write over a text.
const IS_READ: &str = "the file is one of the two that are read";

/// Why a session does not take steps.
const TOO_MANY: &str = "a session has at most 1048576 events";

/// The answer of a line that failed for this reason.
pub fn refused(alloc: Global, reason: &str) -> Result<Answer, AllocError>
    ensures { IfOk result IsRefused }
{
    Ok(Answer::Refused(String::from_str(alloc, reason)?))
}

/// The answer of a line whose file could not be read or written.
fn no_file(failure: Failure) -> Result<Answer, AllocError>
    ensures { IfOk result IsNoFile }
{
    match failure {
        Failure::Memory(error) => Err(error),
        failure => Ok(Answer::NoFile(failure)),
    }
}

/// Takes events, each of which may do nothing, and gives what is told of them.
#[tactic(auto, using(fmp_session::proofs::Taking::has_none, fmp_session::proofs::Taking::has_all))]
fn take_all(
    alloc: Global,
    session: &mut Session<'_>,
    stepping: Stepping<'_>,
    events: &[Event],
) -> Result<Vec<u8>, AllocError>
    requires { IsSession session.old }
    ensures session { IsSession session.new }
    ensures has { OnOk result (HasTaken session.old events.now session.new) }
{
    let mut out = Vec::new(alloc);
    for e in events {
        take_one(alloc, session, stepping, *e, &mut out)?;
    }
    Ok(out)
}

/// Takes the events of a steps text, if there is room for all of them.
#[tactic(auto, using(crate::proofs::SessionLemmas::leaves_all, crate::proofs::SessionLemmas::refused_told))]
fn take_events(
    alloc: Global,
    session: &mut Session<'_>,
    stepping: Stepping<'_>,
    events: &[Event],
) -> Result<Answer, AllocError>
    requires { IsSession session.old }
    ensures session { IsSession session.new }
    ensures leaves { IfOk result (Leaves session.old session.new) }
    ensures has { IfOk result (IfTold (HasTaken session.old events.now session.new)) }
{
    if events.len() > (EVENTS_MAX as usize).saturating_sub(session.events().len()) {
        return refused(alloc, TOO_MANY);
    }
    Ok(Answer::Told(take_all(alloc, session, stepping, events)?))
}

/// Takes the events of the steps text of a file of this name, if it has no fault.
fn take_text(
    alloc: Global,
    session: &mut Session<'_>,
    stepping: Stepping<'_>,
    name: &str,
    text: &[u8],
) -> Result<Answer, AllocError>
    requires { IsSession session.old }
    ensures session { IsSession session.new }
    ensures leaves { IfOk result (Leaves session.old session.new) }
    ensures has { IfOk result (IfTold (HasTakenText session.old text.now session.new)) }
{
    match events_of(alloc, text, session.image().system().processors) {
        Ok(events) => take_events(alloc, session, stepping, &events),
        Err(SimFault::Memory) => Err(AllocError),
        Err(fault) => Ok(Answer::Refused(format!(in alloc; "{name}: {fault}")?)),
    }
}

/// Takes the events of the steps text of a file.
#[tactic(auto, using(crate::proofs::SessionLemmas::leaves_all, crate::proofs::SessionLemmas::no_file_told))]
pub fn load<O: Outside>(
    alloc: Global,
    outside: &O,
    session: &mut Session<'_>,
    stepping: Stepping<'_>,
    name: &[u8],
) -> Result<Answer, AllocError>
    requires { IsSession session.old }
    ensures session { IsSession session.new }
    ensures leaves { IfOk result (Leaves session.old session.new) }
    ensures loads { IfOk result (IfTold (Loads (O.files outside.now) name.now session.old session.new)) }
{
    let Ok(name) = str::from_utf8(name) else {
        return refused(alloc, NOT_UTF8);
    };
    match read_file(alloc, outside, name, None) {
        Ok(text) => take_text(alloc, session, stepping, name, &text),
        Err(failure) => no_file(failure),
    }
}

/// What is told of a file of this name that was written.
fn saved(alloc: Global, form: Form, name: &str) -> Result<Answer, AllocError>
    ensures { IfOk result IsTold }
{
    let line = format!(in alloc; "saved: {name}\n")?;
    let mut out = Vec::new(alloc);
    append_told(alloc, form, line.as_bytes(), &mut out)?;
    Ok(Answer::Told(out))
}

/// Writes the events of a session to the file of this name, which is none of those that are read.
#[tactic(auto, using(crate::proofs::SessionLemmas::refused_saves))]
fn save_as<O: Outside>(
    alloc: Global,
    outside: &mut O,
    session: &Session<'_>,
    stepping: Stepping<'_>,
    name: &str,
) -> Result<Answer, AllocError>
    ensures { IfOk result (Saves (O.files outside.old) stepping.entry.names name.now session.now.events.items
        (O.done outside.old) (O.done outside.new)) }
{
    if is_text(outside, name, stepping.names) {
        return refused(alloc, IS_READ);
    }
    let text = session.steps(alloc)?;
    match write_file(alloc, outside, name, &text) {
        Ok(()) => saved(alloc, stepping.form, name),
        Err(failure) => no_file(failure),
    }
}

/// Writes the events of a session to a file.
#[tactic(auto, using(crate::proofs::SessionLemmas::refused_saves))]
pub fn save<O: Outside>(
    alloc: Global,
    outside: &mut O,
    session: &Session<'_>,
    stepping: Stepping<'_>,
    name: &[u8],
) -> Result<Answer, AllocError>
    ensures { IfOk result (Saves (O.files outside.old) stepping.entry.names name.now session.now.events.items
        (O.done outside.old) (O.done outside.new)) }
{
    match str::from_utf8(name) {
        Ok(name) => save_as(alloc, outside, session, stepping, name),
        Err(_) => refused(alloc, NOT_UTF8),
    }
}
