//! Why nothing goes on after an event of a run.
ghost use Rattle.std.specs.Prelude.{ℕ, ◌≡◌, ◌≤◌, ◌^◌, IfOk, List, length};
ghost use Rattle.fmp_frames.specs.Watches.{LeadUp, after_first};
ghost use Rattle.fmp_frames.specs.Watches.{IsWhy};
ghost use Rattle.fmp_looking.specs.Looks.{IsUpTo};
ghost use Rattle.fmp_looking.specs.Whys.{IsToldIn};

use crate::exit::{ViewExit, exit_of, memory};
use crate::looking::RunLook;
use crate::opened::Opened;
use crate::timeline::TimelineFault;
use fmp_frames::count_up_to;
use fmp_json::{begin, finish, text_member};
use fmp_kernel::Coming;
use fmp_warnings::Form;
use std::alloc::{AllocError, Global};

/// Why nothing goes on after what came to a system: what each task waits or spins for, and how they stand. `AllocError`
/// if memory runs out.
#[tactic(none)]
pub fn why_of<O: Opened, T: Coming<O::Bodies>>(
    alloc: Global,
    opened: &O,
    events: &[T],
) -> Result<Vec<u8>, AllocError>
    requires { length events.now ≤ 2 ^ 31 }
    ensures { IfOk result (λ out. IsWhy (O.start opened.now).system O.Bodies.meaning T.reaction (O.start opened.now)
        events.now out.items) }
{
    let mut kernel = opened.kernel(alloc)?;
    let text = fmp_frames::why(alloc, opened.system(), &mut kernel, events);
    drop(kernel);
    text
}

/// How much of what comes to a system leads up to the event of a number, and how many events are done then.
#[tactic(none)]
fn counted<O: Opened, T: Coming<O::Bodies>>(
    alloc: Global,
    opened: &O,
    events: &[T],
    number: u32,
) -> Result<(usize, u32), AllocError>
    requires { length events.now ≤ 2 ^ 31 }
    ensures few { IfOk result (λ counts. counts.0 ≤ length events.now) }
    ensures count { IfOk result (λ counts. LeadUp T.reaction (O.start opened.now) events.now number counts.0) }
    ensures done { IfOk result (λ counts.
        counts.1 ≡ (after_first T.reaction (O.start opened.now) events.now counts.0).done) }
{
    let mut kernel = opened.kernel(alloc)?;
    let count = count_up_to(&mut kernel, events, number);
    let done = kernel.done();
    drop(kernel);
    Ok((count, done))
}

/// How much of what comes to a system leads up to the event of a number, or all of it.
fn position_of<O: Opened, T: Coming<O::Bodies>>(
    alloc: Global,
    opened: &O,
    events: &[T],
    at: Option<u32>,
) -> Result<usize, ViewExit>
    requires { length events.now ≤ 2 ^ 31 }
    ensures few { IfOk result (λ position. position ≤ length events.now) }
    ensures up_to { IfOk result (IsUpTo T.reaction (O.start opened.now) events.now at) }
{
    let Some(number) = at else {
        return Ok(events.len());
    };
    match counted(alloc, opened, events, number) {
        Ok((_, done)) if done < number => Err(exit_of(TimelineFault::NoEvent(done))),
        Ok((position, _)) => Ok(position),
        Err(error) => Err(memory(error)),
    }
}

/// A line of what is said, as an object of JSON.
fn line_record(alloc: Global, line: &[u8]) -> Result<Vec<u8>, AllocError> {
    let line = String::from_utf8_lossy(alloc, line)?;
    let mut writer = begin(alloc)?;
    text_member(&mut writer, "what", "why")?;
    text_member(&mut writer, "text", &line)?;
    finish(writer)
}

/// The lines of what is said, each as an object of JSON.
fn records_of(alloc: Global, text: &[u8]) -> Result<Vec<u8>, AllocError> {
    let mut out = Vec::new(alloc);
    for line in text.split(|byte| *byte == b'\n') {
        if !line.is_empty() {
            let record = line_record(alloc, line)?;
            out.extend_from_slice(&record)?;
        }
    }
    Ok(out)
}

/// What is said, in a form.
fn in_form(alloc: Global, form: Form, text: Vec<u8>) -> Result<Vec<u8>, AllocError>
    ensures { IfOk result (λ out. IsToldIn form text.items out.items) }
{
    match form {
        Form::Text => Ok(text),
        Form::Json => records_of(alloc, &text),
    }
}

/// Why nothing goes on after what came to a system, in a form.
fn why_in<O: Opened, T: Coming<O::Bodies>>(
    alloc: Global,
    form: Form,
    opened: &O,
    events: &[T],
) -> Result<Vec<u8>, AllocError>
    requires { length events.now ≤ 2 ^ 31 }
    ensures { IfOk result (λ out. (text : List ℕ) × IsWhy (O.start opened.now).system O.Bodies.meaning T.reaction
        (O.start opened.now) events.now text × IsToldIn form text out.items) }
{
    let text = why_of(alloc, opened, events)?;
    in_form(alloc, form, text)
}

/// What each task waits or spins for after the event of this number, or after the last one, in a form.
#[derive(Clone, Copy)]
pub struct Why {
    pub at: Option<u32>,
    pub form: Form,
}

impl RunLook for Why {
    ghost use Rattle.fmp_looking.specs.Whys.{IsWhyAt};

    type Made = Vec<u8>;

    ghost makes = { λ why meaning reaction k xs times out. IsWhyAt why meaning reaction k xs out.items };

    fn of<O: Opened, T: Coming<O::Bodies>>(
        &self,
        alloc: Global,
        opened: &O,
        events: &[T],
        _times: &[Option<u64>],
    ) -> Result<Vec<u8>, ViewExit> {
        let position = position_of(alloc, opened, events, self.at)?;
        match why_in(alloc, self.form, opened, &events[..position]) {
            Ok(out) => Ok(out),
            Err(error) => Err(memory(error)),
        }
    }
}
