//! What the calls of a run were answered.
ghost use Rattle.std.specs.Prelude.{◌≡◌, ◌+◌, ◌≤◌, ◌^◌, ◌++◌, IfOk, None, OnOk, get_or, length, replicate};
ghost use Rattle.std.specs.List.{flat_map};
ghost use Rattle.fmp_frames.specs.Answers as spec;

use crate::made::event_site;
use crate::sites::{CallSite, is_same_site};
use fmp_base::{Caller, Effect, Er, Event, Line, Reply};
use fmp_instructions::MachineContext;
use fmp_kernel::{Body, Coming, Kernel};
use std::alloc::{AllocError, Global};

/// A call was answered this code.
#[derive(Clone, Copy)]
pub struct SiteAnswer {
    pub site: CallSite,
    pub code: Er,
}

/// What the calls of a run were answered so far.
#[derive(Drop)]
struct RunAnswers {
    /// Each call with each code that it was answered, once.
    answers: Vec<SiteAnswer>,
    /// By the number of a task, the call at which it began to wait last, where that is known.
    waiting: Vec<Option<CallSite>>,
}

/// The codes that calls and the ends of waits answer.
const ANSWERS: [Er; 9] = [
    Er::Ok,
    Er::Par,
    Er::Id,
    Er::Ctx,
    Er::Iluse,
    Er::Obj,
    Er::Qovr,
    Er::Rlwai,
    Er::Tmout,
];

/// Whether two codes are one.
fn is_same_code(a: Er, b: Er) -> bool
    ensures { result ≡ spec.is_same_code a b }
{
    a == b
}

/// Whether this says that a call was answered a code.
fn is_answer(site: CallSite, code: Er, answer: SiteAnswer) -> bool
    ensures { result ≡ spec.is_answer site code answer }
{
    is_same_site(answer.site, site) && is_same_code(answer.code, code)
}

/// Whether a call was answered a code.
fn was_answered(answers: &[SiteAnswer], site: CallSite, code: Er) -> bool
    ensures { result ≡ spec.was_answered answers.now site code }
{
    answers.iter().any(|answer| is_answer(site, code, *answer))
}

/// Adds a code, if a call was answered it.
fn add_code(
    answers: &[SiteAnswer],
    site: CallSite,
    code: Er,
    codes: &mut Vec<Er>,
) -> Result<(), AllocError>
    ensures { OnOk result (codes.new.items ≡ codes.old.items ++ spec.code_at answers.now site code) }
{
    if was_answered(answers, site, code) {
        codes.push(code)?;
    }
    Ok(())
}

/// Those of some codes that a call was answered.
fn codes_among(
    alloc: Global,
    answers: &[SiteAnswer],
    site: CallSite,
    all: &[Er],
) -> Result<Vec<Er>, AllocError>
    ensures { IfOk result (λ codes. codes.items ≡ flat_map (λ c. spec.code_at answers.now site c) all.now) }
{
    let mut codes = Vec::new(alloc);
    for code in all {
        add_code(answers, site, *code, &mut codes)?;
    }
    Ok(codes)
}

/// The codes that a call was answered, each once. `AllocError` if memory runs out.
pub fn codes_at(
    alloc: Global,
    answers: &[SiteAnswer],
    site: CallSite,
) -> Result<Vec<Er>, AllocError>
    ensures { IfOk result (λ codes. codes.items ≡ spec.codes_at answers.now site) }
{
    codes_among(alloc, answers, site, &ANSWERS)
}

/// The call at which a task began to wait last, if it is known.
fn waiting_at(waiting: &[Option<CallSite>], task: u8) -> Option<CallSite>
    ensures { result ≡ get_or waiting.now task None }
{
    match waiting.get(usize::from(task)) {
        Some(site) => *site,
        None => None,
    }
}

/// This many tasks of which none waits.
fn no_waits(alloc: Global, tasks: usize) -> Result<Vec<Option<CallSite>>, AllocError>
    ensures { IfOk result (λ waiting. waiting.items ≡ replicate tasks None) }
{
    let mut waiting = Vec::new(alloc);
    for task in 0..tasks {
        let _ = task;
        waiting.push(None)?;
    }
    Ok(waiting)
}

impl RunAnswers {
    /// No call is made yet, in a system of this many tasks. `AllocError` if memory runs out.
    fn new(alloc: Global, tasks: usize) -> Result<RunAnswers, AllocError>
        ensures { IfOk result (λ made. spec.heard_of made ≡ spec.unheard tasks) }
    {
        Ok(RunAnswers {
            answers: Vec::new(alloc),
            waiting: no_waits(alloc, tasks)?,
        })
    }

    /// A call was answered a code, if it is known which call.
    fn note_answer(&mut self, site: Option<CallSite>, code: Er) -> Result<(), AllocError>
        ensures { OnOk result (spec.heard_of self.new ≡ spec.answered (spec.heard_of self.old) site code) }
    {
        let Some(site) = site else {
            return Ok(());
        };
        if was_answered(&self.answers, site, code) {
            return Ok(());
        }
        self.answers.push(SiteAnswer { site, code })?;
        Ok(())
    }

    /// A task began to wait at a call.
    fn note_wait(&mut self, task: u8, site: Option<CallSite>)
        ensures { spec.heard_of self.new ≡ spec.waits (spec.heard_of self.old) task site }
    {
        let task = usize::from(task);
        if task < self.waiting.len() {
            self.waiting[task] = site;
        }
    }

    /// A call of a caller got this reply, or its caller waits.
    fn note_call(
        &mut self,
        site: Option<CallSite>,
        caller: Caller,
        reply: Option<Reply>,
    ) -> Result<(), AllocError>
        ensures { OnOk result (spec.heard_of self.new ≡ spec.called (spec.heard_of self.old) site caller reply) }
    {
        match (reply, caller) {
            (Some(reply), _) => self.note_answer(site, reply.code),
            (None, Caller::Task(task)) => {
                self.note_wait(task, site);
                Ok(())
            }
            (None, Caller::Handler(_)) => Ok(()),
        }
    }

    /// One line more, of an event that makes this call, if it makes one.
    fn note_line(&mut self, site: Option<CallSite>, line: Line) -> Result<(), AllocError>
        ensures { OnOk result (spec.heard_of self.new ≡ spec.heard_line (spec.heard_of self.old) site line) }
    {
        match line {
            Line::Call { caller, reply, .. } => self.note_call(site, caller, reply),
            Line::Gets { task, reply, .. } => {
                let site = waiting_at(&self.waiting, task);
                self.note_answer(site, reply.code)
            }
            _ => Ok(()),
        }
    }

    /// The lines of an event that makes this call, if it makes one. After an error what they tell is not whole.
    fn note(&mut self, site: Option<CallSite>, lines: &[Line]) -> Result<(), AllocError>
        ensures { OnOk result (spec.heard_of self.new ≡ spec.heard_lines (spec.heard_of self.old) site lines.now) }
    {
        for line in lines {
            self.note_line(site, *line)?;
        }
        Ok(())
    }
}

/// What the calls of a run were answered, of a system of this many tasks: each call with each code that it was
/// answered, once. `AllocError` if memory runs out.
pub fn answers_in<B: Body<Ctx = MachineContext>>(
    alloc: Global,
    kernel: &mut Kernel<B>,
    events: &[Event],
    tasks: usize,
) -> Result<Vec<SiteAnswer>, AllocError>
    requires few { kernel.old.taken + length events.now ≤ 2 ^ 31 }
    ensures { IfOk result (λ answers. answers.items ≡ spec.answers_in B.meaning kernel.old events.now tasks) }
{
    let mut heard = RunAnswers::new(alloc, tasks)?;
    for e in events {
        let site = event_site(kernel, *e);
        match e.take(kernel) {
            Effect::Done => heard.note(site, kernel.lines())?,
            Effect::Kept => {}
            Effect::Nothing => {}
        }
    }
    let RunAnswers { answers, .. } = heard;
    Ok(answers)
}
