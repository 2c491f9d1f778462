//! What the commands of a session answer.
ghost use Rattle.std.specs.Prelude.{◌≡◌, ◌++◌, ◌∷◌, IfOk, OnOk, [], replicate};
ghost use Rattle.fmp_session.specs.Sessions.{IsSession, IsTakenAs, with_event};
ghost use Rattle.fmp_session.specs.Taking.{HasTaken};
ghost use Rattle.fmp_view.specs.Stepped.{Answers, Leads, Leaves, Takes, events_back, is_deed, last_lines};
ghost use Rattle.fmp_view.specs.Stepped.{states_text_of};

use crate::session_files::{load, save};
use crate::session_objects::state_of;
use crate::session_until::until;
use fmp_base::Event;
use fmp_files::{Failure, Outside};
use fmp_frames::{CallPosition, CallPositions, last_frame};
use fmp_looking::{OpenImage, states_in, why_of};
use fmp_session::{
    Command, NamedInterrupt, Session, TakenEvent, append_kept, append_nothing, note,
};
use fmp_trace::print_steps;
use fmp_warnings::{FileNames, Form};
use std::alloc::{AllocError, Global};

/// The commands, as `help` prints them.
const COMMANDS: &str =
    "run P [xK]   processor P goes on, to its next service call; K times, or until it does nothing
tick [K]     the clock advances, K times
int N [xK]   interrupt N is raised; N may be the body of its handler
until DEED   all goes on until put(7), E_TMOUT or F_OVF happens, for at most 1000 events;
             'by TASK' may stand after it, and last 'within K' for K events
back [K]     the last event is taken back, or the last K
why          what each task waits or spins for
state [X]    the states of the tasks, or that of the task or object X
load FILE    the events of a steps text
save FILE    the events that did something, as steps for 'fmp sim' with the same bound
help         these lines
quit         the end, as the end of the input is
";

/// What is said where a session has as many events as it may have.
const FULL: &[u8] = b"nothing: a session has at most 1048576 events\n";

/// What is said where there is nothing to take back.
const NONE_LEFT: &[u8] = b"nothing: there is no event to take back\n";

/// How the lines of a session are carried out and answered.
#[derive(Clone, Copy)]
pub struct Stepping<'a> {
    /// The names of the two files of the system.
    pub names: FileNames<'a>,
    /// Whether answers are for readers, or objects of JSON.
    pub form: Form,
    /// The interrupts that have handlers.
    pub interrupts: &'a [NamedInterrupt],
    /// Where the calls of the bodies stand in their text.
    pub positions: &'a CallPositions,
    /// Whether standard input is a terminal.
    pub terminal: bool,
}

/// A command of a line.
#[derive(Clone, Copy)]
pub struct GivenCommand<'a> {
    pub command: Command,
    /// What stands after its word.
    pub argument: &'a [u8],
}

/// An event that a session took.
#[derive(Clone, Copy)]
pub struct ToldEvent {
    event: Event,
    /// What it came to.
    pub taken: TakenEvent,
    /// Where its call stands, if it makes one and answers tell it.
    position: Option<CallPosition>,
}

/// What a line answers.
#[derive(Drop)]
pub enum Answer {
    /// What is told: text, or records, each an object of JSON in a line.
    Told(Vec<u8>),
    /// Why the line failed; it changed nothing.
    Refused(String),
    /// A file could not be read or written; the events are as before.
    NoFile(Failure),
}

/// The kind of a line, and what it says: of `nothing: ..` what stands before the colon, and what stands after it.
fn parts_of(line: &[u8]) -> (&str, &[u8]) {
    let parts = match str::from_utf8(line) {
        Ok(text) => text.split_once(':'),
        Err(_) => None,
    };
    match parts {
        Some((what, rest)) => (what, rest.as_bytes().trim_ascii()),
        None => ("line", line),
    }
}

/// Appends a line, or the record of it.
pub fn append_told(
    alloc: Global,
    form: Form,
    line: &[u8],
    out: &mut Vec<u8>,
) -> Result<(), AllocError> {
    match form {
        Form::Text => out.extend_from_slice(line),
        Form::Json => {
            let (what, text) = parts_of(line);
            let record = note(alloc, what, text)?;
            out.extend_from_slice(&record)
        }
    }
}

/// A text of several lines, or one record of it.
fn noted(alloc: Global, form: Form, what: &str, text: Vec<u8>) -> Result<Vec<u8>, AllocError> {
    match form {
        Form::Text => Ok(text),
        Form::Json => note(alloc, what, &text),
    }
}

/// A line that is all that is told.
fn line_told(alloc: Global, form: Form, line: &[u8]) -> Result<Vec<u8>, AllocError> {
    let mut out = Vec::new(alloc);
    append_told(alloc, form, line, &mut out)?;
    Ok(out)
}

/// Appends the lines of setup, or of the last event that was done; objects of JSON have where its call stands, if that
/// is known.
pub fn append_last(
    alloc: Global,
    session: &Session<'_>,
    form: Form,
    position: Option<CallPosition>,
    out: &mut Vec<u8>,
) -> Result<(), AllocError>
    requires { IsSession session.now }
    ensures { OnOk result (out.new.items ≡ out.old.items ++ last_lines form position session.now.kernel) }
{
    match form {
        Form::Text => session.append_last(out),
        Form::Json => session.append_last_records(alloc, position, out),
    }
}

/// The line of an event that left none.
fn line_of(alloc: Global, session: &Session<'_>, told: ToldEvent) -> Result<Vec<u8>, AllocError>
    requires { IsSession session.now }
{
    let e = told.event;
    let mut line = Vec::new(alloc);
    match told.taken {
        TakenEvent::Done | TakenEvent::Full => line.extend_from_slice(FULL)?,
        TakenEvent::Kept => append_kept(e, &mut line)?,
        TakenEvent::Nothing => {
            append_nothing(session.image().system(), e, &session.next_runs(), &mut line)?;
        }
    }
    Ok(line)
}

/// Appends what is told of an event.
pub fn append_taken(
    alloc: Global,
    session: &Session<'_>,
    form: Form,
    told: ToldEvent,
    out: &mut Vec<u8>,
) -> Result<(), AllocError>
    requires { IsSession session.now }
{
    if let TakenEvent::Done = told.taken {
        return append_last(alloc, session, form, told.position, out);
    }
    let line = line_of(alloc, session, told)?;
    append_told(alloc, form, &line, out)
}

/// Where the call stands that an event would make, if it makes one and answers tell it: objects of JSON do.
fn told_position(session: &Session<'_>, stepping: Stepping<'_>, e: Event) -> Option<CallPosition>
    requires { IsSession session.now }
{
    match stepping.form {
        Form::Text => None,
        Form::Json => session.position(stepping.positions, e),
    }
}

/// Takes an event. `AllocError` if memory runs out.
pub fn take_event(
    session: &mut Session<'_>,
    stepping: Stepping<'_>,
    e: Event,
) -> Result<ToldEvent, AllocError>
    requires { IsSession session.old }
    ensures session { IsSession session.new }
    ensures events { IfOk result (λ told. session.new.events.items
        ≡ with_event told.taken e session.old.events.items) }
    ensures exact { IfOk result (λ told. IsTakenAs session.old e told.taken) }
    ensures takes { OnOk result (HasTaken session.old (e ∷ []) session.new) }
{
    let position = told_position(session, stepping, e);
    let taken = session.take(e)?;
    Ok(ToldEvent {
        event: e,
        taken,
        position,
    })
}

/// Whether an event that a session took did something.
fn is_deed(taken: TakenEvent) -> bool
    ensures { result ≡ is_deed taken }
{
    matches!(taken, TakenEvent::Done | TakenEvent::Kept)
}

/// Takes an event, and appends what is told of it. The answer is whether it did something.
pub fn take_one(
    alloc: Global,
    session: &mut Session<'_>,
    stepping: Stepping<'_>,
    e: Event,
    out: &mut Vec<u8>,
) -> Result<bool, AllocError>
    requires { IsSession session.old }
    ensures session { IsSession session.new }
    ensures takes { IfOk result (λ did. Takes session.old e did session.new) }
    ensures has { OnOk result (HasTaken session.old (e ∷ []) session.new) }
{
    let told = take_event(session, stepping, e)?;
    append_taken(alloc, session, stepping.form, told, out)?;
    Ok(is_deed(told.taken))
}

/// Takes an event this many times, up to the first time that it does nothing, and gives what is told of it.
#[tactic(auto, using(fmp_session::proofs::Taking::has_none, fmp_session::proofs::Taking::has_again))]
fn taken_text(
    alloc: Global,
    session: &mut Session<'_>,
    stepping: Stepping<'_>,
    e: Event,
    times: u32,
) -> Result<Vec<u8>, AllocError>
    requires { IsSession session.old }
    ensures session { IsSession session.new }
    ensures has { OnOk result (HasTaken session.old (replicate times e) session.new) }
{
    let mut out = Vec::new(alloc);
    for _turn in 0..times {
        if !take_one(alloc, session, stepping, e, &mut out)? {
            return Ok(out);
        }
    }
    Ok(out)
}

/// Appends that an event is taken back.
fn append_back(alloc: Global, form: Form, e: Event, out: &mut Vec<u8>) -> Result<(), AllocError> {
    let mut line = Vec::from_slice(alloc, b"taken back: ")?;
    print_steps(&[e], &mut line)?;
    append_told(alloc, form, &line, out)
}

/// What is told of events that are taken back, the last one first.
fn back_lines(alloc: Global, form: Form, events: &[Event]) -> Result<Vec<u8>, AllocError> {
    let mut out = Vec::new(alloc);
    for e in events.iter().rev() {
        append_back(alloc, form, *e, &mut out)?;
    }
    Ok(out)
}

/// Takes the last events back, and gives what is told of them.
fn back_text(
    alloc: Global,
    session: &mut Session<'_>,
    form: Form,
    count: u32,
) -> Result<Vec<u8>, AllocError>
    requires { IsSession session.old }
    ensures session { IsSession session.new }
    ensures events { OnOk result (session.new.events.items ≡ events_back count session.old.events.items) }
{
    let events = session.events();
    let left = events.len().saturating_sub(count as usize);
    if left == events.len() {
        return line_told(alloc, form, NONE_LEFT);
    }
    let out = back_lines(alloc, form, &events[left..])?;
    session.back(alloc, count as usize)?;
    Ok(out)
}

/// The states of the tasks.
pub fn states_text(alloc: Global, session: &Session<'_>, form: Form) -> Result<Vec<u8>, AllocError>
    requires { IsSession session.now }
    ensures { IfOk result (λ out. out.items ≡ states_text_of form session.now.kernel) }
{
    let image = session.image();
    let frame = last_frame(alloc, session.kernel())?;
    let text = states_in(alloc, form, image.system(), &frame.states, &frame.blocks);
    drop(frame);
    text
}

/// What each task waits or spins for.
fn why_text(alloc: Global, session: &Session<'_>, form: Form) -> Result<Vec<u8>, AllocError>
    requires { IsSession session.now }
{
    let opened = OpenImage::new(session.image(), session.bound());
    let text = why_of(alloc, &opened, session.events())?;
    noted(alloc, form, "why", text)
}

/// The commands.
fn help_text(alloc: Global, form: Form) -> Result<Vec<u8>, AllocError> {
    let text = Vec::from_slice(alloc, COMMANDS.as_bytes())?;
    noted(alloc, form, "help", text)
}

/// Carries out a command that reaches nothing outside and names nothing, and gives what is told of it.
fn told(
    alloc: Global,
    session: &mut Session<'_>,
    stepping: Stepping<'_>,
    command: Command,
) -> Result<Vec<u8>, AllocError>
    requires { IsSession session.old }
    ensures session { IsSession session.new }
    ensures leads { OnOk result (Leads session.old command session.new) }
{
    let form = stepping.form;
    match command {
        Command::Take(e, times) => taken_text(alloc, session, stepping, e, times),
        Command::Back(count) => back_text(alloc, session, form, count),
        Command::Why => why_text(alloc, session, form),
        Command::State => states_text(alloc, session, form),
        Command::Help => help_text(alloc, form),
        Command::StateOf
        | Command::Load
        | Command::Save
        | Command::Until
        | Command::Quit
        | Command::Skip => Ok(Vec::new(alloc)),
    }
}

/// Carries out a command of a line, and gives its answer.
#[tactic(auto, using(crate::proofs::SessionLemmas::leaves_all))]
pub fn answer_of<O: Outside>(
    alloc: Global,
    outside: &mut O,
    session: &mut Session<'_>,
    stepping: Stepping<'_>,
    given: GivenCommand<'_>,
) -> Result<Answer, AllocError>
    requires { IsSession session.old }
    ensures session { IsSession session.new }
    ensures leaves { IfOk result (Leaves session.old session.new) }
    ensures answers { IfOk result (Answers (O.files outside.old) session.old given.entry session.new) }
{
    match given.command {
        Command::StateOf => state_of(alloc, session, stepping.form, given.argument),
        Command::Load => load(alloc, outside, session, stepping, given.argument),
        Command::Save => save(alloc, outside, session, stepping, given.argument),
        Command::Until => until(alloc, session, stepping, given.argument),
        command => Ok(Answer::Told(told(alloc, session, stepping, command)?)),
    }
}
