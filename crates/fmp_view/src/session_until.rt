//! A session that goes on until a deed happens.
ghost use Rattle.std.specs.Prelude.{◌∷◌, [], IfOk, OnOk};
ghost use Rattle.fmp_session.specs.Sessions.{IsSession};
ghost use Rattle.fmp_session.specs.Taking.{HasTaken};
ghost use Rattle.fmp_view.specs.Stepped.{GoesOn, IfTold, Leaves};

use crate::answering::{Answer, Stepping, append_taken, append_told, take_event};
use crate::session_files::refused;
use fmp_arguments::{EVENTS_MAX, flaw_words};
use fmp_base::Event;
use fmp_expect::{Checker, ExpectFault, ExpectationFlaw, Expected, Expects, read_expectations};
use fmp_kernel::{Body, Kernel};
use fmp_monitors::Sentence;
use fmp_session::{Session, TakenEvent};
use std::alloc::{AllocError, Global};

/// What is said where nothing goes on.
const QUIET: &str = "quiet: no processor goes on, and the clock changes nothing\n";

/// What is said where nothing goes on before an interrupt comes.
const QUIET_UNTIL_INTERRUPT: &str =
    "quiet: no processor goes on, and the clock changes nothing; an interrupt may still come\n";

/// Why a line fails that names no deed.
const WANTED: &str =
    "`until` wants a deed: a code as E_QOVR, a value as put(7), or a fault as F_IDX";

/// How many events `until` takes at most where its line does not say it.
const EVENTS: u32 = 1000;

/// Why a line fails that does not say after `within` how many events may come.
const WITHIN: &str = "`within` wants how many events, 1 to 1048576";

/// A deed that a session goes on for, and how many events may come at most.
#[derive(Clone, Copy)]
struct Awaited<'a> {
    deed: &'a [u8],
    most: u32,
}

/// Why a session goes on no more.
#[derive(Clone, Copy)]
enum Stop {
    /// The deed has happened, or the session takes no more events.
    Done,
    /// Nothing goes on.
    Quiet,
    /// As many events have come as may.
    Most,
}

/// How many events a text says, from 1 to 2^20.
fn most_in(text: &str) -> Option<u32> {
    let most = text.parse::<u32>().ok()?;
    if most == 0 || most > EVENTS_MAX {
        return None;
    }
    Some(most)
}

/// What stands before the last word `within` of a text, and what stands after it: nothing where that ends the text.
fn parts_at_within(text: &[u8]) -> Option<(&str, &str)> {
    let text = str::from_utf8(text).ok()?;
    match text.strip_suffix(" within") {
        Some(deed) => Some((deed, "")),
        None => text.rsplit_once(" within "),
    }
}

/// What a session goes on for, as a line says after `until`; none if no number of events stands after `within`.
fn awaited_in(text: &[u8]) -> Option<Awaited<'_>> {
    let Some((deed, most)) = parts_at_within(text) else {
        return Some(Awaited {
            deed: text,
            most: EVENTS,
        });
    };
    Some(Awaited {
        deed: deed.as_bytes(),
        most: most_in(most)?,
    })
}

/// The expectation that a deed never happens, as a text.
fn never_text(alloc: Global, deed: &[u8]) -> Result<Vec<u8>, AllocError> {
    let mut text = Vec::from_slice(alloc, b"never ")?;
    text.extend_from_slice(deed)?;
    Ok(text)
}

/// Whether a task of a kernel waits with a time limit.
fn has_limit<B: Body>(kernel: &Kernel<B>) -> bool {
    let tables = kernel.tables();
    for task in 0..tables.task_count() as u8 {
        if tables.task(task).deadline.is_some() {
            return true;
        }
    }
    false
}

/// Whether the clock can change something: a task waits with a time limit, or a cyclic handler is started.
fn is_due(session: &Session<'_>) -> bool {
    let kernel = session.kernel();
    kernel.tables().has_started_cyclic() || has_limit(kernel)
}

/// Takes an event, and appends what is told of it unless it does nothing.
fn take_quietly(
    alloc: Global,
    session: &mut Session<'_>,
    stepping: Stepping<'_>,
    e: Event,
    out: &mut Vec<u8>,
) -> Result<TakenEvent, AllocError>
    requires { IsSession session.old }
    ensures session { IsSession session.new }
    ensures takes { OnOk result (HasTaken session.old (e ∷ []) session.new) }
{
    let told = take_event(session, stepping, e)?;
    if !matches!(told.taken, TakenEvent::Nothing) {
        append_taken(alloc, session, stepping.form, told, out)?;
    }
    Ok(told.taken)
}

/// Takes the next event that does something, and appends what is told of it: a run of a processor, in turn from the one
/// at this place on; else a tick, if it can change something.
#[tactic(auto, using(crate::proofs::SessionLemmas::goes_none, crate::proofs::SessionLemmas::goes_more))]
fn take_next(
    alloc: Global,
    session: &mut Session<'_>,
    stepping: Stepping<'_>,
    turn: u8,
    out: &mut Vec<u8>,
) -> Result<Option<(Event, TakenEvent)>, AllocError>
    requires { IsSession session.old }
    ensures session { IsSession session.new }
    ensures goes { OnOk result (GoesOn session.old session.new) }
{
    let processors = session.image().system().processors.max(1);
    for place in 0..processors {
        let e = Event::Run(turn.saturating_add(place) % processors + 1);
        match take_quietly(alloc, session, stepping, e, out)? {
            TakenEvent::Nothing => {}
            taken => return Ok(Some((e, taken))),
        }
    }
    if !is_due(session) {
        return Ok(None);
    }
    let taken = take_quietly(alloc, session, stepping, Event::Tick, out)?;
    Ok(Some((Event::Tick, taken)))
}

/// Whether the deed of a checker has happened, after an event that came to this.
fn has_happened(session: &Session<'_>, taken: TakenEvent, checker: &mut Checker) -> bool {
    if let TakenEvent::Done = taken {
        let kernel = session.kernel();
        checker.tell(kernel.done(), kernel.lines());
    }
    checker.verdict(&[], 0).is_some()
}

/// The place of the processor whose turn is next after an event, where it was this one's.
fn turn_after(turn: u8, e: Event) -> u8 {
    match e {
        Event::Run(number) => number,
        Event::Tick | Event::Int(_) => turn,
    }
}

/// Whether a session takes no more events.
fn is_full(taken: TakenEvent) -> bool {
    matches!(taken, TakenEvent::Full)
}

/// What is said where a deed has not happened after as many events as may come.
fn unhappened_text(alloc: Global, awaited: Awaited<'_>) -> Result<String, AllocError> {
    let most = awaited.most;
    let events = if most == 1 { "event" } else { "events" };
    let deed = String::from_utf8_lossy(alloc, awaited.deed)?;
    format!(in alloc;
        "stopped: {deed} has not happened in {most} {events}; `until {deed} within N` allows N events\n"
    )
}

/// What is said where nothing goes on in a session.
fn quiet_text(session: &Session<'_>) -> &'static str {
    if session.image().system().interrupts.is_empty() {
        QUIET
    } else {
        QUIET_UNTIL_INTERRUPT
    }
}

/// Goes on until the deed of a checker happens, nothing goes on, the session is full or this many events have come, and
/// appends what is told of them.
#[tactic(auto, using(crate::proofs::SessionLemmas::goes_none, crate::proofs::SessionLemmas::goes_then))]
fn go_on(
    alloc: Global,
    session: &mut Session<'_>,
    stepping: Stepping<'_>,
    checker: &mut Checker,
    most: u32,
    out: &mut Vec<u8>,
) -> Result<Stop, AllocError>
    requires { IsSession session.old }
    ensures session { IsSession session.new }
    ensures goes { OnOk result (GoesOn session.old session.new) }
{
    let mut turn = 0;
    for _event in 0..most {
        let Some((e, taken)) = take_next(alloc, session, stepping, turn, out)? else {
            return Ok(Stop::Quiet);
        };
        if is_full(taken) || has_happened(session, taken, checker) {
            return Ok(Stop::Done);
        }
        turn = turn_after(turn, e);
    }
    Ok(Stop::Most)
}

/// Why a session goes on no more; nothing where the deed has happened or the session is full.
fn stop_text(
    alloc: Global,
    session: &Session<'_>,
    awaited: Awaited<'_>,
    stop: Stop,
) -> Result<String, AllocError> {
    match stop {
        Stop::Done => Ok(String::new(alloc)),
        Stop::Quiet => String::from_str(alloc, quiet_text(session)),
        Stop::Most => unhappened_text(alloc, awaited),
    }
}

/// Goes on until one of these expectations fails, which are of a deed, and gives what is told.
fn told_until(
    alloc: Global,
    session: &mut Session<'_>,
    stepping: Stepping<'_>,
    expected: &[Expected],
    awaited: Awaited<'_>,
) -> Result<Vec<u8>, AllocError>
    requires { IsSession session.old }
    ensures session { IsSession session.new }
    ensures goes { OnOk result (GoesOn session.old session.new) }
{
    let mut checker = Checker::new(alloc, expected)?;
    let mut out = Vec::new(alloc);
    let stop = go_on(
        alloc,
        session,
        stepping,
        &mut checker,
        awaited.most,
        &mut out,
    )?;
    let text = stop_text(alloc, session, awaited, stop)?;
    if !text.is_empty() {
        append_told(alloc, stepping.form, text.as_bytes(), &mut out)?;
    }
    Ok(out)
}

/// Whether an expectation is all of a text, and says that a deed never happens.
fn is_never(expected: &[Expected]) -> bool {
    match expected {
        [one] => matches!(one.sentence, Sentence::Never(_)),
        _ => false,
    }
}

/// Goes on until the deed happens that must never happen by these expectations.
#[tactic(auto, using(crate::proofs::SessionLemmas::leaves_all, crate::proofs::SessionLemmas::refused_told))]
fn until_broken(
    alloc: Global,
    session: &mut Session<'_>,
    stepping: Stepping<'_>,
    expected: &[Expected],
    awaited: Awaited<'_>,
) -> Result<Answer, AllocError>
    requires { IsSession session.old }
    ensures session { IsSession session.new }
    ensures leaves { IfOk result (Leaves session.old session.new) }
    ensures goes { IfOk result (IfTold (GoesOn session.old session.new)) }
{
    if !is_never(expected) {
        return refused(alloc, WANTED);
    }
    Ok(Answer::Told(told_until(alloc, session, stepping, expected, awaited)?))
}

/// What a session expects, which knows neither bodies of handlers nor the other words of an expectation.
fn session_expects(expects: Expects) -> Expects {
    match expects {
        Expects::ActorOfImage => Expects::Actor,
        Expects::NeverEndOrBy | Expects::NeverEndByOrAt => Expects::EndOrBy,
        Expects::NeverEnd | Expects::NeverEndOrAt | Expects::TaskOnly | Expects::TextNeeded => {
            Expects::End
        }
        expects => expects,
    }
}

/// The flaw of a line of a session.
fn session_flaw(flaw: ExpectationFlaw) -> ExpectationFlaw {
    ExpectationFlaw {
        expects: session_expects(flaw.expects),
        left: flaw.left,
    }
}

/// Goes on until a deed happens, at most for as many events as may come.
#[tactic(auto, using(crate::proofs::SessionLemmas::leaves_all, crate::proofs::SessionLemmas::refused_told))]
fn until_awaited(
    alloc: Global,
    session: &mut Session<'_>,
    stepping: Stepping<'_>,
    awaited: Awaited<'_>,
) -> Result<Answer, AllocError>
    requires { IsSession session.old }
    ensures session { IsSession session.new }
    ensures leaves { IfOk result (Leaves session.old session.new) }
    ensures goes { IfOk result (IfTold (GoesOn session.old session.new)) }
{
    let text = never_text(alloc, awaited.deed)?;
    let sys = session.image().system();
    match read_expectations(alloc, sys, &text) {
        Ok(expected) => until_broken(alloc, session, stepping, &expected, awaited),
        Err(ExpectFault::Memory) => Err(AllocError),
        Err(ExpectFault::Line { flaw, .. }) => {
            let flaw = session_flaw(flaw);
            Ok(Answer::Refused(flaw_words(alloc, sys, &text, flaw)?))
        }
    }
}

/// Goes on until a deed happens, as a line says after `until`: the processors run in turn, and the clock ticks where
/// none of them does anything. It stops where nothing goes on any more, where the session is full, and after as many
/// events as the line says after `within`, or 1,000.
#[tactic(auto, using(crate::proofs::SessionLemmas::leaves_all, crate::proofs::SessionLemmas::refused_told))]
pub fn until(
    alloc: Global,
    session: &mut Session<'_>,
    stepping: Stepping<'_>,
    text: &[u8],
) -> Result<Answer, AllocError>
    requires { IsSession session.old }
    ensures session { IsSession session.new }
    ensures leaves { IfOk result (Leaves session.old session.new) }
    ensures goes { IfOk result (IfTold (GoesOn session.old session.new)) }
{
    match awaited_in(text) {
        Some(awaited) => until_awaited(alloc, session, stepping, awaited),
        None => refused(alloc, WITHIN),
    }
}
