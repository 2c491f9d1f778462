//! What is found, and whether it is true.
ghost use Rattle.std.specs.Prelude.{◌≡◌, [], IfOk, IfSome, IsTrue};
ghost use Rattle.fmp_base.specs.Systems.{tables_of};
ghost use Rattle.fmp_replay.specs.Replays.{kernel_after};
ghost use Rattle.fmp_schedules.specs.Monitors.{IsBreach};
ghost use Rattle.fmp_witness.specs.Asked.{asked_of};
ghost use Rattle.fmp_witness.specs.Findings.{HasBroken, HasDoneLast, HasForbidden, HasForbiddenAfter, IsBreachAfter};
ghost use Rattle.fmp_witness.specs.Findings.{IsLeft, IsSeenAfter, IsSo};
ghost use Rattle.fmp_witness.specs.Followed.{HasDone, HasFollowed, IsFollowed};

use crate::breaching::{follow_monitor, is_done};
use crate::replaying::{TAKEN_MOST, follow};
use crate::started::{Started, started_tasks};
use crate::subject::SearchSubject;
use fmp_base::{Event, Line, System};
use fmp_code::Vm;
use fmp_image_bytes::Image;
use fmp_kernel::Kernel;
use fmp_monitors::Standing;
use fmp_question::{CallSite, Question, is_bad, is_deadlock, is_endless};
use fmp_replay::kernel_of;
use fmp_schedules::{Breach, Monitor};
use std::alloc::{AllocError, Global};

/// What is seen after a list of events.
#[derive(Clone, Copy, Debug, PartialEq, Eq)]
pub enum FindingKind {
    /// The line at this place, from 0, tells what must never happen. It is one of the last event, which is done, or of
    /// setup if there is no event.
    Line(usize),
    /// No processor can do anything, no time limit runs, no cyclic handler is started, and a task that may not wait
    /// forever is not dormant.
    Deadlock,
    /// The actor of the processor of this number goes on forever without a call.
    Endless(u8),
    /// A line of the last event breaks a sentence.
    Breach(SentenceBreach),
    /// The state breaks the sentence at this place among those of the question.
    State(usize),
    /// The task at this place is started, and whatever events follow, as the question lets them come, it never goes on.
    Stuck(u8),
}

/// A sentence that is broken by a line.
#[derive(Clone, Copy, Debug, PartialEq, Eq)]
pub struct SentenceBreach {
    /// The place of the sentence among those of the question.
    pub monitor: usize,
    /// The line that breaks it, and what was kept of it before.
    pub breach: Breach,
}

/// A list of events, each of which does something, and what is seen after them.
#[derive(Drop)]
pub struct Finding {
    pub steps: Vec<Event>,
    pub kind: FindingKind,
    /// The call to which it belongs, if it belongs to one.
    pub site: Option<CallSite>,
}

/// Whether the line at a place is forbidden, of those that a kernel has just told.
fn has_forbidden(kernel: &Kernel<Vm<'_>>, sys: &System, question: &Question, place: usize) -> bool
    ensures { IsTrue result → HasForbidden (tables_of sys.now) question.now kernel.now.world kernel.now.lines place }
{
    match kernel.lines().get(place) {
        Some(line) => is_bad(kernel, sys, question, line),
        None => false,
    }
}

/// Whether the line at a place is forbidden, among those that these events left. The kernel of an image took them.
fn tells_forbidden<'a>(
    kernel: &Kernel<Vm<'a>>,
    subject: &SearchSubject<'a>,
    steps: &[Event],
    place: usize,
) -> bool
    requires { HasFollowed (asked_of subject.now) steps.now kernel.now }
    ensures { IsTrue result → HasForbiddenAfter (asked_of subject.now) steps.now place }
{
    has_forbidden(kernel, subject.image.system(), subject.question, place)
}

/// Whether the kernel of an image, which has taken these events, is a deadlock.
fn stands<'a>(kernel: &mut Kernel<Vm<'a>>, subject: &SearchSubject<'a>, steps: &[Event]) -> bool
    requires { HasFollowed (asked_of subject.now) steps.now kernel.old }
    ensures { IsTrue result → IsSeenAfter (asked_of subject.now) steps.now FindingKind.Deadlock }
{
    if kernel.taken() >= TAKEN_MOST {
        return false;
    }
    let interrupts = subject.question.may_interrupt(steps);
    is_deadlock(kernel, subject.question, interrupts)
}

/// Whether the actor of a processor is known to go on forever on the kernel of an image, which has taken these events.
fn goes_on<'a>(kernel: &Kernel<Vm<'a>>, subject: &SearchSubject<'a>, steps: &[Event], p: u8) -> bool
    requires { HasFollowed (asked_of subject.now) steps.now kernel.now }
    ensures { IsTrue result → IsSeenAfter (asked_of subject.now) steps.now (FindingKind.Endless p) }
{
    is_endless(kernel, &subject.image.vm(), p)
}

/// Whether the state of a kernel breaks the sentence at a place of these.
fn has_broken(kernel: &Kernel<Vm<'_>>, monitors: &[Monitor], place: usize) -> bool
    ensures { IsTrue result → HasBroken monitors.now kernel.now.world place }
{
    match monitors.get(place) {
        Some(monitor) => monitor.is_broken_in(kernel.tables()),
        None => false,
    }
}

/// Whether the state that these events left breaks the sentence at a place. The kernel of an image took them.
fn is_state_broken<'a>(
    kernel: &Kernel<Vm<'a>>,
    subject: &SearchSubject<'a>,
    steps: &[Event],
    place: usize,
) -> bool
    requires { HasFollowed (asked_of subject.now) steps.now kernel.now }
    ensures { IsTrue result → IsSeenAfter (asked_of subject.now) steps.now (FindingKind.State place) }
{
    has_broken(kernel, &subject.question.monitors, place)
}

/// Whether this is seen on the kernel of an image, which has taken these events.
fn is_seen<'a>(
    kernel: &mut Kernel<Vm<'a>>,
    subject: &SearchSubject<'a>,
    steps: &[Event],
    kind: FindingKind,
) -> bool
    requires { HasFollowed (asked_of subject.now) steps.now kernel.old }
    ensures { IsTrue result → IsSeenAfter (asked_of subject.now) steps.now kind }
{
    match kind {
        FindingKind::Deadlock => stands(kernel, subject, steps),
        FindingKind::Endless(p) => goes_on(kernel, subject, steps, p),
        FindingKind::State(place) => is_state_broken(kernel, subject, steps, place),
        FindingKind::Line(_) | FindingKind::Breach(_) | FindingKind::Stuck(_) => false,
    }
}

/// Whether what was kept of a sentence at two times is the same.
fn is_same_standing(a: Standing, b: Standing) -> bool
    ensures { IsTrue result → a ≡ b }
{
    match (a, b) {
        (Standing::Open, Standing::Open) => true,
        (Standing::Held, Standing::Held) => true,
        (Standing::Inside(task), Standing::Inside(other)) => task == other,
        (Standing::Waiting(left), Standing::Waiting(other)) => left == other,
        _ => false,
    }
}

/// Whether this is the first of these lines that breaks a sentence.
fn is_breach(monitor: &Monitor, lines: &[Line], breach: Breach) -> bool
    ensures { IsTrue result → IsBreach monitor.now lines.now breach }
{
    match monitor.first_breach(lines) {
        Some(first) => {
            first.place == breach.place && is_same_standing(first.standing, breach.standing)
        }
        None => false,
    }
}

/// Whether the lines of the event after these steps break the sentence of a monitor so, on the kernel of an image that
/// was just set up.
fn is_broken<'a>(
    kernel: &mut Kernel<Vm<'a>>,
    image: &'a Image,
    n: u64,
    monitor: Monitor,
    before: &[Event],
    last: Event,
    breach: Breach,
) -> bool
    requires { kernel.old ≡ kernel_after image.now n [] }
    ensures { IsTrue result → IsBreachAfter image.now n monitor before.now last breach }
{
    let Some(monitor) = follow_monitor(kernel, image, n, monitor, before) else {
        return false;
    };
    if kernel.taken() >= TAKEN_MOST {
        return false;
    }
    if !is_done(kernel, image, n, before, last) {
        return false;
    }
    is_breach(&monitor, kernel.lines(), breach)
}

/// Whether each of these events does something on the kernel of an image that was just set up, and a line of the
/// last one breaks a sentence of the question, as this tells.
fn is_breached<'a>(
    kernel: &mut Kernel<Vm<'a>>,
    subject: &SearchSubject<'a>,
    steps: &[Event],
    breached: SentenceBreach,
) -> bool
    requires { kernel.old ≡ kernel_after subject.now.image.now subject.now.n [] }
    ensures { IsTrue result → IsSo (asked_of subject.now) steps.now (FindingKind.Breach breached) }
{
    let Some(monitor) = subject.question.monitors.get(breached.monitor) else {
        return false;
    };
    if steps.is_empty() {
        return false;
    }
    let end = steps.len() - 1;
    is_broken(
        kernel,
        subject.image,
        subject.n,
        *monitor,
        &steps[..end],
        steps[end],
        breached.breach,
    )
}

/// Whether each of these events does something on the kernel of an image that was just set up, and then one more event
/// is done.
fn follow_to(
    kernel: &mut Kernel<Vm<'_>>,
    image: &Image,
    n: u64,
    before: &[Event],
    last: Event,
) -> bool
    requires { kernel.old ≡ kernel_after image.now n [] }
    ensures { IsTrue result → HasDone image.now n before.now last kernel.new }
{
    if !follow(kernel, image, n, before) {
        return false;
    }
    if kernel.taken() >= TAKEN_MOST {
        return false;
    }
    is_done(kernel, image, n, before, last)
}

/// Whether each of these events does something on the kernel of an image that was just set up, and the last one is
/// done, if there is one.
fn follow_done(kernel: &mut Kernel<Vm<'_>>, image: &Image, n: u64, steps: &[Event]) -> bool
    requires { kernel.old ≡ kernel_after image.now n [] }
    ensures { IsTrue result → HasDoneLast image.now n steps.now kernel.new }
{
    if steps.is_empty() {
        return true;
    }
    let end = steps.len() - 1;
    follow_to(kernel, image, n, &steps[..end], steps[end])
}

/// Whether each of these events does something on the kernel of an image that was just set up, and the line at a place,
/// which the last event tells, or setup, is forbidden.
fn is_told<'a>(
    kernel: &mut Kernel<Vm<'a>>,
    subject: &SearchSubject<'a>,
    steps: &[Event],
    place: usize,
) -> bool
    requires { kernel.old ≡ kernel_after subject.now.image.now subject.now.n [] }
    ensures { IsTrue result → IsSo (asked_of subject.now) steps.now (FindingKind.Line place) }
{
    if !follow_done(kernel, subject.image, subject.n, steps) {
        return false;
    }
    tells_forbidden(kernel, subject, steps, place)
}

/// Whether each of these events does something on the kernel of an image that was just set up, and this is known to be
/// seen in what they leave.
fn is_left<'a>(
    kernel: &mut Kernel<Vm<'a>>,
    subject: &SearchSubject<'a>,
    steps: &[Event],
    kind: FindingKind,
) -> bool
    requires { kernel.old ≡ kernel_after subject.now.image.now subject.now.n [] }
    ensures { IsTrue result → IsSo (asked_of subject.now) steps.now kind }
{
    if !follow(kernel, subject.image, subject.n, steps) {
        return false;
    }
    is_seen(kernel, subject, steps, kind)
}

/// Whether each of these events does something on the kernel of an image that was just set up, and this is known to be
/// seen then. The answer no claims nothing; for a stuck task it is always the answer.
pub fn is_so<'a>(
    kernel: &mut Kernel<Vm<'a>>,
    subject: &SearchSubject<'a>,
    steps: &[Event],
    kind: FindingKind,
) -> bool
    requires begun { kernel.old ≡ kernel_after subject.now.image.now subject.now.n [] }
    ensures { IsTrue result → IsSo (asked_of subject.now) steps.now kind }
{
    match kind {
        FindingKind::Breach(breached) => is_breached(kernel, subject, steps, breached),
        FindingKind::Line(place) => is_told(kernel, subject, steps, place),
        _ => is_left(kernel, subject, steps, kind),
    }
}

/// What some events have left: the number in the trace of the last one that was done, or 0 for setup, its lines, and
/// the tasks that are started then.
#[derive(Drop)]
pub struct Left {
    pub number: u32,
    pub lines: Vec<Line>,
    pub started: Vec<Started>,
}

/// What the kernel of an image shows, which has taken these events.
fn shown_by<'a>(
    alloc: Global,
    kernel: &Kernel<Vm<'a>>,
    image: &'a Image,
    n: u64,
    steps: &[Event],
) -> Result<Left, AllocError>
    requires { IsFollowed image.now n steps.now kernel.now }
    ensures { IfOk result (λ left. IsLeft image.now n steps.now left) }
{
    let started = started_tasks(alloc, kernel, image.system())?;
    let lines = Vec::from_slice(alloc, kernel.lines())?;
    Ok(Left {
        number: kernel.done(),
        lines,
        started,
    })
}

/// What these events leave on the kernel of an image that was just set up, if each of them does something.
fn left_on<'a>(
    alloc: Global,
    kernel: &mut Kernel<Vm<'a>>,
    image: &'a Image,
    n: u64,
    steps: &[Event],
) -> Result<Option<Left>, AllocError>
    requires { kernel.old ≡ kernel_after image.now n [] }
    ensures { IfOk result (λ left. IfSome left (IsLeft image.now n steps.now)) }
{
    let is_legal = follow(kernel, image, n, steps);
    if !is_legal {
        return Ok(None);
    }
    let left = shown_by(alloc, kernel, image, n, steps)?;
    Ok(Some(left))
}

/// What these events leave on an image, if each of them does something. `AllocError` if memory runs out.
pub fn left_by(
    alloc: Global,
    image: &Image,
    n: u64,
    steps: &[Event],
) -> Result<Option<Left>, AllocError>
    ensures { IfOk result (λ left. IfSome left (IsLeft image.now n steps.now)) }
{
    let mut kernel = kernel_of(alloc, image, n)?;
    let left = left_on(alloc, &mut kernel, image, n, steps);
    drop(kernel);
    left
}
