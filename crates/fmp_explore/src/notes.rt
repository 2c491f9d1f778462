//! What a search notes on its way: candidates for findings, and what was ever done.
ghost use Rattle.std.specs.Prelude.{◌≡◌, ◌&&◌, [], IfOk, false, length, nat_le, not};
ghost use Rattle.std.specs.List.{list_any};
ghost use Rattle.fmp_schedules.specs.Schedules.{is_any_broken};
ghost use Rattle.fmp_schedules.specs.Monitors.{is_any_broken_in, is_broken, is_broken_in};
ghost use Rattle.fmp_question.specs.Sites.{is_bad as is_bad_line};
ghost use Rattle.fmp_explore.specs.Noted.{events_to, goes_on_beside};

use crate::outlooks::Outlooks;
use crate::stretching::task_site;
use fmp_base::{Event, Line, System};
use fmp_code::Vm;
use fmp_kernel::Kernel;
use fmp_monitors::{has_premise, is_premise};
use fmp_question::{CallSite, first_bad_at, first_forbidden, is_bad, tells_there};
use fmp_schedules::{Monitor, MonitorSubject};
use fmp_tasks::KernelState;
use fmp_visited::Seen;
use fmp_witness::{Coverage, Finding, FindingKind, SearchSubject, SentenceBreach};
use std::alloc::{AllocError, Global};
use std::mem;

/// Which of what must never happen a line tells first: a place among that which must never happen anywhere, or among
/// that which must never happen at a call.
#[derive(Clone, Copy, PartialEq, Eq)]
enum BrokenRule {
    Anywhere(usize),
    At(usize),
}

/// What a line tells that must never happen: the first rule that it breaks, and the place of the first at a call that
/// is about the answers of one task alone.
#[derive(Clone, Copy)]
struct BrokenRules {
    first: BrokenRule,
    of_task: Option<usize>,
}

/// Something that seems to be found.
#[derive(Drop)]
struct Candidate {
    finding: Finding,
    /// What a line tells that must never happen, if it is a line.
    broken: Option<BrokenRules>,
}

/// What was noted.
#[derive(Drop)]
pub struct Notes {
    /// Where its memory comes from.
    alloc: Global,
    candidates: Vec<Candidate>,
    /// What is known of bodies that may go on forever.
    pub outlooks: Outlooks,
    pub coverage: Coverage,
    /// For each monitor of the question, whether what its sentence speaks of has come.
    premises: Vec<bool>,
    /// How many events did something.
    pub events: u64,
}

/// Where a list of events ends: with those that lead to a state from those after which a search begins, or with one
/// more.
#[derive(Clone, Copy)]
pub struct PathEnd<'a> {
    pub after: &'a [Event],
    pub state: u32,
    pub last: Option<Event>,
}

impl<'a> PathEnd<'a> {
    /// The list, where these states were seen. Where none was, no events lead to the state.
    pub fn among(self, seen: &'a Seen) -> Path<'a>
        ensures after { result.end.after.now ≡ self.entry.after.now }
        ensures state { result.end.state ≡ self.entry.state }
        ensures last { result.end.last ≡ self.entry.last }
        ensures seen { result.seen.now ≡ seen.now }
    {
        Path { end: self, seen }
    }
}

/// A list of events.
#[derive(Clone, Copy)]
pub struct Path<'a> {
    end: PathEnd<'a>,
    seen: &'a Seen,
}

impl Path<'_> {
    /// The events. `AllocError` if memory runs out.
    pub fn events(&self, alloc: Global) -> Result<Vec<Event>, AllocError>
        ensures { IfOk result (λ events. events.items
            ≡ events_to self.now.seen.now.links self.now.end.after.now self.now.end.state self.now.end.last) }
    {
        let mut events = Vec::from_slice(alloc, self.end.after)?;
        events.extend_from_slice(&self.seen.path(alloc, self.end.state)?)?;
        if let Some(e) = self.end.last {
            events.push(e)?;
        }
        Ok(events)
    }
}

/// Whether a search goes on after such a finding though only the first is asked for: a body that goes on forever hides
/// nothing else.
pub fn is_beside(found: &Finding) -> bool
    ensures { result ≡ goes_on_beside found.now.kind }
{
    matches!(found.kind, FindingKind::Endless(_))
}

/// Which of what must never happen a line tells first that a kernel has just told, if it tells something of it.
fn first_broken(
    subject: &SearchSubject<'_>,
    kernel: &Kernel<Vm<'_>>,
    line: &Line,
) -> Option<BrokenRule> {
    if let Some(place) = first_forbidden(subject.question, line) {
        return Some(BrokenRule::Anywhere(place));
    }
    let place = first_bad_at(kernel, subject.image.system(), subject.question, line)?;
    Some(BrokenRule::At(place))
}

/// The place of the first rule about the answers of one task at a call that a line breaks.
fn first_of_task(
    subject: &SearchSubject<'_>,
    kernel: &Kernel<Vm<'_>>,
    line: &Line,
) -> Option<usize> {
    let (sys, nevers) = (subject.image.system(), &subject.question.nevers_at);
    nevers.iter().position(|never| never.by.is_some() && tells_there(kernel, sys, *never, line))
}

/// What a line tells that must never happen, which a kernel has just told, if it tells something of it.
fn broken_by(
    subject: &SearchSubject<'_>,
    kernel: &Kernel<Vm<'_>>,
    line: &Line,
) -> Option<BrokenRules> {
    let first = first_broken(subject, kernel, line)?;
    let of_task = first_of_task(subject, kernel, line);
    Some(BrokenRules { first, of_task })
}

/// Whether lines tell the same that must never happen, if they are at the same call.
fn are_alike(one: Option<BrokenRules>, other: Option<BrokenRules>) -> bool {
    match (one, other) {
        (Some(one), Some(other)) => one.first == other.first && one.of_task == other.of_task,
        (None, None) => true,
        _ => false,
    }
}

/// Whether a candidate is of a kind, and at a call. Lines are of one kind if they tell the same that must never happen.
fn is_of_kind(
    known: &Candidate,
    kind: FindingKind,
    site: Option<CallSite>,
    broken: Option<BrokenRules>,
) -> bool {
    let is_same = match (known.finding.kind, kind) {
        (FindingKind::Line(_), FindingKind::Line(_)) => are_alike(known.broken, broken),
        (FindingKind::Deadlock, FindingKind::Deadlock) => true,
        (FindingKind::Endless(_), FindingKind::Endless(_)) => true,
        (FindingKind::Stuck(a), FindingKind::Stuck(b)) => a == b,
        (FindingKind::Breach(a), FindingKind::Breach(b)) => a.monitor == b.monitor,
        (FindingKind::State(a), FindingKind::State(b)) => a == b,
        _ => false,
    };
    is_same && known.finding.site == site
}

/// Whether one of these lines tells what the sentence of a monitor speaks of.
fn tells_premise(monitor: &Monitor, lines: &[Line]) -> bool {
    match monitor.subject {
        MonitorSubject::Sentence(sentence) => {
            has_premise(&sentence) && lines.iter().any(|line| is_premise(&sentence, *line))
        }
        MonitorSubject::Limit(_) => false,
    }
}

/// The call to which a line belongs that a kernel has just told: that of the stretch, or where a wait ends that of the
/// task that waited.
fn site_of(
    kernel: &Kernel<Vm<'_>>,
    sys: &System,
    line: &Line,
    made: Option<CallSite>,
) -> Option<CallSite> {
    match line {
        Line::Gets { task, .. } => task_site(kernel, sys, *task),
        _ => made,
    }
}

impl Notes {
    /// Nothing is noted yet, and nothing can be covered.
    pub fn new(alloc: Global) -> Notes
        ensures candidates { result.candidates.items ≡ [] }
        ensures known { result.outlooks.known.items ≡ [] }
        ensures unknown { result.outlooks.unknown.items ≡ [] }
        ensures changed { result.outlooks.changed ≡ false }
        ensures premises { result.premises.items ≡ [] }
        ensures events { result.events ≡ 0 }
    {
        Notes {
            alloc,
            candidates: Vec::new(alloc),
            outlooks: Outlooks::new(alloc),
            coverage: Coverage::nothing(alloc),
            premises: Vec::new(alloc),
            events: 0,
        }
    }

    /// Only what is known of bodies that may go on forever is noted, and nothing can be covered. `AllocError` if
    /// memory runs out.
    pub fn again(&self) -> Result<Notes, AllocError>
        ensures candidates { IfOk result (λ notes. notes.candidates.items ≡ []) }
        ensures known { IfOk result (λ notes. notes.outlooks.known.items ≡ self.now.outlooks.known.items) }
        ensures unknown { IfOk result (λ notes. notes.outlooks.unknown.items ≡ self.now.outlooks.unknown.items) }
        ensures changed { IfOk result (λ notes. notes.outlooks.changed ≡ false) }
        ensures premises { IfOk result (λ notes. notes.premises.items ≡ []) }
        ensures events { IfOk result (λ notes. notes.events ≡ 0) }
    {
        let mut notes = Notes::new(self.alloc);
        notes.outlooks = self.outlooks.again(self.alloc)?;
        Ok(notes)
    }

    /// Whether a candidate of the same kind is noted at the same call.
    fn has_alike(&self, other: &Candidate) -> bool {
        let found = &other.finding;
        self.candidates.iter().any(|known| is_of_kind(known, found.kind, found.site, other.broken))
    }

    /// Whether other notes have no candidate of a kind of its own, and nothing new about bodies that go on forever.
    pub fn knows(&self, other: &Notes) -> bool {
        !other.outlooks.changed && other.candidates.iter().all(|found| self.has_alike(found))
    }

    /// Adds what is noted elsewhere, but for candidates.
    pub fn join(&mut self, other: &Notes) {
        self.coverage.join(&other.coverage);
        for (mine, theirs) in self.premises.iter_mut().zip(&other.premises) {
            *mine |= *theirs;
        }
        self.events = self.events.saturating_add(other.events);
    }

    /// Makes room for what is done in the system of a kernel. `AllocError` if memory runs out.
    pub fn cover(
        &mut self,
        subject: &SearchSubject<'_>,
        kernel: &Kernel<Vm<'_>>,
    ) -> Result<(), AllocError> {
        self.coverage = Coverage::new(self.alloc, kernel.tables(), subject.image.code())?;
        self.premises = vec![in self.alloc; false; subject.question.monitors.len()]?;
        Ok(())
    }

    /// The candidates, which are forgotten. `AllocError` if memory runs out.
    pub fn take_candidates(&mut self) -> Result<Vec<Finding>, AllocError> {
        let mut findings = Vec::new(self.alloc);
        for candidate in mem::replace(&mut self.candidates, Vec::new(self.alloc)) {
            findings.push(candidate.finding)?;
        }
        Ok(findings)
    }

    /// What was ever done, which is forgotten.
    pub fn take_coverage(&mut self) -> Coverage
        ensures { result ≡ self.old.coverage }
    {
        mem::replace(&mut self.coverage, Coverage::nothing(self.alloc))
    }

    /// For each monitor, whether what its sentence speaks of has come, which is forgotten.
    pub fn take_premises(&mut self) -> Vec<bool>
        ensures { result.items ≡ self.old.premises.items }
    {
        mem::replace(&mut self.premises, Vec::new(self.alloc))
    }

    /// Notes of which monitors these lines tell what their sentences speak of.
    fn note_premises(&mut self, monitors: &[Monitor], lines: &[Line]) {
        for (place, monitor) in monitors.iter().enumerate() {
            if let Some(comes) = self.premises.get_mut(place) {
                *comes = *comes || tells_premise(monitor, lines);
            }
        }
    }

    /// Whether a candidate has at most this many steps, and the search does not go on beside it.
    pub fn has_within(&self, depth: usize) -> bool
        ensures { result ≡ list_any (λ known. nat_le (length known.finding.steps.items) depth
            && not (goes_on_beside known.finding.kind)) self.now.candidates.items }
    {
        self.candidates.iter().any(|known| known.finding.steps.len() <= depth
            && !is_beside(&known.finding))
    }

    /// Whether anything is noted after which the search does not go on.
    pub fn has_any(&self) -> bool
        ensures { result ≡ list_any (λ known. not (goes_on_beside known.finding.kind)) self.now.candidates.items }
    {
        self.candidates
            .iter()
            .any(|known| !is_beside(&known.finding))
    }

    /// Adds a candidate of a list of events, unless there is one of its kind at the same call. `AllocError` if memory
    /// runs out.
    fn note(
        &mut self,
        path: Path<'_>,
        kind: FindingKind,
        site: Option<CallSite>,
        broken: Option<BrokenRules>,
    ) -> Result<(), AllocError> {
        let is_known = self
            .candidates
            .iter()
            .any(|known| is_of_kind(known, kind, site, broken));
        if is_known {
            return Ok(());
        }
        let steps = path.events(self.alloc)?;
        let finding = Finding { steps, kind, site };
        self.candidates.push(Candidate { finding, broken })?;
        Ok(())
    }

    /// Adds what is seen after a list of events and is no line, unless the same was seen at the same call. `AllocError`
    /// if memory runs out.
    pub fn note_kind(
        &mut self,
        path: Path<'_>,
        kind: FindingKind,
        site: Option<CallSite>,
    ) -> Result<(), AllocError> {
        self.note(path, kind, site, None)
    }

    /// Notes a line that a kernel has just told at this place, by an event that made this call, if it made one, or by
    /// setup: whether it must never be told.
    fn note_line(
        &mut self,
        subject: &SearchSubject<'_>,
        kernel: &Kernel<Vm<'_>>,
        path: Path<'_>,
        made: Option<CallSite>,
        place: usize,
        line: &Line,
    ) -> Result<bool, AllocError>
        ensures { IfOk result (λ found. found ≡ is_bad_line subject.now.image.now.system subject.now.question.now
            kernel.now.world line.now) }
    {
        let site = site_of(kernel, subject.image.system(), line, made);
        self.coverage.note_line(line, site);
        let bad = is_bad(kernel, subject.image.system(), subject.question, line);
        if bad {
            let broken = broken_by(subject, kernel, line);
            self.note(path, FindingKind::Line(place), site, broken)?;
        }
        Ok(bad)
    }

    /// Notes what each line tells that a kernel has just told: whether one of them must never be told.
    fn note_each(
        &mut self,
        subject: &SearchSubject<'_>,
        kernel: &Kernel<Vm<'_>>,
        path: Path<'_>,
        made: Option<CallSite>,
    ) -> Result<bool, AllocError>
        ensures { IfOk result (λ found. found ≡ list_any (is_bad_line subject.now.image.now.system
            subject.now.question.now kernel.now.world) kernel.now.lines) }
    {
        let lines = kernel.lines();
        let mut found = false;
        for place in 0..lines.len() {
            if self.note_line(subject, kernel, path, made, place, &lines[place])? {
                found = true;
            }
        }
        Ok(found)
    }

    /// Notes the lines that a kernel has just told, by an event that made this call, if it made one, or by setup:
    /// whether one of them must never be told. `AllocError` if memory runs out.
    pub fn note_lines(
        &mut self,
        subject: &SearchSubject<'_>,
        kernel: &Kernel<Vm<'_>>,
        path: Path<'_>,
        made: Option<CallSite>,
    ) -> Result<bool, AllocError>
        ensures { IfOk result (λ found. found ≡ list_any (is_bad_line subject.now.image.now.system
            subject.now.question.now kernel.now.world) kernel.now.lines) }
    {
        self.note_premises(&subject.question.monitors, kernel.lines());
        self.note_each(subject, kernel, path, made)
    }

    /// Notes that one of the lines of a path's last event breaks the sentence of this number, if one does: whether one
    /// does.
    fn note_breach(
        &mut self,
        lines: &[Line],
        path: Path<'_>,
        number: usize,
        monitor: &Monitor,
        made: Option<CallSite>,
    ) -> Result<bool, AllocError>
        ensures { IfOk result (λ found. found ≡ is_broken monitor.now lines.now) }
    {
        let Some(breach) = monitor.first_breach(lines) else {
            return Ok(false);
        };
        let breached = SentenceBreach {
            monitor: number,
            breach,
        };
        self.note_kind(path, FindingKind::Breach(breached), made)?;
        Ok(true)
    }

    /// Notes the sentences of these monitors, as they were before the lines of a path's last event, that one of the
    /// lines breaks: whether there is one. `AllocError` if memory runs out.
    pub fn note_breaches(
        &mut self,
        lines: &[Line],
        path: Path<'_>,
        monitors: &[Monitor],
        made: Option<CallSite>,
    ) -> Result<bool, AllocError>
        ensures { IfOk result (λ found. found ≡ is_any_broken monitors.now lines.now) }
    {
        let mut found = false;
        for number in 0..monitors.len() {
            if self.note_breach(lines, path, number, &monitors[number], made)? {
                found = true;
            }
        }
        Ok(found)
    }

    /// Notes that a state after a path breaks the sentence of this number, if it does: whether it does.
    fn note_broken(
        &mut self,
        path: Path<'_>,
        state: &KernelState,
        number: usize,
        monitor: &Monitor,
    ) -> Result<bool, AllocError>
        ensures { IfOk result (λ found. found ≡ is_broken_in monitor.now state.now.state) }
    {
        if !monitor.is_broken_in(state) {
            return Ok(false);
        }
        self.note_kind(path, FindingKind::State(number), None)?;
        Ok(true)
    }

    /// Notes the sentences of these monitors that a state after a path breaks: whether there is one. `AllocError` if
    /// memory runs out.
    pub fn note_state(
        &mut self,
        path: Path<'_>,
        state: &KernelState,
        monitors: &[Monitor],
    ) -> Result<bool, AllocError>
        ensures { IfOk result (λ found. found ≡ is_any_broken_in monitors.now state.now.state) }
    {
        let mut found = false;
        for number in 0..monitors.len() {
            if self.note_broken(path, state, number, &monitors[number])? {
                found = true;
            }
        }
        Ok(found)
    }
}
