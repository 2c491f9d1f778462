//! Tasks that can never go on: where to look for one, and whether it is stuck.
ghost use Rattle.std.specs.Prelude.{◌≡◌, ◌≢◌, [], ◌∷◌, IfOk, IfSome, IsTrue};
ghost use Rattle.fmp_base.specs.States.{task_at};
ghost use Rattle.fmp_instructions.specs.Machine.{code_meaning};
ghost use Rattle.fmp_replay.specs.Replays.{kernel_after};
ghost use Rattle.fmp_schedules.specs.Schedules.{reached};
ghost use Rattle.fmp_explore.specs.After.{IsAbout, NeverActs, NoneFollows};
ghost use Rattle.fmp_witness.specs.Findings.{IsSo};
ghost use Rattle.fmp_witness.specs.Followed.{IsFollowed};
ghost use Rattle.fmp_explore.specs.Searching.{IsBegun};
ghost use Rattle.fmp_witness.specs.Asked.{asked_of};

use crate::crew::Alone;
use crate::exploring::{run_search, start_search};
use crate::searches::Search;
use crate::searching::{Ending, SearchWatcher};
use crate::values::number_at;
use fmp_base::{Event, Phase, System};
use fmp_code::Vm;
use fmp_fields::{What, low_byte};
use fmp_image_bytes::Image;
use fmp_kernel::Kernel;
use fmp_question::{CallSite, Never, Question, body_of, is_started, may_rest};
use fmp_visited::unpack;
use fmp_witness::{Finding, FindingKind, SearchSubject, follow};
use std::alloc::{AllocError, Global};

/// What a search stopped at before it knew.
#[derive(Clone, Copy)]
pub enum SearchLimit {
    /// As many states were kept as are allowed.
    States,
    /// The time that is allowed was over.
    Time,
    /// There was no more memory.
    Memory,
}

impl From<AllocError> for SearchLimit {
    fn from(_error: AllocError) -> Self {
        SearchLimit::Memory
    }
}

/// A watcher that asks another one for the time, and does not tell it how far the search has come.
#[derive(Drop)]
struct Quiet<'w, W: SearchWatcher> {
    watcher: &'w mut W,
}

impl<W: SearchWatcher> SearchWatcher for Quiet<'_, W> {
    fn grown(&mut self, _states: usize, _examined: usize, _depth: u32) {}

    fn is_over(&mut self) -> bool {
        self.watcher.is_over()
    }
}

/// A state in which a task seems to be stuck, and its last call.
#[derive(Clone, Copy)]
struct Suspect {
    state: u32,
    task: u8,
    site: CallSite,
}

/// What seems to be so after a search in which every state was examined.
#[derive(Drop)]
pub struct Suspicions {
    /// The tasks that seem to be stuck, each in the first state in which it does, in order of the states.
    pub findings: Vec<Finding>,
    /// Whether in a state that can go on only by an interrupt a task that may not rest waits, and can go on later.
    pub waits: bool,
}

/// The place of a field; after all of them if there is none.
fn place_of(fields: &[What], what: What) -> usize {
    for (place, field) in fields.iter().enumerate() {
        if *field == what {
            return place;
        }
    }
    fields.len()
}

/// The body of the task at a place.
fn body_at(sys: &System, t: u8) -> u8 {
    match sys.tasks.get(usize::from(t)) {
        Some(config) => body_of(config.entry),
        None => 0,
    }
}

/// Whether the bit of a task is set among these bytes.
fn has_bit(bytes: &[u8], t: u8) -> bool {
    match bytes.get(usize::from(t / 8)) {
        Some(bits) => *bits >> (t % 8) & 1 == 1,
        None => false,
    }
}

/// The first state in which a task is started that cannot go on from there, if no end can be reached. `AllocError` if
/// memory runs out.
fn suspect_of(
    alloc: Global,
    search: &Search,
    sys: &System,
    t: u8,
) -> Result<Option<Suspect>, AllocError> {
    let fields = search.rows.fields.list();
    let phase = place_of(fields, What::Phase(t));
    let pc = place_of(fields, What::Pc(t));
    let mut values = Vec::new(alloc);
    for state in 0..search.edges.len() {
        if search.edges.ends_from(state) || search.edges.acts_from(state, t) {
            continue;
        }
        unpack(search.seen.row(state), &search.rows.first, &mut values)?;
        if number_at(&values, phase) != 0 {
            let pc = (number_at(&values, pc).saturating_sub(1) % 65_536) as u16;
            let body = body_at(sys, t);
            let site = CallSite { body, pc };
            return Ok(Some(Suspect {
                state,
                task: t,
                site,
            }));
        }
    }
    Ok(None)
}

/// These suspects in order of their states. `AllocError` if memory runs out.
fn in_order(alloc: Global, suspects: &[Suspect]) -> Result<Vec<Suspect>, AllocError> {
    let mut keys = Vec::new(alloc);
    for (place, suspect) in suspects.iter().enumerate() {
        keys.push(u64::from(suspect.state) * 256 + u64::from(low_byte(place)))?;
    }
    keys.sort()?;
    let mut ordered = Vec::new(alloc);
    for key in &keys {
        if let Some(suspect) = suspects.get((*key % 256) as usize) {
            ordered.push(*suspect)?;
        }
    }
    Ok(ordered)
}

/// For each task that may not rest, the first state in which it seems to be stuck, if there is one, in order of the
/// states. `AllocError` if memory runs out.
fn suspects_of(
    alloc: Global,
    search: &Search,
    sys: &System,
    question: &Question,
) -> Result<Vec<Suspect>, AllocError> {
    let mut suspects = Vec::new(alloc);
    let lacking = search.edges.lacking(alloc)?;
    for t in 0..sys.tasks.len() {
        let t = low_byte(t);
        if may_rest(question, t) || !has_bit(&lacking, t) {
            continue;
        }
        if let Some(suspect) = suspect_of(alloc, search, sys, t)? {
            suspects.push(suspect)?;
        }
    }
    in_order(alloc, &suspects)
}

/// The tasks that seem to be stuck, each in the first state in which it does, in order of the states. `AllocError` if
/// memory runs out.
fn stuck_in(
    alloc: Global,
    search: &Search,
    sys: &System,
    question: &Question,
) -> Result<Vec<Finding>, AllocError> {
    let mut findings = Vec::new(alloc);
    for suspect in suspects_of(alloc, search, sys, question)? {
        findings.push(Finding {
            steps: search.steps_to(question, suspect.state)?,
            kind: FindingKind::Stuck(suspect.task),
            site: Some(suspect.site),
        })?;
    }
    Ok(findings)
}

/// Whether a task is started in a state that can go on only by an interrupt, and can go on from there. `AllocError` if
/// memory runs out.
fn is_helped(alloc: Global, search: &Search, t: u8) -> Result<bool, AllocError> {
    let phase = place_of(search.rows.fields.list(), What::Phase(t));
    let mut values = Vec::new(alloc);
    for state in search.edges.waiting() {
        if search.edges.acts_from(*state, t) {
            unpack(search.seen.row(*state), &search.rows.first, &mut values)?;
            if number_at(&values, phase) != 0 {
                return Ok(true);
            }
        }
    }
    Ok(false)
}

/// Whether in a state that can go on only by an interrupt a task that may not rest waits, and can go on later.
/// `AllocError` if memory runs out.
fn waits_for_interrupt(
    alloc: Global,
    search: &Search,
    sys: &System,
    question: &Question,
) -> Result<bool, AllocError> {
    for t in 0..sys.tasks.len() {
        let t = low_byte(t);
        if may_rest(question, t) {
            continue;
        }
        if is_helped(alloc, search, t)? {
            return Ok(true);
        }
    }
    Ok(false)
}

/// What seems to be so after a search in which every state was examined. `AllocError` if there was no memory to look.
pub fn suspected(
    alloc: Global,
    search: &mut Search,
    sys: &System,
    question: &Question,
) -> Result<Suspicions, AllocError> {
    search.edges.spread(alloc, &search.seen)?;
    Ok(Suspicions {
        findings: stuck_in(alloc, search, sys, question)?,
        waits: waits_for_interrupt(alloc, search, sys, question)?,
    })
}

/// This alone, of all that must never happen.
fn only(alloc: Global, never: Never) -> Result<Vec<Never>, AllocError>
    ensures { IfOk result (λ nevers. nevers.items ≡ never ∷ []) }
{
    let mut nevers = Vec::new(alloc);
    nevers.push(never)?;
    Ok(nevers)
}

/// A mark for each task of a system: it may rest.
fn all_rest(alloc: Global, sys: &System) -> Result<Vec<bool>, AllocError> {
    vec![in alloc; true; sys.tasks.len()]
}

/// What is asked about a task that may be stuck after some events: whether it acts along a schedule after them, where
/// no single interrupt is limited.
fn question_of(
    alloc: Global,
    sys: &System,
    question: &Question,
    steps: &[Event],
    t: u8,
) -> Result<Question, AllocError>
    ensures { IfOk result (λ about. IsAbout question.now steps.now t about) }
{
    let nevers = only(alloc, Never::Acts(t))?;
    let after = Vec::from_slice(alloc, steps)?;
    let rest = all_rest(alloc, sys)?;
    Ok(Question {
        nevers,
        nevers_at: Vec::new(alloc),
        monitors: Vec::new(alloc),
        rest,
        ticks: question.ticks,
        interrupts: question.interrupts,
        queued: question.queued,
        all: false,
        states: question.states,
        seconds: question.seconds,
        after,
    })
}

/// Whether a search shows that no forbidden line is told along any schedule after the events where it began. The limit
/// at which it stops, if it ends before it knows.
fn shows_silence<W: SearchWatcher>(
    subject: &SearchSubject<'_>,
    search: &mut Search,
    watcher: &mut W,
) -> Result<bool, SearchLimit>
    requires { IsBegun (asked_of subject.now) search.old }
    ensures { IfOk result (λ yes. IsTrue yes → NoneFollows (asked_of subject.now)) }
{
    subject.image.keeps_rules();
    match run_search(&Alone, search, subject, &mut Quiet { watcher }) {
        Ending::Complete => Ok(search.sure),
        Ending::Found => Ok(false),
        Ending::StateLimit => Err(SearchLimit::States),
        Ending::TimeLimit => Err(SearchLimit::Time),
        Ending::OutOfMemory => Err(SearchLimit::Memory),
    }
}

/// The same of a search that is now made, in which the local at the out place of a call counts as written by every
/// reply, or by E_OK alone. None where a reply left one as it was that counts as written.
fn is_silent_so<W: SearchWatcher>(
    alloc: Global,
    outs: bool,
    subject: &SearchSubject<'_>,
    watcher: &mut W,
) -> Result<Option<bool>, SearchLimit>
    ensures { IfOk result (λ known. IfSome known (λ yes. IsTrue yes → NoneFollows (asked_of subject.now))) }
{
    let mut search = start_search(alloc, outs, subject)?;
    let yes = shows_silence(subject, &mut search, watcher)?;
    if search.unwritten {
        return Ok(None);
    }
    Ok(Some(yes))
}

/// The same of a search that is made once more where a reply left an out place as it was.
fn is_silent<W: SearchWatcher>(
    alloc: Global,
    subject: &SearchSubject<'_>,
    watcher: &mut W,
) -> Result<bool, SearchLimit>
    ensures { IfOk result (λ yes. IsTrue yes → NoneFollows (asked_of subject.now)) }
{
    if let Some(yes) = is_silent_so(alloc, true, subject, watcher)? {
        return Ok(yes);
    }
    match is_silent_so(alloc, false, subject, watcher)? {
        Some(yes) => Ok(yes),
        None => Ok(false),
    }
}

/// The same of another question about an image, at the same bound.
fn is_silent_about<W: SearchWatcher>(
    alloc: Global,
    subject: &SearchSubject<'_>,
    about: &Question,
    watcher: &mut W,
) -> Result<bool, SearchLimit>
    ensures { IfOk result (λ yes. IsTrue yes → NoneFollows (record (asked_of subject.now) { question = about.now })) }
{
    let other = SearchSubject {
        image: subject.image,
        n: subject.n,
        question: about,
    };
    is_silent(alloc, &other, watcher)
}

/// Whether a task never acts after these events, as a question lets others follow. The limit at which the search for
/// that stops, if it ends before it knows.
fn never_acts<W: SearchWatcher>(
    alloc: Global,
    subject: &SearchSubject<'_>,
    steps: &[Event],
    t: u8,
    watcher: &mut W,
) -> Result<bool, SearchLimit>
    ensures { IfOk result (λ yes. IsTrue yes → NeverActs (asked_of subject.now) steps.now t) }
{
    let about = question_of(alloc, subject.image.system(), subject.question, steps, t)?;
    is_silent_about(alloc, subject, &about, watcher)
}

/// Whether the task at a place is started on the kernel of an image, which has taken these events.
fn is_started_after(kernel: &Kernel<Vm<'_>>, image: &Image, n: u64, steps: &[Event], t: u8) -> bool
    requires { IsFollowed image.now n steps.now kernel.now }
    ensures { IsTrue result →
        (task_at (reached image.now.system (code_meaning image.now.code) n steps.now).state.tasks t).phase
        ≢ Phase.Dormant }
{
    is_started(kernel.tables(), t)
}

/// Whether the task at a place is started on the kernel of an image that was just set up and takes these events, and
/// never goes on after them. The limit at which the search for that stops, if it ends before it knows.
pub fn is_stuck<'a, W: SearchWatcher>(
    alloc: Global,
    kernel: &mut Kernel<Vm<'a>>,
    subject: &SearchSubject<'a>,
    steps: &[Event],
    t: u8,
    watcher: &mut W,
) -> Result<bool, SearchLimit>
    requires begun { kernel.old ≡ kernel_after subject.now.image.now subject.now.n [] }
    ensures { IfOk result (λ stuck. IsTrue stuck → IsSo (asked_of subject.now) steps.now (FindingKind.Stuck t)) }
{
    if !follow(kernel, subject.image, subject.n, steps) {
        return Ok(false);
    }
    if !is_started_after(kernel, subject.image, subject.n, steps, t) {
        return Ok(false);
    }
    let never = never_acts(alloc, subject, steps, t, watcher)?;
    Ok(never)
}
