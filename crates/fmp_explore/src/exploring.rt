//! Exploring every schedule of an image.
ghost use Rattle.std.specs.Prelude.{◌≡◌, ◌≢◌, [], All, IfOk, IfSome, IsTrue, false, true};
ghost use Rattle.fmp_instructions.specs.Machine.{code_meaning};
ghost use Rattle.fmp_schedules.specs.Schedules.{Holds, HoldsThere};
ghost use Rattle.fmp_witness.specs.Findings.{IsFound};
ghost use Rattle.fmp_question.specs.Forbidden.{forbids};
ghost use Rattle.fmp_question.specs.Sites.{forbids_there};
ghost use Rattle.fmp_question.specs.Rules.{rules_of};
ghost use Rattle.fmp_explore.specs.Searching.{AreFound, HasEnded, IsBegun, NoneIsFound};
ghost use Rattle.fmp_witness.specs.Asked.{asked_of};

use crate::crew::{Alone, Crew, Workers};
use crate::finding::{add_stuck, confirmed, shortest_alone};
use crate::notes::is_beside;
use crate::searches::Search;
use crate::searching::{Ending, SearchWatcher};
use crate::stuck::{SearchLimit, Suspicions, suspected};
use crate::values::Variety;
use fmp_image_bytes::Image;
use fmp_question::Question;
use fmp_witness::{Coverage, Finding, SearchSubject};
use std::alloc::{AllocError, Global};
use std::thread::Threads;

/// Whether stuck tasks were looked for after a search.
#[derive(Clone, Copy)]
pub enum StuckSearch {
    /// They were looked for: every state was examined, and each task that seemed to be stuck is a finding or is not
    /// stuck. If one is enough, those after the first were not looked at.
    Done,
    /// They were not looked for: some state was not examined, or something else was found and no more was asked for.
    Skipped,
    /// The search for them stopped at this limit. Those that were found before are reported.
    Stopped(SearchLimit),
}

/// What a search came to.
#[derive(Drop)]
pub struct Report {
    /// What was found, in the order in which it was found: the shortest first.
    pub findings: Vec<Finding>,
    /// Why the search ended.
    pub ending: Ending,
    /// Whether no schedule reaches a deadlock, and along none happens what must never happen: every state was
    /// examined, and nothing was found.
    pub holds: bool,
    /// Whether stuck tasks were looked for.
    pub stuck_search: StuckSearch,
    /// How many states were kept.
    pub states: usize,
    /// How many events did something.
    pub events: u64,
    /// How many events lead to the deepest state.
    pub depth: u32,
    /// Whether in a state that can go on only by an interrupt a task that may not rest waits, and can go on later.
    /// False where stuck tasks were not looked for.
    pub waits: bool,
    /// Which calls were ever made, and which answers and values came up.
    pub coverage: Coverage,
    /// For each monitor of the question, whether what its sentence speaks of ever came, so that it says something.
    pub premises: Vec<bool>,
    /// How many values each field of a state has, where the search stopped at a limit.
    pub varieties: Vec<Variety>,
}

/// The table of values, where the search stopped at a limit; none where there is no memory for it.
fn table(alloc: Global, search: &Search, ending: Ending) -> Vec<Variety> {
    match ending {
        Ending::Complete | Ending::Found => Vec::new(alloc),
        Ending::StateLimit | Ending::TimeLimit | Ending::OutOfMemory => {
            match search.varieties() {
                Ok(table) => table,
                Err(_) => Vec::new(alloc),
            }
        }
    }
}

/// All that was noted, or the first of the shortest alone, as is asked.
fn asked_for(
    alloc: Global,
    question: &Question,
    candidates: Vec<Finding>,
) -> Result<Vec<Finding>, AllocError> {
    if question.all {
        Ok(candidates)
    } else {
        shortest_alone(alloc, candidates)
    }
}

/// Whether a search that ended so has examined every state.
fn is_complete(ending: Ending) -> bool
    ensures { IsTrue result → ending ≡ Ending.Complete }
{
    match ending {
        Ending::Complete => true,
        Ending::Found | Ending::StateLimit | Ending::TimeLimit | Ending::OutOfMemory => false,
    }
}

/// What a search has found.
#[derive(Drop)]
struct SearchFindings {
    findings: Vec<Finding>,
    stuck_search: StuckSearch,
    /// Whether a task waits for an interrupt.
    waits: bool,
}

/// Other findings, where stuck tasks were not looked for, or there was no memory to look.
fn without_stuck(findings: Vec<Finding>, stuck_search: StuckSearch) -> SearchFindings
    ensures findings { result.findings ≡ findings }
    ensures stuck { result.stuck_search ≡ stuck_search }
    ensures waits { result.waits ≡ false }
{
    SearchFindings {
        findings,
        stuck_search,
        waits: false,
    }
}

/// Other findings and, of what seems to be so after a search in which every state was examined, the tasks that are
/// stuck: all of them, or the first alone, as is asked.
fn with_stuck<W: SearchWatcher>(
    alloc: Global,
    subject: &SearchSubject<'_>,
    mut findings: Vec<Finding>,
    more: Suspicions,
    watcher: &mut W,
) -> SearchFindings
    requires found { AreFound (asked_of subject.now) findings.items }
    ensures { AreFound (asked_of subject.now) result.findings.items }
{
    let added = add_stuck(alloc, subject, &mut findings, more.findings, watcher);
    let stuck_search = match added {
        Ok(()) => StuckSearch::Done,
        Err(limit) => StuckSearch::Stopped(limit),
    };
    SearchFindings {
        findings,
        stuck_search,
        waits: more.waits,
    }
}

/// Whether stuck tasks are looked for after a search that has ended so with these candidates.
fn is_open(question: &Question, ending: Ending, candidates: &[Finding]) -> bool
    ensures { IsTrue result → ending ≡ Ending.Complete }
{
    is_complete(ending) && (question.all || candidates.iter().all(|found| is_beside(found)))
}

/// The findings of a search that has ended, which forgets them. Stuck tasks are looked for where every state was
/// examined, and more is asked for.
fn findings_of<W: SearchWatcher>(
    alloc: Global,
    subject: &SearchSubject<'_>,
    search: &mut Search,
    ending: Ending,
    watcher: &mut W,
) -> Result<SearchFindings, AllocError>
    ensures found { IfOk result (λ found. AreFound (asked_of subject.now) found.findings.items) }
    ensures stuck { IfOk result (λ found. found.stuck_search ≢ StuckSearch.Skipped → ending ≡ Ending.Complete) }
{
    let question = subject.question;
    let candidates = asked_for(alloc, question, search.take_candidates()?)?;
    let goes_on = is_open(question, ending, &candidates);
    let findings = confirmed(alloc, subject, candidates)?;
    if !goes_on {
        return Ok(without_stuck(findings, StuckSearch::Skipped));
    }
    let Ok(more) = suspected(alloc, search, subject.image.system(), question) else {
        let limit = SearchLimit::Memory;
        return Ok(without_stuck(findings, StuckSearch::Stopped(limit)));
    };
    Ok(with_stuck(alloc, subject, findings, more, watcher))
}

/// Whether a search that ended so shows that nothing is found along any schedule.
fn shows_all(search: &Search, question: &Question, ending: Ending) -> bool
    ensures ending { IsTrue result → ending ≡ Ending.Complete }
    ensures sure { IsTrue result → search.now.sure ≡ true }
    ensures after { IsTrue result → question.now.after.items ≡ [] }
{
    match ending {
        Ending::Complete => search.sure && question.after.is_empty(),
        Ending::Found | Ending::StateLimit | Ending::TimeLimit | Ending::OutOfMemory => false,
    }
}

/// The report of a search that has ended, which forgets what it noted.
fn make_report<W: SearchWatcher>(
    alloc: Global,
    subject: &SearchSubject<'_>,
    search: &mut Search,
    ending: Ending,
    watcher: &mut W,
) -> Result<Report, AllocError>
    requires holds { ending ≡ Ending.Complete → search.old.sure ≡ true →
        subject.now.question.now.after.items ≡ [] → NoneIsFound (asked_of subject.now) }
    ensures findings { IfOk result (λ r. AreFound (asked_of subject.now) r.findings.items) }
    ensures holds { IfOk result (λ r. r.holds ≡ true → NoneIsFound (asked_of subject.now)) }
    ensures stuck { IfOk result (λ r. r.stuck_search ≢ StuckSearch.Skipped → r.ending ≡ Ending.Complete) }
{
    let holds = shows_all(search, subject.question, ending);
    let found = findings_of(alloc, subject, search, ending, watcher)?;
    Ok(Report {
        findings: found.findings,
        ending,
        holds,
        stuck_search: found.stuck_search,
        states: search.seen.len(),
        events: search.notes.events,
        depth: search.depth(),
        waits: found.waits,
        coverage: search.take_coverage(),
        premises: search.take_premises(),
        varieties: table(alloc, search, ending),
    })
}

/// Starts a search, in which the local at the out place of a call counts as written by every reply, or by E_OK alone.
/// It has seen the state in which it begins.
pub fn start_search(
    alloc: Global,
    outs: bool,
    subject: &SearchSubject<'_>,
) -> Result<Search, AllocError>
    ensures { IfOk result (IsBegun (asked_of subject.now)) }
{
    let mut search = Search::new(alloc, outs, subject)?;
    search.begin(subject)?;
    Ok(search)
}

/// Runs a search to its end: why it ended.
pub fn run_search<W: SearchWatcher, C: Crew>(
    crew: &C,
    search: &mut Search,
    subject: &SearchSubject<'_>,
    watcher: &mut W,
) -> Ending
    requires begun { IsBegun (asked_of subject.now) search.old }
    requires crew { C.can_work crew.now }
    ensures { HasEnded (asked_of subject.now) search.new result }
{
    match search.run(crew, subject, watcher) {
        Ok(ending) => ending,
        Err(_) => Ending::OutOfMemory,
    }
}

/// Explores the schedules of an image in one search, in which the local at the out place of a call counts as written by
/// every reply. None where a reply left one as it was.
fn explore_written<W: SearchWatcher, C: Crew>(
    alloc: Global,
    crew: &C,
    subject: &SearchSubject<'_>,
    watcher: &mut W,
) -> Result<Option<Report>, AllocError>
    requires { C.can_work crew.now }
    ensures findings { IfOk result (λ found. IfSome found (λ r. AreFound (asked_of subject.now) r.findings.items)) }
    ensures holds { IfOk result (λ found. IfSome found (λ r. r.holds ≡ true → NoneIsFound (asked_of subject.now))) }
    ensures stuck { IfOk result (λ found. IfSome found
        (λ r. r.stuck_search ≢ StuckSearch.Skipped → r.ending ≡ Ending.Complete)) }
{
    let mut search = start_search(alloc, true, subject)?;
    let ending = run_search(crew, &mut search, subject, watcher);
    if search.unwritten {
        return Ok(None);
    }
    let report = make_report(alloc, subject, &mut search, ending, watcher)?;
    Ok(Some(report))
}

/// The same, in a search in which it counts as written by E_OK alone.
fn explore_plainly<W: SearchWatcher, C: Crew>(
    alloc: Global,
    crew: &C,
    subject: &SearchSubject<'_>,
    watcher: &mut W,
) -> Result<Report, AllocError>
    requires { C.can_work crew.now }
    ensures findings { IfOk result (λ r. AreFound (asked_of subject.now) r.findings.items) }
    ensures holds { IfOk result (λ r. r.holds ≡ true → NoneIsFound (asked_of subject.now)) }
    ensures stuck { IfOk result (λ r. r.stuck_search ≢ StuckSearch.Skipped → r.ending ≡ Ending.Complete) }
{
    let mut search = start_search(alloc, false, subject)?;
    let ending = run_search(crew, &mut search, subject, watcher);
    make_report(alloc, subject, &mut search, ending, watcher)
}

/// Explores the schedules of an image in one search; in another one too, where a reply left an out place as it was.
fn explore_subject<W: SearchWatcher, C: Crew>(
    alloc: Global,
    crew: &C,
    subject: &SearchSubject<'_>,
    watcher: &mut W,
) -> Result<Report, AllocError>
    requires { C.can_work crew.now }
    ensures findings { IfOk result (λ r. AreFound (asked_of subject.now) r.findings.items) }
    ensures holds { IfOk result (λ r. r.holds ≡ true → NoneIsFound (asked_of subject.now)) }
    ensures stuck { IfOk result (λ r. r.stuck_search ≢ StuckSearch.Skipped → r.ending ≡ Ending.Complete) }
{
    match explore_written(alloc, crew, subject, watcher)? {
        Some(report) => Ok(report),
        None => explore_plainly(alloc, crew, subject, watcher),
    }
}

/// Explores the schedules of an image, in which a stretch of a body takes at most n instructions. Each finding is true:
/// its events do something, one after the other, and after them it is seen. If the report holds, no schedule that the
/// question allows tells a forbidden line, gives a call an answer that it must never get, breaks a sentence, or reaches
/// a deadlock, however long it is. If it does not hold and has no finding, nothing is claimed. Stuck tasks are looked
/// for only where every state was examined, and no longer than the watcher gives time. `AllocError` if there is no
/// memory to begin with, or for the findings.
pub fn explore<W: SearchWatcher>(
    alloc: Global,
    image: &Image,
    n: u64,
    question: &Question,
    watcher: &mut W,
) -> Result<Report, AllocError>
    ensures findings { IfOk result (λ r. All (IsFound image.now n question.now) r.findings.items) }
    ensures holds { IfOk result (λ r. r.holds ≡ true → Holds (rules_of question.now) image.now.system
        (code_meaning image.now.code) n (forbids question.now.nevers.items) question.now.rest.items) }
    ensures there { IfOk result (λ r. r.holds ≡ true → HoldsThere (rules_of question.now) image.now.system
        (code_meaning image.now.code) n (forbids question.now.nevers.items)
        (forbids_there image.now.system question.now.nevers_at.items)) }
    ensures stuck { IfOk result (λ r. r.stuck_search ≢ StuckSearch.Skipped → r.ending ≡ Ending.Complete) }
{
    let subject = SearchSubject { image, n, question };
    explore_subject(alloc, &Alone, &subject, watcher)
}

/// As `explore`, by as many threads as there are jobs, or by one if no other can be made. The result is the same for
/// each number of jobs, unless its time runs out.
pub fn explore_beside<W: SearchWatcher, R: Threads + Sync>(
    alloc: Global,
    rt: &R,
    jobs: usize,
    image: &Image,
    n: u64,
    question: &Question,
    watcher: &mut W,
) -> Result<Report, AllocError>
    ensures findings { IfOk result (λ r. All (IsFound image.now n question.now) r.findings.items) }
    ensures holds { IfOk result (λ r. r.holds ≡ true → Holds (rules_of question.now) image.now.system
        (code_meaning image.now.code) n (forbids question.now.nevers.items) question.now.rest.items) }
    ensures there { IfOk result (λ r. r.holds ≡ true → HoldsThere (rules_of question.now) image.now.system
        (code_meaning image.now.code) n (forbids question.now.nevers.items)
        (forbids_there image.now.system question.now.nevers_at.items)) }
    ensures stuck { IfOk result (λ r. r.stuck_search ≢ StuckSearch.Skipped → r.ending ≡ Ending.Complete) }
{
    let subject = SearchSubject { image, n, question };
    explore_subject(alloc, &Workers { rt, jobs }, &subject, watcher)
}
