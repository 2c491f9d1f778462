//! Which of the candidates that a search has noted are true, and which of them are reported.
ghost use Rattle.std.specs.Prelude.{◌≡◌, [], ◌∷◌, ◌++◌, IfOk, IsTrue, OnErr, OnOk};
ghost use Rattle.fmp_witness.specs.Findings.{IsSo};
ghost use Rattle.fmp_witness.specs.Asked.{asked_of};
ghost use Rattle.fmp_explore.specs.Searching.{AreFound};

use crate::notes::is_beside;
use crate::searching::SearchWatcher;
use crate::stuck::{SearchLimit, is_stuck};
use fmp_base::Event;
use fmp_replay::kernel_of;
use fmp_witness::{Finding, FindingKind, SearchSubject, is_so};
use std::alloc::{AllocError, Global};

/// Whether each of these events does something, and this is known to be seen after them. The answer no claims nothing.
/// `AllocError` if memory runs out.
fn is_shown(
    alloc: Global,
    subject: &SearchSubject<'_>,
    steps: &[Event],
    kind: FindingKind,
) -> Result<bool, AllocError>
    ensures { IfOk result (λ found. IsTrue found → IsSo (asked_of subject.now) steps.now kind) }
{
    let mut kernel = kernel_of(alloc, subject.image, subject.n)?;
    let shown = is_so(&mut kernel, subject, steps, kind);
    drop(kernel);
    Ok(shown)
}

/// Whether a finding is so. `AllocError` if memory runs out.
fn is_found(
    alloc: Global,
    subject: &SearchSubject<'_>,
    finding: &Finding,
) -> Result<bool, AllocError>
    ensures { IfOk result (λ found. IsTrue found →
        IsSo (asked_of subject.now) finding.now.steps.items finding.now.kind) }
{
    is_shown(alloc, subject, &finding.steps, finding.kind)
}

/// Adds a finding to others, if it is so. `AllocError` if memory runs out: then the others stay alone.
fn add_if_found(
    alloc: Global,
    subject: &SearchSubject<'_>,
    findings: &mut Vec<Finding>,
    finding: Finding,
) -> Result<(), AllocError>
    requires found { AreFound (asked_of subject.now) findings.old.items }
    ensures { AreFound (asked_of subject.now) findings.new.items }
{
    let found = is_found(alloc, subject, &finding)?;
    if !found {
        return Ok(());
    }
    findings.push(finding)?;
    Ok(())
}

/// The candidates that are true; stuck tasks are left out. `AllocError` if memory runs out.
pub fn confirmed(
    alloc: Global,
    subject: &SearchSubject<'_>,
    candidates: Vec<Finding>,
) -> Result<Vec<Finding>, AllocError>
    ensures { IfOk result (λ findings. AreFound (asked_of subject.now) findings.items) }
{
    let mut findings = Vec::new(alloc);
    for candidate in candidates {
        add_if_found(alloc, subject, &mut findings, candidate)?;
    }
    Ok(findings)
}

/// Whether each of these events does something, and this task is stuck after them. The limit at which the search for
/// that stops, if it ends before it knows.
fn is_stuck_after<W: SearchWatcher>(
    alloc: Global,
    subject: &SearchSubject<'_>,
    steps: &[Event],
    t: u8,
    watcher: &mut W,
) -> Result<bool, SearchLimit>
    ensures { IfOk result (λ stuck. IsTrue stuck → IsSo (asked_of subject.now) steps.now (FindingKind.Stuck t)) }
{
    let mut kernel = kernel_of(alloc, subject.image, subject.n)?;
    let stuck = is_stuck(alloc, &mut kernel, subject, steps, t, watcher);
    drop(kernel);
    stuck
}

/// Whether a finding is a task that is stuck. The limit at which the search for that stops, if it ends before it knows.
fn is_found_stuck<W: SearchWatcher>(
    alloc: Global,
    subject: &SearchSubject<'_>,
    finding: &Finding,
    watcher: &mut W,
) -> Result<bool, SearchLimit>
    ensures { IfOk result (λ found. IsTrue found →
        IsSo (asked_of subject.now) finding.now.steps.items finding.now.kind) }
{
    if let FindingKind::Stuck(t) = finding.kind {
        return is_stuck_after(alloc, subject, &finding.steps, t, watcher);
    }
    Ok(false)
}

/// Adds a finding to others. `AllocError` if memory runs out.
fn add(findings: &mut Vec<Finding>, finding: Finding) -> Result<(), AllocError>
    ensures ok { OnOk result (findings.new.items ≡ findings.old.items ++ finding ∷ []) }
    ensures err { OnErr result (findings.new.items ≡ findings.old.items) }
{
    findings.push(finding)?;
    Ok(())
}

/// Adds a finding to others, if it is a task that is stuck. The limit at which the search for that stops, if it ends
/// before it knows.
fn add_if_stuck<W: SearchWatcher>(
    alloc: Global,
    subject: &SearchSubject<'_>,
    findings: &mut Vec<Finding>,
    finding: Finding,
    watcher: &mut W,
) -> Result<(), SearchLimit>
    requires found { AreFound (asked_of subject.now) findings.old.items }
    ensures { AreFound (asked_of subject.now) findings.new.items }
{
    let found = is_found_stuck(alloc, subject, &finding, watcher)?;
    if !found {
        return Ok(());
    }
    add(findings, finding)?;
    Ok(())
}

/// Adds the tasks that are stuck, of those that seem to be so, to other findings: all of them if more are asked for, or
/// the first alone. The limit at which a search for that stops, if it ends before it knows: then those up to there are
/// added.
pub fn add_stuck<W: SearchWatcher>(
    alloc: Global,
    subject: &SearchSubject<'_>,
    findings: &mut Vec<Finding>,
    suspects: Vec<Finding>,
    watcher: &mut W,
) -> Result<(), SearchLimit>
    requires found { AreFound (asked_of subject.now) findings.old.items }
    ensures { AreFound (asked_of subject.now) findings.new.items }
{
    let known = findings.len();
    for suspect in suspects {
        if !subject.question.all && findings.len() > known {
            return Ok(());
        }
        add_if_stuck(alloc, subject, findings, suspect, watcher)?;
    }
    Ok(())
}

/// The place of the first of the shortest findings, but for those beside which a search goes on; after all of them if
/// there is no other.
fn shortest(findings: &[Finding]) -> usize {
    let mut place = findings.len();
    let mut least = usize::MAX;
    for (i, finding) in findings.iter().enumerate() {
        if finding.steps.len() < least && !is_beside(finding) {
            least = finding.steps.len();
            place = i;
        }
    }
    place
}

/// The first of the shortest findings, and those beside which a search goes on. `AllocError` if memory runs out.
pub fn shortest_alone(alloc: Global, findings: Vec<Finding>) -> Result<Vec<Finding>, AllocError> {
    let place = shortest(&findings);
    let mut alone = Vec::new(alloc);
    for (i, finding) in findings.into_iter().enumerate() {
        if i == place || is_beside(&finding) {
            alone.push(finding)?;
        }
    }
    Ok(alone)
}
