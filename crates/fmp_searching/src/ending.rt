//! How a search of all schedules ended: its status, and what is said at its end.
ghost use Rattle.std.specs.Prelude.{◌≡◌, ◌++◌, [], OnOk, false, true};
ghost use Rattle.std.specs.List.{list_any};
ghost use Rattle.fmp_searching.specs.Claims as spec;
ghost use Rattle.fmp_searching.specs.Claims.{claim_tables};

use crate::claiming::append_claim;
use crate::sources::Claim;
use fmp_explore::{Ending, Finding, FindingKind, Question, Report, SearchLimit, StuckSearch};
use fmp_json::{append, append_number};
use std::alloc::{AllocError, Global};

/// What is said of a search that found nothing and claims nothing, though it was not stopped.
const UNCONFIRMED: &[u8] =
    b"nothing was found, and nothing is claimed: what seemed to be found could not be confirmed\n";

/// Whether stuck tasks were looked for.
pub fn is_done(stuck_search: StuckSearch) -> bool
    ensures { result ≡ spec.is_done stuck_search }
{
    match stuck_search {
        StuckSearch::Done => true,
        StuckSearch::Skipped | StuckSearch::Stopped(_) => false,
    }
}

/// The status of a search: 4 where something was found, or what is unsaid counts so; 0 where the report holds and stuck
/// tasks were looked for; else 5.
pub fn status_of(unsaid: bool, report: &Report) -> u8
    ensures value { result ≡ spec.status_of unsaid report.now }
    ensures clean { result ≡ 0 → (report.now.findings.items ≡ []) × (report.now.holds ≡ true)
        × (spec.is_done report.now.stuck_search ≡ true) × (unsaid ≡ false) }
{
    if unsaid || !report.findings.is_empty() {
        return 4;
    }
    if report.holds && is_done(report.stuck_search) {
        0
    } else {
        5
    }
}

/// Whether what was found is a stuck task.
fn is_stuck(finding: &Finding) -> bool
    ensures { result ≡ spec.is_stuck finding.now }
{
    match finding.kind {
        FindingKind::Stuck(_) => true,
        _ => false,
    }
}

/// Whether one of these findings is a stuck task.
fn has_stuck(findings: &[Finding]) -> bool
    ensures { result ≡ list_any (λ f. spec.is_stuck f) findings.now }
{
    for finding in findings {
        if is_stuck(finding) {
            return true;
        }
    }
    false
}

/// The word for this many states.
#[tactic(auto, unfolding(crate::specs::Claims::state_word))]
fn state_word(count: u32) -> &'static [u8]
    ensures { result.now ≡ spec.state_word count }
{
    if count == 1 {
        b" state (--states)\n"
    } else {
        b" states (--states)\n"
    }
}

/// The word for this many seconds.
#[tactic(auto, unfolding(crate::specs::Claims::second_word))]
fn second_word(count: u32) -> &'static [u8]
    ensures { result.now ≡ spec.second_word count }
{
    if count == 1 {
        b" second (--time)\n"
    } else {
        b" seconds (--time)\n"
    }
}

/// Appends a number of states at which a search stops.
#[tactic(auto, unfolding(crate::specs::Claims::states_limit))]
fn append_states_limit(count: u32, out: &mut Vec<u8>) -> Result<(), AllocError>
    ensures { OnOk result (out.new.items ≡ out.old.items ++ spec.states_limit count) }
{
    append_number(u64::from(count), out)?;
    append(state_word(count), out)
}

/// Appends a number of seconds after which a search stops.
#[tactic(auto, unfolding(crate::specs::Claims::seconds_limit))]
fn append_seconds_limit(count: u32, out: &mut Vec<u8>) -> Result<(), AllocError>
    ensures { OnOk result (out.new.items ≡ out.old.items ++ spec.seconds_limit count) }
{
    append_number(u64::from(count), out)?;
    append(second_word(count), out)
}

/// Appends the limit at which a search for a question stopped.
#[tactic(auto, unfolding(crate::specs::Claims::limit_text))]
fn append_limit(
    question: &Question,
    limit: SearchLimit,
    out: &mut Vec<u8>,
) -> Result<(), AllocError>
    ensures { OnOk result (out.new.items ≡ out.old.items ++ spec.limit_text question.now limit) }
{
    match limit {
        SearchLimit::States => append_states_limit(question.states, out),
        SearchLimit::Time => append_seconds_limit(question.seconds.unwrap_or(0), out),
        SearchLimit::Memory => append(b"out of memory\n", out),
    }
}

/// Appends that the search for stuck tasks stopped at this limit.
#[tactic(auto, unfolding(crate::specs::Claims::stopped_text))]
fn append_stopped(
    question: &Question,
    limit: SearchLimit,
    out: &mut Vec<u8>,
) -> Result<(), AllocError>
    ensures { OnOk result (out.new.items ≡ out.old.items ++ spec.stopped_text question.now limit) }
{
    append(b"stuck tasks were not looked for: ", out)?;
    append_limit(question, limit, out)
}

/// Appends why stuck tasks were not looked for; nothing if they were.
#[tactic(auto, unfolding(crate::specs::Claims::unlooked_text))]
pub fn append_unlooked(
    question: &Question,
    stuck_search: StuckSearch,
    out: &mut Vec<u8>,
) -> Result<(), AllocError>
    ensures { OnOk result (out.new.items ≡ out.old.items ++ spec.unlooked_text question.now stuck_search) }
{
    match stuck_search {
        StuckSearch::Done => Ok(()),
        StuckSearch::Skipped => append(b"stuck tasks were not looked for\n", out),
        StuckSearch::Stopped(limit) => append_stopped(question, limit, out),
    }
}

/// Appends what is said of stuck tasks beside the claim of a search for a question.
#[tactic(auto, unfolding(crate::specs::Claims::stuck_note))]
fn append_stuck_note(
    question: &Question,
    report: &Report,
    out: &mut Vec<u8>,
) -> Result<(), AllocError>
    ensures { OnOk result (out.new.items ≡ out.old.items ++ spec.stuck_note question.now report.now) }
{
    if !is_done(report.stuck_search) {
        return append_unlooked(question, report.stuck_search, out);
    }
    if has_stuck(&report.findings) {
        return Ok(());
    }
    append(b"no stuck task was found (searched, not proved)\n", out)
}

/// Appends that a search stopped at this many states.
#[tactic(auto, unfolding(crate::specs::Claims::states_text))]
fn append_states(count: u32, out: &mut Vec<u8>) -> Result<(), AllocError>
    ensures { OnOk result (out.new.items ≡ out.old.items ++ spec.states_text count) }
{
    append(b"stopped at ", out)?;
    append_states_limit(count, out)
}

/// Appends that a search stopped after this many seconds.
#[tactic(auto, unfolding(crate::specs::Claims::seconds_text))]
fn append_seconds(count: u32, out: &mut Vec<u8>) -> Result<(), AllocError>
    ensures { OnOk result (out.new.items ≡ out.old.items ++ spec.seconds_text count) }
{
    append(b"stopped after ", out)?;
    append_seconds_limit(count, out)
}

/// Appends how a search for a question ended that claims nothing, and found something or not.
#[tactic(auto, unfolding(crate::specs::Claims::end_text))]
pub fn append_end(
    question: &Question,
    ending: Ending,
    found: bool,
    out: &mut Vec<u8>,
) -> Result<(), AllocError>
    ensures { OnOk result (out.new.items ≡ out.old.items ++ spec.end_text question.now ending found) }
{
    match ending {
        Ending::StateLimit => append_states(question.states, out),
        Ending::TimeLimit => append_seconds(question.seconds.unwrap_or(0), out),
        Ending::OutOfMemory => append(b"stopped: out of memory\n", out),
        Ending::Complete | Ending::Found if found => Ok(()),
        Ending::Complete | Ending::Found => append(UNCONFIRMED, out),
    }
}

/// Appends what a search says at its end: its claim, if its report holds, and what is said of stuck tasks; or why it
/// claims nothing. `AllocError` if memory runs out.
#[tactic(auto, unfolding(crate::specs::Claims::ending_text))]
pub fn append_ending(
    alloc: Global,
    claim: &Claim<'_>,
    report: &Report,
    out: &mut Vec<u8>,
) -> Result<(), AllocError>
    ensures { OnOk result (out.new.items ≡ out.old.items ++ spec.ending_text (claim_tables claim.now) report.now) }
{
    if report.holds {
        append_claim(alloc, claim, report, out)?;
        return append_stuck_note(claim.question, report, out);
    }
    append_end(
        claim.question,
        report.ending,
        !report.findings.is_empty(),
        out,
    )
}
