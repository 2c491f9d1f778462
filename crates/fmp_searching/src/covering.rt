//! What a search saw: how far it went, what was never made or run, the greatest counts and lengths, and the answers.
ghost use Rattle.std.specs.Prelude.{◌≡◌, ◌++◌, IfOk, OnOk, codes, decimal, map};
ghost use Rattle.std.specs.List.{flat_map};
ghost use Rattle.fmp_base.specs.Systems.{tables_of};
ghost use Rattle.fmp_frames.specs.Refusals.{refused_calls};
ghost use Rattle.fmp_searching.specs.Extent as spec;
ghost use Rattle.fmp_searching.specs.Lines.{numbered};
ghost use Rattle.fmp_searching.specs.Made.{answered_call};
ghost use Rattle.fmp_searching.specs.Sources.{source_tables};

use crate::answers::{Answered, append_answers};
use crate::counts::Count;
use crate::made::{SeenCalls, seen_calls};
use crate::refused::say_refused;
use crate::sources::{ExploredSources, say, say_call};
use crate::unsaid::is_complete;
use fmp_base::{Name, System};
use fmp_explore::{CallSite, Report};
use fmp_frames::SiteAnswer;
use fmp_json::append_number;
use fmp_scopes::HasName;
use std::alloc::{AllocError, Global};

/// What ends the noun of a count.
#[tactic(auto, unfolding(crate::specs::Extent::plural))]
fn plural(count: u64) -> &'static str
    ensures { result.now ≡ spec.plural count }
{
    if count == 1 { "" } else { "s" }
}

/// Appends how many there are of what this word names.
fn say_counted(out: &mut Vec<u8>, count: u64, word: &str) -> Result<(), AllocError>
    ensures { OnOk result (out.new.items ≡ out.old.items
        ++ (decimal count ++ (word.now ++ spec.plural count))) }
{
    append_number(count, out)?;
    say(out, word)?;
    say(out, plural(count))
}

/// Appends how many events lead to the deepest state.
fn say_depth(out: &mut Vec<u8>, depth: u32) -> Result<(), AllocError>
    ensures { OnOk result (out.new.items ≡ out.old.items
        ++ (codes ", " ++ (decimal depth ++ codes " deep\n"))) }
{
    say(out, ", ")?;
    append_number(u64::from(depth), out)?;
    say(out, " deep\n")
}

/// Appends how far a search went.
#[tactic(auto, unfolding(crate::specs::Extent::extent_line))]
fn say_reach(out: &mut Vec<u8>, states: u64, events: u64, depth: u32) -> Result<(), AllocError>
    ensures { OnOk result (out.new.items ≡ out.old.items ++ spec.extent_line states events depth) }
{
    say_counted(out, states, " state")?;
    say(out, ", ")?;
    say_counted(out, events, " event")?;
    say_depth(out, depth)
}

/// Appends that a task waits for an interrupt, if one does.
fn say_waits(out: &mut Vec<u8>, waits: bool) -> Result<(), AllocError>
    ensures { OnOk result (out.new.items ≡ out.old.items ++ spec.waits_line waits) }
{
    if waits {
        say(out, "a task waits for an interrupt\n")
    } else {
        Ok(())
    }
}

/// Appends how much a search saw.
pub fn say_extent(out: &mut Vec<u8>, report: &Report) -> Result<(), AllocError>
    ensures { OnOk result (out.new.items ≡ out.old.items ++ (spec.waits_line report.now.waits
        ++ spec.extent_line report.now.states report.now.events report.now.depth)) }
{
    say_waits(out, report.waits)?;
    say_reach(out, report.states as u64, report.events, report.depth)
}

/// Appends a call that was never made, in a line.
#[tactic(auto, unfolding(crate::specs::Extent::unmade_line))]
fn say_unmade_call(
    out: &mut Vec<u8>,
    sources: &ExploredSources<'_>,
    site: CallSite,
) -> Result<(), AllocError>
    ensures { OnOk result (out.new.items
        ≡ out.old.items ++ spec.unmade_line (source_tables sources.now) site) }
{
    say(out, "call never made: ")?;
    say_call(out, sources, site)?;
    say(out, "\n")
}

/// Appends each of these calls in a line, which were never made.
fn say_unmade_calls(
    out: &mut Vec<u8>,
    sources: &ExploredSources<'_>,
    sites: &[CallSite],
) -> Result<(), AllocError>
    ensures { OnOk result (out.new.items
        ≡ out.old.items ++ flat_map (λ site. spec.unmade_line (source_tables sources.now) site) sites.now) }
{
    for site in sites {
        say_unmade_call(out, sources, *site)?;
    }
    Ok(())
}

/// Appends a text and a number in a line.
fn say_number(out: &mut Vec<u8>, text: &str, number: usize) -> Result<(), AllocError>
    ensures { OnOk result (out.new.items ≡ out.old.items ++ (text.now ++ (decimal number ++ codes "\n"))) }
{
    say(out, text)?;
    append_number(number as u64, out)?;
    say(out, "\n")
}

/// Appends how many calls were not made before a search ended early.
#[tactic(auto, unfolding(crate::specs::Extent::count_line))]
fn say_unmade_count(out: &mut Vec<u8>, count: usize) -> Result<(), AllocError>
    ensures { OnOk result (out.new.items ≡ out.old.items ++ spec.count_line count) }
{
    say_number(out, "calls never made so far: ", count)
}

/// Appends the calls that were never made, each in a line; of a search that ended early how many there are.
fn say_unmade(
    out: &mut Vec<u8>,
    sources: &ExploredSources<'_>,
    whole: bool,
    sites: &[CallSite],
) -> Result<(), AllocError>
    ensures { OnOk result (out.new.items
        ≡ out.old.items ++ spec.unmade_text (source_tables sources.now) whole sites.now) }
{
    if whole {
        return say_unmade_calls(out, sources, sites);
    }
    if sites.is_empty() {
        return Ok(());
    }
    say_unmade_count(out, sites.len())
}

/// Appends the answers that each of these calls got, if they are asked for.
fn say_answers(
    out: &mut Vec<u8>,
    sources: &ExploredSources<'_>,
    calls: &[Answered],
) -> Result<(), AllocError>
    ensures { OnOk result (out.new.items
        ≡ out.old.items ++ spec.asked_answers (source_tables sources.now) (map answered_call calls.now)) }
{
    if sources.named.answers {
        append_answers(sources.named.src.as_bytes(), calls, out)
    } else {
        Ok(())
    }
}

/// Appends a line of these words after a title, if there are any.
fn say_row(out: &mut Vec<u8>, title: &str, words: &[u8]) -> Result<(), AllocError>
    ensures { OnOk result (out.new.items ≡ out.old.items ++ spec.row_text title.now words.now) }
{
    if words.is_empty() {
        return Ok(());
    }
    say(out, title)?;
    out.extend_from_slice(words)?;
    say(out, "\n")
}

/// Appends a name after a blank, unless what has it ran.
#[tactic(auto, unfolding(crate::specs::Extent::unrun_word))]
fn say_unrun_word(out: &mut Vec<u8>, name: Name, ran: bool) -> Result<(), AllocError>
    ensures { OnOk result (out.new.items ≡ out.old.items ++ spec.unrun_word name ran) }
{
    if ran {
        return Ok(());
    }
    say(out, " ")?;
    out.extend_from_slice(name.as_bytes())
}

/// Appends the names of the rows of a table that never ran.
#[tactic(auto, using(crate::proofs::SeenLists::numbered_at))]
fn say_unrun_rows<T: HasName>(out: &mut Vec<u8>, rows: &[T], ran: &[bool]) -> Result<(), AllocError>
    ensures { OnOk result (out.new.items
        ≡ out.old.items ++ numbered (λ _ x ran. spec.unrun_word (T.name_of x) ran) 0 rows.now ran.now) }
{
    let count = rows.len().min(ran.len());
    for i in 0..count {
        say_unrun_word(out, *rows[i].name(), ran[i])?;
    }
    Ok(())
}

/// Appends the tasks and the cyclic handlers that never ran.
fn say_unrun(
    alloc: Global,
    out: &mut Vec<u8>,
    sys: &System,
    report: &Report,
) -> Result<(), AllocError>
    ensures { OnOk result (out.new.items ≡ out.old.items ++ spec.unrun_text (tables_of sys.now) report.now) }
{
    let mut words = Vec::new(alloc);
    say_unrun_rows(&mut words, &sys.tasks, &report.coverage.runs.tasks)?;
    say_unrun_rows(&mut words, &sys.cyclics, &report.coverage.runs.cyclics)?;
    say_row(out, "never run:", &words)
}

/// Appends a name after a blank, and its greatest count or length.
#[tactic(auto, unfolding(crate::specs::Extent::peak_words))]
fn say_peak(out: &mut Vec<u8>, name: Name, most: u64) -> Result<(), AllocError>
    ensures { OnOk result (out.new.items ≡ out.old.items ++ spec.peak_words name most) }
{
    say(out, " ")?;
    out.extend_from_slice(name.as_bytes())?;
    say(out, " ")?;
    append_number(most, out)
}

/// Appends the greatest count or length of each row of a table, after its name.
#[tactic(auto, using(crate::proofs::SeenLists::numbered_at))]
fn say_row_peaks<T: HasName, N: Count>(
    out: &mut Vec<u8>,
    rows: &[T],
    peaks: &[N],
) -> Result<(), AllocError>
    ensures { OnOk result (out.new.items ≡ out.old.items
        ++ numbered (λ _ x most. spec.peak_words (T.name_of x) (N.number most)) 0 rows.now peaks.now) }
{
    let count = rows.len().min(peaks.len());
    for i in 0..count {
        say_peak(out, *rows[i].name(), peaks[i].count())?;
    }
    Ok(())
}

/// The greatest count of each semaphore, each after its name.
fn count_words(alloc: Global, sys: &System, report: &Report) -> Result<Vec<u8>, AllocError>
    ensures { IfOk result (λ words. words.items ≡ numbered (λ _ x most. spec.peak_words x.name most) 0
        (tables_of sys.now).semaphores report.now.coverage.peaks.counts.items) }
{
    let mut words = Vec::new(alloc);
    say_row_peaks(&mut words, &sys.semaphores, &report.coverage.peaks.counts)?;
    Ok(words)
}

/// Appends the greatest count of each semaphore.
fn say_counts(
    alloc: Global,
    out: &mut Vec<u8>,
    sys: &System,
    report: &Report,
) -> Result<(), AllocError>
    ensures { OnOk result (out.new.items ≡ out.old.items ++ spec.counts_text (tables_of sys.now) report.now) }
{
    let words = count_words(alloc, sys, report)?;
    say_row(out, "greatest counts:", &words)
}

/// Appends the greatest length of each data queue and mailbox.
fn say_lengths(
    alloc: Global,
    out: &mut Vec<u8>,
    sys: &System,
    report: &Report,
) -> Result<(), AllocError>
    ensures { OnOk result (out.new.items ≡ out.old.items ++ spec.lengths_text (tables_of sys.now) report.now) }
{
    let mut words = Vec::new(alloc);
    say_row_peaks(&mut words, &sys.data_queues, &report.coverage.peaks.words)?;
    say_row_peaks(&mut words, &sys.mailboxes, &report.coverage.peaks.messages)?;
    say_row(out, "greatest lengths:", &words)
}

/// Appends who never ran, and the greatest counts and lengths.
fn say_rows(
    alloc: Global,
    out: &mut Vec<u8>,
    sys: &System,
    report: &Report,
) -> Result<(), AllocError>
    ensures { OnOk result (out.new.items ≡ out.old.items ++ (spec.unrun_text (tables_of sys.now) report.now
        ++ (spec.counts_text (tables_of sys.now) report.now ++ spec.lengths_text (tables_of sys.now) report.now))) }
{
    say_unrun(alloc, out, sys, report)?;
    say_counts(alloc, out, sys, report)?;
    say_lengths(alloc, out, sys, report)
}

/// Appends who never ran, and the greatest counts and lengths, of the system that was explored.
fn say_rows_of(
    alloc: Global,
    out: &mut Vec<u8>,
    sources: &ExploredSources<'_>,
    report: &Report,
) -> Result<(), AllocError>
    ensures { OnOk result (out.new.items ≡ out.old.items
        ++ (spec.unrun_text (source_tables sources.now).claim.image.system report.now
        ++ (spec.counts_text (source_tables sources.now).claim.image.system report.now
        ++ spec.lengths_text (source_tables sources.now).claim.image.system report.now))) }
{
    say_rows(alloc, out, sources.claim.image.system(), report)
}

/// Appends the calls that are refused, where calls got these answers, and who never ran, and the greatest counts and
/// lengths.
fn say_refused_and_rows(
    alloc: Global,
    out: &mut Vec<u8>,
    sources: &ExploredSources<'_>,
    report: &Report,
    answers: &[SiteAnswer],
) -> Result<(), AllocError>
    ensures { OnOk result (out.new.items ≡ out.old.items
        ++ (flat_map (λ x. spec.refused_line (source_tables sources.now) x)
        (refused_calls (source_tables sources.now).claim.image.code answers.now)
        ++ (spec.unrun_text (source_tables sources.now).claim.image.system report.now
        ++ (spec.counts_text (source_tables sources.now).claim.image.system report.now
        ++ spec.lengths_text (source_tables sources.now).claim.image.system report.now)))) }
{
    say_refused(alloc, out, sources, answers)?;
    say_rows_of(alloc, out, sources, report)
}

/// Appends the codes that calls got, if they are asked for, the calls that are refused, and who never ran, and the
/// greatest counts and lengths.
fn say_answers_and_rows(
    alloc: Global,
    out: &mut Vec<u8>,
    sources: &ExploredSources<'_>,
    report: &Report,
    calls: &SeenCalls,
) -> Result<(), AllocError>
    ensures { OnOk result (out.new.items ≡ out.old.items
        ++ (spec.asked_answers (source_tables sources.now) (map answered_call calls.now.answered.items)
        ++ (flat_map (λ x. spec.refused_line (source_tables sources.now) x)
        (refused_calls (source_tables sources.now).claim.image.code calls.now.answers.items)
        ++ (spec.unrun_text (source_tables sources.now).claim.image.system report.now
        ++ (spec.counts_text (source_tables sources.now).claim.image.system report.now
        ++ spec.lengths_text (source_tables sources.now).claim.image.system report.now))))) }
{
    say_answers(out, sources, &calls.answered)?;
    say_refused_and_rows(alloc, out, sources, report, &calls.answers)
}

/// Appends the by-products of a search, which saw this of the calls.
fn say_coverage(
    alloc: Global,
    out: &mut Vec<u8>,
    sources: &ExploredSources<'_>,
    report: &Report,
    calls: &SeenCalls,
) -> Result<(), AllocError>
    ensures { OnOk result (out.new.items ≡ out.old.items ++ spec.coverage_text (source_tables sources.now) report.now
        calls.now.unmade.items (map answered_call calls.now.answered.items)
        (refused_calls (source_tables sources.now).claim.image.code calls.now.answers.items)) }
{
    say_unmade(out, sources, is_complete(report.ending), &calls.unmade)?;
    say_answers_and_rows(alloc, out, sources, report, calls)
}

/// The by-products of a search.
pub fn coverage_text(
    alloc: Global,
    sources: &ExploredSources<'_>,
    report: &Report,
) -> Result<Vec<u8>, AllocError>
    ensures { IfOk result (λ text. text.items ≡ spec.covered_text (source_tables sources.now) report.now) }
{
    let calls = seen_calls(alloc, sources, &report.coverage)?;
    let mut out = Vec::new(alloc);
    say_coverage(alloc, &mut out, sources, report, &calls)?;
    Ok(out)
}
