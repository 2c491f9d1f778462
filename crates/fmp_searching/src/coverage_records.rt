//! What a search saw, for other programs: objects of JSON, one in a line.
ghost use Rattle.std.specs.Prelude.{◌≡◌, ◌++◌, [], IfOk, OnOk, codes, map, string_bytes};
ghost use Rattle.std.specs.List.{flat_map};
ghost use Rattle.std.specs.Str.Lossy.{utf8_lossy};
ghost use Rattle.fmp_base.specs.Systems.{tables_of};
ghost use Rattle.fmp_frames.specs.Refusals.{refused_calls, refused_of};
ghost use Rattle.fmp_json.specs.Members.{finished, list_begin, list_end};
ghost use Rattle.fmp_searching.specs.Extent.{words_of};
ghost use Rattle.fmp_searching.specs.ExtentRecords as spec;
ghost use Rattle.fmp_searching.specs.Lines.{numbered};
ghost use Rattle.fmp_searching.specs.Made.{answered_call};
ghost use Rattle.fmp_searching.specs.Sources.{source_tables};

use crate::answers::Answered;
use crate::made::{SeenCalls, seen_calls};
use crate::peak_records::{append_named, append_peaks, append_unrun};
use crate::records::{call_position, write_number, write_position};
use crate::refused::refused_in;
use crate::sentences::append_sentence;
use crate::sources::ExploredSources;
use crate::unsaid::{Watched, is_complete, is_unsaid};
use crate::varied::append_varied;
use crate::varieties::{is_varied, most_values};
use fmp_base::{Er, System};
use fmp_explore::{CallSite, Monitor, Report, Variety};
use fmp_frames::{LineForm, RefusedCall, SiteAnswer, append_refused};
use fmp_json::{begin, begin_list, end_list, finish, number_member, text_member};
use fmp_monitors::Sentence;
use fmp_schedules::MonitorSubject;
use json::Writer;
use std::alloc::{AllocError, Global};

/// Appends an object of JSON.
pub fn append_finished(writer: Writer, out: &mut Vec<u8>) -> Result<(), AllocError>
    requires { writer.before ≡ [] }
    ensures { OnOk result (out.new.items ≡ out.old.items ++ finished writer.tokens) }
{
    let line = finish(writer)?;
    out.extend_from_slice(&line)
}

/// Appends a call that was never made.
fn append_unmade(
    alloc: Global,
    out: &mut Vec<u8>,
    sources: &ExploredSources<'_>,
    site: CallSite,
) -> Result<(), AllocError>
    ensures { OnOk result (out.new.items
        ≡ out.old.items ++ spec.unmade_record (source_tables sources.now) site) }
{
    let mut writer = begin(alloc)?;
    text_member(&mut writer, "what", "never_made")?;
    write_position(&mut writer, Some(call_position(sources, site)))?;
    append_finished(writer, out)
}

/// Appends the calls that were never made.
fn append_all_unmade(
    alloc: Global,
    out: &mut Vec<u8>,
    sources: &ExploredSources<'_>,
    sites: &[CallSite],
) -> Result<(), AllocError>
    ensures { OnOk result (out.new.items
        ≡ out.old.items ++ flat_map (λ site. spec.unmade_record (source_tables sources.now) site) sites.now) }
{
    for site in sites {
        append_unmade(alloc, out, sources, *site)?;
    }
    Ok(())
}

/// Writes codes.
fn write_codes(writer: &mut Writer, codes: &[Er]) -> Result<(), AllocError>
    ensures before { writer.new.before ≡ writer.old.before }
    ensures tokens { OnOk result (writer.new.tokens ≡ writer.old.tokens ++ spec.code_tokens codes.now) }
{
    for code in codes {
        writer.string(code.name())?;
    }
    Ok(())
}

/// Writes the codes that a call got.
fn write_answers(writer: &mut Writer, call: &Answered) -> Result<(), AllocError>
    ensures before { writer.new.before ≡ writer.old.before }
    ensures tokens { OnOk result (writer.new.tokens ≡ writer.old.tokens
        ++ (list_begin (codes "answers") ++ (spec.code_tokens call.now.answers.items ++ list_end))) }
{
    begin_list(writer, "answers")?;
    write_codes(writer, &call.answers)?;
    end_list(writer)
}

/// Appends the codes that a call got.
fn append_answered(alloc: Global, out: &mut Vec<u8>, call: &Answered) -> Result<(), AllocError>
    ensures { OnOk result (out.new.items ≡ out.old.items ++ spec.answered_record (answered_call call.now)) }
{
    let mut writer = begin(alloc)?;
    text_member(&mut writer, "what", "answers")?;
    number_member(&mut writer, "line", u64::from(call.line))?;
    number_member(&mut writer, "column", call.column as u64)?;
    write_answers(&mut writer, call)?;
    append_finished(writer, out)
}

/// Appends the codes that each of these calls got.
fn append_all_answered(
    alloc: Global,
    out: &mut Vec<u8>,
    calls: &[Answered],
) -> Result<(), AllocError>
    ensures { OnOk result (out.new.items
        ≡ out.old.items ++ flat_map (λ call. spec.answered_record call) (map answered_call calls.now)) }
{
    for call in calls {
        append_answered(alloc, out, call)?;
    }
    Ok(())
}

/// Appends the codes that each of these calls got, if they are asked for.
fn append_answers(
    alloc: Global,
    out: &mut Vec<u8>,
    sources: &ExploredSources<'_>,
    calls: &[Answered],
) -> Result<(), AllocError>
    ensures { OnOk result (out.new.items
        ≡ out.old.items ++ spec.asked_records (source_tables sources.now) (map answered_call calls.now)) }
{
    if sources.named.answers {
        append_all_answered(alloc, out, calls)
    } else {
        Ok(())
    }
}

/// Appends a call that is refused.
fn append_one_refused(
    alloc: Global,
    out: &mut Vec<u8>,
    sources: &ExploredSources<'_>,
    call: &RefusedCall,
) -> Result<(), AllocError>
    ensures { OnOk result (out.new.items
        ≡ out.old.items ++ spec.refused_line (source_tables sources.now) (refused_of call.now)) }
{
    let file = sources.named.src.as_bytes();
    let code = sources.claim.image.code();
    let (lines, site) = (sources.claim.lines, call.site);
    let position = lines.position(code, site.body, site.pc);
    append_refused(alloc, LineForm::Record, file, position, call, out)
}

/// Appends these calls, which are refused.
fn append_each_refused(
    alloc: Global,
    out: &mut Vec<u8>,
    sources: &ExploredSources<'_>,
    calls: &[RefusedCall],
) -> Result<(), AllocError>
    ensures { OnOk result (out.new.items ≡ out.old.items
        ++ flat_map (λ x. spec.refused_line (source_tables sources.now) x) (map refused_of calls.now)) }
{
    for call in calls {
        append_one_refused(alloc, out, sources, call)?;
    }
    Ok(())
}

/// Appends the calls that are refused, where calls got these answers.
fn append_all_refused(
    alloc: Global,
    out: &mut Vec<u8>,
    sources: &ExploredSources<'_>,
    answers: &[SiteAnswer],
) -> Result<(), AllocError>
    ensures { OnOk result (out.new.items ≡ out.old.items
        ++ flat_map (λ x. spec.refused_line (source_tables sources.now) x)
        (refused_calls (source_tables sources.now).claim.image.code answers.now)) }
{
    let calls = refused_in(alloc, sources.claim.image, answers)?;
    append_each_refused(alloc, out, sources, &calls)
}

/// The text of a sentence.
fn sentence_text(alloc: Global, sys: &System, sentence: &Sentence) -> Result<String, AllocError>
    ensures { IfOk result (λ text. string_bytes text ≡ utf8_lossy (words_of (tables_of sys.now) sentence.now)) }
{
    let mut text = Vec::new(alloc);
    append_sentence(alloc, sys, sentence, &mut text)?;
    text.truncate(text.len().saturating_sub(2));
    String::from_utf8_lossy(alloc, &text)
}

/// Appends the sentence at a place, which says nothing.
fn append_nothing(
    alloc: Global,
    out: &mut Vec<u8>,
    sources: &ExploredSources<'_>,
    place: usize,
    sentence: &Sentence,
) -> Result<(), AllocError>
    ensures { OnOk result (out.new.items
        ≡ out.old.items ++ spec.nothing_record (source_tables sources.now) place sentence.now) }
{
    let text = sentence_text(alloc, sources.claim.configured, sentence)?;
    let mut writer = begin(alloc)?;
    text_member(&mut writer, "what", "never_happens")?;
    write_number(&mut writer, "sentence", sources.sentences.line(place))?;
    text_member(&mut writer, "text", text.as_str())?;
    append_finished(writer, out)
}

/// Appends the sentence of a monitor, if it says nothing.
fn append_unsaid(
    alloc: Global,
    out: &mut Vec<u8>,
    sources: &ExploredSources<'_>,
    watched: Watched,
) -> Result<(), AllocError>
    ensures { OnOk result (out.new.items ≡ out.old.items
        ++ spec.unsaid_record (source_tables sources.now) watched.place watched.monitor watched.came) }
{
    let (place, subject) = (watched.place, &watched.monitor.subject);
    if !is_unsaid(subject, watched.came) {
        return Ok(());
    }
    match subject {
        MonitorSubject::Sentence(sentence) => append_nothing(alloc, out, sources, place, sentence),
        MonitorSubject::Limit(_) => Ok(()),
    }
}

/// Appends the sentences of these monitors that say nothing.
#[tactic(auto, using(crate::proofs::SeenLists::numbered_at))]
fn append_each_unsaid(
    alloc: Global,
    out: &mut Vec<u8>,
    sources: &ExploredSources<'_>,
    monitors: &[Monitor],
    premises: &[bool],
) -> Result<(), AllocError>
    ensures { OnOk result (out.new.items ≡ out.old.items
        ++ numbered (λ place m came. spec.unsaid_record (source_tables sources.now) place m came) 0 monitors.now
        premises.now) }
{
    let count = monitors.len().min(premises.len());
    for place in 0..count {
        let (monitor, came) = (monitors[place], premises[place]);
        let watched = Watched {
            place,
            monitor,
            came,
        };
        append_unsaid(alloc, out, sources, watched)?;
    }
    Ok(())
}

/// Appends the sentences that say nothing, where every state was examined.
fn append_all_unsaid(
    alloc: Global,
    out: &mut Vec<u8>,
    sources: &ExploredSources<'_>,
    report: &Report,
) -> Result<(), AllocError>
    ensures { OnOk result (out.new.items
        ≡ out.old.items ++ spec.unsaid_records (source_tables sources.now) report.now) }
{
    if !is_complete(report.ending) {
        return Ok(());
    }
    append_each_unsaid(
        alloc,
        out,
        sources,
        &sources.claim.question.monitors,
        &report.premises,
    )
}

/// Appends how many values a field has, if it is one of the most varied ones.
fn append_variety(
    alloc: Global,
    out: &mut Vec<u8>,
    sources: &ExploredSources<'_>,
    most: usize,
    variety: &Variety,
) -> Result<(), AllocError>
    ensures { OnOk result (out.new.items
        ≡ out.old.items ++ spec.varied_record (source_tables sources.now) most variety.now) }
{
    if !is_varied(most, variety) {
        return Ok(());
    }
    let mut name = Vec::new(alloc);
    append_varied(alloc, sources, variety.what, &mut name)?;
    append_named(alloc, out, "values", &name, Some(variety.values as u64))
}

/// Appends how many values the most varied fields have, where the search stopped at a limit.
fn append_varieties(
    alloc: Global,
    out: &mut Vec<u8>,
    sources: &ExploredSources<'_>,
    varieties: &[Variety],
) -> Result<(), AllocError>
    ensures { OnOk result (out.new.items
        ≡ out.old.items ++ spec.varied_records (source_tables sources.now) varieties.now) }
{
    let most = most_values(varieties);
    for variety in varieties {
        append_variety(alloc, out, sources, most, variety)?;
    }
    Ok(())
}

/// Appends the calls that were never made, the codes that calls got, if they are asked for, and the calls that are
/// refused.
fn append_calls(
    alloc: Global,
    out: &mut Vec<u8>,
    sources: &ExploredSources<'_>,
    calls: &SeenCalls,
) -> Result<(), AllocError>
    ensures { OnOk result (out.new.items ≡ out.old.items
        ++ spec.call_records (source_tables sources.now) calls.now.unmade.items
        (map answered_call calls.now.answered.items)
        (refused_calls (source_tables sources.now).claim.image.code calls.now.answers.items)) }
{
    append_all_unmade(alloc, out, sources, &calls.unmade)?;
    append_answers(alloc, out, sources, &calls.answered)?;
    append_all_refused(alloc, out, sources, &calls.answers)
}

/// Appends what never ran, how full objects ever were, and the most varied fields.
fn append_rows(
    alloc: Global,
    out: &mut Vec<u8>,
    sources: &ExploredSources<'_>,
    report: &Report,
) -> Result<(), AllocError>
    ensures { OnOk result (out.new.items ≡ out.old.items ++ spec.row_records (source_tables sources.now) report.now) }
{
    let sys = sources.claim.image.system();
    append_unrun(alloc, out, sys, report)?;
    append_peaks(alloc, out, sys, report)?;
    append_varieties(alloc, out, sources, &report.varieties)
}

/// Appends the by-products of a search, which saw this of the calls.
fn append_coverage(
    alloc: Global,
    out: &mut Vec<u8>,
    sources: &ExploredSources<'_>,
    report: &Report,
    calls: &SeenCalls,
) -> Result<(), AllocError>
    ensures { OnOk result (out.new.items ≡ out.old.items ++ spec.coverage_records (source_tables sources.now)
        report.now calls.now.unmade.items (map answered_call calls.now.answered.items)
        (refused_calls (source_tables sources.now).claim.image.code calls.now.answers.items)) }
{
    append_all_unsaid(alloc, out, sources, report)?;
    append_calls(alloc, out, sources, calls)?;
    append_rows(alloc, out, sources, report)
}

/// The by-products of a search, as objects of JSON, one a line. `AllocError` if memory runs out.
pub fn coverage_records(
    alloc: Global,
    sources: &ExploredSources<'_>,
    report: &Report,
) -> Result<Vec<u8>, AllocError>
    ensures { IfOk result (λ text. text.items ≡ spec.covered_records (source_tables sources.now) report.now) }
{
    let calls = seen_calls(alloc, sources, &report.coverage)?;
    let mut out = Vec::new(alloc);
    append_coverage(alloc, &mut out, sources, report, &calls)?;
    Ok(out)
}
