//! What is said of what has the most values in the states of a search that stopped: a field of the states, or what is
//! kept for a sentence, a section or a limit of an interrupt.
ghost use Rattle.std.specs.Prelude.{◌≡◌, ◌++◌, OnOk};
ghost use Rattle.fmp_searching.specs.Extent.{varied_name};
ghost use Rattle.fmp_searching.specs.Sources.{source_tables};
ghost use Rattle.fmp_searching.specs.Varied as spec;

use crate::naming::append_name;
use crate::sentences::append_sentence;
use crate::sources::ExploredSources;
use fmp_explore::Varied;
use fmp_json::{append, append_number};
use fmp_monitors::Sentence;
use fmp_schedules::{InterruptLimit, MonitorSubject};
use std::alloc::{AllocError, Global};

/// Appends an option of an interrupt, which stands at a place from 0, in brackets.
#[tactic(auto, unfolding(crate::specs::Varied::option_text))]
fn append_option(
    option: &[u8],
    interrupt: u8,
    number: u32,
    out: &mut Vec<u8>,
) -> Result<(), AllocError>
    ensures { OnOk result (out.new.items ≡ out.old.items ++ spec.option_text option.now interrupt number) }
{
    append_number(u64::from(interrupt) + 1, out)?;
    append(option, out)?;
    append_number(u64::from(interrupt) + 1, out)?;
    append(b":", out)?;
    append_number(u64::from(number), out)?;
    append(b")", out)
}

/// Appends how often an interrupt may come.
#[tactic(auto, unfolding(crate::specs::Varied::count_name, crate::specs::Varied::option_text))]
fn append_count(interrupt: u8, count: u32, out: &mut Vec<u8>) -> Result<(), AllocError>
    ensures { OnOk result (out.new.items ≡ out.old.items ++ spec.count_name interrupt count) }
{
    append(b"times of interrupt ", out)?;
    append_option(b" (--int ", interrupt, count, out)
}

/// Appends how many ticks come between two of an interrupt.
#[tactic(auto, unfolding(crate::specs::Varied::gap_name, crate::specs::Varied::option_text))]
fn append_gap(interrupt: u8, ticks: u32, out: &mut Vec<u8>) -> Result<(), AllocError>
    ensures { OnOk result (out.new.items ≡ out.old.items ++ spec.gap_name interrupt ticks) }
{
    append(b"ticks since interrupt ", out)?;
    append_option(b" (--gap ", interrupt, ticks, out)
}

/// Appends what is kept for a limit of an interrupt.
fn append_limit_name(limit: InterruptLimit, out: &mut Vec<u8>) -> Result<(), AllocError>
    ensures { OnOk result (out.new.items ≡ out.old.items ++ spec.limit_name limit) }
{
    match limit {
        InterruptLimit::AtMost { interrupt, count } => append_count(interrupt, count, out),
        InterruptLimit::Apart { interrupt, ticks } => append_gap(interrupt, ticks, out),
    }
}

/// Appends the line of a file of sentences.
#[tactic(auto, unfolding(crate::specs::Varied::line_name))]
fn append_line(file: &str, line: u64, out: &mut Vec<u8>) -> Result<(), AllocError>
    ensures { OnOk result (out.new.items ≡ out.old.items ++ spec.line_name file.now line) }
{
    append(b"line ", out)?;
    append_number(line, out)?;
    append(b" of ", out)?;
    append(file.as_bytes(), out)
}

/// Appends a section, as the command line has it.
#[tactic(auto, unfolding(crate::specs::Varied::section_name))]
fn append_section(
    alloc: Global,
    sources: &ExploredSources<'_>,
    sentence: &Sentence,
    out: &mut Vec<u8>,
) -> Result<(), AllocError>
    ensures { OnOk result (out.new.items ≡ out.old.items
        ++ spec.section_name sources.now.claim.image.now.system sentence.now) }
{
    let mut text = Vec::new(alloc);
    append_sentence(alloc, sources.claim.image.system(), sentence, &mut text)?;
    text.truncate(text.len().saturating_sub(2));
    append(b"--", out)?;
    append(&text, out)
}

/// Appends where the sentence of the monitor at a place stands.
fn append_sentence_name(
    alloc: Global,
    sources: &ExploredSources<'_>,
    place: usize,
    sentence: &Sentence,
    out: &mut Vec<u8>,
) -> Result<(), AllocError>
    ensures { OnOk result (out.new.items ≡ out.old.items
        ++ spec.sentence_name sources.now.claim.image.now.system sources.now.sentences.file.now
        (spec.line_at sources.now.sentences.sections sources.now.sentences.expected.now place) sentence.now) }
{
    match sources.sentences.line(place) {
        Some(line) => append_line(sources.sentences.file, line, out),
        None => append_section(alloc, sources, sentence, out),
    }
}

/// Appends what is kept for the monitor at a place.
fn append_standing_name(
    alloc: Global,
    sources: &ExploredSources<'_>,
    place: usize,
    out: &mut Vec<u8>,
) -> Result<(), AllocError>
    ensures { OnOk result (out.new.items ≡ out.old.items ++ spec.kept_name (source_tables sources.now) place) }
{
    let Some(monitor) = sources.claim.question.monitors.get(place) else {
        return Ok(());
    };
    match &monitor.subject {
        MonitorSubject::Limit(limit) => append_limit_name(*limit, out),
        MonitorSubject::Sentence(sentence) => {
            append_sentence_name(alloc, sources, place, sentence, out)
        }
    }
}

/// Appends what has values in the states of a search, as `CONTROL samples`, `ticks since interrupt 3 (--gap 3:50)` or
/// `line 1 of motor.expect`. `AllocError` if memory runs out.
pub fn append_varied(
    alloc: Global,
    sources: &ExploredSources<'_>,
    what: Varied,
    out: &mut Vec<u8>,
) -> Result<(), AllocError>
    ensures { OnOk result (out.new.items ≡ out.old.items ++ varied_name (source_tables sources.now) what) }
{
    match what {
        Varied::Field(field) => {
            append_name(out, sources.claim.image.system(), sources.names, field)
        }
        Varied::Standing(place) => append_standing_name(alloc, sources, place, out),
    }
}
