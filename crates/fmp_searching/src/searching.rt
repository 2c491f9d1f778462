//! The command `explore`: it explores the schedules of two texts, and writes the steps of what it finds.
ghost use Rattle.std.specs.Prelude.{◌≡◌, ◌⊎◌, ◌+◌, ◌<◌, ◌^◌, IfNone, IfOk, Ok, OnErr, false, length, true};
ghost use Rattle.fmp_base.specs.Systems.{tables_of};
ghost use Rattle.fmp_cfgparse.specs.Configurations.{Describes};
ghost use Rattle.fmp_searching.specs.Claims.{claim_tables};
ghost use Rattle.fmp_searching.specs.Claimed.{EndsOfFiles, HasClaimed, HasEnded, HasShown, HasShownAll};
ghost use Rattle.fmp_searching.specs.Claimed.{HoldsOfFiles, OfFiles, OfImage, OfQuestion, OfTexts, PrintsNothing};
ghost use Rattle.fmp_searching.specs.Claimed.{sources_of};
ghost use Rattle.fmp_searching.specs.Deeds.{DoesOnly, GivesNothing, KeepsFiles, MayDo, SaysOnly, TellsOnly};
ghost use Rattle.fmp_searching.specs.Files.{IsReportApart, IsReportNoSteps, is_refusal};
ghost use Rattle.fmp_searching.specs.Mistakes.{is_of_sentence};
ghost use Rattle.fmp_searching.specs.Questions.{IsWanted};
ghost use Rattle.fmp_searching.specs.Shown.{PrintsOfFiles, PrintsOfTexts, ShowsFault};
ghost use Rattle.fmp_searching.specs.Sources.{source_tables};

use crate::asked_question::{Inquiry, question_by};
use crate::asking::{CommandMistake, ExploreChoices, wanted_by};
use crate::at_calls::nevers_at_of;
use crate::exploration::{no_question, no_question_of, report_over_input, report_over_steps};
use crate::giving::{give, status_after, write_report};
use crate::naming::LocalNames;
use crate::reading::read_texts;
use crate::reporting::print_fault;
use crate::sentence_faults::{expected_in, fault_of_sentences};
use crate::sites::CallLines;
use crate::sources::{Claim, ExploredSources, Exploring, Named, Sentences};
use crate::steps_files::{StepsFiles, is_read, is_report_of_steps, out_name, remove_earlier};
use crate::telling::explored_aloud;
use crate::unhandled::say_unhandled;
use clap::Error;
use fmp_base::System;
use fmp_cfgparse::read_cfg;
use fmp_expect::read_call_sentences;
use fmp_files::{Failure, Outside, end, refuse_mistake};
use fmp_image::build;
use fmp_image_bytes::Image;
use fmp_lex::BuildFault;
use fmp_warnings::{FileNames, Form};
use std::alloc::{AllocError, Global};
use std::thread::Threads;
use std::time::Clock;

/// An exploration whose words and files are read.
#[derive(Clone, Copy)]
struct Opened<'a> {
    exploring: &'a Exploring<'a>,
    wanted: &'a ExploreChoices<'a>,
    /// The text of the configuration.
    cfg: &'a [u8],
    /// The text of the bodies.
    src: &'a [u8],
    /// The text of the sentences; empty where no file has any.
    said: &'a [u8],
}

/// Explores what the report of an exploration speaks of, and prints what the search comes to of what it can claim.
fn explore_sources<O: Outside, R: Clock + Threads + Sync>(
    alloc: Global,
    outside: &mut O,
    rt: &R,
    exploring: &Exploring<'_>,
    sources: &ExploredSources<'_>,
) -> Result<u8, AllocError>
    requires { sources.now.sentences.sections + length sources.now.sentences.expected.now < 2 ^ 64 }
    ensures shown { IfOk result (λ _. HasShown exploring.now (source_tables sources.now)
        (O.done outside.old) (O.done outside.new)) }
    ensures mistaken { IfOk result (λ status. status ≡ 2 →
        HasShownAll (source_tables sources.now) (O.done outside.new)) }
    ensures claimed { IfOk result (λ status. status ≡ 0 →
        HasClaimed (source_tables sources.now) (O.done outside.new)) }
    ensures ended { IfOk result (λ status. is_refusal status ≡ false →
        HasEnded exploring.now (source_tables sources.now) status (O.done outside.new)) }
    ensures quiet { OnErr result (GivesNothing (O.done outside.old) (O.done outside.new)) }
    ensures keeps { IsReportApart exploring.now →
        DoesOnly (MayDo exploring.now sources.now.named.out.now) (O.done outside.old) (O.done outside.new) }
{
    let explored = explored_aloud(alloc, outside, rt, exploring.jobs, sources)?;
    let (out, processors) = (sources.named.out, sources.claim.image.system().processors);
    let files = StepsFiles {
        exploring,
        out,
        count: explored.steps.len(),
    };
    remove_earlier(alloc, outside, files, processors)?;
    let written = write_report(alloc, outside, exploring, &explored);
    let status = give(alloc, outside, out, exploring, &explored);
    Ok(status_after(written, status))
}

/// The same of an exploration that has read its files.
fn explore_told<O: Outside, R: Clock + Threads + Sync>(
    alloc: Global,
    outside: &mut O,
    rt: &R,
    opened: &Opened<'_>,
    sources: &ExploredSources<'_>,
) -> Result<u8, AllocError>
    requires places { sources.now.sentences.sections + length sources.now.sentences.expected.now < 2 ^ 64 }
    requires same { source_tables sources.now ≡ sources_of (claim_tables sources.now.claim) sources.now.names.now
        opened.now.said.now opened.now.exploring.now }
    ensures shown { IfOk result (λ _. OfQuestion (claim_tables sources.now.claim) opened.now.said.now
        opened.now.exploring.now
        (λ s. HasShown opened.now.exploring.now s (O.done outside.old) (O.done outside.new))) }
    ensures mistaken { IfOk result (λ status. status ≡ 2 → OfQuestion (claim_tables sources.now.claim)
        opened.now.said.now opened.now.exploring.now (λ s. HasShownAll s (O.done outside.new))) }
    ensures claimed { IfOk result (λ status. status ≡ 0 → OfQuestion (claim_tables sources.now.claim)
        opened.now.said.now opened.now.exploring.now (λ s. HasClaimed s (O.done outside.new))) }
    ensures ended { IfOk result (λ status. is_refusal status ≡ false → OfQuestion (claim_tables sources.now.claim)
        opened.now.said.now opened.now.exploring.now
        (λ s. HasEnded opened.now.exploring.now s status (O.done outside.new))) }
    ensures quiet { OnErr result (GivesNothing (O.done outside.old) (O.done outside.new)) }
    ensures keeps { IsReportApart opened.now.exploring.now →
        KeepsFiles opened.now.exploring.now (O.done outside.old) (O.done outside.new) }
{
    explore_sources(alloc, outside, rt, opened.exploring, sources)
}

/// Explores an image, and prints what the search comes to of what it can claim.
#[tactic(auto, using(crate::proofs::Doing::only_none, crate::proofs::Printing::quiet_none))]
fn explore_question<O: Outside, R: Clock + Threads + Sync>(
    alloc: Global,
    outside: &mut O,
    rt: &R,
    claim: &Claim<'_>,
    opened: &Opened<'_>,
) -> Result<u8, AllocError>
    requires { IsWanted opened.now.exploring.now.asked (Ok opened.now.wanted.now) }
    ensures shown { IfOk result (λ _. OfQuestion (claim_tables claim.now) opened.now.said.now
        opened.now.exploring.now
        (λ s. HasShown opened.now.exploring.now s (O.done outside.old) (O.done outside.new))) }
    ensures mistaken { IfOk result (λ status. status ≡ 2 → OfQuestion (claim_tables claim.now)
        opened.now.said.now opened.now.exploring.now (λ s. HasShownAll s (O.done outside.new))) }
    ensures claimed { IfOk result (λ status. status ≡ 0 → OfQuestion (claim_tables claim.now)
        opened.now.said.now opened.now.exploring.now (λ s. HasClaimed s (O.done outside.new))) }
    ensures ended { IfOk result (λ status. is_refusal status ≡ false → OfQuestion (claim_tables claim.now)
        opened.now.said.now opened.now.exploring.now
        (λ s. HasEnded opened.now.exploring.now s status (O.done outside.new))) }
    ensures quiet { OnErr result (GivesNothing (O.done outside.old) (O.done outside.new)) }
    ensures keeps { IsReportApart opened.now.exploring.now →
        KeepsFiles opened.now.exploring.now (O.done outside.old) (O.done outside.new) }
{
    let exploring = opened.exploring;
    let names = LocalNames::new(alloc, opened.src)?;
    let out = out_name(alloc, exploring)?;
    let expected = expected_in(alloc, claim.configured, opened.said)?;
    let call_sentences = read_call_sentences(alloc, claim.configured, opened.said)?;
    let of_words = nevers_at_of(alloc, claim.image, claim.lines, &opened.wanted.nevers_at)?;
    let named = Named {
        src: exploring.src,
        out: out.as_str(),
        answers: exploring.answers,
        strict: exploring.strict,
        form: exploring.form,
        report: exploring.junit.is_some(),
    };
    let sources = ExploredSources {
        claim: *claim,
        names: &names,
        sentences: Sentences {
            sections: exploring.asked.alone.len(),
            file: exploring.expect.unwrap_or(""),
            text: opened.said,
            expected: &expected,
            call_sentences: &call_sentences,
            nevers_at: of_words.len(),
        },
        named,
    };
    explore_told(alloc, outside, rt, opened, &sources)
}

/// Says which line of a text of sentences has a flaw, and gives the status.
fn refuse_sentence<O: Outside>(outside: &mut O, text: &str) -> u8
    ensures status { result ≡ 1 }
    ensures quiet { PrintsNothing (O.done outside.old) (O.done outside.new) }
    ensures says { SaysOnly (O.done outside.old) (O.done outside.new) }
{
    outside.say(format_args!("{text}\n"));
    1
}

/// Says what is mistaken in an inquiry, which asks no question. The status is 1 for a sentence, and 2 for words.
#[tactic(auto, using(crate::proofs::Doing::only_none, crate::proofs::Doing::says_one))]
fn refuse_question<O: Outside>(
    alloc: Global,
    outside: &mut O,
    inquiry: &Inquiry<'_>,
    mistake: CommandMistake,
) -> Result<u8, AllocError>
    ensures refusal { IfOk result (λ status. is_refusal status ≡ true) }
    ensures quiet { IfOk result (λ _. PrintsNothing (O.done outside.old) (O.done outside.new)) }
    ensures sentence { is_of_sentence mistake ≡ true → IfOk result (λ status. status ≡ 1) }
    ensures words { is_of_sentence mistake ≡ false → IfOk result (λ status. (status ≡ 2) ⊎ (status ≡ 3)) }
    ensures says { SaysOnly (O.done outside.old) (O.done outside.new) }
{
    match fault_of_sentences(alloc, inquiry, mistake)? {
        Some(text) => Ok(refuse_sentence(outside, &text)),
        None => Ok(refuse_mistake(outside, no_question_of(alloc, inquiry, mistake))),
    }
}

/// Explores an image that the texts of an exploration build, whose configuration describes this system.
#[tactic(auto, using(crate::proofs::Doing::only_none, crate::proofs::Printing::quiet_none))]
fn explore_image<O: Outside, R: Clock + Threads + Sync>(
    alloc: Global,
    outside: &mut O,
    rt: &R,
    image: &Image,
    configured: &System,
    opened: &Opened<'_>,
) -> Result<u8, AllocError>
    requires { IsWanted opened.now.exploring.now.asked (Ok opened.now.wanted.now) }
    ensures holds { IfOk result (λ status. status ≡ 0 → OfImage image.now (tables_of configured.now)
        opened.now.src.now opened.now.said.now opened.now.exploring.now (λ s. HasClaimed s (O.done outside.new))) }
    ensures mistaken { IfOk result (λ status. status ≡ 2 → PrintsNothing (O.done outside.old) (O.done outside.new)
        ⊎ OfImage image.now (tables_of configured.now) opened.now.src.now opened.now.said.now
        opened.now.exploring.now (λ s. HasShownAll s (O.done outside.new))) }
    ensures ended { IfOk result (λ status. is_refusal status ≡ false → OfImage image.now (tables_of configured.now)
        opened.now.src.now opened.now.said.now opened.now.exploring.now
        (λ s. HasEnded opened.now.exploring.now s status (O.done outside.new))) }
    ensures shown { IfOk result (λ _. GivesNothing (O.done outside.old) (O.done outside.new)
        ⊎ OfImage image.now (tables_of configured.now) opened.now.src.now opened.now.said.now
        opened.now.exploring.now
        (λ s. HasShown opened.now.exploring.now s (O.done outside.old) (O.done outside.new))) }
    ensures quiet { OnErr result (GivesNothing (O.done outside.old) (O.done outside.new)) }
    ensures keeps { IsReportApart opened.now.exploring.now →
        KeepsFiles opened.now.exploring.now (O.done outside.old) (O.done outside.new) }
{
    let lines = CallLines::new(alloc, opened.src)?;
    let inquiry = Inquiry {
        wanted: opened.wanted,
        text: opened.said,
        configured,
        image,
        lines: &lines,
    };
    match question_by(alloc, &inquiry)? {
        Ok(question) => {
            let claim = Claim {
                image,
                configured,
                lines: &lines,
                question: &question,
                bound: opened.exploring.bound,
            };
            explore_question(alloc, outside, rt, &claim, opened)
        }
        Err(mistake) => refuse_question(alloc, outside, &inquiry, mistake),
    }
}

/// The same, and the status where memory runs out.
fn explore_status<O: Outside, R: Clock + Threads + Sync>(
    alloc: Global,
    outside: &mut O,
    rt: &R,
    image: &Image,
    configured: &System,
    opened: &Opened<'_>,
) -> u8
    requires { IsWanted opened.now.exploring.now.asked (Ok opened.now.wanted.now) }
    ensures holds { result ≡ 0 → OfImage image.now (tables_of configured.now) opened.now.src.now
        opened.now.said.now opened.now.exploring.now (λ s. HasClaimed s (O.done outside.new)) }
    ensures mistaken { result ≡ 2 → PrintsNothing (O.done outside.old) (O.done outside.new)
        ⊎ OfImage image.now (tables_of configured.now) opened.now.src.now opened.now.said.now
        opened.now.exploring.now (λ s. HasShownAll s (O.done outside.new)) }
    ensures ended { is_refusal result ≡ false → OfImage image.now (tables_of configured.now) opened.now.src.now
        opened.now.said.now opened.now.exploring.now
        (λ s. HasEnded opened.now.exploring.now s result (O.done outside.new)) }
    ensures shown { GivesNothing (O.done outside.old) (O.done outside.new)
        ⊎ OfImage image.now (tables_of configured.now) opened.now.src.now opened.now.said.now
        opened.now.exploring.now
        (λ s. HasShown opened.now.exploring.now s (O.done outside.old) (O.done outside.new)) }
    ensures keeps { IsReportApart opened.now.exploring.now →
        KeepsFiles opened.now.exploring.now (O.done outside.old) (O.done outside.new) }
{
    say_unhandled(outside, image.system(), &opened.wanted.limits);
    match explore_image(alloc, outside, rt, image, configured, opened) {
        Ok(status) => status,
        Err(error) => end(outside, &Failure::Memory(error)),
    }
}

/// Prints the first fault of the texts of an exploration, which build no image, with status 1, or that memory ran out,
/// with status 3.
fn refuse_texts<O: Outside>(
    alloc: Global,
    outside: &mut O,
    exploring: &Exploring<'_>,
    fault: &BuildFault,
) -> u8
    ensures status { (result ≡ 1) ⊎ (result ≡ 3) }
    ensures shown { GivesNothing (O.done outside.old) (O.done outside.new)
        ⊎ ShowsFault (O.files outside.old) exploring.now (O.done outside.old) (O.done outside.new) }
    ensures tells { TellsOnly (O.done outside.old) (O.done outside.new) }
{
    let names = FileNames {
        cfg: exploring.cfg,
        src: exploring.src,
        steps: "",
    };
    match fault {
        BuildFault::Memory => end(outside, &Failure::Memory(AllocError)),
        BuildFault::At(..) => print_fault(alloc, outside, names, Form::Text).max(1),
    }
}

/// Explores the schedules of the texts of an exploration, whose configuration describes this system, or prints their
/// first fault, with status 1.
fn explore_system<O: Outside, R: Clock + Threads + Sync>(
    alloc: Global,
    outside: &mut O,
    rt: &R,
    configured: &System,
    opened: &Opened<'_>,
) -> u8
    requires wanted { IsWanted opened.now.exploring.now.asked (Ok opened.now.wanted.now) }
    requires described { Describes opened.now.cfg.now configured.now }
    ensures holds { result ≡ 0 → OfTexts opened.now.cfg.now opened.now.src.now opened.now.said.now
        opened.now.exploring.now (λ s. HasClaimed s (O.done outside.new)) }
    ensures mistaken { result ≡ 2 → PrintsNothing (O.done outside.old) (O.done outside.new)
        ⊎ OfTexts opened.now.cfg.now opened.now.src.now opened.now.said.now opened.now.exploring.now
        (λ s. HasShownAll s (O.done outside.new)) }
    ensures ended { is_refusal result ≡ false → OfTexts opened.now.cfg.now opened.now.src.now opened.now.said.now
        opened.now.exploring.now (λ s. HasEnded opened.now.exploring.now s result (O.done outside.new)) }
    ensures shown { PrintsOfTexts (O.files outside.old) opened.now.cfg.now opened.now.src.now opened.now.said.now
        opened.now.exploring.now (O.done outside.old) (O.done outside.new) }
    ensures keeps { IsReportApart opened.now.exploring.now →
        KeepsFiles opened.now.exploring.now (O.done outside.old) (O.done outside.new) }
{
    match build(alloc, opened.cfg, opened.src) {
        Ok(image) => {
            let status = explore_status(alloc, outside, rt, &image, configured, opened);
            drop(image);
            status
        }
        Err(fault) => refuse_texts(alloc, outside, opened.exploring, &fault),
    }
}

/// Explores the schedules of the texts of an exploration, or prints their first fault, with status 1.
fn explore_texts<O: Outside, R: Clock + Threads + Sync>(
    alloc: Global,
    outside: &mut O,
    rt: &R,
    opened: &Opened<'_>,
) -> u8
    requires { IsWanted opened.now.exploring.now.asked (Ok opened.now.wanted.now) }
    ensures holds { result ≡ 0 → OfTexts opened.now.cfg.now opened.now.src.now opened.now.said.now
        opened.now.exploring.now (λ s. HasClaimed s (O.done outside.new)) }
    ensures mistaken { result ≡ 2 → PrintsNothing (O.done outside.old) (O.done outside.new)
        ⊎ OfTexts opened.now.cfg.now opened.now.src.now opened.now.said.now opened.now.exploring.now
        (λ s. HasShownAll s (O.done outside.new)) }
    ensures ended { is_refusal result ≡ false → OfTexts opened.now.cfg.now opened.now.src.now opened.now.said.now
        opened.now.exploring.now (λ s. HasEnded opened.now.exploring.now s result (O.done outside.new)) }
    ensures shown { PrintsOfTexts (O.files outside.old) opened.now.cfg.now opened.now.src.now opened.now.said.now
        opened.now.exploring.now (O.done outside.old) (O.done outside.new) }
    ensures keeps { IsReportApart opened.now.exploring.now →
        KeepsFiles opened.now.exploring.now (O.done outside.old) (O.done outside.new) }
{
    match read_cfg(alloc, opened.cfg) {
        Ok(configured) => {
            let status = explore_system(alloc, outside, rt, &configured, opened);
            drop(configured);
            status
        }
        Err(fault) => refuse_texts(alloc, outside, opened.exploring, &fault),
    }
}

/// Explores the schedules of the texts of files, with what is wanted of them in words and in sentences.
fn explore_files<O: Outside, R: Clock + Threads + Sync>(
    alloc: Global,
    outside: &mut O,
    rt: &R,
    exploring: &Exploring<'_>,
    wanted: &ExploreChoices<'_>,
) -> u8
    requires { IsWanted exploring.now.asked (Ok wanted.now) }
    ensures holds { result ≡ 0 → HoldsOfFiles (O.files outside.old) exploring.now (O.done outside.new) }
    ensures mistaken { result ≡ 2 → PrintsNothing (O.done outside.old) (O.done outside.new)
        ⊎ OfFiles (O.files outside.old) exploring.now (λ s. HasShownAll s (O.done outside.new)) }
    ensures ended { is_refusal result ≡ false →
        EndsOfFiles (O.files outside.old) exploring.now result (O.done outside.new) }
    ensures shown { PrintsOfFiles (O.files outside.old) exploring.now (O.done outside.old) (O.done outside.new) }
    ensures keeps { IsReportApart exploring.now → KeepsFiles exploring.now (O.done outside.old) (O.done outside.new) }
{
    match read_texts(alloc, outside, exploring) {
        Ok((cfg, src, said)) => {
            let opened = Opened {
                exploring,
                wanted,
                cfg: &cfg,
                src: &src,
                said: &said,
            };
            explore_texts(alloc, outside, rt, &opened)
        }
        Err(failure) => end(outside, &failure),
    }
}

/// Whether the file of a report is one of those that are read.
fn is_report_read<O: Outside>(outside: &O, exploring: &Exploring<'_>) -> bool
    ensures { result ≡ false → IsReportApart exploring.now }
{
    match exploring.junit {
        Some(name) => is_read(outside, name, exploring),
        None => false,
    }
}

/// The error for a report that would replace a file that is read, or be replaced by steps, if one would.
fn report_mistake<O: Outside>(
    alloc: Global,
    outside: &O,
    exploring: &Exploring<'_>,
) -> Option<Result<Error, AllocError>>
    ensures apart { IfNone result (IsReportApart exploring.now) }
    ensures own { IfNone result (IsReportNoSteps exploring.now) }
{
    if is_report_read(outside, exploring) {
        return Some(report_over_input(alloc));
    }
    match is_report_of_steps(alloc, outside, exploring) {
        Ok(true) => Some(report_over_steps(alloc)),
        Ok(false) => None,
        Err(error) => Some(Err(error)),
    }
}

/// Explores the schedules of the texts of two files, or prints their first fault, with status 1. The status is 2 where
/// the words are mistaken, or a file that is read would be written, and 3 after a failure. With status 2 nothing was
/// printed, or all that a search came to. Whatever the status, no file was written or removed but those of steps and of
/// the report, none of these is read, and one that was written has what a search came to, or a beginning of that; and
/// nothing was printed but what the search came to, or the fault. This clock tells how long the search takes.
#[tactic(auto, using(crate::proofs::Doing::refusal_may, crate::proofs::Printing::quietly_refused))]
pub fn run_explore<O: Outside, R: Clock + Threads + Sync>(
    alloc: Global,
    outside: &mut O,
    rt: &R,
    exploring: &Exploring<'_>,
) -> u8
    ensures holds { result ≡ 0 → HoldsOfFiles (O.files outside.old) exploring.now (O.done outside.new) }
    ensures mistaken { result ≡ 2 → PrintsNothing (O.done outside.old) (O.done outside.new)
        ⊎ OfFiles (O.files outside.old) exploring.now (λ s. HasShownAll s (O.done outside.new)) }
    ensures ended { is_refusal result ≡ false →
        EndsOfFiles (O.files outside.old) exploring.now result (O.done outside.new) }
    ensures apart { is_refusal result ≡ false → IsReportApart exploring.now }
    ensures own { is_refusal result ≡ false → IsReportNoSteps exploring.now }
    ensures shown { PrintsOfFiles (O.files outside.old) exploring.now (O.done outside.old) (O.done outside.new) }
    ensures keeps { KeepsFiles exploring.now (O.done outside.old) (O.done outside.new) }
{
    if let Some(mistake) = report_mistake(alloc, outside, exploring) {
        return refuse_mistake(outside, mistake);
    }
    match wanted_by(alloc, &exploring.asked) {
        Ok(Ok(wanted)) => explore_files(alloc, outside, rt, exploring, &wanted),
        Ok(Err(mistake)) => {
            refuse_mistake(outside, no_question(alloc, &exploring.asked, mistake))
        }
        Err(error) => end(outside, &Failure::Memory(error)),
    }
}
