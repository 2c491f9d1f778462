//! The coverage of the text of the bodies by the random runs of `test`.
ghost use Rattle.std.specs.Prelude.{◌++◌, IfErr, IfOk, OnOk, option_map};
ghost use Rattle.fmp_files.specs.Deeds.{Does};
ghost use Rattle.fmp_looking.specs.Covered.{IsTable, IsTestSeen, IsTracefile, Seen, seen_of};
ghost use Rattle.fmp_looking.specs.FilesWritten.{file_written};
ghost use Rattle.fmp_looking.specs.TestDeeds.{Covers, IsRefusal};

use crate::call_sentences::CallJudge;
use crate::coverage_files::write_coverage_files;
use crate::covering::RunsSeen;
use crate::exit::{ViewExit, memory};
use crate::expecting::other_expected;
use crate::open_image::OpenImage;
use crate::refused::NamedText;
use crate::reporting::plan_of;
use crate::trying::Trials;
use crate::trying_beside::seen_of_trials;
use crate::wanted::{CoverageFiles, ImageTest, ReadTest, TestTexts};
use fmp_files::{Outside, end};
use std::alloc::{AllocError, Global};
use std::thread::Threads;

/// The coverage of a text by runs.
#[derive(Drop)]
struct Covered {
    tracefile: Vec<u8>,
    table: Vec<u8>,
}

/// What is seen of the first random runs of a test, this many.
fn seen_by<R: Threads + Sync>(
    alloc: Global,
    rt: &R,
    test: &ImageTest<'_>,
    texts: TestTexts<'_>,
    runs: u64,
) -> Result<RunsSeen, ViewExit>
    ensures { IfOk result (λ seen. IsTestSeen test.now texts.entry runs (seen_of seen)) }
{
    let expected = other_expected(alloc, test.configured, texts.expectations)?;
    let judge = CallJudge::none(test.image);
    let trials = Trials {
        opened: OpenImage {
            image: test.image,
            bound: test.testing.bound,
        },
        expected: &expected,
        judge: &judge,
        plan: plan_of(test),
        jobs: test.testing.jobs,
    };
    match seen_of_trials(alloc, rt, &trials, texts.src, runs) {
        Ok(seen) => Ok(seen),
        Err(error) => Err(memory(error)),
    }
}

/// The coverage of this text by runs of which this is seen.
fn covered_of(alloc: Global, seen: &RunsSeen, source: NamedText<'_>) -> Result<Covered, AllocError>
    ensures tracefile { IfOk result (λ c. IsTracefile source.entry.name.now source.entry.text.now (seen_of seen.now)
        c.tracefile.items) }
    ensures table { IfOk result (λ c. IsTable source.entry.name.now source.entry.text.now (seen_of seen.now)
        c.table.items) }
{
    Ok(Covered {
        tracefile: seen.tracefile(alloc, source.name, source.text)?,
        table: seen.table(alloc, source.name, source.text)?,
    })
}

/// The coverage of the text of the bodies by the first random runs of a test, this many.
fn covered_by<R: Threads + Sync>(
    alloc: Global,
    rt: &R,
    read: &ReadTest<'_>,
    runs: u64,
) -> Result<Covered, ViewExit>
    ensures { IfOk result (λ c. (s : Seen) × IsTestSeen read.now.test.now read.now.texts runs s
        × IsTracefile read.now.test.now.testing.src.now read.now.texts.src.now s c.tracefile.items
        × IsTable read.now.test.now.testing.src.now read.now.texts.src.now s c.table.items) }
{
    let ReadTest { test, texts } = *read;
    let seen = seen_by(alloc, rt, test, texts, runs)?;
    let source = NamedText {
        name: test.testing.src,
        text: texts.src,
    };
    match covered_of(alloc, &seen, source) {
        Ok(covered) => Ok(covered),
        Err(error) => Err(memory(error)),
    }
}

/// Writes coverage to these files. The error is the status that the program ends with.
#[tactic(auto, using(crate::proofs::TestEnds::three_refuses))]
fn write_covered<O: Outside>(
    alloc: Global,
    outside: &mut O,
    files: CoverageFiles<'_>,
    covered: &Covered,
) -> Result<(), u8>
    ensures ok { OnOk result (Does (O.done outside.old)
        (file_written (option_map (λ n. n.now) files.entry.lcov) covered.now.tracefile.items
        ++ file_written (option_map (λ n. n.now) files.entry.coverage) covered.now.table.items)
        (O.done outside.new)) }
    ensures err { IfErr result IsRefusal }
{
    match write_coverage_files(alloc, outside, files, &covered.tracefile, &covered.table) {
        Ok(()) => Ok(()),
        Err(failure) => Err(end(outside, &failure)),
    }
}

/// Writes the coverage by the first random runs of a test, this many.
#[tactic(auto, using(crate::proofs::TestEnds::exit_refuses, crate::proofs::TestEnds::refusal_by))]
fn write_asked<O: Outside, R: Threads + Sync>(
    alloc: Global,
    outside: &mut O,
    rt: &R,
    read: &ReadTest<'_>,
    runs: u64,
) -> Result<(), u8>
    ensures ok { OnOk result (Covers read.now runs (O.done outside.old) (O.done outside.new)) }
    ensures err { IfErr result IsRefusal }
{
    let test = read.test;
    match covered_by(alloc, rt, read, runs) {
        Ok(covered) => write_covered(alloc, outside, test.testing.files, &covered),
        Err(exit) => Err(end(outside, &exit)),
    }
}

/// Writes the coverage by the first random runs of a test, this many, where that is asked for. A run goes up to the
/// first event that breaks an expectation which is not about the calls of a line. The error is the status that the
/// program ends with.
#[tactic(auto, using(crate::proofs::TestEnds::covers_none))]
pub fn write_coverage<O: Outside, R: Threads + Sync>(
    alloc: Global,
    outside: &mut O,
    rt: &R,
    read: &ReadTest<'_>,
    runs: u64,
) -> Result<(), u8>
    ensures ok { OnOk result (Covers read.now runs (O.done outside.old) (O.done outside.new)) }
    ensures err { IfErr result IsRefusal }
{
    let test = read.test;
    let files = test.testing.files;
    match (files.lcov, files.coverage) {
        (None, None) => Ok(()),
        _ => write_asked(alloc, outside, rt, read, runs),
    }
}
