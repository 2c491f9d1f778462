//! The command `test` of a system: random runs, and the steps of the first that fails an expectation.
ghost use Rattle.std.specs.Prelude.{◌≡◌, None, Some, IfErr, IfNone, IfOk, IfSome, IsOkAnd, IsTrue, OnOk, false};
ghost use Rattle.std.specs.Prelude.{option_map};
ghost use Rattle.fmp_base.specs.Systems.{tables_of};
ghost use Rattle.fmp_looking.specs.declared.wanted.ReadTest.{ReadTest};
ghost use Rattle.fmp_looking.specs.Rates as rates_spec;
ghost use Rattle.fmp_looking.specs.TestDeeds as spec;
ghost use Rattle.fmp_looking.specs.TestDeeds.{EndsTest, FailsTest, HasTested, IsDone, IsRefusal, IsTested};
ghost use Rattle.fmp_looking.specs.TestDeeds.{IsTextOf, MeetsTest};
ghost use Rattle.fmp_looking.specs.TestFiles.{AreApart};

use crate::asking::TestMistake;
use crate::built_system::BuiltSystem;
use crate::exit::ViewExit;
use crate::outputs::{is_coverage_one_file, is_report_over_coverage};
use crate::rates::{rate_mistake, rates_of, say_unhandled};
use crate::reporting::{FailedTest, tested};
use crate::test_coverage::write_coverage;
use crate::test_outputs::{end_memory, end_test, refuse_test};
use crate::test_reports::{expectations_of, write_report};
use crate::test_telling::{tell_found, tell_refused};
use crate::wanted::{ImageTest, ReadTest, TestTexts, Testing};
use fmp_files::{Failure, Outside, end, read_file};
use fmp_trials::InterruptRate;
use std::alloc::Global;
use std::thread::Threads;

/// The status where a run fails an expectation.
const FAILS: u8 = 4;

/// Whether a file, if one is named, is one of those that a test reads.
fn is_over_input<O: Outside>(outside: &O, out: Option<&str>, test: &ImageTest<'_>) -> bool
    ensures none { out.entry ≡ None → result ≡ false }
    ensures expect { IfSome out.entry (λ out. out.now ≡ test.now.expect.now → IsTrue result) }
    ensures cfg { IfSome out.entry (λ out. out.now ≡ test.now.testing.cfg.now → IsTrue result) }
    ensures src { IfSome out.entry (λ out. out.now ≡ test.now.testing.src.now → IsTrue result) }
{
    match out {
        Some(out) => {
            outside.is_one_file(out, test.expect)
                || outside.is_one_file(out, test.testing.cfg)
                || outside.is_one_file(out, test.testing.src)
        }
        None => false,
    }
}

/// The mistake of writing over a file that is read, or of writing one twice, if that would be so.
fn output_mistake<O: Outside>(outside: &O, test: &ImageTest<'_>) -> Option<TestMistake>
    ensures { IfNone result (AreApart test.now) }
{
    let files = test.testing.files;
    let junit = test.testing.junit;
    if is_coverage_one_file(outside, files) || is_report_over_coverage(outside, junit, files) {
        return Some(TestMistake::WrittenTwice);
    }
    if is_over_input(outside, junit, test) {
        return Some(TestMistake::ReportOverInput);
    }
    if is_over_input(outside, files.lcov, test) || is_over_input(outside, files.coverage, test) {
        return Some(TestMistake::CoverageOverInput);
    }
    None
}

/// How many runs were made, of which this one fails, if one does: the runs after it are not made.
fn runs_made(read: &ReadTest<'_>, found: Option<&FailedTest>) -> u64
    ensures { result ≡ spec.runs_made read.now (option_map (λ f. f.now) found.entry) }
{
    let test = read.test;
    match found {
        Some(failed) => failed.trial.seed,
        None => u64::from(test.testing.seeds),
    }
}

/// Writes the coverage and the report of a test, and tells what came of it.
fn tell_all<O: Outside, R: Threads + Sync>(
    alloc: Global,
    outside: &mut O,
    rt: &R,
    read: &ReadTest<'_>,
    found: Option<&FailedTest>,
) -> Result<(), u8>
    ensures ok { OnOk result (HasTested read.now (option_map (λ f. f.now) found.entry) (O.done outside.old)
        (O.done outside.new)) }
    ensures err { IfErr result IsRefusal }
{
    let runs = runs_made(read, found);
    write_coverage(alloc, outside, rt, read, runs)?;
    write_report(alloc, outside, read, found)?;
    tell_found(alloc, outside, read, found)?;
    tell_refused(alloc, outside, read, runs)
}

/// The status of a test that is made.
fn verdict_status(found: Option<&FailedTest>) -> u8
    ensures { result ≡ spec.verdict_status (option_map (λ f. f.now) found.entry) }
{
    match found {
        Some(_) => FAILS,
        None => 0,
    }
}

/// Tells what came of a test, and gives the status.
#[tactic(auto, using(crate::proofs::TestEnds::not_done))]
fn ended<O: Outside, R: Threads + Sync>(
    alloc: Global,
    outside: &mut O,
    rt: &R,
    read: &ReadTest<'_>,
    found: Option<&FailedTest>,
) -> u8
    ensures status { IsDone result → result ≡ spec.verdict_status (option_map (λ f. f.now) found.entry) }
    ensures tested { IsDone result → HasTested read.now (option_map (λ f. f.now) found.entry) (O.done outside.old)
        (O.done outside.new) }
{
    match tell_all(alloc, outside, rt, read, found) {
        Ok(()) => verdict_status(found),
        Err(status) => status,
    }
}

/// The random run of a test that fails, if one does.
fn found_by<R: Threads + Sync>(
    alloc: Global,
    rt: &R,
    read: &ReadTest<'_>,
) -> Result<Option<FailedTest>, ViewExit>
    ensures fails { IfOk result (λ found. IfSome found (FailsTest read.now)) }
    ensures meets { IfOk result (λ found. IfNone found (MeetsTest read.now)) }
{
    let ReadTest { test, texts } = *read;
    let expectations = expectations_of(test.expect, texts.expectations);
    tested(alloc, rt, test, texts.src, &expectations)
}

/// Makes a test whose files are apart, and gives the status.
#[tactic(auto, using(crate::proofs::TestEnds::not_done))]
fn run_read<O: Outside, R: Threads + Sync>(
    alloc: Global,
    outside: &mut O,
    rt: &R,
    read: &ReadTest<'_>,
) -> u8
    requires { AreApart read.now.test.now }
    ensures { IsDone result → IsTested read.now (O.done outside.old) (O.done outside.new) result }
{
    match found_by(alloc, rt, read) {
        Ok(found) => ended(alloc, outside, rt, read, found.as_ref()),
        Err(exit) => end_test(outside, &exit),
    }
}

/// The texts of the files of a test.
#[derive(Drop)]
struct TestSources {
    src: Vec<u8>,
    expectations: Vec<u8>,
}

/// Reads the files of a test.
fn sources_of<O: Outside>(
    alloc: Global,
    outside: &O,
    test: &ImageTest<'_>,
) -> Result<TestSources, Failure>
    ensures src { IfOk result (λ s. IsTextOf (O.files outside.now) test.now.testing.src.now s.src.items) }
    ensures expectations { IfOk result (λ s. IsTextOf (O.files outside.now) test.now.expect.now s.expectations.items) }
{
    let expectations = read_file(alloc, outside, test.expect, None)?;
    let src = read_file(alloc, outside, test.testing.src, None)?;
    Ok(TestSources { src, expectations })
}

/// Makes a test with these texts, and gives the status.
fn run_sources<O: Outside, R: Threads + Sync>(
    alloc: Global,
    outside: &mut O,
    rt: &R,
    test: &ImageTest<'_>,
    sources: &TestSources,
) -> u8
    requires { AreApart test.now }
    ensures { IsDone result → (read : ReadTest) × (read.test.now ≡ test.now)
        × (read.texts.src.now ≡ sources.now.src.items)
        × (read.texts.expectations.now ≡ sources.now.expectations.items)
        × IsTested read (O.done outside.old) (O.done outside.new) result }
{
    let read = ReadTest {
        test,
        texts: TestTexts {
            src: &sources.src,
            expectations: &sources.expectations,
        },
    };
    run_read(alloc, outside, rt, &read)
}

/// Makes a test, unless it would write over a file that is read, or write one twice, and gives the status.
#[tactic(auto, using(crate::proofs::TestEnds::not_done, crate::proofs::TestEnds::three_refuses))]
fn run_test<O: Outside, R: Threads + Sync>(
    alloc: Global,
    outside: &mut O,
    rt: &R,
    test: &ImageTest<'_>,
    sources: Result<TestSources, Failure>,
) -> u8
    ensures { IsDone result → IsOkAnd sources (λ s. (read : ReadTest) × (read.test.now ≡ test.now)
        × (read.texts.src.now ≡ s.src.items) × (read.texts.expectations.now ≡ s.expectations.items)
        × IsTested read (O.done outside.old) (O.done outside.new) result) }
{
    if let Some(mistake) = output_mistake(outside, test) {
        return refuse_test(alloc, outside, mistake);
    }
    match sources {
        Ok(sources) => run_sources(alloc, outside, rt, test, &sources),
        Err(failure) => end(outside, &failure),
    }
}

/// The file of what is expected in a test in which interrupts come at these rates, or what is wrong with the test.
fn expect_of<'a>(testing: &Testing<'a>, rates: &[InterruptRate]) -> Result<&'a str, TestMistake>
    ensures expect { IfOk result (λ expect. testing.now.expect ≡ Some expect) }
    ensures right { IfOk result (λ _. rates_spec.rate_mistake testing.now.tick rates.now ≡ None) }
{
    if let Some(mistake) = rate_mistake(testing.tick, rates) {
        return Err(mistake);
    }
    match testing.expect {
        Some(expect) => Ok(expect),
        None => Err(TestMistake::NothingExpected),
    }
}

/// Makes random runs of a system: it prints the steps of the first that fails an expectation, made shorter, with status
/// 4. If none fails, it prints nothing, with status 0. Its threads are those of this runtime.
#[tactic(auto, using(crate::proofs::TestEnds::not_done))]
pub fn test_image<O: Outside, R: Threads + Sync>(
    alloc: Global,
    outside: &mut O,
    rt: &R,
    built: &BuiltSystem<'_>,
    testing: &Testing<'_>,
) -> u8
    ensures { IsDone result → EndsTest (O.files outside.old) built.now testing.now (O.done outside.old)
        (O.done outside.new) result }
{
    match rates_of(alloc, built.configured, testing.rates) {
        Ok(Some(rates)) => match expect_of(testing, &rates) {
            Ok(expect) => {
                let test = ImageTest {
                    image: built.image,
                    configured: built.configured,
                    expect,
                    rates: &rates,
                    testing: *testing,
                };
                let sources = sources_of(alloc, outside, &test);
                say_unhandled(outside, built.configured, &rates);
                run_test(alloc, outside, rt, &test, sources)
            }
            Err(mistake) => refuse_test(alloc, outside, mistake),
        },
        Ok(None) => refuse_test(alloc, outside, TestMistake::Rate),
        Err(error) => end_memory(outside, error),
    }
}
