//! What is told of the random runs of a test.
ghost use Rattle.std.specs.Prelude.{◌≡◌, ◌∷◌, ◌++◌, [], IfErr, List, ℕ, OnOk, Option, codes, decimal, false};
ghost use Rattle.std.specs.Prelude.{option_map, true};
ghost use Rattle.std.specs.Str.Lossy.{utf8_lossy};
ghost use Rattle.fmp_files.specs.Deeds.{Deed, Does, said};
ghost use Rattle.fmp_files.specs.Prints.{Prints};
ghost use Rattle.fmp_looking.specs.TestDeeds.{IsRefusal, TellsFound, TellsLines};
ghost use Rattle.fmp_looking.specs.TestLines as spec;
ghost use Rattle.fmp_looking.specs.TestLines.{none_line, seed_line};
ghost use Rattle.fmp_looking.specs.TestRefusals.{AreTestRefusals};

use crate::reporting::FailedTest;
use crate::test_outputs::{end_memory, end_test, printed, say_text};
use crate::test_records::test_record;
use crate::test_refusals::test_refusals;
use crate::test_reports::expectations_of;
use crate::wanted::ReadTest;
use fmp_files::Outside;
use fmp_trials::FailedTrial;
use std::alloc::Global;

/// What is said of a run that may get shorter, or may not.
fn shorter_still(shortest: bool) -> &'static str
    ensures { result.now ≡ spec.shorter_still shortest }
{
    if shortest {
        ""
    } else {
        "; it may get shorter still"
    }
}

/// Says that the run of this seed fails, how many events it had, and how many are left.
fn say_shortened<O: Outside>(outside: &mut O, seed: u64, drawn: usize, left: usize, end: &str)
    ensures { Does (O.done outside.old) (said (codes "seed " ++ (decimal seed ++ (codes ": " ++ (decimal drawn
        ++ (codes " events, made shorter to " ++ (decimal left ++ (end.now ++ codes "\n"))))))) ∷ [])
        (O.done outside.new) }
{
    outside.say(format_args!("seed {seed}: {drawn} events, made shorter to {left}{end}\n"));
}

/// Says which run fails, and how much shorter it became.
fn say_seed<O: Outside>(outside: &mut O, trial: &FailedTrial)
    ensures { Does (O.done outside.old) (said (seed_line trial.now) ∷ []) (O.done outside.new) }
{
    let left = trial.run.steps.len();
    let end = shorter_still(trial.shortest);
    say_shortened(outside, trial.seed, trial.drawn, left, end);
}

/// Says which run fails, and what `expect` says of it.
fn say_failed<O: Outside>(alloc: Global, outside: &mut O, failed: &FailedTest) -> Result<(), u8>
    ensures ok { OnOk result (Does (O.done outside.old)
        (said (seed_line failed.now.trial) ∷ said (utf8_lossy failed.now.report.items) ∷ []) (O.done outside.new)) }
    ensures err { IfErr result IsRefusal }
{
    say_seed(outside, &failed.trial);
    say_text(alloc, outside, &failed.report)
}

/// Says which run fails, and prints its steps.
fn print_failed<O: Outside>(alloc: Global, outside: &mut O, failed: &FailedTest) -> Result<(), u8>
    ensures ok { OnOk result ((between : Option (List Deed)) × Does (O.done outside.old)
        (said (seed_line failed.now.trial) ∷ said (utf8_lossy failed.now.report.items) ∷ []) between
        × Prints between failed.now.steps.items (O.done outside.new)) }
    ensures err { IfErr result IsRefusal }
{
    say_failed(alloc, outside, failed)?;
    printed(alloc, outside, &failed.steps)
}

/// Says that no run failed, which says nothing of other runs.
fn say_none<O: Outside>(outside: &mut O, seeds: u32)
    ensures { Does (O.done outside.old) (said (none_line seeds) ∷ []) (O.done outside.new) }
{
    outside.say(format_args!("none of {seeds} runs fails; nothing is claimed of other runs\n"));
}

/// Prints what comes of a test as an object of JSON.
fn print_record<O: Outside>(
    alloc: Global,
    outside: &mut O,
    read: &ReadTest<'_>,
    found: Option<&FailedTest>,
) -> Result<(), u8>
    ensures ok { OnOk result (TellsFound true read.now (option_map (λ f. f.now) found.entry) (O.done outside.old)
        (O.done outside.new)) }
    ensures err { IfErr result IsRefusal }
{
    let ReadTest { test, texts } = *read;
    let expectations = expectations_of(test.expect, texts.expectations);
    match test_record(alloc, &expectations, test.testing.seeds, found) {
        Ok(record) => printed(alloc, outside, &record),
        Err(error) => Err(end_memory(outside, error)),
    }
}

/// Says what came of random runs, and prints the steps of the one that fails, if one does.
fn print_found<O: Outside>(
    alloc: Global,
    outside: &mut O,
    read: &ReadTest<'_>,
    found: Option<&FailedTest>,
) -> Result<(), u8>
    ensures ok { OnOk result (TellsFound false read.now (option_map (λ f. f.now) found.entry) (O.done outside.old)
        (O.done outside.new)) }
    ensures err { IfErr result IsRefusal }
{
    let test = read.test;
    match found {
        Some(failed) => print_failed(alloc, outside, failed),
        None => {
            say_none(outside, test.testing.seeds);
            Ok(())
        }
    }
}

/// Tells what came of a test.
pub fn tell_found<O: Outside>(
    alloc: Global,
    outside: &mut O,
    read: &ReadTest<'_>,
    found: Option<&FailedTest>,
) -> Result<(), u8>
    ensures ok { OnOk result (TellsFound read.now.test.now.testing.json read.now (option_map (λ f. f.now) found.entry)
        (O.done outside.old) (O.done outside.new)) }
    ensures err { IfErr result IsRefusal }
{
    let test = read.test;
    if test.testing.json {
        print_record(alloc, outside, read, found)
    } else {
        print_found(alloc, outside, read, found)
    }
}

/// Says lines, or prints objects of JSON, if there are some.
#[tactic(auto, using(crate::proofs::TestEnds::lines_none, crate::proofs::TestEnds::lines_some))]
fn tell_lines<O: Outside>(
    alloc: Global,
    outside: &mut O,
    json: bool,
    lines: &[u8],
) -> Result<(), u8>
    ensures ok { OnOk result (TellsLines json lines.now (O.done outside.old) (O.done outside.new)) }
    ensures err { IfErr result IsRefusal }
{
    if lines.is_empty() {
        return Ok(());
    }
    if json {
        printed(alloc, outside, lines)
    } else {
        say_text(alloc, outside, lines)
    }
}

/// Tells which calls are refused in the first random runs of a test, this many.
pub fn tell_refused<O: Outside>(
    alloc: Global,
    outside: &mut O,
    read: &ReadTest<'_>,
    runs: u64,
) -> Result<(), u8>
    ensures ok { OnOk result ((lines : List ℕ) × AreTestRefusals read.now.test.now read.now.texts runs lines
        × TellsLines read.now.test.now.testing.json lines (O.done outside.old) (O.done outside.new)) }
    ensures err { IfErr result IsRefusal }
{
    let ReadTest { test, texts } = *read;
    match test_refusals(alloc, test, texts, runs) {
        Ok(lines) => tell_lines(alloc, outside, test.testing.json, &lines),
        Err(exit) => Err(end_test(outside, &exit)),
    }
}
