//! The difference of two runs of a system.
ghost use Rattle.std.specs.Prelude.{ℕ, IfErr, IfOk, List, option_map};
ghost use Rattle.fmp_looking.specs.TestDeeds.{IsDone, IsRefusal};
ghost use Rattle.fmp_searching.specs.Claimed.{IsFile};
ghost use Rattle.fmp_view.specs.Verdicts.{EndsDiff, EndsFound, IsDifferenceOf, IsFilesDifference};

use crate::asking::RunPair;
use crate::telling::{end_look, printed};
use fmp_files::{Outside, read_file};
use fmp_looking::{ViewExit, diff, diff_recordings};
use fmp_searching::read_both;
use std::alloc::Global;

/// The status where two runs differ, or a run fails an expectation.
pub const DIFFER: u8 = 4;

/// The difference of two runs of the system of these bytes.
fn difference_over<O: Outside>(
    alloc: Global,
    outside: &O,
    system: &[u8],
    runs: RunPair<'_>,
) -> Result<Option<Vec<u8>>, ViewExit>
    ensures { IfOk result (λ text. (a : List ℕ) × IsFile (O.files outside.now) runs.entry.a.now a × (b : List ℕ)
        × IsFile (O.files outside.now) runs.entry.b.now b
        × IsDifferenceOf runs.entry.bound system.now a b (option_map (λ t. t.items) text)) }
{
    let both = read_both(alloc, outside, runs.a, runs.b)?;
    compared(alloc, system, &both.0, &both.1, runs.bound)
}

/// The difference of two runs of the system of these bytes: of an image with the bound of a stretch, or of recordings.
fn compared(
    alloc: Global,
    system: &[u8],
    a: &[u8],
    b: &[u8],
    bound: Option<u64>,
) -> Result<Option<Vec<u8>>, ViewExit>
    ensures { IfOk result (λ text. IsDifferenceOf bound system.now a.now b.now (option_map (λ t. t.items) text)) }
{
    match bound {
        Some(bound) => diff(alloc, system, a, b, bound),
        None => diff_recordings(alloc, system, a, b),
    }
}

/// The difference of two runs of a system.
fn difference_of<O: Outside>(
    alloc: Global,
    outside: &O,
    runs: RunPair<'_>,
) -> Result<Option<Vec<u8>>, ViewExit>
    ensures { IfOk result (λ text. IsFilesDifference (O.files outside.now) runs.entry
        (option_map (λ t. t.items) text)) }
{
    let system = read_file(alloc, outside, runs.system, None)?;
    difference_over(alloc, outside, &system, runs)
}

/// Prints a difference, if there is one, with status 4.
#[tactic(auto, using(fmp_looking::proofs::TestEnds::not_done, fmp_files::specs::PrintsLaws::does_nothing))]
fn print_difference<O: Outside>(
    alloc: Global,
    outside: &mut O,
    made: Result<Option<Vec<u8>>, ViewExit>,
) -> u8
    ensures found { IfOk made (λ text. IsDone result → EndsFound (option_map (λ t. t.items) text) (O.done outside.old)
        (O.done outside.new) result) }
    ensures refused { IfErr made (λ _. IsRefusal result) }
{
    match made {
        Ok(Some(text)) => match printed(alloc, outside, &text) {
            Ok(()) => DIFFER,
            Err(status) => status,
        },
        Ok(None) => 0,
        Err(exit) => end_look(outside, &exit),
    }
}

/// Prints the first event in which two runs of a system differ, with status 4 if they differ.
#[tactic(auto, using(fmp_looking::proofs::TestEnds::not_done))]
pub fn print_diff<O: Outside>(alloc: Global, outside: &mut O, runs: RunPair<'_>) -> u8
    ensures { IsDone result → EndsDiff (O.files outside.old) runs.entry (O.done outside.old) (O.done outside.new)
        result }
{
    let made = difference_of(alloc, outside, runs);
    print_difference(alloc, outside, made)
}
