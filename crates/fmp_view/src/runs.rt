//! The files of runs: what a look makes of a run, and where it is written.
ghost use Rattle.std.specs.Prelude.{◌≡◌, ◌∷◌, ◌⊎◌, [], IfOk, IsTrue, MatchOption, false};
ghost use Rattle.fmp_files.specs.Deeds.{Does, wrote};
ghost use Rattle.fmp_foreign.specs.Foreign.{foreign_meaning};
ghost use Rattle.fmp_foreign.specs.Hosting.{reaction};
ghost use Rattle.fmp_instructions.specs.Machine.{code_meaning};
ghost use Rattle.fmp_kernel.specs.Comings.{reaction_of};
ghost use Rattle.fmp_looking.specs.TestDeeds.{IsRefusal};
ghost use Rattle.fmp_recording.specs.Replaying.{new_kernel};
ghost use Rattle.fmp_replay.specs.Replays.{kernel_after};
ghost use Rattle.fmp_view.specs.Runs.{OfRecordingFiles, OfRun, OfStepsFiles, came_of, system_of};

use crate::asking::RunFiles;
use fmp_files::{Outside, end, write_file};
use fmp_looking::{RunLook, StepsRun, ViewExit, look_at_image, look_at_recording};
use fmp_searching::read_both;
use std::alloc::Global;

/// What a look makes of a run over a steps text, with this bound of a stretch.
fn made_of_steps<O: Outside, L: RunLook>(
    alloc: Global,
    outside: &O,
    image: &str,
    steps: &str,
    bound: u64,
    look: &L,
) -> Result<L::Made, ViewExit>
    ensures { IfOk result (λ made. OfStepsFiles (O.files outside.now) image.now steps.now (λ i es. L.makes look.now
        code_meaning (reaction_of code_meaning) (kernel_after i bound []) es [] made)) }
{
    let both = read_both(alloc, outside, image, steps)?;
    let run = StepsRun {
        image: &both.0,
        steps: &both.1,
        bound,
    };
    look_at_image(alloc, look, run)
}

/// What a look makes of a recorded run.
fn made_of_recording<O: Outside, L: RunLook>(
    alloc: Global,
    outside: &O,
    cfg: &str,
    recording: &str,
    look: &L,
) -> Result<L::Made, ViewExit>
    ensures { IfOk result (λ made. OfRecordingFiles (O.files outside.now) cfg.now recording.now (λ sys gs times.
        L.makes look.now foreign_meaning reaction (new_kernel sys) gs times made)) }
{
    let both = read_both(alloc, outside, cfg, recording)?;
    look_at_recording(alloc, look, &both.0, &both.1)
}

/// What a look makes of a run.
pub fn made_of_run<O: Outside, L: RunLook>(
    alloc: Global,
    outside: &O,
    run: RunFiles<'_>,
    look: &L,
) -> Result<L::Made, ViewExit>
    ensures { IfOk result (λ made. OfRun (O.files outside.now) run.entry
        (λ bound i es. L.makes look.now code_meaning (reaction_of code_meaning) (kernel_after i bound []) es [] made)
        (λ sys gs times. L.makes look.now foreign_meaning reaction (new_kernel sys) gs times made)) }
{
    match run {
        RunFiles::Steps {
            image,
            steps,
            bound,
        } => made_of_steps(alloc, outside, image, steps, bound, look),
        RunFiles::Recording { cfg, recording } => {
            made_of_recording(alloc, outside, cfg, recording, look)
        }
    }
}

/// Writes all that there is to write to a file, and gives the status.
#[tactic(auto, using(fmp_looking::proofs::TestEnds::three_refuses))]
pub fn write<O: Outside>(alloc: Global, outside: &mut O, out: &str, bytes: &[u8]) -> u8
    ensures written { result ≡ 0 → Does (O.done outside.old) (wrote out.now bytes.now ∷ []) (O.done outside.new) }
    ensures status { (result ≡ 0) ⊎ IsRefusal result }
{
    match write_file(alloc, outside, out, bytes) {
        Ok(()) => 0,
        Err(failure) => end(outside, &failure),
    }
}

/// Whether a file is one of those of a run.
pub fn is_read<O: Outside>(outside: &O, out: &str, run: RunFiles<'_>) -> bool
    ensures system { out.now ≡ system_of run.entry → IsTrue result }
    ensures came { out.now ≡ came_of run.entry → IsTrue result }
{
    let (system, came) = run.files();
    outside.is_one_file(out, system) || outside.is_one_file(out, came)
}

/// Whether a file is this one, if one is given.
pub fn is_this_file<O: Outside>(outside: &O, out: &str, file: Option<&str>) -> bool
    ensures { MatchOption file.entry (result ≡ false) (λ file. out.now ≡ file.now → IsTrue result) }
{
    match file {
        Some(file) => outside.is_one_file(out, file),
        None => false,
    }
}
