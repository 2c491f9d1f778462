//! The replay of a recording on a new kernel: it prints what the recorded run has printed.
ghost use Rattle.std.specs.Prelude.{◌≡◌, ◌++◌, IfErr, IfOk, OnErr, OnOk, length, map};
ghost use Rattle.fmp_base.specs.Runs.{task_state};
ghost use Rattle.fmp_base.specs.States.{places_from};
ghost use Rattle.fmp_base.specs.Systems.{tables_of};
ghost use Rattle.fmp_base.specs.Texts.{states_text};
ghost use Rattle.fmp_recording.specs.Replaying.{HasDone, HasDoneAll, HasReplayed, HasRun, HasTaken, IsCutOff, IsReplay};
ghost use Rattle.fmp_recording.specs.Replaying.{IsReplayFault, IsWhyNotAll, IsWhyNotDone, IsWhyNotRun, IsWhyNotTaken};
ghost use Rattle.fmp_recording.specs.Replaying.{IsWhyStopped, LeavesRun, LeavesTrace, RecordedLinesAreReplayed};
ghost use Rattle.fmp_recording.specs.Replaying.{RecordedRunsAreReplayed, WholeRunsAreReplayed, new_kernel, text_after};
ghost use Rattle.fmp_recording.specs.Replaying.{text_of};

use crate::faults::RecordingFault;
use crate::reading::read_lines;
use crate::recorded::RecordedLine;
use fmp_base::{Effect, TaskState};
use fmp_foreign::{Foreign, HostedSystem, Refusal};
use fmp_kernel::Kernel;
use fmp_lex::BuildFault;
use fmp_outside::Given;
use fmp_trace::{print, print_states};
use std::alloc::{AllocError, Global};
use thiserror::Error;

/// Why a recording is not replayed to its end.
#[derive(Debug, Drop, Error)]
pub enum ReplayFault {
    /// What is wrong with the configuration.
    #[error("{0}")]
    Configuration(BuildFault),
    /// What is wrong with the text of the recording.
    #[error("{0}")]
    Recording(RecordingFault),
    /// What comes is not taken: a number is out of range, or the kernel takes no more events. `replay_recording` never
    /// answers this.
    #[error("refused")]
    Refused(Refusal),
    /// Memory ran out.
    #[error("memory")]
    Memory,
}

/// Takes what comes, and appends the lines of the event if it is done.
#[tactic(auto, using(crate::proofs::Replays::taken_done, crate::proofs::Replays::taken_kept, crate::proofs::Replays::taken_nothing, crate::proofs::Replays::not_taken))]
fn take_one(hosted: &mut HostedSystem, given: Given, trace: &mut Vec<u8>) -> Result<(), ReplayFault>
    requires { hosted.old.kernel.system ≡ tables_of hosted.old.system }
    ensures ok { OnOk result (HasTaken hosted.old hosted.new given trace.old.items trace.new.items) }
    ensures err { IfErr result (IsWhyNotTaken hosted.old.kernel given) }
    ensures kept { OnErr result (trace.new.items ≡ trace.old.items) }
{
    match hosted.take(given) {
        Ok(Effect::Done) => {
            let Ok(()) = print(
                &hosted.system,
                hosted.kernel.done(),
                hosted.kernel.lines(),
                trace,
            ) else {
                return Err(ReplayFault::Memory);
            };
            Ok(())
        }
        Ok(Effect::Kept) => Ok(()),
        Ok(Effect::Nothing) => Ok(()),
        Err(why) => Err(ReplayFault::Refused(why)),
    }
}

/// Takes what was recorded, one after the other, and appends the lines of each event that is done. It stops at the
/// first that is refused, and where memory runs out: the text then has the lines of the events before that one.
pub fn replay(
    hosted: &mut HostedSystem,
    recording: &[Given],
    trace: &mut Vec<u8>,
) -> Result<(), ReplayFault>
    requires { hosted.old.kernel.system ≡ tables_of hosted.old.system }
    ensures ok { OnOk result (HasReplayed hosted.old hosted.new recording.now trace.old.items trace.new.items) }
    ensures err { IfErr result (IsWhyStopped hosted.old.kernel recording.now) }
    ensures stopped { OnErr result
        (IsCutOff (text_of hosted.old.kernel) recording.now trace.old.items trace.new.items) }
{
    for given in recording {
        take_one(hosted, *given, trace)?;
    }
    Ok(())
}

/// Does what a line says, and appends the lines of the event if one is done.
fn do_line(
    hosted: &mut HostedSystem,
    line: RecordedLine,
    trace: &mut Vec<u8>,
) -> Result<(), ReplayFault>
    requires { hosted.old.kernel.system ≡ tables_of hosted.old.system }
    ensures ok { OnOk result (HasDone hosted.old hosted.new line trace.old.items trace.new.items) }
    ensures err { IfErr result (IsWhyNotDone hosted.old.kernel line) }
    ensures kept { OnErr result (trace.new.items ≡ trace.old.items) }
{
    match line {
        RecordedLine::Came(given) => take_one(hosted, given, trace),
        RecordedLine::Restart => {
            hosted.restart_count();
            Ok(())
        }
    }
}

/// Does what the lines of a recording say, one after the other: takes what came, and has the counts begin again where
/// they did. It appends the lines of each event that is done. It stops at the first that is refused, and where memory
/// runs out: the text then has the lines of the events before that one.
pub fn replay_lines(
    hosted: &mut HostedSystem,
    lines: &[RecordedLine],
    trace: &mut Vec<u8>,
) -> Result<(), ReplayFault>
    requires { hosted.old.kernel.system ≡ tables_of hosted.old.system }
    ensures ok { OnOk result (HasDoneAll hosted.old hosted.new lines.now trace.old.items trace.new.items) }
    ensures err { IfErr result (IsWhyNotAll hosted.old.kernel lines.now) }
    ensures stopped { OnErr result
        (IsCutOff (text_after hosted.old.kernel) lines.now trace.old.items trace.new.items) }
{
    for line in lines {
        do_line(hosted, *line, trace)?;
    }
    Ok(())
}

/// The states of all tasks, in order of number.
fn states_of(alloc: Global, kernel: &Kernel<Foreign>) -> Result<Vec<TaskState>, AllocError>
    ensures { IfOk result (λ states. states.items
        ≡ map (task_state kernel.now.world.state) (places_from 0 (length kernel.now.system.tasks))) }
{
    let mut states = Vec::new(alloc);
    let count = kernel.tables().task_count() as u8;
    for t in 0..count {
        states.push(kernel.state(t))?;
    }
    Ok(states)
}

/// Appends the states of all tasks.
fn append_states(
    alloc: Global,
    hosted: &HostedSystem,
    trace: &mut Vec<u8>,
) -> Result<(), AllocError>
    requires { hosted.now.kernel.system ≡ tables_of hosted.now.system }
    ensures ok { OnOk result (trace.new.items
        ≡ trace.old.items ++ states_text (tables_of hosted.now.system) hosted.now.kernel.world.state) }
    ensures err { OnErr result (trace.new.items ≡ trace.old.items) }
{
    let states = states_of(alloc, &hosted.kernel)?;
    print_states(&hosted.system, states.as_slice(), trace)
}

/// Reads a recording, and does what its lines say, up to the states at the end.
fn replay_text(
    alloc: Global,
    hosted: &mut HostedSystem,
    recording: &[u8],
    trace: &mut Vec<u8>,
) -> Result<(), ReplayFault>
    requires { hosted.old.kernel ≡ new_kernel (tables_of hosted.old.system) }
    ensures ok { OnOk result (HasRun hosted.old.system recording.now trace.old.items trace.new.items) }
    ensures err { IfErr result (IsWhyNotRun hosted.old.system recording.now) }
    ensures left { IfErr result (LeavesRun hosted.old.system recording.now trace.old.items trace.new.items) }
{
    let lines = read_lines(alloc, recording, hosted.system.processors).map_err(
        ReplayFault::Recording,
    )?;
    let Ok(()) = print(&hosted.system, 0, hosted.kernel.lines(), trace) else {
        return Err(ReplayFault::Memory);
    };
    replay_lines(hosted, lines.as_slice(), trace)?;
    let Ok(()) = append_states(alloc, hosted, trace) else {
        return Err(ReplayFault::Memory);
    };
    Ok(())
}

/// Appends the trace of a recorded run: the lines of setup, those of each event that is done, and the states of the
/// tasks at the end. Where the recording says that the counts began again, they do so in the replay, and the numbers of
/// events and of the clock begin again in the trace. The system is that of the configuration. A fault of the
/// configuration or of the recording appends nothing. If memory runs out, nothing of the trace is appended, or its
/// beginning up to the lines of some event.
pub fn replay_recording(
    alloc: Global,
    cfg: &[u8],
    recording: &[u8],
    trace: &mut Vec<u8>,
) -> Result<(), ReplayFault>
    ensures ok { OnOk result (IsReplay cfg.now recording.now trace.old.items trace.new.items) }
    ensures err { IfErr result (IsReplayFault cfg.now recording.now) }
    ensures left { IfErr result (LeavesTrace cfg.now recording.now trace.old.items trace.new.items) }
{
    match HostedSystem::new(alloc, cfg) {
        Ok(mut hosted) => {
            let replayed = replay_text(alloc, &mut hosted, recording, trace);
            drop(hosted);
            replayed
        }
        Err(why) => Err(ReplayFault::Configuration(why)),
    }
}

/// What `print_recording` writes of a run is replayed to the trace of this run, and what `print_lines` writes to the
/// trace of what these lines say. So is any recording whose counts never began again to the trace of its run.
pub fn recorded_runs_are_replayed()
    ensures printed { RecordedRunsAreReplayed }
    ensures lines { RecordedLinesAreReplayed }
    ensures whole { WholeRunsAreReplayed }
{}
