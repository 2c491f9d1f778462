//! Why the program ends with nothing printed.
ghost use Rattle.std.specs.Prelude.{◌≡◌};
ghost use Rattle.fmp_looking.specs.Exits.{exit_of_run, status_of};

use crate::kinds::Misplaced;
use crate::timeline::TimelineFault;
use fmp_engine::SimFault;
use fmp_files::{Failure, Reason};
use fmp_lex::BuildFault;
use fmp_recording::RecordingFault;
use std::alloc::AllocError;
use std::fmt;

/// Why the program ends with nothing printed: its message is one line, and a second one of a file in a wrong place or
/// of a recording that cannot be replayed.
#[derive(Drop)]
pub enum ViewExit {
    /// The image is not run.
    Sim(SimFault),
    /// The image is not run, since a file of another kind is given.
    Misplaced(Misplaced),
    /// The task text is not that of the image: they have not the same calls.
    OtherText,
    /// The configuration of a recorded run has this fault.
    Configuration(BuildFault),
    /// The recording is not read.
    Recording(RecordingFault),
    /// The recording is not read, since it has the last events of its run alone.
    LastEvents,
    /// There is no such picture of the run.
    Picture(TimelineFault),
    /// The expectations are not read, and this is said of their first fault.
    Expect(String),
    /// A file could not be read or written, or memory ran out.
    Failed(Failure),
}

impl From<Failure> for ViewExit {
    fn from(failure: Failure) -> Self {
        ViewExit::Failed(failure)
    }
}

impl fmt::Display for ViewExit {
    ghost use Rattle.fmp_looking.specs.Exits.{exit_message};

    ghost output = { λ exit. exit_message exit };

    fn fmt<W: fmt::Write>(&self, f: &mut fmt::Formatter<W>) -> fmt::Result {
        match self {
            ViewExit::Sim(fault) => write!(f, "{fault}"),
            ViewExit::Misplaced(misplaced) => write!(f, "{misplaced}"),
            ViewExit::OtherText => write!(
                f,
                "SRC is not the task text of the image: their calls differ"
            ),
            ViewExit::Configuration(fault) => write!(f, "{fault}"),
            ViewExit::Recording(fault) => write!(f, "{fault}"),
            ViewExit::LastEvents => write!(
                f,
                "recording:1: R1\nit has the last events alone, which cannot be replayed"
            ),
            ViewExit::Picture(fault) => write!(f, "{fault}"),
            ViewExit::Expect(text) => write!(f, "{text}"),
            ViewExit::Failed(failure) => write!(f, "{failure}"),
        }
    }
}

impl Reason for ViewExit {
    ghost status_of = { λ exit. status_of exit };

    /// The status that the program ends with: 1 for a fault of what was read, 2 if the run has no such picture, 3 for a
    /// failure or if memory ran out.
    fn status(&self) -> u8 {
        match self {
            ViewExit::Sim(SimFault::Memory)
            | ViewExit::Configuration(BuildFault::Memory)
            | ViewExit::Recording(RecordingFault::Memory)
            | ViewExit::Failed(_) => 3,
            ViewExit::Sim(_)
            | ViewExit::Misplaced(_)
            | ViewExit::OtherText
            | ViewExit::Configuration(_)
            | ViewExit::Recording(_)
            | ViewExit::LastEvents
            | ViewExit::Expect(_) => 1,
            ViewExit::Picture(_) => 2,
        }
    }
}

/// Out of memory, as a reason.
pub fn memory(error: AllocError) -> ViewExit
    ensures { result ≡ ViewExit.Failed (Failure.Memory error) }
{
    ViewExit::Failed(Failure::Memory(error))
}

/// Why nothing of a run is printed or drawn.
pub fn exit_of(fault: TimelineFault) -> ViewExit
    ensures { result ≡ exit_of_run fault }
{
    match fault {
        TimelineFault::Sim(fault) => ViewExit::Sim(fault),
        fault => ViewExit::Picture(fault),
    }
}
