//! Why the program ends with nothing printed.
ghost use Rattle.fmp_stress.specs.Exits.{status_of};

use fmp_files::{Failure, Reason};
use fmp_hostrun::BoardFault;
use fmp_image_bytes::LoadFault;
use std::fmt;

/// Why the program ends with nothing printed: its message is one line.
#[derive(Drop)]
pub enum StressExit {
    /// The bytes spell no image.
    Load(LoadFault),
    /// There is no such board.
    Board(BoardFault),
    /// A file could not be read or written, or memory ran out.
    Failed(Failure),
}

impl From<Failure> for StressExit {
    fn from(failure: Failure) -> Self {
        StressExit::Failed(failure)
    }
}

impl fmt::Display for StressExit {
    fn fmt<W: fmt::Write>(&self, f: &mut fmt::Formatter<W>) -> fmt::Result {
        match self {
            StressExit::Load(fault) => write!(f, "{fault}"),
            StressExit::Board(fault) => write!(f, "board: {fault}"),
            StressExit::Failed(failure) => write!(f, "{failure}"),
        }
    }
}

impl Reason for StressExit {
    ghost status_of = { λ exit. status_of exit };

    /// The status that the program ends with: 1 for a fault of what was read or if there is no such board, 3 for a
    /// failure or if memory ran out.
    fn status(&self) -> u8 {
        match self {
            StressExit::Load(LoadFault::Memory) | StressExit::Board(BoardFault::Memory) => 3,
            StressExit::Load(_) | StressExit::Board(_) => 1,
            StressExit::Failed(_) => 3,
        }
    }
}
