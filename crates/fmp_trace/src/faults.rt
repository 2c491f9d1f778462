//! What can be wrong with a steps text.
use std::error::Error;
use std::fmt::{self, Display, Formatter, Write};

/// Why a steps text gives no events, with the number of the line, from 1.
#[derive(Clone, Copy, Debug, PartialEq, Eq)]
pub enum StepsFault {
    /// The line is no event.
    Line { line: u32 },
    /// The number of a processor or of an interrupt is out of range.
    Range { line: u32 },
    /// There are more lines than a run may have events; this is the first one too many.
    TooMany { line: u32 },
    /// Memory ran out.
    Memory,
}

impl Display for StepsFault {
    ghost use Rattle.std.specs.Prelude.{Some};
    ghost use Rattle.fmp_trace.specs.Messages.{steps_message};

    ghost output = { λ fault. Some (steps_message fault) };

    /// The number of the line and the code of the fault.
    fn fmt<W: Write>(&self, f: &mut Formatter<W>) -> fmt::Result {
        match self {
            StepsFault::Line { line } => write!(f, "steps:{line}: S1"),
            StepsFault::Range { line } => write!(f, "steps:{line}: S2"),
            StepsFault::TooMany { line } => write!(f, "steps:{line}: S3"),
            StepsFault::Memory => f.write_str("memory"),
        }
    }
}

impl Error for StepsFault {}

/// What is wrong with a line.
#[derive(Clone, Copy, Debug)]
pub enum Flaw {
    /// It is not of the form of an event.
    Form,
    /// Its number is out of range.
    Range,
}
