//! What can be wrong with a recording.
use thiserror::Error;

/// Why a text is no recording, with the number of the line, from 1.
#[derive(Clone, Copy, Debug, PartialEq, Eq, Error)]
pub enum RecordingFault {
    /// The line says nothing that comes to a kernel.
    #[error("recording:{line}: R1")]
    Line { line: u32 },
    /// The number of a processor or of an interrupt is out of range, or a time is later than 2^53 microseconds.
    #[error("recording:{line}: R2")]
    Range { line: u32 },
    /// There are more lines than a kernel takes events; this is the first one too many.
    #[error("recording:{line}: R3")]
    TooMany { line: u32 },
    /// Memory ran out.
    #[error("memory")]
    Memory,
}

/// What is wrong with a line.
#[derive(Clone, Copy, Debug)]
pub enum RecordingFlaw {
    /// It is of no form.
    Form,
    /// Its number is out of range.
    Range,
}
