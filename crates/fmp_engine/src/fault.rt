//! Why a simulation prints nothing, or not all.
use fmp_image_bytes::LoadFault;
use fmp_trace::StepsFault;
use std::error::Error;
use std::fmt::{self, Display, Formatter, Write};

/// Why a simulation prints nothing.
#[derive(Clone, Copy, Debug, PartialEq, Eq)]
pub enum SimFault {
    /// The bytes spell no image. This fault is never out of memory.
    Load(LoadFault),
    /// A line of the steps is no event.
    Steps(StepsFault),
    /// Memory ran out.
    Memory,
}

impl Display for SimFault {
    ghost use Rattle.std.specs.Prelude.{Some};
    ghost use Rattle.fmp_engine.specs.Messages.{sim_message};

    ghost output = { λ fault. Some (sim_message fault) };

    /// The message of the image or of the steps, or `memory`.
    fn fmt<W: Write>(&self, f: &mut Formatter<W>) -> fmt::Result {
        match self {
            SimFault::Load(fault) => write!(f, "{fault}"),
            SimFault::Steps(fault) => write!(f, "{fault}"),
            SimFault::Memory => f.write_str("memory"),
        }
    }
}

impl Error for SimFault {}

/// Why an outlet did not get all of a text.
#[derive(Clone, Copy)]
pub enum TextCut {
    /// Memory ran out before the first piece.
    Memory,
    /// The outlet took no more.
    Stopped,
}

/// Why an outlet did not get all that a simulation prints.
#[derive(Clone, Copy)]
pub enum SimCut {
    /// The simulation was refused, and the outlet was given nothing.
    Refused(SimFault),
    /// The outlet took no more.
    Stopped,
}
