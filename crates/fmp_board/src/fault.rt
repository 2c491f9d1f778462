//! Why a call of a board changed nothing.
use std::error::Error;
use std::fmt::{self, Display, Formatter, Write};

/// Why a call of a board changed nothing; what `run_all` had journaled before stands.
#[derive(Clone, Copy, Debug, PartialEq, Eq)]
pub enum BoardFault {
    /// The actor of an outcome's processor is another one by now, or has gone on.
    Stale,
    /// The journal has as many events as it has room for.
    Full,
    /// There is not enough memory.
    Memory,
    /// A limit is out of its range, or the seats are not one for each processor and one for the ticks.
    Limit,
    /// A thread was refused.
    Thread,
    /// A gate did not let a processor go on.
    Held,
}

impl Display for BoardFault {
    ghost use Rattle.std.specs.Prelude.{Some};
    ghost use Rattle.fmp_board.specs.Messages.{board_code};

    ghost output = { λ fault. Some (board_code fault) };

    /// The code of the fault.
    fn fmt<W: Write>(&self, f: &mut Formatter<W>) -> fmt::Result {
        f.write_str(match self {
            BoardFault::Stale => "H1",
            BoardFault::Full => "H2",
            BoardFault::Memory => "H3",
            BoardFault::Limit => "H4",
            BoardFault::Thread => "H5",
            BoardFault::Held => "H6",
        })
    }
}

impl Error for BoardFault {}
