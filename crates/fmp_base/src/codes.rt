//! Error codes and their numbers.
ghost use Rattle.std.specs.Prelude.{◌≡◌};
ghost use Rattle.fmp_base.specs.Codes.{code_of, code_name};

use std::fmt;
use std::fmt::{Debug, Formatter, Write};

/// The main error codes of the uITRON 4.0 specification, section 2.4.5, as far as this kernel uses them.
#[derive(Clone, Copy, PartialEq, Eq)]
pub enum Er {
    /// Normal completion.
    Ok,
    /// System error; no call answers it.
    Sys,
    /// Unsupported function; no call answers it.
    Nospt,
    /// Reserved attribute.
    Rsatr,
    /// Parameter error.
    Par,
    /// Invalid object number.
    Id,
    /// Context error.
    Ctx,
    /// Illegal service call use.
    Iluse,
    /// Object state error.
    Obj,
    /// Queue overflow.
    Qovr,
    /// Forced release from waiting.
    Rlwai,
    /// Polling failure or timeout.
    Tmout,
}

/// The numbers of the codes, in order.
static CODES: [i32; 12] = [0, -5, -9, -11, -17, -18, -25, -28, -41, -43, -49, -50];

/// The names of the codes, in order.
static NAMES: [&str; 12] = [
    "E_OK", "E_SYS", "E_NOSPT", "E_RSATR", "E_PAR", "E_ID", "E_CTX", "E_ILUSE", "E_OBJ", "E_QOVR",
    "E_RLWAI", "E_TMOUT",
];

impl Er {
    /// The number of the code, 0 or less.
    pub fn code(self) -> i32
        ensures { result ≡ code_of self }
    {
        CODES[self as usize]
    }

    /// The name of the code, as the texts and the trace write it.
    pub fn name(self) -> &'static str
        ensures { result.now ≡ code_name self }
    {
        NAMES[self as usize]
    }
}

impl Debug for Er {
    /// The name of the code.
    fn fmt<W: Write>(&self, f: &mut Formatter<W>) -> Result<(), fmt::Error> {
        f.write_str(self.name())
    }
}
