//! A fault of a task text beside its token.
ghost use Rattle.std.specs.Prelude.{◌≡◌};
ghost use Rattle.fmp_scopes.specs.Naming.{fault_in};

use fmp_lex::{BuildFault, FaultKind, TextFile, Tokens, offence_at};

/// A fault of the task text and the place of its token in the list of tokens.
#[derive(Clone, Copy)]
pub struct Offence {
    /// The place of the token in the list of tokens, from 0.
    pub at: u32,
    /// Why it is a fault.
    pub why: FaultKind,
}

/// The fault of a task text with these tokens, with the place of its token.
pub fn source_fault(tokens: &Tokens<'_>, offence: Offence) -> BuildFault
    ensures { result ≡ fault_in TextFile.Source tokens.now offence }
{
    offence_at(tokens, TextFile::Source, offence.at as usize, offence.why)
}
