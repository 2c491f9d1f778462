//! Faults of texts: the file, the position and what is wrong there.
ghost use Rattle.std.specs.Prelude.{◌≡◌, slice_get};
ghost use Rattle.fmp_lex.specs.Faults.{token_fault, fault_of, offence_fault};
ghost use Rattle.fmp_lex.specs.Positions.{text_start};
ghost use Rattle.fmp_lex.specs.declared.fault.BuildFault.TheVariants.{Memory};

use crate::packed::Tokens;
use crate::position::TokenPosition;
use crate::reading::{FirstFault, GrammarFault};
use crate::token::{LexFault, TokenKind, TokenList};
use fmp_base::Er;
use std::alloc::AllocError;
use std::error::Error;
use std::fmt::{self, Display, Formatter, Write};

/// Which of the two texts of a system.
#[derive(Clone, Copy, Debug, PartialEq, Eq)]
pub enum TextFile {
    Configuration,
    Source,
}

impl Display for TextFile {
    ghost use Rattle.std.specs.Prelude.{Some};
    ghost use Rattle.fmp_lex.specs.Messages.{text_name};

    ghost output = { λ file. Some (text_name file) };

    /// What the text is called.
    fn fmt<W: Write>(&self, f: &mut Formatter<W>) -> fmt::Result {
        f.write_str(match self {
            TextFile::Configuration => "cfg",
            TextFile::Source => "src",
        })
    }
}

/// What is wrong at a position of a text.
#[derive(Clone, Copy, Debug, PartialEq, Eq)]
pub enum FaultKind {
    /// No well-formed text goes on like this.
    Syntax,
    /// The name is used before.
    TwiceNamed,
    UnknownName,
    /// The static API refuses its values with this code.
    Api(Er),
    /// A limit on sizes, counts or numbers is exceeded.
    Limit,
    /// The stack does not hold the operands of the body.
    StackTooSmall,
    /// The entry is a body of the other kind.
    WrongEntryKind,
    /// An array without an index, or a variable or an object with one.
    Shape,
}

impl Display for FaultKind {
    ghost use Rattle.std.specs.Prelude.{Some};
    ghost use Rattle.fmp_lex.specs.Messages.{fault_code};

    ghost output = { λ kind. Some (fault_code kind) };

    /// The code of the fault.
    fn fmt<W: Write>(&self, f: &mut Formatter<W>) -> fmt::Result {
        match self {
            FaultKind::Syntax => f.write_str("B1"),
            FaultKind::TwiceNamed => f.write_str("B2"),
            FaultKind::UnknownName => f.write_str("B3"),
            FaultKind::Api(code) => write!(f, "B4 {}", code.name()),
            FaultKind::Limit => f.write_str("B5"),
            FaultKind::StackTooSmall => f.write_str("B6"),
            FaultKind::WrongEntryKind => f.write_str("B7"),
            FaultKind::Shape => f.write_str("B9"),
        }
    }
}

/// Why no system is built from two texts.
#[derive(Debug, Drop, PartialEq, Eq)]
pub enum BuildFault {
    At(TextFile, TokenPosition, FaultKind),
    Memory,
}

impl Display for BuildFault {
    ghost use Rattle.std.specs.Prelude.{Some};
    ghost use Rattle.fmp_lex.specs.Messages.{build_message};

    ghost output = { λ fault. Some (build_message fault) };

    /// The text, the number of the line and the code of the fault.
    fn fmt<W: Write>(&self, f: &mut Formatter<W>) -> fmt::Result {
        match self {
            BuildFault::At(file, position, kind) => {
                let line = position.line;
                write!(f, "{file}:{line}: {kind}")
            }
            BuildFault::Memory => f.write_str("memory"),
        }
    }
}

impl Error for BuildFault {}

impl From<AllocError> for BuildFault {
    ghost from_gives = { λ _ e. e ≡ Memory };

    fn from(_error: AllocError) -> Self {
        BuildFault::Memory
    }
}

fn token_fault(kind: TokenKind, why: GrammarFault) -> FaultKind
    ensures { result ≡ token_fault kind why }
{
    match (kind, why) {
        (TokenKind::Bad(LexFault::Limit), _) => FaultKind::Limit,
        (_, GrammarFault::Syntax) => FaultKind::Syntax,
        (_, GrammarFault::Depth) => FaultKind::Limit,
    }
}

/// Where a text begins.
fn text_start() -> TokenPosition
    ensures { result ≡ text_start }
{
    TokenPosition {
        line: 1,
        start: 0,
        end: 0,
    }
}

/// The fault of a text that has more bytes than a text may have: it stands where the text begins.
pub fn too_long(file: TextFile) -> BuildFault
    ensures { result ≡ BuildFault.At file text_start FaultKind.Limit }
{
    BuildFault::At(file, text_start(), FaultKind::Limit)
}

/// The fault of what a tree has at the token at this place in the list, with the token's position in the text.
pub fn offence_at(tokens: &Tokens<'_>, file: TextFile, at: usize, why: FaultKind) -> BuildFault
    ensures { result ≡ offence_fault file (slice_get tokens.now at) why }
{
    let position = match tokens.position(at) {
        Some(position) => position,
        None => text_start(),
    };
    BuildFault::At(file, position, why)
}

/// The fault of a text whose tokens have this first fault; after the last token it stands where the text ends.
pub fn fault_at(list: &TokenList<'_>, file: TextFile, fault: FirstFault) -> BuildFault
    ensures { result ≡ fault_of file list.now.end (slice_get list.now.tokens fault.at) fault.why }
{
    match list.tokens.kind(fault.at) {
        Some(kind) => offence_at(&list.tokens, file, fault.at, token_fault(kind, fault.why)),
        None => BuildFault::At(file, list.end, FaultKind::Syntax),
    }
}
