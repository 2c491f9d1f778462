//! What a file is that is read as an image or as steps and is neither.
ghost use Rattle.std.specs.Prelude.{◌≡◌};
ghost use Rattle.fmp_looking.specs.Exits.{IsOver, status_of};

use crate::exit::ViewExit;
use fmp_engine::SimFault;
use fmp_lex::{Keyword, TokenKind, tokens};
use std::alloc::Global;
use thiserror::Error;

/// What a file is, as it begins.
#[derive(Clone, Copy, Debug, PartialEq, Eq, Error)]
pub enum FileKind {
    /// What `fmp build` writes.
    #[error("an image")]
    Image,
    /// The objects of a system.
    #[error("a configuration")]
    Configuration,
    /// The bodies of a system.
    #[error("a task text")]
    TaskText,
    /// The events of a run.
    #[error("a steps text")]
    Steps,
}

/// A file of another kind than the one that is read in its place.
#[derive(Clone, Copy, Debug, Error)]
pub enum Misplaced {
    /// In the place of an image, which has this fault.
    #[error("{0}\nthis is {1}; 'fmp build' makes an image of a configuration and a task text")]
    Image(SimFault, FileKind),
    /// In the place of steps, which have this fault.
    #[error("{0}\nthis is {1}, and steps are lines as 'run 1', 'tick' and 'int 3'")]
    Steps(SimFault, FileKind),
}

/// What a text is whose first token is this.
fn kind_by(first: TokenKind) -> Option<FileKind> {
    match first {
        TokenKind::Keyword(Keyword::NumPrc) => Some(FileKind::Configuration),
        TokenKind::Keyword(Keyword::Task | Keyword::Handler) => Some(FileKind::TaskText),
        _ => None,
    }
}

/// Whether bytes begin as a steps text does.
fn begins_steps(bytes: &[u8]) -> bool {
    bytes.starts_with(b"run ") || bytes.starts_with(b"tick") || bytes.starts_with(b"int ")
}

/// What a file of these bytes is, if its beginning tells.
fn kind_of(alloc: Global, bytes: &[u8]) -> Option<FileKind> {
    if bytes.starts_with(b"FMPI") {
        return Some(FileKind::Image);
    }
    if begins_steps(bytes) {
        return Some(FileKind::Steps);
    }
    match tokens(alloc, bytes) {
        Ok(list) => kind_by(list.tokens.kind(0)?),
        Err(_) => None,
    }
}

/// Why nothing is made of a file of these bytes that has this fault: if it is of another kind, it says of which.
pub fn exit_over(alloc: Global, fault: SimFault, bytes: &[u8]) -> ViewExit
    ensures over { IsOver fault result }
    ensures status { status_of result ≡ status_of (ViewExit.Sim fault) }
{
    match (fault, kind_of(alloc, bytes)) {
        (SimFault::Memory, _) | (_, None) => ViewExit::Sim(fault),
        (SimFault::Load(_), Some(FileKind::Image)) => ViewExit::Sim(fault),
        (SimFault::Steps(_), Some(FileKind::Steps)) => ViewExit::Sim(fault),
        (SimFault::Load(_), Some(kind)) => ViewExit::Misplaced(Misplaced::Image(fault, kind)),
        (SimFault::Steps(_), Some(kind)) => ViewExit::Misplaced(Misplaced::Steps(fault, kind)),
    }
}
