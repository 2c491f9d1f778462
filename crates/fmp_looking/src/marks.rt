//! The calls and branches of a task text, which a run may reach.
ghost use Rattle.std.specs.Prelude.{◌≡◌, ◌≤◌, ◌++◌, ◌^◌, IfOk, OnOk, drop, length, take};
ghost use Rattle.fmp_looking.specs.Marks as spec;
ghost use Rattle.fmp_looking.specs.Marks.{AreMarksOf};

use crate::walking::{Piece, Walk, marks_by, piece_of, walked};
use fmp_base::Service;
use fmp_frames::CallPosition;
use fmp_lex::{TextFault, Tokens, tokens};
use std::alloc::{AllocError, Global};

/// What a branch goes by.
#[derive(Clone, Copy)]
pub enum BranchKind {
    /// The condition of an `if`.
    If,
    /// The condition of a `while`.
    While,
    /// The left side of a `&&`.
    And,
    /// The left side of a `||`.
    Or,
}

/// What a run may reach.
#[derive(Clone, Copy)]
pub enum MarkKind {
    Call(Service),
    Branch(BranchKind),
}

/// A call or a branch of a task text, which a run may reach.
#[derive(Clone, Copy)]
pub struct Mark {
    pub kind: MarkKind,
    /// Where its word stands.
    pub position: CallPosition,
    /// How many bodies begin before it.
    pub bodies: usize,
    /// How many branches its body has before it, in the order of its code.
    pub branches: usize,
}

/// The column of the byte at a position of a text, from 1 and counted in bytes.
fn column_of(text: &[u8], start: usize) -> usize
    requires { length text.now ≤ 2 ^ 20 }
    ensures { result ≡ spec.column_of text.now start }
{
    let end = start.min(text.len());
    column_after(&text[..end])
}

/// The column after these bytes, with which a text begins.
fn column_after(front: &[u8]) -> usize
    requires { length front.now ≤ 2 ^ 20 }
    ensures { result ≡ spec.column_after 1 front.now }
{
    let mut column = 1;
    for byte in front {
        column = if *byte == b'\n' { 1 } else { column + 1 };
    }
    column
}

/// What the token at a place is for marks.
fn piece_at(tokens: &Tokens<'_>, at: usize) -> Piece
    ensures { result ≡ spec.piece_at tokens.now at }
{
    match tokens.kind(at) {
        Some(kind) => piece_of(kind),
        None => Piece::Other,
    }
}

/// Where the token at a place stands in a text.
fn position_at(text: &[u8], tokens: &Tokens<'_>, at: usize) -> CallPosition
    requires { length text.now ≤ 2 ^ 20 }
    ensures { result ≡ spec.position_at text.now tokens.now at }
{
    match tokens.position(at) {
        Some(position) => CallPosition {
            line: position.line,
            column: column_of(text, position.start as usize),
        },
        None => CallPosition { line: 0, column: 1 },
    }
}

/// The marks of these tokens of a text.
fn marks_in(alloc: Global, text: &[u8], tokens: &Tokens<'_>) -> Result<Vec<Mark>, AllocError>
    requires { length text.now ≤ 2 ^ 20 }
    ensures { IfOk result (λ marks. marks.items ≡ spec.marks_from text.now spec.at_first tokens.now) }
{
    let mut marks = Vec::new(alloc);
    let mut walk = Walk::new();
    for at in 0..tokens.len() {
        let piece = piece_at(tokens, at);
        let position = position_at(text, tokens, at);
        marks_by(&walk, piece, position, &mut marks)?;
        walk = walked(walk, piece, position);
    }
    Ok(marks)
}

/// The places of a task text that a run may reach: its calls and its branches, in the order of their code; none of a
/// text that is too long. `AllocError` if memory runs out.
pub fn marks_of(alloc: Global, text: &[u8]) -> Result<Vec<Mark>, AllocError>
    ensures { IfOk result (λ marks. AreMarksOf text.now marks.items) }
{
    match tokens(alloc, text) {
        Ok(list) => marks_in(alloc, text, &list.tokens),
        Err(TextFault::TooLong) => Ok(Vec::new(alloc)),
        Err(TextFault::Memory) => Err(AllocError),
    }
}
