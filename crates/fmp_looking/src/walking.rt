//! A walk over the tokens of a task text, from mark to mark.
ghost use Rattle.std.specs.Prelude.{◌≡◌, ◌++◌, OnOk};
ghost use Rattle.fmp_looking.specs.Marks as spec;

use crate::marks::{BranchKind, Mark, MarkKind};
use fmp_base::Service;
use fmp_frames::CallPosition;
use fmp_lex::{Keyword, Symbol, TokenKind};
use std::alloc::AllocError;

/// What a token is for marks.
#[derive(Clone, Copy)]
pub enum Piece {
    /// A body begins.
    Head,
    /// A condition begins, which ends where its block begins.
    Begins(BranchKind),
    /// An operator of which the right side is not always worked out.
    Branches(BranchKind),
    /// A block begins.
    Block,
    /// A service call.
    Call(Service),
    Other,
}

/// The word before a condition that is not over.
#[derive(Clone, Copy)]
pub struct Condition {
    pub kind: BranchKind,
    pub position: CallPosition,
}

/// How far a walk has come.
#[derive(Clone, Copy)]
pub struct Walk {
    /// How many bodies have begun.
    pub bodies: usize,
    /// How many branches of the last one have come, in the order of its code.
    pub branches: usize,
    pub condition: Option<Condition>,
}

impl Walk {
    ghost use Rattle.std.specs.Prelude.{◌≡◌};
    ghost use Rattle.fmp_looking.specs.Marks.{at_first};

    /// A walk that has seen nothing.
    pub fn new() -> Walk
        ensures { result ≡ at_first }
    {
        Walk {
            bodies: 0,
            branches: 0,
            condition: None,
        }
    }
}

/// What a keyword is for marks.
fn keyword_piece(word: Keyword) -> Piece
    ensures { result ≡ spec.keyword_piece word }
{
    match word {
        Keyword::Task | Keyword::Handler => Piece::Head,
        Keyword::If => Piece::Begins(BranchKind::If),
        Keyword::While => Piece::Begins(BranchKind::While),
        _ => Piece::Other,
    }
}

/// What a symbol is for marks.
fn symbol_piece(symbol: Symbol) -> Piece
    ensures { result ≡ spec.symbol_piece symbol }
{
    match symbol {
        Symbol::AndAnd => Piece::Branches(BranchKind::And),
        Symbol::OrOr => Piece::Branches(BranchKind::Or),
        Symbol::LeftBrace => Piece::Block,
        _ => Piece::Other,
    }
}

/// What a token is for marks.
pub fn piece_of(kind: TokenKind) -> Piece
    ensures { result ≡ spec.piece_of kind }
{
    match kind {
        TokenKind::Keyword(word) => keyword_piece(word),
        TokenKind::Symbol(symbol) => symbol_piece(symbol),
        TokenKind::Service(service) => Piece::Call(service),
        _ => Piece::Other,
    }
}

/// The mark at a position.
fn mark_here(walk: &Walk, kind: MarkKind, position: CallPosition) -> Mark
    ensures { result ≡ spec.mark_here walk.now kind position }
{
    Mark {
        kind,
        position,
        bodies: walk.bodies,
        branches: walk.branches,
    }
}

/// Adds the mark that a token gives, if it gives one.
pub fn marks_by(
    walk: &Walk,
    piece: Piece,
    position: CallPosition,
    marks: &mut Vec<Mark>,
) -> Result<(), AllocError>
    ensures { OnOk result (marks.new.items ≡ marks.old.items ++ spec.marks_by walk.now piece position) }
{
    let mark = match piece {
        Piece::Call(service) => mark_here(walk, MarkKind::Call(service), position),
        Piece::Branches(kind) => mark_here(walk, MarkKind::Branch(kind), position),
        Piece::Block => match walk.condition {
            Some(condition) => mark_here(
                walk,
                MarkKind::Branch(condition.kind),
                condition.position,
            ),
            None => return Ok(()),
        },
        _ => return Ok(()),
    };
    marks.push(mark)?;
    Ok(())
}

/// One more branch has come, and no condition is open.
fn after_branch(walk: Walk, condition: Option<Condition>) -> Walk
    ensures { result ≡ record walk { branches = spec.one_more walk.branches; condition = condition } }
{
    Walk {
        bodies: walk.bodies,
        branches: walk.branches.saturating_add(1),
        condition,
    }
}

/// The walk after the beginning of a block.
fn after_block(walk: Walk) -> Walk
    ensures { result ≡ spec.condition_ended walk walk.condition }
{
    match walk.condition {
        Some(_) => after_branch(walk, None),
        None => walk,
    }
}

/// The walk after a token.
pub fn walked(walk: Walk, piece: Piece, position: CallPosition) -> Walk
    ensures { result ≡ spec.walked walk piece position }
{
    match piece {
        Piece::Head => Walk {
            bodies: walk.bodies.saturating_add(1),
            branches: 0,
            condition: None,
        },
        Piece::Begins(kind) => Walk {
            condition: Some(Condition { kind, position }),
            ..walk
        },
        Piece::Branches(_) => after_branch(walk, walk.condition),
        Piece::Block => after_block(walk),
        _ => walk,
    }
}
