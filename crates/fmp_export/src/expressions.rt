//! Expressions of a text in C.
ghost use Rattle.std.specs.Prelude.{◌≡◌, map, IfOk};
ghost use Rattle.fmp_tasklang.specs.Views.{expression_view, link_view};
ghost use Rattle.fmp_export.specs.Expressions as spec;
ghost use Rattle.fmp_export.specs.Expressions.{c_chain, c_expression, c_expressions};
ghost use Rattle.fmp_export.specs.Pieces.{piece_view};
ghost use Rattle.fmp_export.specs.Sources.{source_view};

use crate::pieces::{Piece, binary, both, either, element, name, number, unary};
use crate::source::LexedText;
use fmp_tasklang::{Expression, Link, Operator};
use std::alloc::{AllocError, Global};

/// An operator between two expressions.
fn joined(alloc: Global, operator: Operator, a: &Piece, b: &Piece) -> Result<Piece, AllocError>
    ensures { IfOk result (λ p. piece_view p ≡ spec.joined operator (piece_view a.now) (piece_view b.now)) }
{
    match operator {
        Operator::Binary(op) => binary(alloc, op, a, b),
        Operator::Both => both(alloc, a, b),
        Operator::Either => either(alloc, a, b),
    }
}

/// An expression in C, whose numbers are those of the text from a place on.
#[cycle(expressions_in_c)]
pub fn expression(source: &LexedText<'_>, at: usize, e: &Expression) -> Result<Piece, AllocError>
    ensures { IfOk result (λ p. piece_view p ≡ c_expression (source_view source.now) at (expression_view e.now)) }
{
    match e {
        Expression::Number(k) => number(source, at, *k),
        Expression::Name(word) => name(source.alloc, at, &word.name),
        Expression::Element { array, index } => {
            let inner = expression(source, at, index)?;
            element(source.alloc, &array.name, &inner)
        }
        Expression::Unary { operator, operand } => {
            let inner = expression(source, at, operand)?;
            unary(source.alloc, *operator, &inner)
        }
        Expression::Chain { first, rest } => {
            let inner = expression(source, at, first)?;
            chain(source, inner, rest)
        }
    }
}

/// An expression with the further operands of its chain.
#[cycle(expressions_in_c)]
fn chain(source: &LexedText<'_>, first: Piece, links: &[Link]) -> Result<Piece, AllocError>
    ensures { IfOk result (λ p. piece_view p
        ≡ c_chain (source_view source.now) (piece_view first) (map link_view links.now)) }
{
    let mut piece = first;
    for link in links {
        let operand = expression(source, piece.next, &link.operand)?;
        piece = joined(source.alloc, link.operator, &piece, &operand)?;
    }
    Ok(piece)
}

/// Expressions, one after another.
pub fn expressions(
    source: &LexedText<'_>,
    at: usize,
    list: &[Expression],
) -> Result<Vec<Piece>, AllocError>
    ensures { IfOk result (λ ps. map piece_view ps.items
        ≡ c_expressions (source_view source.now) at (map expression_view list.now)) }
{
    let mut pieces = Vec::new(source.alloc);
    let mut next = at;
    for e in list {
        let piece = expression(source, next, e)?;
        next = piece.next;
        pieces.push(piece)?;
    }
    Ok(pieces)
}
