//! Expressions of the task language.
ghost use Rattle.std.specs.Prelude.{◌≡◌, ◌^◌, ◌≤◌, ◌<◌, ◌+◌, Some, length, slice_get, option_and_then};
ghost use Rattle.fmp_lex.specs.Reading.{kinds_of, max_depth, Answers};
ghost use Rattle.fmp_lex.specs.declared.token.Symbol.TheVariants as symbol;
ghost use Rattle.fmp_tasklang.specs.Expressions.{IsWord, loosest, unary_of};
ghost use Rattle.fmp_tasklang.specs.Reading.{links_view, RightOperand, RightBracketed, RightExpression, RightLinks};
ghost use Rattle.fmp_tasklang.specs.Trees as trees;
ghost use Rattle.fmp_tasklang.specs.Views.{expression_view};

use crate::trees::{Expression, Link, Word};
use crate::words::{LOOSEST, OperandStart, deeper, level_at, operator_at, start_at};
use fmp_base::UnaryOperator;
use fmp_lex::reading::{expect_symbol, is_symbol_at};
use fmp_lex::{FirstFault, GrammarFault, ReadError, Symbol, TokenKind, Tokens};
use std::alloc::Global;

fn literal(number: i32) -> Expression
    ensures { expression_view result ≡ trees.number number }
{
    Expression::Number(number)
}

/// The operand at a place, given the number of open levels of nesting, and the place after it.
#[cycle(expressions)]
#[inline(always)]
fn operand(
    alloc: Global,
    tokens: &Tokens<'_>,
    depth: usize,
    at: usize,
) -> Result<(Expression, usize), ReadError>
    requires depth { depth ≤ max_depth }
    requires at { at ≤ length tokens.now }
    ensures { Answers expression_view result (RightOperand (kinds_of tokens.now) depth at) }
{
    match start_at(tokens, at) {
        Some(OperandStart::Number(number)) => Ok((literal(number), at + 1)),
        Some(OperandStart::Name(name)) => {
            let word = Word {
                name,
                at: at as u32,
            };
            named(alloc, tokens, depth, word, at)
        }
        Some(OperandStart::Unary(operator)) => unary(alloc, tokens, depth, operator, at),
        Some(OperandStart::Group) => group(alloc, tokens, depth, at),
        None => Err(ReadError::Fault(FirstFault {
            at,
            why: GrammarFault::Syntax,
        })),
    }
}

/// A name, or the element of an array if an index stands after the name.
#[cycle(expressions)]
#[inline(always)]
fn named(
    alloc: Global,
    tokens: &Tokens<'_>,
    depth: usize,
    word: Word,
    at: usize,
) -> Result<(Expression, usize), ReadError>
    requires depth { depth ≤ max_depth }
    requires at { at < length tokens.now }
    requires room { at + 1 < 2 ^ 64 }
    requires word { IsWord (kinds_of tokens.now) at word (at + 1) }
    ensures { Answers expression_view result (RightOperand (kinds_of tokens.now) depth at) }
{
    if is_symbol_at(tokens, at + 1, Symbol::LeftBracket) {
        return element(alloc, tokens, depth, word, at);
    }
    Ok((Expression::Name(word), at + 1))
}

/// The element of an array. It is rare, so it stands out of the way of the other operands.
#[cycle(expressions)]
#[inline(never)]
fn element(
    alloc: Global,
    tokens: &Tokens<'_>,
    depth: usize,
    word: Word,
    at: usize,
) -> Result<(Expression, usize), ReadError>
    requires depth { depth ≤ max_depth }
    requires at { at + 1 < length tokens.now }
    requires room { at + 2 < 2 ^ 64 }
    requires word { IsWord (kinds_of tokens.now) at word (at + 1) }
    requires bracket { slice_get (kinds_of tokens.now) (at + 1) ≡ Some (TokenKind.Symbol symbol.LeftBracket) }
    ensures { Answers expression_view result (RightOperand (kinds_of tokens.now) depth at) }
{
    let (inner, next) = bracketed(alloc, tokens, depth, at + 1)?;
    let index = Box::new(alloc, inner)?;
    let array = Box::new(alloc, word)?;
    Ok((Expression::Element { array, index }, next))
}

/// `[`, an expression a level deeper and `]`.
#[cycle(expressions)]
pub fn bracketed(
    alloc: Global,
    tokens: &Tokens<'_>,
    depth: usize,
    at: usize,
) -> Result<(Expression, usize), ReadError>
    requires depth { depth ≤ max_depth }
    requires at { at < length tokens.now }
    requires room { at + 1 < 2 ^ 64 }
    requires first { slice_get (kinds_of tokens.now) at ≡ Some (TokenKind.Symbol symbol.LeftBracket) }
    ensures { Answers expression_view result (RightBracketed (kinds_of tokens.now) depth at) }
{
    let inside = deeper(depth, at)?;
    let (inner, next) = expression(alloc, tokens, inside, LOOSEST, at + 1)?;
    let next = expect_symbol(tokens, next, Symbol::RightBracket)?;
    Ok((inner, next))
}

#[cycle(expressions)]
fn unary(
    alloc: Global,
    tokens: &Tokens<'_>,
    depth: usize,
    operator: UnaryOperator,
    at: usize,
) -> Result<(Expression, usize), ReadError>
    requires depth { depth ≤ max_depth }
    requires at { at < length tokens.now }
    requires room { at + 1 < 2 ^ 64 }
    requires first { option_and_then unary_of (slice_get (kinds_of tokens.now) at) ≡ Some operator }
    ensures { Answers expression_view result (RightOperand (kinds_of tokens.now) depth at) }
{
    let inside = deeper(depth, at)?;
    let (inner, next) = operand(alloc, tokens, inside, at + 1)?;
    let operand = Box::new(alloc, inner)?;
    Ok((Expression::Unary { operator, operand }, next))
}

#[cycle(expressions)]
fn group(
    alloc: Global,
    tokens: &Tokens<'_>,
    depth: usize,
    at: usize,
) -> Result<(Expression, usize), ReadError>
    requires depth { depth ≤ max_depth }
    requires at { at < length tokens.now }
    requires room { at + 1 < 2 ^ 64 }
    requires first { slice_get (kinds_of tokens.now) at ≡ Some (TokenKind.Symbol symbol.LeftParen) }
    ensures { Answers expression_view result (RightOperand (kinds_of tokens.now) depth at) }
{
    let inside = deeper(depth, at)?;
    let (inner, next) = expression(alloc, tokens, inside, LOOSEST, at + 1)?;
    let next = expect_symbol(tokens, next, Symbol::RightParen)?;
    Ok((inner, next))
}

/// The expression at a place whose operators have levels below this one, and the place after it.
#[cycle(expressions)]
pub fn expression(
    alloc: Global,
    tokens: &Tokens<'_>,
    depth: usize,
    level: usize,
    at: usize,
) -> Result<(Expression, usize), ReadError>
    requires depth { depth ≤ max_depth }
    requires level { level ≤ loosest }
    requires at { at ≤ length tokens.now }
    ensures { Answers expression_view result
        (RightExpression (kinds_of tokens.now) depth level at) }
{
    let (mut tree, mut next) = operand(alloc, tokens, depth, at)?;
    let mut read = 0;
    'levels: while let Some(found) = level_at(tokens, read, level, next) {
        let (rest, end) = links(alloc, tokens, depth, found, next)?;
        let first = Box::new(alloc, tree)?;
        tree = Expression::Chain { first, rest };
        next = end;
        read = found + 1;
    }
    Ok((tree, next))
}

#[cycle(expressions)]
fn links(
    alloc: Global,
    tokens: &Tokens<'_>,
    depth: usize,
    level: usize,
    at: usize,
) -> Result<(Vec<Link>, usize), ReadError>
    requires depth { depth ≤ max_depth }
    requires level { level < loosest }
    requires at { at ≤ length tokens.now }
    ensures { Answers links_view result (RightLinks (kinds_of tokens.now) depth level at) }
{
    let mut found = Vec::with_capacity(alloc, 1)?;
    let mut i = at;
    'links: while let Some(operator) = operator_at(tokens, level, i) {
        let (operand, next) = expression(alloc, tokens, depth, level, i + 1)?;
        found.push(Link { operator, operand })?;
        i = next;
    }
    Ok((found, i))
}
