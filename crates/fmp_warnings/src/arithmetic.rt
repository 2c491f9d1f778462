//! Warnings of expressions that fault whenever they are evaluated, and of the outcome of a comparison as an operand.
ghost use Rattle.std.specs.Prelude.{OnOk};
ghost use Rattle.fmp_diagnosis.specs.Words.{IsSaid};

use crate::found::FoundWarnings;
use crate::landmarks::Landmarks;
use fmp_diagnosis::words::{Word, say};
use fmp_lex::{Symbol, TextFile, TokenKind, Tokens};
use std::alloc::{AllocError, Global};

/// What is wrong with an expression.
#[derive(Clone, Copy)]
enum Flaw {
    /// It divides by 0.
    Division,
    /// It compares the outcome of a comparison.
    Chain,
    /// The outcome of a comparison is an operand of `&`, `|` or `^`.
    Mixed,
    /// The sum or the product of these numbers does not fit into 32 bits.
    Overflow(i64, &'static str, i64),
}

/// The symbol at a place.
fn symbol_at(tokens: &Tokens<'_>, at: usize) -> Option<Symbol> {
    match tokens.kind(at)? {
        TokenKind::Symbol(symbol) => Some(symbol),
        _ => None,
    }
}

/// The number at a place, also that of a constant.
fn number_at(tokens: &Tokens<'_>, at: usize) -> Option<i64> {
    match tokens.kind(at)? {
        TokenKind::Number(number) => Some(i64::from(number)),
        TokenKind::Constant(constant) => Some(i64::from(constant.value())),
        _ => None,
    }
}

/// Whether a symbol orders its operands.
fn is_order(symbol: Symbol) -> bool {
    matches!(
        symbol,
        Symbol::Less | Symbol::LessEqual | Symbol::Greater | Symbol::GreaterEqual
    )
}

/// Whether a symbol binds its operands closer than an order does.
fn is_arithmetic(symbol: Symbol) -> bool {
    matches!(
        symbol,
        Symbol::Plus
            | Symbol::Minus
            | Symbol::Star
            | Symbol::Slash
            | Symbol::Percent
            | Symbol::Not
            | Symbol::Tilde
    )
}

/// Whether no operand of a comparison reaches over a symbol.
fn ends_operand(symbol: Symbol) -> bool {
    let is_end = matches!(
        symbol,
        Symbol::AndAnd
            | Symbol::OrOr
            | Symbol::Assign
            | Symbol::Comma
            | Symbol::Semicolon
            | Symbol::LeftBrace
            | Symbol::RightBrace
    );
    is_end || is_bitwise(symbol) || is_comparison(symbol)
}

/// Whether a symbol multiplies or divides.
fn is_factor(symbol: Symbol) -> bool {
    matches!(symbol, Symbol::Star | Symbol::Slash | Symbol::Percent)
}

/// How many parentheses and brackets of an operand of a comparison are open after a symbol, where this many were open
/// before it; none where the operand ends there.
fn depth_after(depth: usize, symbol: Symbol) -> Option<usize> {
    match symbol {
        Symbol::LeftParen | Symbol::LeftBracket => Some(depth.saturating_add(1)),
        Symbol::RightParen | Symbol::RightBracket => depth.checked_sub(1),
        _ if depth > 0 || is_arithmetic(symbol) => Some(depth),
        _ => None,
    }
}

/// Whether a symbol compares its operands.
fn is_comparison(symbol: Symbol) -> bool {
    is_order(symbol) || matches!(symbol, Symbol::Equal | Symbol::NotEqual)
}

/// Whether a symbol joins the bits of its operands.
fn is_bitwise(symbol: Symbol) -> bool {
    matches!(symbol, Symbol::And | Symbol::Or | Symbol::Xor)
}

/// How many parentheses and brackets are open where tokens are gone through from right to left, before a symbol after
/// which this many were; none where one opens that is not closed.
fn depth_before(depth: usize, symbol: Symbol) -> Option<usize> {
    match symbol {
        Symbol::RightParen | Symbol::RightBracket => Some(depth.saturating_add(1)),
        Symbol::LeftParen | Symbol::LeftBracket => depth.checked_sub(1),
        _ => Some(depth),
    }
}

/// The symbol that ends the right operand of the comparison at a place, where it is no arithmetic.
fn symbol_after(tokens: &Tokens<'_>, at: usize) -> Option<Symbol> {
    let mut depth = 0;
    for place in at.saturating_add(1)..tokens.len() {
        if let Some(symbol) = symbol_at(tokens, place) {
            match depth_after(depth, symbol) {
                Some(next) => depth = next,
                None => return Some(symbol),
            }
        }
    }
    None
}

/// The symbol before the left operand of the comparison at a place, where it is no arithmetic.
fn symbol_before(tokens: &Tokens<'_>, at: usize) -> Option<Symbol> {
    let mut depth = 0;
    for place in (0..at).rev() {
        if let Some(symbol) = symbol_at(tokens, place) {
            if depth == 0 && ends_operand(symbol) {
                return Some(symbol);
            }
            depth = depth_before(depth, symbol)?;
        }
    }
    None
}

/// The place of the comparison that ends the right operand of the comparison at a place, if one does.
fn comparison_after(tokens: &Tokens<'_>, at: usize) -> Option<usize> {
    let mut depth = 0;
    for place in at.saturating_add(1)..tokens.len() {
        if let Some(symbol) = symbol_at(tokens, place) {
            if depth == 0 && is_comparison(symbol) {
                return Some(place);
            }
            depth = depth_after(depth, symbol)?;
        }
    }
    None
}

/// The place of the comparison that compares the outcome of another one, where they stand side by side and the first
/// one is at this place: the second one, or an `==` or `!=` before an order, which binds tighter. None if the first one
/// is itself the second one of two.
fn chained_at(tokens: &Tokens<'_>, at: usize) -> Option<usize> {
    let first = symbol_at(tokens, at)?;
    if !is_comparison(first) {
        return None;
    }
    let next = comparison_after(tokens, at)?;
    match (is_order(first), is_order(symbol_at(tokens, next)?)) {
        (true, true) | (false, false) => Some(next),
        _ if symbol_before(tokens, at).is_some_and(is_comparison) => None,
        (true, false) => Some(next),
        (false, true) => Some(at),
    }
}

/// Whether the comparison at a place is an operand of `&`, `|` or `^`.
fn is_mixed(tokens: &Tokens<'_>, at: usize) -> bool {
    match symbol_at(tokens, at) {
        Some(symbol) if is_comparison(symbol) => {
            symbol_after(tokens, at).is_some_and(is_bitwise)
                || symbol_before(tokens, at).is_some_and(is_bitwise)
        }
        _ => false,
    }
}

/// Whether an expression begins after the token at a place, or an operand of an operator that binds less than a sum.
fn begins_sum(tokens: &Tokens<'_>, at: usize) -> bool {
    match symbol_at(tokens, at) {
        Some(Symbol::RightParen | Symbol::RightBracket) => false,
        Some(symbol) => !is_arithmetic(symbol),
        None => false,
    }
}

/// Whether the numbers beside the operator at a place are its operands.
fn has_both(tokens: &Tokens<'_>, at: usize, operator: Symbol) -> bool {
    let before = at.saturating_sub(2);
    let goes_on = match symbol_at(tokens, at.saturating_add(2)) {
        Some(symbol) => is_factor(symbol),
        None => false,
    };
    match operator {
        Symbol::Star => begins_sum(tokens, before)
            || symbol_at(tokens, before) == Some(Symbol::Plus),
        _ => begins_sum(tokens, before) && !goes_on,
    }
}

/// The numbers that the operator at a place adds or multiplies, where the outcome does not fit into 32 bits.
fn overflow_at(tokens: &Tokens<'_>, at: usize) -> Option<Flaw> {
    let operator = symbol_at(tokens, at)?;
    let left = number_at(tokens, at.saturating_sub(1))?;
    let right = number_at(tokens, at.saturating_add(1))?;
    let (outcome, written) = match operator {
        Symbol::Plus => (left.saturating_add(right), " + "),
        Symbol::Star => (left.saturating_mul(right), " * "),
        _ => return None,
    };
    if outcome <= i64::from(i32::MAX) || !has_both(tokens, at, operator) {
        return None;
    }
    Some(Flaw::Overflow(left, written, right))
}

/// Whether the operator at a place divides by a 0 that is written there.
fn divides_by_zero(tokens: &Tokens<'_>, at: usize) -> bool {
    matches!(symbol_at(tokens, at), Some(Symbol::Slash | Symbol::Percent))
        && number_at(tokens, at.saturating_add(1)) == Some(0)
}

/// Whether the operand at a place, of one token, is never worked out: `1 ||` or `0 &&` stands before it.
fn is_passed_over(tokens: &Tokens<'_>, at: usize) -> bool {
    let number = number_at(tokens, at.saturating_sub(2));
    let decides = match symbol_at(tokens, at.saturating_sub(1)) {
        Some(Symbol::OrOr) => number.is_some_and(|number| number != 0),
        Some(Symbol::AndAnd) => number == Some(0),
        _ => false,
    };
    decides
        && matches!(
            symbol_at(tokens, at.saturating_sub(3)),
            Some(Symbol::Assign | Symbol::LeftParen | Symbol::Comma)
        )
}

/// What is wrong with the operator at a place, and where that is shown.
fn flaw_at(tokens: &Tokens<'_>, at: usize) -> Option<(usize, Flaw)> {
    if divides_by_zero(tokens, at) && !is_passed_over(tokens, at.saturating_sub(1)) {
        return Some((at.saturating_add(1), Flaw::Division));
    }
    if let Some(place) = chained_at(tokens, at) {
        return Some((place, Flaw::Chain));
    }
    if is_mixed(tokens, at) {
        return Some((at, Flaw::Mixed));
    }
    if is_passed_over(tokens, at.saturating_sub(1)) {
        return None;
    }
    Some((at, overflow_at(tokens, at)?))
}

/// Says what is wrong with an expression.
fn say_flaw(flaw: Flaw, out: &mut Vec<u8>) -> Result<(), AllocError>
    ensures { OnOk result (IsSaid out.old.items out.new.items) }
{
    match flaw {
        Flaw::Division => say(&[Word::Text("the divisor is 0: this is F_DIV")], out),
        Flaw::Chain => say(
            &[Word::Text(
                "this compares the outcome of a comparison, 0 or 1; `&&` joins two comparisons",
            )],
            out,
        ),
        Flaw::Mixed => say(
            &[Word::Text(
                "a comparison binds tighter than `&`, `|` and `^`: parentheses tell what is meant",
            )],
            out,
        ),
        Flaw::Overflow(left, operator, right) => say(
            &[
                Word::Number(left),
                Word::Text(operator),
                Word::Number(right),
                Word::Text(" does not fit into 32 bits: this is F_OVF"),
            ],
            out,
        ),
    }
}

/// Warns of the expressions of a task text that divide by a 0, that add or multiply two numbers whose sum or product
/// does not fit into 32 bits, or that compare the outcome of a comparison or join it by `&`, `|` or `^`. That is
/// certain: the operands are written there.
pub fn warn_of_arithmetic(
    (src, landmarks): (&Tokens<'_>, &Landmarks),
    found: &mut FoundWarnings<'_>,
) -> Result<(), AllocError> {
    for place in &landmarks.operators {
        let at = *place;
        if let Some((place, flaw)) = flaw_at(src, at) {
            let mut sentence = Vec::new(found.alloc);
            say_flaw(flaw, &mut sentence)?;
            found.warn(TextFile::Source, src, place, sentence)?;
        }
    }
    Ok(())
}
