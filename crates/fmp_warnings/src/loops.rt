//! Warnings of loops that nothing in them can end.
use crate::found::FoundWarnings;
use crate::landmarks::Landmarks;
use fmp_cfgparse::ObjectName;
use fmp_diagnosis::apis::is_symbol;
use fmp_diagnosis::around::name_at;
use fmp_diagnosis::words::{Word, say};
use fmp_lex::{Keyword, Symbol, TextFile, TokenKind, Tokens};
use indexmap::IndexSet;
use std::alloc::{AllocError, Global};

/// The place after the group that begins at a place, of which the first of these symbols opens a level and the second
/// closes one.
fn group_end(tokens: &Tokens<'_>, begin: usize, opens: Symbol, closes: Symbol) -> usize {
    let mut open = 0usize;
    for at in begin..tokens.len() {
        if is_symbol(tokens, at, opens) {
            open = open.saturating_add(1);
        } else if is_symbol(tokens, at, closes) {
            open = open.saturating_sub(1);
        }
        if open == 0 {
            return at.saturating_add(1);
        }
    }
    tokens.len()
}

/// The names that stand from a place up to another.
fn names_in(
    alloc: Global,
    tokens: &Tokens<'_>,
    from: usize,
    to: usize,
) -> Result<IndexSet<ObjectName>, AllocError> {
    let mut names = IndexSet::new(alloc);
    for at in from..to {
        if let Some(name) = name_at(tokens, at) {
            names.insert(ObjectName { name })?;
        }
    }
    Ok(names)
}

/// Whether a statement begins at a place of a block.
fn begins_statement(tokens: &Tokens<'_>, at: usize) -> bool {
    match tokens.kind(at.saturating_sub(1)) {
        Some(TokenKind::Symbol(symbol)) => matches!(
            symbol,
            Symbol::Semicolon | Symbol::LeftBrace | Symbol::RightBrace
        ),
        _ => false,
    }
}

/// Whether the token at a place divides by what may be 0: a fault would end the loop.
fn may_divide_by_zero(tokens: &Tokens<'_>, at: usize) -> bool {
    let divides = is_symbol(tokens, at, Symbol::Slash) || is_symbol(tokens, at, Symbol::Percent);
    divides
        && !matches!(
            tokens.kind(at.saturating_add(1)),
            Some(TokenKind::Number(number)) if number > 0
        )
}

/// Whether the condition that begins at a place is the number 0: the loop never begins.
fn is_never(tokens: &Tokens<'_>, begin: usize) -> bool {
    let first = begin.saturating_add(1);
    tokens.kind(first) == Some(TokenKind::Number(0))
        && is_symbol(tokens, first.saturating_add(1), Symbol::RightParen)
}

/// Whether the token at a place of a loop may end the loop: a call, a jump out of it, an assignment to one of the names
/// of its condition, or a division by what may be 0.
fn may_end(tokens: &Tokens<'_>, at: usize, condition: &IndexSet<ObjectName>) -> bool {
    match tokens.kind(at) {
        Some(TokenKind::Service(_)) => true,
        Some(TokenKind::Keyword(keyword)) => { matches!(keyword, Keyword::Break | Keyword::Return) }
        Some(TokenKind::Name(name)) => {
            begins_statement(tokens, at) && condition.contains(&ObjectName { name })
        }
        _ => may_divide_by_zero(tokens, at),
    }
}

/// Whether nothing in the loop at a place can end it.
fn is_endless(alloc: Global, tokens: &Tokens<'_>, at: usize) -> Result<bool, AllocError> {
    if tokens.kind(at) != Some(TokenKind::Keyword(Keyword::While)) {
        return Ok(false);
    }
    let begin = at.saturating_add(1);
    if is_never(tokens, begin) {
        return Ok(false);
    }
    let block = group_end(tokens, begin, Symbol::LeftParen, Symbol::RightParen);
    let end = group_end(tokens, block, Symbol::LeftBrace, Symbol::RightBrace);
    let condition = names_in(alloc, tokens, begin, block)?;
    for place in begin..end {
        if may_end(tokens, place, &condition) {
            return Ok(false);
        }
    }
    Ok(true)
}

/// Warns of the loops of a task text that make no call, do not change what their condition reads, and have no jump out
/// of them.
pub fn warn_of_loops(
    (src, landmarks): (&Tokens<'_>, &Landmarks),
    found: &mut FoundWarnings<'_>,
) -> Result<(), AllocError> {
    for mark in &landmarks.structure {
        let at = mark.at;
        if is_endless(found.alloc, src, at)? {
            let words = [Word::Text(
                "nothing in this loop ends it: it makes no call, has no jump out, and does not change its condition",
            )];
            let mut sentence = Vec::new(found.alloc);
            say(&words, &mut sentence)?;
            found.warn(TextFile::Source, src, at, sentence)?;
        }
    }
    Ok(())
}
