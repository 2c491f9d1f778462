//! Warnings of indices of arrays that are numbers out of range.
ghost use Rattle.std.specs.Prelude.{OnOk};
ghost use Rattle.fmp_diagnosis.specs.Words.{IsSaid};

use crate::found::FoundWarnings;
use crate::landmarks::{Landmarks, Mark};
use fmp_base::Name;
use fmp_diagnosis::apis::is_symbol;
use fmp_diagnosis::around::{is_same, name_at};
use fmp_diagnosis::words::{Word, say};
use fmp_lex::{Keyword, Symbol, TextFile, TokenKind, Tokens};
use std::alloc::{AllocError, Global};

/// An index that is out of the range of its array.
#[derive(Clone, Copy)]
struct Misplaced {
    /// The name of the array.
    array: Name,
    /// How many places it has.
    places: i64,
    /// The index.
    index: i64,
}

/// The number at a place.
fn number_at(tokens: &Tokens<'_>, at: usize) -> Option<i64> {
    match tokens.kind(at) {
        Some(TokenKind::Number(number)) => Some(i64::from(number)),
        _ => None,
    }
}

/// The number, with or without a minus, that stands alone in brackets from a place on.
fn lone_index(tokens: &Tokens<'_>, at: usize) -> Option<i64> {
    if !is_symbol(tokens, at, Symbol::LeftBracket) {
        return None;
    }
    let first = at.saturating_add(1);
    let is_minus = is_symbol(tokens, first, Symbol::Minus);
    let last = if is_minus {
        first.saturating_add(1)
    } else {
        first
    };
    if !is_symbol(tokens, last.saturating_add(1), Symbol::RightBracket) {
        return None;
    }
    let number = number_at(tokens, last)?;
    if is_minus {
        Some(0i64.saturating_sub(number))
    } else {
        Some(number)
    }
}

/// Whether the declaration of an array of this name stands at a place.
fn declares(tokens: &Tokens<'_>, at: usize, array: &Name) -> bool {
    if tokens.kind(at) != Some(TokenKind::Keyword(Keyword::Var)) {
        return false;
    }
    match name_at(tokens, at.saturating_add(1)) {
        Some(name) => is_same(&name, array),
        None => false,
    }
}

/// How many places an array has, by its declaration in the body that begins at a place.
fn places_of(tokens: &Tokens<'_>, body: usize, array: &Name) -> Option<i64> {
    for at in body..tokens.len() {
        if declares(tokens, at, array) {
            return number_at(tokens, at.saturating_add(3));
        }
    }
    None
}

/// Whether a declaration begins in front of a place.
fn is_declared_at(tokens: &Tokens<'_>, at: usize) -> bool {
    at > 0 && tokens.kind(at - 1) == Some(TokenKind::Keyword(Keyword::Var))
}

/// The index after the bracket, where it is a number out of the range of the array whose name stands before it.
fn misplaced_at(tokens: &Tokens<'_>, bracket: Mark) -> Option<Misplaced> {
    let at = bracket.at.saturating_sub(1);
    if is_declared_at(tokens, at) {
        return None;
    }
    let array = name_at(tokens, at)?;
    let index = lone_index(tokens, bracket.at)?;
    let places = places_of(tokens, bracket.body, &array)?;
    if 0 <= index && index < places {
        return None;
    }
    Some(Misplaced {
        array,
        places,
        index,
    })
}

/// Says that an index is out of range.
fn say_misplaced(misplaced: Misplaced, out: &mut Vec<u8>) -> Result<(), AllocError>
    ensures { OnOk result (IsSaid out.old.items out.new.items) }
{
    say(
        &[
            Word::Text("the index "),
            Word::Number(misplaced.index),
            Word::Text(" of "),
            Word::Name(misplaced.array),
            Word::Text(" is out of range: the array has "),
            Word::Number(misplaced.places),
            Word::Text(" places"),
        ],
        out,
    )
}

/// Warns of the indices of a task text that are numbers out of the range of their arrays.
pub fn warn_of_indices(
    (src, landmarks): (&Tokens<'_>, &Landmarks),
    found: &mut FoundWarnings<'_>,
) -> Result<(), AllocError> {
    for bracket in &landmarks.brackets {
        if let Some(misplaced) = misplaced_at(src, *bracket) {
            let mut sentence = Vec::new(found.alloc);
            say_misplaced(misplaced, &mut sentence)?;
            let place = bracket.at.saturating_add(1);
            found.warn(TextFile::Source, src, place, sentence)?;
        }
    }
    Ok(())
}
