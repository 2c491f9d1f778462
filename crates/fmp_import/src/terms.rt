//! An expression of C becomes terms: numbers and signs, where each name is replaced and casts are left out.
ghost use Rattle.std.specs.Prelude.{◌<◌, ◌≤◌, length};

use crate::lexemes::{Lexeme, LexemeKind};
use crate::reading::SourceReading;
use std::alloc::{AllocError, AllocFailed, Global};

/// Why an expression has no value.
#[derive(Clone, Copy)]
pub enum NoValue {
    /// This name is unknown.
    Unknown(Lexeme),
    /// This name has arguments, as that of a macro with parameters.
    HasArguments(Lexeme),
    /// It is not of the form that is read here, or its value is out of range.
    Form,
    /// Memory ran out.
    Memory,
}

impl<T: Drop> From<AllocFailed<T>> for NoValue {
    fn from(_error: AllocFailed<T>) -> Self {
        NoValue::Memory
    }
}

impl From<AllocError> for NoValue {
    fn from(_error: AllocError) -> Self {
        NoValue::Memory
    }
}

/// A part of an expression.
#[derive(Clone, Copy, PartialEq, Eq)]
pub enum Term {
    Number(i64),
    /// `<<` or `>>`, by its byte.
    Shift(u8),
    Sign(u8),
}

/// The greatest number of terms of an expression: names that are replaced may double it again and again.
const MOST: usize = 1024;

/// The types of C that a cast may name.
static TYPES: [&[u8]; 38] = [
    b"void",
    b"char",
    b"short",
    b"int",
    b"long",
    b"unsigned",
    b"signed",
    b"VP",
    b"VP_INT",
    b"EXINF",
    b"INT",
    b"UINT",
    b"ID",
    b"PRI",
    b"ATR",
    b"SIZE",
    b"RELTIM",
    b"FLGPTN",
    b"B",
    b"H",
    b"W",
    b"VB",
    b"VH",
    b"VW",
    b"UB",
    b"UH",
    b"UW",
    b"FP",
    b"FN",
    b"BOOL",
    b"bool",
    b"ER",
    b"STAT",
    b"MODE",
    b"TMO",
    b"SYSTIM",
    b"INHNO",
    b"INTNO",
];

/// Whether a word is a type.
fn is_type(word: &[u8]) -> bool {
    word.ends_with(b"_t") || TYPES.iter().any(|name| *name == word)
}

/// The value of a digit.
fn digit(byte: u8) -> Option<i64> {
    match byte {
        b'0'..=b'9' => Some(i64::from(byte - b'0')),
        b'a'..=b'f' => Some(i64::from(byte - b'a' + 10)),
        b'A'..=b'F' => Some(i64::from(byte - b'A' + 10)),
        _ => None,
    }
}

/// The value of digits, if it fits.
fn digits_value(digits: &[u8], base: i64) -> Option<i64> {
    if digits.is_empty() {
        return None;
    }
    let mut value: i64 = 0;
    for byte in digits {
        let one = digit(*byte)?;
        if one >= base {
            return None;
        }
        value = value.checked_mul(base)?.checked_add(one)?;
    }
    Some(value)
}

/// Whether a byte stands in the suffix of a number.
fn is_suffix(byte: u8) -> bool {
    matches!(byte, b'u' | b'U' | b'l' | b'L')
}

/// Where the suffix of a number begins.
fn suffix_start(number: &[u8]) -> usize
    ensures { result ≤ length number.now }
{
    for i in 0..number.len() {
        if is_suffix(number[i]) {
            return i;
        }
    }
    number.len()
}

/// The value of the digits of a number of C.
fn unsigned_value(number: &[u8]) -> Option<i64> {
    match number {
        [b'0', b'x' | b'X', digits @ ..] => digits_value(digits, 16),
        [b'0', _, ..] => digits_value(number, 8),
        _ => digits_value(number, 10),
    }
}

/// The value of a number of C.
fn number_value(number: &[u8]) -> Option<i64> {
    let end = suffix_start(number);
    for i in end..number.len() {
        if !is_suffix(number[i]) {
            return None;
        }
    }
    unsigned_value(&number[..end])
}

/// Where the cast ends whose parenthesis stands here, if it is one.
fn cast_end(reading: SourceReading<'_>, lexemes: &[Lexeme], at: usize) -> Option<usize>
    requires { at < length lexemes.now }
{
    for i in at + 1..lexemes.len() {
        match lexemes[i].kind {
            LexemeKind::Word if is_type(reading.bytes(lexemes[i])) => {}
            LexemeKind::Sign(b'*') if i > at + 1 => {}
            LexemeKind::Sign(b')') if i > at + 1 => return Some(i + 1),
            _ => return None,
        }
    }
    None
}

/// Adds the terms of a name: those of its definition, or else its value.
fn append_named(
    reading: SourceReading<'_>,
    name: Lexeme,
    terms: &mut Vec<Term>,
) -> Result<(), NoValue> {
    let word = reading.bytes(name);
    let Some(value) = reading.constants.value_named(word) else {
        return Err(NoValue::Unknown(name));
    };
    let defined = reading.constants.terms_named(word);
    if defined.is_empty() {
        terms.push(Term::Number(value))?;
        return Ok(());
    }
    if MOST < defined.len() || MOST - defined.len() < terms.len() {
        return Err(NoValue::Form);
    }
    terms.extend_from_slice(defined)?;
    Ok(())
}

/// Whether arguments in parentheses stand after the name at a place.
fn has_arguments(lexemes: &[Lexeme], at: usize) -> bool
    requires { at < length lexemes.now }
{
    match lexemes.get(at + 1) {
        Some(next) => matches!(next.kind, LexemeKind::Sign(b'(')),
        None => false,
    }
}

/// Adds the terms of the lexeme at a place, and says where the next one is.
fn append_terms(
    reading: SourceReading<'_>,
    lexemes: &[Lexeme],
    at: usize,
    terms: &mut Vec<Term>,
) -> Result<usize, NoValue>
    requires { at < length lexemes.now }
{
    let lexeme = lexemes[at];
    match lexeme.kind {
        LexemeKind::Number => {
            let value = number_value(reading.bytes(lexeme)).ok_or(NoValue::Form)?;
            terms.push(Term::Number(value))?;
        }
        LexemeKind::Word if has_arguments(lexemes, at) => {
            return Err(NoValue::HasArguments(lexeme));
        }
        LexemeKind::Word => append_named(reading, lexeme, terms)?,
        LexemeKind::Sign(b'(') => match cast_end(reading, lexemes, at) {
            Some(end) => return Ok(end),
            None => terms.push(Term::Sign(b'('))?,
        },
        LexemeKind::Shift(byte) => terms.push(Term::Shift(byte))?,
        LexemeKind::Sign(byte) => terms.push(Term::Sign(byte))?,
        _ => return Err(NoValue::Form),
    }
    Ok(at + 1)
}

/// The terms of an expression.
pub fn terms_of(
    alloc: Global,
    reading: SourceReading<'_>,
    lexemes: &[Lexeme],
) -> Result<Vec<Term>, NoValue> {
    let mut terms = Vec::new(alloc);
    let mut next = 0;
    for at in 0..lexemes.len() {
        if at >= next {
            next = append_terms(reading, lexemes, at, &mut terms)?;
        }
    }
    Ok(terms)
}
