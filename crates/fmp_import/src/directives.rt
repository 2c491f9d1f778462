//! Lines of the preprocessor: which file one includes, and which lines others leave out.
ghost use Rattle.std.specs.Prelude.{◌≡◌, None, Some, IfSome};

use crate::lexemes::{Lexeme, LexemeKind, after_blanks, lexemes, word_end};
use crate::text::bytes_of;
use std::alloc::{AllocError, Global};

/// What a line of the preprocessor says of the lines after it.
#[derive(Clone, Copy)]
enum Condition {
    /// `#if 0`: they are left out.
    Never,
    /// Another `#if`, `#ifdef` or `#ifndef`.
    Begins,
    /// `#else`.
    Otherwise,
    /// `#elif`.
    OtherwiseIf,
    /// `#endif`.
    Ends,
}

/// The name of the file that a line includes, if it stands in quotes.
pub fn included_name(line: &[u8]) -> Option<&[u8]> {
    let word = after_blanks(line.strip_prefix(b"#")?);
    let name = after_blanks(word.strip_prefix(b"include")?).strip_prefix(b"\"")?;
    let end = name.iter().position(|byte| *byte == b'"')?;
    Some(&name[..end])
}

/// Whether what stands after `#if` is 0.
fn is_zero(condition: &[u8]) -> bool {
    match after_blanks(condition).strip_prefix(b"0") {
        Some(rest) => after_blanks(rest).is_empty(),
        None => false,
    }
}

/// What a line says of those after it, if it says anything of them.
fn condition_of(line: &[u8]) -> Option<Condition> {
    let text = after_blanks(line.strip_prefix(b"#")?);
    let end = word_end(text, 0);
    match &text[..end] {
        b"if" if is_zero(&text[end..]) => Some(Condition::Never),
        b"if" | b"ifdef" | b"ifndef" => Some(Condition::Begins),
        b"else" => Some(Condition::Otherwise),
        b"elif" => Some(Condition::OtherwiseIf),
        b"endif" => Some(Condition::Ends),
        _ => None,
    }
}

/// Whether the lines after this one are left out.
pub fn leaves_out(line: &[u8]) -> bool {
    matches!(condition_of(line), Some(Condition::Never))
}

/// How many conditions are open from the first one on that leaves lines out, after a line that has this one.
fn depth_after(depth: usize, condition: Option<Condition>) -> usize
    ensures otherwise_if { condition ≡ Some Condition.OtherwiseIf → result ≡ depth }
    ensures other { condition ≡ None → result ≡ depth }
{
    match (depth, condition) {
        (0, Some(Condition::Never)) => 1,
        (0, _) | (1, Some(Condition::Otherwise)) => 0,
        (_, Some(Condition::Never | Condition::Begins)) => depth.saturating_add(1),
        (_, Some(Condition::Ends)) => depth.saturating_sub(1),
        _ => depth,
    }
}

/// What a lexeme says of those after it, if it says anything of them.
fn condition_at(text: &[u8], lexeme: Lexeme) -> Option<Condition> {
    match lexeme.kind {
        LexemeKind::Directive => condition_of(bytes_of(text, lexeme.span)),
        _ => None,
    }
}

/// The lexeme as it is read where this many conditions are open from the first one on that leaves lines out, if it is:
/// an `#elif` of that condition is kept for the list of what was left out.
fn enabled(depth: usize, condition: Option<Condition>, lexeme: Lexeme) -> Option<Lexeme>
    ensures read { depth ≡ 0 → result ≡ Some lexeme }
    ensures span { IfSome result (λ read. read.span ≡ lexeme.span) }
{
    match (depth, condition) {
        (0, _) => Some(lexeme),
        (1, Some(Condition::OtherwiseIf)) => Some(Lexeme {
            kind: LexemeKind::DisabledDirective,
            ..lexeme
        }),
        _ => None,
    }
}

/// How many conditions are open after a line that has this one.
fn open_after(open: usize, condition: Option<Condition>) -> usize {
    match condition {
        Some(Condition::Never | Condition::Begins) => open.saturating_add(1),
        Some(Condition::Ends) => open.saturating_sub(1),
        _ => open,
    }
}

/// A lexeme that is read where this many conditions are open.
fn marked(open: usize, lexeme: Lexeme) -> Lexeme {
    match lexeme.kind {
        LexemeKind::Directive if open > 0 => Lexeme {
            kind: LexemeKind::ConditionalDirective,
            ..lexeme
        },
        _ => lexeme,
    }
}

/// The lexemes of a text without those after `#if 0` up to its `#else` or `#endif`.
pub fn enabled_lexemes(alloc: Global, text: &[u8]) -> Result<Vec<Lexeme>, AllocError> {
    let mut found = Vec::new(alloc);
    let mut depth = 0;
    let mut open = 0;
    for lexeme in &lexemes(alloc, text)? {
        let condition = condition_at(text, *lexeme);
        if let Some(read) = enabled(depth, condition, *lexeme) {
            found.push(marked(open, read))?;
        }
        depth = depth_after(depth, condition);
        open = open_after(open, condition);
    }
    Ok(found)
}
