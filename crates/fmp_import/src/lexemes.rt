//! The text of a configuration in C is cut into lexemes.
ghost use Rattle.std.specs.Prelude.{◌≡◌, ◌<◌, ◌≤◌, IfSome, length};

use crate::plan::TextSpan;
use std::alloc::{AllocError, Global};

/// What a lexeme is.
#[derive(Clone, Copy, PartialEq, Eq)]
pub enum LexemeKind {
    /// A name or a word of C.
    Word,
    /// A number with its suffix.
    Number,
    /// A line of the preprocessor.
    Directive,
    /// One between an `#if` and its `#endif`.
    ConditionalDirective,
    /// An `#elif` after an `#if 0`.
    DisabledDirective,
    /// A text or a character in quotes.
    Quoted,
    /// The `/*` of a comment that does not end.
    OpenComment,
    /// `<<` or `>>`, by its byte.
    Shift(u8),
    /// Any other byte.
    Sign(u8),
}

impl LexemeKind {
    /// Whether it is a line of the preprocessor that is read.
    pub fn is_directive(self) -> bool {
        matches!(
            self,
            LexemeKind::Directive | LexemeKind::ConditionalDirective
        )
    }
}

/// A lexeme, where it stands, and its line, from 1.
#[derive(Clone, Copy)]
pub struct Lexeme {
    pub kind: LexemeKind,
    pub span: TextSpan,
    pub line: usize,
}

/// A piece of a text up to `end`: a lexeme, or spaces or a comment.
#[derive(Clone, Copy)]
struct TextPiece {
    kind: Option<LexemeKind>,
    end: usize,
}

/// Whether a byte may stand in a word: one of a letter that is no ASCII too.
fn is_word(byte: u8) -> bool {
    byte.is_ascii_alphanumeric() || byte == b'_' || byte >= 128
}

/// Where the space ends that begins at a position and is no ASCII: a no-break space, an ideographic one, or a byte
/// order mark.
fn space_end(text: &[u8], at: usize) -> Option<usize>
    requires { at ≤ length text.now }
    ensures { IfSome result (λ end. (at < end) × (end ≤ length text.now)) }
{
    match &text[at..] {
        [0xC2, 0xA0, ..] => Some(at + 2),
        [0xE3, 0x80, 0x80, ..] | [0xEF, 0xBB, 0xBF, ..] => Some(at + 3),
        _ => None,
    }
}

/// Where the word ends that goes on at a position.
pub fn word_end(text: &[u8], from: usize) -> usize
    requires { from ≤ length text.now }
    ensures from { from ≤ result }
    ensures within { result ≤ length text.now }
{
    for i in from..text.len() {
        if !is_word(text[i]) || space_end(text, i).is_some() {
            return i;
        }
    }
    text.len()
}

/// Where the line ends that goes on at a position. A `\` before its line feed joins the next line to it.
fn line_end(text: &[u8], from: usize) -> usize
    requires { from ≤ length text.now }
    ensures from { from ≤ result }
    ensures within { result ≤ length text.now }
{
    let mut joins = false;
    for i in from..text.len() {
        if text[i] == b'\n' && !joins {
            return i;
        }
        joins = text[i] == b'\\' || (joins && text[i] == b'\r');
    }
    text.len()
}

/// Where the comment ends that goes on at a position: after its `*/`. None if it does not end.
fn comment_end(text: &[u8], from: usize) -> Option<usize>
    requires { from ≤ length text.now }
    ensures { IfSome result (λ end. (from ≤ end) × (end ≤ length text.now)) }
{
    let mut star = false;
    for i in from..text.len() {
        if star && text[i] == b'/' {
            return Some(i + 1);
        }
        star = text[i] == b'*';
    }
    None
}

/// Where what is quoted ends that goes on at a position: after the quote, or where its line ends. A `\` before its line
/// feed joins the next line to it.
fn quote_end(text: &[u8], from: usize, quote: u8) -> usize
    requires { from ≤ length text.now }
    ensures from { from ≤ result }
    ensures within { result ≤ length text.now }
{
    let mut escaped = false;
    for i in from..text.len() {
        if text[i] == b'\n' && !escaped {
            return i;
        }
        if text[i] == quote && !escaped {
            return i + 1;
        }
        escaped = (text[i] == b'\\' && !escaped) || (text[i] == b'\r' && escaped);
    }
    text.len()
}

/// The comment whose `/*` stands before a position. One that does not end goes on up to the end of the text.
fn block_comment(text: &[u8], from: usize) -> TextPiece
    requires { from ≤ length text.now }
    ensures from { from ≤ result.end }
    ensures within { result.end ≤ length text.now }
{
    match comment_end(text, from) {
        Some(end) => TextPiece { kind: None, end },
        None => TextPiece {
            kind: Some(LexemeKind::OpenComment),
            end: text.len(),
        },
    }
}

/// The comment whose `/` stands before a position, or that `/` where no comment begins there.
fn comment_or_sign(text: &[u8], next: usize) -> TextPiece
    requires { next ≤ length text.now }
    ensures next { next ≤ result.end }
    ensures within { result.end ≤ length text.now }
{
    let sign = TextPiece {
        kind: Some(LexemeKind::Sign(b'/')),
        end: next,
    };
    if next == text.len() {
        return sign;
    }
    match text[next] {
        b'/' => TextPiece {
            kind: None,
            end: line_end(text, next),
        },
        b'*' => block_comment(text, next + 1),
        _ => sign,
    }
}

/// Where the line goes on after a `\` before a position: after the line feed, if the line ends there.
fn joined_end(text: &[u8], next: usize) -> usize
    requires { next ≤ length text.now }
    ensures from { next ≤ result }
    ensures within { result ≤ length text.now }
{
    match &text[next..] {
        [b'\n', ..] => next + 1,
        [b'\r', b'\n', ..] => next + 2,
        _ => next,
    }
}

/// Where the part of a line of the preprocessor ends that begins at a position: a byte, a comment, what is quoted, or a
/// `\` with the line feed after it. None where the line ends: at its line feed, and at a comment that does not end.
fn directive_part_end(text: &[u8], at: usize) -> Option<usize>
    requires { at < length text.now }
    ensures { IfSome result (λ end. (at < end) × (end ≤ length text.now)) }
{
    let next = at + 1;
    match text[at] {
        b'\n' => None,
        b'\\' => Some(joined_end(text, next)),
        quote @ (b'"' | b'\'') => Some(quote_end(text, next, quote)),
        b'/' => {
            let TextPiece { kind, end } = comment_or_sign(text, next);
            if matches!(kind, Some(LexemeKind::OpenComment)) {
                None
            } else {
                Some(end)
            }
        }
        _ => Some(next),
    }
}

/// Where the line of the preprocessor ends that goes on at a position. A comment in it may go on over lines.
fn directive_end(text: &[u8], from: usize) -> usize
    requires { from ≤ length text.now }
    ensures from { from ≤ result }
    ensures within { result ≤ length text.now }
{
    let mut at = from;
    'parts: while at < text.len() {
        match directive_part_end(text, at) {
            Some(end) => at = end,
            None => return at,
        }
    }
    at
}

/// The `<<` or `>>` whose first byte stands before a position, or that byte where it stands alone.
fn shift_or_sign(text: &[u8], next: usize, byte: u8) -> TextPiece
    requires { next ≤ length text.now }
    ensures next { next ≤ result.end }
    ensures within { result.end ≤ length text.now }
{
    if next < text.len() && text[next] == byte {
        return TextPiece {
            kind: Some(LexemeKind::Shift(byte)),
            end: next + 1,
        };
    }
    TextPiece {
        kind: Some(LexemeKind::Sign(byte)),
        end: next,
    }
}

/// Whether a line ends at a position.
fn is_line_end(text: &[u8], at: usize) -> bool {
    matches!(text.get(at), Some(b'\r' | b'\n'))
}

/// The word or the space whose first byte stands before a position.
fn word_or_space(text: &[u8], next: usize, byte: u8) -> TextPiece
    requires from { 0 < next }
    requires within { next ≤ length text.now }
    ensures next { next ≤ result.end }
    ensures within { result.end ≤ length text.now }
{
    match space_end(text, next - 1) {
        Some(end) => TextPiece { kind: None, end },
        None => TextPiece {
            kind: Some(word_kind(byte)),
            end: word_end(text, next),
        },
    }
}

/// The piece that begins at a position.
fn piece_at(text: &[u8], at: usize) -> TextPiece
    requires { at < length text.now }
    ensures more { at < result.end }
    ensures within { result.end ≤ length text.now }
{
    let next = at + 1;
    match text[at] {
        b' ' | b'\t' | b'\r' | b'\n' | 11 | 12 => TextPiece {
            kind: None,
            end: next,
        },
        b'\\' if is_line_end(text, next) => TextPiece {
            kind: None,
            end: next,
        },
        b'#' => TextPiece {
            kind: Some(LexemeKind::Directive),
            end: directive_end(text, next),
        },
        quote @ (b'"' | b'\'') => TextPiece {
            kind: Some(LexemeKind::Quoted),
            end: quote_end(text, next, quote),
        },
        b'/' => comment_or_sign(text, next),
        byte @ (b'<' | b'>') => shift_or_sign(text, next, byte),
        byte if is_word(byte) => word_or_space(text, next, byte),
        byte => TextPiece {
            kind: Some(LexemeKind::Sign(byte)),
            end: next,
        },
    }
}

/// What a word is, by its first byte.
fn word_kind(first: u8) -> LexemeKind {
    if first.is_ascii_digit() {
        LexemeKind::Number
    } else {
        LexemeKind::Word
    }
}

/// The part of a text that a lexeme is: of a comment that does not end its first two bytes.
fn span_of(kind: LexemeKind, start: usize, end: usize) -> TextSpan {
    match kind {
        LexemeKind::OpenComment => TextSpan {
            start,
            end: start.saturating_add(2),
        },
        _ => TextSpan { start, end },
    }
}

/// What stands after the spaces and comments at the start of a text.
pub fn after_blanks(text: &[u8]) -> &[u8] {
    let mut at = 0;
    'blanks: while at < text.len() {
        let TextPiece { kind, end } = piece_at(text, at);
        if kind.is_some() {
            break;
        }
        at = end;
    }
    &text[at..]
}

/// The first line of a part of a text.
pub fn first_line(text: &[u8], span: TextSpan) -> TextSpan
    ensures start { result.start ≡ span.start }
    ensures within { result.end ≤ span.end }
{
    let end = span.end.min(text.len());
    for i in span.start..end {
        if is_line_end(text, i) {
            return TextSpan {
                start: span.start,
                end: i,
            };
        }
    }
    span
}

/// How many lines end in these bytes.
fn line_feeds(bytes: &[u8]) -> usize {
    bytes.iter().filter(|byte| **byte == b'\n').count()
}

/// The lexemes of a text.
pub fn lexemes(alloc: Global, text: &[u8]) -> Result<Vec<Lexeme>, AllocError> {
    let mut found = Vec::new(alloc);
    let mut line: usize = 1;
    let mut at = 0;
    'pieces: while at < text.len() {
        let TextPiece { kind, end } = piece_at(text, at);
        if let Some(kind) = kind {
            let span = span_of(kind, at, end);
            found.push(Lexeme { kind, span, line })?;
        }
        line = line.saturating_add(line_feeds(&text[at..end]));
        at = end;
    }
    Ok(found)
}
