//! Where bytes of a text stand for an editor: in which line, and after how many UTF-16 units of it. A carriage return
//! alone ends no line, as in the language. Only comments may have bytes that are not ASCII.
ghost use Rattle.std.specs.Prelude.{◌≡◌, ℕ, ◌-◌, ◌<◌, ◌≤◌, ◌==◌, true, false, length, slice_index};
ghost use Rattle.fmp_server.specs.Positions as spec;
ghost use Rattle.fmp_server.specs.Positions.{IsColumn, IsLineStart, IsOffset, IsPosition, IsRange};

use fmp_lex::TokenPosition;

/// A position between two bytes of a text, as editors tell it.
#[derive(Clone, Copy)]
pub struct Position {
    /// The line, from 0: how many line feeds stand before.
    pub line: u64,
    /// How many UTF-16 units stand before it in its line.
    pub character: u64,
}

/// What stands between two positions.
#[derive(Clone, Copy)]
pub struct TextRange {
    pub start: Position,
    pub end: Position,
}

/// How many UTF-16 units begin with a byte: none with one that goes on with a character, two with one that begins a
/// character of four bytes, else one.
fn units(byte: u8) -> u64
    ensures { result ≡ spec.units byte }
{
    if byte >= 128 && byte < 192 {
        0
    } else if byte >= 240 {
        2
    } else {
        1
    }
}

/// How many UTF-16 units bytes have.
fn width(bytes: &[u8]) -> u64
    ensures { result ≡ spec.width bytes.now }
{
    let mut width = 0;
    for byte in bytes {
        width += units(*byte);
    }
    width
}

/// Where the line begins that holds a position.
fn line_begin(text: &[u8], at: usize) -> usize
    requires { at ≤ length text.now }
    ensures from { result ≤ at }
    ensures one { (k : ℕ) → result ≤ k → k < at → (slice_index text.now k == 10) ≡ false }
    ensures first { 0 < result → (slice_index text.now (result - 1) == 10) ≡ true }
{
    let mut begin = at;
    'back: while begin > 0 {
        if text[begin - 1] == b'\n' {
            return begin;
        }
        begin -= 1;
    }
    0
}

/// The position of a byte in this line of a text.
pub fn position_in(text: &[u8], line: u64, at: usize) -> Position
    requires { at ≤ length text.now }
    ensures { IsPosition text.now line at result }
{
    let begin = line_begin(text, at);
    Position {
        line,
        character: width(&text[begin..at]),
    }
}

/// What stands from one byte up to another of a line of a text, or up to the text's end.
pub fn range_in(text: &[u8], line: u64, start: usize, end: usize) -> TextRange
    ensures { IsRange text.now line start end result }
{
    TextRange {
        start: position_in(text, line, start.min(text.len())),
        end: position_in(text, line, end.min(text.len())),
    }
}

/// What stands at a position of a text.
pub fn range_of(text: &[u8], position: TokenPosition) -> TextRange
    ensures { IsRange text.now (position.line - 1) position.start position.end result }
{
    let line = u64::from(position.line).saturating_sub(1);
    range_in(text, line, position.start as usize, position.end as usize)
}

/// Where the line of this number begins, from 0; the text's end if there is none.
pub fn line_start(text: &[u8], line: u64) -> usize
    ensures { IsLineStart text.now line result }
{
    let mut left = line;
    for i in 0..text.len() {
        if left == 0 {
            return i;
        }
        if text[i] == b'\n' {
            left -= 1;
        }
    }
    text.len()
}

/// The byte at a character of the line that these bytes begin with.
fn column_at(rest: &[u8], character: u64) -> usize
    ensures { IsColumn rest.now character result }
{
    let mut left = character;
    for i in 0..rest.len() {
        let units = units(rest[i]);
        if rest[i] == b'\n' || left < units {
            return i;
        }
        left -= units;
    }
    rest.len()
}

/// The byte at a position of a text: the last one of its line before which there are no more units; the text's end if
/// it has no such line.
pub fn offset_at(text: &[u8], position: Position) -> usize
    ensures { IsOffset text.now position result }
{
    let begin = line_start(text, position.line);
    begin + column_at(&text[begin..], position.character)
}
