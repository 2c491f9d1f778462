//! The line of a text that holds a position, with marks under the token there.
ghost use Rattle.std.specs.Prelude.{◌≡◌, ℕ, ◌+◌, ◌-◌, ◌^◌, ◌<◌, ◌≤◌, ◌==◌, ◌++◌, nat_lt, true, false, IfOk, OnOk};
ghost use Rattle.std.specs.Prelude.{flat_map, length, max, min, replicate, slice_index, slice_range};
ghost use Rattle.std.specs.List.{filter};
ghost use Rattle.fmp_diagnosis.specs.Excerpts as spec;
ghost use Rattle.fmp_diagnosis.specs.Excerpts.{IsExcerpt, IsLine};

use std::alloc::{AllocError, Global};

/// A line of a text with marks under a token.
#[derive(Drop)]
pub struct Excerpt {
    /// The column of the token's first byte, from 1, counted in bytes.
    pub column: usize,
    /// The line without its end; of a line of more than 100 bytes a part, with `...` where something is left out. In
    /// place of a control byte other than a tab stands its picture, a character from U+2400 on.
    pub line: Vec<u8>,
    /// What stands under the line, a column for each character: `^` under each one of the token, or one if it has none.
    pub marks: Vec<u8>,
}

/// Where the line begins that holds a position.
fn line_begin(text: &[u8], at: usize) -> usize
    requires { at ≤ length text.now }
    ensures from { result ≤ at }
    ensures one { (k : ℕ) → result ≤ k → k < at → (slice_index text.now k == 10) ≡ false }
    ensures first { 0 < result → (slice_index text.now (result - 1) == 10) ≡ true }
{
    let mut begin = at;
    'back: while begin > 0 {
        if text[begin - 1] == b'\n' {
            return begin;
        }
        begin -= 1;
    }
    0
}

/// Where the line ends that holds a position.
fn line_finish(text: &[u8], at: usize) -> usize
    requires { at ≤ length text.now }
    ensures to { at ≤ result }
    ensures within { result ≤ length text.now }
    ensures one { (k : ℕ) → at ≤ k → k < result → (slice_index text.now k == 10) ≡ false }
    ensures last { result < length text.now → (slice_index text.now result == 10) ≡ true }
{
    for i in at..text.len() {
        if text[i] == b'\n' {
            return i;
        }
    }
    text.len()
}

/// Where a line ends without a carriage return after the position.
fn without_return(text: &[u8], at: usize, finish: usize) -> usize
    requires { finish ≤ length text.now }
    ensures { result ≡ spec.without_return text.now at finish }
{
    if at < finish && text[finish - 1] == b'\r' {
        finish - 1
    } else {
        finish
    }
}

fn is_long(begin: usize, finish: usize) -> bool
    requires { begin ≤ finish }
    ensures { result ≡ spec.is_long begin finish }
{
    finish - begin > 100
}

/// Where what is shown of a line begins.
fn shown_from(begin: usize, finish: usize, at: usize) -> usize
    requires { begin ≤ finish }
    ensures { result ≡ spec.shown_from begin finish at }
{
    if is_long(begin, finish) {
        begin.max(at.saturating_sub(47))
    } else {
        begin
    }
}

/// Where what is shown of a line from `from` on ends.
fn shown_to(begin: usize, finish: usize, from: usize) -> usize
    requires begin { begin ≤ finish }
    requires from { from ≤ finish }
    ensures { result ≡ spec.shown_to begin finish from }
{
    if is_long(begin, finish) && finish - from > 94 {
        from + 94
    } else {
        finish
    }
}

fn append_dots(left_out: bool, out: &mut Vec<u8>) -> Result<(), AllocError>
    ensures { OnOk result (out.new.items ≡ out.old.items ++ spec.dots left_out) }
{
    if left_out {
        out.extend_from_slice(b"...")?;
    }
    Ok(())
}

/// Whether a byte is the first one of a character.
fn begins_character(byte: u8) -> bool
    ensures { result ≡ spec.begins_character byte }
{
    !(byte >= 128 && byte < 192)
}

/// What stands under a byte that begins a character.
fn blank(byte: u8) -> u8
    ensures { result ≡ spec.blank byte }
{
    if byte == b'\t' { b'\t' } else { b' ' }
}

/// Appends what stands under these bytes.
fn append_blanks(bytes: &[u8], out: &mut Vec<u8>) -> Result<(), AllocError>
    ensures { OnOk result (out.new.items ≡ out.old.items ++ spec.blanks bytes.now) }
{
    for byte in bytes {
        if begins_character(*byte) {
            out.push(blank(*byte))?;
        }
    }
    Ok(())
}

/// Appends this many carets.
fn append_carets(count: usize, out: &mut Vec<u8>) -> Result<(), AllocError>
    ensures { OnOk result (out.new.items ≡ out.old.items ++ replicate count 94) }
{
    for _caret in 0..count {
        out.push(b'^')?;
    }
    Ok(())
}

/// Whether a terminal would obey a byte.
fn is_control(byte: u8) -> bool
    ensures { result ≡ spec.is_control byte }
{
    (byte < 32 && byte != b'\t') || byte == 127
}

/// The picture of a control byte.
fn picture(byte: u8) -> [u8; 3]
    requires { spec.is_control byte ≡ true }
    ensures { result ≡ spec.picture byte }
{
    let last = if byte == 127 { 161 } else { 128 + byte };
    [226, 144, last]
}

/// Appends a byte, or its picture where it is a control byte.
fn append_shown(byte: u8, out: &mut Vec<u8>) -> Result<(), AllocError>
    ensures { OnOk result (out.new.items ≡ out.old.items ++ spec.shown_byte byte) }
{
    if is_control(byte) {
        out.extend_from_slice(&picture(byte))
    } else {
        out.push(byte)?;
        Ok(())
    }
}

/// Appends these bytes as they are shown.
fn append_line(bytes: &[u8], out: &mut Vec<u8>) -> Result<(), AllocError>
    ensures { OnOk result (out.new.items ≡ out.old.items ++ flat_map spec.shown_byte bytes.now) }
{
    for byte in bytes {
        append_shown(*byte, out)?;
    }
    Ok(())
}

/// A line of a text, from `begin` up to `finish`, which is shown from `from` up to `to`.
#[derive(Clone, Copy)]
struct ShownLine {
    begin: usize,
    finish: usize,
    from: usize,
    to: usize,
}

/// What is shown of a line.
fn shown(alloc: Global, text: &[u8], line: ShownLine) -> Result<Vec<u8>, AllocError>
    requires from { line.from ≤ line.to }
    requires to { line.to ≤ length text.now }
    ensures { IfOk result (λ v. v.items ≡ spec.shown text.now line.begin line.finish line.from line.to) }
{
    let mut out = Vec::new(alloc);
    append_dots(line.begin < line.from, &mut out)?;
    append_line(&text[line.from..line.to], &mut out)?;
    append_dots(line.to < line.finish, &mut out)?;
    Ok(out)
}

/// How many characters begin in these bytes.
fn characters(bytes: &[u8]) -> usize
    ensures { result ≡ length (filter spec.begins_character bytes.now) }
{
    bytes.iter().filter(|byte| begins_character(**byte)).count()
}

/// The bytes of a text from one position up to another one, none if that stands before it.
fn bytes_between(text: &[u8], from: usize, to: usize) -> &[u8]
    requires { to ≤ length text.now }
    ensures { result.now ≡ slice_range text.now from to }
{
    if from < to { &text[from..to] } else { &[] }
}

/// What stands under a line for the token from `at` up to `end`.
fn marks(
    alloc: Global,
    text: &[u8],
    line: ShownLine,
    at: usize,
    end: usize,
) -> Result<Vec<u8>, AllocError>
    requires from { line.from ≤ at }
    requires at { at ≤ length text.now }
    requires to { line.to ≤ length text.now }
    ensures { IfOk result (λ v. v.items ≡ spec.marks text.now line.begin line.from line.to at end) }
{
    let mut out = Vec::new(alloc);
    if line.begin < line.from {
        append_blanks(b"...", &mut out)?;
    }
    append_blanks(&text[line.from..at], &mut out)?;
    let token = bytes_between(text, at, end.min(line.to));
    append_carets(characters(token).max(1), &mut out)?;
    Ok(out)
}

/// The line of a text that holds the token from `at` up to `end`, with marks under the token. `AllocError` if memory
/// runs out.
pub fn excerpt_at(alloc: Global, text: &[u8], at: usize, end: usize) -> Result<Excerpt, AllocError>
    requires { at ≤ length text.now }
    ensures shows { IfOk result (IsExcerpt text.now at end) }
    ensures column { IfOk result (λ excerpt. excerpt.column ≤ 2 ^ 63) }
{
    let begin = line_begin(text, at);
    let after = line_finish(text, at);
    let finish = without_return(text, at, after);
    let from = shown_from(begin, finish, at);
    let to = shown_to(begin, finish, from);
    let line = ShownLine {
        begin,
        finish,
        from,
        to,
    };
    Ok(Excerpt {
        column: at - begin + 1,
        line: shown(alloc, text, line)?,
        marks: marks(alloc, text, line, at, end)?,
    })
}
