//! The comments of a text in C, which are lines that begin with `//`, and its lines for a debugger.
ghost use Rattle.std.specs.Prelude.{◌≡◌, ◌++◌, [], IfOk, OnOk};
ghost use Rattle.fmp_export.specs.Remarks as spec;
ghost use Rattle.fmp_export.specs.Remarks.{c_above, c_after, c_directive, c_finish, c_line_end, own_line, own_lines};
ghost use Rattle.fmp_export.specs.Sources.{place_after, source_view};

use crate::source::{Landmark, LexedText, before, from, gaps_between, place_after};
use crate::text::{append, append_count};
use std::alloc::{AllocError, Global};

/// Whether no editor shows a byte.
fn is_hidden(byte: u8) -> bool
    ensures { result ≡ spec.is_hidden byte }
{
    (byte < 32 && byte != b'\t') || byte == 127
}

/// A byte in C: a space for one that is hidden.
fn shown(byte: u8) -> u8
    ensures { result ≡ spec.shown byte }
{
    if is_hidden(byte) { b' ' } else { byte }
}

/// A line without the space at its ends.
fn trimmed(line: &[u8]) -> &[u8]
    ensures { result.now ≡ spec.trimmed line.now }
{
    line.trim_ascii()
}

/// A line of a block comment without `*/` at its end.
fn without_close(line: &[u8]) -> &[u8]
    ensures { result.now ≡ spec.without_close line.now }
{
    if line.ends_with(b"*/") {
        before(line, line.len().saturating_sub(2))
    } else {
        line
    }
}

/// A line of a block comment without `/*` or `*` at its front.
fn without_open(line: &[u8]) -> &[u8]
    ensures { result.now ≡ spec.without_open line.now }
{
    if line.starts_with(b"/*") {
        from(line, 2)
    } else if line.starts_with(b"*") {
        from(line, 1)
    } else {
        line
    }
}

/// Appends a comment that says this, if it says anything.
fn append_saying(text: &[u8], out: &mut Vec<u8>) -> Result<(), AllocError>
    ensures { OnOk result (out.new.items ≡ out.old.items ++ spec.saying text.now) }
{
    if text.is_empty() {
        return Ok(());
    }
    append(b"// ", out)?;
    append(text, out)
}

/// Appends the comment of a piece of a line that has no space at its ends.
fn append_line_comment(line: &[u8], out: &mut Vec<u8>) -> Result<(), AllocError>
    ensures { OnOk result (out.new.items ≡ out.old.items ++ spec.line_comment line.now) }
{
    if line.starts_with(b"//") {
        append(line, out)
    } else {
        append_saying(trimmed(without_open(without_close(line))), out)
    }
}

/// Whether C reads the end of a line as a backslash.
fn is_open(line: &[u8]) -> bool
    ensures { result ≡ spec.is_open line.now }
{
    line.ends_with(b"\\") || line.ends_with(b"??/")
}

/// Whether a block comment ends with a piece of a line.
fn closes(piece: &[u8]) -> bool
    ensures { result ≡ spec.closes piece.now }
{
    piece.ends_with(b"*/") && !trimmed(piece).starts_with(b"//")
}

/// Appends the space after the comments of a line, if there are any.
fn append_space(comments: &mut Vec<u8>) -> Result<(), AllocError>
    ensures { OnOk result (comments.new.items ≡ spec.spaced comments.old.items) }
{
    if comments.is_empty() {
        return Ok(());
    }
    append(b" ", comments)
}

/// Appends a comment to those before it in its line, if it says anything.
fn append_further(comment: &[u8], comments: &mut Vec<u8>) -> Result<(), AllocError>
    ensures { OnOk result (comments.new.items ≡ spec.further comments.old.items comment.now) }
{
    if comment.is_empty() {
        return Ok(());
    }
    append_space(comments)?;
    append(comment, comments)
}

/// Appends the comment of a piece of a line to those before it.
fn append_piece(alloc: Global, piece: &[u8], comments: &mut Vec<u8>) -> Result<(), AllocError>
    ensures { OnOk result (comments.new.items ≡ spec.with_piece comments.old.items piece.now) }
{
    let mut comment = Vec::new(alloc);
    append_line_comment(trimmed(piece), &mut comment)?;
    append_further(&comment, comments)
}

/// The comments of a line: each block comment in it ends a piece.
fn line_comments(alloc: Global, line: &[u8]) -> Result<Vec<u8>, AllocError>
    ensures { IfOk result (λ c. c.items ≡ spec.line_comments [] [] line.now) }
{
    let mut comments = Vec::new(alloc);
    let mut piece = Vec::new(alloc);
    for byte in line {
        piece.push(*byte)?;
        if closes(&piece) {
            append_piece(alloc, &piece, &mut comments)?;
            piece.clear();
        }
    }
    append_piece(alloc, &piece, &mut comments)?;
    Ok(comments)
}

/// The comments of a line that stands between two tokens; nothing if there is only space.
fn comment(alloc: Global, line: &[u8]) -> Result<Vec<u8>, AllocError>
    ensures { IfOk result (λ c. c.items ≡ spec.comment line.now) }
{
    let mut comments = line_comments(alloc, line)?;
    if is_open(&comments) {
        append(b" .", &mut comments)?;
    }
    Ok(comments)
}

/// Appends a comment in a line of its own, if there is one.
fn append_own_line(margin: &[u8], comment: &[u8], out: &mut Vec<u8>) -> Result<(), AllocError>
    ensures { OnOk result (out.new.items ≡ out.old.items ++ own_line margin.now comment.now) }
{
    if comment.is_empty() {
        return Ok(());
    }
    append(margin, out)?;
    append(comment, out)?;
    append(b"\n", out)
}

/// Appends the comment of a line in a line of its own.
fn append_comment(
    alloc: Global,
    margin: &[u8],
    line: &[u8],
    out: &mut Vec<u8>,
) -> Result<(), AllocError>
    ensures { OnOk result (out.new.items ≡ out.old.items ++ own_line margin.now (spec.comment line.now)) }
{
    let comment = comment(alloc, line)?;
    append_own_line(margin, &comment, out)
}

/// The first line of a text.
fn first_line(alloc: Global, text: &[u8]) -> Result<Vec<u8>, AllocError>
    ensures { IfOk result (λ line. line.items ≡ spec.first_line [] text.now) }
{
    let mut line = Vec::new(alloc);
    for byte in text {
        if *byte == b'\n' {
            return Ok(line);
        }
        line.push(shown(*byte))?;
    }
    Ok(line)
}

/// What stands after the first line of a text.
pub fn other_lines(text: &[u8]) -> &[u8]
    ensures { result.now ≡ spec.other_lines text.now }
{
    let mut rest = text;
    while let Some((byte, more)) = rest.split_first() {
        rest = more;
        if *byte == b'\n' {
            return rest;
        }
    }
    rest
}

/// Appends the comments of some lines, each in a line of its own.
pub fn append_own_lines(
    alloc: Global,
    margin: &[u8],
    lines: &[u8],
    out: &mut Vec<u8>,
) -> Result<(), AllocError>
    ensures { OnOk result (out.new.items ≡ out.old.items ++ own_lines margin.now [] lines.now) }
{
    let mut line = Vec::new(alloc);
    for byte in lines {
        if *byte == b'\n' {
            append_comment(alloc, margin, &line, out)?;
            line.clear();
        } else {
            line.push(shown(*byte))?;
        }
    }
    append_comment(alloc, margin, &line, out)
}

/// Appends a comment after the code of its line, if there is one.
fn append_after_code(comment: &[u8], out: &mut Vec<u8>) -> Result<(), AllocError>
    ensures { OnOk result (out.new.items ≡ out.old.items ++ spec.after_code comment.now) }
{
    if comment.is_empty() {
        return Ok(());
    }
    append(b" ", out)?;
    append(comment, out)
}

/// Appends the comment of the first line of a gap, after the code of its line.
pub fn append_after(alloc: Global, gap: &[u8], out: &mut Vec<u8>) -> Result<(), AllocError>
    ensures { OnOk result (out.new.items ≡ out.old.items ++ c_after gap.now) }
{
    let line = first_line(alloc, gap)?;
    let comment = comment(alloc, &line)?;
    append_after_code(&comment, out)
}

/// Appends the comments of the other lines of a gap.
pub fn append_above(
    alloc: Global,
    margin: &[u8],
    gap: &[u8],
    out: &mut Vec<u8>,
) -> Result<(), AllocError>
    ensures { OnOk result (out.new.items ≡ out.old.items ++ c_above margin.now gap.now) }
{
    append_own_lines(alloc, margin, other_lines(gap), out)
}

/// Appends the end of a line of C, with the comments of a gap.
#[tactic(auto, unfolding(crate::specs::Remarks::c_line_end))]
fn append_line_end(
    alloc: Global,
    margin: &[u8],
    gap: &[u8],
    out: &mut Vec<u8>,
) -> Result<(), AllocError>
    ensures { OnOk result (out.new.items ≡ out.old.items ++ c_line_end margin.now gap.now) }
{
    append_after(alloc, gap, out)?;
    append(b"\n", out)?;
    append_above(alloc, margin, gap, out)
}

/// Appends the end of a line of C for the tokens from a place up to a landmark, and gives the place after it.
pub fn finish(
    margin: &[u8],
    landmark: Landmark,
    source: &LexedText<'_>,
    at: usize,
    out: &mut Vec<u8>,
) -> Result<usize, AllocError>
    ensures text { OnOk result (out.new.items
        ≡ out.old.items ++ c_finish margin.now landmark (source_view source.now) at) }
    ensures next { IfOk result (λ next. next ≡ place_after landmark (source_view source.now) at) }
{
    let next = place_after(landmark, source, at);
    let gap = gaps_between(source, at, next)?;
    append_line_end(source.alloc, margin, &gap, out)?;
    Ok(next)
}

/// Appends what tells a debugger that the next line of C is this one of the text.
#[tactic(auto, unfolding(crate::specs::Remarks::line_directive))]
fn append_line_directive(line: u32, out: &mut Vec<u8>) -> Result<(), AllocError>
    ensures { OnOk result (out.new.items ≡ out.old.items ++ spec.line_directive line) }
{
    append(b"#line ", out)?;
    append_count(line as usize, out)?;
    append(b" \"system.src\"\n", out)
}

/// Appends what tells a debugger that the next line of C is that of the token at a place, if the debugger is to know.
pub fn append_directive(
    source: &LexedText<'_>,
    at: usize,
    out: &mut Vec<u8>,
) -> Result<(), AllocError>
    ensures { OnOk result (out.new.items ≡ out.old.items ++ c_directive (source_view source.now) at) }
{
    match source.tokens.get(at) {
        Some(token) => {
            if source.lines {
                append_line_directive(token.line, out)
            } else {
                Ok(())
            }
        }
        None => Ok(()),
    }
}
