//! What is said of a fault of a text: where it stands, its code, a sentence, and its line with marks.
ghost use Rattle.std.specs.Prelude.{◌≡◌, ◌++◌, ◌+◌, ◌-◌, ◌^◌, ◌<◌, ◌≤◌, length, IfOk, OnOk};
ghost use Rattle.fmp_diagnosis.specs.Reports as spec;
ghost use Rattle.fmp_diagnosis.specs.Reports.{IsFinding};

use crate::around::{Around, around_position};
use crate::culprit::culprit_around;
use crate::excerpt::{Excerpt, excerpt_at};
use crate::sentence::{Texts, say_fault};
use fmp_json::append_number;
use fmp_lex::{FaultKind, TextFile, TokenPosition};
use std::alloc::{AllocError, Global};

/// The letter and digit of a kind of fault.
fn code(kind: FaultKind) -> &'static str
    ensures { result.now ≡ spec.code kind }
{
    match kind {
        FaultKind::Syntax => "B1",
        FaultKind::TwiceNamed => "B2",
        FaultKind::UnknownName => "B3",
        FaultKind::Api(_) => "B4 ",
        FaultKind::Limit => "B5",
        FaultKind::StackTooSmall => "B6",
        FaultKind::WrongEntryKind => "B7",
        FaultKind::Shape => "B9",
    }
}

/// The error code with which a static API refuses, else nothing.
fn refusal(kind: FaultKind) -> &'static str
    ensures { result.now ≡ spec.refusal kind }
{
    match kind {
        FaultKind::Api(code) => code.name(),
        _ => "",
    }
}

/// Appends a line and a column.
fn append_numbers(line: u32, column: usize, out: &mut Vec<u8>) -> Result<(), AllocError>
    ensures { OnOk result (out.new.items ≡ out.old.items ++ spec.numbers line column) }
{
    out.extend_from_slice(b":")?;
    append_number(u64::from(line), out)?;
    out.extend_from_slice(b":")?;
    append_number(column as u64, out)?;
    out.extend_from_slice(b": ")
}

/// Appends a code in two parts.
fn append_code(code: &str, refusal: &str, out: &mut Vec<u8>) -> Result<(), AllocError>
    ensures { OnOk result (out.new.items ≡ out.old.items ++ spec.code_words code.now refusal.now) }
{
    out.extend_from_slice(code.as_bytes())?;
    out.extend_from_slice(refusal.as_bytes())?;
    out.extend_from_slice(b": ")
}

/// What the first line of an image begins with as it is shown: a control byte comes after the letters, and two bytes of
/// its picture are those of all pictures.
const IMAGE_BEGIN: [u8; 6] = [b'F', b'M', b'P', b'I', 226, 144];

/// Whether a line that is shown is the first one of an image, which is no text.
fn is_of_image(line: &[u8]) -> bool
    ensures { result ≡ spec.is_of_image line.now }
{
    line.starts_with(&IMAGE_BEGIN)
}

/// Appends a line and the marks under it, each after four spaces; of an image nothing but the end of the line before.
fn append_excerpt(excerpt: &Excerpt, out: &mut Vec<u8>) -> Result<(), AllocError>
    ensures { OnOk result (out.new.items ≡ out.old.items ++ spec.lines excerpt.now) }
{
    if is_of_image(&excerpt.line) {
        return out.extend_from_slice(b"\n");
    }
    out.extend_from_slice(b"\n    ")?;
    out.extend_from_slice(&excerpt.line)?;
    out.extend_from_slice(b"\n    ")?;
    out.extend_from_slice(&excerpt.marks)?;
    out.extend_from_slice(b"\n")
}

/// What is said of a fault of a text.
#[derive(Drop)]
pub struct FaultReport {
    /// The line, from 1.
    pub line: u32,
    /// The column of the token's first byte, its line and the marks under it.
    pub excerpt: Excerpt,
    /// The column after the token's last byte.
    pub end: usize,
    /// The code, `B4 ` with a blank.
    pub code: &'static str,
    /// After `B4 ` the code with which a static API refuses, else nothing.
    pub refusal: &'static str,
    /// What is wrong, in one sentence.
    pub sentence: Vec<u8>,
}

impl FaultReport {
    /// Appends the name of the file, the line, the column and the code.
    fn append_head(&self, name: &str, out: &mut Vec<u8>) -> Result<(), AllocError>
        ensures { OnOk result (out.new.items ≡ out.old.items ++ spec.head name.now self.now) }
    {
        out.extend_from_slice(name.as_bytes())?;
        append_numbers(self.line, self.excerpt.column, out)?;
        append_code(self.code, self.refusal, out)
    }

    /// The finding as it is printed, under the name of its file: the line, the column, the code and the sentence, and
    /// the line of the text with marks, if it is no image. `AllocError` if memory runs out.
    pub fn report(&self, alloc: Global, name: &str) -> Result<Vec<u8>, AllocError>
        ensures { IfOk result (λ out. out.items ≡ spec.report name.now self.now) }
    {
        let mut out = Vec::new(alloc);
        self.append_head(name, &mut out)?;
        out.extend_from_slice(&self.sentence)?;
        append_excerpt(&self.excerpt, &mut out)?;
        Ok(out)
    }
}

/// The sentence on a fault at a position of one of two texts, around which it was looked at.
fn sentence_of(
    alloc: Global,
    texts: Texts<'_>,
    around: &Around<'_>,
    kind: FaultKind,
) -> Result<Vec<u8>, AllocError>
    ensures { IfOk result (λ sentence. 0 < length sentence.items) }
{
    let mut sentence = Vec::new(alloc);
    say_fault(alloc, texts, around, kind, &mut sentence)?;
    Ok(sentence)
}

/// The column after a token that begins at this column, from `at` up to `end`; at least one column is marked.
pub fn column_after(column: usize, at: usize, end: usize) -> usize
    requires column { column ≤ 2 ^ 63 }
    requires end { end < 2 ^ 63 }
    ensures { result ≡ spec.column_after column at end }
{
    column + end.saturating_sub(at).max(1)
}

/// What is said of a fault of one of two texts, which stands at this position of it. It is shown there, or where the
/// text is to be changed: at a word before it, after that, or at a value of the static API. `AllocError` if memory
/// runs out.
pub fn finding_at(
    alloc: Global,
    texts: Texts<'_>,
    file: TextFile,
    position: TokenPosition,
    kind: FaultKind,
) -> Result<FaultReport, AllocError>
    ensures { IfOk result (IsFinding (spec.text_of texts.entry file) position kind) }
{
    let text = texts.of(file);
    let around = around_position(alloc, file, text, position.start as usize)?;
    let culprit = culprit_around(alloc, text, &around, position, kind)?;
    let at = (culprit.start as usize).min(text.len());
    let excerpt = excerpt_at(alloc, text, at, culprit.end as usize)?;
    let sentence = sentence_of(alloc, texts, &around, kind)?;
    Ok(FaultReport {
        line: culprit.line,
        end: column_after(excerpt.column, at, culprit.end as usize),
        excerpt,
        code: code(kind),
        refusal: refusal(kind),
        sentence,
    })
}
