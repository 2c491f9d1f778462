//! What is said of lines of a steps text: of its fault, and of a line that does nothing.
ghost use Rattle.std.specs.Prelude.{◌≡◌, ◌+◌, ◌<◌, ◌≤◌, ◌==◌, true, length, max, slice_index, IfOk, OnOk};
ghost use Rattle.fmp_diagnosis.specs.StepFindings as spec;
ghost use Rattle.fmp_diagnosis.specs.StepFindings.{IsSaidOfLine, IsStepFinding, IsStepWarning, line_at};
ghost use Rattle.fmp_diagnosis.specs.Words.{IsSaid};

use crate::excerpt::excerpt_at;
use crate::reports::{FaultReport, column_after};
use crate::words::{BYTE_ORDER_MARK, Word, say};
use std::alloc::{AllocError, Global};

/// What is wrong with a line of a steps text.
#[derive(Clone, Copy)]
pub enum StepFlaw {
    /// The line is no event.
    Form,
    /// The number of a processor or of an interrupt is out of range; there are this many processors.
    Range(u8),
    /// There are more lines than a run may have events, and this is the first one too many.
    TooMany,
}

impl StepFlaw {
    /// Its code.
    fn code(self) -> &'static str
        ensures { result.now ≡ spec.code self }
    {
        match self {
            StepFlaw::Form => "S1",
            StepFlaw::Range(_) => "S2",
            StepFlaw::TooMany => "S3",
        }
    }
}

/// A stretch of a line: the bytes before it, and those that it has.
#[derive(Clone, Copy)]
struct Stretch {
    from: usize,
    length: usize,
}

/// What is wrong in a line: where, and what is said of it.
#[derive(Clone, Copy)]
struct Culprit {
    stretch: Stretch,
    said: &'static str,
}

/// What is said of a stretch of a line.
fn wrong_at(from: usize, length: usize, said: &'static str) -> Culprit {
    Culprit {
        stretch: Stretch { from, length },
        said,
    }
}

/// A byte that shows as a blank.
fn is_blank(byte: Option<&u8>) -> bool {
    byte == Some(&b' ') || byte == Some(&b'\t')
}

/// A byte order mark, or a line that is empty.
fn empty_or_marked(line: &[u8]) -> Option<Culprit> {
    if line.is_empty() {
        return Some(wrong_at(0, 0, "the line is empty"));
    }
    if line.starts_with(&BYTE_ORDER_MARK) {
        return Some(wrong_at(0, 3, "a byte order mark stands here"));
    }
    None
}

/// A carriage return or a blank where none may stand: from which byte on, and what is said.
fn stray_byte(line: &[u8]) -> Option<Culprit> {
    let last = line.len().saturating_sub(1);
    let (from, said) = if line.last() == Some(&b'\r') {
        (
            last,
            "a carriage return stands here; lines end with a line feed alone",
        )
    } else if is_blank(line.last()) {
        (last, "a blank ends the line")
    } else if is_blank(line.first()) {
        (0, "a blank begins the line")
    } else {
        return None;
    };
    Some(wrong_at(from, 1, said))
}

/// Where these letters begin in a line.
fn letters_in(line: &[u8], letters: &[u8]) -> Option<usize> {
    line.windows(letters.len().max(1))
        .position(|word| word == letters)
}

/// Where a comment stands in a line, or how often it is taken as in a session, and what is said.
fn comment_or_count(line: &[u8]) -> Option<(usize, &'static str)> {
    if line.starts_with(b"#") {
        return Some((0, "steps have no comments"));
    }
    if let Some(from) = letters_in(line, b"//") {
        return Some((from, "steps have no comments"));
    }
    if line.starts_with(b"run ") || line.starts_with(b"int ") {
        let from = letters_in(line.get(4..)?, b" x")?.saturating_add(4);
        return Some((from, "only a session takes how often an event comes"));
    }
    None
}

/// How lines of other kinds of files begin, and what is said of them.
const KINDS: [(&str, &str); 4] = [
    ("NUM_PRC", "this is a configuration"),
    ("task ", "this is a task text"),
    ("handler ", "this is a task text"),
    ("FMPI", "this is an image"),
];

/// What is said of a line that begins as no event does.
fn kind_of_line(line: &[u8]) -> &'static str {
    for (begin, said) in KINDS {
        if line.starts_with(begin.as_bytes()) {
            return said;
        }
    }
    "this is not an event"
}

/// From where a line departs from an event as which it begins, and what is said.
fn departure(line: &[u8]) -> (usize, &'static str) {
    if let Some(found) = comment_or_count(line) {
        return found;
    }
    if line.starts_with(b"run 0") || line.starts_with(b"int 0") {
        (4, "the number begins with 0")
    } else if line.starts_with(b"run ") {
        (4, "expected the number of a processor")
    } else if line.starts_with(b"int ") {
        (4, "expected the number of an interrupt")
    } else if line.starts_with(b"tick ") {
        (
            4,
            "expected the end of the line after `tick`; only a session takes a number there",
        )
    } else if line.starts_with(b"tick") {
        (4, "expected the end of the line after `tick`")
    } else {
        (0, kind_of_line(line))
    }
}

/// A line that is no event for no reason that a byte alone tells.
fn ill_formed(line: &[u8]) -> Culprit {
    let (from, said) = departure(line);
    wrong_at(from, line.len().saturating_sub(from), said)
}

/// Why a line is no event.
fn no_event(line: &[u8]) -> Culprit {
    match empty_or_marked(line) {
        Some(found) => found,
        None => match stray_byte(line) {
            Some(found) => found,
            None => ill_formed(line),
        },
    }
}

/// What is wrong in a line.
fn wrong_in(line: &[u8], flaw: StepFlaw) -> Culprit {
    match flaw {
        StepFlaw::Form => no_event(line),
        StepFlaw::Range(_) => wrong_at(
            4,
            line.len().saturating_sub(4),
            "the number is out of range",
        ),
        StepFlaw::TooMany => wrong_at(0, line.len(), "this is one step too many"),
    }
}

/// Says what may stand in a line with this flaw.
fn say_rule(flaw: StepFlaw, out: &mut Vec<u8>) -> Result<(), AllocError>
    ensures { OnOk result (IsSaid out.old.items out.new.items) }
{
    match flaw {
        StepFlaw::Form => say(
            &[Word::Text("; each line is `run P`, `tick` or `int I`")],
            out,
        ),
        StepFlaw::Range(processors) => say(
            &[
                Word::Text("; processors are numbered from 1 to "),
                Word::Number(i64::from(processors)),
                Word::Text(", interrupts from 1 to 32"),
            ],
            out,
        ),
        StepFlaw::TooMany => say(&[Word::Text("; a run has at most 1048576 steps")], out),
    }
}

/// The sentence on a line with this flaw.
fn sentence_on(alloc: Global, said: &'static str, flaw: StepFlaw) -> Result<Vec<u8>, AllocError>
    ensures { IfOk result (λ sentence. 0 < length sentence.items) }
{
    let mut sentence = Vec::new(alloc);
    say(&[Word::Text(said)], &mut sentence)?;
    say_rule(flaw, &mut sentence)?;
    Ok(sentence)
}

/// Where the line of this number, from 1, begins; where the text ends, if it has no such line.
fn line_start(text: &[u8], number: u32) -> usize
    ensures within { result ≤ length text.now }
    ensures line { line_at text.now result ≤ max number 1 }
    ensures end { line_at text.now result < max number 1 → result ≡ length text.now }
{
    let mut line = 1;
    for i in 0..text.len() {
        if line >= number {
            return i;
        }
        if text[i] == b'\n' {
            line += 1;
        }
    }
    text.len()
}

/// The position this number of bytes after another one, or the end of its line if that comes first.
fn within_line(text: &[u8], from: usize, count: usize) -> usize
    requires { from ≤ length text.now }
    ensures low { from ≤ result }
    ensures within { result ≤ length text.now }
    ensures line { line_at text.now result ≡ line_at text.now from }
    ensures far { result ≤ from + count }
    ensures end { result < from + count → result < length text.now → (slice_index text.now result == 10) ≡ true }
{
    for i in from..text.len() {
        if i - from == count || text[i] == b'\n' {
            return i;
        }
    }
    text.len()
}

/// What is said of a line: a code and a sentence.
#[derive(Drop)]
struct Said {
    code: &'static str,
    sentence: Vec<u8>,
}

/// This is said of a stretch of the line of this number, from 1, of a steps text. Of the stretch that part is shown
/// that stands in the line.
fn said_of_line(
    alloc: Global,
    text: &[u8],
    number: u32,
    stretch: Stretch,
    said: Said,
) -> Result<FaultReport, AllocError>
    requires { 0 < length said.sentence.items }
    ensures { IfOk result (IsSaidOfLine text.now number said.code.now) }
{
    let start = line_start(text, number);
    let at = within_line(text, start, stretch.from);
    let end = within_line(text, at, stretch.length);
    let excerpt = excerpt_at(alloc, text, at, end)?;
    Ok(FaultReport {
        line: number,
        end: column_after(excerpt.column, at, end),
        excerpt,
        code: said.code,
        refusal: "",
        sentence: said.sentence,
    })
}

/// What is said of the line of this number, from 1, of a steps text that has this flaw. `AllocError` if memory runs
/// out.
pub fn step_finding(
    alloc: Global,
    text: &[u8],
    number: u32,
    flaw: StepFlaw,
) -> Result<FaultReport, AllocError>
    ensures { IfOk result (IsStepFinding text.now number flaw) }
{
    let start = line_start(text, number);
    let finish = within_line(text, start, usize::MAX);
    let found = wrong_in(&text[start..finish], flaw);
    let sentence = sentence_on(alloc, found.said, flaw)?;
    let code = flaw.code();
    said_of_line(alloc, text, number, found.stretch, Said { code, sentence })
}

/// The sentence on an interrupt that has no handler.
fn sentence_on_interrupt(alloc: Global, interrupt: u8) -> Result<Vec<u8>, AllocError>
    ensures { IfOk result (λ sentence. 0 < length sentence.items) }
{
    let mut sentence = Vec::new(alloc);
    let words = [
        Word::Text("no handler is defined for interrupt "),
        Word::Number(i64::from(interrupt)),
        Word::Text(": this line does nothing"),
    ];
    say(&words, &mut sentence)?;
    Ok(sentence)
}

/// The warning of the line of this number, from 1, of a steps text: its interrupt has no handler. `AllocError` if
/// memory runs out.
pub fn step_warning(
    alloc: Global,
    text: &[u8],
    number: u32,
    interrupt: u8,
) -> Result<FaultReport, AllocError>
    ensures { IfOk result (IsStepWarning text.now number) }
{
    let said = Said {
        code: "warning",
        sentence: sentence_on_interrupt(alloc, interrupt)?,
    };
    let stretch = Stretch {
        from: 0,
        length: usize::MAX,
    };
    said_of_line(alloc, text, number, stretch, said)
}
