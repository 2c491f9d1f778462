//! The faults of two texts after the first one that do not follow from those before them.
ghost use Rattle.std.specs.Prelude.{◌≡◌, IfOk, IsTrue, false};
ghost use Rattle.fmp_warnings.specs.Further.{AreFurther, IsAdded, IsShownAs, IsToldOf, MayFollow, both_left, both_of};

use crate::left::Left;
use crate::pieces::{Piece, Pieces, byte_at, is_word, word_at};
use crate::verdicts::TextsFault;
use fmp_diagnosis::{FaultReport, Texts, culprit_of, excerpt_at, finding_at};
use fmp_lex::{FaultKind, TextFile};
use std::alloc::{AllocError, Global};

/// The maximum number of faults after the first one.
const FURTHER: usize = 19;

/// How many constructs are left out at most where time is no matter.
pub const ROUNDS: u32 = 60;

/// A fault of one of two texts: which one, and what is said of it.
#[derive(Drop)]
pub struct ToldFault {
    pub file: TextFile,
    pub finding: FaultReport,
}

/// Whether a word stands in what is left out of a text.
fn is_left_out(all: &[u8], left: &[u8], word: &[u8]) -> bool {
    let mut pieces = Pieces::new();
    for at in 0..all.len() {
        let byte = byte_at(all, at);
        let begins = pieces.take(byte, byte_at(all, at.saturating_add(1))) == Some(Piece::Word);
        if begins && byte_at(left, at) != byte && is_word(word_at(all, at), word) {
            return true;
        }
    }
    false
}

/// Whether a fault of this kind may follow from what is left out.
fn may_follow(kind: FaultKind) -> bool
    ensures { IsTrue result → MayFollow kind }
{
    match kind {
        FaultKind::UnknownName | FaultKind::Shape => true,
        _ => false,
    }
}

/// Whether the name with the fault of what is left of two texts stands in what is left out.
fn is_of_left_out(alloc: Global, texts: Texts<'_>, left: &Left) -> Result<bool, AllocError> {
    let TextsFault {
        file,
        position,
        kind,
    } = left.fault;
    let text = left.text(file);
    let name = culprit_of(alloc, text, file, position, kind)?;
    let word = word_at(text, name.start as usize);
    Ok(is_left_out(texts.cfg, &left.cfg, word) || is_left_out(texts.src, &left.src, word))
}

/// Whether the fault of what is left of two texts follows from what is left out: it is one of a name that stands there.
fn follows(alloc: Global, texts: Texts<'_>, left: &Left) -> Result<bool, AllocError>
    ensures { IfOk result (λ yes. IsTrue yes → MayFollow left.now.fault.kind) }
{
    if !may_follow(left.fault.kind) {
        return Ok(false);
    }
    is_of_left_out(alloc, texts, left)
}

/// Where a line of this number, from 1, begins in a text.
fn line_begin(text: &[u8], line: u32) -> usize {
    let mut number: u32 = 1;
    for at in 0..text.len() {
        if number >= line {
            return at;
        }
        if byte_at(text, at) == b'\n' {
            number = number.saturating_add(1);
        }
    }
    text.len()
}

/// A finding with the line as it stands in this text, from whose lines only parts are left out.
fn shown_in(alloc: Global, text: &[u8], finding: FaultReport) -> Result<FaultReport, AllocError>
    ensures { IfOk result (IsShownAs finding) }
{
    let column = finding.excerpt.column;
    let begin = line_begin(text, finding.line);
    let at = begin
        .saturating_add(column.saturating_sub(1))
        .min(text.len());
    let end = at.saturating_add(finding.end.saturating_sub(column));
    let excerpt = excerpt_at(alloc, text, at, end)?;
    let mut shown = finding;
    if excerpt.column == column {
        shown.excerpt = excerpt;
    }
    Ok(shown)
}

/// What is told of the fault of what is left of two texts.
fn told_of(alloc: Global, texts: Texts<'_>, left: &Left) -> Result<ToldFault, AllocError>
    ensures { IfOk result (IsToldOf (both_left left.now) left.now.fault) }
{
    let rest = Texts {
        cfg: &left.cfg,
        src: &left.src,
    };
    let TextsFault {
        file,
        position,
        kind,
    } = left.fault;
    let finding = finding_at(alloc, rest, file, position, kind)?;
    let finding = shown_in(alloc, texts.of(file), finding)?;
    Ok(ToldFault { file, finding })
}

/// Tells the fault of what is left of two texts, whose first fault is in this one, or passes it over. Whether there may
/// be more to tell; where not, nothing is added.
#[tactic(auto, using(crate::proofs::FurtherFaults::adds_passed))]
fn tell(
    alloc: Global,
    texts: Texts<'_>,
    file: TextFile,
    left: &Left,
    told: &mut Vec<ToldFault>,
) -> Result<bool, AllocError>
    ensures added { IfOk result (λ more. IsTrue more → IsAdded (both_left left.now) left.now.fault
        told.old.items told.new.items) }
    ensures none { IfOk result (λ more. more ≡ false → told.new.items ≡ told.old.items) }
{
    if follows(alloc, texts, left)? {
        return Ok(true);
    }
    if left.fault.file != file || told.len() >= FURTHER {
        return Ok(false);
    }
    told.push(told_of(alloc, texts, left)?)?;
    Ok(true)
}

/// What is told of two texts after their first fault, which this is: at most 19 faults of the same text, in the order
/// in which they are found where the constructs with those before are left out, of which there are at most this many.
/// The name of an object or of a variable is not missed if it stands in what is left out. `AllocError` if memory runs
/// out.
pub fn further_faults(
    alloc: Global,
    texts: Texts<'_>,
    fault: TextsFault,
    rounds: u32,
) -> Result<Vec<ToldFault>, AllocError>
    ensures { IfOk result (λ told. AreFurther (both_of texts.entry) fault told.items) }
{
    let mut left = Left::all(alloc, texts, fault)?;
    let mut told = Vec::new(alloc);
    for _round in 0..rounds {
        let Some(next) = left.next(alloc)? else {
            break;
        };
        if !tell(alloc, texts, fault.file, &next, &mut told)? {
            break;
        }
        left = next;
    }
    Ok(told)
}
