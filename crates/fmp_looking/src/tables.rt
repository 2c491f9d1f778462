//! How often the calls of a text were made and what they were answered, and which ways its branches went.
ghost use Rattle.std.specs.Prelude.{◌≡◌, ◌++◌, IfOk, OnOk, count_by};
ghost use Rattle.std.specs.List.{flat_map};
ghost use Rattle.fmp_frames.specs.Answers.{is_same_code as is_same};
ghost use Rattle.fmp_looking.specs.Tables as spec;
ghost use Rattle.fmp_looking.specs.Ways.{times_in};

use crate::marks::{BranchKind, Mark, MarkKind};
use crate::observing::{CallSeen, Outcome};
use crate::ways::BranchWays;
use fmp_base::Er;
use fmp_frames::CallPosition;
use fmp_json::{append, append_number};
use std::alloc::{AllocError, Global};

/// How often a branch went each way.
#[derive(Clone, Copy)]
pub struct BranchCount {
    pub position: CallPosition,
    /// How often what it goes by was not 0.
    pub is_true: u64,
    /// How often it was.
    pub is_false: u64,
}

/// The codes that calls and the ends of waits answer.
const ANSWERS: [Er; 9] = [
    Er::Ok,
    Er::Par,
    Er::Id,
    Er::Ctx,
    Er::Iluse,
    Er::Obj,
    Er::Qovr,
    Er::Rlwai,
    Er::Tmout,
];

/// Whether two positions are one.
fn is_at(position: CallPosition, other: CallPosition) -> bool
    ensures { result ≡ spec.is_at position other }
{
    other.line == position.line && other.column == position.column
}

/// Whether two codes are one.
pub fn is_same_code(a: Er, b: Er) -> bool
    ensures { result ≡ is_same a b }
{
    a == b
}

/// Whether this says that a call was made.
fn is_made(outcome: Outcome) -> bool
    ensures { result ≡ spec.is_made outcome }
{
    match outcome {
        Outcome::Made => true,
        Outcome::Answered(_) => false,
    }
}

/// Whether this says that a call was answered a code.
fn is_answer(code: Er, outcome: Outcome) -> bool
    ensures { result ≡ spec.is_answer code outcome }
{
    match outcome {
        Outcome::Made => false,
        Outcome::Answered(other) => is_same_code(other, code),
    }
}

/// Whether this says that the call at a position was made.
fn says_made(position: CallPosition, seen: &CallSeen) -> bool
    ensures { result ≡ spec.says_made position seen.now }
{
    is_at(position, seen.position) && is_made(seen.outcome)
}

/// Whether this says that the call at a position was answered a code.
fn says_answered(position: CallPosition, code: Er, seen: &CallSeen) -> bool
    ensures { result ≡ spec.says_answered position code seen.now }
{
    is_at(position, seen.position) && is_answer(code, seen.outcome)
}

/// How often the call at a position was made.
fn times_made(calls: &[CallSeen], position: CallPosition) -> usize
    ensures { result ≡ spec.times_made calls.now position }
{
    calls
        .iter()
        .filter(|seen| says_made(position, *seen))
        .count()
}

/// How often it was answered a code.
fn times_answered(calls: &[CallSeen], position: CallPosition, code: Er) -> usize
    ensures { result ≡ spec.times_answered calls.now position code }
{
    calls
        .iter()
        .filter(|seen| says_answered(position, code, *seen))
        .count()
}

/// How often the branch of a mark went this way.
fn times_gone(ways: &BranchWays, mark: &Mark, way: bool) -> u64
    ensures { result ≡ spec.times_gone (times_in ways.now) mark.now way }
{
    if mark.bodies == 0 {
        return 0;
    }
    ways.times(mark.bodies - 1, mark.branches, way)
}

/// Appends how often something was so.
fn append_times(word: &[u8], times: u64, out: &mut Vec<u8>) -> Result<(), AllocError>
    ensures { OnOk result (out.new.items ≡ out.old.items ++ spec.times word.now times) }
{
    if times == 0 {
        append(b"never ", out)?;
        return append(word, out);
    }
    append(word, out)?;
    append(b" ", out)?;
    append_number(times, out)
}

/// Appends how often a call was answered a code, if it was.
fn append_answer(code: Er, times: usize, out: &mut Vec<u8>) -> Result<(), AllocError>
    ensures { OnOk result (out.new.items ≡ out.old.items ++ spec.answer_times code times) }
{
    if times == 0 {
        return Ok(());
    }
    append(b", ", out)?;
    append(code.name().as_bytes(), out)?;
    append(b" ", out)?;
    append_number(times as u64, out)
}

/// Appends how often a call was answered each of these codes.
fn append_answers(
    calls: &[CallSeen],
    position: CallPosition,
    codes: &[Er],
    out: &mut Vec<u8>,
) -> Result<(), AllocError>
    ensures { OnOk result (out.new.items ≡ out.old.items
        ++ flat_map (λ c. spec.answer_times c (spec.times_answered calls.now position c)) codes.now) }
{
    for code in codes {
        append_answer(*code, times_answered(calls, position, *code), out)?;
    }
    Ok(())
}

/// The word of a branch.
fn branch_word(kind: BranchKind) -> &'static [u8]
    ensures { result.now ≡ spec.branch_word kind }
{
    match kind {
        BranchKind::If => b"if",
        BranchKind::While => b"while",
        BranchKind::And => b"&&",
        BranchKind::Or => b"||",
    }
}

/// The word of a mark.
fn kind_word(kind: MarkKind) -> &'static [u8]
    ensures { result.now ≡ spec.kind_word kind }
{
    match kind {
        MarkKind::Call(service) => service.name().as_bytes(),
        MarkKind::Branch(kind) => branch_word(kind),
    }
}

/// Appends a position in a file.
fn append_position(file: &[u8], position: CallPosition, out: &mut Vec<u8>) -> Result<(), AllocError>
    ensures { OnOk result (out.new.items ≡ out.old.items ++ spec.position_text file.now position) }
{
    append(file, out)?;
    append(b":", out)?;
    append_number(u64::from(position.line), out)?;
    append(b":", out)?;
    append_number(position.column as u64, out)
}

/// Appends where a mark stands in a file, with the word that stands there.
fn append_mark(file: &[u8], mark: &Mark, word: &[u8], out: &mut Vec<u8>) -> Result<(), AllocError>
    ensures { OnOk result (out.new.items ≡ out.old.items ++ spec.mark_text file.now mark.now word.now) }
{
    append_position(file, mark.position, out)?;
    append(b": ", out)?;
    append(word, out)?;
    append(b": ", out)
}

/// Appends what is seen of a mark.
fn append_seen(
    calls: &[CallSeen],
    ways: &BranchWays,
    mark: &Mark,
    out: &mut Vec<u8>,
) -> Result<(), AllocError>
    ensures { OnOk result (out.new.items
        ≡ out.old.items ++ spec.seen_text calls.now (times_in ways.now) mark.now mark.now.kind) }
{
    match mark.kind {
        MarkKind::Call(_) => {
            append_times(b"made", times_made(calls, mark.position) as u64, out)?;
            append_answers(calls, mark.position, &ANSWERS, out)
        }
        MarkKind::Branch(_) => {
            append_times(b"true", times_gone(ways, mark, true), out)?;
            append(b", ", out)?;
            append_times(b"false", times_gone(ways, mark, false), out)
        }
    }
}

/// Appends a line of the table.
fn append_row(
    file: &[u8],
    calls: &[CallSeen],
    ways: &BranchWays,
    mark: &Mark,
    out: &mut Vec<u8>,
) -> Result<(), AllocError>
    ensures { OnOk result (out.new.items
        ≡ out.old.items ++ spec.row_text file.now calls.now (times_in ways.now) mark.now) }
{
    append_mark(file, mark, kind_word(mark.kind), out)?;
    append_seen(calls, ways, mark, out)?;
    append(b"\n", out)
}

/// The table of the calls and branches of a text in a file, by its marks: a line for each, with how often a call was
/// made and answered each code, and how often a branch went each way. `AllocError` if memory runs out.
pub fn coverage_table(
    alloc: Global,
    file: &[u8],
    calls: &[CallSeen],
    ways: &BranchWays,
    marks: &[Mark],
) -> Result<Vec<u8>, AllocError>
    ensures { IfOk result (λ out. out.items ≡ spec.table_text file.now calls.now (times_in ways.now) marks.now) }
{
    let mut out = Vec::new(alloc);
    for mark in marks {
        append_row(file, calls, ways, mark, &mut out)?;
    }
    Ok(out)
}

/// Adds how often a branch went each way, if the mark is one.
fn add_count(
    ways: &BranchWays,
    mark: &Mark,
    counts: &mut Vec<BranchCount>,
) -> Result<(), AllocError>
    ensures { OnOk result (counts.new.items
        ≡ counts.old.items ++ spec.counted (times_in ways.now) mark.now mark.now.kind) }
{
    match mark.kind {
        MarkKind::Call(_) => Ok(()),
        MarkKind::Branch(_) => {
            counts.push(BranchCount {
                position: mark.position,
                is_true: times_gone(ways, mark, true),
                is_false: times_gone(ways, mark, false),
            })?;
            Ok(())
        }
    }
}

/// How often each branch among marks went each way. `AllocError` if memory runs out.
pub fn branch_counts(
    alloc: Global,
    ways: &BranchWays,
    marks: &[Mark],
) -> Result<Vec<BranchCount>, AllocError>
    ensures { IfOk result (λ counts. counts.items ≡ spec.branch_counts (times_in ways.now) marks.now) }
{
    let mut counts = Vec::new(alloc);
    for mark in marks {
        add_count(ways, mark, &mut counts)?;
    }
    Ok(counts)
}
