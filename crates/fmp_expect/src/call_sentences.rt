//! The sentences about calls in a text, and the reader of the others. They are judged where the tasks' text is given,
//! which tells the lines of calls.
ghost use Rattle.std.specs.Prelude.{◌≡◌, ◌++◌, IfOk, IfErr, OnOk, Ok, Some};
ghost use Rattle.fmp_base.specs.Systems.{tables_of};
ghost use Rattle.fmp_expect.specs.Grammar.{IsFaultOf};
ghost use Rattle.fmp_expect.specs.CallSentences as spec;
ghost use Rattle.fmp_expect.specs.Words.{words_of};

use crate::expectation::Expected;
use crate::fault::ExpectFault;
use crate::named::{code_named, task_named};
use crate::numbers::number_in;
use crate::parts::{after_first, begins};
use crate::reading::read_line;
use crate::words::{before_comment, first_line, next_word};
use fmp_base::{Er, System};
use std::alloc::{AllocError, Global};

/// A sentence about calls: a code that they must never be answered.
#[derive(Clone, Copy)]
pub struct CallSentence {
    /// The line of the text of sentences, from 1.
    pub line: usize,
    pub code: Er,
    /// The place of the task whose answers are meant; anybody's are, if none is named.
    pub by: Option<usize>,
    /// The line of the tasks' text in which the calls stand, 1 to 2^31 - 1.
    pub at: u32,
}

/// The number of a line, if it is the only word.
fn only_number(line: &[u8]) -> Option<u32>
    ensures { result ≡ spec.only_number (words_of line.now) }
{
    let (word, rest) = next_word(line)?;
    match next_word(rest) {
        Some(_) => None,
        None => number_in(1, 2147483647, word),
    }
}

/// The number of a line after `at`, if nothing else stands there.
fn line_after_at(line: &[u8]) -> Option<u32>
    ensures { result ≡ spec.line_after_at (words_of line.now) }
{
    if begins(b"at", line) {
        only_number(after_first(line))
    } else {
        None
    }
}

/// The sentence that a code must never be answered at the calls of a line, if that is what stands there.
fn never_at(number: usize, code: Er, by: Option<usize>, line: &[u8]) -> Option<CallSentence>
    ensures { result ≡ spec.never_at number code by (spec.line_after_at (words_of line.now)) }
{
    let at = line_after_at(line)?;
    Some(CallSentence {
        line: number,
        code,
        by,
        at,
    })
}

/// What stands after `by` in the line of this number, if it is a task, and calls of a line.
fn by_said(sys: &System, number: usize, code: Er, line: &[u8]) -> Option<CallSentence>
    ensures { result ≡ spec.by_said (tables_of sys.now) number code (words_of line.now) }
{
    let (word, rest) = next_word(line)?;
    let task = task_named(sys, word)?;
    never_at(number, code, Some(task), rest)
}

/// What stands after a code in the line of this number, if it is about calls.
fn code_said(sys: &System, number: usize, code: Er, line: &[u8]) -> Option<CallSentence>
    ensures { result ≡ spec.code_said (tables_of sys.now) number (Some code) (words_of line.now) }
{
    if begins(b"by", line) {
        by_said(sys, number, code, after_first(line))
    } else {
        never_at(number, code, None, line)
    }
}

/// What stands after `never` in the line of this number, if it is about calls.
fn answer_said(sys: &System, number: usize, line: &[u8]) -> Option<CallSentence>
    ensures { result ≡ spec.answer_said (tables_of sys.now) number (words_of line.now) }
{
    let (word, rest) = next_word(line)?;
    let code = code_named(word)?;
    code_said(sys, number, code, rest)
}

/// The sentence of the line of this number, if it is about calls.
fn call_sentence_of(sys: &System, number: usize, line: &[u8]) -> Option<CallSentence>
    ensures { result ≡ spec.call_sentence_of (tables_of sys.now) number line.now }
{
    let text = before_comment(line);
    if begins(b"never", text) {
        answer_said(sys, number, after_first(text))
    } else {
        None
    }
}

/// Adds a sentence, if there is one.
fn add(all: &mut Vec<CallSentence>, said: Option<CallSentence>) -> Result<(), AllocError>
    ensures { OnOk result (all.new.items ≡ all.old.items ++ spec.listed said) }
{
    if let Some(never) = said {
        all.push(never)?;
    }
    Ok(())
}

/// The sentences about calls of a text for a system, in order. `AllocError` if memory runs out.
#[tactic(auto, using(crate::proofs::CallSentenceLemmas::call_sentences_next))]
pub fn read_call_sentences(
    alloc: Global,
    sys: &System,
    text: &[u8],
) -> Result<Vec<CallSentence>, AllocError>
    ensures { IfOk result (λ said. said.items ≡ spec.call_sentences_of (tables_of sys.now) text.now) }
{
    let mut all = Vec::new(alloc);
    let mut rest = text;
    let mut number = 1;
    while !rest.is_empty() {
        let (line, after) = first_line(rest);
        add(&mut all, call_sentence_of(sys, number, line))?;
        rest = after;
        number += 1;
    }
    Ok(all)
}

/// A line, which is taken as empty if its sentence is about calls.
fn without_call_sentence<'a>(sys: &System, line: &'a [u8]) -> &'a [u8]
    ensures { result.now ≡ spec.without_call_sentence (tables_of sys.now) line.now }
{
    match call_sentence_of(sys, 0, line) {
        Some(_) => &[],
        None => line,
    }
}

/// Reads the sentences of a text that are not about calls, as `read_expectations` does.
#[tactic(auto, using(crate::proofs::CallSentenceLemmas::other_sentences_next))]
pub fn read_other_sentences(
    alloc: Global,
    sys: &System,
    text: &[u8],
) -> Result<Vec<Expected>, ExpectFault>
    ensures ok { IfOk result (λ xs. spec.other_sentences_of (tables_of sys.now) text.now ≡ Ok xs.items) }
    ensures fault { IfErr result (λ fault. IsFaultOf fault (spec.other_sentences_of (tables_of sys.now) text.now)) }
{
    let mut all = Vec::new(alloc);
    let mut rest = text;
    let mut number = 1;
    while !rest.is_empty() {
        let (line, after) = first_line(rest);
        if let Err(fault) = read_line(sys, number, without_call_sentence(sys, line), &mut all) {
            return Err(fault);
        }
        rest = after;
        number += 1;
    }
    Ok(all)
}
