//! The reader of texts of expectations.
ghost use Rattle.std.specs.Prelude.{◌≡◌, ◌+◌, IfOk, IfErr, OnOk, Ok, Err, Result, List};
ghost use Rattle.fmp_base.specs.Systems.{tables_of};
ghost use Rattle.fmp_expect.specs.declared.expectation.Expected.{Expected};
ghost use Rattle.fmp_expect.specs.declared.fault.ExpectFault.{ExpectFault};
ghost use Rattle.fmp_expect.specs.declared.fault.ExpectFault.TheVariants.{Memory};
ghost use Rattle.fmp_expect.specs.Grammar as spec;
ghost use Rattle.fmp_expect.specs.Grammar.{IsFaultOf, after_all, expectations_of, in_front, one_more};
ghost use Rattle.fmp_expect.specs.Words.{words_of};

use crate::expectation::Expected;
use crate::fault::{ExpectFault, ExpectationFlaw};
use crate::sentences::sentence_in;
use crate::words::{before_comment, first_line, next_word};
use fmp_base::System;
use fmp_monitors::Sentence;
use std::alloc::Global;

/// What a line says, if it has words.
fn line_meaning(sys: &System, line: &[u8]) -> Option<Result<Sentence, ExpectationFlaw>>
    ensures { result ≡ spec.line_meaning (tables_of sys.now) line.now }
{
    let text = before_comment(line);
    match next_word(text) {
        Some(_) => Some(sentence_in(sys, text)),
        None => None,
    }
}

/// The expectation of the line of this number, if it has words.
fn expected_at(sys: &System, number: usize, line: &[u8]) -> Result<Option<Expected>, ExpectFault>
    ensures said { IfOk result (λ said. (rest : Result (List Expected) ExpectFault)
        → in_front number (spec.line_meaning (tables_of sys.now) line.now) rest ≡ one_more said rest) }
    ensures fault { IfErr result (λ fault. (rest : Result (List Expected) ExpectFault)
        → in_front number (spec.line_meaning (tables_of sys.now) line.now) rest ≡ Err fault) }
    ensures kind { IfErr result (λ fault. IsFaultOf fault (Err fault)) }
{
    match line_meaning(sys, line) {
        Some(Ok(sentence)) => Ok(Some(Expected {
            line: number,
            sentence,
        })),
        Some(Err(flaw)) => Err(ExpectFault::Line { line: number, flaw }),
        None => Ok(None),
    }
}

/// Adds an expectation, if there is one.
fn add(all: &mut Vec<Expected>, said: Option<Expected>) -> Result<(), ExpectFault>
    ensures added { OnOk result ((rest : Result (List Expected) ExpectFault)
        → after_all all.new.items rest ≡ after_all all.old.items (one_more said rest)) }
    ensures fault { IfErr result (λ fault. fault ≡ Memory) }
{
    match said {
        Some(expected) => all.push(expected).map_err(|_| ExpectFault::Memory),
        None => Ok(()),
    }
}

/// Adds the expectation of the line of this number, if it has words.
pub fn read_line(
    sys: &System,
    number: usize,
    line: &[u8],
    all: &mut Vec<Expected>,
) -> Result<(), ExpectFault>
    ensures said { OnOk result ((rest : Result (List Expected) ExpectFault) → after_all all.new.items rest
        ≡ after_all all.old.items (in_front number (spec.line_meaning (tables_of sys.now) line.now) rest)) }
    ensures fault { IfErr result (λ fault. (rest : Result (List Expected) ExpectFault) → IsFaultOf fault
        (after_all all.old.items (in_front number (spec.line_meaning (tables_of sys.now) line.now) rest))) }
{
    match expected_at(sys, number, line) {
        Ok(said) => add(all, said),
        Err(fault) => Err(fault),
    }
}

/// Reads a text of expectations, a line each, for a run of this system. The fault is that of the first faulty line,
/// unless memory runs out first.
pub fn read_expectations(
    alloc: Global,
    sys: &System,
    text: &[u8],
) -> Result<Vec<Expected>, ExpectFault>
    ensures ok { IfOk result (λ xs. expectations_of (tables_of sys.now) text.now ≡ Ok xs.items) }
    ensures fault { IfErr result (λ fault. IsFaultOf fault (expectations_of (tables_of sys.now) text.now)) }
{
    let mut all = Vec::new(alloc);
    let mut rest = text;
    let mut number = 1;
    while !rest.is_empty() {
        let (line, after) = first_line(rest);
        if let Err(fault) = read_line(sys, number, line, &mut all) {
            return Err(fault);
        }
        rest = after;
        number += 1;
    }
    Ok(all)
}
