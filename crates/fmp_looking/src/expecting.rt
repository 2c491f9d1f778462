//! Whether a run meets a text of expectations.
ghost use Rattle.std.specs.Prelude.{◌≡◌, ◌+◌, ◌++◌, ◌==◌, ◌≤◌, ◌^◌, IfOk, Ok, codes, decimal, is_some, length, not};
ghost use Rattle.fmp_base.specs.Systems.{tables_of};
ghost use Rattle.fmp_expect.specs.Grammar.{expectations_of};
ghost use Rattle.fmp_expect.specs.CallSentences.{other_sentences_of};
ghost use Rattle.fmp_named.specs.Lines.{named_lines};
ghost use Rattle.fmp_trials.specs.Verdicts.{verdict};
ghost use Rattle.fmp_looking.specs.Expects.{empty_claims, fails_text};
ghost use Rattle.fmp_looking.specs.Looks.{IsEventText, ShowsBroken, broken_head};

use crate::exit::{ViewExit, memory};
use crate::looking::RunLook;
use crate::opened::Opened;
use fmp_arguments::flaw_text;
use fmp_base::{Line, System};
use fmp_expect::{
    BrokenExpectation, Checker, ExpectFault, ExpectationFlaw, Expected, line_at, read_expectations,
    read_other_sentences, tell_run,
};
use fmp_frames::count_up_to;
use fmp_kernel::{Body, Coming, Kernel};
use fmp_named::append_lines;
use fmp_trials::verdict_at_end;
use std::alloc::{AllocError, Global};

/// What a run comes to, where something is expected of it.
#[derive(Drop)]
pub struct Verdict {
    /// The first expectation that it breaks.
    pub broken: Option<BrokenExpectation>,
    /// The lines of the expectations that say nothing of it, since what they speak of never comes.
    pub empty: Vec<usize>,
}

/// What a run of a kernel comes to, where this is expected of it.
fn verdict_on<B: Body, T: Coming<B>>(
    alloc: Global,
    kernel: &mut Kernel<B>,
    events: &[T],
    expected: &[Expected],
) -> Result<Verdict, AllocError>
    requires { kernel.old.taken + length events.now ≤ 2 ^ 31 }
    ensures broken { IfOk result (λ v. v.broken ≡ verdict T.reaction kernel.old events.now expected.now) }
    ensures empty { IfOk result (λ v. v.empty.items ≡ empty_claims T.reaction kernel.old events.now expected.now) }
{
    let mut checker = Checker::new(alloc, expected)?;
    tell_run(kernel, events, &mut checker);
    let broken = verdict_at_end(alloc, kernel, &checker)?;
    let empty = checker.empty_claims(alloc)?;
    Ok(Verdict { broken, empty })
}

/// What a run of a system comes to, where this is expected of it. `AllocError` if memory runs out.
#[tactic(none)]
pub fn verdict_of<O: Opened, T: Coming<O::Bodies>>(
    alloc: Global,
    opened: &O,
    events: &[T],
    expected: &[Expected],
) -> Result<Verdict, AllocError>
    requires { length events.now ≤ 2 ^ 31 }
    ensures broken { IfOk result (λ v.
        v.broken ≡ verdict T.reaction (O.start opened.now) events.now expected.now) }
    ensures empty { IfOk result (λ v.
        v.empty.items ≡ empty_claims T.reaction (O.start opened.now) events.now expected.now) }
{
    let mut kernel = opened.kernel(alloc)?;
    let verdict = verdict_on(alloc, &mut kernel, events, expected);
    drop(kernel);
    verdict
}

/// Lines of the event of this number, with the names of objects.
fn lines_text(
    alloc: Global,
    sys: &System,
    lines: &[Line],
    number: u32,
) -> Result<Vec<u8>, AllocError>
    ensures { IfOk result (λ out. out.items ≡ named_lines (tables_of sys.now) number lines.now) }
{
    let mut out = Vec::new(alloc);
    append_lines(sys, number, lines, &mut out)?;
    Ok(out)
}

/// The lines of the event of this number, with the names of objects. `AllocError` if memory runs out.
#[tactic(none)]
pub fn event_text<O: Opened, T: Coming<O::Bodies>>(
    alloc: Global,
    opened: &O,
    events: &[T],
    number: u32,
) -> Result<Vec<u8>, AllocError>
    requires { length events.now ≤ 2 ^ 31 }
    ensures { IfOk result (λ out. IsEventText T.reaction (O.start opened.now) events.now number out.items) }
{
    let mut kernel = opened.kernel(alloc)?;
    let _ = count_up_to(&mut kernel, events, number);
    let text = lines_text(alloc, opened.system(), kernel.lines(), number);
    drop(kernel);
    text
}

/// Where an expectation stands that fails, and in which event it does.
fn position_text(
    alloc: Global,
    name: &str,
    broken: BrokenExpectation,
) -> Result<Vec<u8>, AllocError>
    ensures { IfOk result (λ out. out.items ≡ name.now ++ (codes ":" ++ (decimal broken.line ++ (codes ": event "
        ++ (decimal broken.event ++ codes ": "))))) }
{
    let position = format!(in alloc; "{name}:{}: event {}: ", broken.line, broken.event)?;
    Ok(position.into_bytes())
}

/// The same, and its line.
fn broken_line(
    alloc: Global,
    name: &str,
    text: &[u8],
    broken: BrokenExpectation,
) -> Result<Vec<u8>, AllocError>
    ensures { IfOk result (λ out. out.items ≡ broken_head name.now text.now broken) }
{
    let mut out = position_text(alloc, name, broken)?;
    out.extend_from_slice(line_at(text, broken.line))?;
    out.push(b'\n')?;
    Ok(out)
}

/// What is printed of an expectation that fails: its line, the event, and what the event told.
fn broken_text(
    alloc: Global,
    name: &str,
    text: &[u8],
    broken: BrokenExpectation,
    event: &[u8],
) -> Result<Vec<u8>, AllocError>
    ensures { IfOk result (λ out. out.items ≡ broken_head name.now text.now broken ++ event.now) }
{
    let mut out = broken_line(alloc, name, text, broken)?;
    out.extend_from_slice(event)?;
    Ok(out)
}

/// What is printed of a run of a system that does not meet these expectations. `AllocError` if memory runs out.
pub fn report_of<O: Opened, T: Coming<O::Bodies>>(
    alloc: Global,
    opened: &O,
    events: &[T],
    expectations: &Expectations<'_>,
    broken: BrokenExpectation,
) -> Result<Vec<u8>, AllocError>
    requires { length events.now ≤ 2 ^ 31 }
    ensures { IfOk result (λ out. ShowsBroken T.reaction (O.start opened.now) events.now expectations.now.name.now
        expectations.now.text.now broken out.items) }
{
    let event = event_text(alloc, opened, events, broken.event)?;
    broken_text(alloc, expectations.name, expectations.text, broken, &event)
}

/// Appends that the expectation of the line of this number of a text says nothing of a run.
fn append_empty(
    alloc: Global,
    (name, text): (&str, &[u8]),
    line: usize,
    out: &mut Vec<u8>,
) -> Result<(), AllocError> {
    let head = format!(in alloc; "{name}:{line}: never happens at all: ")?;
    out.extend_from_slice(head.as_bytes())?;
    out.extend_from_slice(line_at(text, line))?;
    out.push(b'\n')?;
    Ok(())
}

/// What is printed of a run of which the expectations of these lines say nothing; none if there are none of these.
fn empty_text(
    alloc: Global,
    named: (&str, &[u8]),
    lines: &[usize],
) -> Result<Option<Vec<u8>>, AllocError>
    ensures { IfOk result (λ text. is_some text ≡ not (length lines.now == 0)) }
{
    if lines.is_empty() {
        return Ok(None);
    }
    let mut out = Vec::new(alloc);
    for line in lines {
        append_empty(alloc, named, *line, &mut out)?;
    }
    Ok(Some(out))
}

/// What is printed of a run of a system, if it does not meet these expectations.
fn checked<O: Opened, T: Coming<O::Bodies>>(
    alloc: Global,
    opened: &O,
    events: &[T],
    expectations: &Expectations<'_>,
    expected: &[Expected],
) -> Result<Option<Vec<u8>>, AllocError>
    requires { length events.now ≤ 2 ^ 31 }
    ensures { IfOk result (λ text. is_some text ≡ fails_text expectations.now.strict
        (verdict T.reaction (O.start opened.now) events.now expected.now)
        (empty_claims T.reaction (O.start opened.now) events.now expected.now)) }
{
    let verdict = verdict_of(alloc, opened, events, expected)?;
    failure_text(alloc, opened, events, expectations, &verdict)
}

/// What is printed of a run of a system that comes to this verdict, if it does not meet the text. `AllocError` if
/// memory runs out.
pub fn failure_text<O: Opened, T: Coming<O::Bodies>>(
    alloc: Global,
    opened: &O,
    events: &[T],
    expectations: &Expectations<'_>,
    verdict: &Verdict,
) -> Result<Option<Vec<u8>>, AllocError>
    requires { length events.now ≤ 2 ^ 31 }
    ensures { IfOk result (λ text. is_some text
        ≡ fails_text expectations.now.strict verdict.now.broken verdict.now.empty.items) }
{
    let Expectations { name, text, strict } = *expectations;
    match verdict.broken {
        Some(broken) => {
            let text = report_of(alloc, opened, events, expectations, broken)?;
            Ok(Some(text))
        }
        None if strict => empty_text(alloc, (name, text), &verdict.empty),
        None => Ok(None),
    }
}

/// What is said of a flaw of the line of this number of a text.
fn flawed(
    alloc: Global,
    sys: &System,
    text: &[u8],
    number: usize,
    flaw: ExpectationFlaw,
) -> ViewExit {
    match flaw_text(alloc, sys, number, line_at(text, number), flaw) {
        Ok(text) => ViewExit::Expect(text),
        Err(error) => memory(error),
    }
}

/// The expectations of a text for a system; that of a configuration has names for the bodies of its handlers. The
/// reason to give none is the first faulty line of the text, or that memory runs out.
pub fn expected_of(alloc: Global, sys: &System, text: &[u8]) -> Result<Vec<Expected>, ViewExit>
    ensures { IfOk result (λ xs. expectations_of (tables_of sys.now) text.now ≡ Ok xs.items) }
{
    match read_expectations(alloc, sys, text) {
        Ok(expected) => Ok(expected),
        Err(ExpectFault::Memory) => Err(memory(AllocError)),
        Err(ExpectFault::Line { line, flaw }) => Err(flawed(alloc, sys, text, line, flaw)),
    }
}

/// The expectations of a text for a system that are not about the calls of a line. The reason to give none is the first
/// faulty line of the text, or that memory runs out.
pub fn other_expected(alloc: Global, sys: &System, text: &[u8]) -> Result<Vec<Expected>, ViewExit>
    ensures { IfOk result (λ xs. other_sentences_of (tables_of sys.now) text.now ≡ Ok xs.items) }
{
    match read_other_sentences(alloc, sys, text) {
        Ok(expected) => Ok(expected),
        Err(ExpectFault::Memory) => Err(memory(AllocError)),
        Err(ExpectFault::Line { line, flaw }) => Err(flawed(alloc, sys, text, line, flaw)),
    }
}

/// A text of expectations, and the name of its file.
#[derive(Clone, Copy)]
pub struct Expectations<'a> {
    pub name: &'a str,
    pub text: &'a [u8],
    /// Whether a run fails an expectation that says nothing of it, since what it speaks of never comes.
    pub strict: bool,
}

impl RunLook for Expectations<'_> {
    ghost use Rattle.std.specs.Prelude.{is_some};
    ghost use Rattle.fmp_looking.specs.Expects.{IsJudgedBy};

    /// What is printed of a run that does not meet the text: the first line that fails, and the event in which it does;
    /// or the lines that say nothing of the run, if these fail too.
    type Made = Option<Vec<u8>>;

    ghost makes = { λ x meaning reaction k xs times text. IsJudgedBy x.text.now x.strict reaction k xs (is_some text) };

    fn of<O: Opened, T: Coming<O::Bodies>>(
        &self,
        alloc: Global,
        opened: &O,
        events: &[T],
        _times: &[Option<u64>],
    ) -> Result<Option<Vec<u8>>, ViewExit> {
        let expected = expected_of(alloc, opened.system(), self.text)?;
        checked(alloc, opened, events, self, &expected).map_err(|e| memory(e))
    }
}
