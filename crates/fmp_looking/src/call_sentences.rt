//! Sentences about the calls of a line of the tasks' text, for runs of an image.
ghost use Rattle.std.specs.Prelude.{◌≡◌, ◌++◌, IfOk, OnOk, filter, map};
ghost use Rattle.fmp_base.specs.Systems.{tables_of};
ghost use Rattle.fmp_expect.specs.CallSentences.{call_sentences_of};
ghost use Rattle.fmp_frames.specs.CallPositions.{position_of};
ghost use Rattle.fmp_frames.specs.Sites.{HasSites};
ghost use Rattle.fmp_instructions.specs.Instructions.{code_tables};
ghost use Rattle.fmp_looking.specs.CallSentences as spec;
ghost use Rattle.fmp_looking.specs.CallSentences.{AreSentencesOf};

use crate::exit::{ViewExit, memory};
use crate::expecting::other_expected;
use fmp_base::{Line, System};
use fmp_code::{Code, Vm};
use fmp_expect::{CallSentence, Expected, LineJudge, read_call_sentences};
use fmp_frames::{CallPositions, CallSite, call_sites};
use fmp_image_bytes::Image;
use fmp_kernel::Kernel;
use fmp_question::{CallSite as QuestionSite, NeverAt, tells_there};
use std::alloc::{AllocError, Global};
use std::marker::Model;

/// An answer that one call must never get, and the line in their text of the sentence that says so.
#[derive(Clone, Copy)]
pub struct CallNever {
    pub line: usize,
    pub never: NeverAt,
}

/// The sentences of a text.
#[derive(Drop)]
pub struct RunSentences {
    /// Those that are not about the calls of a line.
    pub expected: Vec<Expected>,
    /// Those that are.
    pub of_calls: Vec<CallSentence>,
    /// What the latter say of each call.
    pub nevers: Vec<CallNever>,
}

/// Sentences about calls of an image, by which lines of its runs are judged.
#[derive(Drop)]
pub struct CallJudge<'a> {
    image: &'a Image,
    nevers: &'a [CallNever],
}

impl<'a> Model for CallJudge<'a> {
    ghost use Rattle.fmp_looking.specs.CallSentences.{JudgeTables};

    ghost Value = { JudgeTables };

    ghost view = { λ j. record { system = j.image.now.system; nevers = j.nevers.now } };
}

impl<'a> CallJudge<'a> {
    ghost use Rattle.std.specs.Prelude.{◌≡◌, []};
    ghost use Rattle.fmp_looking.specs.CallSentences.{judge_of};

    /// The judge by these sentences.
    pub fn new(image: &'a Image, nevers: &'a [CallNever]) -> CallJudge<'a>
        ensures { result ≡ judge_of image.now nevers.now }
    {
        CallJudge { image, nevers }
    }

    /// A judge by no sentence.
    pub fn none(image: &'a Image) -> CallJudge<'a>
        ensures { result ≡ judge_of image.now [] }
    {
        CallJudge { image, nevers: &[] }
    }
}

/// The line of the first sentence that a line breaks which was just told on a kernel.
fn first_told(
    kernel: &Kernel<Vm<'_>>,
    sys: &System,
    nevers: &[CallNever],
    line: &Line,
) -> Option<usize>
    ensures { result ≡ spec.first_told (tables_of sys.now) nevers.now kernel.now.world line.now }
{
    for one in nevers {
        if tells_there(kernel, sys, one.never, line) {
            return Some(one.line);
        }
    }
    None
}

impl<'a, 'b> LineJudge<Vm<'a>> for CallJudge<'b> {
    ghost use Rattle.std.specs.Prelude.{List, None, true};
    ghost use Rattle.fmp_base.specs.declared.events.Line.{Line as LineTold};
    ghost use Rattle.fmp_instructions.specs.declared.instructions.MachineContext.{MachineContext};
    ghost use Rattle.fmp_instructions.specs.Instructions.{BodyTables};
    ghost use Rattle.fmp_kernel.specs.KernelViews.{KernelView};

    ghost breaks = { spec.breaks_by };

    fn broken_by(&self, kernel: &Kernel<Vm<'a>>, line: &Line) -> Option<usize> {
        first_told(kernel, self.image.system(), self.nevers, line)
    }

    fn is_idle(&self) -> bool
        ensures { result ≡ true → (k : KernelView (List BodyTables) MachineContext) → (l : LineTold)
            → spec.breaks_by self.now k l ≡ None }
    {
        self.nevers.is_empty()
    }
}

/// Whether a call stands in the line of this number.
fn stands_in(code: &Code, positions: &CallPositions, site: CallSite, line: u32) -> bool
    ensures { result ≡ spec.is_line line (position_of (code_tables code.now) positions.now site.body site.pc) }
{
    match positions.position(code, site.body, site.pc) {
        Some(position) => position.line == line,
        None => false,
    }
}

/// Those of these calls that stand in the line of this number.
fn calls_among(
    alloc: Global,
    code: &Code,
    positions: &CallPositions,
    sites: &[CallSite],
    line: u32,
) -> Result<Vec<CallSite>, AllocError>
    ensures { IfOk result (λ calls. calls.items ≡ filter
        (λ s. spec.is_line line (position_of (code_tables code.now) positions.now s.body s.pc)) sites.now) }
{
    let mut calls = Vec::new(alloc);
    for site in sites {
        if stands_in(code, positions, *site, line) {
            calls.push(*site)?;
        }
    }
    Ok(calls)
}

/// The calls of a code that stand in the line of this number.
fn calls_in(
    alloc: Global,
    code: &Code,
    positions: &CallPositions,
    line: u32,
) -> Result<Vec<CallSite>, AllocError>
    requires { HasSites (code_tables code.now) }
    ensures { IfOk result (λ calls. calls.items ≡ spec.calls_in (code_tables code.now) positions.now line) }
{
    let sites = call_sites(alloc, code)?;
    calls_among(alloc, code, positions, &sites, line)
}

/// What a sentence says of a call.
fn never_of(sentence: CallSentence, site: CallSite) -> CallNever
    ensures { result ≡ spec.never_of sentence site }
{
    CallNever {
        line: sentence.line,
        never: NeverAt {
            code: sentence.code,
            site: QuestionSite {
                body: site.body,
                pc: site.pc,
            },
            by: sentence.by,
        },
    }
}

/// Adds what a sentence says of each of these calls.
fn add_calls(
    sentence: CallSentence,
    sites: &[CallSite],
    nevers: &mut Vec<CallNever>,
) -> Result<(), AllocError>
    ensures { OnOk result (nevers.new.items ≡ nevers.old.items ++ map (λ s. spec.never_of sentence s) sites.now) }
{
    for site in sites {
        nevers.push(never_of(sentence, *site))?;
    }
    Ok(())
}

/// What is said of a sentence about a line without a call.
fn uncalled(alloc: Global, sentence: CallSentence) -> ViewExit {
    match format!(in alloc;
        "expect:{}: `at` names a line of SRC in which no call stands: `{}`",
        sentence.line, sentence.at
    ) {
        Ok(text) => ViewExit::Expect(text),
        Err(error) => memory(error),
    }
}

/// Adds what a sentence says of each call of its line, of which there must be one.
fn add_sentence(
    alloc: Global,
    code: &Code,
    positions: &CallPositions,
    sentence: CallSentence,
    nevers: &mut Vec<CallNever>,
) -> Result<(), ViewExit>
    requires { HasSites (code_tables code.now) }
    ensures { OnOk result (nevers.new.items
        ≡ nevers.old.items ++ spec.nevers_of (code_tables code.now) positions.now sentence) }
{
    let sites = calls_in(alloc, code, positions, sentence.at).map_err(|error| memory(error))?;
    if sites.is_empty() {
        return Err(uncalled(alloc, sentence));
    }
    add_calls(sentence, &sites, nevers).map_err(|error| memory(error))
}

/// What sentences say of the calls of a code.
fn nevers_in(
    alloc: Global,
    code: &Code,
    positions: &CallPositions,
    sentences: &[CallSentence],
) -> Result<Vec<CallNever>, ViewExit>
    requires { HasSites (code_tables code.now) }
    ensures { IfOk result (λ nevers. nevers.items ≡ spec.nevers_in (code_tables code.now) positions.now sentences.now) }
{
    let mut nevers = Vec::new(alloc);
    for one in sentences {
        add_sentence(alloc, code, positions, *one, &mut nevers)?;
    }
    Ok(nevers)
}

/// What sentences say of the calls of an image, whose calls stand at these positions. The reasons to give nothing are a
/// line in which no call stands, and that memory runs out.
pub fn nevers_of(
    alloc: Global,
    image: &Image,
    positions: &CallPositions,
    sentences: &[CallSentence],
) -> Result<Vec<CallNever>, ViewExit>
    ensures { IfOk result (λ nevers. nevers.items ≡ spec.nevers_in image.now.code positions.now sentences.now) }
{
    image.keeps_rules();
    nevers_in(alloc, image.code(), positions, sentences)
}

/// The sentences about calls of a text for a system.
pub fn call_sentences_in(
    alloc: Global,
    sys: &System,
    text: &[u8],
) -> Result<Vec<CallSentence>, ViewExit>
    ensures { IfOk result (λ said. said.items ≡ call_sentences_of (tables_of sys.now) text.now) }
{
    read_call_sentences(alloc, sys, text).map_err(|error| memory(error))
}

/// The sentences of a text for a system, whose image has bodies of this text. The reasons to give none are the first
/// faulty line of the text, a line in which no call stands, and that memory runs out.
pub fn sentences_of(
    alloc: Global,
    image: &Image,
    sys: &System,
    src: &[u8],
    text: &[u8],
) -> Result<RunSentences, ViewExit>
    ensures { IfOk result (AreSentencesOf image.now (tables_of sys.now) src.now text.now) }
{
    let expected = other_expected(alloc, sys, text)?;
    let of_calls = call_sentences_in(alloc, sys, text)?;
    let positions = CallPositions::new(alloc, src).map_err(|error| memory(error))?;
    let nevers = nevers_of(alloc, image, &positions, &of_calls)?;
    Ok(RunSentences {
        expected,
        of_calls,
        nevers,
    })
}
