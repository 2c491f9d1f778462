//! What is explored, the names of its files, and the text that is put together.
ghost use Rattle.std.specs.Prelude.{◌≡◌, ◌++◌, OnOk, option_map, slice_get};
ghost use Rattle.fmp_searching.specs.Extent.{call_text, column_text};
ghost use Rattle.fmp_searching.specs.Findings.{position_text};
ghost use Rattle.fmp_searching.specs.Sources.{source_tables};
ghost use Rattle.fmp_searching.specs.Varied.{line_at};

use crate::asking::ExploreWords;
use crate::naming::LocalNames;
use crate::sites::CallLines;
use fmp_base::System;
use fmp_expect::{CallSentence, Expected};
use fmp_explore::{CallSite, Question};
use fmp_frames::CallPosition;
use fmp_image_bytes::Image;
use fmp_json::append_number;
use fmp_warnings::Form;
use std::alloc::AllocError;

/// What is explored, and what is asked of it.
#[derive(Clone, Copy)]
pub struct Exploring<'a> {
    pub cfg: &'a str,
    pub src: &'a str,
    /// What is asked of all schedules, in the words of the command line.
    pub asked: ExploreWords<'a>,
    pub bound: u64,
    /// The name of the file of the sentences that must hold.
    pub expect: Option<&'a str>,
    /// Whether the answers of each call are printed.
    pub answers: bool,
    /// Whether a sentence that says nothing of any schedule counts as a finding.
    pub strict: bool,
    /// The name of the files of steps, without the dot and the number.
    pub out: Option<&'a str>,
    pub form: Form,
    /// The file of a report of tests, if one is asked for.
    pub junit: Option<&'a str>,
    /// How many threads search.
    pub jobs: u32,
}

/// The names of the files that an exploration speaks of, and what it prints beside its findings.
#[derive(Clone, Copy)]
pub struct Named<'a> {
    /// The file of the bodies.
    pub src: &'a str,
    /// The files of steps are this name, a dot and a number from 1 on.
    pub out: &'a str,
    /// Whether the answers of each call are printed.
    pub answers: bool,
    /// Whether a sentence that says nothing of any schedule counts as a finding.
    pub strict: bool,
    pub form: Form,
    /// Whether a report of tests is made.
    pub report: bool,
}

/// Where the sentences of a question stand: those of the sections of the command line come first, and then those of a
/// file.
#[derive(Clone, Copy)]
pub struct Sentences<'a> {
    /// How many sections there are.
    pub sections: usize,
    /// The name of the file; empty if there is none.
    pub file: &'a str,
    /// The text of the file.
    pub text: &'a [u8],
    /// The sentences of the file, with their lines, but for those about calls.
    pub expected: &'a [Expected],
    /// The sentences of the file about calls.
    pub call_sentences: &'a [CallSentence],
    /// How many of the answers that the question forbids at calls are of the command line. The others are of the file.
    pub nevers_at: usize,
}

impl Sentences<'_> {
    /// The line of the sentence at a place, if it is one of the file.
    pub fn line(&self, place: usize) -> Option<u64>
        ensures { result ≡ line_at self.now.sections self.now.expected.now place }
    {
        let place = place.checked_sub(self.sections)?;
        Some(self.expected.get(place)?.line as u64)
    }

    /// The line of the sentence at a place among those about calls.
    pub fn call_sentence_line(&self, place: usize) -> Option<u64>
        ensures { result ≡ option_map (λ s. s.line) (slice_get self.now.call_sentences.now place) }
    {
        Some(self.call_sentences.get(place)?.line as u64)
    }
}

/// What a search can claim: that nothing is found in an image that a question asks about, at a bound.
#[derive(Clone, Copy)]
pub struct Claim<'a> {
    pub image: &'a Image,
    /// Its system as the configuration describes it, which names the bodies of handlers.
    pub configured: &'a System,
    /// Where the calls of its bodies stand.
    pub lines: &'a CallLines,
    pub question: &'a Question,
    pub bound: u64,
}

/// What is explored, and what is said of it.
#[derive(Clone, Copy)]
pub struct ExploredSources<'a> {
    pub claim: Claim<'a>,
    pub names: &'a LocalNames,
    pub sentences: Sentences<'a>,
    pub named: Named<'a>,
}

/// Appends text.
pub fn say(out: &mut Vec<u8>, text: &str) -> Result<(), AllocError>
    ensures { OnOk result (out.new.items ≡ out.old.items ++ text.now) }
{
    out.extend_from_slice(text.as_bytes())
}

/// Appends where a call stands in a file, after the name of that.
fn say_column(out: &mut Vec<u8>, position: Option<CallPosition>) -> Result<(), AllocError>
    ensures { OnOk result (out.new.items ≡ out.old.items ++ column_text position) }
{
    let Some(CallPosition { line, column }) = position else {
        return Ok(());
    };
    say(out, ":")?;
    append_number(u64::from(line), out)?;
    say(out, ":")?;
    append_number(column as u64, out)
}

/// Appends where a call stands in the file of the bodies.
pub fn say_call(
    out: &mut Vec<u8>,
    sources: &ExploredSources<'_>,
    site: CallSite,
) -> Result<(), AllocError>
    ensures { OnOk result (out.new.items ≡ out.old.items ++ call_text (source_tables sources.now) site) }
{
    let code = sources.claim.image.code();
    let position = sources.claim.lines.position(code, site.body, site.pc);
    say(out, sources.named.src)?;
    say_column(out, position)
}

/// Appends a line of the file of the bodies.
pub fn say_position(
    out: &mut Vec<u8>,
    sources: &ExploredSources<'_>,
    line: Option<u32>,
) -> Result<(), AllocError>
    ensures { OnOk result (out.new.items ≡ out.old.items ++ position_text sources.now.named.src.now line) }
{
    say(out, sources.named.src)?;
    let Some(line) = line else {
        return Ok(());
    };
    say(out, ":")?;
    append_number(u64::from(line), out)
}
