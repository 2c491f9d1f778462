//! What is said of a text of sentences of which one asks for no question.
ghost use Rattle.std.specs.Prelude.{◌≡◌, IfOk, Ok, is_some};
ghost use Rattle.fmp_base.specs.Systems.{tables_of};
ghost use Rattle.fmp_expect.specs.CallSentences.{other_sentences_of};
ghost use Rattle.fmp_searching.specs.Mistakes.{is_of_sentence};

use crate::asked_question::{Inquiry, is_end};
use crate::asking::CommandMistake;
use fmp_arguments::flaw_text;
use fmp_base::System;
use fmp_expect::{Expected, line_at, read_call_sentences, read_other_sentences};
use std::alloc::{AllocError, Global};

/// What is said of sentences about calls of which one names a line without any.
const NO_CALL: &str = "expect: `at` names a line of SRC in which no call stands";

/// What is said of sentences of which one is about the end of a run.
const NO_END: &str = "expect: `end` is of the end of a run; a search looks at no end";

/// The sentences of a text without flaws that are not about calls, with their lines. `AllocError` if memory runs out.
pub fn expected_in(
    alloc: Global,
    configured: &System,
    said: &[u8],
) -> Result<Vec<Expected>, AllocError>
    ensures { IfOk result (λ all. other_sentences_of (tables_of configured.now) said.now ≡ Ok all.items) }
{
    match read_other_sentences(alloc, configured, said) {
        Ok(expected) => Ok(expected),
        Err(_) => Err(AllocError),
    }
}

/// What is said of the first sentence about the calls of a line in which none stands.
fn uncalled_text(alloc: Global, inquiry: &Inquiry<'_>) -> Result<String, AllocError> {
    let image = inquiry.image;
    image.keeps_rules();
    for never in &read_call_sentences(alloc, inquiry.configured, inquiry.text)? {
        let (line, at) = (never.line, never.at);
        if inquiry.lines.calls(alloc, image.code(), at)?.is_empty() {
            return format!(in alloc;
                "expect:{line}: `at` names a line of SRC in which no call stands: `{at}`"
            );
        }
    }
    String::from_str(alloc, NO_CALL)
}

/// What is said of the first sentence about the end of a run.
fn end_text(alloc: Global, configured: &System, text: &[u8]) -> Result<String, AllocError> {
    for said in &expected_in(alloc, configured, text)? {
        if is_end(&said.sentence) {
            let line = said.line;
            return format!(in alloc;
                "expect:{line}: `end` is of the end of a run; a search looks at no end"
            );
        }
    }
    String::from_str(alloc, NO_END)
}

/// What is said of the text of sentences of an inquiry, of which one is mistaken; none if the mistake is in the words
/// of the command. `AllocError` if memory runs out.
pub fn fault_of_sentences(
    alloc: Global,
    inquiry: &Inquiry<'_>,
    mistake: CommandMistake,
) -> Result<Option<String>, AllocError>
    ensures { IfOk result (λ text. is_some text ≡ is_of_sentence mistake) }
{
    let (configured, text) = (inquiry.configured, inquiry.text);
    match mistake {
        CommandMistake::Sentence { line, flaw } => {
            let said = flaw_text(alloc, configured, line, line_at(text, line), flaw)?;
            Ok(Some(said))
        }
        CommandMistake::SentenceCall => Ok(Some(uncalled_text(alloc, inquiry)?)),
        CommandMistake::End => Ok(Some(end_text(alloc, configured, text)?)),
        CommandMistake::Never
        | CommandMistake::Alone
        | CommandMistake::Count
        | CommandMistake::Gap
        | CommandMistake::Rest
        | CommandMistake::Call => Ok(None),
    }
}
