//! What an exploration is of, as the words of `explore` say it, and what is wrong with words that ask for none.
ghost use Rattle.std.specs.Prelude.{◌≡◌, bytes_eq, codes};
ghost use Rattle.std.specs.List.{list_any};
ghost use Rattle.fmp_base.specs.Names.{name_text};
ghost use Rattle.clap.specs.Words.{first_of, found_of, rows_of};
ghost use Rattle.fmp_searching.specs.Explored.{IsAsked, IsExploring, IsForm, ticks_by};
ghost use Rattle.fmp_searching.specs.Mistakes as spec;

use crate::asked_question::Inquiry;
use crate::asking::{CommandMistake, ExploreWords};
use crate::explore_form::explore_command;
use crate::limits::{count_named, gap_named};
use crate::sites::CallLines;
use crate::sources::Exploring;
use crate::suggesting::{said_of_never, said_of_task};
use crate::words::{never_at_named, never_named, section_named};
use clap::{ArgMatches, Error};
use fmp_arguments::{bound_of, byte_of, flag_of, text_of, word_of, word32_of, words_of};
use fmp_base::TaskConfig;
use fmp_explore::Ticks;
use fmp_files::mistake_of;
use fmp_image_bytes::Image;
use fmp_warnings::Form;
use std::alloc::{AllocError, Global};

/// The message for a word that says nothing of what must never happen.
const NO_NEVER: &str =
    "--never wants an answer as E_QOVR or E_TMOUT:12, or a printed value as 'put(99)'";

/// The message for a word that names no section.
const NO_SECTION: &str = "--alone wants two different values as 1,2";

/// The message for more sections than are watched.
const MANY_SECTIONS: &str = "--alone is given at most 4 times";

/// The message for a word that does not say how often an interrupt may come.
const NO_COUNT: &str = "--int wants an interrupt and how often it may come, as 3:2";

/// The message for a word that does not say how many ticks come between two of an interrupt.
const NO_GAP: &str = "--gap wants an interrupt and how many ticks come between two of it, as 3:5";

/// The message for the name of a task that is not there.
const NO_TASK: &str = "--rest names no task of the configuration";

/// The message for a line of an answer in which no call stands.
const NO_CALL: &str = "--never names a line of SRC in which no call stands";

/// The message for a text of sentences that asks for no question.
const NO_SENTENCES: &str = "--expect has a sentence that asks nothing of a search";

/// The message for steps that would replace a file that is read.
const STEPS_OVER_INPUT: &str =
    "a file of steps is one of those that are read: no steps are written";

/// The message for a report that would replace a file that is read.
const REPORT_OVER_INPUT: &str = "the file of --junit is one of those that are read";

/// The message for a report that steps would replace.
const REPORT_OVER_STEPS: &str = "the file of --junit is one that steps are written to";

/// When the clock may advance.
fn ticks_of(words: &ArgMatches<'_>) -> Ticks
    ensures { result ≡ ticks_by (first_of (codes "ticks") (rows_of (found_of words.now))) }
{
    match text_of(words, "ticks") {
        Some("idle") => Ticks::Idle,
        _ => Ticks::Any,
    }
}

/// What the words ask of all schedules.
fn asked_of<'m>(words: &'m ArgMatches<'_>) -> ExploreWords<'m>
    ensures { IsAsked (rows_of (found_of words.now)) result }
{
    ExploreWords {
        nevers: words_of(words, "never"),
        alone: words_of(words, "alone"),
        rest: words_of(words, "rest"),
        ticks: ticks_of(words),
        interrupts: byte_of(words, "ints"),
        counts: words_of(words, "int"),
        gaps: words_of(words, "gap"),
        queued: byte_of(words, "queued"),
        all: flag_of(words, "all"),
        states: word32_of(words, "states").unwrap_or(1),
        seconds: word32_of(words, "time"),
    }
}

/// How what a search comes to is printed.
fn form_of(words: &ArgMatches<'_>) -> Form
    ensures { IsForm (rows_of (found_of words.now)) result }
{
    if flag_of(words, "json") {
        Form::Json
    } else {
        Form::Text
    }
}

/// What the words of `explore` ask for.
pub fn exploring_of<'m>(words: &'m ArgMatches<'_>) -> Exploring<'m>
    ensures { IsExploring (rows_of (found_of words.now)) result }
{
    Exploring {
        cfg: word_of(words, "CFG"),
        src: word_of(words, "SRC"),
        asked: asked_of(words),
        bound: bound_of(words),
        expect: text_of(words, "expect"),
        answers: flag_of(words, "answers"),
        strict: flag_of(words, "strict"),
        out: text_of(words, "out"),
        form: form_of(words),
        junit: text_of(words, "junit"),
        jobs: word32_of(words, "jobs").unwrap_or(1),
    }
}

/// The error for words that fit the form of `explore`, which has the status 2.
fn wrong_words(alloc: Global, why: &str) -> Result<Error, AllocError> {
    mistake_of(explore_command(alloc), "fmp_view explore", why)
}

/// Whether a word says nothing of what must never happen.
fn is_wrong_never(word: &str) -> bool
    ensures { result ≡ spec.is_wrong_never word.now }
{
    never_named(word).is_none() && never_at_named(word).is_none()
}

/// The first of these words that says nothing of what must never happen.
fn wrong_never<'m>(words: &[&'m str]) -> &'m str
    ensures { result.now ≡ spec.first_word spec.is_wrong_never words.now }
{
    for word in words {
        if is_wrong_never(word) {
            return word;
        }
    }
    ""
}

/// What is said of a word, of which this is wrong.
fn said_of_word(alloc: Global, why: &str, word: &str) -> Result<String, AllocError> {
    format!(in alloc; "{why}: `{word}`")
}

/// What is said of words of which one does not say how often an interrupt may come.
fn said_of_counts(alloc: Global, words: &[&str]) -> Result<String, AllocError> {
    for word in words {
        if count_named(word).is_none() {
            return said_of_word(alloc, NO_COUNT, word);
        }
    }
    String::from_str(alloc, NO_COUNT)
}

/// What is said of words of which one does not say how many ticks come between two of an interrupt.
fn said_of_gaps(alloc: Global, words: &[&str]) -> Result<String, AllocError> {
    for word in words {
        if gap_named(word).is_none() {
            return said_of_word(alloc, NO_GAP, word);
        }
    }
    String::from_str(alloc, NO_GAP)
}

/// Whether a word is the name of one of these tasks.
fn is_task(tasks: &[TaskConfig], word: &str) -> bool
    ensures { result ≡ list_any (λ t. bytes_eq (name_text t.name) word.now) tasks.now }
{
    tasks
        .iter()
        .any(|task| task.name.as_bytes() == word.as_bytes())
}

/// Whether a word is the name of none of these tasks.
fn is_wrong_task(tasks: &[TaskConfig], word: &str) -> bool
    ensures { result ≡ spec.is_wrong_task tasks.now word.now }
{
    !is_task(tasks, word)
}

/// The first of these words that is the name of no task.
fn wrong_task<'m>(words: &[&'m str], tasks: &[TaskConfig]) -> &'m str
    ensures { result.now ≡ spec.first_word (spec.is_wrong_task tasks.now) words.now }
{
    for word in words {
        if is_wrong_task(tasks, word) {
            return word;
        }
    }
    ""
}

/// What is said of words of which one names no section, or which are too many.
fn said_of_sections(alloc: Global, words: &[&str]) -> Result<String, AllocError> {
    for word in words {
        if section_named(word).is_none() {
            return said_of_word(alloc, NO_SECTION, word);
        }
    }
    String::from_str(alloc, MANY_SECTIONS)
}

/// Whether a word asks for the calls of a line in which none stands.
fn is_uncalled(
    alloc: Global,
    word: &str,
    image: &Image,
    lines: &CallLines,
) -> Result<bool, AllocError> {
    image.keeps_rules();
    match never_at_named(word) {
        Some(at) => Ok(lines.calls(alloc, image.code(), at.line)?.is_empty()),
        None => Ok(false),
    }
}

/// What is said of words of which one asks for the calls of a line in which none stands.
fn said_of_calls(
    alloc: Global,
    words: &[&str],
    image: &Image,
    lines: &CallLines,
) -> Result<String, AllocError> {
    for word in words {
        if is_uncalled(alloc, word, image, lines)? {
            return said_of_word(alloc, NO_CALL, word);
        }
    }
    String::from_str(alloc, NO_CALL)
}

/// What is said of words that ask for no question about any system.
fn said_of_mistake(
    alloc: Global,
    asked: &ExploreWords<'_>,
    mistake: CommandMistake,
) -> Result<String, AllocError> {
    match mistake {
        CommandMistake::Never => said_of_never(alloc, NO_NEVER, wrong_never(asked.nevers)),
        CommandMistake::Alone => said_of_sections(alloc, asked.alone),
        CommandMistake::Count => said_of_counts(alloc, asked.counts),
        CommandMistake::Gap => said_of_gaps(alloc, asked.gaps),
        CommandMistake::Rest => String::from_str(alloc, NO_TASK),
        CommandMistake::Call => String::from_str(alloc, NO_CALL),
        CommandMistake::Sentence { .. } | CommandMistake::SentenceCall | CommandMistake::End => {
            String::from_str(alloc, NO_SENTENCES)
        }
    }
}

/// What is said of the words of an inquiry that ask for no question about its image.
fn said_of_image(
    alloc: Global,
    inquiry: &Inquiry<'_>,
    mistake: CommandMistake,
) -> Result<String, AllocError> {
    let (asked, image) = (&inquiry.wanted.asked, inquiry.image);
    let tasks = &image.system().tasks;
    match mistake {
        CommandMistake::Rest => said_of_task(alloc, NO_TASK, wrong_task(asked.rest, tasks), tasks),
        CommandMistake::Call => said_of_calls(alloc, asked.nevers, image, inquiry.lines),
        mistake => said_of_mistake(alloc, asked, mistake),
    }
}

/// The error for words that ask for no question about any system, which has the status 2.
pub fn no_question(
    alloc: Global,
    asked: &ExploreWords<'_>,
    mistake: CommandMistake,
) -> Result<Error, AllocError> {
    let why = said_of_mistake(alloc, asked, mistake)?;
    wrong_words(alloc, &why)
}

/// The error for words of an inquiry that ask for no question about its image. It has the status 2.
pub fn no_question_of(
    alloc: Global,
    inquiry: &Inquiry<'_>,
    mistake: CommandMistake,
) -> Result<Error, AllocError> {
    let why = said_of_image(alloc, inquiry, mistake)?;
    wrong_words(alloc, &why)
}

/// The error for steps that would replace a file that is read, which has the status 2.
pub fn steps_over_input(alloc: Global) -> Result<Error, AllocError> {
    wrong_words(alloc, STEPS_OVER_INPUT)
}

/// The error for a report that would replace a file that is read, which has the status 2.
pub fn report_over_input(alloc: Global) -> Result<Error, AllocError> {
    wrong_words(alloc, REPORT_OVER_INPUT)
}

/// The error for a report that steps would replace, which has the status 2.
pub fn report_over_steps(alloc: Global) -> Result<Error, AllocError> {
    wrong_words(alloc, REPORT_OVER_STEPS)
}
