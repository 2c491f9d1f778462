//! What is said of a flaw of a text of expectations: what is expected, what stands there, and the known word that was
//! meant.
use crate::hints::{end_hint, word_hint};
use crate::known_words::{add_deeds, add_name, add_tasks, question_text};
use fmp_base::{Entry, Name, System};
use fmp_diagnosis::name_meant;
use fmp_expect::{ExpectationFlaw, Expects, STATES, faulty_word, interrupt_named};
use std::alloc::{AllocError, Global};

/// The bytes with which editors may begin a text in UTF-8.
const BYTE_ORDER_MARK: [u8; 3] = [0xEF, 0xBB, 0xBF];

/// Adds the states of tasks.
fn add_states(known: &mut Vec<Name>) -> Result<(), AllocError> {
    for state in STATES {
        add_name(known, state.name())?;
    }
    Ok(())
}

/// Adds the bodies that only the handler of one interrupt has.
fn add_handlers(known: &mut Vec<Name>, sys: &System) -> Result<(), AllocError> {
    for interrupt in &sys.interrupts {
        if let Entry::Named(body) = interrupt.entry {
            if interrupt_named(sys, body.as_bytes()).is_some() {
                known.push(body)?;
            }
        }
    }
    Ok(())
}

/// Adds the tasks, the cyclic handlers, and the bodies that only the handler of one interrupt has.
fn add_actors(known: &mut Vec<Name>, sys: &System) -> Result<(), AllocError> {
    add_tasks(known, &sys.tasks)?;
    for cyclic in &sys.cyclics {
        known.push(cyclic.name)?;
    }
    add_handlers(known, sys)
}

/// Adds words, if they can be names.
fn add_names(known: &mut Vec<Name>, words: &[&str]) -> Result<(), AllocError> {
    for word in words {
        add_name(known, word)?;
    }
    Ok(())
}

/// Adds the words that may begin a sentence.
fn add_beginnings(known: &mut Vec<Name>, sys: &System) -> Result<(), AllocError> {
    add_names(known, &["never", "always", "between", "end"])?;
    add_deeds(known)?;
    add_actors(known, sys)
}

/// Adds the objects whose values and lengths a test may compare.
fn add_objects(known: &mut Vec<Name>, sys: &System) -> Result<(), AllocError> {
    for word in &sys.shared_words {
        known.push(word.name)?;
    }
    for semaphore in &sys.semaphores {
        known.push(semaphore.name)?;
    }
    for flag in &sys.flags {
        known.push(flag.name)?;
    }
    for queue in &sys.data_queues {
        known.push(queue.name)?;
    }
    for mailbox in &sys.mailboxes {
        known.push(mailbox.name)?;
    }
    Ok(())
}

/// Adds the words that may begin a test.
fn add_tests(known: &mut Vec<Name>, sys: &System) -> Result<(), AllocError> {
    add_names(known, &["not", "priority", "nobody"])?;
    add_tasks(known, &sys.tasks)?;
    add_objects(known, sys)
}

/// Adds the words that are known where this is expected in every system.
fn add_fixed(known: &mut Vec<Name>, expects: Expects) -> Result<(), AllocError> {
    match expects {
        Expects::Runs => add_name(known, "runs"),
        Expects::RunsOrRests => add_names(known, &["runs", "rests"]),
        Expects::Within => add_name(known, "within"),
        Expects::Ticks => add_name(known, "ticks"),
        Expects::Of => add_name(known, "of"),
        Expects::Int => add_name(known, "int"),
        Expects::Before => add_names(known, &["before", "within"]),
        Expects::BeforeOrBy => add_names(known, &["before", "within", "by"]),
        Expects::NeverEnd => add_names(known, &["after", "until"]),
        Expects::NeverEndOrBy => add_names(known, &["after", "until", "by"]),
        Expects::NeverEndByOrAt => add_names(known, &["after", "until", "by", "at"]),
        Expects::NeverEndOrAt => add_names(known, &["after", "until", "at"]),
        Expects::UntilEnd => add_name(known, "until"),
        Expects::UntilEndOrBy => add_names(known, &["until", "by"]),
        _ => add_rarer(known, expects),
    }
}

/// Adds the words of `between`, of tests, and of what ends a sentence.
fn add_rarer(known: &mut Vec<Name>, expects: Expects) -> Result<(), AllocError> {
    match expects {
        Expects::And => add_name(known, "and"),
        Expects::AndOrBy => add_names(known, &["and", "by"]),
        Expects::One => add_name(known, "one"),
        Expects::OneOrBy => add_names(known, &["one", "by"]),
        Expects::At => add_name(known, "at"),
        Expects::A => add_name(known, "a"),
        Expects::Time => add_name(known, "time"),
        Expects::On => add_name(known, "on"),
        Expects::AndOr => add_names(known, &["and", "or"]),
        Expects::EndOrBy => add_name(known, "by"),
        _ => Ok(()),
    }
}

/// Adds the words of a system that are known where this is expected.
fn add_known(known: &mut Vec<Name>, sys: &System, expects: Expects) -> Result<(), AllocError> {
    match expects {
        Expects::Sentence => add_beginnings(known, sys),
        Expects::Deed => add_deeds(known),
        Expects::Actor | Expects::ActorOrHandler | Expects::ActorOfImage => add_actors(known, sys),
        Expects::Task => add_tasks(known, &sys.tasks),
        Expects::State => add_states(known),
        Expects::Test => add_tests(known, sys),
        Expects::InterruptOrHandler => add_handlers(known, sys),
        _ => add_fixed(known, expects),
    }
}

/// The known word that was meant by a word where this is expected, if another one resembles it.
fn meant(
    alloc: Global,
    sys: &System,
    expects: Expects,
    word: &[u8],
) -> Result<Option<Name>, AllocError> {
    let Some(name) = Name::new(word) else {
        return Ok(None);
    };
    let mut known = Vec::new(alloc);
    add_known(&mut known, sys, expects)?;
    match name_meant(alloc, &name, &known)? {
        Some(other) if other.as_bytes() != word => Ok(Some(other)),
        _ => Ok(None),
    }
}

/// Whether a word can be shown as it is: it has no control byte.
fn is_shown(word: &[u8]) -> bool {
    word.iter().all(|byte| *byte >= b' ' && *byte != 127)
}

/// What is expected where a flaw is, in words; of a processor how many there are too.
fn expected_text(alloc: Global, sys: &System, flaw: ExpectationFlaw) -> Result<String, AllocError> {
    match flaw.expects {
        Expects::Processor if sys.processors == 1 => {
            format!(in alloc; "{flaw}, which has 1 alone")
        }
        Expects::Processor => {
            let count = sys.processors;
            format!(in alloc; "{flaw}, 1 to {count}")
        }
        _ => format!(in alloc; "{flaw}"),
    }
}

/// What stands where a flaw is, in words.
fn found_text(alloc: Global, word: Option<&[u8]>) -> Result<String, AllocError> {
    match word {
        Some(word) if is_shown(word) => {
            let word = String::from_utf8_lossy(alloc, word)?;
            format!(in alloc; "found `{word}`")
        }
        Some(_) => String::from_str(alloc, "found a word with a control byte"),
        None => String::from_str(alloc, "found the end of the line"),
    }
}

/// What is said after the word in which a flaw of a line is, or after the end of the line: what was meant.
fn hint_text(
    alloc: Global,
    sys: &System,
    expects: Expects,
    line: &[u8],
    word: Option<&[u8]>,
) -> Result<String, AllocError> {
    let Some(word) = word else {
        return String::from_str(alloc, end_hint(line));
    };
    if is_shown(word) {
        if let Some(hint) = word_hint(alloc, sys, expects, word)? {
            return Ok(hint);
        }
    }
    question_text(alloc, meant(alloc, sys, expects, word)?)
}

/// What is said of a flaw of a line, for a run of this system. `AllocError` if memory runs out.
pub fn flaw_words(
    alloc: Global,
    sys: &System,
    line: &[u8],
    flaw: ExpectationFlaw,
) -> Result<String, AllocError> {
    if line.starts_with(&BYTE_ORDER_MARK) {
        return String::from_str(
            alloc,
            "a byte order mark stands here; save the text without it",
        );
    }
    let word = faulty_word(line, flaw);
    let found = found_text(alloc, word)?;
    let hint = hint_text(alloc, sys, flaw.expects, line, word)?;
    let expected = expected_text(alloc, sys, flaw)?;
    format!(in alloc; "{expected}; {found}{hint}")
}

/// What is said of a flaw of the line of this number of a text, for a run of this system. `AllocError` if memory runs
/// out.
pub fn flaw_text(
    alloc: Global,
    sys: &System,
    number: usize,
    line: &[u8],
    flaw: ExpectationFlaw,
) -> Result<String, AllocError> {
    let words = flaw_words(alloc, sys, line, flaw)?;
    format!(in alloc; "expect:{number}: {words}")
}
