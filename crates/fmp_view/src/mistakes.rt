//! What is said of the lines of a session that are no commands.
use fmp_arguments::question_text;
use fmp_base::Name;
use fmp_diagnosis::{name_meant, nearest};
use fmp_session::{LineMistake, NamedInterrupt, argument_of, word_of};
use std::alloc::{AllocError, Global};

/// The words that commands begin with.
const WORDS: [&str; 11] = [
    "run", "tick", "int", "until", "back", "why", "state", "load", "save", "help", "quit",
];

/// The names of the commands.
fn known_words(alloc: Global) -> Result<Vec<Name>, AllocError> {
    let mut known = Vec::new(alloc);
    for word in WORDS {
        if let Some(name) = Name::new(word.as_bytes()) {
            known.push(name)?;
        }
    }
    Ok(known)
}

/// The nearest word that a command begins with, if one is near.
fn meant(alloc: Global, name: &Name) -> Result<Option<&'static str>, AllocError> {
    let known = known_words(alloc)?;
    match nearest(alloc, name, &known)? {
        Some(place) => Ok(WORDS.get(place).copied()),
        None => Ok(None),
    }
}

/// What is said of a word that no command begins with, and of the nearest one that a command does begin with.
fn unknown_text(alloc: Global, word: &[u8]) -> Result<String, AllocError> {
    let Some(name) = Name::new(word) else {
        return String::from_str(alloc, "no command begins so");
    };
    let word = String::from_utf8_lossy(alloc, word)?;
    match meant(alloc, &name)? {
        Some(meant) => format!(in alloc; "`{word}` is not a command; did you mean `{meant}`?"),
        None => format!(in alloc; "`{word}` is not a command; `help` prints them"),
    }
}

/// A name, if it is another word than this one.
fn another(word: &[u8], name: Option<Name>) -> Option<Name> {
    let name = name?;
    if name.as_bytes() == word {
        None
    } else {
        Some(name)
    }
}

/// Asks whether one of these names was meant by another word, if one resembles it; else nothing.
pub fn asked_for(alloc: Global, word: &[u8], known: &[Name]) -> Result<String, AllocError> {
    let meant = match Name::new(word) {
        Some(name) => name_meant(alloc, &name, known)?,
        None => None,
    };
    question_text(alloc, another(word, meant))
}

/// The names of the bodies of these interrupts' handlers.
fn bodies_of(alloc: Global, interrupts: &[NamedInterrupt]) -> Result<Vec<Name>, AllocError> {
    let mut names = Vec::new(alloc);
    for interrupt in interrupts {
        names.push(interrupt.body)?;
    }
    Ok(names)
}

/// What a command with this first word expects.
fn wanted_text(
    alloc: Global,
    mistake: LineMistake,
    word: &[u8],
    processors: u8,
) -> Result<String, AllocError> {
    let word = String::from_utf8_lossy(alloc, word)?;
    match mistake {
        LineMistake::Unknown | LineMistake::Alone => {
            format!(in alloc; "nothing stands after `{word}`")
        }
        LineMistake::Processor if processors == 1 => {
            format!(in alloc; "`{word}` wants 1, the number of the only processor")
        }
        LineMistake::Processor => {
            format!(in alloc; "`{word}` wants the number of a processor, 1 to {processors}")
        }
        LineMistake::Interrupt => format!(in alloc;
            "`{word}` wants the number of an interrupt, 1 to 32, or a body that one interrupt has"
        ),
        LineMistake::Times => format!(in alloc;
            "`{word}` wants nothing after its number, or how often, x1 to x1048576"
        ),
        LineMistake::Count => {
            format!(in alloc; "`{word}` wants how many events, 1 to 1048576, or nothing")
        }
        LineMistake::Name => format!(in alloc; "`{word}` wants the name of a file"),
        LineMistake::Deed => format!(in alloc;
            "`{word}` wants a deed: a code as E_QOVR, a value as put(7), or a fault as F_IDX"
        ),
    }
}

/// What is said of a word that a command got in place of what it expects, of which these are known; nothing if it got
/// none.
fn got_text(alloc: Global, word: &[u8], known: &[Name]) -> Result<String, AllocError> {
    if word.is_empty() {
        return String::from_str(alloc, "");
    }
    let question = asked_for(alloc, word, known)?;
    let word = String::from_utf8_lossy(alloc, word)?;
    format!(in alloc; ", not `{word}`{question}")
}

/// What is said of the word after that of `run` or `int`, if it is to name a processor or an interrupt.
fn target_text(
    alloc: Global,
    mistake: LineMistake,
    line: &[u8],
    interrupts: &[NamedInterrupt],
) -> Result<String, AllocError> {
    let target = word_of(argument_of(line));
    match mistake {
        LineMistake::Processor => got_text(alloc, target, &[]),
        LineMistake::Interrupt => {
            let known = bodies_of(alloc, interrupts)?;
            got_text(alloc, target, &known)
        }
        _ => String::from_str(alloc, ""),
    }
}

/// What is said of a line that is no command, in a system with this many processors and these interrupts.
pub fn mistake_text(
    alloc: Global,
    mistake: LineMistake,
    line: &[u8],
    processors: u8,
    interrupts: &[NamedInterrupt],
) -> Result<String, AllocError> {
    if matches!(mistake, LineMistake::Unknown) {
        return unknown_text(alloc, word_of(line));
    }
    let wanted = wanted_text(alloc, mistake, word_of(line), processors)?;
    let got = target_text(alloc, mistake, line, interrupts)?;
    format!(in alloc; "{wanted}{got}")
}
