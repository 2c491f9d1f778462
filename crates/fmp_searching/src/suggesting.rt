//! What is said of a word of the command line that names nothing known, and of the known word that it resembles.
use fmp_arguments::{add_deeds, add_name, add_tasks, question_text};
use fmp_base::{Name, TaskConfig};
use fmp_diagnosis::{TOPICS, name_meant};
use std::alloc::{AllocError, Global};

/// A name, if it is another word than this one.
fn another(word: &str, name: Option<Name>) -> Option<Name> {
    let name = name?;
    if name.as_bytes() == word.as_bytes() {
        None
    } else {
        Some(name)
    }
}

/// Says why a word is mistaken and which one it is, and asks whether a known word was meant, if one is like it.
fn said_of(
    alloc: Global,
    why: &str,
    word: &str,
    part: &str,
    known: &[Name],
) -> Result<String, AllocError> {
    let meant = match Name::new(part.as_bytes()) {
        Some(name) => name_meant(alloc, &name, known)?,
        None => None,
    };
    let question = question_text(alloc, another(part, meant))?;
    format!(in alloc; "{why}: `{word}`{question}")
}

/// What is said of a word that is no code, where this is why it should be one. `AllocError` if memory runs out.
pub fn said_of_code(alloc: Global, why: &str, word: &str) -> Result<String, AllocError> {
    let mut known = Vec::new(alloc);
    for topic in &TOPICS {
        add_name(&mut known, topic.word())?;
    }
    said_of(alloc, why, word, word, &known)
}

/// What is said of a word that does not say what must never happen, where this is why it should. `AllocError` if memory
/// runs out.
pub fn said_of_never(alloc: Global, why: &str, word: &str) -> Result<String, AllocError> {
    let mut known = Vec::new(alloc);
    add_deeds(&mut known)?;
    let part = match word.split_once(':') {
        Some((code, _)) => code,
        None => word,
    };
    said_of(alloc, why, word, part, &known)
}

/// What is said of a word that is the name of none of these tasks, where this is why it should be one. `AllocError` if
/// memory runs out.
pub fn said_of_task(
    alloc: Global,
    why: &str,
    word: &str,
    tasks: &[TaskConfig],
) -> Result<String, AllocError> {
    let mut known = Vec::new(alloc);
    add_tasks(&mut known, tasks)?;
    said_of(alloc, why, word, word, &known)
}
