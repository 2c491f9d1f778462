//! The known words that may have been meant by a word of a command line or of a text of expectations that names
//! nothing.
use fmp_base::{FAULTS, Name, TaskConfig};
use fmp_expect::CODES;
use std::alloc::{AllocError, Global};

/// Adds a word, if it can be a name.
pub fn add_name(known: &mut Vec<Name>, word: &str) -> Result<(), AllocError> {
    match Name::new(word.as_bytes()) {
        Some(name) => {
            known.push(name)?;
            Ok(())
        }
        None => Ok(()),
    }
}

/// Adds the codes, and the faults of bodies.
pub fn add_deeds(known: &mut Vec<Name>) -> Result<(), AllocError> {
    for code in CODES {
        add_name(known, code.name())?;
    }
    for fault in FAULTS {
        add_name(known, fault.name())?;
    }
    Ok(())
}

/// Adds the names of tasks.
pub fn add_tasks(known: &mut Vec<Name>, tasks: &[TaskConfig]) -> Result<(), AllocError> {
    for task in tasks {
        known.push(task.name)?;
    }
    Ok(())
}

/// The question whether a known word was meant, if one is near.
pub fn question_text(alloc: Global, meant: Option<Name>) -> Result<String, AllocError> {
    match meant {
        Some(name) => {
            let name = String::from_utf8_lossy(alloc, name.as_bytes())?;
            format!(in alloc; "; did you mean `{name}`?")
        }
        None => String::from_str(alloc, ""),
    }
}
