//! The words of a command line, and what is wrong with words that fit its form.
ghost use Rattle.std.specs.Prelude.{◌≡◌, ◌⊎◌, IfOk};
ghost use Rattle.clap.specs.Words.{kind_of};
ghost use Rattle.fmp_files.specs.Deeds.{Says};

use crate::ending::{end, refuse_mistake};
use crate::failure::Failure;
use crate::outside::Outside;
use clap::error::ErrorKind;
use clap::{Command, Error};
use std::alloc::AllocError;
use std::{env, io};

/// What is said of words that are not UTF-8.
const NOT_TEXT: &str = "invalid UTF-8 was detected in one or more arguments";

/// Why the words of a command line cannot be read.
#[derive(Drop)]
pub enum WordsFault {
    /// A word is not UTF-8.
    NotText,
    /// Memory ran out.
    Memory(AllocError),
}

/// The words of the command line, of which the first is the program's name.
pub fn words_of(rt: &HostRuntime) -> Result<Vec<String>, WordsFault> {
    match env::args(rt) {
        Ok(words) => words
            .collect(rt.alloc())
            .map_err(|error| WordsFault::Memory(error)),
        Err(error) if error.kind() == io::ErrorKind::OutOfMemory => {
            Err(WordsFault::Memory(AllocError))
        }
        Err(_) => Err(WordsFault::NotText),
    }
}

/// The error for a mistake in the words of a command, which has the status 2.
pub fn mistake(command: Result<Command<'_>, AllocError>, text: &str) -> Result<Error, AllocError>
    ensures { IfOk result (λ e. kind_of e ≡ ErrorKind.ValueValidation) }
{
    command?.error(ErrorKind::ValueValidation, text)
}

/// The error for a mistake in the words of the subcommand of this name, which has the status 2.
pub fn mistake_of(
    command: Result<Command<'_>, AllocError>,
    name: &str,
    text: &str,
) -> Result<Error, AllocError>
    ensures { IfOk result (λ e. kind_of e ≡ ErrorKind.ValueValidation) }
{
    mistake(command?.bin_name(name), text)
}

/// Says why the words of the command line of this program cannot be read, and gives the status.
pub fn refuse_words<O: Outside>(
    outside: &mut O,
    program: Result<Command<'_>, AllocError>,
    fault: WordsFault,
) -> u8
    ensures said { Says (O.done outside.old) (O.done outside.new) }
    ensures status { (result ≡ 2) ⊎ (result ≡ 3) }
{
    match fault {
        WordsFault::NotText => refuse_mistake(outside, mistake(program, NOT_TEXT)),
        WordsFault::Memory(error) => end(outside, &Failure::Memory(error)),
    }
}
