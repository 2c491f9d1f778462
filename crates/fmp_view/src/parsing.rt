//! The words of a command line, by the form of the program.
ghost use Rattle.std.specs.Prelude.{◌≡◌, ◌↔◌, IfErr, IfOk, IfSome, IsTrue, codes, map, string_bytes};
ghost use Rattle.clap.specs.Words.{kind_of, subcommand_rows_of};
ghost use Rattle.clap.specs.declared.error.kind.ErrorKind.TheVariants.{OutOfMemory};
ghost use Rattle.fmp_view.specs.Form.{IsEntered, IsRefused};

use crate::form::{plain_program, program};
use clap::error::ErrorKind;
use clap::{ArgMatches, Error};
use fmp_arguments::entered;
use std::alloc::Global;

/// Whether parsed words are those of `code`.
fn is_code(words: &ArgMatches<'_>) -> bool
    ensures { IsTrue result → IfSome (subcommand_rows_of words.now) (λ entered. entered.0 ≡ codes "code") }
{
    match entered(words) {
        Some((name, _)) => name == "code",
        None => false,
    }
}

/// Whether words are refused since memory ran out.
fn is_memory(refusal: &Error) -> bool
    ensures { IsTrue result ↔ (kind_of refusal.now ≡ OutOfMemory) }
{
    matches!(refusal.kind(), ErrorKind::OutOfMemory)
}

/// The words of `code`, where a number below 0 stands among them, by the arguments of the commands. An error says why
/// words are refused: this one, or that of the form in which such a number may stand.
fn parsed_with_numbers<'a>(
    alloc: Global,
    words: &'a [String],
    refusal: Error,
) -> Result<ArgMatches<'a>, Error>
    ensures { IfOk result (λ parsed. IfSome (subcommand_rows_of parsed) (λ entered. entered.0 ≡ codes "code")) }
{
    let parsed = program(alloc)?.try_get_matches_from(words)?;
    if is_code(&parsed) {
        Ok(parsed)
    } else {
        Err(refusal)
    }
}

/// The words of a command line, of which the first is the program's name, by the arguments of its commands. An error is
/// that of the words' form, or `OutOfMemory`.
pub fn parsed<'a>(alloc: Global, words: &'a [String]) -> Result<ArgMatches<'a>, Error>
    ensures entered { IfOk result (λ parsed. IfSome (subcommand_rows_of parsed)
        (IsEntered (map string_bytes words.entry.now))) }
    ensures refused { IfErr result (λ error. IsRefused (map string_bytes words.entry.now) (kind_of error)) }
{
    match plain_program(alloc)?.try_get_matches_from(words) {
        Ok(parsed) => Ok(parsed),
        Err(refusal) if is_memory(&refusal) => Err(refusal),
        Err(refusal) => parsed_with_numbers(alloc, words, refusal),
    }
}
