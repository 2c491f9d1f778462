//! How a program ends: what it says and prints, and its status. 0 is for what is done, 2 for a mistake in the words of
//! the command line, 3 for a failure; a program has a status of its own, 1, for a fault of what it read.
ghost use Rattle.std.specs.Prelude.{◌≡◌, ◌∷◌, ℕ, [], IfErr, IfSome, MatchResult};
ghost use Rattle.std.specs.Fmt.{with_newline};
ghost use Rattle.clap.specs.Words.{kind_of};
ghost use Rattle.fmp_files.specs.Deeds.{Does, Says, said};
ghost use Rattle.fmp_files.specs.Endings.{EndsPrinting, EndsRefused, SaysMemory};

use crate::failure::{Failure, failed};
use crate::outside::Outside;
use crate::writing::WriteFault;
use clap::Error;
use clap::error::ErrorKind;
use std::alloc::{AllocError, Global};
use std::fmt::Display;

/// Why a program ends with nothing printed. The message is one line.
pub trait Reason: Display {
    // The status that the program ends with.
    ghost status_of: { Self → ℕ };

    /// The status that the program ends with.
    fn status(&self) -> u8
        ensures { result ≡ status_of self.now };
}

impl Reason for Failure {
    ghost status_of = { λ _. 3 };

    fn status(&self) -> u8 {
        3
    }
}

/// Says why the program ends, and gives its status.
pub fn end<O: Outside, E: Reason>(outside: &mut O, reason: &E) -> u8
    ensures said { Says (O.done outside.old) (O.done outside.new) }
    ensures line { IfSome (with_newline (E.output reason.now)) (λ line.
        Does (O.done outside.old) (said line ∷ []) (O.done outside.new)) }
    ensures status { result ≡ E.status_of reason.now }
{
    outside.say(format_args!("{reason}\n"));
    reason.status()
}

/// Prints all that there is to print, and gives the status.
pub fn print<O: Outside>(alloc: Global, outside: &mut O, bytes: &[u8]) -> u8
    ensures { EndsPrinting bytes.now (O.output_can_fail outside.old)
        (O.done outside.old) (O.done outside.new) result }
{
    match outside.print(bytes) {
        Ok(()) => 0,
        Err(WriteFault::Device) => end(outside, &failed(alloc, "-")),
    }
}

/// Says what is wrong with the words of the command line, or prints what they ask to be shown, and gives the status.
pub fn refuse<O: Outside>(alloc: Global, outside: &mut O, error: &Error) -> u8
    ensures { EndsRefused (kind_of error.now) (O.output_can_fail outside.old)
        (O.done outside.old) (O.done outside.new) result }
{
    match error.kind() {
        ErrorKind::OutOfMemory => end(outside, &Failure::Memory(AllocError)),
        ErrorKind::DisplayHelp | ErrorKind::DisplayVersion => match error.to_string(alloc) {
            Ok(text) => print(alloc, outside, text.as_bytes()),
            Err(_) => end(outside, &Failure::Memory(AllocError)),
        },
        _ => {
            outside.say(format_args!("{error}"));
            2
        }
    }
}

/// Says what is wrong with words that fit the form of the command line, and gives the status: 2, or 3 if memory ran out
/// before the mistake could be said.
pub fn refuse_mistake<O: Outside>(outside: &mut O, mistake: Result<Error, AllocError>) -> u8
    ensures said { Says (O.done outside.old) (O.done outside.new) }
    ensures memory { IfErr mistake (λ _. SaysMemory (O.done outside.old) (O.done outside.new)) }
    ensures status { MatchResult mistake (λ _. result ≡ 2) (λ _. result ≡ 3) }
{
    match mistake {
        Ok(error) => {
            outside.say(format_args!("{error}"));
            2
        }
        Err(error) => end(outside, &Failure::Memory(error)),
    }
}
