//! What the program is asked to do, and the words that say so.
ghost use Rattle.std.specs.Prelude.{◌≡◌, ◌≤◌, ◌↔◌, IfErr, IfOk, length, map};
ghost use Rattle.clap.specs.Words.{kind_of};
ghost use Rattle.clap.specs.declared.error.kind.ErrorKind.TheVariants.{ValueValidation};
ghost use Rattle.fmp.specs.Asked.{AsksFor, IsRefused};
ghost use Rattle.fmp.specs.CommandRanges.{KeepsRanges};

use crate::form::{build_command, host_command, program};
use crate::reading::{asked, entered};
use clap::Error;
use fmp_files::mistake_of;
use std::alloc::{AllocError, Global};

/// The message for an image that would replace a text from which it is built.
const IMAGE_OVER_TEXT: &str = "the file OUT is one of the two that are read";

/// The message for a journal that would replace the image that is run.
const JOURNAL_OVER_IMAGE: &str = "the file JOURNAL is the image that is read";

/// What the program is asked to do. Each word is the name of a file.
#[derive(Drop)]
pub enum Cmd {
    /// Check that a configuration and the bodies of its tasks have no fault.
    Check {
        config: String,
        tasks: String,
    },
    /// Build the image of a configuration and the bodies of its tasks.
    Build {
        config: String,
        tasks: String,
        image: String,
    },
    /// Run an image over the events of a steps text. `bound`, 1 to 2^48, limits how many instructions a body takes
    /// between two service calls.
    Sim {
        image: String,
        steps: String,
        bound: u64,
    },
    /// Run an image by threads, one for each of its processors, and write what happened to the file `journal`, as a
    /// steps text. Each processor has `turns` turns and the clock has `ticks` ticks, each 0 to 2^20. `bound`, 1 to
    /// 2^48, limits how many instructions a body takes between two service calls. A tick comes each `tick_us`
    /// microseconds, 1 to 1,000,000, or as soon as it can. Lines of standard input raise the interrupt of the number
    /// `interrupt`, 1 to 32.
    Host {
        image: String,
        journal: String,
        turns: u32,
        ticks: u32,
        bound: u64,
        tick_us: Option<u32>,
        interrupt: Option<u8>,
    },
    /// Build and run the texts that the program holds.
    Stored,
}

/// The error for an image that would replace a text from which it is built, which has the status 2.
pub fn image_over_text(alloc: Global) -> Result<Error, AllocError>
    ensures { IfOk result (λ e. kind_of e ≡ ValueValidation) }
{
    mistake_of(build_command(alloc), "fmp build", IMAGE_OVER_TEXT)
}

/// The error for a journal that would replace the image that is run, which has the status 2.
pub fn journal_over_image(alloc: Global) -> Result<Error, AllocError>
    ensures { IfOk result (λ e. kind_of e ≡ ValueValidation) }
{
    mistake_of(host_command(alloc), "fmp host", JOURNAL_OVER_IMAGE)
}

/// What the words of a command line ask for, of which the first is the program's name. With nothing else it is the run
/// of the texts that the program holds. An error has the kind of the first fault of the words' form (`ValueValidation`
/// for a number that is not in its range), or is `OutOfMemory`.
pub fn command<'a>(alloc: Global, words: &'a [&'a str]) -> Result<Cmd, Error>
    ensures asked { IfOk result (AsksFor (map (λ word. word.now) words.entry.now)) }
    ensures refused { IfErr result (λ e. IsRefused (map (λ word. word.now) words.entry.now) (kind_of e)) }
    ensures ranges { IfOk result KeepsRanges }
    ensures stored { (result ≡ Ok Cmd.Stored) ↔ (length words.entry.now ≤ 1) }
{
    if words.len() <= 1 {
        return Ok(Cmd::Stored);
    }
    let matches = program(alloc)?.try_get_matches_from(words)?;
    let (name, words) = entered(&matches).unwrap();
    Ok(asked(alloc, name, words)?)
}
