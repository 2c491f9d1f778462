//! The fault of two texts, or their warnings, as they are printed.
ghost use Rattle.std.specs.Prelude.{◌≡◌, ◌⊎◌, IfOk};
ghost use Rattle.fmp_searching.specs.Claimed.{IsFile, IsNamedFile, PrintsNothing};
ghost use Rattle.fmp_searching.specs.Deeds.{TellsOnly};
ghost use Rattle.fmp_searching.specs.Shown.{IsShownIn, IsShownOver, ShowsTexts, text_of};
ghost use Rattle.fmp_warnings.specs.Verdicts.{IsShown};

use crate::reading::{read_both, read_named};
use fmp_diagnosis::Texts;
use fmp_files::{Failure, Outside, end, print};
use fmp_warnings::{FileNames, Form, Shown, shown_fault};
use std::alloc::Global;

/// What is shown of two texts, and of the steps of a file if there are steps.
fn shown_over<O: Outside>(
    alloc: Global,
    outside: &O,
    names: FileNames<'_>,
    form: Form,
    texts: Texts<'_>,
) -> Result<Shown, Failure>
    ensures { IfOk result (IsShownOver (O.files outside.now) form names.entry texts.entry) }
{
    let steps = read_named(alloc, outside, names.steps)?;
    shown_fault(alloc, form, names, texts, &steps).map_err(|error| Failure::Memory(error))
}

/// What is shown of the texts of these files.
fn shown_of<O: Outside>(
    alloc: Global,
    outside: &O,
    names: FileNames<'_>,
    form: Form,
) -> Result<Shown, Failure>
    ensures { IfOk result (IsShownIn (O.files outside.now) form names.entry) }
{
    let (cfg, src) = read_both(alloc, outside, names.cfg, names.src)?;
    let texts = Texts {
        cfg: &cfg,
        src: &src,
    };
    shown_over(alloc, outside, names, form, texts)
}

/// What is printed.
fn text_of(shown: &Shown) -> &[u8]
    ensures { result.now ≡ text_of shown.now }
{
    match shown {
        Shown::Faulty(text) | Shown::Sound(text) => text,
    }
}

/// Prints the fault of the texts of these files, with status 1, or their warnings; the status is 3 after a failure.
pub fn print_fault<O: Outside>(
    alloc: Global,
    outside: &mut O,
    names: FileNames<'_>,
    form: Form,
) -> u8
    ensures status { (result ≡ 0) ⊎ (result ≡ 1) ⊎ (result ≡ 3) }
    ensures shown { PrintsNothing (O.done outside.old) (O.done outside.new)
        ⊎ ShowsTexts (O.files outside.old) form names.entry (O.done outside.old) (O.done outside.new) }
    ensures tells { TellsOnly (O.done outside.old) (O.done outside.new) }
{
    match shown_of(alloc, outside, names, form) {
        Ok(shown) => print(alloc, outside, text_of(&shown)).max(shown.status()),
        Err(exit) => end(outside, &exit),
    }
}
