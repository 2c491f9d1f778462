//! What is wrong with words that have the form of a command.
use crate::export_form::export_command;
use crate::form::{expect_command, forms, program, run_command, timeline_command, waves_command};
use crate::import_form::import_command;
use crate::unused_options::UnusedOption;
use clap::Error;
use fmp_arguments::command_of;
use fmp_files::{mistake, mistake_of};
use fmp_searching::said_of_code;
use std::alloc::{AllocError, Global};

/// The message for a word that is no code.
const NO_CODE: &str = "there is no such code";

/// The message for a file that would replace one that is read.
const OUT_OVER_INPUT: &str = "the file OUT is one of those that are read";

/// The message for a report that would replace a file that is read.
const REPORT_OVER_INPUT: &str = "the file of --junit is one of those that are read";

/// The message for a tracefile that would replace a file that is read.
const LCOV_OVER_INPUT: &str = "the file of --lcov is one of those that are read";

/// The message for a table of coverage that would replace a file that is read.
const COVERAGE_OVER_INPUT: &str = "the file of --coverage is one of those that are read";

/// The message for a tracefile and a table of coverage that would be one file.
const COVERAGE_TWICE: &str = "--lcov and --coverage name one file";

/// The message for files of a folder that would replace one that is read.
const FILES_OVER_INPUT: &str = "a file of the folder DIR is one of the two that are read";

/// The message for a constant that has no value.
const NO_CONSTANT: &str =
    "--define wants NAME=VALUE, where VALUE is a number or made of known constants";

/// The message for a configuration that would replace the one that is read.
const OUT_OVER_CONFIGURATION: &str = "the file OUT is one of those that are read";

/// The message for a picture that ends before it begins.
const FROM_AFTER_TO: &str = "--from is later than --to";

/// The error for words that fit the form of the command of this name.
fn mistake_in(alloc: Global, command: &str, why: &str) -> Result<Error, AllocError> {
    let name = format!(in alloc; "fmp_view {command}")?;
    for form in forms() {
        if form.name == command {
            return mistake_of(command_of(alloc, form), name.as_str(), why);
        }
    }
    mistake(program(alloc), why)
}

/// The error for an option that names the file of settings that was read as one to write, which has the status 2.
pub fn output_over_settings(
    alloc: Global,
    command: &str,
    option: &str,
) -> Result<Error, AllocError> {
    let why = format!(in alloc; "the file of --{option} is one of those that are read")?;
    mistake_in(alloc, command, why.as_str())
}

/// The error for an option that says nothing beside another word, which has the status 2.
pub fn option_without_use(alloc: Global, unused: UnusedOption) -> Result<Error, AllocError> {
    let (option, shown) = (unused.option, unused.shown());
    let why = format!(in alloc; "the argument '--{option}' cannot be used with '{shown}'")?;
    mistake_in(alloc, unused.command, why.as_str())
}

/// The error for a word that is no code, which has the status 2.
pub fn no_code(alloc: Global, word: &str) -> Result<Error, AllocError> {
    let why = said_of_code(alloc, NO_CODE, word)?;
    mistake(program(alloc), &why)
}

/// The error for a dump that would replace a file that is read, which has the status 2.
pub fn dump_over_input(alloc: Global) -> Result<Error, AllocError> {
    mistake_of(waves_command(alloc), "fmp_view waves", OUT_OVER_INPUT)
}

/// The error for a report that would replace a file that is read, which has the status 2.
pub fn report_over_input(alloc: Global) -> Result<Error, AllocError> {
    mistake_of(expect_command(alloc), "fmp_view expect", REPORT_OVER_INPUT)
}

/// The error for a tracefile that would replace a file that is read, which has the status 2.
pub fn lcov_over_input(alloc: Global) -> Result<Error, AllocError> {
    mistake_of(run_command(alloc), "fmp_view run", LCOV_OVER_INPUT)
}

/// The error for a table of coverage that would replace a file that is read, which has the status 2.
pub fn coverage_over_input(alloc: Global) -> Result<Error, AllocError> {
    mistake_of(run_command(alloc), "fmp_view run", COVERAGE_OVER_INPUT)
}

/// The error for a tracefile and a table of coverage that would be one file, which has the status 2.
pub fn coverage_twice(alloc: Global) -> Result<Error, AllocError> {
    mistake_of(run_command(alloc), "fmp_view run", COVERAGE_TWICE)
}

/// The error for C that would replace a file that is read, which has the status 2.
pub fn files_over_input(alloc: Global) -> Result<Error, AllocError> {
    mistake_of(export_command(alloc), "fmp_view export", FILES_OVER_INPUT)
}

/// The error for a constant that has no value, which has the status 2.
pub fn no_constant(alloc: Global) -> Result<Error, AllocError> {
    mistake_of(import_command(alloc), "fmp_view import", NO_CONSTANT)
}

/// The error for a configuration that would replace a file that is read, which has the status 2.
pub fn out_over_configuration(alloc: Global) -> Result<Error, AllocError> {
    mistake_of(
        import_command(alloc),
        "fmp_view import",
        OUT_OVER_CONFIGURATION,
    )
}

/// The error for words of `timeline` that have the right form.
fn no_picture(alloc: Global, why: &str) -> Result<Error, AllocError> {
    mistake_of(timeline_command(alloc), "fmp_view timeline", why)
}

/// The error for a picture that would replace a file that is read, which has the status 2.
pub fn picture_over_input(alloc: Global) -> Result<Error, AllocError> {
    no_picture(alloc, OUT_OVER_INPUT)
}

/// The error for a picture that ends before it begins, which has the status 2.
pub fn picture_of_nothing(alloc: Global) -> Result<Error, AllocError> {
    no_picture(alloc, FROM_AFTER_TO)
}
