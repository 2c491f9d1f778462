//! What the words of `test` ask, and what is wrong with words that ask for nothing.
ghost use Rattle.clap.specs.Words.{found_of, rows_of};
ghost use Rattle.fmp_looking.specs.Asked.{AreCoverageFiles, IsTesting};

use crate::test_form::test_command;
use crate::wanted::{CoverageFiles, Testing};
use clap::{ArgMatches, Error};
use fmp_arguments::{bound_of, flag_of, text_of, word_of, word32_of, words_of};
use fmp_files::mistake_of;
use std::alloc::{AllocError, Global};

/// The message where nothing is expected.
const NOTHING_EXPECTED: &str = "--expect FILE says what runs must do";

/// The message for a word that says nothing of an interrupt.
const NO_RATE: &str =
    "--int wants I:N, an interrupt from 1 to 32 and in how many events it comes once, at least 2, as 3:50";

/// The message for an interrupt that is named twice.
const INTERRUPT_TWICE: &str = "two of --int name one interrupt";

/// The message for a clock that advances in each event.
const TICK_EVERY_EVENT: &str =
    "--every-tick 1 leaves no event to tasks; it may be 0, or 2 to 2^32 - 1";

/// The message for a report that would replace a file that is read.
const REPORT_OVER_INPUT: &str = "the file of --junit is one of those that are read";

/// The message for a tracefile, or a table of coverage, that would replace a file that is read.
const COVERAGE_OVER_INPUT: &str = "the file of --lcov or --coverage is one of those that are read";

/// The message for a file that would be written twice.
const WRITTEN_TWICE: &str = "two of --junit, --lcov and --coverage name one file";

/// What is wrong with words that fit the form of `test`.
#[derive(Clone, Copy)]
pub enum TestMistake {
    /// No file of expectations is named.
    NothingExpected,
    /// A word says nothing of an interrupt.
    Rate,
    /// Two words are of one interrupt.
    InterruptTwice,
    /// The clock advances in each event.
    TickEveryEvent,
    /// The file of a report is one of those that are read.
    ReportOverInput,
    /// The file of a tracefile or of a table of coverage is.
    CoverageOverInput,
    /// Two of the files that are written are one.
    WrittenTwice,
}

/// The files to which the coverage of runs is written.
pub fn files_of<'a>(words: &ArgMatches<'a>) -> CoverageFiles<'a>
    ensures { AreCoverageFiles (rows_of (found_of words.now)) result }
{
    CoverageFiles {
        lcov: text_of(words, "lcov"),
        coverage: text_of(words, "coverage"),
    }
}

/// What the words of `test` ask for.
pub fn testing_of<'m>(words: &'m ArgMatches<'_>) -> Testing<'m>
    ensures { IsTesting (rows_of (found_of words.now)) result }
{
    Testing {
        cfg: word_of(words, "CFG"),
        src: word_of(words, "SRC"),
        expect: text_of(words, "expect"),
        rates: words_of(words, "int"),
        tick: word32_of(words, "every-tick").unwrap_or(0),
        events: word32_of(words, "events").unwrap_or(1),
        seeds: word32_of(words, "seeds").unwrap_or(1),
        jobs: word32_of(words, "jobs").unwrap_or(1),
        bound: bound_of(words),
        junit: text_of(words, "junit"),
        json: flag_of(words, "json"),
        files: files_of(words),
    }
}

/// The error for words that fit the form of `test` and ask for nothing, which has the status 2.
pub fn test_mistake(alloc: Global, mistake: TestMistake) -> Result<Error, AllocError> {
    let why = match mistake {
        TestMistake::NothingExpected => NOTHING_EXPECTED,
        TestMistake::Rate => NO_RATE,
        TestMistake::InterruptTwice => INTERRUPT_TWICE,
        TestMistake::TickEveryEvent => TICK_EVERY_EVENT,
        TestMistake::ReportOverInput => REPORT_OVER_INPUT,
        TestMistake::CoverageOverInput => COVERAGE_OVER_INPUT,
        TestMistake::WrittenTwice => WRITTEN_TWICE,
    };
    mistake_of(test_command(alloc), "fmp_view test", why)
}
