//! A run of the program, from the words of its command line to its status. `run` parses the words; `run_parsed` refuses
//! an option that does nothing; `run_with_settings` and `run_added` add the words of settings; `run_joined` parses them
//! together; `carry_out_with_settings` refuses to replace the file of settings; `carry_out` reads the command.
ghost use Rattle.std.specs.Prelude.{◌≡◌, ◌⊎◌, IfOk, IfSome, List, OnOk, map, string_bytes};
ghost use Rattle.clap.specs.Words.{Text, subcommand_rows_of};
ghost use Rattle.fmp_looking.specs.TestDeeds.{IsDone};
ghost use Rattle.fmp_view.specs.Ends.{Ends, IsOfSettings, RunsCommand, Shows, Tells};
ghost use Rattle.fmp_view.specs.Form.{IsEntered};

use crate::commands::carry_out;
use crate::parsing::parsed;
use crate::refusing::refuse_form;
use crate::settings::{Added, added_to, option_over_settings};
use crate::unused_options::unused_option;
use crate::word_mistakes::{option_without_use, output_over_settings};
use clap::ArgMatches;
use fmp_arguments::join;
use fmp_files::{Failure, Outside, WriteFault, end, failed, refuse_mistake};
use std::alloc::Global;
use std::io::{Input, IsTerminal};
use std::rt::Files;
use std::thread::Threads;
use std::time::Clock;

/// Tells which words settings add, if they add any.
fn tell_added<O: Outside>(alloc: Global, outside: &mut O, added: &Added) -> Result<(), Failure>
    ensures tells { OnOk result (Tells added.now (O.done outside.old) (O.done outside.new)) }
    ensures files { O.files outside.new ≡ O.files outside.old }
{
    if added.words.is_empty() {
        return Ok(());
    }
    if added.is_said {
        outside.say(added.line.as_str());
        return Ok(());
    }
    match outside.print(added.line.as_bytes()) {
        Ok(()) => Ok(()),
        Err(WriteFault::Device) => Err(failed(alloc, "-")),
    }
}

/// Does what the words of a command line ask for, unless a file that it writes is that of the settings that were read,
/// and gives the status.
fn carry_out_with_settings<O: Outside, R: Input + Files + Clock + Threads + Sync>(
    alloc: Global,
    outside: &mut O,
    rt: &R,
    words: &ArgMatches<'_>,
    settings: &str,
) -> u8
where
    R::Reader: IsTerminal,
    ensures { (typed : List Text) → IfSome (subcommand_rows_of words.now) (IsEntered typed) → IsDone result →
        RunsCommand (O.files outside.old) typed (O.done outside.old) (O.done outside.new) result }
{
    match option_over_settings(outside, words, settings) {
        Some((command, option)) => {
            refuse_mistake(outside, output_over_settings(alloc, command, option))
        }
        None => carry_out(alloc, outside, rt, words),
    }
}

/// Does what words ask for, with those of settings, unless a file that it writes is that of the settings, and gives the
/// status.
fn run_joined<O: Outside, R: Input + Files + Clock + Threads + Sync>(
    alloc: Global,
    outside: &mut O,
    rt: &R,
    words: &[String],
    settings: &str,
) -> u8
where
    R::Reader: IsTerminal,
    ensures { IsDone result → Shows (map string_bytes words.now) (O.done outside.old) (O.done outside.new)
        ⊎ RunsCommand (O.files outside.old) (map string_bytes words.now) (O.done outside.old) (O.done outside.new)
        result }
{
    match parsed(alloc, words) {
        Ok(parsed) => carry_out_with_settings(alloc, outside, rt, &parsed, settings),
        Err(error) => refuse_form(alloc, outside, words, &error),
    }
}

/// Does what typed words ask for with those that settings add, and gives the status. Before all else it tells which
/// these are.
fn run_added<O: Outside, R: Input + Files + Clock + Threads + Sync>(
    alloc: Global,
    outside: &mut O,
    rt: &R,
    typed: &[String],
    added: &Added,
) -> Result<u8, Failure>
where
    R::Reader: IsTerminal,
    requires { IsOfSettings (O.files outside.old) added.now }
    ensures { IfOk result (λ status. IsDone status → Ends (O.files outside.old) (map string_bytes typed.now)
        (O.done outside.old) (O.done outside.new) status) }
{
    let words = join(alloc, typed, &added.words)?;
    tell_added(alloc, outside, added)?;
    Ok(run_joined(alloc, outside, rt, &words, added.file.as_str()))
}

/// Does what words ask for with those of settings, if there are settings, and gives the status.
fn run_with_settings<O: Outside, R: Input + Files + Clock + Threads + Sync>(
    alloc: Global,
    outside: &mut O,
    rt: &R,
    typed: &[String],
    words: &ArgMatches<'_>,
) -> u8
where
    R::Reader: IsTerminal,
    requires { IfSome (subcommand_rows_of words.now) (IsEntered (map string_bytes typed.now)) }
    ensures { IsDone result → Ends (O.files outside.old) (map string_bytes typed.now) (O.done outside.old)
        (O.done outside.new) result }
{
    match added_to(alloc, outside, rt, words) {
        Ok(None) => carry_out(alloc, outside, rt, words),
        Ok(Some(added)) => match run_added(alloc, outside, rt, typed, &added) {
            Ok(status) => status,
            Err(failure) => end(outside, &failure),
        },
        Err(exit) => end(outside, &exit),
    }
}

/// Does what words ask for, unless one of their options says nothing beside another word, and gives the status.
fn run_parsed<O: Outside, R: Input + Files + Clock + Threads + Sync>(
    alloc: Global,
    outside: &mut O,
    rt: &R,
    typed: &[String],
    words: &ArgMatches<'_>,
) -> u8
where
    R::Reader: IsTerminal,
    requires { IfSome (subcommand_rows_of words.now) (IsEntered (map string_bytes typed.now)) }
    ensures { IsDone result → Ends (O.files outside.old) (map string_bytes typed.now) (O.done outside.old)
        (O.done outside.new) result }
{
    match unused_option(words) {
        Some(unused) => refuse_mistake(outside, option_without_use(alloc, unused)),
        None => run_with_settings(alloc, outside, rt, typed, words),
    }
}

/// Does what the words of a command line ask for, of which the first is the program's name, and gives the status.
/// Its standard input and the folders that it makes are those of this runtime.
pub fn run<O: Outside, R: Input + Files + Clock + Threads + Sync>(
    alloc: Global,
    outside: &mut O,
    rt: &R,
    words: &[String],
) -> u8
where
    R::Reader: IsTerminal,
    ensures { IsDone result → Ends (O.files outside.old) (map string_bytes words.now) (O.done outside.old)
        (O.done outside.new) result }
{
    match parsed(alloc, words) {
        Ok(parsed) => run_parsed(alloc, outside, rt, words, &parsed),
        Err(error) => refuse_form(alloc, outside, words, &error),
    }
}
