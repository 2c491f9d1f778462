//! What a subcommand and its words ask for.
ghost use Rattle.std.specs.Prelude.{◌≡◌, IfOk, IfSome, codes, option_map, string_bytes};
ghost use Rattle.clap.specs.Words.{found_of, rows_of, subcommand_rows_of};
ghost use Rattle.fmp.specs.Asked.{HasNumber, HasNumberIfGiven, HasWord, HasWords, IsAsked, IsGiven, IsGivenBound};
ghost use Rattle.fmp.specs.Asked.{IsGivenCount, IsNumberIfGiven};
ghost use Rattle.fmp.specs.CommandRanges.{IsBound, IsCount, IsInterrupt, IsPeriod, KeepsRanges};

use crate::asking::Cmd;
use clap::ArgMatches;
use std::alloc::{AllocError, Global};

/// The subcommand that the words name, and what they say to it.
pub fn entered<'m, 'a>(words: &'m ArgMatches<'a>) -> Option<(&'a str, &'m ArgMatches<'a>)>
    ensures { option_map (λ p. (p.0.now, rows_of (found_of p.1.now))) result ≡ subcommand_rows_of words.now }
{
    words.subcommand()
}

/// The name of a file that the words give.
fn name_of(alloc: Global, words: &ArgMatches<'_>, id: &str) -> Result<String, AllocError>
    requires { IsGiven (rows_of (found_of words.now)) id.now }
    ensures { IfOk result (λ name. HasWord (rows_of (found_of words.now)) id.now (string_bytes name)) }
{
    String::from_str(alloc, words.get_str(id).unwrap())
}

/// The names of two files that the words give.
fn two_names_of(
    alloc: Global,
    words: &ArgMatches<'_>,
    one: &str,
    two: &str,
) -> Result<(String, String), AllocError>
    requires one { IsGiven (rows_of (found_of words.now)) one.now }
    requires two { IsGiven (rows_of (found_of words.now)) two.now }
    ensures one { IfOk result (λ names. HasWord (rows_of (found_of words.now)) one.now (string_bytes names.0)) }
    ensures two { IfOk result (λ names. HasWord (rows_of (found_of words.now)) two.now (string_bytes names.1)) }
{
    Ok((name_of(alloc, words, one)?, name_of(alloc, words, two)?))
}

/// The bound that the words give.
fn bound_of(words: &ArgMatches<'_>) -> u64
    requires { IsGivenBound (rows_of (found_of words.now)) (codes "bound") }
    ensures number { HasNumber (rows_of (found_of words.now)) (codes "bound") result }
    ensures range { IsBound result }
{
    words.get_one::<u64>("bound").unwrap()
}

/// The number of turns or ticks that the words give.
fn count_of(words: &ArgMatches<'_>, id: &str) -> u32
    requires { IsGivenCount (rows_of (found_of words.now)) id.now }
    ensures number { HasNumber (rows_of (found_of words.now)) id.now result }
    ensures range { IsCount result }
{
    words.get_one::<u32>(id).unwrap()
}

/// How many microseconds there are from tick to tick, if the words give it.
fn tick_us_of(words: &ArgMatches<'_>) -> Option<u32>
    requires { IsNumberIfGiven 1000000 (rows_of (found_of words.now)) (codes "tick-us") }
    ensures number { HasNumberIfGiven (rows_of (found_of words.now)) (codes "tick-us") result }
    ensures range { IfSome result IsPeriod }
{
    words.get_one::<u32>("tick-us")
}

/// The interrupt that the words give, if they do.
fn interrupt_of(words: &ArgMatches<'_>) -> Option<u8>
    requires { IsNumberIfGiven 32 (rows_of (found_of words.now)) (codes "int") }
    ensures number { HasNumberIfGiven (rows_of (found_of words.now)) (codes "int") result }
    ensures range { IfSome result IsInterrupt }
{
    words.get_one::<u8>("int")
}

/// What a subcommand of this name asks for with its words.
pub fn asked(alloc: Global, name: &str, words: &ArgMatches<'_>) -> Result<Cmd, AllocError>
    requires { HasWords name.now (rows_of (found_of words.now)) }
    ensures asked { IfOk result (IsAsked name.now (rows_of (found_of words.now))) }
    ensures ranges { IfOk result KeepsRanges }
{
    match name {
        "check" => {
            let (config, tasks) = two_names_of(alloc, words, "CFG", "SRC")?;
            Ok(Cmd::Check { config, tasks })
        }
        "build" => {
            let image = name_of(alloc, words, "OUT")?;
            let (config, tasks) = two_names_of(alloc, words, "CFG", "SRC")?;
            Ok(Cmd::Build {
                config,
                tasks,
                image,
            })
        }
        "sim" => {
            let (image, steps) = two_names_of(alloc, words, "IMAGE", "STEPS")?;
            Ok(Cmd::Sim {
                image,
                steps,
                bound: bound_of(words),
            })
        }
        _ => {
            let (image, journal) = two_names_of(alloc, words, "IMAGE", "JOURNAL")?;
            Ok(Cmd::Host {
                image,
                journal,
                turns: count_of(words, "turns"),
                ticks: count_of(words, "ticks"),
                bound: bound_of(words),
                tick_us: tick_us_of(words),
                interrupt: interrupt_of(words),
            })
        }
    }
}
