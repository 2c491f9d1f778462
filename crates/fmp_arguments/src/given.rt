//! What the words of a command line say for an argument.
ghost use Rattle.std.specs.Prelude.{◌≡◌, codes, map, option_map};
ghost use Rattle.clap.specs.Words.{first_of, found_of, rows_of, subcommand_rows_of};
ghost use Rattle.fmp_arguments.specs.Given.{HasFlag, HasNumber, HasNumberOr, word_for, words_for};

use clap::ArgMatches;

/// The subcommand that the words name, and what they say to it.
pub fn entered<'m, 'a>(words: &'m ArgMatches<'a>) -> Option<(&'a str, &'m ArgMatches<'a>)>
    ensures { option_map (λ p. (p.0.now, rows_of (found_of p.1.now))) result ≡ subcommand_rows_of words.now }
{
    words.subcommand()
}

/// The word for an argument, if there is one.
pub fn text_of<'a>(words: &ArgMatches<'a>, id: &str) -> Option<&'a str>
    ensures { option_map (λ word. word.now) result ≡ first_of id.now (rows_of (found_of words.now)) }
{
    words.get_str(id)
}

/// The word for an argument; an empty one if there is none.
pub fn word_of<'a>(words: &ArgMatches<'a>, id: &str) -> &'a str
    ensures { result.now ≡ word_for (rows_of (found_of words.now)) id.now }
{
    text_of(words, id).unwrap_or("")
}

/// The words for an argument that may be given again, in their order.
pub fn words_of<'m, 'a: 'm>(words: &'m ArgMatches<'a>, id: &str) -> &'m [&'m str]
    ensures { map (λ word. word.now) result.now ≡ words_for (rows_of (found_of words.now)) id.now }
{
    words.get_strs(id).unwrap_or(&[])
}

/// Whether a flag is given.
pub fn flag_of(words: &ArgMatches<'_>, id: &str) -> bool
    ensures { HasFlag (rows_of (found_of words.now)) id.now result }
{
    words.get_flag(id)
}

/// The number of 8 bits for an argument, if there is one.
pub fn byte_of(words: &ArgMatches<'_>, id: &str) -> Option<u8>
    ensures { HasNumber 8 (rows_of (found_of words.now)) id.now result }
{
    words.get_one::<u8>(id)
}

/// The number of 32 bits for an argument, if there is one.
pub fn word32_of(words: &ArgMatches<'_>, id: &str) -> Option<u32>
    ensures { HasNumber 32 (rows_of (found_of words.now)) id.now result }
{
    words.get_one::<u32>(id)
}

/// The number of 64 bits for an argument, if there is one.
pub fn word64_of(words: &ArgMatches<'_>, id: &str) -> Option<u64>
    ensures { HasNumber 64 (rows_of (found_of words.now)) id.now result }
{
    words.get_one::<u64>(id)
}

/// The bound that the command line gives.
pub fn bound_of(words: &ArgMatches<'_>) -> u64
    ensures { HasNumberOr 64 1 (rows_of (found_of words.now)) (codes "bound") result }
{
    word64_of(words, "bound").unwrap_or(1)
}
