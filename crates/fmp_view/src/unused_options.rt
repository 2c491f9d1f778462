//! Options that say nothing beside another word of their command.
ghost use Rattle.std.specs.Prelude.{◌≡◌, IfSome, IsSomeAnd, find, true};
ghost use Rattle.clap.specs.Words.{found_of, rows_of, subcommand_rows_of};
ghost use Rattle.fmp_view.specs.UnusedOptions as spec;

use clap::ArgMatches;
use clap::parser::ValueSource;
use fmp_arguments::entered;

/// An option that says nothing beside another argument of its command.
#[derive(Clone, Copy)]
pub struct UnusedOption {
    pub command: &'static str,
    pub option: &'static str,
    /// The other argument.
    pub beside: &'static str,
}

/// The options that say nothing beside another argument: those of a drive beside steps, and those of stretches beside a
/// recording.
const UNUSED_OPTIONS: [UnusedOption; 11] = [
    UnusedOption {
        command: "run",
        option: "events",
        beside: "STEPS",
    },
    UnusedOption {
        command: "run",
        option: "seed",
        beside: "STEPS",
    },
    UnusedOption {
        command: "run",
        option: "events",
        beside: "recording",
    },
    UnusedOption {
        command: "run",
        option: "seed",
        beside: "recording",
    },
    UnusedOption {
        command: "run",
        option: "bound",
        beside: "recording",
    },
    UnusedOption {
        command: "why",
        option: "bound",
        beside: "recording",
    },
    UnusedOption {
        command: "expect",
        option: "bound",
        beside: "recording",
    },
    UnusedOption {
        command: "stats",
        option: "bound",
        beside: "recording",
    },
    UnusedOption {
        command: "waves",
        option: "bound",
        beside: "recording",
    },
    UnusedOption {
        command: "timeline",
        option: "bound",
        beside: "recording",
    },
    UnusedOption {
        command: "diff",
        option: "bound",
        beside: "recordings",
    },
];

impl UnusedOption {
    /// The other argument as help shows it.
    pub fn shown(self) -> &'static str {
        match self.beside {
            "recording" => "--recording <FILE>",
            "recordings" => "--recordings",
            _ => "[STEPS]",
        }
    }
}

/// Whether a value is that of words, and not of a default.
fn is_given(source: ValueSource) -> bool
    ensures { result ≡ spec.is_given source }
{
    match source {
        ValueSource::CommandLine => true,
        ValueSource::DefaultValue => false,
    }
}

/// Whether an argument is typed.
fn is_typed(words: &ArgMatches<'_>, id: &str) -> bool
    ensures { result ≡ spec.is_typed (rows_of (found_of words.now)) id.now }
{
    match words.value_source(id) {
        Some(source) => is_given(source),
        None => false,
    }
}

/// Whether these words of a command of this name have an option beside the argument beside which it says nothing.
fn is_unused(unused: &UnusedOption, command: &str, words: &ArgMatches<'_>) -> bool
    ensures { result ≡ spec.is_unused command.now (rows_of (found_of words.now)) unused.now }
{
    unused.command == command && is_typed(words, unused.option) && is_typed(words, unused.beside)
}

/// The first of these options that says nothing beside another word of a command of this name, if there is one.
fn first_unused(
    options: &[UnusedOption],
    command: &str,
    words: &ArgMatches<'_>,
) -> Option<UnusedOption>
    ensures first { result ≡ find (spec.is_unused command.now (rows_of (found_of words.now))) options.now }
    ensures unused { IfSome result (λ unused. spec.is_unused command.now (rows_of (found_of words.now)) unused ≡ true) }
{
    for unused in options {
        if is_unused(unused, command, words) {
            return Some(*unused);
        }
    }
    None
}

/// The option of the words of a command line that says nothing beside another one of them, if there is one.
pub fn unused_option(words: &ArgMatches<'_>) -> Option<UnusedOption>
    ensures { IfSome result (λ unused. IsSomeAnd (subcommand_rows_of words.now)
        (λ p. spec.is_unused p.0 p.1 unused ≡ true)) }
{
    match entered(words) {
        Some((command, words)) => first_unused(&UNUSED_OPTIONS, command, words),
        None => None,
    }
}
