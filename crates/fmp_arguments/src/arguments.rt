//! The arguments of the commands, as the command line and its help have them.
ghost use Rattle.std.specs.Prelude.{◌≡◌, IfOk, IsFalse, false};
ghost use Rattle.clap.specs.Words.{app_of, new_app, rule_of};
ghost use Rattle.fmp_arguments.specs.Forms.{app_of_form, flag, number, rule_by, rule_of_argument, text, valued};

use clap::builder::ValueParser;
use clap::{Arg, ArgAction, Command};
use std::alloc::{AllocError, Global};

/// What a bound is.
const BOUND: &str = "How many instructions a body may take in a step, 1 to 2^48; where its next
service call is farther, its next step goes on from there";

/// The largest bound, 2^48.
pub const BOUND_MAX: u64 = 281_474_976_710_656;

/// The largest number of events, 2^20.
pub const EVENTS_MAX: u32 = 1_048_576;

/// What the value of an option is.
#[derive(Clone, Copy)]
pub enum OptionValue {
    /// A text.
    Text,
    /// One of these words: the words, and the one where none is given.
    OneOf(&'static [&'static str], &'static str),
    /// A number: the lowest, and the highest.
    Number(u64, u64),
    /// Such a number, and the one where none is given.
    Default(u64, u64, &'static str),
}

/// What an argument of a command is.
#[derive(Clone, Copy)]
pub enum ArgumentKind {
    /// A word that has to be there.
    Word,
    /// A word that may be left out.
    MayBeWord,
    /// A word that has to be there, unless a recording is given: then it must not be there.
    WordNoRecording,
    /// A word that has to be there, and may be a negative number.
    WordOrNegative,
    /// An option without a value.
    Flag,
    /// An option without a value that does not go with this other one.
    FlagWithout(&'static str),
    /// An option with a value, which help calls so.
    Option(&'static str, OptionValue),
    /// An option with a text, which help calls so, that does not go with this other one.
    TextWithout(&'static str, &'static str),
    /// An option with a text, which help calls so, that may be given again.
    Again(&'static str),
    /// An option with a text, which help calls so: it or the other option has to be given, and not both.
    Either(&'static str, &'static str),
}

/// An argument of a command: its name, what it is, and what help says of it.
pub struct Argument(pub &'static str, pub ArgumentKind, pub &'static str);

/// A command as help shows it.
pub struct CommandForm {
    pub name: &'static str,
    pub about: &'static str,
    pub arguments: &'static [Argument],
    /// What stands below the arguments.
    pub example: &'static str,
}

/// The file of the configuration.
pub const CFG: Argument = Argument(
    "CFG",
    ArgumentKind::Word,
    "Configuration, as 'fmp check' reads it",
);

/// The file of the bodies.
pub const SRC: Argument = Argument(
    "SRC",
    ArgumentKind::Word,
    "Bodies of its tasks and handlers",
);

/// The bound of a stretch.
pub const BOUNDED: Argument = Argument(
    "bound",
    ArgumentKind::Option("N", OptionValue::Default(1, BOUND_MAX, "100000")),
    BOUND,
);

/// Asks for objects of JSON.
pub const JSON: Argument = Argument(
    "json",
    ArgumentKind::Flag,
    "Print an object of JSON a line, for other programs",
);

/// Asks for a report of tests.
pub const JUNIT: Argument = Argument(
    "junit",
    ArgumentKind::Option("FILE", OptionValue::Text),
    "Write a report to FILE too, in the XML of JUnit: each line of the text of expectations is a test",
);

/// Leaves out the settings.
pub const NO_SETTINGS: Argument = Argument(
    "no-settings",
    ArgumentKind::Flag,
    "Leave out the options of the file fmp.toml that stands beside the system",
);

/// An option of this name with a text, which help calls so.
fn text<'a>(alloc: Global, id: &'a str, name: &'a str) -> Arg<'a>
    ensures rule { rule_of result ≡ text id.entry.now }
    ensures local { IsFalse result.global }
{
    Arg::new(alloc, id).long(id).value_name(name)
}

/// An option of this name without a value.
fn flag<'a>(alloc: Global, id: &'a str) -> Arg<'a>
    ensures rule { rule_of result ≡ flag id.entry.now }
    ensures local { IsFalse result.global }
{
    Arg::new(alloc, id).long(id).action(ArgAction::SetTrue)
}

/// An option with a number in this range.
fn number<'a>(alloc: Global, id: &'a str, name: &'a str, low: u64, high: u64) -> Arg<'a>
    ensures rule { rule_of result ≡ number low high id.entry.now }
    ensures local { IsFalse result.global }
{
    text(alloc, id, name).value_parser(ValueParser::unsigned(low, high))
}

/// An option with a value of this kind.
fn valued<'a>(alloc: Global, id: &'a str, name: &'a str, value: OptionValue) -> Arg<'a>
    ensures rule { rule_of result ≡ valued value id.entry.now }
    ensures local { IsFalse result.global }
{
    match value {
        OptionValue::Text => text(alloc, id, name),
        OptionValue::OneOf(words, word) => {
            text(alloc, id, name)
                .value_parser(words)
                .default_value(word)
        }
        OptionValue::Number(low, high) => number(alloc, id, name, low, high),
        OptionValue::Default(low, high, default) => {
            number(alloc, id, name, low, high).default_value(default)
        }
    }
}

/// An argument that does not go with this other one.
fn without<'a>(argument: Arg<'a>, other: &'a str) -> Result<Arg<'a>, AllocError>
    ensures rule { IfOk result (λ made. rule_of made ≡ record (rule_of argument.entry) { is_free = false }) }
    ensures local { IfOk result (λ made. made.global ≡ argument.entry.global) }
{
    argument.conflicts_with(other)
}

/// An argument of which it or this other one has to be given, and not both.
fn unless<'a>(argument: Arg<'a>, other: &'a str) -> Result<Arg<'a>, AllocError>
    ensures rule { IfOk result (λ made. rule_of made ≡ record (rule_of argument.entry) { is_free = false }) }
    ensures local { IfOk result (λ made. made.global ≡ argument.entry.global) }
{
    without(argument.required_unless_present(other)?, other)
}

/// An argument of this name and kind, which is no number below 0.
fn made_by<'a>(alloc: Global, id: &'a str, kind: ArgumentKind) -> Result<Arg<'a>, AllocError>
    ensures rule { IfOk result (λ made. rule_of made ≡ rule_by kind id.entry.now) }
    ensures local { IfOk result (λ made. IsFalse made.global) }
{
    match kind {
        ArgumentKind::Word | ArgumentKind::WordOrNegative => {
            Ok(Arg::new(alloc, id).required(true))
        }
        ArgumentKind::MayBeWord => Ok(Arg::new(alloc, id)),
        ArgumentKind::WordNoRecording => unless(Arg::new(alloc, id), "recording"),
        ArgumentKind::Flag => Ok(flag(alloc, id)),
        ArgumentKind::FlagWithout(other) => without(flag(alloc, id), other),
        ArgumentKind::Option(name, value) => Ok(valued(alloc, id, name, value)),
        ArgumentKind::TextWithout(name, other) => without(text(alloc, id, name), other),
        ArgumentKind::Again(name) => Ok(text(alloc, id, name).action(ArgAction::Append)),
        ArgumentKind::Either(name, other) => unless(text(alloc, id, name), other),
    }
}

/// An argument with its help.
fn argument_of<'a>(alloc: Global, argument: &Argument) -> Result<Arg<'a>, AllocError>
    ensures rule { IfOk result (λ made. rule_of made ≡ rule_of_argument argument.now) }
    ensures local { IfOk result (λ made. IsFalse made.global) }
{
    let Argument(id, kind, help) = *argument;
    Ok(made_by(alloc, id, kind)?.help(help))
}

/// Whether an argument is a number.
fn is_number(kind: ArgumentKind) -> bool {
    matches!(
        kind,
        ArgumentKind::WordOrNegative
            | ArgumentKind::Option(_, OptionValue::Number(..) | OptionValue::Default(..))
    )
}

/// A command, where there was memory for it.
pub type Made<'a> = Result<Command<'a>, AllocError>;

/// A command of this form with none of its arguments yet.
fn bare<'a>(alloc: Global, form: &CommandForm) -> Command<'a>
    ensures { app_of result ≡ new_app form.now.name.now }
{
    Command::new(alloc, form.name)
        .about(form.about)
        .after_help(form.example)
}

/// A command of this form, which takes a number below 0 for an option. `AllocError` if memory runs out.
pub fn plain_command_of<'a>(alloc: Global, form: &CommandForm) -> Made<'a>
    ensures { IfOk result (λ command. app_of command ≡ app_of_form form.now) }
{
    let mut command = bare(alloc, form);
    for argument in form.arguments {
        command = command.arg(argument_of(alloc, argument)?)?;
    }
    Ok(command)
}

/// A command of this form, which takes a number below 0 for a number where one may stand. `AllocError` if memory runs
/// out.
pub fn command_of<'a>(alloc: Global, form: &CommandForm) -> Made<'a> {
    let mut command = bare(alloc, form);
    for argument in form.arguments {
        let is_number = is_number(argument.1);
        command = command.arg(argument_of(alloc, argument)?.allow_negative_numbers(is_number))?;
    }
    Ok(command)
}
