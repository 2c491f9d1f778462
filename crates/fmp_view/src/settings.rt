//! The words that a file of settings beside a system adds to a command line.
ghost use Rattle.std.specs.Prelude.{◌≡◌, IfNone, IfOk, IfSome, IsTrue};
ghost use Rattle.clap.specs.Words.{first_of, found_of, rows_of, subcommand_rows_of};
ghost use Rattle.fmp_arguments.specs.Settings.{texts_of};
ghost use Rattle.fmp_searching.specs.Claimed.{IsFile};
ghost use Rattle.fmp_view.specs.Ends.{IsOfSettings};
ghost use Rattle.fmp_view.specs.Settings.{Adds, KeepsSettings, status_of};

use crate::form::forms;
use clap::ArgMatches;
use clap::parser::ValueSource;
use fmp_arguments::{
    CommandForm, KEYS, SETTINGS, added_words, entered, flag_of, refusal_text, text_of, used_text,
    word_of,
};
use fmp_files::{Failure, Outside, Reason, read_file};
use std::alloc::{AllocError, Global};
use std::rt::Files;
use std::{fmt, fs};

/// How many bytes settings may have.
const SETTINGS_MAX: usize = 16_384;

/// A command that takes settings.
struct Taker {
    command: &'static str,
    /// The argument that names its system.
    system: &'static str,
    /// Whether its standard output is steps, and no report.
    prints_steps: bool,
    /// The keys that are not for this command, though it has an option of the name.
    others: &'static [&'static str],
}

/// The commands that take settings.
static TAKERS: &[Taker] = &[
    Taker {
        command: "explore",
        system: "CFG",
        prints_steps: false,
        others: &[],
    },
    Taker {
        command: "expect",
        system: "IMAGE",
        prints_steps: false,
        others: &[],
    },
    Taker {
        command: "test",
        system: "CFG",
        prints_steps: true,
        others: &["int"],
    },
];

/// Why settings are not used.
#[derive(Drop)]
pub enum SettingsExit {
    /// This is said of them.
    Refused(String),
    /// Their file could not be read, or memory ran out.
    Failed(Failure),
}

impl From<AllocError> for SettingsExit {
    fn from(error: AllocError) -> Self {
        SettingsExit::Failed(Failure::Memory(error))
    }
}

impl From<Failure> for SettingsExit {
    fn from(failure: Failure) -> Self {
        SettingsExit::Failed(failure)
    }
}

impl fmt::Display for SettingsExit {
    ghost use Rattle.std.specs.Prelude.{Some};
    ghost use Rattle.fmp_view.specs.Settings.{exit_message};

    ghost output = { λ exit. Some (exit_message exit) };

    fn fmt<W: fmt::Write>(&self, f: &mut fmt::Formatter<W>) -> fmt::Result {
        match self {
            SettingsExit::Refused(text) => write!(f, "{text}"),
            SettingsExit::Failed(failure) => write!(f, "{failure}"),
        }
    }
}

impl Reason for SettingsExit {
    ghost status_of = { λ exit. status_of exit };

    /// 1 for settings that are refused, 3 for a failure or if memory ran out.
    fn status(&self) -> u8 {
        match self {
            SettingsExit::Refused(_) => 1,
            SettingsExit::Failed(_) => 3,
        }
    }
}

/// What settings add to a command line.
#[derive(Drop)]
pub struct Added {
    /// The file of the settings.
    pub file: String,
    /// The words that they add; none if they add nothing.
    pub words: Vec<String>,
    /// The line that tells these words.
    pub line: String,
    /// Whether that line is said, since standard output has steps or objects of JSON.
    pub is_said: bool,
}

/// The command of this name, if it takes settings.
fn taker_of(name: &str) -> Option<&'static Taker> {
    TAKERS.iter().find(|taker| taker.command == name)
}

/// Whether settings give an option of this name to a command: it is not typed, and the key is for the command.
fn is_given(taker: &Taker, words: &ArgMatches<'_>, name: &str) -> bool {
    words.value_source(name) != Some(ValueSource::CommandLine)
        && !taker.others.iter().any(|other| *other == name)
}

/// Adds the names of the options of a command that settings give.
fn add_given(
    names: &mut Vec<&'static str>,
    taker: &Taker,
    form: &CommandForm,
    words: &ArgMatches<'_>,
) -> Result<(), AllocError> {
    for argument in form.arguments {
        if is_given(taker, words, argument.0) {
            names.push(argument.0)?;
        }
    }
    Ok(())
}

/// The names of the options of a command that settings give.
fn given(
    alloc: Global,
    taker: &Taker,
    words: &ArgMatches<'_>,
) -> Result<Vec<&'static str>, AllocError> {
    let mut names = Vec::new(alloc);
    for form in forms() {
        if form.name == taker.command {
            add_given(&mut names, taker, form, words)?;
        }
    }
    Ok(names)
}

/// The folder of a file as it stands before names of files: what stands through its last `/`, or nothing.
fn folder_of(file: &str) -> &str {
    match file.rsplit_once('/') {
        Some((_, name)) => file.strip_suffix(name).unwrap_or(""),
        None => "",
    }
}

/// The text of a file of settings.
#[tactic(auto, using(crate::proofs::SettingsLemmas::whole_text))]
fn settings_text<O: Outside>(
    alloc: Global,
    outside: &O,
    file: &str,
) -> Result<Vec<u8>, SettingsExit>
    ensures { IfOk result (λ text. IsFile (O.files outside.now) file.now text.items) }
{
    let text = read_file(alloc, outside, file, Some(SETTINGS_MAX))?;
    if text.len() > SETTINGS_MAX {
        let message = format!(in alloc; "{file}: settings have at most {SETTINGS_MAX} bytes")?;
        return Err(SettingsExit::Refused(message));
    }
    Ok(text)
}

/// The words that the settings of a file add for the options of these names.
fn words_in<O: Outside>(
    alloc: Global,
    outside: &O,
    folder: &str,
    file: &str,
    names: &[&str],
) -> Result<Vec<String>, SettingsExit>
    ensures { IfOk result (λ words. Adds (O.files outside.now) file.now (texts_of words)) }
{
    let text = settings_text(alloc, outside, file)?;
    match added_words(alloc, folder, KEYS, &text, names)? {
        Ok(words) => Ok(words),
        Err(refusal) => Err(SettingsExit::Refused(refusal_text(alloc, file, KEYS, &refusal)?)),
    }
}

/// What a command wants of settings.
#[derive(Clone, Copy)]
struct WantedSettings<'a> {
    /// The options that settings may give.
    names: &'a [&'static str],
    /// Whether the line that tells the added words is said.
    is_said: bool,
}

/// What the settings beside a system add for the options that are wanted; nothing where there are no settings.
fn added_beside<O: Outside, R: Files>(
    alloc: Global,
    outside: &O,
    rt: &R,
    system: &str,
    wanted: WantedSettings<'_>,
) -> Result<Option<Added>, SettingsExit>
    ensures { IfOk result (λ added. IfSome added (IsOfSettings (O.files outside.now))) }
{
    let folder = folder_of(system);
    let file = format!(in alloc; "{folder}{SETTINGS}")?;
    if fs::metadata(rt, file.as_str()).is_err() {
        return Ok(None);
    }
    let words = words_in(alloc, outside, folder, file.as_str(), wanted.names)?;
    let line = used_text(alloc, file.as_str(), &words)?;
    Ok(Some(Added {
        file,
        words,
        line,
        is_said: wanted.is_said,
    }))
}

/// What settings add to a command that takes them.
fn added_for<O: Outside, R: Files>(
    alloc: Global,
    outside: &O,
    rt: &R,
    taker: &Taker,
    words: &ArgMatches<'_>,
) -> Result<Option<Added>, SettingsExit>
    ensures { IfOk result (λ added. IfSome added (IsOfSettings (O.files outside.now))) }
{
    if flag_of(words, "no-settings") {
        return Ok(None);
    }
    let names = given(alloc, taker, words)?;
    let wanted = WantedSettings {
        names: &names,
        is_said: taker.prints_steps || flag_of(words, "json"),
    };
    added_beside(alloc, outside, rt, word_of(words, taker.system), wanted)
}

/// Whether the option of this name is given and names the file of settings.
fn is_over_settings<O: Outside>(
    outside: &O,
    words: &ArgMatches<'_>,
    option: &str,
    settings: &str,
) -> bool
    ensures { IfSome (first_of option.now (rows_of (found_of words.now)))
        (λ name. name ≡ settings.now → IsTrue result) }
{
    match text_of(words, option) {
        Some(name) => outside.is_one_file(name, settings),
        None => false,
    }
}

/// The option of these words that names the file of settings as one to write, if one does.
fn option_over<O: Outside>(
    outside: &O,
    words: &ArgMatches<'_>,
    settings: &str,
) -> Option<&'static str>
    ensures { IfNone result (KeepsSettings (rows_of (found_of words.now)) settings.now) }
{
    if is_over_settings(outside, words, "junit", settings) {
        Some("junit")
    } else if is_over_settings(outside, words, "lcov", settings) {
        Some("lcov")
    } else if is_over_settings(outside, words, "coverage", settings) {
        Some("coverage")
    } else {
        None
    }
}

/// The command of a command line and its option that would replace the file of settings that was read, if one would.
pub fn option_over_settings<'a, O: Outside>(
    outside: &O,
    words: &ArgMatches<'a>,
    settings: &str,
) -> Option<(&'a str, &'static str)>
    ensures { IfNone result (IfSome (subcommand_rows_of words.now) (λ p. KeepsSettings p.1 settings.now)) }
{
    let (command, words) = entered(words)?;
    let option = option_over(outside, words, settings)?;
    Some((command, option))
}

/// What the settings beside a system add to a command line, if there are settings and the command takes them.
pub fn added_to<O: Outside, R: Files>(
    alloc: Global,
    outside: &O,
    rt: &R,
    words: &ArgMatches<'_>,
) -> Result<Option<Added>, SettingsExit>
    ensures { IfOk result (λ added. IfSome added (IsOfSettings (O.files outside.now))) }
{
    match entered(words) {
        Some((name, words)) => match taker_of(name) {
            Some(taker) => added_for(alloc, outside, rt, taker, words),
            None => Ok(None),
        },
        None => Ok(None),
    }
}
