//! The words of a command line, with those of settings.
ghost use Rattle.std.specs.Prelude.{◌≡◌, ◌++◌, IfOk, MatchResult, OnOk, drop, map, string_bytes, take};
ghost use Rattle.fmp_arguments.specs.Joined as spec;
ghost use Rattle.fmp_arguments.specs.SettingsFaults.{IsRefusal};
ghost use Rattle.fmp_arguments.specs.Settings.{setting_view, texts_of};

use crate::keys::Key;
use crate::reading::Setting;
use crate::settings_faults::{Refusal, read_settings};
use crate::values::is_among;
use std::alloc::{AllocError, Global};

/// Appends words.
fn append_words(words: &mut Vec<String>, more: &[String]) -> Result<(), AllocError>
    ensures { OnOk result (texts_of words.new ≡ texts_of words.old ++ map string_bytes more.now) }
{
    for word in more {
        words.push(word.clone()?)?;
    }
    Ok(())
}

/// Appends the words of a setting, if its name is among these.
fn append_taken(
    words: &mut Vec<String>,
    setting: &Setting,
    names: &[&str],
) -> Result<(), AllocError>
    ensures { OnOk result (texts_of words.new ≡
        texts_of words.old ++ spec.words_by (map (λ name. name.now) names.now) (setting_view setting.now)) }
{
    if is_among(names, setting.name.as_str()) {
        append_words(words, &setting.words)
    } else {
        Ok(())
    }
}

/// The words of the settings whose names are among these, in the order of the settings.
fn taken_words(
    alloc: Global,
    settings: &[Setting],
    names: &[&str],
) -> Result<Vec<String>, AllocError>
    ensures { IfOk result (λ words. texts_of words ≡
        spec.words_taken (map (λ name. name.now) names.now) (map setting_view settings.now)) }
{
    let mut words = Vec::new(alloc);
    for setting in settings {
        append_taken(&mut words, setting, names)?;
    }
    Ok(words)
}

/// The words that a text of settings in this folder adds for the options of these names, or why it is refused.
pub fn added_words(
    alloc: Global,
    folder: &str,
    keys: &[Key],
    text: &[u8],
    names: &[&str],
) -> Result<Result<Vec<String>, Refusal>, AllocError>
    ensures { IfOk result (λ added. MatchResult added
        (λ words. spec.IsAdded folder.now keys.now text.now (map (λ name. name.now) names.now) (texts_of words))
        (IsRefusal folder.now keys.now text.now)) }
{
    match read_settings(alloc, folder, keys, text)? {
        Ok(settings) => Ok(Ok(taken_words(alloc, &settings, names)?)),
        Err(refusal) => Ok(Err(refusal)),
    }
}

/// The names of a program and of its command, and the words after them.
#[tactic(auto, using(crate::proofs::More::take_two, crate::proofs::More::drop_two))]
fn split_names(typed: &[String]) -> (&[String], &[String])
    ensures names { result.0.now ≡ take 2 typed.now }
    ensures rest { result.1.now ≡ drop 2 typed.now }
{
    typed.split_at(typed.len().min(2))
}

/// The words of a command line, of which the first two are the names of the program and of its command, with words of
/// settings after these two. So an option of settings stands before all that is typed.
pub fn join(alloc: Global, typed: &[String], added: &[String]) -> Result<Vec<String>, AllocError>
    ensures { IfOk result (λ words. texts_of words ≡ spec.joined (map string_bytes (take 2 typed.now))
        (map string_bytes added.now) (map string_bytes (drop 2 typed.now))) }
{
    let (names, rest) = split_names(typed);
    let mut words = Vec::new(alloc);
    append_words(&mut words, names)?;
    append_words(&mut words, added)?;
    append_words(&mut words, rest)?;
    Ok(words)
}

/// The line that says which words the settings of a file add.
pub fn used_text(alloc: Global, file: &str, added: &[String]) -> Result<String, AllocError>
    ensures { IfOk result (λ text. string_bytes text ≡
        spec.used_text file.now (map string_bytes added.now)) }
{
    let mut text = String::from_str(alloc, "settings of ")?;
    text.push_str(file)?;
    text.push_str(":")?;
    for word in added {
        text.push_str(" ")?;
        text.push_str(word.as_str())?;
    }
    text.push_str("\n")?;
    Ok(text)
}
