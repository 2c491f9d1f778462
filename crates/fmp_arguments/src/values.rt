//! The words of a command line for the values of settings.
ghost use Rattle.std.specs.Prelude.{◌≡◌, ◌∷◌, [], IfOk, decimal, map, option_map, slice_get, string_bytes};
ghost use Rattle.std.specs.List.{list_any};
ghost use Rattle.std.specs.Str.{bytes_eq};
ghost use Rattle.toml.specs.View.{array_view, view};
ghost use Rattle.fmp_arguments.specs.Settings as spec;
ghost use Rattle.fmp_arguments.specs.Settings.{texts_of};

use crate::keys::{Key, ValueKind, kind_of};
use itoa::Buffer;
use std::alloc::{AllocError, Global};
use toml::Value;
use toml::value::Array;

/// The words for a value, if it is one of its kind.
pub type Words = Option<Vec<String>>;

/// An option as the command line has it.
fn flag_word(alloc: Global, name: &str) -> Result<String, AllocError>
    ensures { IfOk result (λ word. string_bytes word ≡ spec.flag_word name.now) }
{
    let mut word = String::from_str(alloc, "--")?;
    word.push_str(name)?;
    Ok(word)
}

/// An option with a value as the command line has it.
fn value_word(alloc: Global, name: &str, value: &str) -> Result<String, AllocError>
    ensures { IfOk result (λ word. string_bytes word ≡ spec.value_word name.now value.now) }
{
    let mut word = flag_word(alloc, name)?;
    word.push_str("=")?;
    word.push_str(value)?;
    Ok(word)
}

/// One word.
fn one_word(alloc: Global, word: String) -> Result<Vec<String>, AllocError>
    ensures { IfOk result (λ words. words.items ≡ word ∷ []) }
{
    let mut words = Vec::new(alloc);
    words.push(word)?;
    Ok(words)
}

/// The words for a flag.
fn flag_words(alloc: Global, name: &str, given: bool) -> Result<Vec<String>, AllocError>
    ensures { IfOk result (λ words. texts_of words ≡ spec.flag_words name.now given) }
{
    if given {
        one_word(alloc, flag_word(alloc, name)?)
    } else {
        Ok(Vec::new(alloc))
    }
}

/// The words for an option with a value.
fn text_words(alloc: Global, name: &str, value: &str) -> Result<Vec<String>, AllocError>
    ensures { IfOk result (λ words. texts_of words ≡ spec.value_word name.now value.now ∷ []) }
{
    one_word(alloc, value_word(alloc, name, value)?)
}

/// Whether a word is one of these.
pub fn is_among(words: &[&str], word: &str) -> bool
    ensures { result ≡ list_any (λ one. bytes_eq one word.now) (map (λ one. one.now) words.now) }
{
    for one in words {
        if *one == word {
            return true;
        }
    }
    false
}

/// The words for one of these choices.
fn choice_words(
    alloc: Global,
    name: &str,
    choices: &[&str],
    word: &str,
) -> Result<Words, AllocError>
    ensures { IfOk result (λ words. option_map texts_of words ≡
        spec.choice_words name.now (map (λ choice. choice.now) choices.now) word.now) }
{
    if is_among(choices, word) {
        Ok(Some(text_words(alloc, name, word)?))
    } else {
        Ok(None)
    }
}

/// The words for a number.
fn decimal_words(alloc: Global, name: &str, number: u64) -> Result<Vec<String>, AllocError>
    ensures { IfOk result (λ words. texts_of words ≡ spec.value_word name.now (decimal number) ∷ []) }
{
    text_words(alloc, name, Buffer::new().format(number))
}

/// A number that is not below 0.
fn natural_of(number: i64) -> Option<u64>
    ensures { result ≡ spec.natural number }
{
    u64::try_from(number).ok()
}

/// The words for a number, if it is in this range.
fn range_words(
    alloc: Global,
    name: &str,
    low: u64,
    high: u64,
    number: u64,
) -> Result<Words, AllocError>
    ensures { IfOk result (λ words. option_map texts_of words ≡ spec.range_words name.now low high number) }
{
    if low <= number && number <= high {
        Ok(Some(decimal_words(alloc, name, number)?))
    } else {
        Ok(None)
    }
}

/// The words for a number of TOML, if it is in this range.
fn number_words(
    alloc: Global,
    name: &str,
    low: u64,
    high: u64,
    number: i64,
) -> Result<Words, AllocError>
    ensures { IfOk result (λ words. option_map texts_of words ≡ spec.number_words name.now low high number) }
{
    match natural_of(number) {
        Some(number) => range_words(alloc, name, low, high, number),
        None => Ok(None),
    }
}

/// Whether a name of a file begins at the root.
fn is_absolute(name: &str) -> bool
    ensures { result ≡ spec.is_slash (slice_get name.now 0) }
{
    match name.as_bytes().first() {
        Some(byte) => *byte == b'/',
        None => false,
    }
}

/// The name of a file that settings in this folder give.
fn file_in(alloc: Global, folder: &str, name: &str) -> Result<String, AllocError>
    ensures { IfOk result (λ file. string_bytes file ≡ spec.file_in folder.now name.now) }
{
    if is_absolute(name) {
        return String::from_str(alloc, name);
    }
    let mut file = String::from_str(alloc, folder)?;
    file.push_str(name)?;
    Ok(file)
}

/// The words for the name of a file.
fn file_words(
    alloc: Global,
    folder: &str,
    name: &str,
    file: &str,
) -> Result<Vec<String>, AllocError>
    ensures { IfOk result (λ words. texts_of words ≡
        spec.value_word name.now (spec.file_in folder.now file.now) ∷ []) }
{
    let file = file_in(alloc, folder, file)?;
    text_words(alloc, name, file.as_str())
}

/// The words for a list of texts.
#[tactic(auto, using(crate::proofs::More::prepend_nothing, crate::proofs::More::prepend_more))]
fn list_words(alloc: Global, name: &str, values: &Array) -> Result<Words, AllocError>
    ensures { IfOk result (λ words. option_map texts_of words ≡
        spec.list_words name.now (array_view values.now)) }
{
    let mut words = Vec::new(alloc);
    for value in values {
        match value.as_str() {
            Some(text) => words.push(value_word(alloc, name, text)?)?,
            None => return Ok(None),
        }
    }
    Ok(Some(words))
}

/// The words for a value of a key.
fn value_words(
    alloc: Global,
    folder: &str,
    name: &str,
    kind: ValueKind,
    value: &Value,
) -> Result<Words, AllocError>
    ensures { IfOk result (λ words. option_map texts_of words ≡
        spec.value_words folder.now name.now kind (view value.now)) }
{
    match kind {
        ValueKind::Flag => match value.as_bool() {
            Some(given) => Ok(Some(flag_words(alloc, name, given)?)),
            None => Ok(None),
        },
        ValueKind::OneOf(choices) => match value.as_str() {
            Some(word) => choice_words(alloc, name, choices, word),
            None => Ok(None),
        },
        ValueKind::Number(low, high) => match value.as_integer() {
            Some(number) => number_words(alloc, name, low, high, number),
            None => Ok(None),
        },
        ValueKind::File => match value.as_str() {
            Some(file) => Ok(Some(file_words(alloc, folder, name, file)?)),
            None => Ok(None),
        },
        ValueKind::Texts => match value.as_array() {
            Some(values) => list_words(alloc, name, values),
            None => Ok(None),
        },
    }
}

/// The words for a member of a document: none for a key that there is not, and for a value of another kind.
pub fn member_words(
    alloc: Global,
    folder: &str,
    keys: &[Key],
    name: &str,
    value: &Value,
) -> Result<Words, AllocError>
    ensures { IfOk result (λ words. option_map texts_of words ≡
        spec.member_words folder.now keys.now name.now (view value.now)) }
{
    match kind_of(keys, name) {
        Some(kind) => value_words(alloc, folder, name, kind, value),
        None => Ok(None),
    }
}
