//! The words in which what must never happen is written.
ghost use Rattle.std.specs.Prelude.{◌≡◌, None, Some, MatchOption};
ghost use Rattle.fmp_searching.specs.Words as spec;

use fmp_base::{Er, Fault};
use fmp_explore::{ANSWERS, Never};

/// A code that must never be answered to the calls of a line of the text.
#[derive(Clone, Copy)]
pub struct CodeAt {
    pub code: Er,
    pub line: u32,
    /// The place of the task whose answers are meant; anybody's are, if none is named.
    pub by: Option<usize>,
}

/// A section, in which one task at a time may be: from where it puts one value to where it puts another, or ends.
#[derive(Clone, Copy)]
pub struct Section {
    /// A task that puts this value enters.
    pub enters: i32,
    /// A task that puts this value leaves.
    pub leaves: i32,
}

/// What stands after a front of a text, if the text begins with it.
fn after<'a>(front: &str, text: &'a str) -> Option<&'a str>
    ensures { MatchOption result (spec.after front.now text.now ≡ None)
        (λ rest. spec.after front.now text.now ≡ Some rest.now) }
{
    text.strip_prefix(front)
}

/// What stands before a back of a text, if the text ends with it.
fn before<'a>(back: &str, text: &'a str) -> Option<&'a str>
    ensures { MatchOption result (spec.before back.now text.now ≡ None)
        (λ rest. spec.before back.now text.now ≡ Some rest.now) }
{
    text.strip_suffix(back)
}

/// What stands before and after the first colon of a word.
pub(crate) fn parts_at_colon(word: &str) -> Option<(&str, &str)>
    ensures { MatchOption result (spec.parts_at 58 word.now ≡ None)
        (λ parts. spec.parts_at 58 word.now ≡ Some (parts.0.now, parts.1.now)) }
{
    word.split_once(':')
}

/// What stands before and after the first comma of a word.
fn parts_at_comma(word: &str) -> Option<(&str, &str)>
    ensures { MatchOption result (spec.parts_at 44 word.now ≡ None)
        (λ parts. spec.parts_at 44 word.now ≡ Some (parts.0.now, parts.1.now)) }
{
    word.split_once(',')
}

/// The value that a text spells.
fn value_named(text: &str) -> Option<i32>
    ensures { result ≡ spec.value_named text.now }
{
    text.parse::<i32>().ok()
}

/// The number that a text spells.
pub(crate) fn number_named(text: &str) -> Option<u32>
    ensures { result ≡ spec.number_named text.now }
{
    text.parse::<u32>().ok()
}

/// The value in `put(V)`.
#[tactic(auto, unfolding(crate::specs::Words::value_put))]
fn value_put(word: &str) -> Option<i32>
    ensures { result ≡ spec.value_put word.now }
{
    let text = after("put(", word)?;
    value_named(before(")", text)?)
}

/// The code of this name that a call may answer.
#[tactic(auto, unfolding(crate::specs::Words::code_named))]
fn code_named(word: &str) -> Option<Er>
    ensures { result ≡ spec.code_named word.now }
{
    ANSWERS.iter().copied().find(|code| code.name() == word)
}

/// What a word says must never happen: an answer, as `E_QOVR`, a value that is printed, as `put(99)`, or a fault, as
/// `F_OVF`. None if it says nothing of the kind.
#[tactic(auto, unfolding(crate::specs::Words::never_named))]
pub fn never_named(word: &str) -> Option<Never>
    ensures { result ≡ spec.never_named word.now }
{
    if let Some(value) = value_put(word) {
        return Some(Never::Put(value));
    }
    if let Some(fault) = Fault::named(word.as_bytes()) {
        return Some(Never::Fault(fault));
    }
    match code_named(word) {
        Some(code) => Some(Never::Answer(code)),
        None => None,
    }
}

/// What a word as `E_TMOUT:12` says must never happen: an answer to the calls of a line. None if it says nothing of the
/// kind.
#[tactic(auto, unfolding(crate::specs::Words::never_at_named))]
pub fn never_at_named(word: &str) -> Option<CodeAt>
    ensures { result ≡ spec.never_at_named word.now }
{
    let (name, number) = parts_at_colon(word)?;
    let code = code_named(name)?;
    let line = number_named(number)?;
    Some(CodeAt {
        code,
        line,
        by: None,
    })
}

/// The section of a word as `1,2`, which tasks enter by `put(1)` and leave by `put(2)`. None if the word is not of this
/// form, or has one value twice.
#[tactic(auto, unfolding(crate::specs::Words::section_named))]
pub fn section_named(word: &str) -> Option<Section>
    ensures { result ≡ spec.section_named word.now }
{
    let (first, second) = parts_at_comma(word)?;
    let enters = value_named(first)?;
    let leaves = value_named(second)?;
    if enters == leaves {
        return None;
    }
    Some(Section { enters, leaves })
}
