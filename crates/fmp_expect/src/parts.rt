//! The parts of sentences: what the first words of a line say.
ghost use Rattle.std.specs.Prelude.{◌≡◌, IfOk, IfErr, Ok, Err, bytes_eq, option_map};
ghost use Rattle.fmp_base.specs.Systems.{tables_of};
ghost use Rattle.fmp_expect.specs.Parts as spec;
ghost use Rattle.fmp_expect.specs.Words.{words_of};

use crate::fault::{ExpectationFlaw, Expects};
use crate::named::{
    STATES, actor_expected, actor_named, deed_named, interrupt_expected, interrupt_named,
    state_among, task_named,
};
use crate::numbers::number_in;
use crate::words::{before_comment, next_word, word_at, word_count};
use fmp_base::{StateWord, System};
use fmp_monitors::{ExpectedActor, ExpectedDeed, Happening, Sentence};

/// The flaw of a line in which this is expected in place of the first word.
pub fn flaw_at(expects: Expects, line: &[u8]) -> ExpectationFlaw
    ensures { result ≡ spec.flaw_at expects (words_of line.now) }
{
    ExpectationFlaw {
        expects,
        left: word_count(line),
    }
}

/// The word at which a flaw of a line stands; none at the end of the line.
pub fn faulty_word(line: &[u8], flaw: ExpectationFlaw) -> Option<&[u8]>
    ensures { option_map (λ word. word.now) result ≡ spec.faulty_word line.now flaw }
{
    let words = before_comment(line);
    word_at(words, word_count(words).saturating_sub(flaw.left))
}

/// What was found in the first word of a line, with what stands after it, or a flaw.
pub fn found_or<'a, A: Copy>(
    expects: Expects,
    line: &[u8],
    rest: &'a [u8],
    found: Option<A>,
) -> Result<(A, &'a [u8]), ExpectationFlaw>
    ensures read { IfOk result (λ r. spec.found_or expects (words_of line.now) (words_of rest.now) found
        ≡ Ok (record { value = r.0; rest = words_of r.1.now })) }
    ensures fault { IfErr result (λ e. spec.found_or expects (words_of line.now) (words_of rest.now) found ≡ Err e) }
{
    match found {
        Some(value) => Ok((value, rest)),
        None => Err(flaw_at(expects, line)),
    }
}

/// The deed that the first word of a line tells, with what stands after it.
pub fn deed_in(line: &[u8]) -> Result<(ExpectedDeed, &[u8]), ExpectationFlaw>
    ensures read { IfOk result (λ r. spec.deed_of (words_of line.now)
        ≡ Ok (record { value = r.0; rest = words_of r.1.now })) }
    ensures fault { IfErr result (λ e. spec.deed_of (words_of line.now) ≡ Err e) }
{
    match next_word(line) {
        Some((word, rest)) => found_or(Expects::Deed, line, rest, deed_named(word)),
        None => Err(flaw_at(Expects::Deed, line)),
    }
}

/// The actor that the first word of a line names, with what stands after it.
pub fn actor_in<'a>(
    sys: &System,
    line: &'a [u8],
) -> Result<(ExpectedActor, &'a [u8]), ExpectationFlaw>
    ensures read { IfOk result (λ r. spec.actor_of (tables_of sys.now) (words_of line.now)
        ≡ Ok (record { value = r.0; rest = words_of r.1.now })) }
    ensures fault { IfErr result (λ e. spec.actor_of (tables_of sys.now) (words_of line.now) ≡ Err e) }
{
    let expects = actor_expected(sys);
    match next_word(line) {
        Some((word, rest)) => found_or(expects, line, rest, actor_named(sys, word)),
        None => Err(flaw_at(expects, line)),
    }
}

/// The place of the task that the first word of a line names, with what stands after it.
pub fn task_in<'a>(sys: &System, line: &'a [u8]) -> Result<(usize, &'a [u8]), ExpectationFlaw>
    ensures read { IfOk result (λ r. spec.task_of (tables_of sys.now) (words_of line.now)
        ≡ Ok (record { value = r.0; rest = words_of r.1.now })) }
    ensures fault { IfErr result (λ e. spec.task_of (tables_of sys.now) (words_of line.now) ≡ Err e) }
{
    match next_word(line) {
        Some((word, rest)) => found_or(Expects::Task, line, rest, task_named(sys, word)),
        None => Err(flaw_at(Expects::Task, line)),
    }
}

/// The number of an interrupt, or the name of a body that no other interrupt has.
pub fn interrupt_number_in<'a>(
    sys: &System,
    line: &'a [u8],
) -> Result<(u8, &'a [u8]), ExpectationFlaw>
    ensures read { IfOk result (λ r. spec.interrupt_number (tables_of sys.now) (words_of line.now)
        ≡ Ok (record { value = r.0; rest = words_of r.1.now })) }
    ensures fault { IfErr result (λ e. spec.interrupt_number (tables_of sys.now) (words_of line.now) ≡ Err e) }
{
    let expects = interrupt_expected(sys);
    match next_word(line) {
        Some((word, rest)) => found_or(expects, line, rest, interrupt_named(sys, word)),
        None => Err(flaw_at(expects, line)),
    }
}

/// The state that the first word of a line names, with what stands after it.
pub fn state_in(line: &[u8]) -> Result<(StateWord, &[u8]), ExpectationFlaw>
    ensures read { IfOk result (λ r. spec.state_of (words_of line.now)
        ≡ Ok (record { value = r.0; rest = words_of r.1.now })) }
    ensures fault { IfErr result (λ e. spec.state_of (words_of line.now) ≡ Err e) }
{
    match next_word(line) {
        Some((word, rest)) => found_or(Expects::State, line, rest, state_among(&STATES, word)),
        None => Err(flaw_at(Expects::State, line)),
    }
}

/// The number from `low` to `high` that the first word of a line is, with what stands after it.
pub fn ranged_in(
    expects: Expects,
    low: u32,
    high: u32,
    line: &[u8],
) -> Result<(u32, &[u8]), ExpectationFlaw>
    ensures read { IfOk result (λ r. spec.number_in expects low high (words_of line.now)
        ≡ Ok (record { value = r.0; rest = words_of r.1.now })) }
    ensures fault { IfErr result (λ e. spec.number_in expects low high (words_of line.now) ≡ Err e) }
{
    match next_word(line) {
        Some((word, rest)) => found_or(expects, line, rest, number_in(low, high, word)),
        None => Err(flaw_at(expects, line)),
    }
}

/// What stands after the first word of a line, if it is this one.
pub fn after_word<'a>(
    expects: Expects,
    word: &[u8],
    line: &'a [u8],
) -> Result<&'a [u8], ExpectationFlaw>
    ensures read { IfOk result (λ rest. spec.after_word expects word.now (words_of line.now)
        ≡ Ok (words_of rest.now)) }
    ensures fault { IfErr result (λ e. spec.after_word expects word.now (words_of line.now) ≡ Err e) }
{
    match next_word(line) {
        Some((first, rest)) if first == word => Ok(rest),
        _ => Err(flaw_at(expects, line)),
    }
}

/// Whether a word is this one.
pub fn is_this(word: &[u8], this: &[u8]) -> bool
    ensures { result ≡ bytes_eq word.now this.now }
{
    word == this
}

/// A sentence, if no words are left.
pub fn whole(expects: Expects, sentence: Sentence, line: &[u8]) -> Result<Sentence, ExpectationFlaw>
    ensures { result ≡ spec.whole expects sentence (words_of line.now) }
{
    match next_word(line) {
        Some(_) => Err(flaw_at(expects, line)),
        None => Ok(sentence),
    }
}

/// Whose deed it is.
pub fn by_in<'a>(
    sys: &System,
    line: &'a [u8],
) -> Result<(Option<ExpectedActor>, &'a [u8]), ExpectationFlaw>
    ensures read { IfOk result (λ r. spec.by_of (tables_of sys.now) (words_of line.now)
        ≡ Ok (record { value = r.0; rest = words_of r.1.now })) }
    ensures fault { IfErr result (λ e. spec.by_of (tables_of sys.now) (words_of line.now) ≡ Err e) }
{
    match next_word(line) {
        Some((b"by", rest)) => {
            let (actor, rest) = actor_in(sys, rest)?;
            Ok((Some(actor), rest))
        }
        _ => Ok((None, line)),
    }
}

/// The happening with which a line begins, with what stands after it.
pub fn happening_in<'a>(
    sys: &System,
    line: &'a [u8],
) -> Result<(Happening, &'a [u8]), ExpectationFlaw>
    ensures read { IfOk result (λ r. spec.happening_of (tables_of sys.now) (words_of line.now)
        ≡ Ok (record { value = r.0; rest = words_of r.1.now })) }
    ensures fault { IfErr result (λ e. spec.happening_of (tables_of sys.now) (words_of line.now) ≡ Err e) }
{
    let (deed, rest) = deed_in(line)?;
    let (by, rest) = by_in(sys, rest)?;
    Ok((Happening { deed, by }, rest))
}

/// Whether the first word of a line is this one.
pub fn begins(word: &[u8], line: &[u8]) -> bool
    ensures { result ≡ spec.begins word.now (words_of line.now) }
{
    match next_word(line) {
        Some((first, _)) => first == word,
        None => false,
    }
}

/// What stands after the first word of a line.
pub fn after_first(line: &[u8]) -> &[u8]
    ensures { words_of result.now ≡ spec.after_first (words_of line.now) }
{
    match next_word(line) {
        Some((_, rest)) => rest,
        None => line,
    }
}

/// Whether the first word of a line is a deed.
pub fn begins_deed(line: &[u8]) -> bool
    ensures { result ≡ spec.begins_deed (words_of line.now) }
{
    match next_word(line) {
        Some((word, _)) => deed_named(word).is_some(),
        None => false,
    }
}

/// Whether the first word of a line is an actor.
pub fn begins_actor(sys: &System, line: &[u8]) -> bool
    ensures { result ≡ spec.begins_actor (tables_of sys.now) (words_of line.now) }
{
    match next_word(line) {
        Some((word, _)) => actor_named(sys, word).is_some(),
        None => false,
    }
}
