//! What the words of a text name.
ghost use Rattle.std.specs.Prelude.{◌≡◌, count_by, find, position, bytes_eq, MatchOption, Some, None};
ghost use Rattle.std.specs.List.{list_any};
ghost use Rattle.fmp_base.specs.Codes.{code_name};
ghost use Rattle.fmp_base.specs.Names.{name_text};
ghost use Rattle.fmp_base.specs.Systems.{tables_of};
ghost use Rattle.fmp_base.specs.Texts.{word_text};
ghost use Rattle.fmp_expect.specs.Parts as spec;
ghost use Rattle.fmp_expect.specs.Words as words;

use crate::fault::Expects;
use crate::numbers::{number_in, signed_in};
use fmp_base::{CyclicConfig, Entry, Er, Fault, InterruptConfig, StateWord, System, TaskConfig};
use fmp_monitors::{ExpectedActor, ExpectedDeed};

/// All codes.
pub const CODES: [Er; 12] = [
    Er::Ok,
    Er::Sys,
    Er::Nospt,
    Er::Rsatr,
    Er::Par,
    Er::Id,
    Er::Ctx,
    Er::Iluse,
    Er::Obj,
    Er::Qovr,
    Er::Rlwai,
    Er::Tmout,
];

/// All states of a task.
pub const STATES: [StateWord; 6] = [
    StateWord::Running,
    StateWord::Ready,
    StateWord::Waiting,
    StateWord::Suspended,
    StateWord::WaitingSuspended,
    StateWord::Dormant,
];

fn code_among(codes: &[Er], word: &[u8]) -> Option<Er>
    ensures { result ≡ find (λ code. bytes_eq (code_name code) word.now) codes.now }
{
    codes
        .iter()
        .copied()
        .find(|code| code.name().as_bytes() == word)
}

/// The state of this name, among these.
pub fn state_among(states: &[StateWord], word: &[u8]) -> Option<StateWord>
    ensures { result ≡ find (λ state. bytes_eq (word_text state) word.now) states.now }
{
    states
        .iter()
        .copied()
        .find(|state| state.name().as_bytes() == word)
}

fn task_among(tasks: &[TaskConfig], word: &[u8]) -> Option<usize>
    ensures { result ≡ position (λ task. bytes_eq (name_text task.name) word.now) tasks.now }
{
    tasks.iter().position(|task| task.name.as_bytes() == word)
}

fn cyclic_among(cyclics: &[CyclicConfig], word: &[u8]) -> Option<usize>
    ensures { result ≡ position (λ cyclic. bytes_eq (name_text cyclic.name) word.now) cyclics.now }
{
    cyclics
        .iter()
        .position(|cyclic| cyclic.name.as_bytes() == word)
}

/// The place of the task of this name.
pub fn task_named(sys: &System, word: &[u8]) -> Option<usize>
    ensures { result ≡ spec.task_named (tables_of sys.now) word.now }
{
    task_among(&sys.tasks, word)
}

/// What stands after this front of a word, if it begins with it.
fn text_after<'a>(front: &[u8], text: &'a [u8]) -> Option<&'a [u8]>
    ensures { MatchOption result (words.after_front front.now text.now ≡ None)
        (λ rest. words.after_front front.now text.now ≡ Some rest.now) }
{
    text.strip_prefix(front)
}

/// What stands before the closing parenthesis at the end of a text.
fn before_close(text: &[u8]) -> Option<&[u8]>
    ensures { MatchOption result (words.before_close text.now ≡ None)
        (λ inner. words.before_close text.now ≡ Some inner.now) }
{
    match text {
        [inner @ .., b')'] => Some(inner),
        _ => None,
    }
}

/// The value of a word `put(V)`.
fn put_value(word: &[u8]) -> Option<i32>
    ensures { result ≡ words.put_value word.now }
{
    let rest = text_after(b"put(", word)?;
    let inner = before_close(rest)?;
    signed_in(inner)
}

/// The code of this name.
pub fn code_named(word: &[u8]) -> Option<Er>
    ensures { result ≡ spec.code_named word.now }
{
    code_among(&CODES, word)
}

/// The deed that a word tells.
pub fn deed_named(word: &[u8]) -> Option<ExpectedDeed>
    ensures { result ≡ spec.deed_named word.now }
{
    if let Some(code) = code_named(word) {
        return Some(ExpectedDeed::Answer(code));
    }
    if let Some(fault) = Fault::named(word) {
        return Some(ExpectedDeed::Stop(fault));
    }
    match put_value(word) {
        Some(value) => Some(ExpectedDeed::Put(value)),
        None => None,
    }
}

/// Whether the configuration names the body of a handler.
fn has_name(interrupt: &InterruptConfig) -> bool
    ensures { result ≡ spec.is_name interrupt.now.entry }
{
    match interrupt.entry {
        Entry::Named(_) => true,
        Entry::Body(_) => false,
    }
}

/// Whether the body of a handler has this name.
fn is_named(entry: Entry, word: &[u8]) -> bool
    ensures { result ≡ spec.is_named word.now entry }
{
    match entry {
        Entry::Named(name) => name.as_bytes() == word,
        Entry::Body(_) => false,
    }
}

/// How many of these interrupts have a handler with the body of this name.
fn count_named(interrupts: &[InterruptConfig], word: &[u8]) -> usize
    ensures { result ≡ count_by (λ i. spec.is_named word.now i.entry) interrupts.now }
{
    interrupts
        .iter()
        .filter(|i| is_named(i.entry, word))
        .count()
}

/// The first of these interrupts that has a handler with the body of this name.
fn first_named(interrupts: &[InterruptConfig], word: &[u8]) -> Option<InterruptConfig>
    ensures { result ≡ find (λ i. spec.is_named word.now i.entry) interrupts.now }
{
    interrupts.iter().copied().find(|i| is_named(i.entry, word))
}

/// The number of the interrupt whose handler has the body of this name, if only one has it.
fn number_of_handler(interrupts: &[InterruptConfig], word: &[u8]) -> Option<u8>
    ensures { result ≡ spec.number_of_handler word.now interrupts.now }
{
    if count_named(interrupts, word) != 1 {
        return None;
    }
    match first_named(interrupts, word) {
        Some(interrupt) => Some(interrupt.number),
        None => None,
    }
}

/// Whether a cyclic handler has the body of this name.
fn is_cyclic_body(cyclics: &[CyclicConfig], word: &[u8]) -> bool
    ensures { result ≡ list_any (λ c. spec.is_named word.now c.entry) cyclics.now }
{
    cyclics.iter().any(|cyclic| is_named(cyclic.entry, word))
}

/// The number of the interrupt whose handler is the only one with the body of this name.
fn only_handler(sys: &System, word: &[u8]) -> Option<u8>
    ensures { result ≡ spec.only_handler (tables_of sys.now) word.now }
{
    if is_cyclic_body(&sys.cyclics, word) {
        return None;
    }
    number_of_handler(&sys.interrupts, word)
}

/// The task of this name, or else the cyclic handler, or else the interrupt whose handler alone has the body of this
/// name.
pub fn actor_named(sys: &System, word: &[u8]) -> Option<ExpectedActor>
    ensures { result ≡ spec.actor_named (tables_of sys.now) word.now }
{
    if let Some(task) = task_named(sys, word) {
        return Some(ExpectedActor::Task(task));
    }
    if let Some(cyclic) = cyclic_among(&sys.cyclics, word) {
        return Some(ExpectedActor::Cyclic(cyclic));
    }
    match only_handler(sys, word) {
        Some(number) => Some(ExpectedActor::Interrupt(number.saturating_sub(1))),
        None => None,
    }
}

/// The interrupt of a word: its number from 1 to 32, or the name of a body that no other interrupt has.
pub fn interrupt_named(sys: &System, word: &[u8]) -> Option<u8>
    ensures { result ≡ spec.interrupt_named (tables_of sys.now) word.now }
{
    match number_in(1, 32, word) {
        Some(number) => Some(number as u8),
        None => number_of_handler(&sys.interrupts, word),
    }
}

fn have_names(interrupts: &[InterruptConfig]) -> bool
    ensures { result ≡ list_any (λ i. spec.is_name i.entry) interrupts.now }
{
    interrupts.iter().any(|i| has_name(i))
}

/// What may stand where an interrupt is told: by names, by numbers alone, or where there is no handler.
fn expected_by(
    interrupts: &[InterruptConfig],
    named: Expects,
    numbered: Expects,
    absent: Expects,
) -> Expects
    ensures { result ≡ spec.expected_by interrupts.now named numbered absent }
{
    if interrupts.is_empty() {
        absent
    } else if have_names(interrupts) {
        named
    } else {
        numbered
    }
}

/// What may stand after `int`.
pub fn interrupt_expected(sys: &System) -> Expects
    ensures { result ≡ spec.interrupt_expected (tables_of sys.now) }
{
    expected_by(
        &sys.interrupts,
        Expects::InterruptOrHandler,
        Expects::InterruptOfImage,
        Expects::Interrupt,
    )
}

/// What may stand where an actor is told.
pub fn actor_expected(sys: &System) -> Expects
    ensures { result ≡ spec.actor_expected (tables_of sys.now) }
{
    expected_by(
        &sys.interrupts,
        Expects::ActorOrHandler,
        Expects::ActorOfImage,
        Expects::Actor,
    )
}
