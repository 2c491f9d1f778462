//! Sentences, as a claim writes them.
ghost use Rattle.std.specs.Prelude.{◌≡◌, ◌+◌, ◌++◌, OnOk, Some, find, nat_eq};
ghost use Rattle.fmp_base.specs.Systems.{tables_of};
ghost use Rattle.fmp_expect.specs.Written as written;
ghost use Rattle.fmp_searching.specs.Sentences as spec;

use crate::claiming::append_value;
use crate::condition_words::append_condition;
use fmp_base::{Entry, InterruptConfig, Name, System};
use fmp_expect::interrupt_named;
use fmp_explore::Monitor;
use fmp_json::{append, append_number};
use fmp_monitors::{
    Condition, ExpectedActor, ExpectedDeed, ExpectedResponse, ExpectedTrigger, Happening, Sentence,
};
use fmp_schedules::MonitorSubject;
use std::alloc::{AllocError, Global};

/// Appends a name, if there is one.
pub fn append_named(name: Option<Name>, out: &mut Vec<u8>) -> Result<(), AllocError>
    ensures { OnOk result (out.new.items ≡ out.old.items ++ written.named_text name) }
{
    match name {
        Some(name) => append(name.as_bytes(), out),
        None => Ok(()),
    }
}

/// Appends a deed.
#[tactic(auto, unfolding(crate::specs::Sentences::deed_text))]
fn append_deed(deed: ExpectedDeed, out: &mut Vec<u8>) -> Result<(), AllocError>
    ensures { OnOk result (out.new.items ≡ out.old.items ++ spec.deed_text deed) }
{
    match deed {
        ExpectedDeed::Answer(code) => append(code.name().as_bytes(), out),
        ExpectedDeed::Put(value) => {
            append(b"put(", out)?;
            append_value(value, out)?;
            append(b")", out)
        }
        ExpectedDeed::Stop(fault) => append(fault.name().as_bytes(), out),
    }
}

/// The name of an actor, if it is there.
fn actor_name(sys: &System, actor: ExpectedActor) -> Option<Name>
    ensures { result ≡ written.actor_name (tables_of sys.now) actor }
{
    match actor {
        ExpectedActor::Task(task) => Some(sys.tasks.get(task)?.name),
        ExpectedActor::Cyclic(cyclic) => Some(sys.cyclics.get(cyclic)?.name),
        ExpectedActor::Interrupt(interrupt) => handler_name(sys, u16::from(interrupt) + 1),
    }
}

/// Appends whose deed it is, if that matters.
#[tactic(auto, unfolding(crate::specs::Sentences::by_text))]
fn append_by(sys: &System, by: Option<ExpectedActor>, out: &mut Vec<u8>) -> Result<(), AllocError>
    ensures { OnOk result (out.new.items ≡ out.old.items ++ spec.by_text (tables_of sys.now) by) }
{
    match by {
        Some(actor) => {
            append(b" by ", out)?;
            append_named(actor_name(sys, actor), out)
        }
        None => Ok(()),
    }
}

/// Appends a happening.
#[tactic(auto, unfolding(crate::specs::Sentences::happening_text))]
fn append_happening(sys: &System, happening: Happening, out: &mut Vec<u8>) -> Result<(), AllocError>
    ensures { OnOk result (out.new.items
        ≡ out.old.items ++ spec.happening_text (tables_of sys.now) happening) }
{
    append_deed(happening.deed, out)?;
    append_by(sys, happening.by, out)
}

/// Appends what is to come.
#[tactic(auto, unfolding(crate::specs::Sentences::response_text))]
fn append_response(
    sys: &System,
    response: ExpectedResponse,
    out: &mut Vec<u8>,
) -> Result<(), AllocError>
    ensures { OnOk result (out.new.items
        ≡ out.old.items ++ spec.response_text (tables_of sys.now) response) }
{
    match response {
        ExpectedResponse::Runs(actor) => {
            append_named(actor_name(sys, actor), out)?;
            append(b" runs", out)
        }
        ExpectedResponse::Happens(happening) => append_happening(sys, happening, out),
    }
}

/// The name of the body of a handler, where a configuration names it.
fn name_of(entry: Entry) -> Option<Name>
    ensures { result ≡ written.name_of entry }
{
    match entry {
        Entry::Named(name) => Some(name),
        Entry::Body(_) => None,
    }
}

/// The interrupt of this number, if it has a handler.
fn interrupt_among(interrupts: &[InterruptConfig], number: u16) -> Option<InterruptConfig>
    ensures { result ≡ find (λ x. nat_eq x.number number) interrupts.now }
{
    interrupts
        .iter()
        .copied()
        .find(|x| u16::from(x.number) == number)
}

/// The name of the body of the handler of an interrupt, where a configuration names it.
fn handler_name(sys: &System, number: u16) -> Option<Name>
    ensures { result ≡ written.handler_name (tables_of sys.now) number }
{
    match interrupt_among(&sys.interrupts, number) {
        Some(interrupt) => name_of(interrupt.entry),
        None => None,
    }
}

/// Whether a number is this one.
fn is_number(found: Option<u8>, number: u16) -> bool
    ensures { result ≡ written.is_number found number }
{
    match found {
        Some(other) => u16::from(other) == number,
        None => false,
    }
}

/// Appends an interrupt: by this name, if a sentence that has the name speaks of just this interrupt; else by its
/// number.
fn append_by_name(
    sys: &System,
    number: u16,
    name: Name,
    out: &mut Vec<u8>,
) -> Result<(), AllocError>
    ensures { OnOk result (out.new.items
        ≡ out.old.items ++ written.interrupt_by (tables_of sys.now) number (Some name)) }
{
    if is_number(interrupt_named(sys, name.as_bytes()), number) {
        append(name.as_bytes(), out)
    } else {
        append_number(u64::from(number), out)
    }
}

/// Appends an interrupt, by this name if it may have that, and else by its number.
fn append_interrupt(
    sys: &System,
    number: u16,
    name: Option<Name>,
    out: &mut Vec<u8>,
) -> Result<(), AllocError>
    ensures { OnOk result (out.new.items ≡ out.old.items ++ written.interrupt_by (tables_of sys.now) number name) }
{
    match name {
        Some(name) => append_by_name(sys, number, name, out),
        None => append_number(u64::from(number), out),
    }
}

/// Appends what starts the time.
#[tactic(auto, unfolding(crate::specs::Sentences::trigger_text))]
fn append_trigger(
    sys: &System,
    trigger: ExpectedTrigger,
    out: &mut Vec<u8>,
) -> Result<(), AllocError>
    ensures { OnOk result (out.new.items ≡ out.old.items ++ spec.trigger_text (tables_of sys.now) trigger) }
{
    match trigger {
        ExpectedTrigger::Interrupt(place) => {
            let number = u16::from(place) + 1;
            append(b"int ", out)?;
            append_interrupt(sys, number, handler_name(sys, number), out)
        }
        ExpectedTrigger::Happens(happening) => append_happening(sys, happening, out),
    }
}

/// Appends what closes a time, if something does.
#[tactic(auto, unfolding(crate::specs::Sentences::until_text))]
fn append_until(
    sys: &System,
    closing: Option<Happening>,
    out: &mut Vec<u8>,
) -> Result<(), AllocError>
    ensures { OnOk result (out.new.items ≡ out.old.items ++ spec.until_text (tables_of sys.now) closing) }
{
    match closing {
        Some(happening) => {
            append(b" until ", out)?;
            append_happening(sys, happening, out)
        }
        None => Ok(()),
    }
}

/// The value of a happening that is just that it is put.
fn put_of(happening: Happening) -> Option<i32>
    ensures { result ≡ spec.put_of happening.deed happening.by }
{
    match (happening.deed, happening.by) {
        (ExpectedDeed::Put(value), None) => Some(value),
        (ExpectedDeed::Put(_), Some(_)) => None,
        (ExpectedDeed::Answer(_), _) | (ExpectedDeed::Stop(_), _) => None,
    }
}

/// Appends two values between which one task at a time may be.
#[tactic(auto, unfolding(crate::specs::Sentences::alone_text))]
fn append_alone(enters: i32, leaves: i32, out: &mut Vec<u8>) -> Result<(), AllocError>
    ensures { OnOk result (out.new.items ≡ out.old.items ++ spec.alone_text enters leaves) }
{
    append(b"alone ", out)?;
    append_value(enters, out)?;
    append(b",", out)?;
    append_value(leaves, out)?;
    append(b", ", out)
}

/// Appends two happenings between which one task at a time may be.
#[tactic(auto, unfolding(crate::specs::Sentences::between_text))]
fn append_between(
    sys: &System,
    enters: Happening,
    leaves: Happening,
    out: &mut Vec<u8>,
) -> Result<(), AllocError>
    ensures { OnOk result (out.new.items
        ≡ out.old.items ++ spec.between_text (tables_of sys.now) enters leaves) }
{
    append(b"between ", out)?;
    append_happening(sys, enters, out)?;
    append(b" and ", out)?;
    append_happening(sys, leaves, out)?;
    append(b" one at a time, ", out)
}

/// Appends where one task at a time may be.
fn append_section(
    sys: &System,
    enters: Happening,
    leaves: Happening,
    out: &mut Vec<u8>,
) -> Result<(), AllocError>
    ensures { OnOk result (out.new.items ≡ out.old.items ++ spec.section_text (tables_of sys.now) enters leaves
        (spec.put_of enters.deed enters.by) (spec.put_of leaves.deed leaves.by)) }
{
    match (put_of(enters), put_of(leaves)) {
        (Some(first), Some(last)) => append_alone(first, last, out),
        (Some(_), None) => append_between(sys, enters, leaves, out),
        (None, _) => append_between(sys, enters, leaves, out),
    }
}

/// Appends that something does not happen.
#[tactic(auto, unfolding(crate::specs::Sentences::never_text))]
fn append_never(sys: &System, happening: Happening, out: &mut Vec<u8>) -> Result<(), AllocError>
    ensures { OnOk result (out.new.items ≡ out.old.items ++ spec.never_text (tables_of sys.now) happening) }
{
    append(b"never ", out)?;
    append_happening(sys, happening, out)?;
    append(b", ", out)
}

/// Appends that the second does not happen until the first has.
#[tactic(auto, unfolding(crate::specs::Sentences::before_text))]
fn append_before(
    sys: &System,
    first: Happening,
    second: Happening,
    out: &mut Vec<u8>,
) -> Result<(), AllocError>
    ensures { OnOk result (out.new.items
        ≡ out.old.items ++ spec.before_text (tables_of sys.now) first second) }
{
    append_happening(sys, first, out)?;
    append(b" before ", out)?;
    append_happening(sys, second, out)?;
    append(b", ", out)
}

/// Appends that something does not happen after an opening, until a closing if one is given.
#[tactic(auto, unfolding(crate::specs::Sentences::never_after_text))]
fn append_never_after(
    sys: &System,
    happening: Happening,
    opening: Happening,
    closing: Option<Happening>,
    out: &mut Vec<u8>,
) -> Result<(), AllocError>
    ensures { OnOk result (out.new.items
        ≡ out.old.items ++ spec.never_after_text (tables_of sys.now) happening opening closing) }
{
    append(b"never ", out)?;
    append_happening(sys, happening, out)?;
    append(b" after ", out)?;
    append_happening(sys, opening, out)?;
    append_until(sys, closing, out)?;
    append(b", ", out)
}

/// Appends that a response comes in time.
#[tactic(auto, unfolding(crate::specs::Sentences::within_text))]
fn append_within(
    sys: &System,
    response: ExpectedResponse,
    ticks: u32,
    trigger: ExpectedTrigger,
    out: &mut Vec<u8>,
) -> Result<(), AllocError>
    ensures { OnOk result (out.new.items
        ≡ out.old.items ++ spec.within_text (tables_of sys.now) response ticks trigger) }
{
    append_response(sys, response, out)?;
    append(b" within ", out)?;
    append_number(u64::from(ticks), out)?;
    append(b" ticks of ", out)?;
    append_trigger(sys, trigger, out)?;
    append(b", ", out)
}

/// Appends that a condition is always so.
#[tactic(auto, unfolding(crate::specs::Sentences::always_text))]
fn append_always(
    alloc: Global,
    sys: &System,
    condition: &Condition,
    out: &mut Vec<u8>,
) -> Result<(), AllocError>
    ensures { OnOk result (out.new.items
        ≡ out.old.items ++ spec.always_text (tables_of sys.now) condition.now) }
{
    append(b"always ", out)?;
    append_condition(alloc, sys, condition, out)?;
    append(b", ", out)
}

/// Appends a sentence, and a comma after it. Nothing of a task that may rest, or of the end. `AllocError` if memory
/// runs out.
pub fn append_sentence(
    alloc: Global,
    sys: &System,
    sentence: &Sentence,
    out: &mut Vec<u8>,
) -> Result<(), AllocError>
    ensures { OnOk result (out.new.items
        ≡ out.old.items ++ spec.sentence_text (tables_of sys.now) sentence.now) }
{
    match sentence {
        Sentence::Never(happening) => append_never(sys, *happening, out),
        Sentence::Before { first, second } => append_before(sys, *first, *second, out),
        Sentence::NeverAfter {
            happening,
            opening,
            closing,
        } => append_never_after(sys, *happening, *opening, *closing, out),
        Sentence::Within {
            response,
            ticks,
            trigger,
        } => append_within(sys, *response, *ticks, *trigger, out),
        Sentence::OneAtATime { entering, leaving } => append_section(sys, *entering, *leaving, out),
        Sentence::Always(condition) => append_always(alloc, sys, condition, out),
        Sentence::Rests(_) | Sentence::End { .. } => Ok(()),
    }
}

/// Appends what a monitor watches, if it is a sentence.
pub(crate) fn append_subject(
    alloc: Global,
    sys: &System,
    subject: &MonitorSubject,
    out: &mut Vec<u8>,
) -> Result<(), AllocError>
    ensures { OnOk result (out.new.items
        ≡ out.old.items ++ spec.subject_text (tables_of sys.now) subject.now) }
{
    match subject {
        MonitorSubject::Sentence(sentence) => append_sentence(alloc, sys, sentence, out),
        MonitorSubject::Limit(_) => Ok(()),
    }
}

/// Appends the sentences of monitors.
#[tactic(auto, unfolding(crate::specs::Sentences::monitors_text))]
pub(crate) fn append_monitors(
    alloc: Global,
    sys: &System,
    monitors: &[Monitor],
    out: &mut Vec<u8>,
) -> Result<(), AllocError>
    ensures { OnOk result (out.new.items
        ≡ out.old.items ++ spec.monitors_text (tables_of sys.now) monitors.now) }
{
    for monitor in monitors {
        append_subject(alloc, sys, &monitor.subject, out)?;
    }
    Ok(())
}
