//! The sentences of lines.
ghost use Rattle.std.specs.Prelude.{◌≡◌, ◌-◌, IfOk, IfErr, Ok, Err};
ghost use Rattle.fmp_base.specs.Systems.{tables_of};
ghost use Rattle.fmp_expect.specs.declared.fault.Expects.TheVariants.{Line};
ghost use Rattle.fmp_expect.specs.Grammar as spec;
ghost use Rattle.fmp_expect.specs.Parts.{number_in, after_first as words_after_first};
ghost use Rattle.fmp_expect.specs.Words.{words_of};

use crate::conditions::condition_in;
use crate::fault::{ExpectationFlaw, Expects};
use crate::parts::{
    actor_in, after_first, after_word, begins, begins_actor, begins_deed, flaw_at, happening_in,
    interrupt_number_in, is_this, ranged_in, state_in, task_in, whole,
};
use crate::words::next_word;
use fmp_base::System;
use fmp_monitors::{
    ExpectedActor, ExpectedDeed, ExpectedResponse, ExpectedTrigger, Happening, Sentence,
};

/// What may stand after the happening that ends a sentence, which is of this actor if it is some.
fn end_after(by: Option<ExpectedActor>) -> Expects
    ensures { result ≡ spec.end_after by }
{
    match by {
        Some(_) => Expects::End,
        None => Expects::EndOrBy,
    }
}

/// What may stand after the second happening of `between`.
fn one_after(by: Option<ExpectedActor>) -> Expects
    ensures { result ≡ spec.one_after by }
{
    match by {
        Some(_) => Expects::One,
        None => Expects::OneOrBy,
    }
}

/// What may stand after the happening of `never`.
fn never_end(happening: Happening) -> Expects
    ensures { result ≡ spec.never_end happening }
{
    match (happening.by, happening.deed) {
        (Some(ExpectedActor::Task(_)), ExpectedDeed::Answer(_)) => Expects::NeverEndOrAt,
        (Some(_), _) => Expects::NeverEnd,
        (None, ExpectedDeed::Answer(_)) => Expects::NeverEndByOrAt,
        (None, ExpectedDeed::Stop(_) | ExpectedDeed::Put(_)) => Expects::NeverEndOrBy,
    }
}

/// The flaw of what begins with `at`, after which the number of a line and the rest stand.
fn at_ended(line: &[u8], rest: &[u8]) -> ExpectationFlaw
    ensures { result ≡ spec.at_ended (words_of line.now) (words_of rest.now) }
{
    match next_word(rest) {
        Some(_) => flaw_at(Expects::End, rest),
        None => flaw_at(Expects::TextNeeded, line),
    }
}

/// The flaw of what begins with `at` after an answer.
fn at_read(line: &[u8]) -> ExpectationFlaw
    ensures { result ≡ spec.at_read (words_of line.now)
        (number_in Line 1 2147483647 (words_after_first (words_of line.now))) }
{
    match ranged_in(Expects::Line, 1, 2147483647, after_first(line)) {
        Ok((_, rest)) => at_ended(line, rest),
        Err(flaw) => flaw,
    }
}

/// The flaw of what begins with `at` after this happening.
fn at_flaw(happening: Happening, line: &[u8]) -> ExpectationFlaw
    ensures { result ≡ spec.at_flaw happening.by happening.deed (words_of line.now) }
{
    match (happening.by, happening.deed) {
        (Some(ExpectedActor::Task(_)) | None, ExpectedDeed::Answer(_)) => at_read(line),
        (Some(_), ExpectedDeed::Answer(_)) => flaw_at(Expects::TaskOnly, line),
        (Some(_), _) => flaw_at(Expects::NeverEnd, line),
        (None, ExpectedDeed::Stop(_) | ExpectedDeed::Put(_)) => {
            flaw_at(Expects::NeverEndOrBy, line)
        }
    }
}

/// What may stand after the happening of `after`.
fn until_end(by: Option<ExpectedActor>) -> Expects
    ensures { result ≡ spec.until_end by }
{
    match by {
        Some(_) => Expects::UntilEnd,
        None => Expects::UntilEndOrBy,
    }
}

/// What may stand after the first happening of `between`.
fn and_after(by: Option<ExpectedActor>) -> Expects
    ensures { result ≡ spec.and_after by }
{
    match by {
        Some(_) => Expects::And,
        None => Expects::AndOrBy,
    }
}

/// What may stand after a happening that begins a sentence.
fn before_end(by: Option<ExpectedActor>) -> Expects
    ensures { result ≡ spec.before_end by }
{
    match by {
        Some(_) => Expects::Before,
        None => Expects::BeforeOrBy,
    }
}

/// What stands after `until`, where there is an opening.
fn closing_in(
    sys: &System,
    happening: Happening,
    opening: Happening,
    line: &[u8],
) -> Result<Sentence, ExpectationFlaw>
    ensures { result ≡ spec.closing_of (tables_of sys.now) happening opening (words_of line.now) }
{
    let (closing, rest) = happening_in(sys, line)?;
    let sentence = Sentence::NeverAfter {
        happening,
        opening,
        closing: Some(closing),
    };
    whole(end_after(closing.by), sentence, rest)
}

/// What stands after the opening of `after`.
fn opened_in(
    sys: &System,
    happening: Happening,
    opening: Happening,
    line: &[u8],
) -> Result<Sentence, ExpectationFlaw>
    ensures { result ≡ spec.opened_of (tables_of sys.now) happening opening (words_of line.now) }
{
    match next_word(line) {
        Some((word, rest)) => {
            if is_this(word, b"until") {
                closing_in(sys, happening, opening, rest)
            } else {
                Err(flaw_at(until_end(opening.by), line))
            }
        }
        None => Ok(Sentence::NeverAfter {
            happening,
            opening,
            closing: None,
        }),
    }
}

/// What stands after `after`.
fn after_in(sys: &System, happening: Happening, line: &[u8]) -> Result<Sentence, ExpectationFlaw>
    ensures { result ≡ spec.after_of (tables_of sys.now) happening (words_of line.now) }
{
    let (opening, rest) = happening_in(sys, line)?;
    opened_in(sys, happening, opening, rest)
}

/// What stands after `until`, where there is no opening.
fn until_in(sys: &System, second: Happening, line: &[u8]) -> Result<Sentence, ExpectationFlaw>
    ensures { result ≡ spec.until_of (tables_of sys.now) second (words_of line.now) }
{
    let (first, rest) = happening_in(sys, line)?;
    whole(
        end_after(first.by),
        Sentence::Before { first, second },
        rest,
    )
}

/// What stands after the happening of `never`.
fn never_rest(sys: &System, happening: Happening, line: &[u8]) -> Result<Sentence, ExpectationFlaw>
    ensures { result ≡ spec.never_rest (tables_of sys.now) happening (words_of line.now) }
{
    match next_word(line) {
        Some((word, rest)) => {
            if is_this(word, b"after") {
                after_in(sys, happening, rest)
            } else if is_this(word, b"until") {
                until_in(sys, happening, rest)
            } else if is_this(word, b"at") {
                Err(at_flaw(happening, line))
            } else {
                Err(flaw_at(never_end(happening), line))
            }
        }
        None => Ok(Sentence::Never(happening)),
    }
}

fn never_in(sys: &System, line: &[u8]) -> Result<Sentence, ExpectationFlaw>
    ensures { result ≡ spec.never_of (tables_of sys.now) (words_of line.now) }
{
    let (happening, rest) = happening_in(sys, line)?;
    never_rest(sys, happening, rest)
}

/// The interrupt of a number, or of the name of its handler's body.
fn interrupt_in<'a>(
    sys: &System,
    line: &'a [u8],
) -> Result<(ExpectedTrigger, &'a [u8]), ExpectationFlaw>
    ensures read { IfOk result (λ r. spec.interrupt_of (tables_of sys.now) (words_of line.now)
        ≡ Ok (record { value = r.0; rest = words_of r.1.now })) }
    ensures fault { IfErr result (λ e. spec.interrupt_of (tables_of sys.now) (words_of line.now) ≡ Err e) }
{
    let (number, rest) = interrupt_number_in(sys, line)?;
    Ok((ExpectedTrigger::Interrupt(number.saturating_sub(1)), rest))
}

fn happens_in<'a>(
    sys: &System,
    line: &'a [u8],
) -> Result<(ExpectedTrigger, &'a [u8]), ExpectationFlaw>
    ensures read { IfOk result (λ r. spec.happens_of (tables_of sys.now) (words_of line.now)
        ≡ Ok (record { value = r.0; rest = words_of r.1.now })) }
    ensures fault { IfErr result (λ e. spec.happens_of (tables_of sys.now) (words_of line.now) ≡ Err e) }
{
    let (happening, rest) = happening_in(sys, line)?;
    Ok((ExpectedTrigger::Happens(happening), rest))
}

/// What starts the time within which something is to come.
fn trigger_in<'a>(
    sys: &System,
    line: &'a [u8],
) -> Result<(ExpectedTrigger, &'a [u8]), ExpectationFlaw>
    ensures read { IfOk result (λ r. spec.trigger_of (tables_of sys.now) (words_of line.now)
        ≡ Ok (record { value = r.0; rest = words_of r.1.now })) }
    ensures fault { IfErr result (λ e. spec.trigger_of (tables_of sys.now) (words_of line.now) ≡ Err e) }
{
    if begins(b"int", line) {
        interrupt_in(sys, after_first(line))
    } else if begins_deed(line) {
        happens_in(sys, line)
    } else {
        Err(flaw_at(Expects::Int, line))
    }
}

/// What may stand after a trigger.
fn trigger_end(trigger: ExpectedTrigger) -> Expects
    ensures { result ≡ spec.trigger_end trigger }
{
    match trigger {
        ExpectedTrigger::Interrupt(_) => Expects::End,
        ExpectedTrigger::Happens(happening) => end_after(happening.by),
    }
}

/// What stands after the number of ticks.
fn of_in(
    sys: &System,
    response: ExpectedResponse,
    ticks: u32,
    line: &[u8],
) -> Result<Sentence, ExpectationFlaw>
    ensures { result ≡ spec.of_of (tables_of sys.now) response ticks (words_of line.now) }
{
    let rest = after_word(Expects::Ticks, b"ticks", line)?;
    let rest = after_word(Expects::Of, b"of", rest)?;
    let (trigger, rest) = trigger_in(sys, rest)?;
    let within = Sentence::Within {
        response,
        ticks,
        trigger,
    };
    whole(trigger_end(trigger), within, rest)
}

/// What stands after `within`.
fn within_in(
    sys: &System,
    response: ExpectedResponse,
    line: &[u8],
) -> Result<Sentence, ExpectationFlaw>
    ensures { result ≡ spec.within_of (tables_of sys.now) response (words_of line.now) }
{
    let (ticks, rest) = ranged_in(Expects::Count, 0, 2147483647, line)?;
    of_in(sys, response, ticks, rest)
}

fn runs_in(sys: &System, line: &[u8]) -> Result<Sentence, ExpectationFlaw>
    ensures { result ≡ spec.runs_of (tables_of sys.now) (words_of line.now) }
{
    let (actor, rest) = actor_in(sys, line)?;
    let rest = after_word(Expects::Runs, b"runs", rest)?;
    let rest = after_word(Expects::Within, b"within", rest)?;
    within_in(sys, ExpectedResponse::Runs(actor), rest)
}

/// What stands after the happening that is to come first.
fn before_in(sys: &System, first: Happening, line: &[u8]) -> Result<Sentence, ExpectationFlaw>
    ensures { result ≡ spec.before_of (tables_of sys.now) first (words_of line.now) }
{
    let rest = after_word(before_end(first.by), b"before", line)?;
    let (second, rest) = happening_in(sys, rest)?;
    whole(
        end_after(second.by),
        Sentence::Before { first, second },
        rest,
    )
}

/// What stands after a happening that begins a sentence.
fn order_rest(sys: &System, first: Happening, line: &[u8]) -> Result<Sentence, ExpectationFlaw>
    ensures { result ≡ spec.order_rest (tables_of sys.now) first (words_of line.now) }
{
    if begins(b"within", line) {
        within_in(sys, ExpectedResponse::Happens(first), after_first(line))
    } else {
        before_in(sys, first, line)
    }
}

fn order_in(sys: &System, line: &[u8]) -> Result<Sentence, ExpectationFlaw>
    ensures { result ≡ spec.order_of (tables_of sys.now) (words_of line.now) }
{
    let (first, rest) = happening_in(sys, line)?;
    order_rest(sys, first, rest)
}

/// What stands after the happenings of `between`.
fn alone_in(
    entering: Happening,
    leaving: Happening,
    line: &[u8],
) -> Result<Sentence, ExpectationFlaw>
    ensures { result ≡ spec.alone_of entering leaving (words_of line.now) }
{
    let rest = after_word(one_after(leaving.by), b"one", line)?;
    let rest = after_word(Expects::At, b"at", rest)?;
    let rest = after_word(Expects::A, b"a", rest)?;
    let rest = after_word(Expects::Time, b"time", rest)?;
    whole(
        Expects::End,
        Sentence::OneAtATime { entering, leaving },
        rest,
    )
}

fn between_in(sys: &System, line: &[u8]) -> Result<Sentence, ExpectationFlaw>
    ensures { result ≡ spec.between_of (tables_of sys.now) (words_of line.now) }
{
    let (entering, rest) = happening_in(sys, line)?;
    let rest = after_word(and_after(entering.by), b"and", rest)?;
    let (leaving, rest) = happening_in(sys, rest)?;
    alone_in(entering, leaving, rest)
}

fn rests_in(sys: &System, line: &[u8]) -> Result<Sentence, ExpectationFlaw>
    ensures { result ≡ spec.rests_of (tables_of sys.now) (words_of line.now) }
{
    let (task, rest) = task_in(sys, line)?;
    whole(Expects::End, Sentence::Rests(task), after_first(rest))
}

fn always_in(sys: &System, line: &[u8]) -> Result<Sentence, ExpectationFlaw>
    ensures { result ≡ spec.always_of (tables_of sys.now) (words_of line.now) }
{
    let condition = condition_in(sys, line)?;
    Ok(Sentence::Always(condition))
}

fn end_in(sys: &System, line: &[u8]) -> Result<Sentence, ExpectationFlaw>
    ensures { result ≡ spec.end_of (tables_of sys.now) (words_of line.now) }
{
    let (word, rest) = state_in(line)?;
    let (task, rest) = task_in(sys, rest)?;
    whole(Expects::End, Sentence::End { word, task }, rest)
}

/// The flaw of a line that begins no sentence.
fn no_sentence(sys: &System, line: &[u8]) -> ExpectationFlaw
    ensures { result ≡ spec.no_sentence (tables_of sys.now) (words_of line.now) }
{
    if begins_actor(sys, line) {
        flaw_at(Expects::RunsOrRests, after_first(line))
    } else {
        flaw_at(Expects::Sentence, line)
    }
}

/// The sentence of a line that its first word tells.
fn told_by_first(sys: &System, line: &[u8]) -> Result<Sentence, ExpectationFlaw>
    ensures { result ≡ spec.told_by_first (tables_of sys.now) (words_of line.now) }
{
    let rest = after_first(line);
    if begins(b"never", line) {
        never_in(sys, rest)
    } else if begins(b"always", line) {
        always_in(sys, rest)
    } else if begins(b"between", line) {
        between_in(sys, rest)
    } else if begins(b"end", line) {
        end_in(sys, rest)
    } else if begins_deed(line) {
        order_in(sys, line)
    } else {
        Err(no_sentence(sys, line))
    }
}

/// The sentence of a line.
pub fn sentence_in(sys: &System, line: &[u8]) -> Result<Sentence, ExpectationFlaw>
    ensures { result ≡ spec.sentence_of (tables_of sys.now) (words_of line.now) }
{
    let rest = after_first(line);
    if begins(b"runs", rest) {
        runs_in(sys, line)
    } else if begins(b"rests", rest) {
        rests_in(sys, line)
    } else {
        told_by_first(sys, line)
    }
}
