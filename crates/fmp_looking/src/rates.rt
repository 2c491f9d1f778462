//! How often the clock advances and interrupts come in random runs.
ghost use Rattle.std.specs.Prelude.{◌≡◌, IfOk, MatchOption, None, Some, count_by, option_map};
ghost use Rattle.fmp_base.specs.Systems.{tables_of};
ghost use Rattle.fmp_looking.specs.Rates as spec;
ghost use Rattle.fmp_looking.specs.TestDeeds.{SaysSome};

use crate::asking::TestMistake;
use fmp_base::System;
use fmp_files::Outside;
use fmp_frames::is_handled;
use fmp_trials::InterruptRate;
use std::alloc::{AllocError, Global};

/// How often an interrupt comes of which nothing is said: once in this many events.
const USUAL: u32 = 50;

/// What stands before and after the first colon of a word.
fn parts_at_colon(word: &str) -> Option<(&str, &str)>
    ensures { MatchOption result (spec.parts_at_colon word.now ≡ None)
        (λ parts. spec.parts_at_colon word.now ≡ Some (parts.0.now, parts.1.now)) }
{
    word.split_once(':')
}

/// The number of an interrupt that a text spells, of any size.
fn interrupt_named(text: &str) -> Option<u8>
    ensures { result ≡ spec.number_named 8 text.now }
{
    text.parse::<u8>().ok()
}

/// The number of events that a text spells.
fn events_named(text: &str) -> Option<u32>
    ensures { result ≡ spec.number_named 32 text.now }
{
    text.parse::<u32>().ok()
}

/// How often an interrupt comes, by a word as `3:50`: once in two events or more; none if the word says nothing of the
/// kind.
#[tactic(auto, unfolding(crate::specs::Rates::rate_named))]
fn rate_of(word: &str) -> Option<InterruptRate>
    ensures { result ≡ spec.rate_named word.now }
{
    let (interrupt, every) = parts_at_colon(word)?;
    let interrupt = interrupt_named(interrupt)?;
    let every = events_named(every)?;
    if interrupt == 0 || interrupt > 32 || every < 2 {
        return None;
    }
    Some(InterruptRate { interrupt, every })
}

/// Each interrupt that has a handler, as often as is usual.
fn usual_rates(alloc: Global, sys: &System) -> Result<Vec<InterruptRate>, AllocError>
    ensures { IfOk result (λ rates. rates.items ≡ spec.usual_rates (tables_of sys.now)) }
{
    let mut rates = Vec::new(alloc);
    for interrupt in &sys.interrupts {
        rates.push(InterruptRate {
            interrupt: interrupt.number,
            every: USUAL,
        })?;
    }
    Ok(rates)
}

/// How often interrupts come, by words as `3:50`; none if a word says nothing of the kind.
fn each_rate(alloc: Global, words: &[&str]) -> Result<Option<Vec<InterruptRate>>, AllocError>
    ensures { IfOk result (λ rates. option_map (λ rs. rs.items) rates ≡ spec.each_rate words.now) }
{
    let mut rates = Vec::new(alloc);
    for word in words {
        match rate_of(word) {
            Some(rate) => rates.push(rate)?,
            None => return Ok(None),
        }
    }
    Ok(Some(rates))
}

/// How often interrupts come, by words as `3:50`; where there are none, all of the system do. None if a word says
/// nothing of the kind.
pub fn rates_of(
    alloc: Global,
    sys: &System,
    words: &[&str],
) -> Result<Option<Vec<InterruptRate>>, AllocError>
    ensures { IfOk result (λ rates.
        option_map (λ rs. rs.items) rates ≡ spec.rates_named (tables_of sys.now) words.now) }
{
    if words.is_empty() {
        return Ok(Some(usual_rates(alloc, sys)?));
    }
    each_rate(alloc, words)
}

/// Whether a rate is of this interrupt.
fn is_of(interrupt: u8, rate: &InterruptRate) -> bool
    ensures { result ≡ spec.is_of interrupt rate.now }
{
    rate.interrupt == interrupt
}

/// How many of these rates are of an interrupt.
fn count_of(rates: &[InterruptRate], interrupt: u8) -> usize
    ensures { result ≡ count_by (spec.is_of interrupt) rates.now }
{
    rates.iter().filter(|rate| is_of(interrupt, *rate)).count()
}

/// Whether several of these rates are of the interrupt of this one.
fn is_twice(rates: &[InterruptRate], rate: &InterruptRate) -> bool
    ensures { result ≡ spec.is_twice rates.now rate.now }
{
    count_of(rates, rate.interrupt) > 1
}

/// Whether two of these rates are of one interrupt.
fn names_twice(rates: &[InterruptRate]) -> bool
    ensures { result ≡ spec.names_twice rates.now }
{
    rates.iter().any(|rate| is_twice(rates, rate))
}

/// What is wrong with a clock that advances once in this many events, or with these rates of interrupts, if something
/// is. A clock that advances in each event leaves none to tasks.
pub fn rate_mistake(tick: u32, rates: &[InterruptRate]) -> Option<TestMistake>
    ensures { result ≡ spec.rate_mistake tick rates.now }
{
    if tick == 1 {
        return Some(TestMistake::TickEveryEvent);
    }
    if names_twice(rates) {
        return Some(TestMistake::InterruptTwice);
    }
    None
}

/// Says that the interrupt of this rate has no handler, if it has none.
#[tactic(auto, using(crate::proofs::TestEnds::says_none, crate::proofs::TestEnds::says_one))]
fn say_rate<O: Outside>(outside: &mut O, sys: &System, rate: InterruptRate)
    ensures { SaysSome (O.done outside.old) (O.done outside.new) }
{
    let InterruptRate { interrupt, every } = rate;
    if is_handled(sys, interrupt) {
        return;
    }
    outside.say(format_args!(
        "--int {interrupt}:{every}: no handler is defined for interrupt {interrupt}\n"
    ));
}

/// Says which of these interrupts have no handler: each of them does nothing.
#[tactic(auto, using(crate::proofs::TestEnds::says_none))]
pub fn say_unhandled<O: Outside>(outside: &mut O, sys: &System, rates: &[InterruptRate])
    ensures { SaysSome (O.done outside.old) (O.done outside.new) }
{
    for rate in rates {
        say_rate(outside, sys, *rate);
    }
}
