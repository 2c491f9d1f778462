//! Limits of interrupts that have no handler, which leave nothing out of a search.
ghost use Rattle.fmp_searching.specs.Deeds.{SaysOnly};

use fmp_base::System;
use fmp_files::Outside;
use fmp_frames::is_handled;
use fmp_schedules::InterruptLimit;

/// Says of which interrupt without a handler a word of `--int` or `--gap` speaks.
fn say_option<O: Outside>(outside: &mut O, option: &'static str, interrupt: u8, number: u32)
    ensures { SaysOnly (O.done outside.old) (O.done outside.new) }
{
    outside.say(format_args!(
        "{option} {interrupt}:{number}: no handler is defined for interrupt {interrupt}\n"
    ));
}

/// Says that a limit is of an interrupt without a handler, if it is.
#[tactic(auto, using(crate::proofs::Doing::only_none))]
fn say_limit<O: Outside>(outside: &mut O, sys: &System, limit: InterruptLimit)
    ensures { SaysOnly (O.done outside.old) (O.done outside.new) }
{
    let interrupt = limit.interrupt().saturating_add(1);
    if is_handled(sys, interrupt) {
        return;
    }
    match limit {
        InterruptLimit::AtMost { count, .. } => say_option(outside, "--int", interrupt, count),
        InterruptLimit::Apart { ticks, .. } => say_option(outside, "--gap", interrupt, ticks),
    }
}

/// Says which of these limits are of interrupts without handlers: no event is left out by them that does something.
pub fn say_unhandled<O: Outside>(outside: &mut O, sys: &System, limits: &[InterruptLimit])
    ensures { SaysOnly (O.done outside.old) (O.done outside.new) }
{
    for limit in limits {
        say_limit(outside, sys, *limit);
    }
}
