//! Over which lists of events something is claimed.
ghost use Rattle.std.specs.Prelude.{◌≡◌, ◌++◌, OnOk, decimal};
ghost use Rattle.fmp_searching.specs.Claims as spec;

use crate::claiming::append_where;
use crate::limits::append_limits;
use fmp_explore::{Question, Ticks};
use fmp_json::{append, append_number};
use std::alloc::AllocError;

/// The word for this many interrupts.
#[tactic(auto, unfolding(crate::specs::Claims::interrupt_word))]
fn interrupt_word(count: u8) -> &'static [u8]
    ensures { result.now ≡ spec.interrupt_word count }
{
    if count == 1 {
        b" interrupt"
    } else {
        b" interrupts"
    }
}

/// Appends a number up to 255.
fn append_small(count: u8, out: &mut Vec<u8>) -> Result<(), AllocError>
    ensures { OnOk result (out.new.items ≡ out.old.items ++ decimal count) }
{
    append_number(u64::from(count), out)
}

/// Appends that there are at most this many.
#[tactic(auto, unfolding(crate::specs::Claims::most_text))]
fn append_most(count: u8, out: &mut Vec<u8>) -> Result<(), AllocError>
    ensures { OnOk result (out.new.items ≡ out.old.items ++ spec.most_text count) }
{
    append(b" with at most ", out)?;
    append_number(u64::from(count), out)
}

/// Appends that there are at most this many interrupts.
#[tactic(auto, unfolding(crate::specs::Claims::count_text))]
fn append_count(count: u8, out: &mut Vec<u8>) -> Result<(), AllocError>
    ensures { OnOk result (out.new.items ≡ out.old.items ++ spec.count_text count) }
{
    append_most(count, out)?;
    append(interrupt_word(count), out)
}

/// Appends how many interrupts there may be, if that is limited.
#[tactic(auto, unfolding(crate::specs::Claims::interrupts_text))]
fn append_interrupts(interrupts: Option<u8>, out: &mut Vec<u8>) -> Result<(), AllocError>
    ensures { OnOk result (out.new.items ≡ out.old.items ++ spec.interrupts_text interrupts) }
{
    match interrupts {
        Some(count) => append_count(count, out),
        None => Ok(()),
    }
}

/// Appends when the clock ticks.
#[tactic(auto, unfolding(crate::specs::Claims::ticks_text))]
fn append_ticks(ticks: Ticks, limited: bool, out: &mut Vec<u8>) -> Result<(), AllocError>
    ensures { OnOk result (out.new.items ≡ out.old.items ++ spec.ticks_text ticks limited) }
{
    match ticks {
        Ticks::Any => Ok(()),
        Ticks::Idle => {
            append_where(limited, b",", out)?;
            append(
                b" in which the clock ticks only where no processor can do anything",
                out,
            )
        }
    }
}

/// Appends what stands in front of how much is queued.
#[tactic(auto, unfolding(crate::specs::Claims::joint_text))]
fn append_joint(ticks: Ticks, limited: bool, out: &mut Vec<u8>) -> Result<(), AllocError>
    ensures { OnOk result (out.new.items ≡ out.old.items ++ spec.joint_text ticks limited) }
{
    match ticks {
        Ticks::Any => {
            append_where(limited, b",", out)?;
            append(b" in which", out)
        }
        Ticks::Idle => append(b" and", out),
    }
}

/// The word for this many activations.
#[tactic(auto, unfolding(crate::specs::Claims::activations_word))]
fn activations_word(count: u8) -> &'static [u8]
    ensures { result.now ≡ spec.activations_word count }
{
    if count == 1 {
        b" activation and "
    } else {
        b" activations and "
    }
}

/// The word for this many wakeups.
#[tactic(auto, unfolding(crate::specs::Claims::wakeups_word))]
fn wakeups_word(count: u8) -> &'static [u8]
    ensures { result.now ≡ spec.wakeups_word count }
{
    if count == 1 { b" wakeup" } else { b" wakeups" }
}

/// Appends this many activations.
#[tactic(auto, unfolding(crate::specs::Claims::activations_text))]
fn append_activations(count: u8, out: &mut Vec<u8>) -> Result<(), AllocError>
    ensures { OnOk result (out.new.items ≡ out.old.items ++ spec.activations_text count) }
{
    append_small(count, out)?;
    append(activations_word(count), out)
}

/// Appends this many wakeups.
#[tactic(auto, unfolding(crate::specs::Claims::wakeups_text))]
fn append_wakeups(count: u8, out: &mut Vec<u8>) -> Result<(), AllocError>
    ensures { OnOk result (out.new.items ≡ out.old.items ++ spec.wakeups_text count) }
{
    append_small(count, out)?;
    append(wakeups_word(count), out)
}

/// Appends that at most this many activations and wakeups are queued.
#[tactic(auto, unfolding(crate::specs::Claims::queue_text))]
fn append_queue(count: u8, out: &mut Vec<u8>) -> Result<(), AllocError>
    ensures { OnOk result (out.new.items ≡ out.old.items ++ spec.queue_text count) }
{
    append(b" at most ", out)?;
    append_activations(count, out)?;
    append_wakeups(count, out)?;
    append(b" of a task are queued", out)
}

/// Appends how much may be queued, if that is limited.
#[tactic(auto, unfolding(crate::specs::Claims::queued_text))]
fn append_queued(
    queued: Option<u8>,
    ticks: Ticks,
    limited: bool,
    out: &mut Vec<u8>,
) -> Result<(), AllocError>
    ensures { OnOk result (out.new.items ≡ out.old.items ++ spec.queued_text queued ticks limited) }
{
    match queued {
        Some(count) => {
            append_joint(ticks, limited, out)?;
            append_queue(count, out)
        }
        None => Ok(()),
    }
}

/// Appends which events lists have.
#[tactic(auto, unfolding(crate::specs::Claims::rules_text))]
fn append_rules(question: &Question, out: &mut Vec<u8>) -> Result<(), AllocError>
    ensures { OnOk result (out.new.items ≡ out.old.items ++ spec.rules_text question.now) }
{
    let limited = question.interrupts.is_some();
    append_interrupts(question.interrupts, out)?;
    append_ticks(question.ticks, limited, out)?;
    append_queued(question.queued, question.ticks, limited, out)
}

/// Appends a bound, and the end of the line.
#[tactic(auto, unfolding(crate::specs::Claims::bound_text))]
fn append_bound(bound: u64, out: &mut Vec<u8>) -> Result<(), AllocError>
    ensures { OnOk result (out.new.items ≡ out.old.items ++ spec.bound_text bound) }
{
    append(b", at bound ", out)?;
    append_number(bound, out)?;
    append(b"\n", out)
}

/// Appends over which lists of events something is claimed, and at which bound.
#[tactic(auto, unfolding(crate::specs::Claims::lists_text))]
pub(crate) fn append_lists(
    question: &Question,
    bound: u64,
    out: &mut Vec<u8>,
) -> Result<(), AllocError>
    ensures { OnOk result (out.new.items ≡ out.old.items ++ spec.lists_text question.now bound) }
{
    append(b": over all lists of events", out)?;
    append_rules(question, out)?;
    append_limits(&question.monitors, out)?;
    append_bound(bound, out)
}
