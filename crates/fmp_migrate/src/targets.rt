//! What the arguments of a call name: a task, a processor that it may be assigned to, a delay; and tests of a task.
ghost use Rattle.std.specs.Prelude.{◌≡◌, ◌<◌, ◌≤◌, ◌^◌, length, IfSome};
ghost use Rattle.fmp_base.specs.Outcomes.{ranged as value_of};
ghost use Rattle.fmp_base.specs.Queues.{is_ready as is_ready_block};
ghost use Rattle.fmp_base.specs.TaskCalls as calls;

use fmp_base::arguments::{LONGEST, named, numbered};
use fmp_base::{Phase, TaskBlock};
use fmp_tasks::KernelState;

/// The place of the task that a number names, where 0 (TSK_SELF) is the caller; or none.
pub fn self_or(tables: &KernelState, me: u8, number: i32) -> Option<u8>
    requires { me < length tables.now.system.tasks }
    ensures value { result ≡ calls.self_or tables.now.state me number }
    ensures there { IfSome result (λ t. t < length tables.now.system.tasks) }
{
    named(me, tables.task_count(), number)
}

/// The place of the task that a number from 1 on names, or none.
pub fn by_number(tables: &KernelState, number: i32) -> Option<u8>
    ensures value { result ≡ calls.by_number tables.now.state number }
    ensures there { IfSome result (λ t. t < length tables.now.system.tasks) }
{
    numbered(tables.task_count(), number)
}

/// The place of the processor that a number names, if the class of task t allows it.
pub fn allowed_processor(tables: &KernelState, t: u8, number: i32) -> Option<u8>
    requires { t < length tables.now.system.tasks }
    ensures value { result ≡ calls.allowed_processor tables.now.system t number }
    ensures there { IfSome result (λ p. p < tables.now.system.processors) }
{
    let config = tables.task_config(t);
    let Some(p) = numbered(tables.processor_count(), number) else {
        return None;
    };
    if config.only && p != config.processor {
        return None;
    }
    Some(p)
}

/// A priority, or another one for 0.
pub fn or_if_zero(other: u8, priority: u8) -> u8
    ensures { result ≡ calls.or_if_zero other priority }
{
    if priority == 0 { other } else { priority }
}

/// A delay from 0 to 2^30 ticks, or none.
pub fn delay_of(number: i32) -> Option<u32>
    ensures value { result ≡ value_of 0 (2 ^ 30) number }
    ensures longest { IfSome result (λ n. n ≤ 2 ^ 30) }
{
    if 0 <= number && number <= LONGEST {
        Some(number as u32)
    } else {
        None
    }
}

/// Whether a task is able to run: neither dormant nor waiting nor suspended.
pub fn is_ready(x: &TaskBlock) -> bool
    ensures { result ≡ is_ready_block x.now }
{
    matches!(&x.phase, Phase::Ready) && !x.suspended
}

/// Whether a task of this phase is dormant.
pub fn is_dormant(phase: Phase) -> bool
    ensures { result ≡ calls.is_dormant phase }
{
    matches!(&phase, Phase::Dormant)
}
