//! What ends every event: on each processor a pending handler begins, or the dispatcher gives it its most urgent ready
//! task (uITRON 4.0, sections 3.2 and 3.5; FMP kernel, dispatching).
ghost use Rattle.std.specs.Prelude.{◌≡◌, ◌+◌, ◌≤◌, ◌<◌, ◌||◌, Some, None, false, if◌then◌else◌, length, vec_len};
ghost use Rattle.std.specs.Prelude.{vec_capacity};
ghost use Rattle.fmp_base.specs.ProcessorCalls.{is_cpu_locked as is_locked};
ghost use Rattle.fmp_base.specs.Settles.{runs_handler, settled, settled_on, settled_with};
ghost use Rattle.fmp_base.specs.Settles.{is_dispatch_held as holds_dispatch, is_same_task as is_same};
ghost use Rattle.fmp_base.specs.Queues.{top};
ghost use Rattle.fmp_base.specs.States.{processor_at};
ghost use Rattle.fmp_tasks.specs.Tables.{HasHandler, progress, SameShape};

use crate::calls::context::is_cpu_locked;
use fmp_base::{Handler, Line, Processor};
use fmp_tasks::KernelState;

/// Whether two processors run the same task, or both none.
pub fn is_same_task(a: Option<u8>, b: Option<u8>) -> bool
    ensures { result ≡ is_same a b }
{
    match (a, b) {
        (None, None) => true,
        (Some(t), Some(u)) => t == u,
        _ => false,
    }
}

/// Whether dispatching is held: by a running handler, by CPU lock, or because it is disabled.
fn is_dispatch_held(cpu: &Processor) -> bool
    ensures { result ≡ holds_dispatch cpu.now }
{
    cpu.handler.is_some() || is_cpu_locked(cpu) || cpu.dispatch_disabled
}

/// A processor on which no handler begins, and that does not run its most urgent ready task, now runs that task, or
/// none, unless dispatching is held.
#[inline(never)]
fn dispatch(tables: &mut KernelState, lines: &mut Vec<Line>, p: u8, run: Option<u8>)
    requires there { p < tables.old.system.processors }
    requires top { run ≡ top tables.old.state p }
    requires other { is_same (processor_at tables.old.state p).run run ≡ false }
    requires room { vec_len lines.old < vec_capacity lines.old }
    ensures progress { progress tables.new lines.new.items
        ≡ settled_with None (progress tables.old lines.old.items) p (processor_at tables.old.state p) }
    ensures shape { SameShape tables.old tables.new }
    ensures few { vec_len lines.new ≤ vec_len lines.old + 1 }
    ensures capacity { vec_capacity lines.new ≡ vec_capacity lines.old }
{
    let cpu = tables.processor(p);
    if !is_dispatch_held(&cpu) {
        tables.set_processor(p, Processor { run, ..cpu });
        lines.push_reserved(Line::Runs {
            processor: p,
            task: run,
        });
    }
}

/// A processor on which this is the first pending handler: it begins if none runs and the CPU is not locked. If it does
/// not begin, dispatching is held too.
#[inline(never)]
fn begin_pending(tables: &mut KernelState, lines: &mut Vec<Line>, p: u8, handler: Handler)
    requires there { p < tables.old.system.processors }
    requires handler { HasHandler tables.old.system handler }
    requires room { vec_len lines.old < vec_capacity lines.old }
    ensures progress { let cpu = processor_at tables.old.state p in progress tables.new lines.new.items
        ≡ settled_with (if runs_handler cpu.handler || is_locked cpu then None else Some handler)
        (progress tables.old lines.old.items) p cpu }
    ensures shape { SameShape tables.old tables.new }
    ensures few { vec_len lines.new ≤ vec_len lines.old + 1 }
    ensures capacity { vec_capacity lines.new ≡ vec_capacity lines.old }
{
    let cpu = tables.processor(p);
    if cpu.handler.is_some() || is_cpu_locked(&cpu) {
        return;
    }
    tables.clear_pending(handler);
    tables.set_processor(
        p,
        Processor {
            handler: Some(handler),
            ..cpu
        },
    );
    lines.push_reserved(Line::Begins {
        processor: p,
        handler,
    });
}

/// A processor settles. Mostly no handler is pending on it, and it runs its most urgent ready task already: then
/// nothing else is looked at, and it is not marked until that changes.
#[tactic(auto, using(crate::proofs::SettleLemmas::settled_none, crate::proofs::SettleLemmas::settled_some))]
#[inline(always)]
fn settle_on(tables: &mut KernelState, lines: &mut Vec<Line>, p: u8)
    requires there { p < tables.old.system.processors }
    requires room { vec_len lines.old < vec_capacity lines.old }
    ensures progress { progress tables.new lines.new.items
        ≡ settled_on tables.old.system (progress tables.old lines.old.items) p (processor_at tables.old.state p) }
    ensures shape { SameShape tables.old tables.new }
    ensures few { vec_len lines.new ≤ vec_len lines.old + 1 }
    ensures capacity { vec_capacity lines.new ≡ vec_capacity lines.old }
{
    match tables.first_pending(p) {
        None => {
            let run = tables.top(p);
            if is_same_task(tables.processor(p).run, run) {
                tables.unmark(p);
            } else {
                dispatch(tables, lines, p, run);
            }
        }
        Some(handler) => begin_pending(tables, lines, p, handler),
    }
}

/// A processor settles, if it is marked. One that is not has nothing to settle.
#[inline(always)]
fn settle_marked(tables: &mut KernelState, lines: &mut Vec<Line>, p: u8)
    requires there { p < tables.old.system.processors }
    requires room { vec_len lines.old < vec_capacity lines.old }
    ensures progress { progress tables.new lines.new.items
        ≡ settled_on tables.old.system (progress tables.old lines.old.items) p (processor_at tables.old.state p) }
    ensures shape { SameShape tables.old tables.new }
    ensures few { vec_len lines.new ≤ vec_len lines.old + 1 }
    ensures capacity { vec_capacity lines.new ≡ vec_capacity lines.old }
{
    if tables.is_marked(p) {
        settle_on(tables, lines, p);
    }
}

/// All of several processors settle, in order of number.
#[tactic(auto, using(crate::proofs::PlaceLemmas::places_next))]
#[inline(always)]
fn settle_several(tables: &mut KernelState, lines: &mut Vec<Line>, count: u8)
    requires count { count ≡ length tables.old.state.processors }
    requires processors { count ≡ tables.old.system.processors }
    requires few { count ≤ 8 }
    requires room { vec_len lines.old + 8 ≤ vec_capacity lines.old }
    ensures progress { progress tables.new lines.new.items
        ≡ settled tables.old.system (progress tables.old lines.old.items) }
    ensures shape { SameShape tables.old tables.new }
    ensures capacity { vec_capacity lines.new ≡ vec_capacity lines.old }
{
    for p in 0..count {
        settle_marked(tables, lines, p);
    }
}

/// All processors settle, in order of number. A single one needs no loop.
#[tactic(auto, using(crate::proofs::SettleLemmas::settled_one))]
#[inline(always)]
pub fn settle(tables: &mut KernelState, lines: &mut Vec<Line>)
    requires room { vec_len lines.old + 8 ≤ vec_capacity lines.old }
    ensures progress { progress tables.new lines.new.items
        ≡ settled tables.old.system (progress tables.old lines.old.items) }
    ensures shape { SameShape tables.old tables.new }
    ensures capacity { vec_capacity lines.new ≡ vec_capacity lines.old }
{
    let count = tables.processor_count() as u8;
    if count == 1 {
        settle_marked(tables, lines, 0);
    } else {
        settle_several(tables, lines, count);
    }
}
