//! What the clock does: the ends of limited waits, and cyclic handlers that become pending (uITRON 4.0, section 4.7).
ghost use Rattle.std.specs.Prelude.{◌≡◌, ◌+◌, ◌<◌, ◌≤◌, ◌^◌, length, vec_len, vec_capacity, map, None};
ghost use Rattle.fmp_base.specs.Changes.{released};
ghost use Rattle.fmp_base.specs.Outcomes.{code as code_of};
ghost use Rattle.fmp_base.specs.Ranges.{IsInRange};
ghost use Rattle.fmp_base.specs.States.{task_at, unchanged, places_from};
ghost use Rattle.fmp_base.specs.Ticks.{timeout_code as code_at_timeout, all_timed_out, all_cycled, cycled, pended};
ghost use Rattle.fmp_base.specs.Ticks.{ticked, with_clock_advanced};
ghost use Rattle.fmp_kernel.specs.NextTicks.{at_tick};
ghost use Rattle.fmp_tasks.specs.Lines.{AreEmptyWithRoom};
ghost use Rattle.fmp_tasks.specs.Tables.{progress, SameShape};
ghost use Rattle.fmp_ticks.specs.Times.{first_due};

use fmp_base::{Er, Line, Phase, WaitCause};
use fmp_tasks::KernelState;
use fmp_tasks::answers::code;
use fmp_tasks::tasks::release;

/// E_OK for the end of a delay, E_TMOUT for that of every other wait.
fn timeout_code(phase: Phase) -> Er
    ensures { result ≡ code_at_timeout phase }
{
    match phase {
        Phase::Waiting(WaitCause::Delay) => Er::Ok,
        _ => Er::Tmout,
    }
}

/// Waiting task t is released, since its deadline is the next tick.
fn time_out(tables: &mut KernelState, caused: &mut Vec<Line>, t: u8)
    requires there { t < length tables.old.system.tasks }
    requires room { vec_len caused.old < vec_capacity caused.old }
    ensures progress { let x = task_at tables.old.state.tasks t in progress tables.new caused.new.items
        ≡ released (progress tables.old caused.old.items) t x (code_of (code_at_timeout x.phase)) }
    ensures shape { SameShape tables.old tables.new }
    ensures one_more { vec_len caused.new ≡ vec_len caused.old + 1 }
    ensures capacity { vec_capacity caused.new ≡ vec_capacity caused.old }
{
    let x = tables.task(t);
    release(tables, caused, t, x, code(timeout_code(x.phase)));
}

/// Of all tasks, in order of number, those whose deadline is the next tick are released.
fn time_out_all(tables: &mut KernelState, caused: &mut Vec<Line>)
    requires caused { AreEmptyWithRoom (length tables.old.system.tasks) caused.old }
    ensures progress { at_tick (progress tables.new caused.new.items)
        ≡ all_timed_out (unchanged (with_clock_advanced tables.old.state))
        (places_from 0 (length tables.old.state.tasks)) }
    ensures none_due { first_due (tables.new.state.clock + 1) (map (λ x. x.deadline) tables.new.state.tasks) ≡ None }
    ensures shape { SameShape tables.old tables.new }
    ensures few { vec_len caused.new ≤ length tables.old.system.tasks }
    ensures capacity { vec_capacity caused.new ≡ vec_capacity caused.old }
{
    let count = tables.task_count();
    while let Some(t) = tables.due() {
        prove!(caused.len() < count);
        time_out(tables, caused, t);
    }
}

/// A cyclic handler becomes pending; if it is pending already, it stays so, with no line.
fn pend(tables: &mut KernelState, caused: &mut Vec<Line>, c: u8)
    requires there { c < length tables.old.system.cyclics }
    requires room { vec_len caused.old < vec_capacity caused.old }
    ensures progress { progress tables.new caused.new.items
        ≡ pended tables.old.system (progress tables.old caused.old.items) c }
    ensures shape { SameShape tables.old tables.new }
    ensures few { vec_len caused.new ≤ vec_len caused.old + 1 }
    ensures capacity { vec_capacity caused.new ≡ vec_capacity caused.old }
{
    if tables.is_cyclic_pending(c) {
        return;
    }
    tables.pend_cyclic(c);
    caused.push_reserved(Line::Pends {
        processor: tables.cyclic_config(c).processor,
        cyclic: c,
    });
}

/// A cyclic handler that is due at the next tick becomes pending, and is due again one period later.
fn cycle(tables: &mut KernelState, caused: &mut Vec<Line>, c: u8)
    requires there { c < length tables.old.system.cyclics }
    requires room { vec_len caused.old < vec_capacity caused.old }
    ensures progress { at_tick (progress tables.new caused.new.items)
        ≡ cycled tables.old.system (at_tick (progress tables.old caused.old.items)) c }
    ensures shape { SameShape tables.old tables.new }
    ensures few { vec_len caused.new ≤ vec_len caused.old + 1 }
    ensures capacity { vec_capacity caused.new ≡ vec_capacity caused.old }
{
    let next = tables.clock() + 1;
    if tables.due_time(c) == Some(next) {
        pend(tables, caused, c);
        tables.set_due(c, Some(next + tables.cyclic_config(c).period));
    }
}

/// Of all cyclic handlers, whose number is given, those that are due at the next tick become pending, in order of
/// number. Where none is due it looks at none.
#[tactic(auto, using(crate::proofs::PlaceLemmas::places_next))]
fn cycle_all(tables: &mut KernelState, caused: &mut Vec<Line>, count: u8)
    requires count { count ≡ length tables.old.system.cyclics }
    requires range { IsInRange tables.old.system }
    requires room { vec_len caused.old + count ≤ vec_capacity caused.old }
    ensures progress { at_tick (progress tables.new caused.new.items)
        ≡ all_cycled tables.old.system (at_tick (progress tables.old caused.old.items)) (places_from 0 count) }
    ensures tasks { tables.new.state.tasks ≡ tables.old.state.tasks }
    ensures none_due { first_due (tables.new.state.clock + 1) tables.new.state.due_times ≡ None }
    ensures shape { SameShape tables.old tables.new }
    ensures capacity { vec_capacity caused.new ≡ vec_capacity caused.old }
{
    if tables.due_cyclic().is_none() {
        return;
    }
    prove!(tables.cyclic_count() == count as usize);
    for c in 0..count {
        cycle(tables, caused, c);
    }
}

/// The tasks whose deadline is the next tick are released, the cyclic handlers that are due then become pending, and
/// the clock advances by one to it.
pub fn advance(tables: &mut KernelState, caused: &mut Vec<Line>)
    requires time { tables.old.state.clock < 2 ^ 31 }
    requires range { IsInRange tables.old.system }
    requires caused { AreEmptyWithRoom 510 caused.old }
    ensures progress { progress tables.new caused.new.items ≡ ticked tables.old.system tables.old.state }
    ensures shape { SameShape (record tables.old { state = with_clock_advanced tables.old.state }) tables.new }
    ensures capacity { vec_capacity caused.new ≡ vec_capacity caused.old }
{
    let cyclics = tables.cyclic_count() as u8;
    time_out_all(tables, caused);
    cycle_all(tables, caused, cyclics);
    tables.advance();
}
