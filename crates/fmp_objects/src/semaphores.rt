//! The service calls on semaphores (uITRON 4.0, section 4.4.1).
ghost use Rattle.std.specs.Prelude.{◌≡◌, ◌<◌, [], length, IfSome};
ghost use Rattle.fmp_base.specs.Arguments.{IsTimeLimit};
ghost use Rattle.fmp_base.specs.Outcomes.{numbered as place_of};
ghost use Rattle.fmp_base.specs.SemaphoreCalls.{signalled, acquired, sig_sem as sig_sem_case, wai_sem as wai_sem_case};
ghost use Rattle.fmp_base.specs.SemaphoreCalls.{twai_sem as twai_sem_case};
ghost use Rattle.fmp_base.specs.States.{task_at};
ghost use Rattle.fmp_tasks.specs.Lines.{AreEmptyWithRoom};
ghost use Rattle.fmp_tasks.specs.Tables.{outcome, SameShape, SameShapeAndRoom};

use fmp_base::arguments::{limit_of, numbered};
use fmp_base::{Answer, Er, Line, TimeLimit, WaitCause, WaitQueue};
use fmp_tasks::KernelState;
use fmp_tasks::answers::{code, replied};
use fmp_tasks::tasks::{release, wait_within};

/// The semaphore that a number names, if there is one.
fn semaphore_of(tables: &KernelState, number: i32) -> Option<u8>
    ensures value { result ≡ place_of (length tables.now.state.semaphores) number }
    ensures there { IfSome result (λ s. s < length tables.now.system.semaphores) }
{
    numbered(tables.semaphore_count(), number)
}

/// The first task that waits for semaphore s is released; with none the count rises, or E_QOVR if it is the greatest.
#[inline(always)]
fn signal(tables: &mut KernelState, lines: &mut Vec<Line>, s: u8) -> Answer
    requires there { s < length tables.old.system.semaphores }
    requires lines { AreEmptyWithRoom 1 lines.old }
    ensures outcome { outcome result tables.new lines.new.items ≡ signalled tables.old.system tables.old.state s }
    ensures kept { SameShapeAndRoom tables.old tables.new lines.old lines.new }
{
    if let Some(t) = tables.first_waiting(WaitQueue::Semaphore(s)) {
        let x = tables.task(t);
        release(tables, lines, t, x, code(Er::Ok));
        return replied(Er::Ok);
    }
    let count = tables.count(s);
    if count < tables.semaphore_config(s).most {
        tables.set_count(s, count + 1);
        replied(Er::Ok)
    } else {
        replied(Er::Qovr)
    }
}

/// `sig_sem` and `isig_sem` (uITRON 4.0, section 4.4.1): the first waiting task is released with E_OK; with no such
/// task the count rises by one. E_ID if the number names no semaphore, then E_QOVR if no task waits and the count is
/// the greatest; nothing changes then.
#[inline(always)]
pub fn sig_sem(tables: &mut KernelState, lines: &mut Vec<Line>, semaphore: i32) -> Answer
    requires lines { AreEmptyWithRoom 1 lines.old }
    ensures outcome { outcome result tables.new lines.new.items
        ≡ sig_sem_case tables.old.system tables.old.state semaphore }
    ensures kept { SameShapeAndRoom tables.old tables.new lines.old lines.new }
{
    match semaphore_of(tables, semaphore) {
        Some(s) => signal(tables, lines, s),
        None => replied(Er::Id),
    }
}

/// Task me takes a resource of semaphore s where the count is above 0, else it waits within the limit.
#[inline(always)]
fn acquire(tables: &mut KernelState, me: u8, limit: TimeLimit, s: u8) -> Answer
    requires there { s < length tables.old.system.semaphores }
    requires me { me < length tables.old.system.tasks }
    requires limit { IsTimeLimit limit }
    ensures outcome { outcome result tables.new []
        ≡ acquired tables.old.state me (task_at tables.old.state.tasks me) limit s }
    ensures shape { SameShape tables.old tables.new }
{
    let count = tables.count(s);
    if count == 0 {
        let x = tables.task(me);
        return wait_within(tables, me, x, WaitCause::Semaphore(s), limit);
    }
    tables.set_count(s, count - 1);
    replied(Er::Ok)
}

/// `wai_sem` and `pol_sem` by task me (uITRON 4.0, section 4.4.1): takes a resource where the count is above 0, else
/// waits at the end of the order within the limit. E_ID if the number names no semaphore, then E_TMOUT if a poll finds
/// the count 0; nothing changes then.
#[inline(always)]
pub fn wai_sem(tables: &mut KernelState, me: u8, limit: TimeLimit, semaphore: i32) -> Answer
    requires me { me < length tables.old.system.tasks }
    requires limit { IsTimeLimit limit }
    ensures outcome { outcome result tables.new []
        ≡ wai_sem_case tables.old.state me (task_at tables.old.state.tasks me) limit semaphore }
    ensures shape { SameShape tables.old tables.new }
{
    match semaphore_of(tables, semaphore) {
        Some(s) => acquire(tables, me, limit, s),
        None => replied(Er::Id),
    }
}

/// `twai_sem` by task me (uITRON 4.0, section 4.4.1): as `wai_sem`, with the time limit that a number states, in ticks:
/// -1 is none, 0 polls, the greatest is 2^30. E_ID if the number names no semaphore, then E_PAR if the limit is none of
/// these, then E_TMOUT if a poll finds the count 0; nothing changes then.
pub fn twai_sem(tables: &mut KernelState, me: u8, semaphore: i32, limit: i32) -> Answer
    requires { me < length tables.old.system.tasks }
    ensures outcome { outcome result tables.new []
        ≡ twai_sem_case tables.old.state me (task_at tables.old.state.tasks me) semaphore limit }
    ensures shape { SameShape tables.old tables.new }
{
    let Some(s) = semaphore_of(tables, semaphore) else {
        return replied(Er::Id);
    };
    match limit_of(limit) {
        Some(limit) => acquire(tables, me, limit, s),
        None => replied(Er::Par),
    }
}
