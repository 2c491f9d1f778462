//! What the service calls share (uITRON 4.0, section 3.2): a task starts, ends, waits, is released or suspended. Task t
//! is given with its block x, as it is before the change. The lines of what happens are added to a list that has room.
ghost use Rattle.std.specs.Prelude.{◌≡◌, ◌+◌, ◌≤◌, ◌<◌, length, vec_len, vec_capacity, false, [], IfSome};
ghost use Rattle.fmp_base.specs.Changes.{started, released, ended, suspended};
ghost use Rattle.fmp_base.specs.Outcomes.{waits, waits_within};
ghost use Rattle.fmp_base.specs.Queues.{queue_of_cause};
ghost use Rattle.fmp_base.specs.States.{task_at};
ghost use Rattle.fmp_base.specs.TaskCalls.{is_dormant};
ghost use Rattle.fmp_tasks.specs.Homes.{Fits, IsSomeThere, counts_of};
ghost use Rattle.fmp_base.specs.Arguments.{IsTimeLimit};
ghost use Rattle.fmp_tasks.specs.Tables.{progress, outcome, SameShape, SameShapeAndRoom};

use crate::kernel_state::KernelState;
use fmp_base::{Answer, Er, Line, Phase, Reply, TaskBlock, TimeLimit, WaitCause};

/// The task starts, at the end of the order, on the processor that is stored for it, if any.
pub fn start(tables: &mut KernelState, lines: &mut Vec<Line>, t: u8, x: TaskBlock)
    requires there { t < length tables.old.system.tasks }
    requires fits { Fits tables.old.system x }
    requires room { vec_len lines.old < vec_capacity lines.old }
    ensures progress { progress tables.new lines.new.items
        ≡ started tables.old.system (progress tables.old lines.old.items) t x }
    ensures kept { SameShapeAndRoom tables.old tables.new lines.old lines.new }
    ensures one_more { vec_len lines.new ≡ vec_len lines.old + 1 }
{
    let processor = match x.next_processor {
        Some(p) => p,
        None => x.processor,
    };
    let priority = tables.task_config(t).priority;
    let y = TaskBlock {
        phase: Phase::Ready,
        suspended: false,
        priority,
        processor,
        next_processor: None,
        wakeups: 0,
        deadline: None,
        ..x
    };
    tables.set_last(t, &y);
    lines.push_reserved(Line::Starts { processor, task: t });
}

/// The waiting task is released with a reply; it goes to the end of the order, or leaves it if it is suspended.
pub fn release(tables: &mut KernelState, lines: &mut Vec<Line>, t: u8, x: TaskBlock, reply: Reply)
    requires there { t < length tables.old.system.tasks }
    requires fits { Fits tables.old.system x }
    requires room { vec_len lines.old < vec_capacity lines.old }
    ensures progress { progress tables.new lines.new.items ≡ released (progress tables.old lines.old.items) t x reply }
    ensures kept { SameShapeAndRoom tables.old tables.new lines.old lines.new }
    ensures one_more { vec_len lines.new ≡ vec_len lines.old + 1 }
{
    let y = TaskBlock {
        phase: Phase::Ready,
        deadline: None,
        ..x
    };
    if x.suspended {
        tables.set_removed(t, y);
    } else {
        tables.set_last(t, &y);
    }
    lines.push_reserved(Line::Gets {
        processor: x.processor,
        task: t,
        reply,
    });
}

/// The task ends, and starts again if an activation is queued.
pub fn end(tables: &mut KernelState, lines: &mut Vec<Line>, t: u8, x: TaskBlock)
    requires there { t < length tables.old.system.tasks }
    requires fits { Fits tables.old.system x }
    requires room { vec_len lines.old < vec_capacity lines.old }
    ensures progress { progress tables.new lines.new.items
        ≡ ended tables.old.system (progress tables.old lines.old.items) t x }
    ensures kept { SameShapeAndRoom tables.old tables.new lines.old lines.new }
    ensures few { vec_len lines.new ≤ vec_len lines.old + 1 }
{
    let priority = tables.task_config(t).priority;
    let y = TaskBlock {
        phase: Phase::Dormant,
        suspended: false,
        priority,
        wakeups: 0,
        deadline: None,
        ..x
    };
    if x.activations == 0 {
        tables.set_removed(t, y);
    } else {
        let activations = x.activations - 1;
        start(tables, lines, t, TaskBlock { activations, ..y });
    }
}

/// The task is suspended: a waiting one goes on waiting in its place, another leaves the order.
pub fn suspend(tables: &mut KernelState, t: u8, x: TaskBlock)
    requires there { t < length tables.old.system.tasks }
    requires is { x ≡ task_at tables.old.state.tasks t }
    requires fits { Fits tables.old.system x }
    requires later { IfSome x.deadline (λ w. tables.old.state.clock + 1 ≤ w) }
    requires awake { is_dormant x.phase ≡ false }
    ensures state { tables.new ≡ record tables.old { state = suspended tables.old.state t x } }
    ensures shape { SameShape tables.old tables.new }
{
    let y = TaskBlock {
        suspended: true,
        ..x
    };
    match x.phase {
        Phase::Waiting(_) => tables.set_task(t, y),
        _ => tables.set_removed(t, y),
    }
}

/// The task waits at the end of the order, until the deadline if there is one.
pub fn wait(tables: &mut KernelState, t: u8, x: TaskBlock, cause: WaitCause, deadline: Option<u32>)
    requires there { t < length tables.old.system.tasks }
    requires fits { Fits tables.old.system x }
    requires queue { IsSomeThere (counts_of tables.old.system) (queue_of_cause cause) }
    requires later { IfSome deadline (λ w. tables.old.state.clock + 1 ≤ w) }
    ensures state { tables.new
        ≡ record tables.old { state = (waits tables.old.state t x cause deadline).progress.state } }
    ensures shape { SameShape tables.old tables.new }
{
    tables.set_last(
        t,
        &TaskBlock {
            phase: Phase::Waiting(cause),
            deadline,
            ..x
        },
    );
}

/// The task waits within a limit; a poll fails and changes nothing.
#[inline(always)]
pub fn wait_within(
    tables: &mut KernelState,
    t: u8,
    x: TaskBlock,
    cause: WaitCause,
    limit: TimeLimit,
) -> Answer
    requires there { t < length tables.old.system.tasks }
    requires fits { Fits tables.old.system x }
    requires queue { IsSomeThere (counts_of tables.old.system) (queue_of_cause cause) }
    requires limit { IsTimeLimit limit }
    ensures outcome { outcome result tables.new [] ≡ waits_within limit tables.old.state t x cause }
    ensures shape { SameShape tables.old tables.new }
{
    match limit {
        TimeLimit::Poll => Answer::Replies(Reply {
            code: Er::Tmout,
            value: None,
        }),
        TimeLimit::Forever => {
            wait(tables, t, x, cause, None);
            Answer::Waits
        }
        TimeLimit::Ticks(n) => {
            let now = tables.clock();
            wait(tables, t, x, cause, Some(now + n + 1));
            Answer::Waits
        }
    }
}
