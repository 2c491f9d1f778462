//! The tracks of a trace: a processor, a task, the ticks and the interrupts have one each.
ghost use Rattle.std.specs.Prelude.{◌≡◌};
ghost use Rattle.fmp_base.specs.Systems.{tables_of};
ghost use Rattle.fmp_slices.specs.Tracks as spec;

use crate::labels::interrupt_at;
use fmp_base::{Caller, Handler, System};

/// A track: the number of its group, from 1, and its number in the group, from 1.
#[derive(Clone, Copy)]
pub struct Lane {
    pub group: u64,
    pub number: u64,
}

/// The group of the processors.
pub const PROCESSORS: u64 = 1;
/// The group of the tasks.
pub const TASKS: u64 = 2;
/// The group of the clock and the interrupts.
pub const EVENTS: u64 = 3;
/// The ticks.
pub const TICKS: Lane = Lane {
    group: EVENTS,
    number: 1,
};
/// The interrupts.
pub const INTERRUPTS: Lane = Lane {
    group: EVENTS,
    number: 2,
};

/// The track of the processor at a place.
pub fn processor_lane(place: u8) -> Lane
    ensures { result ≡ spec.processor_lane place }
{
    Lane {
        group: PROCESSORS,
        number: u64::from(place) + 1,
    }
}

/// The track of the task at a place.
pub fn task_lane(place: u8) -> Lane
    ensures { result ≡ spec.task_lane place }
{
    Lane {
        group: TASKS,
        number: u64::from(place) + 1,
    }
}

/// The place of the processor of a handler.
fn handler_processor(sys: &System, handler: Handler) -> Option<u8>
    ensures { result ≡ spec.handler_processor (tables_of sys.now) handler }
{
    match handler {
        Handler::Cyclic(place) => Some(sys.cyclics.get(usize::from(place))?.processor),
        Handler::Interrupt(place) => Some(interrupt_at(sys, place)?.processor),
    }
}

/// The track on which a task or a handler acts: a handler on that of its processor.
pub fn lane_of(sys: &System, actor: Caller) -> Option<Lane>
    ensures { result ≡ spec.lane_of (tables_of sys.now) actor }
{
    match actor {
        Caller::Task(task) => Some(task_lane(task)),
        Caller::Handler(handler) => Some(processor_lane(handler_processor(sys, handler)?)),
    }
}
