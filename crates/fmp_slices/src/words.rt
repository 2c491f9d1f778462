//! What something is after an event, in words.
use crate::contents::PageSource;
use crate::labels::append_state;
use fmp_base::Lock;
use fmp_timeline::{
    ArgumentTopic, Canvas, Handling, ObjectShown, Occupant, TaskShown, bytes_of, task_bytes,
};
use std::alloc::AllocError;

/// A state that the page tells in words.
pub trait Told {
    /// Puts the words for it; none where there is nothing to tell. `AllocError` if memory runs out.
    fn put(self, source: PageSource<'_>, out: &mut Canvas) -> Result<(), AllocError>;
}

impl Told for Occupant {
    /// The task or handler that a processor runs.
    fn put(self, source: PageSource<'_>, out: &mut Canvas) -> Result<(), AllocError> {
        match self.actor() {
            Some(actor) => out.caller(source.sys, actor),
            None => out.raw("idle"),
        }
        Ok(())
    }
}

impl Told for Lock {
    /// The lock that a processor holds.
    fn put(self, source: PageSource<'_>, out: &mut Canvas) -> Result<(), AllocError> {
        match self {
            Lock::Free => {}
            Lock::Cpu => out.raw("CPU lock held"),
            Lock::Spin(place) => {
                out.plain(bytes_of(source.sys, ArgumentTopic::SpinLock(place)));
                out.raw(" held");
            }
        }
        Ok(())
    }
}

impl Told for bool {
    /// Whether a processor dispatches.
    fn put(self, _source: PageSource<'_>, out: &mut Canvas) -> Result<(), AllocError> {
        if !self {
            out.raw("dispatch disabled");
        }
        Ok(())
    }
}

impl Told for TaskShown {
    /// The state of a task, and its processor.
    fn put(self, source: PageSource<'_>, out: &mut Canvas) -> Result<(), AllocError> {
        let mut state = Vec::new(source.alloc);
        append_state(source.sys, &[], self, &mut state)?;
        out.plain(&state);
        out.numbered(
            ", processor ",
            u32::from(self.processor).saturating_add(1),
            "",
        );
        Ok(())
    }
}

impl Told for Handling {
    /// How far a handler is.
    fn put(self, _source: PageSource<'_>, out: &mut Canvas) -> Result<(), AllocError> {
        out.raw(match (self.runs, self.pends) {
            (true, true) => "runs, pending again",
            (true, false) => "runs",
            (false, true) => "pending",
            (false, false) => "idle",
        });
        Ok(())
    }
}

impl Told for ObjectShown {
    /// The value of an object, and the tasks that wait for it in the order of its queue.
    fn put(self, source: PageSource<'_>, out: &mut Canvas) -> Result<(), AllocError> {
        out.signed(self.value);
        let mut before = ", waiting: ";
        for task in source.run.objects.waiting_for(&self) {
            out.raw(before);
            out.plain(task_bytes(source.sys, *task));
            before = ", ";
        }
        Ok(())
    }
}
