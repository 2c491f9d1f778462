//! What a trace tells of waits: since when each lasts, and who acted last on what it is for.
use crate::states::TaskShown;
use crate::tracks::Stay;
use fmp_base::{Call, Caller, Er, Line, ObjectKind, System, WaitCause};
use fmp_why::{History, ObjectDeed, deed_for, object_of};
use std::alloc::{AllocError, Global};

/// What is told of a wait as it was before an event, or at the end of the run.
#[derive(Clone, Copy)]
pub struct ToldWait {
    /// The event of the call that waits.
    pub since: u32,
    /// Who acted last on what it is for, and at which event.
    pub deed: Option<ObjectDeed>,
}

/// A wait that an event ended, or changed, and what was told of it before.
#[derive(Clone, Copy)]
struct EndedWait {
    event: u32,
    told: ToldWait,
}

/// What the trace of a run has told of waits.
#[derive(Drop)]
pub struct Waits {
    history: History,
    /// Of each task, in order of the events.
    ended: Vec<Vec<EndedWait>>,
    /// Who took each spin lock, in order of the events.
    takers: Vec<Vec<ObjectDeed>>,
}

/// The place of the spin lock that a line says is taken.
fn lock_taken(line: Line) -> Option<u8> {
    match line {
        Line::Call {
            call: Call::LocSpn { lock } | Call::TrySpn { lock },
            reply: Some(reply),
            ..
        } if reply.code == Er::Ok => u8::try_from(lock.checked_sub(1)?).ok(),
        _ => None,
    }
}

/// This many empty lists.
fn lists<T: Drop>(alloc: Global, count: usize) -> Result<Vec<Vec<T>>, AllocError> {
    let mut all = Vec::new(alloc);
    for _list in 0..count {
        all.push(Vec::new(alloc))?;
    }
    Ok(all)
}

impl Waits {
    /// Nothing is told of a system. `AllocError` if memory runs out, as of each call below.
    pub fn new(alloc: Global, sys: &System) -> Result<Waits, AllocError> {
        let ended = lists(alloc, sys.tasks.len())?;
        let takers = lists(alloc, sys.spin_locks.len())?;
        Ok(Waits {
            history: History::new(alloc, sys)?,
            ended,
            takers,
        })
    }

    /// Keeps who took the spin lock of an event, if it took one.
    fn note_taker(&mut self, lines: &[Line]) -> Result<(), AllocError> {
        if let Some(line) = lines.first()
            && let Some(lock) = lock_taken(*line)
            && let Some(deed) = self.history.trail(ObjectKind::SpinLock, lock).taken
            && let Some(takers) = self.takers.get_mut(usize::from(lock))
        {
            takers.push(deed)?;
        }
        Ok(())
    }

    /// Notes what the lines of an event told.
    pub fn note(&mut self, event: u32, lines: &[Line]) -> Result<(), AllocError> {
        self.history.note(lines, event);
        self.note_taker(lines)
    }

    /// What is told of a wait of a task for this, by what was noted so far.
    fn told_now(&self, task: u8, cause: WaitCause) -> ToldWait {
        let deed = match object_of(cause) {
            Some((kind, place)) => deed_for(cause, self.history.trail(kind, place)),
            None => None,
        };
        ToldWait {
            since: self.history.since(usize::from(task)),
            deed,
        }
    }

    /// An event, which is not noted yet, ends or changes a wait of a task for this.
    pub fn end(&mut self, event: u32, task: u8, cause: WaitCause) -> Result<(), AllocError> {
        let told = self.told_now(task, cause);
        if let Some(ended) = self.ended.get_mut(usize::from(task)) {
            ended.push(EndedWait { event, told })?;
        }
        Ok(())
    }

    /// What was told of a task before this event, which ended or changed its wait.
    fn told_before(&self, task: u8, event: u32) -> Option<ToldWait> {
        let ended = self.ended.get(usize::from(task))?;
        let place = ended.partition_point(|end| end.event < event);
        let found = ended.get(place)?;
        (found.event == event).then_some(found.told)
    }

    /// What is told of a wait of a task that lasts this long, if it is one.
    pub fn told(&self, task: u8, stay: &Stay<TaskShown>) -> Option<ToldWait> {
        let cause = stay.state.wait?;
        match stay.to {
            Some(event) => self.told_before(task, event),
            None => Some(self.told_now(task, cause)),
        }
    }

    /// Who took a spin lock last before this event, or before the end of the run.
    pub fn taker(&self, lock: u8, before: Option<u32>) -> Option<ObjectDeed> {
        let takers = self.takers.get(usize::from(lock))?;
        let end = before.unwrap_or(u32::MAX);
        let place = takers.partition_point(|deed| deed.event < end);
        Some(*takers.get(place.checked_sub(1)?)?)
    }
}
