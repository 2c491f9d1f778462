//! The changes of a run, in order of time.
use fmp_timeline::{Run, Track};
use std::alloc::{AllocError, Global};

/// What changes.
#[derive(Clone, Copy)]
pub enum ChangeSubject {
    /// The state of the task at a place.
    Task(u8),
    /// What the processor at a place runs.
    Processor(u8),
}

/// A change at an event.
#[derive(Clone, Copy)]
pub struct TrackChange {
    pub event: u32,
    pub subject: ChangeSubject,
}

/// Appends the changes of a track, as keys: the event, whether it is a processor, and the place.
fn append_keys<S: Copy + PartialEq + Drop>(
    track: &Track<S>,
    is_processor: bool,
    place: u8,
    keys: &mut Vec<(u32, bool, u8)>,
) -> Result<(), AllocError> {
    for stay in track.places(0, u32::MAX) {
        if let Some(stay) = track.stay(stay) {
            keys.push((stay.from, is_processor, place))?;
        }
    }
    Ok(())
}

/// The keys of all changes, in order.
fn sorted_keys(alloc: Global, run: &Run) -> Result<Vec<(u32, bool, u8)>, AllocError> {
    let mut keys = Vec::new(alloc);
    for place in 0..run.tasks.len().min(255) as u8 {
        append_keys(&run.tasks[usize::from(place)], false, place, &mut keys)?;
    }
    for place in 0..run.occupants.len().min(255) as u8 {
        append_keys(&run.occupants[usize::from(place)], true, place, &mut keys)?;
    }
    keys.sort_unstable();
    Ok(keys)
}

/// All changes of a run, those of setup first: in order of events, at each the tasks in order of number, and then the
/// processors. `AllocError` if memory runs out.
pub fn changes_of(alloc: Global, run: &Run) -> Result<Vec<TrackChange>, AllocError> {
    let keys = sorted_keys(alloc, run)?;
    let mut changes = Vec::with_capacity(alloc, keys.len())?;
    for (event, is_processor, place) in keys.as_slice() {
        let subject = if *is_processor {
            ChangeSubject::Processor(*place)
        } else {
            ChangeSubject::Task(*place)
        };
        changes.push(TrackChange {
            event: *event,
            subject,
        })?;
    }
    Ok(changes)
}
