//! What a wait is for, and which deed is told of that.
ghost use Rattle.std.specs.Prelude.{◌≡◌};
ghost use Rattle.fmp_why.specs.Waits as spec;

use crate::history::{ObjectDeed, ObjectTrail};
use fmp_base::{ObjectKind, WaitCause};

/// The object that a wait is for: its kind and its place. None for a wakeup or the end of a delay.
pub fn object_of(cause: WaitCause) -> Option<(ObjectKind, u8)>
    ensures { result ≡ spec.object_of cause }
{
    match cause {
        WaitCause::Sleep | WaitCause::Delay => None,
        WaitCause::Semaphore(place) => Some((ObjectKind::Semaphore, place)),
        WaitCause::Flag { flag, .. } => Some((ObjectKind::Flag, flag)),
        WaitCause::Sending { queue, .. } => Some((ObjectKind::DataQueue, queue)),
        WaitCause::Receiving(queue) => Some((ObjectKind::DataQueue, queue)),
        WaitCause::Mailbox(place) => Some((ObjectKind::Mailbox, place)),
    }
}

/// Which deed is told of the object of a wait: who set or sent to it last, if the wait is for a flag or for room, and
/// otherwise who took it last.
pub fn deed_for(cause: WaitCause, trail: ObjectTrail) -> Option<ObjectDeed>
    ensures { result ≡ spec.deed_for cause trail }
{
    match cause {
        WaitCause::Flag { .. } | WaitCause::Sending { .. } => trail.given,
        _ => trail.taken,
    }
}

/// The words before the deed that is told of a wait.
pub fn deed_words(cause: WaitCause) -> &'static str
    ensures { result.now ≡ spec.deed_words cause }
{
    match cause {
        WaitCause::Semaphore(_) => "; last taken by ",
        WaitCause::Flag { .. } => "; last set by ",
        WaitCause::Sending { .. } => "; last sent by ",
        _ => "; last received by ",
    }
}
