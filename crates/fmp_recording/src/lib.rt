//! Recordings: what came to a kernel whose bodies run outside, with the calls that they made, as a text of one line an
//! event, with times or without, and where the counts began again; and their replay.
#![tactic(auto)]

mod cutting;
mod faults;
mod numbers;
mod printing;
mod reading;
mod recorded;
mod replaying;
mod timed_printing;
mod timing;

pub use faults::RecordingFault;
pub use printing::{print_lines, print_recording, printed_recordings_read_back};
pub use reading::{MOST_LINES, read_lines, read_recording, read_times};
pub use recorded::RecordedLine;
pub use replaying::{
    ReplayFault, recorded_runs_are_replayed, replay, replay_lines, replay_recording,
};
pub use timed_printing::{print_timed_recording, timed_recordings_read_back};
