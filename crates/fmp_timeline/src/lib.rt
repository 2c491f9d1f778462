//! Timelines: what a picture of a run shows, lane by lane, and where.
#![tactic(auto)]

mod canvas;
mod font;
mod lanes;
mod lengths;
mod looks;
mod marks;
mod names;
mod objects;
mod page;
mod recording;
mod run;
mod spins;
mod states;
mod tracks;
mod waits;

pub use canvas::{Canvas, CanvasPiece};
pub use fmp_why::deed_words;
pub use font::{number_width, width};
pub use lanes::{Presence, Showing, showing_of};
pub use lengths::{Tenths, px};
pub use looks::{BarLook, all_looks, look_of};
pub use marks::{ActorLink, Bond, CallMade, EventMark, Migration, Sign};
pub use names::{
    ArgumentTopic, append_call, append_handler, append_value, bytes_of, handler_text, task_bytes,
    wait_name,
};
pub use objects::{ObjectHistories, ObjectHistory, ObjectShown};
pub use page::{Choice, PanelSpan, PicturePage};
pub use run::{Deeds, Note, Run};
pub use spins::{SpinSpan, Spins};
pub use states::{Handling, Moment, Occupant, TaskShown, tasks_shown};
pub use tracks::{Stay, Track};
pub use waits::{ToldWait, Waits};
