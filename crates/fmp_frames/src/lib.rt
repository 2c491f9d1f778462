//! The frames of a run: what each event told, and the state after it; and ways to show a run: a table of what each task
//! did, one of the service calls, a value change dump, and the responses to handlers. It also finds where the calls of
//! a run stand in the text of its bodies, which of them are refused, what tasks wait for at its end, its idle turns,
//! and the first event in which two runs differ.
#![tactic(auto)]

mod answers;
mod call_counts;
mod call_positions;
mod call_table;
mod codes;
mod columns;
mod comparing;
mod counting;
mod declarations;
mod dump;
mod frame;
mod handlers;
mod head;
mod laws;
mod made;
mod places;
mod positioned_lines;
mod reading;
mod refusal_lines;
mod refusals;
mod response_table;
mod responses;
mod showing;
mod sites;
mod spinning;
mod summaries;
mod table;
mod taking;
mod tallies;
mod text;
mod times;
mod timing;
mod told;
mod turns;
mod values;
mod variable;
mod watching;

pub use answers::{SiteAnswer, answers_in};
pub use call_positions::{
    BodyCalls, CallPosition, CallPositions, begins_at, begins_body, call_count, is_call,
    is_service_at, line_at, text_bodies,
};
pub use call_table::append_calls;
pub use comparing::{ToldRun, append_difference, first_difference, told_on};
pub use counting::TaskTally;
pub use dump::Waves;
pub use frame::{Frame, last_frame};
pub use handlers::is_handled;
pub use laws::{
    dumps_are_of_their_frames, frames_are_of_the_run, identifiers_differ,
    refused_calls_are_never_done,
};
pub use made::{CodePositions, event_position, positions_made};
pub use positioned_lines::{EventLines, LineForm, append_positioned};
pub use refusal_lines::append_refused;
pub use refusals::{Refusal, RefusedCall, refused_calls};
pub use response_table::append_responses;
pub use responses::{Release, Response, Responses};
pub use showing::{Viewer, show_all};
pub use sites::{CallSite, SiteCall, call_sites};
pub use summaries::ResponseSummary;
pub use taking::frames;
pub use tallies::Tallies;
pub use times::known_times;
pub use timing::Timing;
pub use told::{CallTold, ToldCalls, ToldOutcome};
pub use turns::{IdleTurn, idle_turns};
pub use variable::{Variable, WaitedObject};
pub use watching::{RunWatcher, count_up_to, why};
