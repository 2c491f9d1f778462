//! Systems for boards, and what is seen of a board that is closed.
ghost use Rattle.std.specs.Prelude.{◌≡◌, All, IfOk, IfSome};
ghost use Rattle.fmp_board.specs.Boards.{IsAt, blank as blank_of};

use fmp_base::Event;
use fmp_hostrun::{Blank, BoardFault, Closed, Seat, Site};
use fmp_image::Image;
use std::alloc::Global;

/// How many instructions a stretch of a body may take.
const BOUND: u64 = 100_000;

/// The texts of two tasks, one of each processor, of which the first uses a shared word.
pub const TWO_TASKS: (&str, &str) = (
    "NUM_PRC(2);
CLASS(TCL_1) { CRE_TSK(A,{TA_ACT,0,a,10,256,NULL}); CRE_SHR(W,{0}); }
CLASS(TCL_2) { CRE_TSK(B,{TA_ACT,0,b,10,256,NULL}); }",
    "task a { var v; st_shr(W,5); ld_shr(W,&v); put(v); } task b { put(9); }",
);

/// The texts of a task that another one, of another processor, suspends and resumes.
pub const SUSPENDED: (&str, &str) = (
    "NUM_PRC(2);
CLASS(TCL_1) { CRE_TSK(T,{TA_ACT,0,t,10,256,NULL}); }
CLASS(TCL_2) { CRE_TSK(S,{TA_ACT,0,s,10,256,NULL}); }",
    "task t { put(1); } task s { sus_tsk(T); rsm_tsk(T); }",
);

/// A board of an image that is not yet open, with room for k events, and its m seats, as `Blank::new` answers.
pub fn board_of<'a>(
    alloc: Global,
    image: &'a Image,
    k: u32,
    m: u8,
) -> Result<(Blank<'a>, Vec<Seat>), BoardFault>
    ensures blank { IfOk result (λ made. made.0 ≡ blank_of image.now BOUND made.0.row) }
    ensures seats { IfOk result (λ made. All (IsAt made.0.row) made.1.items) }
{
    Blank::new(alloc, image, BOUND, k, m)
}

/// A seat of those of a board.
pub fn one<S: Site>(seats: &mut Vec<Seat>) -> Option<Seat>
    requires { All (IsAt S.row_id) seats.old.items }
    ensures seat { IfSome result (IsAt S.row_id) }
    ensures others { All (IsAt S.row_id) seats.new.items }
{
    seats.pop()
}

/// The event at a place of a journal, if there is one.
fn event_at(closed: &Closed<'_>, place: u32) -> Option<Event> {
    if place < closed.len() {
        Some(closed.event(place))
    } else {
        None
    }
}

/// The first three events of a journal; `None` where it has fewer.
pub fn first_events(closed: &Closed<'_>) -> [Option<Event>; 3] {
    [
        event_at(closed, 0),
        event_at(closed, 1),
        event_at(closed, 2),
    ]
}
