//! A board that is opened, run by its seats, and closed.
ghost use Rattle.std.specs.Prelude.{◌≡◌, ◌<◌, All, IfOk, length};
ghost use Rattle.fmp_board.specs.Boards.{IsAt, blank as blank_of};

use crate::asking::SeatPlan;
use crate::exit::StressExit;
use crate::seat_calls::{SeatAnswers, SeatCalls, SeatRecord};
use crate::threads::{Party, SeatWork, Team, Times, run};
use fmp_base::Event;
use fmp_files::Failure;
use fmp_hostrun::{Blank, Board, BoardFault, Closed, Seat, Site};
use fmp_image_bytes::Image;
use std::alloc::{AllocError, Global};
use std::marker::Brand;
use std::sync::Wait;
use std::thread::Threads;
use std::time::Clock;

/// What came of a board.
#[derive(Drop)]
pub struct HostedBoard {
    /// The journal.
    pub journal: Vec<Event>,
    /// What the seats of each team did, first of those that followed.
    pub teams: Vec<Vec<SeatRecord>>,
    /// The answers to all calls, by count.
    pub answers: SeatAnswers,
    /// How many seats there were.
    pub seats: u32,
    /// How many of them read anything but the journal.
    pub differing: u32,
    /// How long it took.
    pub times: Times,
}

/// The last of the seats of a board, of which there is one.
fn last_of<S: Site>(alloc: Global, seats: &mut Vec<Seat>) -> SeatCalls<S>
    requires at { All (IsAt S.row_id) seats.old.items }
    requires some { 0 < length seats.old.items }
    ensures { All (IsAt S.row_id) seats.new.items }
{
    let Some(seat) = seats.pop() else {
        unreachable!()
    };
    SeatCalls::new(alloc, seat)
}

/// A new team of a seat. It is dropped if there is no memory for it.
fn push_team<S: Site>(
    alloc: Global,
    teams: &mut Vec<Team<S>>,
    seat: SeatCalls<S>,
    caller: Option<usize>,
) {
    let mut seats = Vec::new(alloc);
    let _ = seats.push(seat);
    let _ = teams.push(Team {
        seats,
        records: Vec::new(alloc),
        caller,
    });
}

/// Gives a seat to its team: the first ones follow, each by itself, and the others call, a fixed number in a team.
fn seat_in<S: Site>(alloc: Global, teams: &mut Vec<Team<S>>, seat: SeatCalls<S>, plan: &SeatPlan) {
    let number = seat.number();
    if number < plan.followers {
        push_team(alloc, teams, seat, None);
        return;
    }
    let caller = usize::from(number.saturating_sub(plan.followers));
    if caller % plan.share.max(1) == 0 {
        push_team(alloc, teams, seat, Some(caller));
    } else if let Some(team) = teams.last_mut() {
        let _ = team.seats.push(seat);
    }
}

/// All seats of a board, in their teams but for the last one.
fn party_of<S: Site>(alloc: Global, mut seats: Vec<Seat>, plan: &SeatPlan) -> Party<S>
    requires at { All (IsAt S.row_id) seats.items }
    requires some { 0 < length seats.items }
{
    let last = last_of::<S>(alloc, &mut seats);
    let mut teams = Vec::new(alloc);
    for seat in seats {
        seat_in(alloc, &mut teams, SeatCalls::new(alloc, seat), plan);
    }
    Party { teams, last }
}

/// What seats did.
#[derive(Drop)]
struct SeatsDone {
    records: Vec<Vec<SeatRecord>>,
    last: SeatRecord,
    times: Times,
}

fn ended_of<S: Site>(worked: SeatWork<S>) -> Result<SeatsDone, AllocError> {
    let SeatWork {
        records,
        last,
        times,
    } = worked;
    Ok(SeatsDone {
        records: records?,
        last: last.record(),
        times,
    })
}

/// Opens a board, runs it by its seats, and closes it: what they did, and the closed board.
fn opened<'a, S: Site + Send + Sync, R: Threads + Wait + Clock + Sync>(
    rt: &R,
    alloc: Global,
    blank: Blank<'a>,
    seats: Vec<Seat>,
    plan: &SeatPlan,
) -> (Result<SeatsDone, AllocError>, Closed<'a>)
    requires blank { blank ≡ blank_of S.image S.bound S.row_id }
    requires seats { All (IsAt S.row_id) seats.items }
    requires some { 0 < length seats.items }
{
    let party = party_of::<S>(alloc, seats, plan);
    let board: Board<'a, S> = blank.open();
    let mut worked = run(rt, &board, plan, party);
    let closed = worked.last.close(board);
    (ended_of(worked), closed)
}

/// The events of the journal of a closed board.
fn journal_of(alloc: Global, closed: &Closed<'_>) -> Result<Vec<Event>, AllocError> {
    let mut events = Vec::new(alloc);
    for i in 0..closed.len() {
        events.push(closed.event(i))?;
    }
    Ok(events)
}

impl HostedBoard {
    /// Counts what a seat did.
    fn count(&mut self, record: &SeatRecord) {
        self.seats = self.seats.saturating_add(1);
        self.answers = self.answers.with(record.answers);
        if record.followed.as_slice() != self.journal.as_slice() {
            self.differing = self.differing.saturating_add(1);
        }
    }

    /// Counts what the seats of a team did.
    fn count_team(&mut self, team: &[SeatRecord]) {
        for record in team {
            self.count(record);
        }
    }
}

/// What came of a board whose seats did this.
fn judged(
    alloc: Global,
    ended: Result<SeatsDone, AllocError>,
    closed: &Closed<'_>,
) -> Result<HostedBoard, AllocError> {
    let ended = ended?;
    let mut hosted = HostedBoard {
        journal: journal_of(alloc, closed)?,
        teams: Vec::new(alloc),
        answers: SeatAnswers::none(),
        seats: 0,
        differing: 0,
        times: ended.times,
    };
    for team in &ended.records {
        hosted.count_team(team);
    }
    hosted.count(&ended.last);
    hosted.teams = ended.records;
    Ok(hosted)
}

/// What came of a board whose seats did this, as `judged` has it; the board is given up.
fn judged_at_end(
    alloc: Global,
    ended: Result<SeatsDone, AllocError>,
    closed: Closed<'_>,
) -> Result<HostedBoard, AllocError> {
    let hosted = judged(alloc, ended, &closed);
    drop(closed);
    hosted
}

/// A board that is not yet open, and its seats, as `Blank::new` answers.
fn board_of<'a>(
    alloc: Global,
    image: &'a Image,
    n: u64,
    k: u32,
    m: u8,
) -> Result<(Blank<'a>, Vec<Seat>), BoardFault>
    ensures blank { IfOk result (λ made. made.0 ≡ blank_of image.now n made.0.row) }
    ensures seats { IfOk result (λ made. All (IsAt made.0.row) made.1.items) }
    ensures some { IfOk result (λ made. 0 < length made.1.items) }
{
    Blank::new(alloc, image, n, k, m)
}

/// What came of a board of an image, whose seats go by a plan.
fn run_board<R: Threads + Wait + Clock + Sync>(
    rt: &R,
    alloc: Global,
    image: &Image,
    plan: &SeatPlan,
) -> Result<Result<HostedBoard, AllocError>, BoardFault> {
    let (blank, seats) = board_of(alloc, image, plan.bound, plan.capacity, plan.seats)?;
    let (ended, closed) = opened::<Brand, R>(rt, alloc, blank, seats, plan);
    Ok(judged_at_end(alloc, ended, closed))
}

/// Hosts an image by a plan.
pub fn host<R: Threads + Wait + Clock + Sync>(
    rt: &R,
    alloc: Global,
    image: &Image,
    plan: &SeatPlan,
) -> Result<HostedBoard, StressExit> {
    match run_board(rt, alloc, image, plan) {
        Ok(Ok(hosted)) => Ok(hosted),
        Ok(Err(error)) => Err(StressExit::Failed(Failure::Memory(error))),
        Err(fault) => Err(StressExit::Board(fault)),
    }
}
