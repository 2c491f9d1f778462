//! The threads that share a board.
use crate::asking::SeatPlan;
use crate::seat_calls::{SeatCalls, SeatRecord};
use crate::turns::{call, call_alone};
use fmp_hostrun::{Board, Site};
use std::alloc::AllocError;
use std::sync::Wait;
use std::sync::atomic::{AtomicU64, Ordering};
use std::thread;
use std::thread::Threads;
use std::time::Clock;

/// Seats that share a thread.
#[derive(Drop)]
pub struct Team<S: Site> {
    pub seats: Vec<SeatCalls<S>>,
    /// What those did that are done.
    pub records: Vec<SeatRecord>,
    /// The place of the first one among all that call, or none if they follow.
    pub caller: Option<usize>,
}

/// All seats of a board.
#[derive(Drop)]
pub struct Party<S: Site> {
    /// Those that follow, and then those that call.
    pub teams: Vec<Team<S>>,
    /// The one that reads the finished row and closes the board. It calls only where no other one does.
    pub last: SeatCalls<S>,
}

/// How long a run took, in microseconds, or 0 if the clock cannot be read.
#[derive(Clone, Copy)]
pub struct Times {
    /// The calls.
    pub calls: u64,
    /// The reads of the finished row.
    pub reads: u64,
    /// How many events these gave.
    pub read: u32,
}

/// What came of all seats of a board.
#[derive(Drop)]
pub struct SeatWork<S: Site> {
    /// What the teams did.
    pub records: Result<Vec<Vec<SeatRecord>>, AllocError>,
    /// The one that closes the board.
    pub last: SeatCalls<S>,
    /// How long it took.
    pub times: Times,
}

/// What a clock shows, in microseconds.
fn now<C: Clock>(clock: &C) -> u64 {
    match clock.monotonic() {
        Ok(time) => u64::try_from(time.as_micros()).unwrap_or(0),
        Err(_) => 0,
    }
}

impl<S: Site> Team<S> {
    /// Makes the turns of seats that call, and says then that this team has ended. All read the row until each team
    /// that calls has ended, those that only follow by a follower: what they did. A seat for which there is no memory
    /// has no record.
    fn work<R: Wait>(
        self,
        rt: &R,
        board: &Board<'_, S>,
        plan: &SeatPlan,
        calling: &AtomicU64,
    ) -> Vec<SeatRecord> {
        let Team {
            mut seats,
            mut records,
            caller,
        } = self;
        if let Some(first) = caller {
            call(rt, board, plan, first, &mut seats);
            calling.fetch_sub(1, Ordering::SeqCst);
        }
        for seat in seats {
            let record = match caller {
                Some(_) => Ok(seat.follow(board, calling)),
                None => seat.print(board, calling),
            };
            if let Ok(record) = record {
                let _ = records.push(record);
            }
        }
        records
    }
}

/// How many teams call.
fn count_calling<S: Site>(teams: &[Team<S>]) -> u64 {
    let mut count = 0_u64;
    for team in teams {
        if team.caller.is_some() {
            count = count.saturating_add(1);
        }
    }
    count
}

/// What these teams do, each in a thread.
fn work_all<S: Site + Send + Sync, R: Threads + Wait + Sync>(
    rt: &R,
    board: &Board<'_, S>,
    plan: &SeatPlan,
    teams: Vec<Team<S>>,
) -> Result<Vec<Vec<SeatRecord>>, AllocError> {
    let calling = AtomicU64::new(count_calling(&teams));
    let calling = &calling;
    thread::map_vec(
        rt,
        teams,
        &|team: Team<S>| -> Vec<SeatRecord> { team.work(rt, board, plan, calling) },
    )
}

/// Runs a board by its seats: some call, and others follow beside them. At last the last one reads the row.
pub fn run<S: Site + Send + Sync, R: Threads + Wait + Clock + Sync>(
    rt: &R,
    board: &Board<'_, S>,
    plan: &SeatPlan,
    party: Party<S>,
) -> SeatWork<S> {
    let Party { teams, mut last } = party;
    let began = now(rt);
    if plan.seats == 1 {
        call_alone(rt, board, plan, &mut last);
    }
    let records = work_all(rt, board, plan, teams);
    let called = now(rt);
    let before = last.read_count();
    last.read_all(board);
    let times = Times {
        calls: called.saturating_sub(began),
        reads: now(rt).saturating_sub(called),
        read: last.read_count().saturating_sub(before),
    };
    SeatWork {
        records,
        last,
        times,
    }
}
