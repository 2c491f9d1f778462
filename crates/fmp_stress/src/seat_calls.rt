//! A seat of a board with what came of its calls.
ghost use Rattle.std.specs.Prelude.{IfSome};
ghost use Rattle.fmp_board.specs.Boards.{IsAt};
ghost use Rattle.fmp_board.specs.Outcomes.{IsDrawn};

use fmp_base::Event;
use fmp_hostrun::{Board, BoardFault, Closed, Follower, Outcome, Receipt, Seat, Site};
use std::alloc::{AllocError, Global};
use std::marker::PhantomData;
use std::sync::Wait;
use std::sync::atomic::{AtomicU64, Ordering};
use std::thread;

/// How often an outcome is made that is stale, one after the other.
const MOST_TRIES: u32 = 1000;

/// The answers to the calls of a seat, by count.
#[derive(Clone, Copy)]
pub struct SeatAnswers {
    /// Events that were journaled.
    pub journaled: u32,
    /// Events that did nothing.
    pub nothing: u32,
    /// Tickets that were asked for at a processor without an actor.
    pub idle: u32,
    /// Outcomes that were stale.
    pub stale: u32,
    /// Events for which the journal had no room.
    pub full: u32,
    /// Reads of the row that gave no event, though the seat had seen more.
    pub missed: u32,
    /// Events that were read for which there was no memory.
    pub lost: u32,
}

impl SeatAnswers {
    /// No answers yet.
    pub fn none() -> SeatAnswers {
        SeatAnswers {
            journaled: 0,
            nothing: 0,
            idle: 0,
            stale: 0,
            full: 0,
            missed: 0,
            lost: 0,
        }
    }

    /// Both together.
    pub fn with(self, more: SeatAnswers) -> SeatAnswers {
        SeatAnswers {
            journaled: self.journaled.saturating_add(more.journaled),
            nothing: self.nothing.saturating_add(more.nothing),
            idle: self.idle.saturating_add(more.idle),
            stale: self.stale.saturating_add(more.stale),
            full: self.full.saturating_add(more.full),
            missed: self.missed.saturating_add(more.missed),
            lost: self.lost.saturating_add(more.lost),
        }
    }

    /// Counts the answer to one event.
    fn count(&mut self, answer: Result<Receipt, BoardFault>) {
        let count = match answer {
            Ok(receipt) if receipt.number > 0 => &mut self.journaled,
            Ok(_) => &mut self.nothing,
            Err(BoardFault::Stale) => &mut self.stale,
            Err(_) => &mut self.full,
        };
        *count = count.saturating_add(1);
    }
}

/// What a seat did.
#[derive(Drop)]
pub struct SeatRecord {
    /// The events that it followed.
    pub followed: Vec<Event>,
    /// What a follower printed of them, where it read by one.
    pub printed: Vec<u8>,
    /// The answers to its calls.
    pub answers: SeatAnswers,
}

/// A seat of a board with what came of its calls.
#[derive(Drop)]
pub struct SeatCalls<S: Site> {
    seat: Seat,
    /// How many events it has seen at least.
    seen: u32,
    followed: Vec<Event>,
    answers: SeatAnswers,
    board: PhantomData<S>,
    ghost at: { IsAt S.row_id seat },
}

/// The outcome of the stretch that the actor of processor p makes next, made outside the board's lock. None if the
/// processor has no actor.
fn drawn<S: Site, R: Wait>(rt: &R, board: &Board<'_, S>, seat: &mut Seat, p: u8) -> Option<Outcome>
    requires { IsAt S.row_id seat.old }
    ensures at { IsAt S.row_id seat.new }
    ensures drawn { IfSome result (λ o. IsDrawn S.image S.bound seat.new.seen o.ticket) }
{
    Some(board.ticket(rt, seat, p)?.stretch())
}

/// Draws an outcome and submits it.
fn submitted<S: Site, R: Wait>(
    rt: &R,
    board: &Board<'_, S>,
    seat: &mut Seat,
    p: u8,
) -> Option<Result<Receipt, BoardFault>>
    requires { IsAt S.row_id seat.old }
    ensures { IsAt S.row_id seat.new }
{
    let outcome = drawn(rt, board, seat, p)?;
    Some(board.submit(rt, seat, outcome))
}

/// Feeds an event, and then submits an outcome that was drawn before.
fn submitted_after<S: Site, R: Wait>(
    rt: &R,
    board: &Board<'_, S>,
    seat: &mut Seat,
    event: Event,
    outcome: Outcome,
) -> (Result<Receipt, BoardFault>, Result<Receipt, BoardFault>)
    requires at { IsAt S.row_id seat.old }
    requires drawn { IsDrawn S.image S.bound seat.old.seen outcome.ticket }
    ensures { IsAt S.row_id seat.new }
{
    let fed = board.feed(rt, seat, event);
    (fed, board.submit(rt, seat, outcome))
}

/// Pulls through a follower until no team is calling and the row has no more events.
fn pull_all<S: Site>(
    follower: &mut Follower<'_, '_, S>,
    calling: &AtomicU64,
    followed: &mut Vec<Event>,
    printed: &mut Vec<u8>,
) -> Result<(), AllocError> {
    for _ in 0..u64::MAX {
        let is_last = calling.load(Ordering::SeqCst) == 0;
        match follower.pull(printed)? {
            Some(event) => followed.push(event)?,
            None if is_last => break,
            None => thread::yield_now(),
        }
    }
    Ok(())
}

/// What a follower does until no team is calling and the row has no more events.
fn pulled<S: Site>(
    alloc: Global,
    follower: &mut Follower<'_, '_, S>,
    calling: &AtomicU64,
    mut printed: Vec<u8>,
) -> SeatRecord {
    let mut followed = Vec::new(alloc);
    let mut answers = SeatAnswers::none();
    if pull_all(follower, calling, &mut followed, &mut printed).is_err() {
        answers.lost = 1;
    }
    SeatRecord {
        followed,
        printed,
        answers,
    }
}

/// What a follower does from a seat that read no event yet.
fn printed<S: Site>(
    alloc: Global,
    board: &Board<'_, S>,
    mut seat: Seat,
    calling: &AtomicU64,
) -> Result<SeatRecord, AllocError>
    requires { IsAt S.row_id seat }
{
    if seat.place() != 0 {
        return Err(AllocError);
    }
    let mut text = Vec::new(alloc);
    match Follower::new(alloc, board, &mut seat, &mut text) {
        Ok(mut follower) => {
            let record = pulled(alloc, &mut follower, calling, text);
            follower.end();
            Ok(record)
        }
        Err(fault) => Err(fault),
    }
}

impl<S: Site> SeatCalls<S> {
    ghost use Rattle.fmp_board.specs.Boards.{IsAt};

    /// A seat that made no call yet.
    pub fn new(alloc: Global, seat: Seat) -> SeatCalls<S>
        requires { IsAt S.row_id seat }
    {
        SeatCalls {
            seat,
            seen: 0,
            followed: Vec::new(alloc),
            answers: SeatAnswers::none(),
            board: PhantomData,
        }
    }

    /// The number of the seat.
    pub fn number(&self) -> u8 {
        self.seat.number()
    }

    /// How many events it followed.
    pub fn read_count(&self) -> u32 {
        self.seat.place()
    }

    /// Closes the board.
    pub fn close<'a>(&mut self, board: Board<'a, S>) -> Closed<'a> {
        board.close(&mut self.seat)
    }

    /// Counts the answer to an event.
    fn note(&mut self, answer: Result<Receipt, BoardFault>) {
        if let Ok(receipt) = answer {
            self.seen = self.seen.max(receipt.number);
        }
        self.answers.count(answer);
    }

    /// Counts a ticket that was not given.
    fn note_idle(&mut self) {
        self.answers.idle = self.answers.idle.saturating_add(1);
    }

    /// Runs the actor of processor p once, by a ticket. A stale outcome is made again.
    pub fn run<R: Wait>(&mut self, rt: &R, board: &Board<'_, S>, p: u8) {
        for _ in 0..MOST_TRIES {
            let Some(answer) = submitted(rt, board, &mut self.seat, p) else {
                self.note_idle();
                return;
            };
            self.note(answer);
            if answer != Err(BoardFault::Stale) {
                return;
            }
        }
    }

    /// Runs the actor of processor p by a ticket, and feeds an event before the outcome is submitted.
    pub fn run_late<R: Wait>(&mut self, rt: &R, board: &Board<'_, S>, p: u8, event: Event) {
        let Some(outcome) = drawn(rt, board, &mut self.seat, p) else {
            self.note_idle();
            return;
        };
        let (fed, answer) = submitted_after(rt, board, &mut self.seat, event, outcome);
        self.note(fed);
        self.note(answer);
    }

    /// Feeds an event.
    pub fn feed<R: Wait>(&mut self, rt: &R, board: &Board<'_, S>, event: Event) {
        let answer = board.feed(rt, &mut self.seat, event);
        self.note(answer);
    }

    /// Meets another seat.
    pub fn meet<R: Wait>(&mut self, rt: &R, board: &Board<'_, S>, other: &mut SeatCalls<S>) {
        board.meet(rt, &mut self.seat, &mut other.seat);
        self.seen = self.seen.max(other.seen);
        other.seen = self.seen;
    }

    /// Reads the next event of the row: whether there was one.
    pub fn read(&mut self, board: &Board<'_, S>) -> bool {
        match board.follow(&mut self.seat) {
            Some(event) => {
                if self.followed.push(event).is_err() {
                    self.answers.lost = self.answers.lost.saturating_add(1);
                }
                true
            }
            None => {
                if self.seat.place() < self.seen {
                    self.answers.missed = self.answers.missed.saturating_add(1);
                }
                false
            }
        }
    }

    /// Reads the row until it has no more events.
    pub fn read_all(&mut self, board: &Board<'_, S>) {
        for _ in 0..board.capacity() {
            if !self.read(board) {
                return;
            }
        }
    }

    /// Reads the row until no team is calling and it has no more events: what it did.
    pub fn follow(mut self, board: &Board<'_, S>, calling: &AtomicU64) -> SeatRecord {
        for _ in 0..u64::MAX {
            let is_last = calling.load(Ordering::SeqCst) == 0;
            if self.read(board) {
                continue;
            }
            if is_last {
                break;
            }
            thread::yield_now();
        }
        self.record()
    }

    /// Reads the row by a follower, which prints it, until no team is calling and it has no more events: what it did.
    /// The seat made no call yet.
    pub fn print(
        self,
        board: &Board<'_, S>,
        calling: &AtomicU64,
    ) -> Result<SeatRecord, AllocError> {
        let alloc = *self.followed.allocator();
        printed(alloc, board, self.seat, calling)
    }

    /// What it did.
    pub fn record(self) -> SeatRecord {
        let SeatCalls {
            seat: _,
            seen: _,
            followed,
            answers,
            board: _,
        } = self;
        let printed = Vec::new(*followed.allocator());
        SeatRecord {
            followed,
            printed,
            answers,
        }
    }
}
