//! A stretch that is made outside the lock, and overtaken.
ghost use Rattle.std.specs.Prelude.{◌≡◌, All};
ghost use Rattle.fmp_board.specs.Boards.{IsAt, blank as blank_of};
ghost use Rattle.fmp_board.specs.Outcomes.{IsDrawn};

use crate::tests::boards::{SUSPENDED, board_of, first_events, one};
use fmp_base::{Effect, Er, Event, Reply};
use fmp_hostrun::{Blank, Board, BoardFault, Outcome, Receipt, Seat, Site};
use fmp_image::{Image, build};
use std::alloc::{AllocError, Global};
use std::marker::Brand;
use std::process::Abort;
use std::sync::Wait;
use std::test::Fail;

/// What is answered to two runs of processor 2, and to an outcome of processor 1 that was made before them.
type Answers = Option<[Result<Receipt, BoardFault>; 3]>;

/// Two runs of processor 2, and then an outcome that was made before them.
fn overtaken_by_two<S: Site, R: Wait>(
    rt: &R,
    board: &Board<'_, S>,
    seat: &mut Seat,
    outcome: Outcome,
) -> [Result<Receipt, BoardFault>; 3]
    requires at { IsAt S.row_id seat.old }
    requires drawn { IsDrawn S.image S.bound seat.old.seen outcome.ticket }
{
    let first = board.feed(rt, seat, Event::Run(2));
    let second = board.feed(rt, seat, Event::Run(2));
    let answer = board.submit(rt, seat, outcome);
    [first, second, answer]
}

/// Has a stretch overtaken on a board. None if processor 1 has no actor.
fn overtaken<S: Site, R: Wait>(rt: &R, board: &Board<'_, S>, seat: &mut Seat) -> Answers
    requires { IsAt S.row_id seat.old }
{
    let ticket = board.ticket(rt, seat, 1)?;
    Some(overtaken_by_two(rt, board, seat, ticket.stretch()))
}

/// Opens a board, has a stretch overtaken by one of its seats, and closes it: what was answered, and its journal.
fn overtaken_on<S: Site, R: Wait>(
    rt: &R,
    blank: Blank<'_>,
    mut seats: Vec<Seat>,
) -> (Answers, [Option<Event>; 3])
    requires blank { blank ≡ blank_of S.image S.bound S.row_id }
    requires seats { All (IsAt S.row_id) seats.items }
{
    let board: Board<'_, S> = blank.open();
    let answers = match one::<S>(&mut seats) {
        Some(mut seat) => overtaken(rt, &board, &mut seat),
        None => None,
    };
    let closed = board.close_all(seats);
    let journal = first_events(&closed);
    drop(closed);
    (answers, journal)
}

/// The same, of a board of an image that has room for two events.
fn overtaken_of<R: Wait>(
    rt: &R,
    alloc: Global,
    image: &Image,
) -> Result<(Answers, [Option<Event>; 3]), Fail> {
    let (blank, seats) = board_of(alloc, image, 2, 1)?;
    Ok(overtaken_on::<Brand, R>(rt, blank, seats))
}

/// The same, of the image of a task that is suspended and resumed.
fn overtaken_of_suspended<R: Wait>(
    rt: &R,
    alloc: Global,
) -> Result<(Answers, [Option<Event>; 3]), Fail> {
    let image = build(alloc, SUSPENDED.0.as_bytes(), SUSPENDED.1.as_bytes())?;
    overtaken_of(rt, alloc, &image)
}

/// What is answered to the event at this place of the journal, from 1, whose call replies E_OK.
fn done(number: u32) -> Result<Receipt, BoardFault> {
    Ok(Receipt {
        number,
        effect: Effect::Done,
        reply: Some(Reply {
            code: Er::Ok,
            value: None,
        }),
    })
}

#[test]
fn a_board_that_takes_no_memory_once_it_is_made(rt: HostRuntime) -> Result<(), Fail> {
    let alloc = rt.alloc();
    let (answers, journal) = overtaken_of_suspended(&rt, alloc)?;
    // The one growth after those of the board, for a run that refuses all from there on.
    let _refused: Result<Vec<u8>, AllocError> = Vec::with_capacity(alloc, 1);
    let expected = [done(1), done(2), Err(BoardFault::Stale)];
    assert_eq!(rt; answers, Some(expected));
    assert_eq!(rt; journal, [Some(Event::Run(2)), Some(Event::Run(2)), None]);
    Ok(())
}
