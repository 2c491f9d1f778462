//! A board that one seat feeds, and a follower that prints its trace.
ghost use Rattle.std.specs.Prelude.{◌≡◌, All};
ghost use Rattle.fmp_board.specs.Boards.{IsAt, blank as blank_of};

use crate::tests::boards::{TWO_TASKS, board_of, one};
use fmp_base::Event;
use fmp_hostrun::{Blank, Board, Follower, FollowerStart, Seat, Site};
use fmp_image::{Image, build};
use std::alloc::{AllocError, Global};
use std::marker::Brand;
use std::process::Abort;
use std::sync::Wait;
use std::test::Fail;

const EVENTS: [Event; 6] = [
    Event::Run(2),
    Event::Run(1),
    Event::Run(1),
    Event::Run(2),
    Event::Run(1),
    Event::Run(1),
];

const TRACE: &str = "0 p1 A starts
0 p2 B starts
0 p1 > A
0 p2 > B
1 p2 B put(9) E_OK
2 p1 A st_shr(1,5) E_OK
3 p1 A ld_shr(1) E_OK 5
4 p2 B end
5 p1 A put(5) E_OK
6 p1 A end
";

/// Feeds each event by one seat, and pulls it through a follower: whether the follower gave each that was fed.
fn fed_and_pulled<S: Site, R: Wait>(
    rt: &R,
    board: &Board<'_, S>,
    seat: &mut Seat,
    follower: &mut Follower<'_, '_, S>,
    text: &mut Vec<u8>,
) -> Result<bool, AllocError>
    requires { IsAt S.row_id seat.old }
{
    let mut same = true;
    for event in EVENTS {
        let fed = board.feed(rt, seat, event);
        same = follower.pull(text)? == Some(event) && fed.is_ok() && same;
    }
    Ok(same)
}

/// The same, by two seats of a board, of which the second was given no event.
fn followed<S: Site, R: Wait>(
    rt: &R,
    alloc: Global,
    board: &Board<'_, S>,
    seat: &mut Seat,
    reader: &mut Seat,
    text: &mut Vec<u8>,
) -> Result<bool, AllocError>
    requires seat { IsAt S.row_id seat.old }
    requires reader { IsAt S.row_id reader.old }
    requires fresh { reader.old.place ≡ 0 }
{
    let mut follower = FollowerStart::new(alloc, board, text)?.follow(reader);
    let same = fed_and_pulled(rt, board, seat, &mut follower, text);
    follower.end();
    same
}

/// The same, by two of the seats of a board.
fn followed_by<S: Site, R: Wait>(
    rt: &R,
    alloc: Global,
    board: &Board<'_, S>,
    seats: &mut Vec<Seat>,
    text: &mut Vec<u8>,
) -> Result<bool, AllocError>
    requires { All (IsAt S.row_id) seats.old.items }
{
    let Some(mut seat) = one::<S>(seats) else {
        return Ok(false);
    };
    let Some(mut reader) = one::<S>(seats) else {
        return Ok(false);
    };
    if reader.place() != 0 {
        return Ok(false);
    }
    followed(rt, alloc, board, &mut seat, &mut reader, text)
}

/// The same, by the seats of a board that is not yet open.
fn followed_on<S: Site, R: Wait>(
    rt: &R,
    alloc: Global,
    blank: Blank<'_>,
    mut seats: Vec<Seat>,
    text: &mut Vec<u8>,
) -> Result<bool, AllocError>
    requires blank { blank ≡ blank_of S.image S.bound S.row_id }
    requires seats { All (IsAt S.row_id) seats.items }
{
    let board: Board<'_, S> = blank.open();
    followed_by(rt, alloc, &board, &mut seats, text)
}

/// The same, on a board of an image.
fn followed_of<R: Wait>(
    rt: &R,
    alloc: Global,
    image: &Image,
    text: &mut Vec<u8>,
) -> Result<bool, Fail> {
    let (blank, seats) = board_of(alloc, image, 8, 2)?;
    Ok(followed_on::<Brand, R>(rt, alloc, blank, seats, text)?)
}

/// The same, on a board of the image of two tasks.
fn followed_of_two_tasks<R: Wait>(rt: &R, alloc: Global, text: &mut Vec<u8>) -> Result<bool, Fail> {
    let image = build(alloc, TWO_TASKS.0.as_bytes(), TWO_TASKS.1.as_bytes())?;
    followed_of(rt, alloc, &image, text)
}

#[test]
fn a_board_that_was_fed(rt: HostRuntime) -> Result<(), Fail> {
    let mut text = Vec::new(rt.alloc());
    let same = followed_of_two_tasks(&rt, rt.alloc(), &mut text)?;
    assert!(rt; same);
    assert_eq!(rt; str::from_utf8(&text)?, TRACE);
    Ok(())
}
