//! Boards that threads run at gates.
use crate::gate::SecondFirst;
use crate::refusing::LetsOne;
use crate::tests::boards::{SUSPENDED, TWO_TASKS, board_of, first_events};
use crate::tests::threads::run;
use fmp_base::Event;
use fmp_hostrun::{BoardFault, Closed, Gate};
use fmp_image::{Image, build};
use std::alloc::Global;
use std::marker::Brand;
use std::process::Abort;
use std::sync::Wait;
use std::test::Fail;
use std::thread::Threads;

/// How a board is run.
#[derive(Clone, Copy)]
struct Schedule {
    /// How many events it has room for.
    capacity: u32,
    /// How many turns each processor has.
    turns: u32,
}

/// What is seen of a board that was run.
#[derive(Clone, Copy)]
struct Ran {
    /// How many events the threads journaled, or the first fault.
    answer: Result<u32, BoardFault>,
    /// How many seats came back.
    seats: usize,
    /// How many events the journal has.
    events: u32,
    /// The first three of them.
    first: [Option<Event>; 3],
}

impl Ran {
    fn new(answer: Result<u32, BoardFault>, seats: usize, closed: &Closed<'_>) -> Ran {
        Ran {
            answer,
            seats,
            events: closed.len(),
            first: first_events(closed),
        }
    }
}

/// Runs a board of an image of two processors at a gate.
fn ran_on<G: Gate, R: Threads + Wait + Sync>(
    rt: &R,
    alloc: Global,
    image: &Image,
    gate: &G,
    schedule: Schedule,
) -> Result<Ran, Fail> {
    let (blank, seats) = board_of(alloc, image, schedule.capacity, 3)?;
    let (answer, count, closed) = run::<Brand, G, R>(rt, alloc, blank, seats, gate, schedule.turns);
    let ran = Ran::new(answer, count, &closed);
    drop(closed);
    Ok(ran)
}

/// Runs a board of the image of two texts at a gate.
fn run_texts<G: Gate, R: Threads + Wait + Sync>(
    rt: &R,
    alloc: Global,
    texts: (&str, &str),
    gate: &G,
    schedule: Schedule,
) -> Result<Ran, Fail> {
    let image = build(alloc, texts.0.as_bytes(), texts.1.as_bytes())?;
    ran_on(rt, alloc, &image, gate, schedule)
}

#[test]
fn processors_that_wait_for_one_another(rt: HostRuntime) -> Result<(), Fail> {
    let gate = SecondFirst::new(1);
    let schedule = Schedule {
        capacity: 8,
        turns: 4,
    };
    let ran = run_texts(&rt, rt.alloc(), TWO_TASKS, &gate, schedule)?;
    // All stretches of both tasks.
    assert_eq!(rt; ran.answer?, 6);
    assert_eq!(rt; ran.seats, 3);
    assert_eq!(rt; ran.events, 6);
    assert_eq!(rt; ran.first[0], Some(Event::Run(2)));
    Ok(())
}

/// The second processor suspends and resumes the task of the first before the first outcome of that is submitted. The
/// outcome is stale, since its stretch was made outside the lock.
#[test]
fn two_turns_of_which_one_is_stale(rt: HostRuntime) -> Result<(), Fail> {
    let gate = SecondFirst::new(2);
    let schedule = Schedule {
        capacity: 6,
        turns: 2,
    };
    let ran = run_texts(&rt, rt.alloc(), SUSPENDED, &gate, schedule)?;
    // Each turn was answered, the stale one too.
    assert_eq!(rt; gate.told(), 4);
    assert_eq!(rt; ran.answer?, 3);
    assert_eq!(rt; ran.events, 3);
    let expected = [
        Some(Event::Run(2)),
        Some(Event::Run(2)),
        Some(Event::Run(1)),
    ];
    assert_eq!(rt; ran.first, expected);
    Ok(())
}

/// Each turn of either processor is an event: two of the first task, and both of the second. Where the board has room
/// for one event fewer, the last turn finds the journal full.
#[test]
fn room_for_one_event_fewer(rt: HostRuntime) -> Result<(), Fail> {
    for (capacity, answer) in [(4, Ok(4)), (3, Err(BoardFault::Full))] {
        let gate = SecondFirst::new(1);
        let schedule = Schedule { capacity, turns: 2 };
        let ran = run_texts(&rt, rt.alloc(), TWO_TASKS, &gate, schedule)?;
        assert_eq!(rt; ran.answer, answer);
        assert_eq!(rt; ran.seats, 3);
        assert_eq!(rt; ran.events, capacity);
        assert_eq!(rt; gate.told(), 4);
    }
    Ok(())
}

#[test]
fn gates_that_say_no(rt: HostRuntime) -> Result<(), Fail> {
    let schedule = Schedule {
        capacity: 1,
        turns: 2,
    };
    // A processor is held once it was refused 10,000 times; one that goes on finds the journal full in its second turn.
    for (processor, fault, journal, refused, told) in [
        (0, BoardFault::Held, None, 20_000, 0),
        (1, BoardFault::Full, Some(Event::Run(1)), 10_000, 2),
        (2, BoardFault::Held, Some(Event::Run(2)), 10_000, 2),
    ] {
        let gate = LetsOne::new(processor);
        let ran = run_texts(&rt, rt.alloc(), TWO_TASKS, &gate, schedule)?;
        assert_eq!(rt; ran.answer, Err(fault));
        assert_eq!(rt; ran.first, [journal, None, None]);
        assert_eq!(rt; gate.refused(), refused);
        assert_eq!(rt; gate.told(), told);
    }
    Ok(())
}
