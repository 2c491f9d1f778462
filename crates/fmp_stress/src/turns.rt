//! What seats do in their turns.
use crate::asking::SeatPlan;
use crate::seat_calls::SeatCalls;
use fmp_base::Event;
use fmp_hostrun::{Board, Site};
use rand_core::SeedableRng;
use rand_core::utils::NextWord;
use rand_pcg::Pcg32;
use std::sync::Wait;

/// How many turns there are from one meeting of two seats to the next.
const MEETING: u32 = 4;

/// What a seat does in a turn.
enum SeatDeed {
    /// Runs this processor by a ticket.
    Run(u8),
    /// Runs this processor by a ticket, of which the outcome is submitted after this event.
    RunLate(u8, Event),
    /// Feeds this event.
    Feed(Event),
    /// Reads the next event of the row.
    Read,
}

/// The random source of the turns of a thread's seats.
#[derive(Drop)]
struct Draws<'a, 'b, S: Site> {
    board: &'b Board<'a, S>,
    processors: u8,
    own: bool,
    random: Pcg32,
}

impl<'a, 'b, S: Site> Draws<'a, 'b, S> {
    /// The draws of the thread whose first seat has this place among those of all threads.
    fn new(board: &'b Board<'a, S>, plan: &SeatPlan, first: usize) -> Draws<'a, 'b, S> {
        Draws {
            board,
            processors: board.processors(),
            own: plan.own,
            random: Pcg32::seed_from_u64(plan.seed.wrapping_add(first as u64)),
        }
    }

    /// One of the processors, by any number.
    fn processor(&self, number: u32) -> u8 {
        let place = (number % u32::from(self.processors.max(1))) as u8;
        place.saturating_add(1)
    }

    /// One of the interrupts that have a handler, by any number, or one that has none.
    fn interrupt(&self, number: u32) -> u8 {
        let interrupts = &self.board.image().system().interrupts;
        match interrupts.get(number as usize % interrupts.len().max(1)) {
            Some(config) => config.number,
            None => 32,
        }
    }

    /// What the seat of this number does next.
    fn deed(&mut self, number: u8) -> SeatDeed {
        if self.own {
            return SeatDeed::Run(self.processor(u32::from(number)));
        }
        let word = self.random.next_word();
        let other = word / 16;
        match word % 16 {
            0 => SeatDeed::Feed(Event::Run(self.processor(other))),
            1 => SeatDeed::Feed(Event::Int(self.interrupt(other))),
            2 => SeatDeed::Read,
            3 => {
                let event = Event::Run(self.processor(other / 64));
                SeatDeed::RunLate(self.processor(other), event)
            }
            _ => SeatDeed::Run(self.processor(other)),
        }
    }
}

/// One turn of a seat.
fn take_turn<S: Site, R: Wait>(rt: &R, draws: &mut Draws<'_, '_, S>, seat: &mut SeatCalls<S>) {
    match draws.deed(seat.number()) {
        SeatDeed::Run(p) => seat.run(rt, draws.board, p),
        SeatDeed::RunLate(p, event) => seat.run_late(rt, draws.board, p, event),
        SeatDeed::Feed(event) => seat.feed(rt, draws.board, event),
        SeatDeed::Read => {
            seat.read(draws.board);
        }
    }
}

/// One turn of each seat.
fn take_turns<S: Site, R: Wait>(rt: &R, draws: &mut Draws<'_, '_, S>, seats: &mut [SeatCalls<S>]) {
    for seat in seats {
        take_turn(rt, draws, seat);
    }
}

/// The first two seats meet.
fn meet<S: Site, R: Wait>(rt: &R, board: &Board<'_, S>, seats: &mut [SeatCalls<S>]) {
    if let [one, other, ..] = seats {
        one.meet(rt, board, other);
    }
}

/// The first seat feeds a tick.
fn tick<S: Site, R: Wait>(rt: &R, board: &Board<'_, S>, seats: &mut [SeatCalls<S>]) {
    if let [one, ..] = seats {
        one.feed(rt, board, Event::Tick);
    }
}

/// The turns of the seats of a thread, of which the first has this place among all. The very first one feeds the ticks.
pub fn call<S: Site, R: Wait>(
    rt: &R,
    board: &Board<'_, S>,
    plan: &SeatPlan,
    first: usize,
    seats: &mut [SeatCalls<S>],
) {
    let mut draws = Draws::new(board, plan, first);
    let mut left = if first == 0 { plan.ticks } else { 0 };
    let gap = (plan.turns / plan.ticks.max(1)).max(1);
    for turn in 0..plan.turns {
        take_turns(rt, &mut draws, seats);
        if turn % MEETING == 0 {
            meet(rt, board, seats);
        }
        if left > 0 && turn % gap == 0 {
            tick(rt, board, seats);
            left -= 1;
        }
    }
}

/// The turns of a seat that is the only one.
pub fn call_alone<S: Site, R: Wait>(
    rt: &R,
    board: &Board<'_, S>,
    plan: &SeatPlan,
    seat: &mut SeatCalls<S>,
) {
    let mut draws = Draws::new(board, plan, 0);
    for _ in 0..plan.turns {
        take_turn(rt, &mut draws, seat);
    }
}
