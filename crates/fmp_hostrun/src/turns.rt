//! What one thread of a board does: the turns of a processor, the ticks, or the interrupts.
ghost use Rattle.std.specs.Prelude.{◌≡◌, ◌+◌, ◌<◌, cond, true, length, IfOk, IfErr, MatchBool, None, Some, nat_lt};
ghost use Rattle.fmp_base.specs.declared.events.Event.TheVariants.{Int, Run, Tick};
ghost use Rattle.fmp_board.specs.declared.fault.BoardFault.TheVariants.{Full};
ghost use Rattle.fmp_board.specs.Boards.{IsAt};
ghost use Rattle.fmp_board.specs.Outcomes.{Drew, IsDrawn, IsOutcome};
ghost use Rattle.fmp_board.specs.Visits.{Visited};
ghost use Rattle.fmp_hostrun.specs.Works.{Added, DidOnce, DidPart, GaveBack, IsFed, IsWhyStopped, gave, job_of};

use crate::feed::Feed;
use fmp_base::Event;
use fmp_board::{BoardFault, Receipt, Workspace};
use fmp_journal::Seat;
use std::sync::Wait;
use std::thread;

/// How often a gate is asked of one turn.
const MOST_ASKED: u32 = 10_000;

/// How often a processor that has nothing to run looks again in one turn: more often than any run lasts.
const MOST_LOOKS: u64 = u64::MAX;

/// Decides when the processors go on. Both calls come from the thread of the processor, and may wait.
pub trait Gate: Sync {
    ghost use Rattle.std.specs.Prelude.{◌≡◌, true};

    /// Whether each gate of this type always says yes.
    ghost is_open: { Type 0 };

    /// Whether this turn of processor p, counted from 1, may go on. It is asked until it says yes, at most 10,000
    /// times; then the processor stops.
    fn may_submit(&self, p: u8, turn: u32) -> bool
        ensures { is_open → result ≡ true };

    /// The board has answered this turn of processor p, by a receipt or by a refusal. A turn in which the processor has
    /// no actor is neither asked for nor answered.
    fn answered(&self, p: u8, turn: u32);
}

/// When the ticks and interrupts of a board come, and how long a processor waits that has nothing to run. Each call may
/// wait. No promise of a board depends on it.
pub trait Pace: Sync {
    /// That many threads are about to start.
    fn begins(&self, threads: usize);

    /// The system refused one of the threads: no more are started.
    fn refused(&self);

    /// A thread has done its part, or stopped before.
    fn ended(&self);

    /// Which moment it is. Another one comes with each event that is journaled.
    fn moment(&self) -> u64;

    /// Whether a processor that had nothing to run at this moment or later is to look again. If not, its turn is
    /// over.
    fn looks_again(&self, moment: u64) -> bool;

    /// This tick is next, counted from 1.
    fn before_tick(&self, tick: u32);

    /// Whether one more interrupt comes. If not, none comes any more.
    fn interrupt_comes(&self) -> bool;

    /// An event was journaled.
    fn journaled(&self, event: Event);
}

/// As fast as it goes, with no interrupts: a processor that has nothing to run does not wait.
pub struct Unpaced;

impl Pace for Unpaced {
    fn begins(&self, _threads: usize) {}

    fn refused(&self) {}

    fn ended(&self) {}

    fn moment(&self) -> u64 {
        0
    }

    fn looks_again(&self, _moment: u64) -> bool {
        false
    }

    fn before_tick(&self, _tick: u32) {}

    fn interrupt_comes(&self) -> bool {
        false
    }

    fn journaled(&self, _event: Event) {}
}

/// The part of a thread of a board: to run a processor, each time in a turn, or to feed ticks or interrupts; and how
/// many times.
#[derive(Clone, Copy)]
pub(crate) struct ThreadPart {
    pub event: Event,
    pub times: u32,
}

/// What the threads of a board are to do.
#[derive(Clone, Copy)]
pub struct Load {
    /// How many processors there are: those of the image.
    pub processors: u8,
    /// How many turns each of them has.
    pub turns: u32,
    /// How many ticks come.
    pub ticks: u32,
    /// The interrupt that may come.
    pub interrupt: u8,
    /// At most how many times it comes.
    pub interrupts: u32,
}

impl Load {
    ghost use Rattle.std.specs.Prelude.{◌≡◌};
    ghost use Rattle.fmp_hostrun.specs.Works.{part_at};

    /// The part of the thread at this place: the processors come first, then the ticks, and then the interrupts.
    pub(crate) fn part(self, place: usize) -> ThreadPart
        ensures { result ≡ part_at self place }
    {
        if place < self.processors as usize {
            ThreadPart {
                event: Event::Run(place as u8 + 1),
                times: self.turns,
            }
        } else if place == self.processors as usize {
            ThreadPart {
                event: Event::Tick,
                times: self.ticks,
            }
        } else {
            ThreadPart {
                event: Event::Int(self.interrupt),
                times: self.interrupts,
            }
        }
    }
}

/// Asks a gate until it says yes to this turn, at most 10,000 times: whether it did.
fn is_let<G: Gate>(gate: &G, p: u8, turn: u32) -> bool
    ensures { G.is_open → result ≡ true }
{
    for _asked in 0..MOST_ASKED {
        if gate.may_submit(p, turn) {
            return true;
        }
        thread::yield_now();
    }
    false
}

/// Tells a pace of an event, if it was journaled: whether it was.
fn tell<P: Pace>(pace: &P, event: Event, receipt: &Receipt) -> bool
    ensures { result ≡ nat_lt 0 receipt.now.number }
{
    let entered = receipt.number > 0;
    if entered {
        pace.journaled(event);
    }
    entered
}

/// What the threads of a board share: the runtime, the board, its gate, and its pace.
#[derive(Drop)]
pub(crate) struct Host<'a, B: Feed, G: Gate, P: Pace, R: Wait> {
    pub rt: &'a R,
    pub board: &'a B,
    pub gate: &'a G,
    pub pace: &'a P,
}

/// What a thread of a board gives back.
#[derive(Drop)]
pub(crate) struct ThreadWork {
    pub seat: Seat,
    /// How many of its events were journaled.
    pub journaled: Result<u32, BoardFault>,
}

impl<'a, B: Feed, G: Gate, P: Pace, R: Wait> Host<'a, B, G, P, R> {
    /// Looks for the next stretch of processor p, in a workspace, until it has one or its pace says that it does not
    /// look again: whether it has.
    #[tactic(auto, using(crate::proofs::Working::visited_on))]
    fn look(&self, seat: &mut Seat, workspace: &mut Workspace, p: u8) -> bool
        requires at { IsAt B.row_id seat.old }
        ensures at { IsAt B.row_id seat.new }
        ensures visited { Visited B.image B.bound B.row_id seat.old seat.new }
        ensures mine { seat.new.mine ≡ seat.old.mine }
        ensures made { MatchBool result
            (IsOutcome workspace.new × Drew B.image B.bound seat.new.seen p (Some workspace.new.ticket)
            × IsDrawn B.image B.bound seat.new.seen workspace.new.ticket)
            (Drew B.image B.bound seat.new.seen p None) }
    {
        let mut moment = self.pace.moment();
        let mut found = self.board.stretch(self.rt, seat, p, workspace);
        for _look in 0..MOST_LOOKS {
            if found || !self.pace.looks_again(moment) {
                return found;
            }
            moment = self.pace.moment();
            found = self.board.stretch(self.rt, seat, p, workspace);
        }
        found
    }

    /// A turn of processor p, counted from 1: whether an event was journaled. Its stretch is made outside the board's
    /// lock, and handed in once the gate lets the turn go on; a stale one is dropped. Without an actor the turn is
    /// over, once the pace says so.
    #[tactic(auto, using(crate::proofs::Working::did_none))]
    fn take_turn(
        &self,
        seat: &mut Seat,
        workspace: &mut Workspace,
        p: u8,
        turn: u32,
    ) -> Result<bool, BoardFault>
        requires { IsAt B.row_id seat.old }
        ensures at { IsAt B.row_id seat.new }
        ensures added { Added B.image B.bound B.row_id (Run p) 1 seat.old seat.new }
        ensures did { IfOk result (λ _. DidOnce B.image B.bound B.row_id (Run p) seat.old seat.new) }
        ensures mine { IfOk result (λ entered. seat.new.mine ≡ seat.old.mine + cond entered 1 0) }
        ensures stopped { IfErr result (λ f. (seat.new.mine ≡ seat.old.mine)
            × IsWhyStopped B.row_id G.is_open (Run p) seat.new f) }
    {
        if !self.look(seat, workspace, p) {
            return Ok(false);
        }
        if !is_let(self.gate, p, turn) {
            return Err(BoardFault::Held);
        }
        let answer = self.board.submit(self.rt, seat, workspace);
        self.gate.answered(p, turn);
        match answer {
            Ok(receipt) => Ok(tell(self.pace, Event::Run(p), &receipt)),
            Err(BoardFault::Stale) => Ok(false),
            Err(fault) => Err(fault),
        }
    }

    /// The turns of processor p: how many of its events were journaled.
    #[tactic(auto, using(crate::proofs::Working::added_begin, crate::proofs::Working::added_more, crate::proofs::Working::added_last, crate::proofs::Working::added_enough, crate::proofs::Working::did_begin, crate::proofs::Working::did_more, crate::proofs::Working::did_turns))]
    fn run_turns(&self, seat: &mut Seat, p: u8, turns: u32) -> Result<u32, BoardFault>
        requires { IsAt B.row_id seat.old }
        ensures at { IsAt B.row_id seat.new }
        ensures added { Added B.image B.bound B.row_id (Run p) turns seat.old seat.new }
        ensures finished { IfOk result (λ journaled. DidPart B.image B.bound B.row_id (Run p) turns seat.old seat.new
            × (seat.new.mine ≡ seat.old.mine + journaled)) }
        ensures stopped { IfErr result (λ f. (seat.new.mine < seat.old.mine + turns)
            × IsWhyStopped B.row_id G.is_open (Run p) seat.new f) }
    {
        let mut workspace = self.board.workspace();
        let mut journaled = 0;
        for turn in 0..turns {
            if self.take_turn(seat, &mut workspace, p, turn + 1)? {
                journaled += 1;
            }
        }
        Ok(journaled)
    }

    /// Feeds an event: whether it was journaled.
    fn feed_once(&self, seat: &mut Seat, event: Event) -> Result<bool, BoardFault>
        requires at { IsAt B.row_id seat.old }
        requires fed { IsFed event }
        ensures at { IsAt B.row_id seat.new }
        ensures added { Added B.image B.bound B.row_id event 1 seat.old seat.new }
        ensures did { IfOk result (λ _. DidOnce B.image B.bound B.row_id event seat.old seat.new) }
        ensures mine { IfOk result (λ entered. seat.new.mine ≡ seat.old.mine + cond entered 1 0) }
        ensures stopped { IfErr result (λ f. (seat.new.mine ≡ seat.old.mine) × (f ≡ Full)
            × (length seat.new.seen ≡ B.row_id.capacity)) }
    {
        let receipt = self.board.feed(self.rt, seat, event)?;
        Ok(tell(self.pace, event, &receipt))
    }

    /// Feeds the ticks, each when the pace says so: how many were journaled.
    #[tactic(auto, using(crate::proofs::Working::added_begin, crate::proofs::Working::added_more, crate::proofs::Working::added_last, crate::proofs::Working::added_enough, crate::proofs::Working::did_begin, crate::proofs::Working::did_more, crate::proofs::Working::did_ticks))]
    fn feed_ticks(&self, seat: &mut Seat, ticks: u32) -> Result<u32, BoardFault>
        requires { IsAt B.row_id seat.old }
        ensures at { IsAt B.row_id seat.new }
        ensures added { Added B.image B.bound B.row_id Tick ticks seat.old seat.new }
        ensures finished { IfOk result (λ journaled. DidPart B.image B.bound B.row_id Tick ticks seat.old seat.new
            × (seat.new.mine ≡ seat.old.mine + journaled)) }
        ensures stopped { IfErr result (λ f. (seat.new.mine < seat.old.mine + ticks)
            × (f ≡ Full) × (length seat.new.seen ≡ B.row_id.capacity)) }
    {
        let mut journaled = 0;
        for tick in 0..ticks {
            self.pace.before_tick(tick + 1);
            if self.feed_once(seat, Event::Tick)? {
                journaled += 1;
            }
        }
        Ok(journaled)
    }

    /// Feeds this interrupt each time that it comes, at most `most` times: how many were journaled.
    #[tactic(auto, using(crate::proofs::Working::added_begin, crate::proofs::Working::added_more, crate::proofs::Working::added_last, crate::proofs::Working::added_enough, crate::proofs::Working::did_begin, crate::proofs::Working::did_more, crate::proofs::Working::did_some))]
    fn feed_interrupts(&self, seat: &mut Seat, interrupt: u8, most: u32) -> Result<u32, BoardFault>
        requires { IsAt B.row_id seat.old }
        ensures at { IsAt B.row_id seat.new }
        ensures added { Added B.image B.bound B.row_id (Int interrupt) most seat.old seat.new }
        ensures finished { IfOk result
            (λ journaled. DidPart B.image B.bound B.row_id (Int interrupt) most seat.old seat.new
            × (seat.new.mine ≡ seat.old.mine + journaled)) }
        ensures stopped { IfErr result (λ f. (seat.new.mine < seat.old.mine + most)
            × (f ≡ Full) × (length seat.new.seen ≡ B.row_id.capacity)) }
    {
        let mut journaled = 0;
        for _time in 0..most {
            if !self.pace.interrupt_comes() {
                return Ok(journaled);
            }
            if self.feed_once(seat, Event::Int(interrupt))? {
                journaled += 1;
            }
        }
        Ok(journaled)
    }

    /// Does a thread's part: how many of its events were journaled.
    fn run_part(&self, seat: &mut Seat, part: ThreadPart) -> Result<u32, BoardFault>
        requires { IsAt B.row_id seat.old }
        ensures at { IsAt B.row_id seat.new }
        ensures gave { GaveBack B.image B.bound B.row_id G.is_open (job_of part seat.old) (gave seat.new result) }
    {
        match part.event {
            Event::Run(p) => self.run_turns(seat, p, part.times),
            Event::Tick => self.feed_ticks(seat, part.times),
            Event::Int(interrupt) => self.feed_interrupts(seat, interrupt, part.times),
        }
    }

    /// Does a thread's part with its seat, and gives the seat back.
    pub(crate) fn work(&self, mut seat: Seat, part: ThreadPart) -> ThreadWork
        requires { IsAt B.row_id seat }
        ensures { GaveBack B.image B.bound B.row_id G.is_open (job_of part seat)
            (gave result.seat result.journaled) }
    {
        let journaled = self.run_part(&mut seat, part);
        self.pace.ended();
        ThreadWork { seat, journaled }
    }
}
