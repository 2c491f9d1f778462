//! A thread for each processor of a board, one for the ticks, and one for the interrupts.
ghost use Rattle.std.specs.Prelude.{◌≡◌, ◌+◌, ◌<◌, ◌≤◌, ◌^◌, [], ◌++◌, ◌↔◌, ◌≢◌, All, Err, IfOk, length, map, vec_len};
ghost use Rattle.std.specs.Prelude.{vec_capacity};
ghost use Rattle.fmp_board.specs.Boards.{IsAt};
ghost use Rattle.fmp_board.specs.Visits.{Kept};
ghost use Rattle.fmp_hostrun.specs.Works.{AllAdded, AreRun, CameBack, CameBackAs, GaveBack, HasFull, IsAnswer, AllGave};
ghost use Rattle.fmp_hostrun.specs.Works.{both, gave, job_of, load_of, mine_of, seats_of};
ghost use Rattle.fmp_board.specs.declared.fault.BoardFault.TheVariants.{Full, Held, Limit, Stale};

use crate::feed::Feed;
use crate::turns::{Gate, Host, Load, Pace, ThreadPart, ThreadWork, Unpaced};
use fmp_board::{Board, BoardFault, Site};
use fmp_journal::Seat;
use std::alloc::{AllocError, Global};
use std::marker::PhantomData;
use std::snapshot::Snapshot;
use std::sync::Wait;
use std::thread;
use std::thread::{Promise, PromisedHandle, Threads};

/// A thread's promise to do its part with this seat at this board and this gate, and to give the seat back.
#[derive(Drop)]
pub(crate) struct GivesBack<B: Feed, G: Gate> {
    seat: Snapshot<Seat>,
    part: ThreadPart,
    board: PhantomData<B>,
    gate: PhantomData<G>,
}

impl<B: Feed, G: Gate> Promise<ThreadWork> for GivesBack<B, G> {
    ghost use Rattle.fmp_hostrun.specs.Works.{GaveBack, gave, job_of};

    ghost kept_by = { λ p r. GaveBack B.image B.bound B.row_id G.is_open (job_of p.part p.seat.value)
        (gave r.seat r.journaled) };
}

type Handles<B, G> = Vec<PromisedHandle<ThreadWork, GivesBack<B, G>>>;

/// Both counts together, or the first fault.
fn with_more(
    journaled: Result<u32, BoardFault>,
    more: Result<u32, BoardFault>,
) -> Result<u32, BoardFault>
    requires { IfOk journaled (λ count. IfOk more (λ further. count + further < 2 ^ 32)) }
    ensures { result ≡ both journaled more }
{
    Ok(journaled? + more?)
}

/// Joins threads in order: their seats, and how many of their events were journaled, or the first fault.
fn joined<B: Feed, G: Gate, R: Threads>(
    rt: &R,
    handles: Handles<B, G>,
    mut back: Vec<Seat>,
) -> (Vec<Seat>, Result<u32, BoardFault>)
    requires room { B.row_id.capacity ≤ 2 ^ 20 }
    requires few { vec_len handles ≤ 257 }
    requires back { (back.items ≡ []) × (vec_len handles ≤ vec_capacity back) }
    ensures joined { AllGave B.image B.bound B.row_id G.is_open
        (map (λ h. job_of h.promise.part h.promise.seat.value) handles.items) result.0.items result.1 }
    ensures mine { IfOk result.1 (λ count. mine_of result.0.items
        ≡ mine_of (seats_of (map (λ h. job_of h.promise.part h.promise.seat.value) handles.items)) + count) }
    ensures count { vec_len result.0 ≡ vec_len handles }
    ensures capacity { vec_capacity result.0 ≡ vec_capacity back }
{
    let mut journaled = Ok(0);
    for handle in handles {
        let worked = handle.join(rt);
        back.push_reserved(worked.seat);
        journaled = with_more(journaled, worked.journaled);
    }
    (back, journaled)
}

/// Seats after others.
fn with_seats(mut back: Vec<Seat>, more: Vec<Seat>) -> Vec<Seat>
    requires { vec_len back + vec_len more ≤ vec_capacity back }
    ensures { result.items ≡ back.items ++ more.items }
{
    for seat in more {
        back.push_reserved(seat);
    }
    back
}

/// Lists for threads of a board, with room for this many.
#[derive(Drop)]
struct Lists<B: Feed, G: Gate> {
    handles: Handles<B, G>,
    spared: Vec<Seat>,
    back: Vec<Seat>,
}

impl<B: Feed, G: Gate> Lists<B, G> {
    fn new(alloc: Global, count: usize) -> Result<Lists<B, G>, AllocError>
        ensures handles { IfOk result (λ l. (l.handles.items ≡ []) × (count ≤ vec_capacity l.handles)) }
        ensures spared { IfOk result (λ l. (l.spared.items ≡ []) × (count ≤ vec_capacity l.spared)) }
        ensures back { IfOk result (λ l. (l.back.items ≡ []) × (count ≤ vec_capacity l.back)) }
    {
        Ok(Lists {
            handles: Vec::with_capacity(alloc, count)?,
            spared: Vec::with_capacity(alloc, count)?,
            back: Vec::with_capacity(alloc, count)?,
        })
    }
}

/// The seats for which threads are to be started, at most 257, and the lists that this needs, each with room for all of
/// them.
#[derive(Drop)]
struct Crew<B: Feed, G: Gate> {
    seats: Vec<Seat>,
    lists: Lists<B, G>,
    ghost few: { vec_len seats ≤ 257 },
    ghost handles: { (lists.handles.items ≡ []) × (vec_len seats ≤ vec_capacity lists.handles) },
    ghost spared: { (lists.spared.items ≡ []) × (vec_len seats ≤ vec_capacity lists.spared) },
    ghost back: { (lists.back.items ≡ []) × (vec_len seats ≤ vec_capacity lists.back) },
}

/// A thread for each seat: they are started one after the other, and joined. Once a thread is refused, no more are
/// started.
fn run_threads<B: Feed + Sync, G: Gate, P: Pace, R: Threads + Wait + Sync>(
    host: &Host<'_, B, G, P, R>,
    crew: Crew<B, G>,
    load: Load,
) -> (Vec<Seat>, Result<u32, BoardFault>)
    requires room { B.row_id.capacity ≤ 2 ^ 20 }
    requires seats { All (IsAt B.row_id) crew.seats.items }
    ensures { AreRun B.image B.bound B.row_id G.is_open load crew.seats.items result.0.items result.1 }
{
    let Host {
        rt,
        board,
        gate,
        pace,
    } = *host;
    thread::scope(
        thread::scope_env(),
        rt,
        move |scope| -> (Vec<Seat>, Result<u32, BoardFault>)
            requires room { B.row_id.capacity ≤ 2 ^ 20 }
            requires seats { All (IsAt B.row_id) crew.seats.items }
            ensures { AreRun B.image B.bound B.row_id G.is_open load crew.seats.items result.0.items result.1 }
        {
            // The whole crew goes into the scope: its type says that its lists have room.
            let crew = crew;
            let Crew { seats, lists } = crew;
            let Lists {
                mut handles,
                mut spared,
                back,
            } = lists;
            let mut refused = false;
            for seat in seats {
                if refused {
                    spared.push_reserved(seat);
                    continue;
                }
                let part = load.part(handles.len());
                let promise = GivesBack {
                    seat: Snapshot::of(&seat),
                    part,
                    board: PhantomData,
                    gate: PhantomData,
                };
                let started = scope.spawn_with(
                    promise,
                    move || -> ThreadWork
                        requires { IsAt B.row_id seat }
                        ensures { GaveBack B.image B.bound B.row_id G.is_open (job_of part seat)
                            (gave result.seat result.journaled) }
                    {
                        let host = Host {
                            rt,
                            board,
                            gate,
                            pace,
                        };
                        host.work(seat, part)
                    },
                );
                match started {
                    Ok(handle) => handles.push_reserved(handle),
                    // What is refused is dropped here, and the seat with it.
                    Err(_refusal) => {
                        pace.refused();
                        refused = true;
                    }
                }
            }
            let (back, journaled) = joined(rt, handles, back);
            let back = with_seats(back, spared);
            if refused {
                return (back, Err(BoardFault::Thread));
            }
            (back, journaled)
        },
    )
}

/// Runs a board by threads, one for each seat, where there is memory for their lists.
fn run_seats<S: Site + Send + Sync, G: Gate, P: Pace, R: Threads + Wait + Sync>(
    host: &Host<'_, Board<'_, S>, G, P, R>,
    alloc: Global,
    seats: Vec<Seat>,
    load: Load,
) -> (Vec<Seat>, Result<u32, BoardFault>)
    requires at { All (IsAt S.row_id) seats.items }
    requires few { length seats.items ≤ 257 }
    ensures answer { IsAnswer S.image S.bound S.row_id G.is_open load seats.items result.0.items result.1 }
    ensures stale { result.1 ≢ Err Stale }
    ensures full { result.1 ≡ Err Full → HasFull S.row_id result.0.items }
    ensures held { G.is_open → result.1 ≢ Err Held }
    ensures limit { result.1 ≢ Err Limit }
    ensures seats { CameBack (Kept S.image S.bound S.row_id) seats.items result.0.items result.1 }
    ensures added { CameBackAs (AllAdded S.image S.bound S.row_id load 0) seats.items result.0.items result.1 }
    ensures mine { IfOk result.1 (λ journaled. mine_of result.0.items ≡ mine_of seats.items + journaled) }
    ensures at { All (IsAt S.row_id) result.0.items }
    ensures count { IfOk result.1 (λ _. length result.0.items ≡ length seats.items) }
{
    let Ok(lists) = Lists::new(alloc, seats.len()) else {
        return (seats, Err(BoardFault::Memory));
    };
    // It is at most 2^20, so a u32 holds the sum of the counts of all threads.
    host.board.capacity();
    host.pace.begins(seats.len());
    run_threads(host, Crew { seats, lists }, load)
}

/// Runs a board by threads: one for each processor takes the turns, one more feeds the ticks, and one the interrupts,
/// each when the pace says so. In a turn a processor draws a ticket, makes its stretch outside the lock, asks the gate,
/// submits the outcome and tells the gate. A turn whose outcome is stale is over. Where the processor has no actor, the
/// pace says whether it looks again; if not, the turn is over. The seats are one for each processor, in order, one for
/// the ticks and one for the interrupts. They come back in their order, and each has seen what its calls showed it. The
/// answer is the number of events that this call journaled, which is the sum by which their own counts have risen.
///
/// `BoardFault::Limit`, exactly where there is not one seat for each processor and two more; `BoardFault::Memory` where
/// memory runs out. Then no thread was started, and the seats are as they came. `BoardFault::Thread` where a thread was
/// refused: no more are started, those that run are joined, and the seat of the refused one is lost. Else it is the
/// fault of the first thread that stopped, by the order of the seats: `BoardFault::Full` where the journal has no room
/// for one more event, or `BoardFault::Held` where the gate said no 10,000 times. It is never `BoardFault::Stale`. What
/// was journaled before a fault stands.
///
/// The contract says what was done with each seat and what came back. That threads do it is tested: no clause can tell
/// them from calls, one after the other.
pub fn run_paced<S: Site + Send + Sync, G: Gate, P: Pace, R: Threads + Wait + Sync>(
    rt: &R,
    alloc: Global,
    board: &Board<'_, S>,
    gate: &G,
    pace: &P,
    seats: Vec<Seat>,
    load: Load,
) -> (Vec<Seat>, Result<u32, BoardFault>)
    requires { All (IsAt S.row_id) seats.items }
    ensures answer { IsAnswer S.image S.bound S.row_id G.is_open load seats.items result.0.items result.1 }
    ensures stale { result.1 ≢ Err Stale }
    ensures full { result.1 ≡ Err Full → HasFull S.row_id result.0.items }
    ensures held { G.is_open → result.1 ≢ Err Held }
    ensures limit { (result.1 ≡ Err Limit) ↔ (length seats.items ≢ load.processors + 2) }
    ensures seats { CameBack (Kept S.image S.bound S.row_id) seats.items result.0.items result.1 }
    // What the p-th seat has added are runs of processor p, at most `turns`, then come ticks, and then interrupts.
    ensures added { CameBackAs (AllAdded S.image S.bound S.row_id load 0) seats.items result.0.items result.1 }
    ensures mine { IfOk result.1 (λ journaled. mine_of result.0.items ≡ mine_of seats.items + journaled) }
    ensures at { All (IsAt S.row_id) result.0.items }
    ensures count { IfOk result.1 (λ _. length result.0.items ≡ length seats.items) }
{
    let processors = load.processors;
    if seats.len() != processors as usize + 2 {
        return (seats, Err(BoardFault::Limit));
    }
    let host = Host {
        rt,
        board,
        gate,
        pace,
    };
    run_seats(&host, alloc, seats, load)
}

/// Runs a board by threads as `run_paced` does, without interrupts and as fast as it goes: a turn in which a processor
/// has no actor is over. The seats are one for each processor, in order, and one for the ticks, and
/// `BoardFault::Limit` comes exactly where they are not.
pub fn run_all<S: Site + Send + Sync, G: Gate, R: Threads + Wait + Sync>(
    rt: &R,
    alloc: Global,
    board: &Board<'_, S>,
    gate: &G,
    seats: Vec<Seat>,
    turns: u32,
    ticks: u32,
) -> (Vec<Seat>, Result<u32, BoardFault>)
    requires { All (IsAt S.row_id) seats.items }
    ensures answer { IsAnswer S.image S.bound S.row_id G.is_open (load_of S.image turns ticks)
        seats.items result.0.items result.1 }
    ensures stale { result.1 ≢ Err Stale }
    ensures full { result.1 ≡ Err Full → HasFull S.row_id result.0.items }
    ensures held { G.is_open → result.1 ≢ Err Held }
    ensures limit { (result.1 ≡ Err Limit) ↔ (length seats.items ≢ S.image.system.processors + 1) }
    ensures seats { CameBack (Kept S.image S.bound S.row_id) seats.items result.0.items result.1 }
    // What the p-th seat has added are runs of processor p, at most `turns`, and what the last one has are ticks.
    ensures added { CameBackAs (AllAdded S.image S.bound S.row_id (load_of S.image turns ticks) 0)
        seats.items result.0.items result.1 }
    ensures mine { IfOk result.1 (λ journaled. mine_of result.0.items ≡ mine_of seats.items + journaled) }
    ensures at { All (IsAt S.row_id) result.0.items }
    ensures count { IfOk result.1 (λ _. length result.0.items ≡ length seats.items) }
{
    let processors = board.processors();
    if seats.len() != processors as usize + 1 {
        return (seats, Err(BoardFault::Limit));
    }
    let load = Load {
        processors,
        turns,
        ticks,
        interrupt: 0,
        interrupts: 0,
    };
    let host = Host {
        rt,
        board,
        gate,
        pace: &Unpaced,
    };
    run_seats(&host, alloc, seats, load)
}
