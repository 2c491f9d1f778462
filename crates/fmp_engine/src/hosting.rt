//! A host: an image that is run by threads, one for each of its processors.
ghost use Rattle.std.specs.Prelude.{◌≡◌, ◌≢◌, ◌+◌, ◌≤◌, ◌^◌, List, ℕ, [], All, IfErr, IfOk, length};
ghost use Rattle.fmp_base.specs.Texts.{whole_text};
ghost use Rattle.fmp_image.specs.Building.{Builds};
ghost use Rattle.fmp_instructions.specs.Machine.{code_meaning};
ghost use Rattle.fmp_engine.specs.Counts.{counts_of};
ghost use Rattle.fmp_engine.specs.Hosting.{FitsBoard, Hosts, HostsTexts, IsHosted, IsWhyHost, IsWhyNoJournal};
ghost use Rattle.fmp_engine.specs.Hosting.{IsWorkload, load_for};
ghost use Rattle.fmp_engine.specs.Simulations.{Simulates};
ghost use Rattle.fmp_engine.specs.declared.hosting.HostFault.TheVariants as host_fault;
ghost use Rattle.fmp_board.specs.Boards.{IsAt, IsClosed, blank as blank_of};
ghost use Rattle.fmp_board.specs.declared.fault.BoardFault.TheVariants.{Full, Held, Limit, Stale};
ghost use Rattle.fmp_hostrun.specs.Counts.{AreCounted};
ghost use Rattle.fmp_hostrun.specs.Works.{AllAdded, CameBackAs, IsAnswer, IsRun, most_of};
ghost use Rattle.fmp_image_bytes.specs.Images.{ImageTables, Spells};
ghost use Rattle.fmp_journal.specs.Seats.{AreNew};
ghost use Rattle.fmp_trace.specs.Steps.{steps_text};

use crate::counts::{EventCounts, counts_of};
use crate::events::Journal;
use crate::play::{Subject, play};
use fmp_base::Event;
use fmp_hostrun::{Blank, Board, BoardFault, Closed, Gate, Load, Pace, Seat, Site, run_paced};
use fmp_image::laws::built_image_prints_text;
use fmp_image_bytes::{Image, LoadFault, load};
use fmp_trace::{print_steps, printed_steps_read_back};
use std::alloc::{AllocError, Global};
use std::error::Error;
use std::fmt::{self, Display, Formatter, Write};
use std::marker::Brand;
use std::sync::Wait;
use std::thread::Threads;

/// What the threads of a host are to do.
#[derive(Clone, Copy)]
pub struct Workload {
    /// How many turns each processor has, at most 2^20.
    pub turns: u32,
    /// How many ticks the clock has, at most 2^20.
    pub ticks: u32,
    /// The interrupt that may come, 1 to 32.
    pub interrupt: u8,
    /// How many times it comes at most, 0 to 2^20.
    pub interrupts: u32,
    /// How many instructions a stretch of a body may take, 1 to 2^48.
    pub bound: u64,
}

/// Why a host writes and prints nothing.
#[derive(Clone, Copy, Debug, PartialEq, Eq)]
pub enum HostFault {
    /// The bytes spell no image. This fault is never out of memory.
    Load(LoadFault),
    /// The turns, ticks and interrupts together are 0, or more than a board has room for; or a thread was refused. This
    /// fault is never out of memory.
    Board(BoardFault),
    /// Memory ran out.
    Memory,
}

impl Display for HostFault {
    ghost use Rattle.std.specs.Prelude.{Some};
    ghost use Rattle.fmp_engine.specs.Messages.{host_message};

    ghost output = { λ fault. Some (host_message fault) };

    /// The message of the image, the code of the board after `host`, or `memory`.
    fn fmt<W: Write>(&self, f: &mut Formatter<W>) -> fmt::Result {
        match self {
            HostFault::Load(fault) => write!(f, "{fault}"),
            HostFault::Board(fault) => write!(f, "host: {fault}"),
            HostFault::Memory => f.write_str("memory"),
        }
    }
}

impl Error for HostFault {}

/// A gate that lets every processor go on.
struct OpenGate;

impl Gate for OpenGate {
    ghost is_open = { Unit {0} };

    fn may_submit(&self, _p: u8, _turn: u32) -> bool {
        true
    }

    fn answered(&self, _p: u8, _turn: u32) {}
}

/// The end of a host whose threads answered with a fault.
fn fault_of(fault: BoardFault) -> HostFault
    requires { (fault ≢ Limit) × (fault ≢ Stale) × (fault ≢ Held) × (fault ≢ Full) }
    ensures { (i : ImageTables) (work : Workload) → IsWhyNoJournal result i work }
{
    match fault {
        BoardFault::Memory => HostFault::Memory,
        fault => HostFault::Board(fault),
    }
}

/// What the threads of an image's board are to do.
fn load_for(image: &Image, work: Workload) -> Load
    ensures load { result ≡ load_for image.now work }
    ensures processors { result.processors ≤ 8 }
{
    Load {
        processors: image.system().processors,
        turns: work.turns,
        ticks: work.ticks,
        interrupt: work.interrupt,
        interrupts: work.interrupts,
    }
}

/// Runs a load on a board, by threads that no gate holds.
fn run_work<S: Site + Send + Sync, P: Pace, R: Threads + Wait + Sync>(
    rt: &R,
    alloc: Global,
    board: &Board<'_, S>,
    pace: &P,
    seats: Vec<Seat>,
    load: Load,
) -> (Vec<Seat>, Result<u32, BoardFault>)
    requires seats { All (IsAt S.row_id) seats.items }
    requires count { length seats.items ≡ load.processors + 2 }
    ensures answer { IsAnswer S.image S.bound S.row_id (Unit {0}) load seats.items result.0.items result.1 }
    ensures added { CameBackAs (AllAdded S.image S.bound S.row_id load 0) seats.items result.0.items result.1 }
    ensures at { All (IsAt S.row_id) result.0.items }
    ensures fault { IfErr result.1 (λ f. (f ≢ Limit) × (f ≢ Stale) × (f ≢ Held)) }
{
    run_paced(rt, alloc, board, &OpenGate, pace, seats, load)
}

/// Opens a board, runs its threads, and closes it, with its seats. Its journal has room for all that they are to do.
fn run_board<'a, S: Site + Send + Sync, P: Pace, R: Threads + Wait + Sync>(
    rt: &R,
    alloc: Global,
    blank: Blank<'a>,
    pace: &P,
    seats: Vec<Seat>,
    load: Load,
) -> Result<Closed<'a>, BoardFault>
    requires blank { blank ≡ blank_of S.image S.bound S.row_id }
    requires seats { All (IsAt S.row_id) seats.items }
    requires new { AreNew S.row_id seats.items }
    requires count { S.row_id.seats ≡ load.processors + 2 }
    requires room { S.row_id.capacity ≡ most_of load }
    ensures closed { IfOk result (IsClosed S.image S.bound S.row_id.capacity S.row_id.seats) }
    ensures counted { IfOk result (λ closed. AreCounted load closed.events) }
    ensures ran { IfOk result (λ closed. IsRun S.image S.bound (Unit {0}) load closed.events) }
    ensures fault { IfErr result (λ f. (f ≢ Limit) × (f ≢ Stale) × (f ≢ Held) × (f ≢ Full)) }
{
    let board: Board<'a, S> = blank.open();
    let (seats, journaled) = run_work(rt, alloc, &board, pace, seats, load);
    let closed = board.close_all(seats);
    match journaled {
        Ok(_) => Ok(closed),
        Err(fault) => {
            drop(closed);
            Err(fault)
        }
    }
}

/// The events of the journal of a closed board.
#[tactic(auto, using(crate::proofs::JournalLemmas::one_copied))]
fn events_of(alloc: Global, closed: &Closed<'_>) -> Result<Vec<Event>, AllocError>
    ensures { IfOk result (λ events. events.items ≡ closed.now.events) }
{
    let mut events = Vec::with_capacity(alloc, closed.len() as usize)?;
    for i in 0..closed.len() {
        events.push_reserved(closed.event(i));
    }
    Ok(events)
}

/// The events of the journal of a closed board, which is dropped.
fn taken_events(alloc: Global, closed: Closed<'_>) -> Result<Vec<Event>, HostFault>
    ensures events { IfOk result (λ events. events.items ≡ closed.entry.events) }
    ensures memory { IfErr result (λ f. f ≡ host_fault.Memory) }
{
    let events = events_of(alloc, &closed);
    drop(closed);
    events.map_err(|_| HostFault::Memory)
}

/// The journal that the threads of a board of an image make.
fn journal_of<P: Pace, R: Threads + Wait + Sync>(
    rt: &R,
    alloc: Global,
    image: &Image,
    pace: &P,
    work: Workload,
) -> Result<Vec<Event>, HostFault>
    requires { IsWorkload work }
    ensures journal { IfOk result (λ events. IsHosted image.now work events.items) }
    ensures refused { IfErr result (λ f. IsWhyNoJournal f image.now work) }
{
    let load = load_for(image, work);
    let processors = load.processors;
    let capacity = u32::from(processors) * work.turns + work.ticks + work.interrupts;
    let (blank, seats) = match Blank::new(alloc, image, work.bound, capacity, processors + 2) {
        Ok(made) => made,
        Err(BoardFault::Memory) => return Err(HostFault::Memory),
        Err(_) => return Err(HostFault::Board(BoardFault::Limit)),
    };
    let closed = match run_board::<Brand, _, _>(rt, alloc, blank, pace, seats, load) {
        Ok(closed) => closed,
        Err(fault) => return Err(fault_of(fault)),
    };
    taken_events(alloc, closed)
}

/// What the threads of an image made.
#[derive(Drop)]
pub struct Hosted {
    /// Their journal: the events that did something, as a steps text.
    pub journal: Vec<u8>,
    /// The trace of the journal, and the states of the tasks at its end.
    pub text: Vec<u8>,
    /// How many events of each kind the journal has.
    pub counts: EventCounts,
}

/// A journal of an image as a steps text, with all that the image prints over it within n instructions a stretch.
fn told(alloc: Global, image: &Image, n: u64, events: &[Event]) -> Result<Hosted, AllocError>
    requires bound { (1 ≤ n) × (n ≤ 2 ^ 48) }
    requires few { length events.now ≤ 2 ^ 20 }
    ensures journal { IfOk result (λ made. made.journal.items ≡ steps_text events.now) }
    ensures text { IfOk result
        (λ made. made.text.items ≡ whole_text image.now.system (code_meaning image.now.code) n events.now) }
    ensures counts { IfOk result (λ made. made.counts ≡ counts_of events.now) }
{
    image.keeps_rules();
    let mut journal = Vec::new(alloc);
    print_steps(events, &mut journal)?;
    let mut text = Vec::new(alloc);
    let subject = Subject {
        system: image.system(),
        body: image.vm(),
        bound: n,
    };
    let mut coming = Journal::new(events);
    play(alloc, subject, &mut coming, &mut text)?;
    Ok(Hosted {
        journal,
        text,
        counts: counts_of(events),
    })
}

/// Loads an image and runs it by threads.
fn host_image<P: Pace, R: Threads + Wait + Sync>(
    rt: &R,
    alloc: Global,
    image: &[u8],
    pace: &P,
    work: Workload,
) -> Result<Hosted, HostFault>
    requires { IsWorkload work }
    ensures ok { IfOk result (λ made. Hosts image.now work made.journal.items made.text.items made.counts) }
    ensures refused { IfErr result (λ f. IsWhyHost f image.now work) }
{
    let image = match load(alloc, image) {
        Ok(image) => image,
        Err(LoadFault::Memory) => return Err(HostFault::Memory),
        Err(fault) => return Err(HostFault::Load(fault)),
    };
    let hosted = match journal_of(rt, alloc, &image, pace, work) {
        Ok(events) => told(alloc, &image, work.bound, &events).map_err(|_| HostFault::Memory),
        Err(fault) => Err(fault),
    };
    drop(image);
    hosted
}

/// Loads an image, and runs it by threads at this pace: one for each processor makes the turns, each of which lets its
/// processor run once, one more makes the ticks, and one the interrupts. Gives the journal of the events that did
/// something, and what the image prints over it.
///
/// The image is judged first. Then, with P processors, P * turns + ticks + interrupts has to be 1 to 2^20, else it is
/// `HostFault::Board(BoardFault::Limit)`. It is `HostFault::Board(BoardFault::Thread)` where a thread was refused, and
/// never another fault of a board. The journal has at most one event of each turn, tick and interrupt.
pub fn host<P: Pace, R: Threads + Wait + Sync>(
    rt: &R,
    alloc: Global,
    image: &[u8],
    pace: &P,
    work: Workload,
) -> Result<Hosted, HostFault>
    requires { IsWorkload work }
    ensures ok { IfOk result (λ made. Hosts image.now work made.journal.items made.text.items made.counts) }
    // Where two texts build the image, what it prints is what they mean over the journal.
    ensures headline { (cfg src : List ℕ) (i : ImageTables) (b : Builds cfg src i) → Spells i image.now → IfOk result
        (λ made. HostsTexts i b.tasks.bodies work made.journal.items made.text.items) }
    // A simulation of the image over the journal prints the same.
    ensures again { IfOk result (λ made. Simulates image.now made.journal.items work.bound [] made.text.items) }
    ensures refused { IfErr result (λ f. IsWhyHost f image.now work) }
{
    built_image_prints_text();
    printed_steps_read_back();
    host_image(rt, alloc, image, pace, work)
}
