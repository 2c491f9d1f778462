//! A run that fails an expectation is made shorter: events are left out of it as long as it fails.
ghost use Rattle.std.specs.Prelude.{◌≡◌, ◌+◌, ◌<◌, ◌≤◌, ◌^◌, IfOk, IfSome, OnOk, false, length, true};
ghost use Rattle.fmp_trials.specs.Trials as spec;
ghost use Rattle.fmp_trials.specs.Shortening.{GoesOn, HasTaken, IsFailing, IsTried, NoneCanGo};

use crate::bench::Bench;
use fmp_base::Event;
use fmp_expect::{BrokenExpectation, LineJudge};
use fmp_kernel::Body;
use std::alloc::{AllocError, Global};

/// How many times a run is made shorter by pieces at most.
const ROUNDS: u32 = 8;

/// The end of the numbers of processors.
const PROCESSORS_END: u8 = 9;

/// No processor's number.
const NO_PROCESSOR: u8 = 0;

/// A run that fails an expectation.
#[derive(Drop)]
pub struct FailingRun {
    pub steps: Vec<Event>,
    pub broken: BrokenExpectation,
    /// How many events may still be run to make it shorter. 1,024 instructions of a stretch that reaches its bound
    /// count as one more.
    pub room: u64,
}

/// A piece of a run: the events from one place up to another, but for the runs of one processor.
#[derive(Clone, Copy)]
struct Piece {
    first: usize,
    end: usize,
    kept: u8,
}

/// Whether what is broken, if something is, stands in the line of this number.
fn is_at(broken: Option<BrokenExpectation>, line: usize) -> bool
    ensures { result ≡ spec.is_at line broken }
{
    match broken {
        Some(broken) => broken.line == line,
        None => false,
    }
}

/// The events without those from one place up to another.
fn without(
    alloc: Global,
    events: &[Event],
    first: usize,
    end: usize,
) -> Result<Vec<Event>, AllocError>
    requires first { first ≤ end }
    requires end { end ≤ length events.now }
    ensures { IfOk result (λ left. left.items ≡ spec.without events.now first end) }
{
    let mut left = Vec::from_slice(alloc, &events[..first])?;
    left.extend_from_slice(&events[end..])?;
    Ok(left)
}

/// The events without a piece, of which the runs of its processor stay.
fn thinned(alloc: Global, events: &[Event], piece: Piece) -> Result<Vec<Event>, AllocError>
    requires first { piece.first ≤ piece.end }
    requires end { piece.end ≤ length events.now }
    ensures { IfOk result (λ left. length left.items ≤ length events.now) }
{
    let Piece { first, end, kept } = piece;
    let mut left = Vec::from_slice(alloc, &events[..first])?;
    for place in first..end {
        if events[place] == Event::Run(kept) {
            left.push(events[place])?;
        }
    }
    left.extend_from_slice(&events[end..])?;
    Ok(left)
}

/// The events with the one at the first place moved to the second, which is before it.
fn moved(alloc: Global, events: &[Event], from: usize, to: usize) -> Result<Vec<Event>, AllocError>
    requires to { to ≤ from }
    requires from { from < length events.now }
    ensures { IfOk result (λ left. length left.items ≡ length events.now) }
{
    let mut left = Vec::from_slice(alloc, &events[..to])?;
    left.push(events[from])?;
    left.extend_from_slice(&events[to..from])?;
    left.extend_from_slice(&events[from + 1..])?;
    Ok(left)
}

impl FailingRun {
    /// Takes these steps, if they fail the expectation in the line that the run fails: whether it does.
    fn take(&mut self, steps: Vec<Event>, verdict: Option<BrokenExpectation>) -> bool
        ensures taken { HasTaken self.old self.new steps.items verdict result }
        ensures line { self.new.broken.line ≡ self.old.broken.line }
        ensures room { self.new.room ≡ self.old.room }
    {
        if !is_at(verdict, self.broken.line) {
            return false;
        }
        match verdict {
            Some(broken) => {
                self.steps = steps;
                self.broken = broken;
                true
            }
            None => false,
        }
    }
}

/// Takes these steps, if they fail as the run does and there is room to try them: whether it does.
fn try_steps<B: Body, J: LineJudge<B>>(
    alloc: Global,
    bench: &mut Bench<'_, B, J>,
    run: &mut FailingRun,
    steps: Vec<Event>,
) -> Result<bool, AllocError>
    requires failing { IsFailing B.meaning J.breaks bench.old run.old }
    requires few { length steps.items ≤ 2 ^ 20 }
    ensures same { bench.new ≡ bench.old }
    ensures failing { IsFailing B.meaning J.breaks bench.new run.new }
    ensures on { GoesOn run.old run.new }
    ensures tried { IfOk result (IsTried B.meaning J.breaks bench.new run.old run.new steps.items) }
{
    if run.room == 0 {
        return Ok(false);
    }
    run.room = run.room.saturating_sub(steps.len() as u64 + 1);
    let verdict = bench.verdict(alloc, &steps)?;
    run.room = run.room.saturating_sub(bench.long_weight());
    Ok(run.take(steps, verdict))
}

/// Whether one of these events is no run of this processor.
fn has_others(events: &[Event], kept: u8) -> bool {
    for e in events {
        if *e != Event::Run(kept) {
            return true;
        }
    }
    false
}

/// Leaves out a piece, if the run fails without it.
fn drop_piece<B: Body, J: LineJudge<B>>(
    alloc: Global,
    bench: &mut Bench<'_, B, J>,
    run: &mut FailingRun,
    piece: Piece,
) -> Result<(), AllocError>
    requires failing { IsFailing B.meaning J.breaks bench.old run.old }
    requires first { piece.first ≤ piece.end }
    requires end { piece.end ≤ length run.old.steps.items }
    ensures same { bench.new ≡ bench.old }
    ensures failing { IsFailing B.meaning J.breaks bench.new run.new }
    ensures line { run.new.broken.line ≡ run.old.broken.line }
{
    if run.room == 0 || !has_others(&run.steps[piece.first..piece.end], piece.kept) {
        return Ok(());
    }
    let steps = thinned(alloc, &run.steps, piece)?;
    try_steps(alloc, bench, run, steps)?;
    Ok(())
}

/// Leaves out pieces of this many events without which the run fails, from the last on.
fn drop_pieces_of<B: Body, J: LineJudge<B>>(
    alloc: Global,
    bench: &mut Bench<'_, B, J>,
    run: &mut FailingRun,
    size: usize,
    kept: u8,
) -> Result<(), AllocError>
    requires failing { IsFailing B.meaning J.breaks bench.old run.old }
    ensures same { bench.new ≡ bench.old }
    ensures failing { IsFailing B.meaning J.breaks bench.new run.new }
    ensures line { run.new.broken.line ≡ run.old.broken.line }
{
    let stride = (size / 8).max(1);
    let mut end = run.steps.len();
    while end > 0 {
        let piece = Piece {
            first: end.saturating_sub(size),
            end,
            kept,
        };
        drop_piece(alloc, bench, run, piece)?;
        end = end.saturating_sub(stride).min(run.steps.len());
    }
    Ok(())
}

/// Leaves out pieces without which the run fails, first of all events and then of fewer and fewer. Runs of one
/// processor stay.
fn drop_pieces<B: Body, J: LineJudge<B>>(
    alloc: Global,
    bench: &mut Bench<'_, B, J>,
    run: &mut FailingRun,
    kept: u8,
) -> Result<(), AllocError>
    requires failing { IsFailing B.meaning J.breaks bench.old run.old }
    ensures same { bench.new ≡ bench.old }
    ensures failing { IsFailing B.meaning J.breaks bench.new run.new }
    ensures line { run.new.broken.line ≡ run.old.broken.line }
{
    let mut size = run.steps.len();
    while size > 0 {
        drop_pieces_of(alloc, bench, run, size, kept)?;
        size -= size / 8 + 1;
    }
    Ok(())
}

/// Leaves out pieces of all events, and then of those of all processors but one.
fn drop_pieces_of_all<B: Body, J: LineJudge<B>>(
    alloc: Global,
    bench: &mut Bench<'_, B, J>,
    run: &mut FailingRun,
) -> Result<(), AllocError>
    requires failing { IsFailing B.meaning J.breaks bench.old run.old }
    ensures same { bench.new ≡ bench.old }
    ensures failing { IsFailing B.meaning J.breaks bench.new run.new }
    ensures line { run.new.broken.line ≡ run.old.broken.line }
{
    drop_pieces(alloc, bench, run, NO_PROCESSOR)?;
    for kept in 1..PROCESSORS_END {
        if run.steps.contains(&Event::Run(kept)) {
            drop_pieces(alloc, bench, run, kept)?;
        }
    }
    Ok(())
}

/// Leaves out the event at a place, if the run fails without it: whether it does.
fn drop_single<B: Body, J: LineJudge<B>>(
    alloc: Global,
    bench: &mut Bench<'_, B, J>,
    run: &mut FailingRun,
    place: usize,
) -> Result<bool, AllocError>
    requires failing { IsFailing B.meaning J.breaks bench.old run.old }
    requires place { place < length run.old.steps.items }
    ensures same { bench.new ≡ bench.old }
    ensures failing { IsFailing B.meaning J.breaks bench.new run.new }
    ensures on { GoesOn run.old run.new }
    ensures tried { IfOk result
        (IsTried B.meaning J.breaks bench.new run.old run.new (spec.without run.old.steps.items place (place + 1))) }
{
    if run.room == 0 {
        return Ok(false);
    }
    let steps = without(alloc, &run.steps, place, place + 1)?;
    try_steps(alloc, bench, run, steps)
}

/// Leaves out the event at a place, if the run fails without it: whether it was left out, or one after it.
fn drop_event<B: Body, J: LineJudge<B>>(
    alloc: Global,
    bench: &mut Bench<'_, B, J>,
    run: &mut FailingRun,
    place: usize,
    dropped: bool,
) -> Result<bool, AllocError>
    requires failing { IsFailing B.meaning J.breaks bench.old run.old }
    requires place { place < length run.old.steps.items }
    requires after { NoneCanGo B.meaning J.breaks bench.old run.old (place + 1) dropped }
    ensures same { bench.new ≡ bench.old }
    ensures failing { IsFailing B.meaning J.breaks bench.new run.new }
    ensures line { run.new.broken.line ≡ run.old.broken.line }
    ensures left { OnOk result (place ≤ length run.new.steps.items) }
    ensures after { IfOk result (NoneCanGo B.meaning J.breaks bench.new run.new place) }
    ensures no_longer { OnOk result (length run.new.steps.items ≤ length run.old.steps.items) }
    ensures fewer { IfOk result (λ after. after ≡ true → dropped ≡ false
        → length run.new.steps.items < length run.old.steps.items) }
{
    let gone = drop_single(alloc, bench, run, place)?;
    if gone {
        return Ok(true);
    }
    Ok(dropped)
}

/// Leaves out each event, from the last on, without which the run fails: whether there was one.
fn drop_events<B: Body, J: LineJudge<B>>(
    alloc: Global,
    bench: &mut Bench<'_, B, J>,
    run: &mut FailingRun,
) -> Result<bool, AllocError>
    requires failing { IsFailing B.meaning J.breaks bench.old run.old }
    ensures same { bench.new ≡ bench.old }
    ensures failing { IsFailing B.meaning J.breaks bench.new run.new }
    ensures line { run.new.broken.line ≡ run.old.broken.line }
    ensures all { IfOk result (NoneCanGo B.meaning J.breaks bench.new run.new 0) }
    ensures fewer { IfOk result (λ dropped. dropped ≡ true
        → length run.new.steps.items < length run.old.steps.items) }
{
    let mut dropped = false;
    let mut place = run.steps.len();
    while place > 0 {
        place -= 1;
        dropped = drop_event(alloc, bench, run, place, dropped)?;
    }
    Ok(dropped)
}

/// Leaves out events one by one until the run fails only with all that are left, or there is no more room for trials:
/// whether it ended because none can go.
fn drop_until_none<B: Body, J: LineJudge<B>>(
    alloc: Global,
    bench: &mut Bench<'_, B, J>,
    run: &mut FailingRun,
) -> Result<bool, AllocError>
    requires failing { IsFailing B.meaning J.breaks bench.old run.old }
    ensures same { bench.new ≡ bench.old }
    ensures failing { IsFailing B.meaning J.breaks bench.new run.new }
    ensures line { run.new.broken.line ≡ run.old.broken.line }
    ensures shortest { IfOk result (λ shortest. shortest ≡ true
        → spec.IsShortest B.meaning J.breaks bench.new run.new.steps.items run.new.broken.line) }
    ensures ended { IfOk result (λ shortest. shortest ≡ false → run.new.room ≡ 0) }
{
    for _round in 0..run.steps.len() + 1 {
        let dropped = drop_events(alloc, bench, run)?;
        if !dropped {
            return Ok(run.room > 0);
        }
    }
    Ok(false)
}

/// The place after the last event of the same processor before the one at a place, if there is another event between.
fn place_after(events: &[Event], at: usize) -> Option<usize>
    requires { at < length events.now }
    ensures { IfSome result (λ to. to ≤ at) }
{
    if !matches!(events[at], Event::Run(_)) {
        return None;
    }
    for back in 1..=at {
        if events[at - back] == events[at] {
            return if back > 1 { Some(at - back + 1) } else { None };
        }
    }
    None
}

/// Moves the event at a place after the last one of the same processor before it, if the run fails then.
fn gather_event<B: Body, J: LineJudge<B>>(
    alloc: Global,
    bench: &mut Bench<'_, B, J>,
    run: &mut FailingRun,
    at: usize,
) -> Result<(), AllocError>
    requires failing { IsFailing B.meaning J.breaks bench.old run.old }
    ensures same { bench.new ≡ bench.old }
    ensures failing { IsFailing B.meaning J.breaks bench.new run.new }
    ensures line { run.new.broken.line ≡ run.old.broken.line }
{
    if run.room > 0 && at < run.steps.len() {
        if let Some(to) = place_after(&run.steps, at) {
            let steps = moved(alloc, &run.steps, at, to)?;
            try_steps(alloc, bench, run, steps)?;
        }
    }
    Ok(())
}

/// Moves events of a processor together where the run fails then, so that processors take fewer turns.
fn gather<B: Body, J: LineJudge<B>>(
    alloc: Global,
    bench: &mut Bench<'_, B, J>,
    run: &mut FailingRun,
) -> Result<(), AllocError>
    requires failing { IsFailing B.meaning J.breaks bench.old run.old }
    ensures same { bench.new ≡ bench.old }
    ensures failing { IsFailing B.meaning J.breaks bench.new run.new }
    ensures line { run.new.broken.line ≡ run.old.broken.line }
{
    for at in 1..run.steps.len() {
        gather_event(alloc, bench, run, at)?;
    }
    Ok(())
}

/// Leaves out pieces and moves events together, again and again as long as that makes the run shorter.
fn drop_and_gather<B: Body, J: LineJudge<B>>(
    alloc: Global,
    bench: &mut Bench<'_, B, J>,
    run: &mut FailingRun,
) -> Result<(), AllocError>
    requires failing { IsFailing B.meaning J.breaks bench.old run.old }
    ensures same { bench.new ≡ bench.old }
    ensures failing { IsFailing B.meaning J.breaks bench.new run.new }
    ensures line { run.new.broken.line ≡ run.old.broken.line }
{
    for _round in 0..ROUNDS {
        let before = run.steps.len();
        drop_pieces_of_all(alloc, bench, run)?;
        gather(alloc, bench, run)?;
        if run.steps.len() == before {
            return Ok(());
        }
    }
    Ok(())
}

/// Makes a run shorter. The answer is whether no event of it can be left out any more; where that is not known, no room
/// to try is left.
pub fn shorten<B: Body, J: LineJudge<B>>(
    alloc: Global,
    bench: &mut Bench<'_, B, J>,
    run: &mut FailingRun,
) -> Result<bool, AllocError>
    requires failing { IsFailing B.meaning J.breaks bench.old run.old }
    ensures same { bench.new ≡ bench.old }
    ensures failing { IsFailing B.meaning J.breaks bench.new run.new }
    ensures line { run.new.broken.line ≡ run.old.broken.line }
    ensures shortest { IfOk result (λ shortest. shortest ≡ true
        → spec.IsShortest B.meaning J.breaks bench.new run.new.steps.items run.new.broken.line) }
    ensures ended { IfOk result (λ shortest. shortest ≡ false → run.new.room ≡ 0) }
{
    drop_and_gather(alloc, bench, run)?;
    drop_until_none(alloc, bench, run)
}
