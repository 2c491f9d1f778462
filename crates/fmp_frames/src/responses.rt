//! The responses of a run, line by line.
ghost use Rattle.std.specs.Prelude.{◌≡◌, ◌++◌, IfOk, OnOk};
ghost use Rattle.fmp_frames.specs.Responses as spec;
ghost use Rattle.fmp_frames.specs.Responses.{requests_of};

use crate::places::{at, nothing, put};
use fmp_base::{Caller, Handler, Line};
use std::alloc::{AllocError, Global};

/// Places of interrupts begin here, after those of the cyclic handlers.
const INTERRUPTS: usize = 256;

/// Places of handlers end here.
const HANDLERS: usize = 512;

/// The release of a task by a handler.
#[derive(Clone, Copy)]
pub struct Release {
    /// The handler whose call released the task.
    pub handler: Handler,
    /// When the request came that the handler served, in microseconds.
    pub asked: u64,
}

/// A response to the request of a handler: a task that it released runs.
#[derive(Clone, Copy)]
pub struct Response {
    /// The handler.
    pub handler: Handler,
    /// How long it took from the request to the run, in microseconds.
    pub micros: u64,
}

/// The responses of a run so far, and the requests that have none yet.
#[derive(Drop)]
pub struct Responses {
    /// When each handler was first requested since it last began, by its place.
    pub asked: Vec<Option<u64>>,
    /// When the request came that the last begin of each handler serves.
    pub served: Vec<Option<u64>>,
    /// The release by a handler of each task that has not run since.
    pub released: Vec<Option<Release>>,
    /// The responses, in order.
    pub all: Vec<Response>,
}

/// The place of a handler among all.
pub fn place_of(handler: Handler) -> usize
    ensures { result ≡ spec.place_of handler }
{
    match handler {
        Handler::Cyclic(cyclic) => usize::from(cyclic),
        Handler::Interrupt(place) => INTERRUPTS + usize::from(place),
    }
}

/// The handler whose call an event is.
fn handler_of(lines: &[Line]) -> Option<Handler>
    ensures { result ≡ spec.handler_of lines.now }
{
    match lines {
        [
            Line::Call {
                caller: Caller::Handler(handler),
                ..
            },
            ..
        ] => Some(*handler),
        _ => None,
    }
}

fn first_of(before: Option<u64>, now: u64) -> u64
    ensures { result ≡ spec.first_of before now }
{
    match before {
        Some(before) => before,
        None => now,
    }
}

/// The release of a task by a handler that serves a request of this time.
fn release_by(handler: Handler, served: Option<u64>) -> Option<Release>
    ensures { result ≡ spec.release_by handler served }
{
    match served {
        Some(asked) => Some(Release { handler, asked }),
        None => None,
    }
}

/// Appends the response of a task that was released so and runs now.
fn append_response(
    now: u64,
    release: Option<Release>,
    all: &mut Vec<Response>,
) -> Result<(), AllocError>
    ensures { OnOk result (all.new.items ≡ all.old.items ++ spec.response_to now release) }
{
    if let Some(release) = release {
        all.push(Response {
            handler: release.handler,
            micros: now.saturating_sub(release.asked),
        })?;
    }
    Ok(())
}

impl Responses {
    /// No responses and no requests, with this many places of handlers and tasks.
    fn with_places(alloc: Global, handlers: usize, tasks: usize) -> Result<Responses, AllocError>
        ensures { IfOk result (λ made. requests_of made ≡ spec.none_of handlers tasks) }
    {
        Ok(Responses {
            asked: nothing(alloc, handlers)?,
            served: nothing(alloc, handlers)?,
            released: nothing(alloc, tasks)?,
            all: Vec::new(alloc),
        })
    }

    /// No responses and no requests, of a system with this many tasks. `AllocError` if memory runs out, as of each call
    /// below.
    #[tactic(auto, unfolding(crate::specs::Responses::no_requests))]
    pub fn new(alloc: Global, tasks: usize) -> Result<Responses, AllocError>
        ensures { IfOk result (λ made. requests_of made ≡ spec.no_requests tasks) }
    {
        Responses::with_places(alloc, HANDLERS, tasks)
    }

    fn request(&mut self, now: u64, handler: Handler)
        ensures { requests_of self.new ≡ spec.requested now handler (requests_of self.old) }
    {
        let place = place_of(handler);
        let asked = first_of(at(&self.asked, place), now);
        put(&mut self.asked, place, Some(asked));
    }

    fn begin(&mut self, handler: Handler)
        ensures { requests_of self.new ≡ spec.begun handler (requests_of self.old) }
    {
        let place = place_of(handler);
        let asked = at(&self.asked, place);
        put(&mut self.asked, place, None);
        put(&mut self.served, place, asked);
    }

    /// The release of a task by a call of this handler, or by something else.
    fn release_in(&self, by: Option<Handler>) -> Option<Release>
        ensures { result ≡ spec.release_in by (requests_of self.now) }
    {
        match by {
            Some(handler) => release_by(handler, at(&self.served, place_of(handler))),
            None => None,
        }
    }

    fn release(&mut self, by: Option<Handler>, task: u8)
        ensures { requests_of self.new ≡ spec.released by task (requests_of self.old) }
    {
        let release = self.release_in(by);
        put(&mut self.released, usize::from(task), release);
    }

    fn run(&mut self, now: u64, task: u8) -> Result<(), AllocError>
        ensures { OnOk result (requests_of self.new ≡ spec.ran now task (requests_of self.old)) }
    {
        let release = at(&self.released, usize::from(task));
        put(&mut self.released, usize::from(task), None);
        append_response(now, release, &mut self.all)
    }

    /// A line of an event at this time, which is a call of this handler or of none.
    fn take_line(&mut self, now: u64, by: Option<Handler>, line: Line) -> Result<(), AllocError>
        ensures { OnOk result (requests_of self.new ≡ spec.after_line now by line (requests_of self.old)) }
    {
        match line {
            Line::Int(place) => self.request(now, Handler::Interrupt(place)),
            Line::Pends { cyclic, .. } => self.request(now, Handler::Cyclic(cyclic)),
            Line::Begins { handler, .. } => self.begin(handler),
            Line::Gets { task, .. } | Line::Starts { task, .. } => self.release(by, task),
            Line::Runs {
                task: Some(task),
                ..
            } => return self.run(now, task),
            _ => {}
        }
        Ok(())
    }

    /// The lines of an event that came at this time, in microseconds.
    pub fn take_event(&mut self, now: u64, lines: &[Line]) -> Result<(), AllocError>
        ensures { OnOk result (requests_of self.new ≡ spec.after_event now lines.now (requests_of self.old)) }
    {
        let by = handler_of(lines);
        for line in lines {
            self.take_line(now, by, *line)?;
        }
        Ok(())
    }
}
