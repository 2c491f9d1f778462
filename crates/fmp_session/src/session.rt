//! The events of a session, and the kernel after them.
ghost use Rattle.std.specs.Prelude.{◌≡◌, ◌-◌, ◌++◌, ◌∷◌, IfOk, OnErr, OnOk, [], length, take};
ghost use Rattle.fmp_drive.specs.NextRuns.{AreNext};
ghost use Rattle.fmp_instructions.specs.Machine.{code_meaning};
ghost use Rattle.fmp_frames.specs.Made.{event_position as position_of};
ghost use Rattle.fmp_trace.specs.Steps.{steps_text};
ghost use Rattle.fmp_session.specs.Sessions.{IsSession, IsTakenAs, lines_now, records_now, with_event};
ghost use Rattle.fmp_session.specs.Taking.{HasTaken};

use crate::replaying::kernel_over;
use fmp_base::{Effect, Event};
use fmp_code::Vm;
use fmp_drive::{NextRun, next_runs};
use fmp_frames::{
    CallPosition, CallPositions, CodePositions, EventLines, LineForm, append_positioned,
    event_position,
};
use fmp_image_bytes::Image;
use fmp_kernel::Kernel;
use fmp_named::append_lines;
use fmp_replay::kernel_of;
use fmp_trace::print_steps;
use std::alloc::{AllocError, Global};
use std::mem;

/// The most events of a session.
const MOST: u32 = 1 << 20;

/// What an event came to.
#[derive(Clone, Copy)]
pub enum TakenEvent {
    /// It was done: its lines are those of the kernel.
    Done,
    /// What runs on its processor has reached the bound, and keeps its place.
    Kept,
    /// It does nothing, and is none of the session's events.
    Nothing,
    /// The session has as many events as it may have, and takes no more.
    Full,
}

/// A system, the events that it has taken, each of which did something, and its kernel after them.
#[derive(Drop)]
pub struct Session<'a> {
    image: &'a Image,
    /// The bound of a stretch.
    bound: u64,
    events: Vec<Event>,
    kernel: Kernel<Vm<'a>>,
}

impl<'a> Session<'a> {
    /// The session of an image after setup, with no event yet. A stretch of a body takes at most n instructions.
    /// `AllocError` if memory runs out.
    #[tactic(none)]
    pub fn new(alloc: Global, image: &'a Image, n: u64) -> Result<Session<'a>, AllocError>
        ensures session { IfOk result (λ session. IsSession session) }
        ensures image { IfOk result (λ session. session.image.now ≡ image.now) }
        ensures bound { IfOk result (λ session. session.bound ≡ n) }
        ensures events { IfOk result (λ session. session.events.items ≡ []) }
    {
        let kernel = kernel_of(alloc, image, n)?;
        Ok(Session {
            image,
            bound: n,
            events: Vec::new(alloc),
            kernel,
        })
    }

    /// The image.
    pub fn image(&self) -> &'a Image
        ensures { result.now ≡ self.now.image.now }
    {
        self.image
    }

    /// The bound of a stretch.
    pub fn bound(&self) -> u64
        ensures { result ≡ self.now.bound }
    {
        self.bound
    }

    /// The events, in order.
    pub fn events(&self) -> &[Event]
        ensures { result.now ≡ self.now.events.items }
    {
        &self.events
    }

    /// The kernel after the events.
    pub fn kernel(&self) -> &Kernel<Vm<'a>>
        ensures { result.now ≡ self.now.kernel }
    {
        &self.kernel
    }

    /// Takes an event, if there are fewer than 2^20. One that does nothing leaves all as it was. `AllocError` if memory
    /// runs out: then nothing has changed. The image and the bound stay.
    pub fn take(&mut self, e: Event) -> Result<TakenEvent, AllocError>
        requires { IsSession self.old }
        ensures session { IsSession self.new }
        ensures image { self.new.image.now ≡ self.old.image.now }
        ensures bound { self.new.bound ≡ self.old.bound }
        ensures events { IfOk result (λ taken. self.new.events.items ≡ with_event taken e self.old.events.items) }
        ensures exact { IfOk result (λ taken. IsTakenAs self.old e taken) }
        ensures takes { OnOk result (HasTaken self.old (e ∷ []) self.new) }
        ensures err { OnErr result (self.new.events.items ≡ self.old.events.items) }
    {
        if self.kernel.taken() >= MOST {
            return Ok(TakenEvent::Full);
        }
        let count = self.events.len();
        self.events.push(e)?;
        match self.kernel.step(e) {
            Effect::Done => Ok(TakenEvent::Done),
            Effect::Kept => Ok(TakenEvent::Kept),
            Effect::Nothing => {
                self.events.truncate(count);
                Ok(TakenEvent::Nothing)
            }
        }
    }

    /// Takes the last events back, this many or all that there are: those before them are taken again from setup on.
    /// `AllocError` if memory runs out: then nothing has changed. The image and the bound stay.
    pub fn back(&mut self, alloc: Global, count: usize) -> Result<(), AllocError>
        requires { IsSession self.old }
        ensures session { IsSession self.new }
        ensures image { self.new.image.now ≡ self.old.image.now }
        ensures bound { self.new.bound ≡ self.old.bound }
        ensures events { OnOk result (self.new.events.items
            ≡ take (length self.old.events.items - count) self.old.events.items) }
        ensures err { OnErr result (self.new.events.items ≡ self.old.events.items) }
    {
        let left = self.events.len().saturating_sub(count);
        let kernel = kernel_over(alloc, self.image, self.bound, &self.events[..left])?;
        drop(mem::replace(&mut self.kernel, kernel));
        self.events.truncate(left);
        Ok(())
    }

    /// How the next run of each processor ends, by places from 0.
    pub fn next_runs(&self) -> [NextRun; 8]
        requires { IsSession self.now }
        ensures { AreNext code_meaning self.now.kernel result }
    {
        next_runs(&self.kernel)
    }

    /// Where the call stands that an event would make now, if it makes one. The calls of the bodies stand at these
    /// positions of their text.
    pub fn position(&self, positions: &CallPositions, e: Event) -> Option<CallPosition>
        requires { IsSession self.now }
        ensures { result ≡ position_of code_meaning self.now.image.now.code positions.now self.now.kernel e }
    {
        let text = CodePositions {
            code: self.image.code(),
            positions,
        };
        event_position(&self.kernel, text, e)
    }

    /// The lines of the last event that was done, or of setup, with the names of objects. `AllocError` if memory runs
    /// out.
    pub fn append_last(&self, out: &mut Vec<u8>) -> Result<(), AllocError>
        requires { IsSession self.now }
        ensures { OnOk result (out.new.items ≡ out.old.items ++ lines_now self.now.kernel) }
    {
        append_lines(
            self.image.system(),
            self.kernel.done(),
            self.kernel.lines(),
            out,
        )
    }

    /// The lines of the last event that was done, or of setup, as objects of JSON, one a line, with the position of the
    /// call that the event made, if that is known.
    pub fn append_last_records(
        &self,
        alloc: Global,
        position: Option<CallPosition>,
        out: &mut Vec<u8>,
    ) -> Result<(), AllocError>
        requires { IsSession self.now }
        ensures { OnOk result (out.new.items ≡ out.old.items ++ records_now position self.now.kernel) }
    {
        let told = EventLines {
            number: self.kernel.done(),
            position,
            lines: self.kernel.lines(),
        };
        append_positioned(alloc, LineForm::Record, self.image.system(), told, out)
    }

    /// The steps text of the events: with it and the same bound `fmp sim` repeats the session. `AllocError` if memory
    /// runs out.
    pub fn steps(&self, alloc: Global) -> Result<Vec<u8>, AllocError>
        ensures { IfOk result (λ text. text.items ≡ steps_text self.now.events.items) }
    {
        let mut text = Vec::new(alloc);
        print_steps(&self.events, &mut text)?;
        Ok(text)
    }
}
