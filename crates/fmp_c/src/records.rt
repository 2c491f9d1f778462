//! What C is told of a system and of its events, as records of numbers.
ghost use Rattle.std.specs.Prelude.{◌≡◌};
ghost use Rattle.fmp_c.specs.Records as spec;

use fmp_base::{Caller, Effect, Handler, Line};
use fmp_foreign::{Acting, LastTold, Refusal};

/// Who acts on a processor, and what it was told last.
#[repr(C)]
#[derive(Clone, Copy)]
pub struct FmpActing {
    /// 0 nobody, 1 a task, 2 the handler of an interrupt, 3 a cyclic handler.
    pub who: u32,
    /// The number of the task, the interrupt or the cyclic handler, from 1.
    pub number: u32,
    /// 0 nothing, 1 its extended information, at its start, 2 the reply to its last call.
    pub told: u32,
    /// Whether there is a value.
    pub has_value: bool,
    /// The code of the reply.
    pub code: i32,
    /// The value of the reply, or the extended information.
    pub value: i32,
}

/// What an event did.
#[repr(C)]
#[derive(Clone, Copy)]
pub struct FmpOutcome {
    /// Who acts now on the processor that the event was given for; nobody after a tick or an interrupt.
    pub acting: FmpActing,
    /// Bits: 0 to 7 the processors that run another task or begin a handler, as the lines say; 8 a task starts; 9 a
    /// handler begins; 10 a body ends or stops with a fault.
    pub changes: u32,
}

/// Why there is no system.
#[repr(C)]
#[derive(Clone, Copy)]
pub struct FmpRefusal {
    /// The line of the fault, from 1.
    pub line: u32,
    /// Its kind: 1 for B1, and so on.
    pub kind: u32,
    /// The code of a static API that refuses its values (kind 4), else 0.
    pub code: i32,
}

fn kind_of_handler(handler: Handler) -> u32
    ensures { result ≡ spec.kind_of_handler handler }
{
    match handler {
        Handler::Interrupt(_) => 2,
        Handler::Cyclic(_) => 3,
    }
}

fn number_of_handler(handler: Handler) -> u32
    ensures { result ≡ spec.number_of_handler handler }
{
    match handler {
        Handler::Interrupt(place) => u32::from(place) + 1,
        Handler::Cyclic(place) => u32::from(place) + 1,
    }
}

/// Who it is: 1 a task, 2 the handler of an interrupt, 3 a cyclic handler.
pub fn kind_of(caller: Caller) -> u32
    ensures { result ≡ spec.kind_of caller }
{
    match caller {
        Caller::Task(_) => 1,
        Caller::Handler(handler) => kind_of_handler(handler),
    }
}

/// Its number, from 1.
pub fn number_of(caller: Caller) -> u32
    ensures { result ≡ spec.number_of caller }
{
    match caller {
        Caller::Task(place) => u32::from(place) + 1,
        Caller::Handler(handler) => number_of_handler(handler),
    }
}

/// The value, or 0 where there is none.
pub fn value_or_0(value: Option<i32>) -> i32
    ensures { result ≡ spec.value_or_0 value }
{
    match value {
        Some(value) => value,
        None => 0,
    }
}

impl FmpActing {
    /// Nobody.
    pub fn nobody() -> FmpActing
        ensures { result ≡ spec.nobody }
    {
        FmpActing {
            who: 0,
            number: 0,
            told: 0,
            has_value: false,
            code: 0,
            value: 0,
        }
    }

    /// Names this actor.
    fn name(&mut self, caller: Caller)
        ensures { self.new ≡ record self.old { who = spec.kind_of caller; number = spec.number_of caller } }
    {
        match caller {
            Caller::Task(place) => {
                self.who = 1;
                self.number = u32::from(place) + 1;
            }
            Caller::Handler(handler) => {
                self.who = kind_of_handler(handler);
                self.number = number_of_handler(handler);
            }
        }
    }

    /// Becomes the record of this actor.
    #[inline(always)]
    pub fn set(&mut self, acting: Acting)
        ensures { self.new ≡ spec.told_row acting.caller acting.told }
    {
        self.name(acting.caller);
        match acting.told {
            LastTold::Starts(exinf) => {
                self.told = 1;
                self.has_value = true;
                self.code = 0;
                self.value = exinf;
            }
            LastTold::Replies(reply) => {
                self.told = 2;
                self.has_value = reply.value.is_some();
                self.code = reply.code.code();
                self.value = value_or_0(reply.value);
            }
        }
    }

    /// Becomes the record of an actor, or of nobody.
    pub fn tell(&mut self, acting: Option<Acting>)
        ensures { self.new ≡ spec.acting_row acting }
    {
        match acting {
            Some(acting) => self.set(acting),
            None => *self = FmpActing::nobody(),
        }
    }
}

/// What is answered to an event.
pub fn answer_number(answer: Result<Effect, Refusal>) -> u32
    ensures { result ≡ spec.answer_number answer }
{
    match answer {
        Ok(Effect::Nothing) => 0,
        Ok(Effect::Done) => 1,
        Ok(Effect::Kept) => 2,
        Err(Refusal::Full) => 3,
        Err(Refusal::Processor) => 5,
        Err(Refusal::Service) => 6,
        Err(Refusal::Arguments) => 7,
        Err(Refusal::Interrupt) => 8,
    }
}

const BITS: [u32; 8] = [1, 2, 4, 8, 16, 32, 64, 128];

fn bit_of(place: u8) -> u32
    ensures { result ≡ spec.bit_of place }
{
    match BITS.get(usize::from(place)) {
        Some(bit) => *bit,
        None => 0,
    }
}

#[inline(always)]
fn change(line: &Line) -> u32
    ensures { result ≡ spec.change line.now }
{
    match line {
        Line::Runs { processor, .. } => bit_of(*processor),
        Line::Begins { processor, .. } => 512 | bit_of(*processor),
        Line::Starts { .. } => 256,
        Line::End { .. } | Line::Fault { .. } => 1024,
        _ => 0,
    }
}

/// What the lines of an event say of who acts.
#[inline(always)]
pub fn changes(lines: &[Line]) -> u32
    ensures { result ≡ spec.changes lines.now }
{
    match lines.split_first() {
        Some((Line::Call { .. }, others)) => changes_of_few(others),
        _ => all_changes(lines),
    }
}

/// What lines say of who acts, where they mostly are one, or none.
#[inline(always)]
fn changes_of_few(lines: &[Line]) -> u32
    ensures { result ≡ spec.changes lines.now }
{
    match lines.split_first() {
        None => 0,
        Some((line, others)) if others.is_empty() => {
            let before = 0;
            before | change(line)
        }
        Some(_) => all_changes(lines),
    }
}

/// What lines say of who acts, line by line.
#[inline(never)]
fn all_changes(lines: &[Line]) -> u32
    ensures { result ≡ spec.changes lines.now }
{
    let mut all = 0;
    for line in lines {
        all |= change(line);
    }
    all
}
