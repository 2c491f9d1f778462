//! A line of a trace as a record of numbers.
ghost use Rattle.std.specs.Prelude.{◌≡◌, get_or, pos, slice_get};
ghost use Rattle.fmp_c.specs.Lines as spec;

use crate::records::{kind_of, number_of, value_or_0};
use fmp_base::{Arguments, Call, Caller, Fault, Handler, Line, Reply};

/// A line of the last event that was done, or of setup.
#[repr(C)]
#[derive(Clone, Copy)]
pub struct FmpLine {
    /// 0 no line, 1 tick, 2 int, 3 a call, 4 end, 5 a fault, 6 gets, 7 starts, 8 cyc, 9 begin, 10 `>`: who runs now.
    pub kind: u32,
    /// The number of the processor, from 1; 0 for `tick` and `int`.
    pub processor: u32,
    /// As `FmpActing::who`.
    pub who: u32,
    /// As `FmpActing::number`; the clock for `tick`, the interrupt's number for `int`.
    pub number: u32,
    /// The function code of a call, 1 to 59.
    pub service: u32,
    /// 1 an overflow, 2 a division by 0, 3 an index out of range.
    pub fault: u32,
    /// Whether there is a reply. A call without one waits.
    pub replied: bool,
    /// Whether the reply has a value.
    pub has_value: bool,
    /// The code of the reply.
    pub code: i32,
    /// The value of the reply.
    pub value: i32,
    /// The arguments of a call, in order; 0 after the last.
    pub a: i32,
    pub b: i32,
    pub c: i32,
    pub d: i32,
}

/// A line of this kind with nothing else.
fn plain(kind: u32) -> FmpLine
    ensures { result ≡ spec.plain kind }
{
    FmpLine {
        kind,
        processor: 0,
        who: 0,
        number: 0,
        service: 0,
        fault: 0,
        replied: false,
        has_value: false,
        code: 0,
        value: 0,
        a: 0,
        b: 0,
        c: 0,
        d: 0,
    }
}

/// A line of this kind of a caller on the processor at this place.
fn of_caller(kind: u32, processor: u8, caller: Caller) -> FmpLine
    ensures { result ≡ spec.of_caller kind processor caller }
{
    FmpLine {
        processor: u32::from(processor) + 1,
        who: kind_of(caller),
        number: number_of(caller),
        ..plain(kind)
    }
}

fn with_reply(line: FmpLine, reply: Reply) -> FmpLine
    ensures { result ≡ spec.with_reply line reply }
{
    FmpLine {
        replied: true,
        has_value: reply.value.is_some(),
        code: reply.code.code(),
        value: value_or_0(reply.value),
        ..line
    }
}

fn with_answer(line: FmpLine, reply: Option<Reply>) -> FmpLine
    ensures { result ≡ spec.with_answer line reply }
{
    match reply {
        Some(reply) => with_reply(line, reply),
        None => line,
    }
}

/// The argument at this place, or 0.
fn argument(arguments: &Arguments, place: usize) -> i32
    ensures { result ≡ get_or arguments.now place (pos 0) }
{
    match arguments.as_slice().get(place) {
        Some(argument) => *argument,
        None => 0,
    }
}

fn with_call(line: FmpLine, call: Call) -> FmpLine
    ensures { result ≡ spec.with_call line call }
{
    let arguments = call.arguments();
    FmpLine {
        service: u32::from(call.service().number()),
        a: argument(&arguments, 0),
        b: argument(&arguments, 1),
        c: argument(&arguments, 2),
        d: argument(&arguments, 3),
        ..line
    }
}

fn fault_number(fault: Fault) -> u32
    ensures { result ≡ spec.fault_number fault }
{
    match fault {
        Fault::Overflow => 1,
        Fault::Division => 2,
        Fault::Index => 3,
    }
}

fn of_run(processor: u8, task: Option<u8>) -> FmpLine
    ensures { result ≡ spec.of_run processor task }
{
    match task {
        Some(task) => of_caller(10, processor, Caller::Task(task)),
        None => FmpLine {
            processor: u32::from(processor) + 1,
            ..plain(10)
        },
    }
}

/// The record of a line.
fn line_row(line: Line) -> FmpLine
    ensures { result ≡ spec.line_row line }
{
    match line {
        Line::Tick(clock) => FmpLine {
            number: clock,
            ..plain(1)
        },
        Line::Int(place) => FmpLine {
            number: u32::from(place) + 1,
            ..plain(2)
        },
        Line::Call {
            processor,
            caller,
            call,
            reply,
        } => with_answer(with_call(of_caller(3, processor, caller), call), reply),
        Line::End { processor, caller } => of_caller(4, processor, caller),
        Line::Fault {
            processor,
            caller,
            fault,
        } => FmpLine {
            fault: fault_number(fault),
            ..of_caller(5, processor, caller)
        },
        Line::Gets {
            processor,
            task,
            reply,
        } => with_reply(of_caller(6, processor, Caller::Task(task)), reply),
        Line::Starts { processor, task } => of_caller(7, processor, Caller::Task(task)),
        Line::Pends { processor, cyclic } => {
            of_caller(8, processor, Caller::Handler(Handler::Cyclic(cyclic)))
        }
        Line::Begins { processor, handler } => of_caller(9, processor, Caller::Handler(handler)),
        Line::Runs { processor, task } => of_run(processor, task),
    }
}

/// The record of the line at this place, from 0, or of none.
pub fn line_at(lines: &[Line], place: usize) -> FmpLine
    ensures { result ≡ spec.line_or_none (slice_get lines.now place) }
{
    match lines.get(place) {
        Some(line) => line_row(*line),
        None => plain(0),
    }
}
