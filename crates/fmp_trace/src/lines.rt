//! The lines of the trace.
ghost use Rattle.std.specs.Prelude.{◌≡◌, ◌<◌, ◌≤◌, ◌+◌, ◌*◌, ◌++◌, codes, decimal, length, take, vec_capacity, vec_len};
ghost use Rattle.std.specs.Prelude.{IfOk, OnOk, OnErr};
ghost use Rattle.fmp_base.specs.Names.{name_text};
ghost use Rattle.fmp_base.specs.Systems.{tables_of, cyclic_config};
ghost use Rattle.fmp_base.specs.Texts.{caller_name, task_name, handler_name, run_text, call_text, answer_text};
ghost use Rattle.fmp_base.specs.Texts.{fault_text, reply_text, line_body, line_text, lines_text};
ghost use Rattle.fmp_trace.specs.Fronts.{Begins};
ghost use Rattle.fmp_trace.specs.Rooms.{lines_room};

use crate::calls::{append_answer, append_call, append_reply};
use crate::names::{
    append_caller, append_cyclic_name, append_handler, append_run, append_task_name,
};
use crate::numeral::Numeral;
use crate::texts::{LineBytes, ROOM, append, append_array, append_line, append_number};
use fmp_base::{Call, Caller, Fault, Handler, Line, Reply, System};
use std::alloc::AllocError;

/// No line has more bytes than this.
const LONGEST: usize = 127;

/// Putting a line together writes at most this far from its beginning: a short piece is copied with the bytes after
/// its end.
const REACH: usize = 179;

#[inline(always)]
fn append_tick(number: &Numeral, clock: u32, line: &mut [u8], end: usize) -> usize
    requires { end + 32 ≤ length line.old }
    ensures text { take result line.new ≡
        take end line.old ++ (decimal number.now ++ (codes " tick " ++ decimal clock)) }
    ensures short { result ≤ end + 32 }
{
    let end = number.append(line, end);
    let end = append_array(*b" tick ", line, end);
    append_number(clock, line, end)
}

fn append_interrupt(number: &Numeral, place: u8, line: &mut [u8], end: usize) -> usize
    requires { end + 31 ≤ length line.old }
    ensures text { take result line.new ≡
        take end line.old ++ (decimal number.now ++ (codes " int " ++ decimal (place + 1))) }
    ensures short { result ≤ end + 31 }
{
    let end = number.append(line, end);
    let end = append_array(*b" int ", line, end);
    append_number(u32::from(place) + 1, line, end)
}

/// A service call and its answer, after its caller.
#[inline(always)]
fn append_called(call: &Call, reply: &Option<Reply>, line: &mut [u8], end: usize) -> usize
    requires { end + 125 ≤ length line.old }
    ensures text { take result line.new ≡
        take end line.old ++ (codes " " ++ (call_text call.now ++ (codes " " ++ answer_text reply.now))) }
    ensures short { result ≤ end + 79 }
{
    let end = append_call(call, line, end);
    let end = append_array(*b" ", line, end);
    append_answer(reply, line, end)
}

fn append_end(sys: &System, caller: &Caller, line: &mut [u8], end: usize) -> usize
    requires { end + 35 ≤ length line.old }
    ensures text { take result line.new ≡
        take end line.old ++ (caller_name (tables_of sys.now) caller.now ++ codes " end") }
    ensures short { result ≤ end + 35 }
{
    let end = append_caller(sys, caller, line, end);
    append_array(*b" end", line, end)
}

fn append_fault(sys: &System, caller: &Caller, fault: Fault, line: &mut [u8], end: usize) -> usize
    requires { end + 50 ≤ length line.old }
    ensures text { take result line.new ≡
        take end line.old ++ (caller_name (tables_of sys.now) caller.now ++ (codes " " ++ fault_text fault)) }
    ensures short { result ≤ end + 50 }
{
    let end = append_caller(sys, caller, line, end);
    let end = append_array(*b" ", line, end);
    append(fault.name().as_bytes(), line, end)
}

#[inline(always)]
fn append_release(sys: &System, task: u8, reply: &Reply, line: &mut [u8], end: usize) -> usize
    requires { end + 63 ≤ length line.old }
    ensures text { take result line.new ≡
        take end line.old ++ (task_name (tables_of sys.now) task ++ (codes " gets " ++ reply_text reply.now)) }
    ensures short { result ≤ end + 63 }
{
    let end = append_task_name(sys, task, line, end);
    let end = append_array(*b" gets ", line, end);
    append_reply(reply, line, end)
}

#[inline(always)]
fn append_start(sys: &System, task: u8, line: &mut [u8], end: usize) -> usize
    requires { end + 38 ≤ length line.old }
    ensures text { take result line.new ≡
        take end line.old ++ (task_name (tables_of sys.now) task ++ codes " starts") }
    ensures short { result ≤ end + 38 }
{
    let end = append_task_name(sys, task, line, end);
    append_array(*b" starts", line, end)
}

fn append_pending(sys: &System, cyclic: u8, line: &mut [u8], end: usize) -> usize
    requires { end + 35 ≤ length line.old }
    ensures text { take result line.new ≡
        take end line.old ++ (codes "cyc " ++ name_text (cyclic_config (tables_of sys.now) cyclic).name) }
    ensures short { result ≤ end + 35 }
{
    let end = append_array(*b"cyc ", line, end);
    append_cyclic_name(sys, cyclic, line, end)
}

fn append_begin(sys: &System, handler: Handler, line: &mut [u8], end: usize) -> usize
    requires { end + 37 ≤ length line.old }
    ensures text { take result line.new ≡
        take end line.old ++ (codes "begin " ++ handler_name (tables_of sys.now) handler) }
    ensures short { result ≤ end + 37 }
{
    let end = append_array(*b"begin ", line, end);
    append_handler(sys, handler, line, end)
}

#[inline(always)]
fn append_dispatch(sys: &System, task: Option<u8>, line: &mut [u8], end: usize) -> usize
    requires { end + 33 ≤ length line.old }
    ensures text { take result line.new ≡ take end line.old ++ (codes "> " ++ run_text (tables_of sys.now) task) }
    ensures short { result ≤ end + 33 }
{
    let end = append_array(*b"> ", line, end);
    append_run(sys, task, line, end)
}

/// A line without its end.
#[inline(always)]
fn append_body(
    sys: &System,
    number: &mut Numeral,
    printed: &Line,
    line: &mut [u8],
    end: usize,
) -> usize
    requires { end + 172 ≤ length line.old }
    ensures text { take result line.new
        ≡ take end line.old ++ (decimal number.old ++ line_body (tables_of sys.now) printed.now) }
    ensures short { result ≤ end + 126 }
    ensures kept { number.new ≡ number.old }
{
    match printed {
        Line::Tick(clock) => append_tick(number, *clock, line, end),
        Line::Int(place) => append_interrupt(number, *place, line, end),
        Line::Call {
            processor,
            caller,
            call,
            reply,
        } => {
            let end = number.append_with(*processor, line, end);
            let end = append_caller(sys, caller, line, end);
            append_called(call, reply, line, end)
        }
        Line::End { processor, caller } => {
            let end = number.append_with(*processor, line, end);
            append_end(sys, caller, line, end)
        }
        Line::Fault {
            processor,
            caller,
            fault,
        } => {
            let end = number.append_with(*processor, line, end);
            append_fault(sys, caller, *fault, line, end)
        }
        Line::Gets {
            processor,
            task,
            reply,
        } => {
            let end = number.append_with(*processor, line, end);
            append_release(sys, *task, reply, line, end)
        }
        Line::Starts { processor, task } => {
            let end = number.append_with(*processor, line, end);
            append_start(sys, *task, line, end)
        }
        Line::Pends { processor, cyclic } => {
            let end = number.append_with(*processor, line, end);
            append_pending(sys, *cyclic, line, end)
        }
        Line::Begins { processor, handler } => {
            let end = number.append_with(*processor, line, end);
            append_begin(sys, *handler, line, end)
        }
        Line::Runs { processor, task } => {
            let end = number.append_with(*processor, line, end);
            append_dispatch(sys, *task, line, end)
        }
    }
}

/// A line, with its number in front and a line feed after.
#[inline(always)]
fn put_line(
    sys: &System,
    number: &mut Numeral,
    printed: &Line,
    line: &mut [u8],
    end: usize,
) -> usize
    requires { end + REACH ≤ length line.old }
    ensures text { take result line.new ≡ take end line.old ++ line_text (tables_of sys.now) number.old printed.now }
    ensures short { result ≤ end + LONGEST }
    ensures kept { number.new ≡ number.old }
{
    let end = append_body(sys, number, printed, line, end);
    append_array(*b"\n", line, end)
}

/// Puts the lines of the event of this number together after what ends at this place, and gives their end.
#[inline(always)]
pub fn put_event(
    sys: &System,
    number: &mut Numeral,
    lines: &[Line],
    bytes: &mut [u8],
    end: usize,
) -> usize
    requires { end + 127 * length lines.now + REACH ≤ length bytes.old }
    ensures text { take result bytes.new
        ≡ take end bytes.old ++ lines_text (tables_of sys.now) number.old lines.now }
    ensures short { result ≤ end + 127 * length lines.now }
{
    let mut end = end;
    for line in lines {
        end = put_line(sys, number, line, bytes, end);
    }
    end
}

/// Appends the lines so far to the text.
#[cold]
#[inline(never)]
fn append_all(line: &LineBytes, end: usize, out: &mut Vec<u8>) -> Result<(), AllocError>
    requires { end ≤ ROOM }
    ensures ok { OnOk result (out.new.items ≡ out.old.items ++ take end line.now) }
    ensures kept { Begins out.old.items out.new.items }
    ensures full { OnErr result (vec_capacity out.old < vec_len out.old + end + 96) }
    ensures len { OnOk result (vec_len out.new ≡ vec_len out.old + end) }
    ensures capacity { vec_capacity out.old ≤ vec_capacity out.new }
{
    append_line(line, end, out)
}

/// Appends the lines so far if there is no room for one more, and gives the end of the rest.
#[inline(always)]
fn make_room(line: &LineBytes, end: usize, out: &mut Vec<u8>) -> Result<usize, AllocError>
    requires { end ≤ ROOM }
    ensures text { IfOk result (λ left. out.new.items ++ take left line.now ≡ out.old.items ++ take end line.now) }
    ensures room { IfOk result (λ left. left + REACH ≤ ROOM) }
    ensures kept { Begins out.old.items out.new.items }
    ensures full { OnErr result (vec_capacity out.old < vec_len out.old + end + 96) }
    ensures len { IfOk result (λ left. vec_len out.new + left ≡ vec_len out.old + end) }
    ensures capacity { vec_capacity out.old ≤ vec_capacity out.new }
{
    if end + REACH <= ROOM {
        return Ok(end);
    }
    append_all(line, end, out)?;
    Ok(0)
}

/// Puts the lines of the event of this number together after what ends at this place, and gives their end. If there is
/// no room for one more line, the lines so far are appended.
#[inline(always)]
fn put_lines(
    sys: &System,
    number: &mut Numeral,
    lines: &[Line],
    bytes: &mut LineBytes,
    end: usize,
    out: &mut Vec<u8>,
) -> Result<usize, AllocError>
    requires { end + REACH ≤ ROOM }
    ensures text { IfOk result (λ left. out.new.items ++ take left bytes.new
        ≡ out.old.items ++ (take end bytes.old ++ lines_text (tables_of sys.now) number.old lines.now)) }
    ensures room { IfOk result (λ left. left + REACH ≤ ROOM) }
    ensures kept { Begins out.old.items out.new.items }
    ensures full { OnErr result (vec_capacity out.old < vec_len out.old + end + lines_room (length lines.now)) }
    ensures size { IfOk result (λ left. vec_len out.new + left ≤ vec_len out.old + end + 127 * length lines.now) }
    ensures capacity { vec_capacity out.old ≤ vec_capacity out.new }
{
    let mut end = end;
    for line in lines {
        end = put_line(sys, number, line, bytes, end);
        end = make_room(bytes, end, out)?;
    }
    Ok(end)
}

fn append_lines(
    sys: &System,
    number: u32,
    lines: &[Line],
    out: &mut Vec<u8>,
) -> Result<(), AllocError>
    ensures ok { OnOk result (out.new.items ≡ out.old.items ++ lines_text (tables_of sys.now) number lines.now) }
    ensures err { OnErr result (Begins out.old.items out.new.items) }
    ensures full { OnErr result (vec_capacity out.old < vec_len out.old + lines_room (length lines.now)) }
    ensures capacity { vec_capacity out.old ≤ vec_capacity out.new }
{
    let mut bytes = [0; ROOM];
    let end = put_lines(sys, &mut Numeral::new(number), lines, &mut bytes, 0, out)?;
    append_line(&bytes, end, out)
}

/// Appends the lines of the event of this number, each ended by a line feed. If memory runs out, the text stays as it
/// was; it never does if the text has room for that many lines.
pub fn print(sys: &System, number: u32, lines: &[Line], out: &mut Vec<u8>) -> Result<(), AllocError>
    ensures ok { OnOk result (out.new.items ≡ out.old.items ++ lines_text (tables_of sys.now) number lines.now) }
    ensures err { OnErr result (out.new.items ≡ out.old.items) }
    ensures full { OnErr result (vec_capacity out.old < vec_len out.old + lines_room (length lines.now)) }
    ensures capacity { vec_capacity out.old ≤ vec_capacity out.new }
{
    let before = out.len();
    let printed = append_lines(sys, number, lines, out);
    if printed.is_err() {
        out.truncate(before);
    }
    printed
}
