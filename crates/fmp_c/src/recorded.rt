//! The line of a recording for the last event that was done, and for what a text does next. It is put together in an
//! array, so that it takes no memory.
ghost use Rattle.std.specs.Prelude.{◌≡◌, ◌≤◌, ◌+◌, ◌*◌, ◌++◌, ◌∷◌, [], IfSome, None, codes, decimal, length, take};
ghost use Rattle.std.specs.Fmt.{signed_decimal};
ghost use Rattle.fmp_outside.specs.declared.given.Act.TheVariants as act;
ghost use Rattle.fmp_outside.specs.declared.given.Given.TheVariants as given;
ghost use Rattle.fmp_recording.specs.Recordings.{act_text, arguments_text, given_text};
ghost use Rattle.fmp_c.specs.Names.{put};
ghost use Rattle.fmp_c.specs.Recorded.{next_given, recorded};

use crate::handle::FmpSystem;
use crate::names;
use fmp_base::{Call, Fault};
use fmp_outside::{Act, Given};
use itoa::Buffer;
use std::alloc::Global;
use std::mem;

/// Room for the longest line, and for more digits than a number has.
const ROOM: usize = 320;

/// A text after the end of a line.
fn append(text: &[u8], line: &mut [u8], end: usize) -> usize
    requires { end + length text.now ≤ length line.old }
    ensures text { take result line.new ≡ take end line.old ++ text.now }
    ensures place { result ≡ end + length text.now }
{
    line[end..end + text.len()].copy_from_slice(text);
    end + text.len()
}

fn append_number(number: u8, line: &mut [u8], end: usize) -> usize
    requires { end + 40 ≤ length line.old }
    ensures text { take result line.new ≡ take end line.old ++ decimal number }
    ensures short { result ≤ end + 40 }
{
    append(
        Buffer::new().format(u32::from(number)).as_bytes(),
        line,
        end,
    )
}

/// An argument, after a blank.
fn append_argument(number: i32, line: &mut [u8], end: usize) -> usize
    requires { end + 41 ≤ length line.old }
    ensures text { take result line.new ≡ take end line.old ++ (codes " " ++ signed_decimal number) }
    ensures short { result ≤ end + 41 }
{
    let end = append(b" ", line, end);
    append(Buffer::new().format(number).as_bytes(), line, end)
}

fn append_arguments(arguments: &[i32], line: &mut [u8], end: usize) -> usize
    requires { end + 41 * length arguments.now ≤ length line.old }
    ensures text { take result line.new ≡ take end line.old ++ arguments_text arguments.now }
    ensures short { result ≤ end + 41 * length arguments.now }
{
    let mut end = end;
    for argument in arguments {
        end = append_argument(*argument, line, end);
    }
    end
}

#[tactic(auto, using(crate::proofs::Short::few_arguments, crate::proofs::Short::short_name))]
fn append_call(call: Call, line: &mut [u8], end: usize) -> usize
    requires { end + 176 ≤ length line.old }
    ensures text { take result line.new ≡ take end line.old ++ act_text (act.Call call) }
    ensures short { result ≤ end + 176 }
{
    let end = append(call.service().name().as_bytes(), line, end);
    append_arguments(call.arguments().as_slice(), line, end)
}

fn append_fault(fault: Fault, line: &mut [u8], end: usize) -> usize
    requires { end + 11 ≤ length line.old }
    ensures text { take result line.new ≡ take end line.old ++ act_text (act.Fault fault) }
    ensures short { result ≤ end + 11 }
{
    match fault {
        Fault::Overflow => append(b"fault F_OVF", line, end),
        Fault::Division => append(b"fault F_DIV", line, end),
        Fault::Index => append(b"fault F_IDX", line, end),
    }
}

fn append_act(act: Act, line: &mut [u8], end: usize) -> usize
    requires { end + 176 ≤ length line.old }
    ensures text { take result line.new ≡ take end line.old ++ act_text act }
    ensures short { result ≤ end + 176 }
{
    match act {
        Act::Call(call) => append_call(call, line, end),
        Act::End => append(b"end", line, end),
        Act::Fault(fault) => append_fault(fault, line, end),
    }
}

/// `run`, the number of a processor, and what its actor does.
fn append_run(p: u8, act: Act, line: &mut [u8], end: usize) -> usize
    requires { end + 256 ≤ length line.old }
    ensures text { take result line.new ≡ take end line.old ++ given_text (given.Act p act) }
    ensures short { result ≤ end + 256 }
{
    let end = append(b"run ", line, end);
    let end = append_number(p, line, end);
    let end = append(b" ", line, end);
    append_act(act, line, end)
}

fn append_given(given: Given, line: &mut [u8], end: usize) -> usize
    requires { end + 256 ≤ length line.old }
    ensures text { take result line.new ≡ take end line.old ++ given_text given }
    ensures short { result ≤ end + 256 }
{
    match given {
        Given::Act(p, act) => append_run(p, act, line, end),
        Given::Tick => append(b"tick", line, end),
        Given::Int(number) => {
            let end = append(b"int ", line, end);
            append_number(number, line, end)
        }
    }
}

/// Puts the line of what came, with its line feed, into C's room, if there is room for it: how many bytes it has, 0
/// where nothing came.
fn put_recorded(last: Option<Given>, room: &mut [u8]) -> usize
    ensures room { room.new ≡ put (recorded last) room.old }
    ensures length { result ≡ length (recorded last) }
{
    let Some(given) = last else {
        return names::put(&[], room);
    };
    let mut line = [0; ROOM];
    let end = append_given(given, &mut line, 0);
    let end = append(b"\n", &mut line, end);
    names::put(&line[..end], room)
}

/// The line of the last event that was done, as a recording has it, with its line feed: how many bytes it has, 0 before
/// the first such event and where the handle is blank. It stands in the room if there is room for it, and else nothing
/// is written.
#[unsafe(no_mangle)]
pub extern "C" fn fmp_recorded(alloc: Global, h: &mut FmpSystem, room: &mut [u8]) -> usize
    ensures kept { h.new.machine ≡ h.old.machine }
    ensures read { IfSome h.old.machine (λ m.
        (room.new ≡ put (recorded m.last) room.old) × (result ≡ length (recorded m.last))) }
    ensures blank { h.old.machine ≡ None → (room.new ≡ room.old) × (result ≡ 0) }
{
    match mem::replace(h, FmpSystem::blank()).into_box(alloc) {
        Some(held) => {
            let length = put_recorded(held.last, room);
            *h = FmpSystem::of(held);
            length
        }
        None => 0,
    }
}

/// The line that a recording would have if the actor of this processor did what its text does next, with its line feed:
/// how many bytes it has. 0 where there is no text, where no one acts there, where the text does not come to it within
/// the bound, and where the handle is blank. It stands in the room if there is room for it, and else nothing is
/// written.
#[unsafe(no_mangle)]
pub extern "C" fn fmp_next(alloc: Global, h: &mut FmpSystem, p: u8, room: &mut [u8]) -> usize
    ensures kept { h.new.machine ≡ h.old.machine }
    ensures read { IfSome h.old.machine (λ m. (room.new ≡ put (recorded (next_given m.text p)) room.old)
        × (result ≡ length (recorded (next_given m.text p)))) }
    ensures blank { h.old.machine ≡ None → (room.new ≡ room.old) × (result ≡ 0) }
{
    match mem::replace(h, FmpSystem::blank()).into_box(alloc) {
        Some(held) => {
            let length = put_recorded(held.next(p), room);
            *h = FmpSystem::of(held);
            length
        }
        None => 0,
    }
}
