//! Service calls and replies, as the trace writes them.
ghost use Rattle.std.specs.Prelude.{◌≡◌, ◌≤◌, ◌+◌, ◌-◌, ◌*◌, ◌++◌, ◌∷◌, [], codes, length, take, IfSome};
ghost use Rattle.fmp_base.specs.Services.{arguments_of};
ghost use Rattle.std.specs.Fmt.{signed_decimal};
ghost use Rattle.fmp_base.specs.Texts.{more_numbers_text, numbers_text, call_text, value_text, reply_text, answer_text};

use crate::padded::{code_word, opening};
use crate::texts::{append_array, append_front, append_signed};
use fmp_base::{Call, Reply};

/// A comma and a number.
#[inline(always)]
fn append_next_number(number: i32, line: &mut [u8], end: usize) -> usize
    requires { end + 18 ≤ length line.old }
    ensures text { take result line.new ≡ take end line.old ++ (codes "," ++ signed_decimal number) }
    ensures short { result ≤ end + 12 }
{
    let end = append_array(*b",", line, end);
    append_signed(number, line, end)
}

/// Numbers, each with a comma in front.
fn append_more_numbers(numbers: &[i32], line: &mut [u8], end: usize) -> usize
    requires { end + 18 * length numbers.now ≤ length line.old }
    ensures text { take result line.new ≡ take end line.old ++ more_numbers_text numbers.now }
    ensures short { result ≤ end + 12 * length numbers.now }
{
    let mut end = end;
    for number in numbers {
        end = append_next_number(*number, line, end);
    }
    end
}

/// Numbers, with commas between.
#[inline(always)]
fn append_numbers(numbers: &[i32], line: &mut [u8], end: usize) -> usize
    requires { end + 18 * length numbers.now ≤ length line.old }
    ensures text { take result line.new ≡ take end line.old ++ numbers_text numbers.now }
    ensures short { result ≤ end + (12 * length numbers.now - 1) }
{
    match numbers {
        [] => end,
        [first, more @ ..] => {
            let end = append_signed(*first, line, end);
            append_more_numbers(more, line, end)
        }
    }
}

/// The argument of a call that has one.
#[inline(always)]
fn single_argument(call: &Call) -> Option<i32>
    ensures { IfSome result (λ number. arguments_of call.now ≡ number ∷ []) }
{
    match call {
        Call::Put { value } => Some(*value),
        Call::LdShr { word } => Some(*word),
        Call::ActTsk { task }
        | Call::CanAct { task }
        | Call::TerTsk { task }
        | Call::GetPri { task }
        | Call::WupTsk { task }
        | Call::CanWup { task }
        | Call::RelWai { task }
        | Call::SusTsk { task }
        | Call::RsmTsk { task }
        | Call::IactTsk { task }
        | Call::IwupTsk { task }
        | Call::IrelWai { task } => Some(*task),
        Call::TslpTsk { limit } => Some(*limit),
        Call::DlyTsk { delay } => Some(*delay),
        Call::SigSem { semaphore }
        | Call::WaiSem { semaphore }
        | Call::PolSem { semaphore }
        | Call::IsigSem { semaphore } => Some(*semaphore),
        Call::RcvDtq { queue } | Call::PrcvDtq { queue } => Some(*queue),
        Call::RcvMbx { mailbox } | Call::PrcvMbx { mailbox } => Some(*mailbox),
        Call::StaCyc { cyclic } | Call::StpCyc { cyclic } => Some(*cyclic),
        Call::RotRdq { priority } | Call::IrotRdq { priority } => Some(*priority),
        Call::LocSpn { lock } | Call::TrySpn { lock } | Call::UnlSpn { lock } => Some(*lock),
        _ => None,
    }
}

/// The arguments of a call, with commas between.
#[tactic(auto, using(crate::proofs::Short::few_arguments))]
#[inline(never)]
fn append_arguments(call: &Call, line: &mut [u8], end: usize) -> usize
    requires { end + 72 ≤ length line.old }
    ensures text { take result line.new ≡ take end line.old ++ numbers_text (arguments_of call.now) }
    ensures short { result ≤ end + 47 }
{
    append_numbers(call.arguments().as_slice(), line, end)
}

/// The argument of a call that has one, or all arguments with commas between.
#[inline(always)]
fn append_argument(call: &Call, line: &mut [u8], end: usize) -> usize
    requires { end + 72 ≤ length line.old }
    ensures text { take result line.new ≡ take end line.old ++ numbers_text (arguments_of call.now) }
    ensures short { result ≤ end + 47 }
{
    match single_argument(call) {
        Some(number) => append_signed(number, line, end),
        None => append_arguments(call, line, end),
    }
}

/// A blank, the name of a call, and its arguments between parentheses.
#[inline(always)]
pub fn append_call(call: &Call, line: &mut [u8], end: usize) -> usize
    requires { end + 84 ≤ length line.old }
    ensures text { take result line.new ≡ take end line.old ++ (codes " " ++ call_text call.now) }
    ensures short { result ≤ end + 59 }
{
    let word = opening(call.service());
    let end = append_front(word, usize::from(word[15]), line, end);
    let end = append_argument(call, line, end);
    append_array(*b")", line, end)
}

#[inline(always)]
fn append_value(value: Option<i32>, line: &mut [u8], end: usize) -> usize
    requires { end + 18 ≤ length line.old }
    ensures text { take result line.new ≡ take end line.old ++ value_text value }
    ensures short { result ≤ end + 12 }
{
    match value {
        Some(value) => {
            let end = append_array(*b" ", line, end);
            append_signed(value, line, end)
        }
        None => end,
    }
}

/// The name of the code, and the value if there is one.
#[inline(always)]
pub fn append_reply(reply: &Reply, line: &mut [u8], end: usize) -> usize
    requires { end + 26 ≤ length line.old }
    ensures text { take result line.new ≡ take end line.old ++ reply_text reply.now }
    ensures short { result ≤ end + 19 }
{
    let word = code_word(reply.code);
    let end = append_front(&word, usize::from(word[7]), line, end);
    append_value(reply.value, line, end)
}

/// A reply, or `wait` where the caller waits.
#[inline(always)]
pub fn append_answer(reply: &Option<Reply>, line: &mut [u8], end: usize) -> usize
    requires { end + 26 ≤ length line.old }
    ensures text { take result line.new ≡ take end line.old ++ answer_text reply.now }
    ensures short { result ≤ end + 19 }
{
    match reply {
        Some(reply) => append_reply(reply, line, end),
        None => append_array(*b"wait", line, end),
    }
}
