//! The arguments of service calls: numbers of objects and tasks, ranges and time limits (uITRON 4.0, section 2.1).
ghost use Rattle.std.specs.Prelude.{◌≡◌, ◌<◌, ◌≤◌, ◌^◌, IfSome};
ghost use Rattle.fmp_base.specs.Arguments.{IsTimeLimit};
ghost use Rattle.fmp_base.specs.Outcomes.{numbered as place_of, named as task_of, ranged as value_of};
ghost use Rattle.fmp_base.specs.Outcomes.{limit_of as limit_from};

use crate::states::TimeLimit;

/// The longest time limit and the longest delay, in ticks: 2^30.
pub const LONGEST: i32 = 1_073_741_824;

/// The place of the object that a number from 1 to the count of its kind names, or none.
pub fn numbered(count: usize, number: i32) -> Option<u8>
    requires { count ≤ 255 }
    ensures value { result ≡ place_of count number }
    ensures there { IfSome result (λ i. i < count) }
{
    if 1 <= number && number as usize <= count {
        Some((number - 1) as u8)
    } else {
        None
    }
}

/// The place of the task that a number names, where 0 (TSK_SELF) is the caller; or none.
pub fn named(caller: u8, count: usize, number: i32) -> Option<u8>
    requires { count ≤ 255 }
    ensures value { result ≡ task_of caller count number }
    ensures there { caller < count → IfSome result (λ t. t < count) }
{
    if number == 0 {
        Some(caller)
    } else {
        numbered(count, number)
    }
}

/// A number from `low` to `high`, or none.
pub fn ranged(low: u16, high: u16, number: i32) -> Option<u16>
    ensures value { result ≡ value_of low high number }
    ensures low { IfSome result (λ k. low ≤ k) }
    ensures high { IfSome result (λ k. k ≤ high) }
{
    if low as i32 <= number && number <= high as i32 {
        Some(number as u16)
    } else {
        None
    }
}

/// The time limit that a number states: -1 (TMO_FEVR) is none, 0 (TMO_POL) polls, else that many ticks, up to 2^30.
pub fn limit_of(number: i32) -> Option<TimeLimit>
    ensures value { result ≡ limit_from number }
    ensures range { IfSome result IsTimeLimit }
{
    match number {
        -1 => Some(TimeLimit::Forever),
        0 => Some(TimeLimit::Poll),
        _ if 1 <= number && number <= LONGEST => Some(TimeLimit::Ticks(number as u32)),
        _ => None,
    }
}
