//! The operands of the stack machine: the first `count` of an array of values, the topmost last.
ghost use Rattle.std.specs.Prelude.{◌≡◌, ◌+◌, ◌<◌, ◌≤◌, ◌∷◌, [], length};
ghost use Rattle.fmp_base.specs.Services.{argument, request};
ghost use Rattle.fmp_instructions.specs.Machine.{tops, unstacked};

use fmp_base::{Call, Service};

/// Pushes a value.
#[inline(always)]
pub fn push(values: &mut [i32; 64], count: &mut usize, x: i32)
    requires { count.old < 64 }
    ensures count { count.new ≡ count.old + 1 }
    ensures value { tops values.new count.new ≡ x ∷ tops values.old count.old }
{
    values[*count] = x;
    *count += 1;
}

/// Takes the topmost operand.
#[inline(always)]
pub fn pop(values: &[i32; 64], count: &mut usize) -> i32
    requires some { 0 < count.old }
    requires within { count.old ≤ 64 }
    ensures count { count.new + 1 ≡ count.old }
    ensures value { tops values.now count.old ≡ result ∷ tops values.now count.new }
{
    *count -= 1;
    values[*count]
}

/// Pushes a value onto an array of four, as of a body on its way to a call.
#[inline(always)]
pub fn push_argument(values: &mut [i32; 4], count: &mut usize, x: i32)
    requires { count.old < 4 }
    ensures count { count.new ≡ count.old + 1 }
    ensures value { tops values.new count.new ≡ x ∷ tops values.old count.old }
{
    values[*count] = x;
    *count += 1;
}

/// Takes the topmost operand of an array of four.
#[inline(always)]
pub fn pop_argument(values: &[i32; 4], count: &mut usize) -> i32
    requires some { 0 < count.old }
    requires within { count.old ≤ 4 }
    ensures count { count.new + 1 ≡ count.old }
    ensures value { tops values.now count.old ≡ result ∷ tops values.now count.new }
{
    *count -= 1;
    values[*count]
}

#[inline(always)]
fn operand(values: &[i32], count: usize, index: usize) -> i32
    requires { count ≤ length values.now }
    ensures { result ≡ argument (unstacked (tops values.now count) []) index }
{
    if index < count { values[index] } else { 0 }
}

/// The call of a service whose arguments are all operands, from the first pushed on.
#[inline(always)]
pub fn call(values: &[i32], count: usize, service: Service) -> Call
    requires { count ≤ length values.now }
    ensures { result ≡ request service (unstacked (tops values.now count) []) }
{
    let arguments = [
        operand(values, count, 0),
        operand(values, count, 1),
        operand(values, count, 2),
        operand(values, count, 3),
    ];
    Call::request(service, arguments)
}
