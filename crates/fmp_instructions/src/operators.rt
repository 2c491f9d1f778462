//! What the operators give, and their faults.
ghost use Rattle.std.specs.Prelude.{◌≡◌, ◌+ℤ◌, false, pos, OnOk, int_rem};
ghost use Rattle.fmp_base.specs.Operators.{fit, place_in, unary_value, binary_value, quotient, is_zero};

use fmp_base::{BinaryOperator, Fault, UnaryOperator};

fn fitted(exact: i64) -> Result<i32, Fault>
    ensures { result ≡ fit exact }
{
    if exact < -2147483648 || exact > 2147483647 {
        Err(Fault::Overflow)
    } else {
        Ok(exact as i32)
    }
}

/// As `fitted`, by one comparison of what is exact and 2 ^ 31 more: after a sum it is the processor's own test for an
/// overflow.
#[inline(always)]
#[tactic(auto, using(crate::proofs::Fitting::over, crate::proofs::Fitting::within))]
fn fitted_sum(exact: i64, shifted: i64) -> Result<i32, Fault>
    requires { shifted ≡ exact +ℤ pos 2147483648 }
    ensures { result ≡ fit exact }
{
    if shifted.cast_unsigned() > 4294967295 {
        Err(Fault::Overflow)
    } else {
        Ok(exact as i32)
    }
}

fn sum(x: i32, y: i32) -> Result<i32, Fault>
    ensures { result ≡ fit (x +ℤ y) }
{
    let exact = x as i64 + y as i64;
    fitted_sum(exact, exact + 2147483648)
}

/// What a unary operator gives.
pub fn apply_unary(operator: UnaryOperator, x: i32) -> Result<i32, Fault>
    ensures { result ≡ unary_value operator x }
{
    match operator {
        UnaryOperator::Negate => fitted(-(x as i64)),
        UnaryOperator::Not => Ok((x == 0) as i32),
        UnaryOperator::Complement => Ok(-1 - x),
    }
}

fn divided(x: i32, y: i32) -> Result<i32, Fault>
    ensures quotient { result ≡ quotient x y }
    ensures divisor { OnOk result (is_zero y ≡ false) }
{
    if y == 0 {
        Err(Fault::Division)
    } else if y == -1 {
        fitted(x as i64 / y as i64)
    } else {
        // A quotient of 32 bits takes less time than one of 64.
        Ok(x / y)
    }
}

#[tactic(auto, using(std::proofs::lemmas::Int::rem_below))]
fn remainder(x: i32, y: i32) -> i32
    requires { is_zero y ≡ false }
    ensures { result ≡ int_rem x y }
{
    if y == -1 { 0 } else { x % y }
}

/// The place of an array of this many places that an index names.
#[inline(always)]
pub fn place_of(places: u8, index: i32) -> Result<u8, Fault>
    ensures { result ≡ place_in places index }
{
    if index < 0 || index >= places as i32 {
        Err(Fault::Index)
    } else {
        Ok(index as u8)
    }
}

/// What a binary operator gives.
#[inline(always)]
pub fn apply_binary(operator: BinaryOperator, x: i32, y: i32) -> Result<i32, Fault>
    ensures { result ≡ binary_value operator x y }
{
    match operator {
        BinaryOperator::Add => sum(x, y),
        BinaryOperator::Subtract => fitted(x as i64 - y as i64),
        BinaryOperator::Multiply => fitted(x as i64 * y as i64),
        BinaryOperator::Divide => divided(x, y),
        BinaryOperator::Remainder => {
            divided(x, y)?;
            Ok(remainder(x, y))
        }
        BinaryOperator::And => Ok(x & y),
        BinaryOperator::Or => Ok(x | y),
        BinaryOperator::ExclusiveOr => Ok(x ^ y),
        BinaryOperator::Equal => Ok((x == y) as i32),
        BinaryOperator::NotEqual => Ok((x != y) as i32),
        BinaryOperator::Less => Ok((x < y) as i32),
        BinaryOperator::LessOrEqual => Ok((x <= y) as i32),
        BinaryOperator::Greater => Ok((x > y) as i32),
        BinaryOperator::GreaterOrEqual => Ok((x >= y) as i32),
    }
}
