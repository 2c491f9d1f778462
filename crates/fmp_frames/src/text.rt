//! Identifiers and bits of a dump. If memory runs out, the text has an unfinished end.
ghost use Rattle.std.specs.Prelude.{◌≡◌, ◌++◌, ◌∷◌, [], ◌+◌, ◌/◌, ◌%◌, ◌^◌, ◌<◌, ◌≤◌, OnOk};
ghost use Rattle.fmp_frames.specs.Dumps as spec;

use std::alloc::AllocError;

/// Appends the lowest digit of a number in base 94.
fn append_digit(number: usize, out: &mut Vec<u8>) -> Result<(), AllocError>
    ensures { OnOk result (out.new.items ≡ out.old.items ++ (spec.digit number ∷ [])) }
{
    out.push(b'!' + (number % 94) as u8)?;
    Ok(())
}

/// Appends the identifier of the variable at this place, which is below 94^4.
pub fn append_identifier(place: usize, out: &mut Vec<u8>) -> Result<(), AllocError>
    ensures { OnOk result (out.new.items ≡ out.old.items ++ spec.identifier place) }
{
    let mut rest = place;
    for _digit in 0..3_u8 {
        append_digit(rest, out)?;
        if rest < 94 {
            return Ok(());
        }
        rest /= 94;
    }
    append_digit(rest, out)
}

/// The digit for a bit of a number: the lowest is at place 0.
fn bit_digit(number: u64, place: u8) -> u8
    requires { place < 32 }
    ensures { result ≡ 48 + number / 2 ^ place % 2 }
{
    b'0' + ((number >> place) % 2) as u8
}

/// Appends the lowest bits of a number, the highest of them first.
pub fn append_bits(number: u64, width: u8, out: &mut Vec<u8>) -> Result<(), AllocError>
    requires { width ≤ 32 }
    ensures { OnOk result (out.new.items ≡ out.old.items ++ spec.bits width number) }
{
    for place in 0..width {
        out.push(bit_digit(number, width - 1 - place))?;
    }
    Ok(())
}
