//! Lengths in places.
ghost use Rattle.std.specs.Prelude.{◌≡◌, ◌<◌};
ghost use Rattle.fmp_tasklang.specs.Layout.{places_of};

use fmp_tasklang::Length;

/// How many places a variable takes, given its length: 1 for a plain variable.
#[inline(always)]
pub fn places_of_length(length: Option<Length>) -> usize
    ensures places { result ≡ places_of length }
    ensures low { result < 2147483648 }
{
    match length {
        None => 1,
        Some(length) if length.places > 0 => length.places as usize,
        Some(_) => 0,
    }
}
