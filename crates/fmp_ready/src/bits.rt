//! Bitmaps of sixteen bits, by their places from 0.
ghost use Rattle.std.specs.Prelude.{◌≡◌, ◌≢◌, ℕ, ◌<◌};
ghost use Rattle.std.specs.Int.{bit_at};
ghost use Rattle.fmp_ready.specs.Bits.{IsLowest};

/// The bitmap with a bit set.
pub fn with_bit(bitmap: u16, place: u8) -> u16
    requires { place < 16 }
    ensures set { bit_at result place ≡ 1 }
    ensures others { (i : ℕ) → i ≢ place → bit_at result i ≡ bit_at bitmap i }
{
    bitmap | 1 << place
}

/// The bitmap with a bit cleared.
pub fn without_bit(bitmap: u16, place: u8) -> u16
    requires { place < 16 }
    ensures cleared { bit_at result place ≡ 0 }
    ensures others { (i : ℕ) → i < 16 → i ≢ place → bit_at result i ≡ bit_at bitmap i }
{
    bitmap & !(1 << place)
}

/// The place of the lowest bit that is set, if any.
pub fn lowest_bit(bitmap: u16) -> Option<u8>
    ensures { IsLowest bitmap result }
{
    if bitmap == 0 {
        None
    } else {
        Some(bitmap.trailing_zeros() as u8)
    }
}
