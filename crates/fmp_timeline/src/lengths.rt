//! Lengths in a picture.
ghost use Rattle.std.specs.Prelude.{◌≡◌, ◌+ℤ◌, ◌-ℤ◌, ◌*ℤ◌, int_div, int_lt, neg_ℤ, pos};
ghost use Rattle.std.specs.Int.{int_max, int_min};
ghost use Rattle.fmp_timeline.specs.Lengths as spec;

use std::ops::{Add, Sub};

/// A length or a place in tenths of a pixel. What leaves the range of numbers stops at its end.
#[derive(Clone, Copy)]
pub struct Tenths(pub i32);

/// This many whole pixels.
pub fn px(pixels: u32) -> Tenths
    ensures { result ≡ spec.pixels pixels }
{
    Tenths(i32::try_from(pixels).unwrap_or(i32::MAX).saturating_mul(10))
}

impl Tenths {
    /// The half, cut to a tenth.
    pub fn half(self) -> Tenths
        ensures { result.0 ≡ int_div self.0 (pos 2) }
    {
        Tenths(self.0.checked_div(2).unwrap_or(0))
    }

    /// The same length to the other side.
    pub fn back(self) -> Tenths
        ensures { result ≡ spec.tenths (neg_ℤ self.0) }
    {
        Tenths(0) - self
    }

    /// This length times a number.
    pub fn times(self, count: u32) -> Tenths
        ensures { result ≡ spec.tenths (self.0 *ℤ spec.factor count) }
    {
        Tenths(
            self.0
                .saturating_mul(i32::try_from(count).unwrap_or(i32::MAX)),
        )
    }

    /// The greater of two.
    pub fn or_more(self, other: Tenths) -> Tenths
        ensures { result.0 ≡ int_max self.0 other.0 }
    {
        if self.0 < other.0 { other } else { self }
    }

    /// The smaller of two.
    pub fn or_less(self, other: Tenths) -> Tenths
        ensures { result.0 ≡ int_min self.0 other.0 }
    {
        if other.0 < self.0 { other } else { self }
    }

    /// Whether this is less.
    pub fn is_below(self, other: Tenths) -> bool
        ensures { result ≡ int_lt self.0 other.0 }
    {
        self.0 < other.0
    }
}

impl Add for Tenths {
    type Output = Tenths;

    fn add(self, other: Tenths) -> Tenths
        ensures { result ≡ spec.tenths (self.0 +ℤ other.0) }
    {
        Tenths(self.0.saturating_add(other.0))
    }
}

impl Sub for Tenths {
    type Output = Tenths;

    fn sub(self, other: Tenths) -> Tenths
        ensures { result ≡ spec.tenths (self.0 -ℤ other.0) }
    {
        Tenths(self.0.saturating_sub(other.0))
    }
}
