//! Numbers in as few bytes as they need, so that they may lie at any address.
ghost use Rattle.std.specs.Prelude.{◌≡◌, ◌<◌, pos};

use std::marker::Model;

/// A number below 2^24 in three bytes. Contracts see the number.
#[derive(Drop)]
pub struct Three {
    low: u8,
    middle: u8,
    high: u8,
}

impl Model for Three {
    ghost use Rattle.std.specs.Prelude.{ℕ, ◌+◌, ◌*◌, ◌<◌};

    ghost Value = { ℕ };

    ghost view = { λ t. t.low + 256 * t.middle + 65536 * t.high };

    ghost invariant = { λ t. (t.low < 256) × (t.middle < 256) × (t.high < 256) };
}

impl Three {
    /// The bytes of a number.
    pub(crate) fn new(number: u32) -> Three
        requires { number < 16777216 }
        ensures { result ≡ number }
    {
        Three {
            low: (number % 256) as u8,
            middle: (number / 256 % 256) as u8,
            high: (number / 65536) as u8,
        }
    }

    /// The number.
    pub(crate) fn get(&self) -> u32
        ensures value { result ≡ self.now }
        ensures low { result < 16777216 }
    {
        u32::from(self.low) + 256 * u32::from(self.middle) + 65536 * u32::from(self.high)
    }
}

/// A number below 2^31 in four bytes. Contracts see the number.
#[derive(Drop)]
pub struct Four {
    low: Three,
    high: u8,
}

impl Model for Four {
    ghost use Rattle.std.specs.Prelude.{ℕ, ◌+◌, ◌*◌, ◌<◌};

    ghost Value = { ℕ };

    ghost view = { λ f. f.low + 16777216 * f.high };

    ghost invariant = { λ f. (f.low < 16777216) × (f.high < 128) };
}

impl Four {
    /// The bytes of a number.
    pub(crate) fn new(number: u32) -> Four
        requires { number < 2147483648 }
        ensures { result ≡ number }
    {
        Four {
            low: Three::new(number % 16777216),
            high: (number / 16777216) as u8,
        }
    }

    /// The number.
    pub(crate) fn get(&self) -> i32
        ensures { result ≡ pos self.now }
    {
        (self.low.get() + 16777216 * u32::from(self.high)) as i32
    }
}
