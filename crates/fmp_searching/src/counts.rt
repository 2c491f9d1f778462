//! Counts of objects, as a report has them.

/// A number that counts.
pub trait Count: Copy {
    ghost use Rattle.std.specs.Prelude.{◌≡◌, ℕ};

    ghost number: { Self → ℕ };

    /// The number.
    fn count(self) -> u64
        ensures { result ≡ number self };
}

impl Count for u8 {
    ghost number = { λ n. n };

    fn count(self) -> u64 {
        u64::from(self)
    }
}

impl Count for u16 {
    ghost number = { λ n. n };

    fn count(self) -> u64 {
        u64::from(self)
    }
}
