//! What a monitor keeps of what it has seen, and the number that tells it.
ghost use Rattle.std.specs.Prelude.{◌≡◌};
ghost use Rattle.fmp_monitors.specs.Standings as spec;

/// What the monitor of a sentence keeps.
#[derive(Clone, Copy, Debug, PartialEq, Eq)]
pub enum Standing {
    /// Nothing.
    Open,
    /// The first of two happenings, or the opening of a time, has come.
    Held,
    /// This task is inside.
    Inside(u8),
    /// The response has not come since the trigger, and this many ticks may still come before it does.
    Waiting(u32),
}

impl Standing {
    /// Its number: 0 to 257, or 258 and the ticks that may still come. These are fewer than 2^31.
    pub fn code(self) -> u32
        requires { spec.IsShort self }
        ensures { result ≡ spec.code self }
    {
        match self {
            Standing::Open => 0,
            Standing::Held => 1,
            Standing::Inside(task) => u32::from(task) + 2,
            Standing::Waiting(left) => left + 258,
        }
    }

    /// The standing of this number.
    pub fn from_code(code: u32) -> Standing
        ensures { result ≡ spec.standing_coded code }
    {
        if code == 0 {
            Standing::Open
        } else if code == 1 {
            Standing::Held
        } else if code < 258 {
            Standing::Inside((code - 2) as u8)
        } else {
            Standing::Waiting(code - 258)
        }
    }
}
