//! Whether an outcome is still current, by stamps.
ghost use Rattle.std.specs.Prelude.{◌≡◌};
ghost use Rattle.fmp_journal.specs.Stamps.{is_current as current_at};

/// Whether a ticket that was drawn at a stamp is still that of its processor, by the stamp of the processor now, which
/// has none while it has no actor.
pub fn is_current(now: Option<u32>, drawn: u32) -> bool
    ensures { result ≡ current_at now drawn }
{
    match now {
        Some(now) => now == drawn,
        None => false,
    }
}
