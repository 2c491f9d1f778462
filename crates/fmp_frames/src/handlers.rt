//! Which interrupts have handlers.
ghost use Rattle.std.specs.Prelude.{◌≡◌};
ghost use Rattle.fmp_base.specs.Systems.{tables_of};
ghost use Rattle.fmp_frames.specs.Handlers as spec;

use fmp_base::System;

/// Whether the interrupt of this number, from 1, has a handler.
pub fn is_handled(sys: &System, number: u8) -> bool
    ensures { result ≡ spec.is_handled (tables_of sys.now) number }
{
    sys.interrupts.iter().any(|config| config.number == number)
}
