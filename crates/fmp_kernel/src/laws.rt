//! What follows for every kernel, each the contract of a function that does nothing.
ghost use Rattle.std.specs.Prelude.{◌≡◌, ◌<◌, ℕ, List, get_or};
ghost use Rattle.fmp_base.specs.declared.events.Event.{Event};
ghost use Rattle.fmp_base.specs.Meanings.{Meaning};
ghost use Rattle.fmp_base.specs.Setups.{setup};
ghost use Rattle.fmp_base.specs.Systems.{SystemTables};
ghost use Rattle.fmp_kernel.specs.KernelViews.{view_after_all, view_of_setup};
ghost use Rattle.fmp_worlds.specs.Stamps.{stamp};

/// The stamp of a processor after setup and events is the number of those that were done and ran it or left it another
/// actor than they found.
pub fn stamps_count_events<B, C>()
    ensures { (meaning : B → Meaning C) (body : B) (n : ℕ) (sys : SystemTables) (es : List Event) (p : ℕ) →
        p < sys.processors →
        get_or (view_after_all meaning (view_of_setup body n sys (setup sys (meaning body))) es).stamps p 0
        ≡ stamp sys (meaning body) n (setup sys (meaning body)).world es p }
{}
