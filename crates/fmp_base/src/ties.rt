//! Two meanings of bodies side by side.
ghost use Rattle.std.specs.Prelude.{◌≡◌, ℕ, List};
ghost use Rattle.fmp_base.specs.declared.events.Event.{Event};
ghost use Rattle.fmp_base.specs.Meanings.{Meaning};
ghost use Rattle.fmp_base.specs.Runs.{complete_run};
ghost use Rattle.fmp_base.specs.Setups.{setup};
ghost use Rattle.fmp_base.specs.Systems.{SystemTables};
ghost use Rattle.fmp_base.specs.Ties.{KeepsTie, TraceAgrees};

/// Two meanings of bodies, each at its bound, whose contexts are tied: start, stretch and deliver keep the tie.
pub trait Tie {
    /// A context of the first meaning.
    type First;
    /// A context of the second meaning.
    type Second;

    ghost first: { Meaning Self.First };

    ghost second: { Meaning Self.Second };

    ghost first_bound: { ℕ };

    ghost second_bound: { ℕ };

    ghost tied: { ℕ → Self.First → Self.Second → Type 0 };

    ghost keeps: { KeepsTie tied tied tied (λ body d e. d ≡ e) first first_bound second second_bound };
}

/// A law: what the first of two tied meanings finishes, the second finishes with the same lines and the same end.
pub fn tied_meanings_agree<T: Tie>()
    ensures { (sys : SystemTables) (es : List Event) →
        TraceAgrees
        (complete_run sys T.first T.first_bound (setup sys T.first).world es)
        (complete_run sys T.second T.second_bound (setup sys T.second).world es) }
{}
