//! The destination of a text that is made piece by piece.
ghost use Rattle.std.specs.Prelude.{◌≡◌, ◌++◌, [], ℕ, List, OnErr, OnOk};
ghost use Rattle.fmp_engine.specs.Outlets.{GivenFront};
ghost use Rattle.fmp_engine.specs.Outlets.{appended_nothing, appended_twice};

/// An outlet that takes no more.
#[derive(Clone, Copy)]
pub struct Stopped;

/// The destination of a text, piece by piece.
pub trait Outlet {
    // Between two of its states it was given these bytes, one after the other.
    ghost gave: { Self → Self → List ℕ → Type 0 };

    // The same, and then it took no more.
    ghost stopped: { Self → Self → List ℕ → Type 0 };

    /// Gives it the next piece. After an error it has a front of the piece.
    fn give(&mut self, piece: &[u8]) -> Result<(), Stopped>
        ensures ok { OnOk result (gave self.old self.new piece.now) }
        ensures err { OnErr result (GivenFront stopped self.old self.new piece.now) };

    ghost gave_nothing: { (a : Self) → gave a a [] };

    ghost gave_more: { (a b c : Self) (x y : List ℕ) → gave a b x → gave b c y → gave a c (x ++ y) };

    ghost stopped_later: { (a b c : Self) (x y : List ℕ) → gave a b x → stopped b c y → stopped a c (x ++ y) };
}

impl Outlet for Vec<u8> {
    ghost gave = { λ a b bytes. b.items ≡ a.items ++ bytes };

    ghost stopped = { λ a b bytes. b.items ≡ a.items ++ bytes };

    ghost gave_nothing = { λ a. appended_nothing a.items };

    ghost gave_more = { λ a b c x y first then. appended_twice a.items x y first then };

    ghost stopped_later = { λ a b c x y first then. appended_twice a.items x y first then };

    fn give(&mut self, piece: &[u8]) -> Result<(), Stopped> {
        self.extend_from_slice(piece).map_err(|_| Stopped)
    }
}
