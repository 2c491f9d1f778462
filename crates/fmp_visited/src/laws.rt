//! Laws of rows and of links, each the contract of a function that does nothing.
ghost use Rattle.std.specs.Prelude.{◌≡◌, ◌+◌, ◌<◌, ℕ, List, [], ◌∷◌, ◌++◌, Some, length, slice_get};
ghost use Rattle.fmp_visited.specs.declared.link.StateLink.{StateLink};
ghost use Rattle.fmp_visited.specs.Links.{AreLinked, IsLink, path_of};
ghost use Rattle.fmp_visited.specs.Rows.{AreValues, row_of};

/// Values of 32 bits that have one row are the same, where as many as the first ones.
pub fn rows_tell_values()
    ensures { (first v w : List ℕ) → length v ≡ length first → length w ≡ length first → AreValues v → AreValues w →
        row_of first v ≡ row_of first w → v ≡ w }
{}

/// An empty list of links is linked, and so is a linked list with one more, which is the first or leads to one of
/// these.
pub fn links_are_linked()
    ensures none { AreLinked [] }
    ensures added { (links : List StateLink) (link : StateLink) → AreLinked links → IsLink links link →
        AreLinked (links ++ link ∷ []) }
{}

/// The path to a state is that to its parent and its event.
pub fn path_of_added()
    ensures first { (link : StateLink) → link.depth ≡ 0 → path_of (link ∷ []) 0 ≡ [] }
    ensures next { (links : List StateLink) (link parent : StateLink) → AreLinked links →
        slice_get links link.parent ≡ Some parent → link.depth ≡ parent.depth + 1 →
        path_of (links ++ link ∷ []) (length links) ≡ path_of links link.parent ++ link.event ∷ [] }
{}

/// The path to a state stays where more states come.
pub fn path_stays()
    ensures { (links more : List StateLink) (i : ℕ) → AreLinked links → i < length links →
        path_of (links ++ more) i ≡ path_of links i }
{}

/// The path to a state has as many events as its depth says.
pub fn path_has_depth()
    ensures { (links : List StateLink) (i : ℕ) (link : StateLink) → AreLinked links → slice_get links i ≡ Some link →
        length (path_of links i) ≡ link.depth }
{}
