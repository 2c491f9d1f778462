//! Laws of configurations, which the crates above take by name.
ghost use Rattle.std.specs.Prelude.{List, ℕ};
ghost use Rattle.fmp_cfgparse.specs.Laws.{SpellsOneTree, HasOneAnswer, DescribesInRange};

/// A list of tokens spells at most one configuration.
pub fn tokens_spell_one_tree()
    ensures { SpellsOneTree }
{}

/// A text describes at most one system or has at most one first fault, and never both: so the answer of reading it is
/// the only right one.
pub fn a_text_has_one_answer()
    ensures { (text : List ℕ) → HasOneAnswer text }
{}

/// The tables of a system that a text describes keep the rules of a configuration: they are in range, each name is an
/// identifier that is no word of the texts, entries are given by names, and no name and no interrupt number stands
/// twice.
pub fn what_is_described_is_in_range()
    ensures { DescribesInRange }
{}
