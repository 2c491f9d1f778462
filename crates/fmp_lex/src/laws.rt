//! Laws of texts, which the crates above take by name.
ghost use Rattle.std.specs.Prelude.{ℕ, List};
ghost use Rattle.fmp_lex.specs.Laws.{ReadsWords, HasOneCut};

/// Bytes are read as a word exactly if they are its name.
pub fn words_have_one_name()
    ensures { ReadsWords }
{}

/// Every text is cut into tokens in one way and no other.
pub fn a_text_has_one_cut()
    ensures { (text : List ℕ) → HasOneCut text }
{}
