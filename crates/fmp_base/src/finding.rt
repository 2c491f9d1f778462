//! Words are found among those that begin with the same byte.
ghost use Rattle.std.specs.Prelude.{◌≡◌, ℕ, List, [], None, find, refl};
ghost use Rattle.std.specs.List.{filter};
ghost use Rattle.std.specs.Str.{bytes_eq};
ghost use Rattle.fmp_base.specs.Words.{begins_with};

use crate::initials::{apis_from, constants_from, keywords_from, services_from};
use crate::services::Service;
use crate::words::{Api, Constant, Keyword};

/// Words of one kind.
pub(crate) trait Word: Copy + 'static {
    /// The text of a word.
    ghost text: { Self → List ℕ };

    /// All words of the kind.
    ghost words: { List Self };

    /// No word is empty.
    ghost are_texts: { find (λ word. bytes_eq (text word) []) words ≡ None };

    /// The word as the texts write it.
    fn spelling(self) -> &'static str
        ensures { result.now ≡ text self };

    /// The words that begin with a byte.
    fn words_from(initial: u8) -> &'static [Self]
        ensures { result.now ≡ filter (λ word. begins_with initial (text word)) words };
}

/// The word of this text, among these.
fn word_among<W: Word>(words: &[W], text: &[u8]) -> Option<W>
    ensures { result ≡ find (λ word. bytes_eq (W.text word) text.now) words.now }
{
    words
        .iter()
        .copied()
        .find(|word| word.spelling().as_bytes() == text)
}

/// The word of this text.
pub(crate) fn find_word<W: Word>(text: &[u8]) -> Option<W>
    ensures { result ≡ find (λ word. bytes_eq (W.text word) text.now) W.words }
{
    word_among(W::words_from(*text.first()?), text)
}

impl Word for Constant {
    ghost use Rattle.fmp_base.specs.Words.{constant_name};
    ghost use Rattle.fmp_base.specs.declared.words.TheConstants.{CONSTANTS};

    ghost text = { constant_name };

    ghost words = { CONSTANTS };

    ghost are_texts = { refl };

    fn spelling(self) -> &'static str {
        self.name()
    }

    fn words_from(initial: u8) -> &'static [Self] {
        constants_from(initial)
    }
}

impl Word for Api {
    ghost use Rattle.fmp_base.specs.Words.{api_name};
    ghost use Rattle.fmp_base.specs.declared.words.TheConstants.{APIS};

    ghost text = { api_name };

    ghost words = { APIS };

    ghost are_texts = { refl };

    fn spelling(self) -> &'static str {
        self.name()
    }

    fn words_from(initial: u8) -> &'static [Self] {
        apis_from(initial)
    }
}

impl Word for Service {
    ghost use Rattle.fmp_base.specs.Services.{service_name};
    ghost use Rattle.fmp_base.specs.declared.services.TheConstants.{SERVICES};

    ghost text = { service_name };

    ghost words = { SERVICES };

    ghost are_texts = { refl };

    fn spelling(self) -> &'static str {
        self.name()
    }

    fn words_from(initial: u8) -> &'static [Self] {
        services_from(initial)
    }
}

impl Word for Keyword {
    ghost use Rattle.fmp_base.specs.Words.{keyword_name};
    ghost use Rattle.fmp_base.specs.declared.words.TheConstants.{KEYWORDS};

    ghost text = { keyword_name };

    ghost words = { KEYWORDS };

    ghost are_texts = { refl };

    fn spelling(self) -> &'static str {
        self.name()
    }

    fn words_from(initial: u8) -> &'static [Self] {
        keywords_from(initial)
    }
}
