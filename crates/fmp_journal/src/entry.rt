//! The words of journaled events.
ghost use Rattle.std.specs.Prelude.{◌≡◌};
ghost use Rattle.fmp_journal.specs.Laws.{WordsReadBack};

use fmp_base::Event;

/// An event of the journal, and the number of the seat that made it.
#[derive(Clone, Copy, Debug, PartialEq, Eq)]
pub struct JournalEntry {
    pub seat: u8,
    pub event: Event,
}

impl JournalEntry {
    ghost use Rattle.fmp_journal.specs.Words.{word_of, entry_of, IsEntry};

    /// Its word: `seat * 65536 + kind * 256 + number`, of kind 1 for `Run`, 2 for `Tick`, whose number is 0, and 3 for
    /// `Int`.
    pub fn word(self) -> u64
        ensures word { result ≡ word_of self }
        ensures bytes { IsEntry self }
    {
        let (kind, number) = match self.event {
            Event::Run(processor) => (1, processor),
            Event::Tick => (2, 0),
            Event::Int(interrupt) => (3, interrupt),
        };
        self.seat as u64 * 65536 + kind * 256 + number as u64
    }

    /// The entry of a word, if it is the word of one. 0, the empty word, is not.
    pub fn from_word(word: u64) -> Option<JournalEntry>
        ensures { result ≡ entry_of word }
    {
        if word / 65536 > 255 {
            return None;
        }
        let number = (word % 256) as u8;
        let event = match word / 256 % 256 {
            1 => Event::Run(number),
            2 if number == 0 => Event::Tick,
            3 => Event::Int(number),
            _ => return None,
        };
        Some(JournalEntry {
            seat: (word / 65536) as u8,
            event,
        })
    }
}

/// Every entry has one word, which is not 0, and is read back from it.
pub fn words_read_back()
    ensures { WordsReadBack }
{}
