//! The sentences about runs.
use crate::condition::Condition;
use crate::happening::{ExpectedResponse, ExpectedTrigger, Happening};
use fmp_base::StateWord;

/// What is said of a run.
#[derive(Clone, Copy)]
pub enum Sentence {
    /// This does not happen.
    Never(Happening),
    /// The second does not happen until the first has happened.
    Before {
        first: Happening,
        second: Happening,
    },
    /// After an opening this does not happen, until a closing happens if one is given.
    NeverAfter {
        happening: Happening,
        opening: Happening,
        closing: Option<Happening>,
    },
    /// Whenever the trigger comes, the response comes before more than this many ticks are done.
    Within {
        response: ExpectedResponse,
        /// 0 to 2147483647.
        ticks: u32,
        trigger: ExpectedTrigger,
    },
    /// From where a task does the first to where it does the second, or ends, no other task does the first.
    OneAtATime {
        entering: Happening,
        leaving: Happening,
    },
    /// This is so after setup and after each event.
    Always(Condition),
    /// This task, by its place, may wait forever. It is said for a search, and no run fails it.
    Rests(usize),
    /// At the end this task, by its place, is in this state.
    End {
        word: StateWord,
        task: usize,
    },
}
