//! What a line of a text expects of a run.
use fmp_monitors::Sentence;

/// A sentence, and the number of its line in the text, from 1.
#[derive(Clone, Copy)]
pub struct Expected {
    pub line: usize,
    pub sentence: Sentence,
}
