//! What is read: the lexemes of a text, with the constants that are known.
use crate::constants::Constants;
use crate::lexemes::{Lexeme, LexemeKind};
use crate::text::bytes_of;

/// A text, its lexemes and the constants that are known.
#[derive(Clone, Copy)]
pub struct SourceReading<'a> {
    pub text: &'a [u8],
    pub lexemes: &'a [Lexeme],
    pub constants: &'a Constants,
}

/// What stands between two commas or braces of a static API: the lexemes from `from` up to `to`.
#[derive(Clone, Copy)]
pub struct SourceField {
    pub from: usize,
    pub to: usize,
}

impl<'a> SourceReading<'a> {
    /// The lexemes of a field.
    pub fn lexemes_of(&self, field: SourceField) -> &'a [Lexeme] {
        let to = field.to.min(self.lexemes.len());
        let from = field.from.min(to);
        &self.lexemes[from..to]
    }

    /// The bytes of a lexeme.
    pub fn bytes(&self, lexeme: Lexeme) -> &'a [u8] {
        bytes_of(self.text, lexeme.span)
    }

    /// The only lexeme of a field, if that is a word.
    pub fn word_of(&self, field: SourceField) -> Option<Lexeme> {
        match self.lexemes_of(field) {
            [lexeme] if lexeme.kind == LexemeKind::Word => Some(*lexeme),
            _ => None,
        }
    }
}
