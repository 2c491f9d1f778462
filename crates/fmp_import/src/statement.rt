//! The static API that is gone over: its parentheses and braces, and its fields.
use crate::lexemes::LexemeKind;
use crate::reading::SourceField;
use std::alloc::{AllocError, Global};

/// A static API, from its word up to a lexeme.
#[derive(Drop)]
pub struct Statement {
    /// Its open parentheses.
    depth: usize,
    /// Its open braces.
    braces: usize,
    /// Whether one of its braces closes nothing.
    is_uneven: bool,
    /// Where its open field begins.
    from: usize,
    /// Its fields.
    pub fields: Vec<SourceField>,
}

impl Statement {
    /// One of which the word was read alone.
    pub fn new(alloc: Global) -> Statement {
        Statement {
            depth: 0,
            braces: 0,
            is_uneven: false,
            from: 0,
            fields: Vec::new(alloc),
        }
    }

    /// Begins anew after a word.
    pub fn restart(&mut self) {
        self.depth = 0;
        self.braces = 0;
        self.is_uneven = false;
        self.fields.clear();
    }

    /// Whether none of its parentheses is open.
    pub fn is_outside(&self) -> bool {
        self.depth == 0
    }

    /// Whether its parentheses or its braces do not match.
    pub fn is_unmatched(&self) -> bool {
        self.depth != 0 || self.braces != 0 || self.is_uneven
    }

    /// Takes the first parenthesis, which stands at a place.
    pub fn open(&mut self, place: usize) {
        self.depth = 1;
        self.from = place.saturating_add(1);
    }

    /// Ends the open field before a place.
    fn end_field(&mut self, place: usize) -> Result<(), AllocError> {
        if self.from < place {
            self.fields.push(SourceField {
                from: self.from,
                to: place,
            })?;
        }
        self.from = place.saturating_add(1);
        Ok(())
    }

    /// Counts a brace.
    fn count_brace(&mut self, kind: LexemeKind) {
        match kind {
            LexemeKind::Sign(b'{') => self.braces = self.braces.saturating_add(1),
            LexemeKind::Sign(b'}') if self.braces == 0 => self.is_uneven = true,
            LexemeKind::Sign(b'}') => self.braces = self.braces.saturating_sub(1),
            _ => {}
        }
    }

    /// Takes the lexeme at a place in the parentheses, other than `;`.
    pub fn take(&mut self, place: usize, kind: LexemeKind) -> Result<(), AllocError> {
        self.count_brace(kind);
        match (kind, self.depth) {
            (LexemeKind::Sign(b'('), depth) => {
                self.depth = depth.saturating_add(1);
                Ok(())
            }
            (LexemeKind::Sign(b')'), 1) => {
                self.depth = 0;
                self.end_field(place)
            }
            (LexemeKind::Sign(b')'), depth) => {
                self.depth = depth.saturating_sub(1);
                Ok(())
            }
            (LexemeKind::Sign(b',' | b'{' | b'}'), 1) => self.end_field(place),
            _ => Ok(()),
        }
    }
}
