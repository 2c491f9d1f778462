//! Where the construct stands that has a fault: what is open before the fault.
use crate::pieces::{Piece, Pieces, byte_at, word_at};
use fmp_lex::words::find_keyword;
use fmp_lex::{Keyword, TextFile};

/// Whether a body or a class begins with this word.
pub fn begins_unit(word: &[u8], file: TextFile) -> bool {
    match find_keyword(word) {
        Some(Keyword::Class) => file == TextFile::Configuration,
        Some(Keyword::Task | Keyword::Handler) => file == TextFile::Source,
        _ => false,
    }
}

/// Whether a brace opens or closes a block, in parentheses of this depth: in a configuration those of packets do not.
pub fn is_of_block(file: TextFile, parens: usize) -> bool {
    file == TextFile::Source || parens == 0
}

/// What is open before a position of a text.
#[derive(Clone, Copy)]
pub struct Before {
    file: TextFile,
    /// Where the construct begins that is open, if one is.
    pub construct: Option<usize>,
    /// Where the last body or class begins.
    pub unit: Option<usize>,
    /// How many blocks are open.
    pub blocks: usize,
    /// Whether a construct has ended.
    pub ended: bool,
    /// How many parentheses are open.
    parens: usize,
}

impl Before {
    /// Before the first byte of one of the texts.
    fn new(file: TextFile) -> Before {
        Before {
            file,
            construct: None,
            unit: None,
            blocks: 0,
            ended: false,
            parens: 0,
        }
    }

    /// A construct ends.
    fn end(&mut self) {
        self.construct = None;
        self.ended = true;
        self.parens = 0;
    }

    /// A piece of the construct that is open, or of a new one.
    fn go_on(&mut self, text: &[u8], at: usize) {
        if self.construct.is_none() {
            self.construct = Some(at);
            if begins_unit(word_at(text, at), self.file) {
                self.unit = Some(at);
            }
        }
    }

    /// The piece that begins at a position.
    fn take(&mut self, text: &[u8], at: usize, piece: Piece) {
        match piece {
            Piece::Semicolon => self.end(),
            Piece::LeftBrace if is_of_block(self.file, self.parens) => {
                self.blocks = self.blocks.saturating_add(1);
                self.end();
            }
            Piece::RightBrace if is_of_block(self.file, self.parens) => {
                self.blocks = self.blocks.saturating_sub(1);
                self.end();
            }
            Piece::LeftParen => {
                self.go_on(text, at);
                self.parens = self.parens.saturating_add(1);
            }
            Piece::RightParen => {
                self.go_on(text, at);
                self.parens = self.parens.saturating_sub(1);
            }
            _ => self.go_on(text, at),
        }
    }
}

/// What is open before a position of one of the texts.
pub fn before_position(text: &[u8], at: usize, file: TextFile) -> Before {
    let mut before = Before::new(file);
    let mut pieces = Pieces::new();
    for position in 0..at {
        if let Some(piece) = pieces.take(
            byte_at(text, position),
            byte_at(text, position.saturating_add(1)),
        ) {
            before.take(text, position, piece);
        }
    }
    before
}
