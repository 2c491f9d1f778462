//! Where the construct ends that has a fault.
use crate::before::{begins_unit, is_of_block};
use crate::pieces::{Piece, Pieces, byte_at, is_word, word_at};
use fmp_lex::TextFile;
use fmp_lex::words::find_api;

/// How far a construct was gone through.
#[derive(Clone, Copy)]
struct ConstructScan {
    file: TextFile,
    /// Where the construct begins.
    from: usize,
    /// Whether semicolons in its parentheses are its own, as in `for (;;)`.
    is_for: bool,
    /// Whether more follows its block, up to a semicolon, as in `do { } while (1);`.
    is_do: bool,
    /// Whether it is a class, which ends with its `}` even if its heading has no `{`.
    is_class: bool,
    parens: usize,
    /// How many blocks of it are open.
    blocks: usize,
    /// After its last block, which is closed.
    closed: Option<usize>,
    /// Whether `=` stands before the next piece, as before the block of `var x[2] = { 1, 2 };`.
    is_value: bool,
}

impl ConstructScan {
    /// The construct that begins at a position.
    fn new(text: &[u8], from: usize, file: TextFile) -> ConstructScan {
        let word = word_at(text, from);
        ConstructScan {
            file,
            from,
            is_for: is_word(word, b"for"),
            is_do: is_word(word, b"do"),
            is_class: file == TextFile::Configuration && begins_unit(word, file),
            parens: 0,
            blocks: 0,
            closed: None,
            is_value: false,
        }
    }

    /// Whether the word at a position begins another construct: a body or a class, or outside classes a static API.
    fn is_next(&self, text: &[u8], at: usize) -> bool {
        let word = word_at(text, at);
        let is_outside = self.blocks == 0 && !self.is_class;
        at > self.from && (begins_unit(word, self.file) || is_outside && find_api(word).is_some())
    }

    /// A block of the construct opens. After a list of values a semicolon follows, as after the condition of `do`.
    fn open(&mut self) {
        self.is_do = self.is_do || self.is_value && self.blocks == 0;
        self.blocks = self.blocks.saturating_add(1);
        self.parens = 0;
    }

    /// A block closes before this position: the construct ends where that is none of its own, and a class with it.
    fn close(&mut self, at: usize) -> Option<usize> {
        if self.blocks == 0 {
            return Some(if self.is_class {
                at.saturating_add(1)
            } else {
                at
            });
        }
        self.blocks = self.blocks.saturating_sub(1);
        if self.blocks == 0 && !self.is_do {
            self.closed = Some(at.saturating_add(1));
        }
        None
    }

    /// A semicolon stands at this position. In a class it ends a static API, whose parentheses end with it.
    fn semicolon(&mut self, at: usize) -> Option<usize> {
        if self.is_class {
            self.parens = 0;
            return None;
        }
        if self.blocks == 0 && !(self.is_for && self.parens > 0) {
            return Some(at.saturating_add(1));
        }
        None
    }

    /// Where the construct ends, if it does at the piece that begins at this position or before it.
    fn end(&mut self, text: &[u8], at: usize, piece: Piece) -> Option<usize> {
        match piece {
            Piece::Semicolon => return self.semicolon(at),
            Piece::LeftBrace if is_of_block(self.file, self.parens) => self.open(),
            Piece::RightBrace if is_of_block(self.file, self.parens) => return self.close(at),
            Piece::LeftParen => self.parens = self.parens.saturating_add(1),
            Piece::RightParen => self.parens = self.parens.saturating_sub(1),
            Piece::Word if self.is_next(text, at) => return Some(at),
            _ => {}
        }
        None
    }

    /// The same, where a block may have been closed: then `else` alone goes on.
    fn take(&mut self, text: &[u8], at: usize, piece: Piece) -> Option<usize> {
        match self.closed {
            Some(_) if is_word(word_at(text, at), b"else") => self.closed = None,
            Some(end) => return Some(end),
            None => {}
        }
        let end = self.end(text, at, piece);
        self.is_value = byte_at(text, at) == b'=';
        end
    }
}

/// Where the construct ends that begins at a position of one of the texts; nowhere if the text ends first.
pub fn construct_end(text: &[u8], from: usize, file: TextFile) -> Option<usize> {
    let mut scan = ConstructScan::new(text, from, file);
    let mut pieces = Pieces::new();
    for at in from..text.len() {
        if let Some(piece) = pieces.take(byte_at(text, at), byte_at(text, at.saturating_add(1))) {
            if let Some(end) = scan.take(text, at, piece) {
                return Some(end);
            }
        }
    }
    scan.closed
}
