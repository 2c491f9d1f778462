//! The pieces of a text that tell where a construct begins and ends. A text is gone through byte by byte, whether its
//! tokens are well formed or not.
use crate::before::begins_unit;
use fmp_lex::TextFile;

/// What begins at a byte.
#[derive(Clone, Copy, PartialEq, Eq)]
pub enum Piece {
    Word,
    LeftParen,
    RightParen,
    LeftBrace,
    RightBrace,
    Semicolon,
    /// A line of a preprocessor.
    Directive,
    /// A string, or another byte that is no space.
    Other,
}

/// Inside what the last byte stands.
#[derive(Clone, Copy, PartialEq, Eq)]
enum Inside {
    Nothing,
    Word,
    /// A comment up to the end of its line, or a directive.
    Line,
    /// The first byte of a comment's beginning.
    Opening,
    Comment,
    /// The first byte of a comment's end.
    Closing,
    String,
}

/// How far a text was gone through.
#[derive(Clone, Copy)]
pub struct Pieces {
    inside: Inside,
}

/// Whether a byte stands in words.
fn is_in_word(byte: u8) -> bool {
    byte.is_ascii_alphanumeric() || byte == b'_'
}

/// What a byte outside words is, if it is no space.
fn piece_of(byte: u8) -> Option<Piece> {
    match byte {
        b'(' => Some(Piece::LeftParen),
        b')' => Some(Piece::RightParen),
        b'{' => Some(Piece::LeftBrace),
        b'}' => Some(Piece::RightBrace),
        b';' => Some(Piece::Semicolon),
        b' ' | b'\t' | b'\r' | b'\n' => None,
        _ => Some(Piece::Other),
    }
}

impl Pieces {
    /// Nothing was gone through.
    pub fn new() -> Pieces {
        Pieces {
            inside: Inside::Nothing,
        }
    }

    /// What begins at a byte outside comments and strings, before this one.
    fn begin(&mut self, byte: u8, next: u8) -> Option<Piece> {
        let in_word = self.inside == Inside::Word;
        self.inside = match (byte, next) {
            (b'/', b'/') | (b'#', _) => Inside::Line,
            (b'/', b'*') => Inside::Opening,
            (b'"', _) => Inside::String,
            _ if is_in_word(byte) => Inside::Word,
            _ => Inside::Nothing,
        };
        match self.inside {
            Inside::Word if in_word => None,
            Inside::Word => Some(Piece::Word),
            Inside::Line if byte == b'#' => Some(Piece::Directive),
            Inside::Line | Inside::Opening => None,
            _ => piece_of(byte),
        }
    }

    /// What begins at the next byte, after which this one stands; nothing inside words, spaces and comments.
    pub fn take(&mut self, byte: u8, next: u8) -> Option<Piece> {
        match self.inside {
            Inside::Nothing | Inside::Word => return self.begin(byte, next),
            Inside::Opening => self.inside = Inside::Comment,
            Inside::Comment if byte == b'*' && next == b'/' => self.inside = Inside::Closing,
            Inside::Comment => {}
            Inside::Closing => self.inside = Inside::Nothing,
            Inside::Line if byte == b'\n' => self.inside = Inside::Nothing,
            Inside::Line => {}
            Inside::String if byte == b'"' || byte == b'\n' => self.inside = Inside::Nothing,
            Inside::String => {}
        }
        None
    }
}

/// The byte at a position; 0 after the end.
pub fn byte_at(text: &[u8], at: usize) -> u8 {
    text.get(at).copied().unwrap_or(0)
}

/// The word that begins at a position; empty if none does.
pub fn word_at(text: &[u8], at: usize) -> &[u8] {
    let rest = text.get(at..).unwrap_or(&[]);
    let end = rest
        .iter()
        .position(|byte| !is_in_word(*byte))
        .unwrap_or(rest.len());
    rest.get(..end).unwrap_or(&[])
}

/// Whether two words have the same letters.
pub fn is_word(word: &[u8], letters: &[u8]) -> bool {
    word == letters
}

/// Where the next body begins, from a position on.
pub fn next_body(text: &[u8], from: usize) -> Option<usize> {
    let mut pieces = Pieces::new();
    for at in from..text.len() {
        let piece = pieces.take(byte_at(text, at), byte_at(text, at.saturating_add(1)));
        if piece == Some(Piece::Word) && begins_unit(word_at(text, at), TextFile::Source) {
            return Some(at);
        }
    }
    None
}

/// Where the line ends in which a position stands.
pub fn line_end(text: &[u8], from: usize) -> usize {
    for at in from..text.len() {
        if byte_at(text, at) == b'\n' {
            return at;
        }
    }
    text.len()
}
