//! Where a token stands in a text.

/// Where a token stands, or where the text ends.
#[derive(Clone, Copy, Debug, PartialEq, Eq)]
pub struct TokenPosition {
    /// The line of the first byte, from 1.
    pub line: u32,
    /// The first byte, from 0.
    pub start: u32,
    /// The byte after the last one; `start` where no token stands.
    pub end: u32,
}
