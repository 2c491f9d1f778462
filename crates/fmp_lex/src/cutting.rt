//! A text is cut into tokens, spaces and comments.
ghost use Rattle.std.specs.Prelude.{◌≡◌, List, ℕ, ◌+◌, ◌-◌, ◌^◌, ◌<◌, ◌≤◌, ◌↔◌, length, map, slice_index, slice_range};
ghost use Rattle.std.specs.Prelude.{option_map, IfOk, IfSome};
ghost use Rattle.std.specs.List.{All};
ghost use Rattle.fmp_lex.specs.Packing.{IsPacked, IsPlain, HasName, end_after, kind_in, piece_in, whole_in};
ghost use Rattle.fmp_lex.specs.Positions.{text_end};
ghost use Rattle.fmp_lex.specs.Windows.{CutsUpTo, IsPartEnd};
ghost use Rattle.fmp_lex.specs.Scanning.{Saturated, IsRun, in_class};
ghost use Rattle.fmp_lex.specs.declared.scanning.ByteClass.TheVariants as class;
ghost use Rattle.fmp_lex.specs.Cutting.{word_kind, hex_piece, long_symbol, short_symbol, start_of, Piece, IsPiece};
ghost use Rattle.fmp_lex.specs.Cutting.{number_piece, word_piece, symbol_piece, Cuts, EndsWithin, line_at};

use crate::lengths::{api_of, constant_of, may_be_word, service_of};
use crate::packed::{Packed, TokenShape, Tokens};
use crate::position::TokenPosition;
use crate::scanning::{ByteClass, find_close, is_in, line_feeds, run_end, value_of};
use crate::small::{Four, Three};
use crate::token::{LexFault, Symbol, TextFault, Token, TokenList};
use crate::words::find_keyword;
use fmp_base::Name;
use std::alloc::{AllocError, Global};

/// The greatest number of bytes of a text.
pub const TEXT_MAX: usize = 1_048_576;

/// How a piece of a text begins.
#[derive(Clone, Copy)]
pub enum PieceStart {
    Space,
    LineComment,
    BlockComment,
    Word,
    Zero,
    Hex,
    Decimal,
    Other,
}

/// A piece of a text: spaces or a comment, or a token, up to a place; or no piece begins.
#[derive(Drop)]
pub enum Segment {
    Skip(usize),
    Whole(TokenShape, usize),
    Fault(LexFault),
}

/// The tokens of a part of a text.
#[derive(Drop)]
pub struct TextPart {
    pub packed: Vec<Packed>,
    /// Where the text goes on after the part.
    pub next: usize,
    /// Why no token begins there, if a fault ends the part.
    pub fault: Option<LexFault>,
}

fn long_sign(b: u8, c: u8) -> Option<Symbol>
    ensures { result ≡ long_symbol b c }
{
    match (b, c) {
        (b'&', b'&') => Some(Symbol::AndAnd),
        (b'|', b'|') => Some(Symbol::OrOr),
        (b'=', b'=') => Some(Symbol::Equal),
        (b'!', b'=') => Some(Symbol::NotEqual),
        (b'<', b'=') => Some(Symbol::LessEqual),
        (b'>', b'=') => Some(Symbol::GreaterEqual),
        _ => None,
    }
}

#[inline(always)]
fn short_sign(b: u8) -> Option<Symbol>
    ensures { result ≡ short_symbol b }
{
    match b {
        b'(' => Some(Symbol::LeftParen),
        b')' => Some(Symbol::RightParen),
        b'{' => Some(Symbol::LeftBrace),
        b'}' => Some(Symbol::RightBrace),
        b'[' => Some(Symbol::LeftBracket),
        b']' => Some(Symbol::RightBracket),
        b',' => Some(Symbol::Comma),
        b';' => Some(Symbol::Semicolon),
        b'|' => Some(Symbol::Or),
        b'&' => Some(Symbol::And),
        b'^' => Some(Symbol::Xor),
        b'~' => Some(Symbol::Tilde),
        b'!' => Some(Symbol::Not),
        b'=' => Some(Symbol::Assign),
        b'<' => Some(Symbol::Less),
        b'>' => Some(Symbol::Greater),
        b'+' => Some(Symbol::Plus),
        b'-' => Some(Symbol::Minus),
        b'*' => Some(Symbol::Star),
        b'/' => Some(Symbol::Slash),
        b'%' => Some(Symbol::Percent),
        _ => None,
    }
}

/// How a piece begins, by its first two bytes.
#[inline(always)]
fn begin(b: u8, c: u8) -> PieceStart
    ensures { result ≡ start_of b c }
{
    if is_in(ByteClass::Word, b) {
        return match (b, c) {
            (b'0', b'x') => PieceStart::Hex,
            (b'0', _) => PieceStart::Zero,
            (b'1'..=b'9', _) => PieceStart::Decimal,
            _ => PieceStart::Word,
        };
    }
    if is_in(ByteClass::Space, b) {
        return PieceStart::Space;
    }
    match (b, c) {
        (b'/', b'/') => PieceStart::LineComment,
        (b'/', b'*') => PieceStart::BlockComment,
        _ => PieceStart::Other,
    }
}

/// The number of this value, whose digits end at `end`.
fn number(text: &[u8], end: usize, fits: bool, value: u64) -> Segment
    ensures piece { (n : ℕ) → Saturated value n → piece_in text.now result ≡ number_piece text.now end fits n }
    ensures ends { (i : ℕ) → i < end → end ≤ length text.now → EndsWithin text.now i (piece_in text.now result) }
    ensures named { HasName text.now result }
{
    if end < text.len() && is_in(ByteClass::Word, text[end]) {
        Segment::Fault(LexFault::Syntax)
    } else if fits && value <= 2_147_483_647 {
        Segment::Whole(TokenShape::Number(Four::new(value as u32)), end)
    } else {
        Segment::Fault(LexFault::Limit)
    }
}

/// The number of the hexadecimal digits from `start` up to `end`.
fn hex_number(text: &[u8], start: usize, end: usize) -> Segment
    requires run { IsRun (in_class class.Hex) text.now start end }
    ensures piece { piece_in text.now result ≡ hex_piece text.now start end }
    ensures ends { (i : ℕ) → i < end → EndsWithin text.now i (piece_in text.now result) }
    ensures named { HasName text.now result }
{
    if end == start {
        return Segment::Fault(LexFault::Syntax);
    }
    number(text, end, end - start <= 8, value_of(&text[start..end], 16))
}

/// The word that these bytes are.
#[inline(always)]
fn find_word(bytes: &[u8]) -> Option<TokenShape>
    ensures word { (text : List ℕ) → option_map (kind_in text) result ≡ word_kind bytes.now }
    ensures plain { IfSome result IsPlain }
{
    if !may_be_word(bytes) {
        return None;
    }
    if let Some(constant) = constant_of(bytes) {
        return Some(TokenShape::Constant(constant));
    }
    if let Some(api) = api_of(bytes) {
        return Some(TokenShape::Api(api));
    }
    if let Some(service) = service_of(bytes) {
        return Some(TokenShape::Service(service));
    }
    match find_keyword(bytes) {
        Some(keyword) => Some(TokenShape::Keyword(keyword)),
        None => None,
    }
}

/// The word or the name that stands from `start` up to `end`.
#[inline(always)]
fn word(text: &[u8], start: usize, end: usize) -> Segment
    requires some { start < end }
    requires within { end ≤ length text.now }
    requires short { length text.now ≤ TEXT_MAX }
    ensures piece { piece_in text.now result ≡ word_piece (slice_range text.now start end) end }
    ensures ends { EndsWithin text.now start (piece_in text.now result) }
    ensures named { HasName text.now result }
{
    if let Some(shape) = find_word(&text[start..end]) {
        return Segment::Whole(shape, end);
    }
    if end - start > Name::MAX {
        return Segment::Fault(LexFault::Limit);
    }
    let name = TokenShape::Name {
        length: (end - start) as u8,
        start: Three::new(start as u32),
    };
    Segment::Whole(name, end)
}

/// The longest symbol at `i`, where these two bytes stand.
#[inline(always)]
fn sign(i: usize, b: u8, c: u8) -> Segment
    requires { i + 2 < 2 ^ 64 }
    ensures piece { (text : List ℕ) → piece_in text result ≡ symbol_piece i b c }
    ensures ends { (text : List ℕ) → i < length text → slice_index text (i + 1) ≡ c →
        EndsWithin text i (piece_in text result) }
    ensures named { (text : List ℕ) → HasName text result }
{
    if let Some(symbol) = long_sign(b, c) {
        return Segment::Whole(TokenShape::Symbol(symbol), i + 2);
    }
    match short_sign(b) {
        Some(symbol) => Segment::Whole(TokenShape::Symbol(symbol), i + 1),
        None => Segment::Fault(LexFault::Syntax),
    }
}

/// The piece that begins at a place.
#[inline(always)]
fn next_piece(text: &[u8], i: usize) -> Segment
    requires inside { i < length text.now }
    requires short { length text.now ≤ TEXT_MAX }
    ensures piece { IsPiece text.now i (piece_in text.now result) }
    ensures ends { EndsWithin text.now i (piece_in text.now result) }
    ensures named { HasName text.now result }
{
    let b = text[i];
    let c = if i + 1 < text.len() { text[i + 1] } else { 0 };
    match begin(b, c) {
        PieceStart::Space => Segment::Skip(run_end(text, ByteClass::Space, i + 1)),
        PieceStart::LineComment => Segment::Skip(run_end(text, ByteClass::SameLine, i + 1)),
        PieceStart::BlockComment => match find_close(text, i + 2) {
            Some(end) => Segment::Skip(end + 2),
            None => Segment::Fault(LexFault::Syntax),
        },
        PieceStart::Word => {
            let end = run_end(text, ByteClass::Word, i + 1);
            word(text, i, end)
        }
        PieceStart::Zero => number(text, i + 1, true, 0),
        PieceStart::Hex => hex_number(text, i + 2, run_end(text, ByteClass::Hex, i + 2)),
        PieceStart::Decimal => {
            let end = run_end(text, ByteClass::Digit, i + 1);
            number(text, end, true, value_of(&text[i..end], 10))
        }
        PieceStart::Other => sign(i, b, c),
    }
}

/// Where the piece ends that begins here.
fn piece_end(text: &[u8], start: usize) -> usize
    requires inside { start < length text.now }
    requires short { length text.now ≤ TEXT_MAX }
    ensures end { (p : Piece) → IsPiece text.now start p → result ≡ end_after start p }
    ensures within { result ≤ length text.now }
{
    match next_piece(text, start) {
        Segment::Skip(end) => end,
        Segment::Whole(_, end) => end,
        Segment::Fault(_) => start,
    }
}

/// Where the piece stands that begins here.
pub(crate) fn position_of_piece(text: &[u8], start: usize) -> TokenPosition
    requires inside { start < length text.now }
    requires short { length text.now ≤ TEXT_MAX }
    ensures line { result.line ≡ line_at text.now start }
    ensures start { result.start ≡ start }
    ensures end { (p : Piece) → IsPiece text.now start p → result.end ≡ end_after start p }
{
    TokenPosition {
        line: 1 + line_feeds(&text[..start]),
        start: start as u32,
        end: piece_end(text, start) as u32,
    }
}

/// Where a text ends.
fn end_of(text: &[u8]) -> TokenPosition
    requires { length text.now ≤ TEXT_MAX }
    ensures { result ≡ text_end text.now }
{
    TokenPosition {
        line: 1 + line_feeds(text),
        start: text.len() as u32,
        end: text.len() as u32,
    }
}

/// The tokens of a text from `start` on that begin before `stop`, up to the first fault. They take the place of what
/// `room` holds.
#[inline(never)]
pub(crate) fn cut_part(
    text: &[u8],
    start: usize,
    stop: usize,
    room: Vec<Packed>,
) -> Result<TextPart, AllocError>
    requires short { length text.now ≤ TEXT_MAX }
    requires start { start ≤ length text.now }
    requires stop { stop ≤ length text.now }
    ensures cut { IfOk result (λ p. CutsUpTo text.now p.next start (map (whole_in text.now) p.packed.items)) }
    ensures packed { IfOk result (λ p. All (IsPacked text.now) p.packed.items) }
    ensures few { IfOk result (λ p. length p.packed.items ≤ p.next) }
    ensures within { IfOk result (λ p. p.next ≤ length text.now) }
    ensures end { IfOk result (λ p. IsPartEnd text.now stop p.next p.fault) }
{
    let mut packed = room;
    packed.clear();
    let mut i = start;
    'pieces: while i < stop {
        match next_piece(text, i) {
            Segment::Skip(end) => i = end,
            Segment::Whole(shape, end) => {
                packed.push(Packed::new(shape, i as u32, end as u32))?;
                i = end;
            }
            Segment::Fault(fault) => {
                return Ok(TextPart {
                    packed,
                    next: i,
                    fault: Some(fault),
                });
            }
        }
    }
    Ok(TextPart {
        packed,
        next: i,
        fault: None,
    })
}

/// The tokens of a text that is not too long.
fn cut(alloc: Global, text: &[u8]) -> Result<Vec<Packed>, AllocError>
    requires { length text.now ≤ TEXT_MAX }
    ensures cut { IfOk result (λ v. Cuts text.now 0 (map (whole_in text.now) v.items)) }
    ensures only { IfOk result (λ v. (ts : List Token) → Cuts text.now 0 ts → ts ≡ map (whole_in text.now) v.items) }
    ensures packed { IfOk result (λ v. All (IsPacked text.now) v.items) }
    ensures few { IfOk result (λ v. length v.items ≤ length text.now) }
{
    let TextPart {
        mut packed,
        next,
        fault,
    } = cut_part(text, 0, text.len(), Vec::new(alloc))?;
    match fault {
        None => Ok(packed),
        Some(fault) => {
            packed.push(Packed::new(TokenShape::Bad(fault), next as u32, next as u32))?;
            Ok(packed)
        }
    }
}

/// The tokens of a text. The last one is `Bad` if no token stands in its place.
pub fn tokens<'a>(alloc: Global, text: &'a [u8]) -> Result<TokenList<'a>, TextFault>
    ensures cut { IfOk result (λ list. Cuts text.now 0 list.tokens) }
    ensures only { IfOk result (λ list. (ts : List Token) → Cuts text.now 0 ts → ts ≡ list.tokens) }
    ensures end { IfOk result (λ list. list.end ≡ text_end text.now) }
    ensures too_long { (result ≡ Err TextFault.TooLong) ↔ (TEXT_MAX < length text.now) }
{
    if text.len() > TEXT_MAX {
        return Err(TextFault::TooLong);
    }
    let packed = cut(alloc, text)?;
    Ok(TokenList {
        tokens: Tokens::new(text, packed),
        end: end_of(text),
    })
}
