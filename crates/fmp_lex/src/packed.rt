//! The tokens of a text in few bytes each: the bytes of a name stay in the text, and lines and ends are worked out of
//! it.
ghost use Rattle.std.specs.Prelude.{◌≡◌, ℕ, List, ◌+◌, ◌++◌, ◌<◌, ◌≤◌, ◌^◌, length, map, replicate, slice_get};
ghost use Rattle.std.specs.Prelude.{option_map, IfSome};
ghost use Rattle.std.specs.List.{All};
ghost use Rattle.fmp_base.specs.Names.{name_from};
ghost use Rattle.fmp_lex.specs.Packing.{IsPacked, Stands, absent, kind_in, whole_in};
ghost use Rattle.fmp_lex.specs.Positions.{position_of};
ghost use Rattle.fmp_lex.specs.Reading.{kinds_of};

use crate::cutting::position_of_piece;
use crate::position::TokenPosition;
use crate::small::{Four, Three};
use crate::token::{LexFault, Symbol, TokenKind};
use crate::words::{Api, Constant, Keyword};
use fmp_base::{Name, Service};
use std::marker::Model;
use std::snapshot::Snapshot;

/// What a token is; a name by where it stands in the text.
#[derive(Drop)]
pub enum TokenShape {
    Number(Four),
    Name { length: u8, start: Three },
    Constant(Constant),
    Api(Api),
    Service(Service),
    Keyword(Keyword),
    Symbol(Symbol),
    Bad(LexFault),
}

/// A token in few bytes. Its end has none: only the contracts see it. In six bytes, with great numbers read again from
/// the text, reading takes longer.
#[derive(Drop)]
pub struct Packed {
    pub shape: TokenShape,
    pub start: Three,
    pub end: Snapshot<u32>,
}

impl Packed {
    /// The token that stands from `start` up to `end`.
    pub(crate) fn new(shape: TokenShape, start: u32, end: u32) -> Packed
        requires { start < 16777216 }
        ensures shape { result.shape ≡ shape }
        ensures start { result.start ≡ start }
        ensures end { result.end.value ≡ end }
    {
        Packed {
            shape,
            start: Three::new(start),
            end: Snapshot::of(&end),
        }
    }
}

/// What a token of this shape is in a text.
fn kind_of(text: &[u8], shape: &TokenShape) -> TokenKind
    requires { Stands text.now shape.now }
    ensures { result ≡ kind_in text.now shape.now }
{
    match shape {
        TokenShape::Number(number) => TokenKind::Number(number.get()),
        TokenShape::Name { length, start } => {
            let start = start.get() as usize;
            name_of(&text[start..start + *length as usize])
        }
        TokenShape::Constant(constant) => TokenKind::Constant(*constant),
        TokenShape::Api(api) => TokenKind::Api(*api),
        TokenShape::Service(service) => TokenKind::Service(*service),
        TokenShape::Keyword(keyword) => TokenKind::Keyword(*keyword),
        TokenShape::Symbol(symbol) => TokenKind::Symbol(*symbol),
        TokenShape::Bad(fault) => TokenKind::Bad(*fault),
    }
}

/// The name of these bytes, of which there are 1 to 31.
fn name_of(bytes: &[u8]) -> TokenKind
    requires some { 0 < length bytes.now }
    requires few { length bytes.now ≤ 31 }
    ensures { result ≡ TokenKind.Name (name_from bytes.now) }
{
    match Name::new(bytes) {
        Some(name) => TokenKind::Name(name),
        None => TokenKind::Bad(LexFault::Limit),
    }
}

/// Where a token that is not held is said to stand: at the start of the text.
const ABSENT: TokenPosition = TokenPosition {
    line: 1,
    start: 0,
    end: 0,
};

/// How far after the first token that is held the one at a place of the list stands. One that stands before it is
/// farther than any that is held.
#[inline(always)]
fn offset(first: usize, at: usize) -> usize
    requires { first ≤ 1048576 }
    ensures held { first ≤ at → first + result ≡ at }
    ensures absent { at < first → 1048576 < result }
{
    at.wrapping_sub(first)
}

/// The tokens of a text, in order, or those of a part of it after others that are not held. Contracts see the list of
/// them.
#[derive(Drop)]
pub struct Tokens<'a> {
    text: &'a [u8],
    /// How many tokens stand before those that are held.
    first: usize,
    packed: Vec<Packed>,
}

impl<'a> Model for Tokens<'a> {
    ghost use Rattle.std.specs.Prelude.{List, ◌++◌, ◌≤◌, length, map, replicate};
    ghost use Rattle.std.specs.List.{All};
    ghost use Rattle.fmp_lex.specs.Packing.{IsPacked, absent, whole_in};
    ghost use Rattle.fmp_lex.specs.declared.token.Token.{Token as OneToken};

    ghost Value = { List OneToken };

    ghost view = { λ t. replicate t.first absent ++ map (whole_in t.text.now) t.packed.items };

    ghost invariant = { λ t. (length t.text.now ≤ 1048576)
        × (t.first ≤ 1048576)
        × (length t.packed.items ≤ length t.text.now)
        × All (IsPacked t.text.now) t.packed.items };
}

impl<'a> Tokens<'a> {
    /// The tokens that are packed so, in this text.
    pub(crate) fn new(text: &'a [u8], packed: Vec<Packed>) -> Tokens<'a>
        requires short { length text.now ≤ 1048576 }
        requires few { length packed.items ≤ length text.now }
        requires packed { All (IsPacked text.now) packed.items }
        ensures { result ≡ map (whole_in text.now) packed.items }
    {
        Tokens::part(text, 0, packed)
    }

    /// The tokens that are packed so, after `first` others of this text, which are absent.
    pub(crate) fn part(text: &'a [u8], first: usize, packed: Vec<Packed>) -> Tokens<'a>
        requires short { length text.now ≤ 1048576 }
        requires first { first ≤ 1048576 }
        requires few { length packed.items ≤ length text.now }
        requires packed { All (IsPacked text.now) packed.items }
        ensures { result ≡ replicate first absent ++ map (whole_in text.now) packed.items }
    {
        Tokens {
            text,
            first,
            packed,
        }
    }

    /// The tokens that are held, in few bytes each.
    pub(crate) fn into_packed(self) -> Vec<Packed>
        ensures { (text : List ℕ) × (first : ℕ)
            × (self.entry ≡ replicate first absent ++ map (whole_in text) result.items) }
    {
        self.packed
    }

    /// Where the token at a place of the list begins in the text; 0 if it is not held.
    pub(crate) fn start(&self, at: usize) -> Option<usize>
        ensures { result ≡ option_map (λ t. t.start) (slice_get self.now at) }
    {
        let place = offset(self.first, at);
        if place >= self.packed.len() {
            return if at < self.first { Some(0) } else { None };
        }
        Some(self.packed[place].start.get() as usize)
    }

    /// How many tokens there are, with those that are not held.
    pub fn len(&self) -> usize
        ensures { result ≡ length self.now }
    {
        self.first + self.packed.len()
    }

    /// What the token at a place of the list is; a fault if it is not held.
    pub fn kind(&self, at: usize) -> Option<TokenKind>
        ensures value { result ≡ slice_get (kinds_of self.now) at }
        ensures within { IfSome result (λ _. at < length self.now) }
        ensures room { IfSome result (λ _. at + 1 < 2 ^ 64) }
        ensures few { IfSome result (λ _. at < 2 ^ 32) }
    {
        let place = offset(self.first, at);
        if place >= self.packed.len() {
            return if at < self.first {
                Some(TokenKind::Bad(LexFault::Syntax))
            } else {
                None
            };
        }
        let packed = &self.packed[place];
        Some(kind_of(self.text, &packed.shape))
    }

    /// Where the token at a place of the list stands in the text; at its start if it is not held. The text is read from
    /// its start.
    pub fn position(&self, at: usize) -> Option<TokenPosition>
        ensures { result ≡ option_map position_of (slice_get self.now at) }
    {
        let place = offset(self.first, at);
        if place >= self.packed.len() {
            return if at < self.first { Some(ABSENT) } else { None };
        }
        let start = self.packed[place].start.get() as usize;
        Some(position_of_piece(self.text, start))
    }
}
