//! The lines of a trace, put together on a page.
ghost use Rattle.std.specs.Prelude.{◌≡◌, ◌<◌, ◌≤◌, ◌+◌, ◌++◌, [], length, vec_capacity, vec_len};
ghost use Rattle.fmp_base.specs.Systems.{tables_of};
ghost use Rattle.fmp_base.specs.Texts.{lines_text};

use crate::lines::put_event;
use crate::numeral::Numeral;
use fmp_base::{Line, System};
use std::marker::Model;

/// A page with this many bytes or more is full.
pub const PIECE: usize = 65_536;

/// Room for a page that is just not full, for the lines of one more event, and for what is copied after their end.
const PAGE_ROOM: usize = 132_096;

/// Lines that are put together and not yet handed on. It is seen as the list of their bytes.
#[derive(Drop)]
pub struct Page {
    bytes: [u8; PAGE_ROOM],
    /// Where the lines end.
    end: usize,
    /// The number of the last event whose lines were printed.
    number: Numeral,
}

impl Model for Page {
    ghost use Rattle.std.specs.Prelude.{ℕ, List, ◌≡◌, ◌≤◌, length, take};

    ghost Value = { List ℕ };

    ghost view = { λ p. take p.end p.bytes };

    ghost invariant = { λ p. (p.end ≤ 132096) × (length p.bytes ≡ 132096) };
}

impl Page {
    /// A page without lines.
    pub fn new() -> Page
        ensures { result ≡ [] }
    {
        Page {
            bytes: [0; PAGE_ROOM],
            end: 0,
            number: Numeral::new(0),
        }
    }

    /// Prints the lines of the event of this number, each ended by a line feed, on a page that is not full.
    #[inline(always)]
    pub fn print(&mut self, sys: &System, number: u32, lines: &[Line])
        requires room { length self.old < PIECE }
        requires few { length lines.now ≤ 519 }
        ensures { self.new ≡ self.old ++ lines_text (tables_of sys.now) number lines.now }
    {
        self.number.set(number);
        self.end = put_event(sys, &mut self.number, lines, &mut self.bytes, self.end);
    }

    /// How many bytes there are.
    #[inline(always)]
    pub fn len(&self) -> usize
        ensures { result ≡ length self.now }
    {
        self.end
    }

    /// The bytes of the lines.
    pub fn bytes(&self) -> &[u8]
        ensures { result.now ≡ self.now }
    {
        &self.bytes[..self.end]
    }

    /// Takes all lines away.
    pub fn clear(&mut self)
        ensures { self.new ≡ [] }
    {
        self.end = 0;
    }

    /// Appends the content of the page to a text that has room for it.
    pub fn finish(&self, out: &mut Vec<u8>)
        requires room { vec_len out.old + length self.now ≤ vec_capacity out.old }
        ensures text { out.new.items ≡ out.old.items ++ self.now }
        ensures capacity { vec_capacity out.old ≤ vec_capacity out.new }
    {
        if out.extend_from_slice(self.bytes()).is_err() {
            unreachable!();
        }
    }
}
