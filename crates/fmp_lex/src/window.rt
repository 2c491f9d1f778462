//! A window on the tokens of a text: the tokens of a part of it, which moves on while a reader goes through the text.
ghost use Rattle.std.specs.Prelude.{◌≡◌, ◌<◌, ◌≤◌, ◌↔◌, ◌⊎◌, List, [], IsFalse, IsTrue, length, IfOk, OnOk};
ghost use Rattle.fmp_lex.specs.Windows.{CutsUpTo, IsFaultAt, IsWindow, Passed};
ghost use Rattle.fmp_lex.specs.declared.token.Token.{Token};

use crate::cutting::{TEXT_MAX, cut_part};
use crate::packed::Tokens;
use crate::stops::{CutPoint, stop_behind};
use std::alloc::{AllocError, Global};
use std::mem;

/// How many bytes of the text a window goes on by, or more. A part ends between two statements: if it ended at any
/// byte, a statement that is cut would be read twice, which costs much where loops are long.
const STRIDE: usize = 32768;

/// The tokens of a part of a text, in the places that they have in the list of all of its tokens.
#[derive(Drop)]
pub struct Window<'a> {
    pub tokens: Tokens<'a>,
    pub text: &'a [u8],
    /// Where the text goes on after the part.
    pub next: usize,
    /// How many braces are open there, if none stand in comments.
    open: usize,
}

impl<'a> Window<'a> {
    /// A window at the start of a text, which holds no token yet.
    pub fn new(alloc: Global, text: &'a [u8]) -> Window<'a>
        requires { length text.now ≤ TEXT_MAX }
        ensures text { result.text.now ≡ text.now }
        ensures window { IsWindow result }
        ensures passed { Passed result [] 0 }
    {
        Window {
            tokens: Tokens::part(text, 0, Vec::new(alloc)),
            text,
            next: 0,
            open: 0,
        }
    }

    /// Whether the window reaches to the end of the text.
    pub fn is_last(&self) -> bool
        ensures { IsTrue result ↔ length self.now.text.now ≤ self.now.next }
    {
        self.next >= self.text.len()
    }

    /// Where the token at a place of the list begins, or where the text goes on if the window does not reach so far.
    fn start(&self, at: usize) -> usize
        requires { IsWindow self.now }
        ensures within { result ≤ length self.now.text.now }
        ensures passed { (before : List Token) → Passed self.now before at →
            CutsUpTo self.now.text.now result 0 before }
    {
        match self.tokens.start(at) {
            Some(start) => start.min(self.text.len()),
            None => self.next,
        }
    }

    /// Moves the window to the token at a place of the list: it holds the tokens from that one on, and goes on by at
    /// least as many bytes as it held of them. Tells whether it reaches farther than before; if not, the text ends or
    /// a fault stands there. At a place above `TEXT_MAX`, where no text has a token, the window stays as it is. The
    /// error is out of memory.
    #[inline(never)]
    pub fn hold(&mut self, alloc: Global, at: usize) -> Result<bool, AllocError>
        requires { IsWindow self.now }
        ensures text { OnOk result (self.new.text.now ≡ self.old.text.now) }
        ensures window { OnOk result (IsWindow self.new) }
        ensures passed { OnOk result ((before : List Token) → Passed self.old before at → Passed self.new before at) }
        ensures within { IfOk result (λ more. IsTrue more → at ≤ length self.new.tokens) }
        ensures stuck { IfOk result (λ more. IsFalse more → at ≤ TEXT_MAX →
            (length self.new.text.now ≤ self.new.next) ⊎ IsFaultAt self.new.text.now self.new.next) }
        ensures farther { IfOk result (λ more. IsTrue more ↔ self.old.next < self.new.next) }
    {
        // A text has no more tokens than bytes.
        if at > TEXT_MAX {
            return Ok(false);
        }
        let start = self.start(at);
        let stride = self.next.saturating_sub(start).max(STRIDE);
        let from = CutPoint {
            at: self.next,
            open: self.open,
        };
        let stop = stop_behind(self.text, from, stride);
        let nothing = Tokens::part(self.text, 0, Vec::new(alloc));
        let room = mem::replace(&mut self.tokens, nothing).into_packed();
        let part = cut_part(self.text, start, stop.at, room)?;
        let farther = part.next > self.next;
        self.tokens = Tokens::part(self.text, at, part.packed);
        self.next = part.next;
        self.open = stop.open;
        Ok(farther)
    }
}
