//! The text that a picture is drawn into.
ghost use Rattle.std.specs.Prelude.{◌≡◌, ◌++◌, ◌∷◌, IfOk, OnErr, [], decimal, false, length, take, true};
ghost use Rattle.std.specs.Fmt.{signed_decimal};
ghost use Rattle.fmp_base.specs.Systems.{tables_of};
ghost use Rattle.fmp_base.specs.Texts.{caller_name};
ghost use Rattle.fmp_named.specs.States.{wait_text};
ghost use Rattle.fmp_base.specs.declared.states.Phase.TheVariants as phase;
ghost use Rattle.fmp_timeline.specs.Canvases as spec;

use crate::font::width;
use crate::lengths::Tenths;
use fmp_base::{Caller, Phase, System, TaskBlock, WaitCause};
use fmp_named::{append_caller, append_wait};
use itoa::Buffer;
use std::alloc::{AllocError, Global};
use std::mem::swap;

/// A value in the text of a picture.
#[derive(Clone, Copy)]
pub enum CanvasPiece<'a> {
    /// As it stands.
    Raw(&'a str),
    /// Bytes whose marks of SVG are escaped.
    Text(&'a [u8]),
    /// A text made before, whose marks of SVG are escaped.
    Label(&'a Canvas),
    /// A number in decimal digits.
    Number(u32),
    /// A number in decimal digits between two words.
    Numbered(&'a str, u32, &'a str),
    /// A length in pixels, with a decimal where it is no whole number.
    At(Tenths),
}

/// The digits of hexadecimal numbers.
const DIGITS: &[u8; 16] = b"0123456789ABCDEF";

/// The text of a picture, or of a label in it. What is written while it is raised comes after what is written before
/// it settles, and so stands above that in the picture. Once memory has run out it takes no more, which `finish`
/// reports.
#[derive(Drop)]
pub struct Canvas {
    bytes: Vec<u8>,
    /// The other layer: the upper one, unless the canvas is raised.
    other: Vec<u8>,
    is_cut: bool,
}

impl Canvas {
    /// A text without bytes.
    pub fn new(alloc: Global) -> Canvas
        ensures bytes { result.bytes.items ≡ [] }
        ensures other { result.other.items ≡ [] }
        ensures whole { result.is_cut ≡ false }
    {
        Canvas {
            bytes: Vec::new(alloc),
            other: Vec::new(alloc),
            is_cut: false,
        }
    }

    /// How many bytes there are.
    pub fn len(&self) -> usize
        ensures { result ≡ length self.now.bytes.items }
    {
        self.bytes.len()
    }

    /// The width of the text in this size.
    pub fn width(&self, size: Tenths) -> Tenths {
        width(&self.bytes, size)
    }

    /// Keeps only this many bytes, the first.
    pub fn shorten(&mut self, count: usize)
        ensures bytes { self.new.bytes.items ≡ take count self.old.bytes.items }
        ensures rest { self.new ≡ record self.old { bytes = self.new.bytes } }
    {
        self.bytes.truncate(count);
    }

    /// Bytes as they stand.
    pub fn plain(&mut self, bytes: &[u8])
        ensures { spec.Adds self.old self.new bytes.now }
    {
        self.is_cut = self.is_cut || self.bytes.extend_from_slice(bytes).is_err();
    }

    /// A text as it stands.
    pub fn raw(&mut self, text: &str)
        ensures { spec.Adds self.old self.new text.now }
    {
        self.plain(text.as_bytes());
    }

    /// Another text as it stands.
    pub fn join(&mut self, other: &Canvas)
        ensures text { spec.Adds self.old self.new other.now.bytes.items }
        ensures whole { self.new.is_cut ≡ false → other.now.is_cut ≡ false }
    {
        self.plain(&other.bytes);
        self.is_cut = self.is_cut || other.is_cut;
    }

    fn byte(&mut self, byte: u8)
        ensures { spec.Adds self.old self.new (byte ∷ []) }
    {
        self.is_cut = self.is_cut || self.bytes.push(byte).is_err();
    }

    /// From here on the upper layer is written.
    pub fn raise(&mut self)
        ensures { self.new ≡ record self.old { bytes = self.old.other; other = self.old.bytes } }
    {
        swap(&mut self.bytes, &mut self.other);
    }

    /// From here on the lower layer is written again.
    pub fn lower(&mut self)
        ensures { self.new ≡ record self.old { bytes = self.old.other; other = self.old.bytes } }
    {
        swap(&mut self.bytes, &mut self.other);
    }

    /// Puts the upper layer after the lower one, and begins a new one.
    pub fn settle(&mut self)
        ensures whole { self.new.is_cut ≡ false → self.old.is_cut ≡ false }
        ensures bytes { self.new.is_cut ≡ false → self.new.bytes.items ≡ self.old.bytes.items ++ self.old.other.items }
        ensures other { self.new.other.items ≡ [] }
    {
        self.is_cut = self.is_cut || self.bytes.extend_from_slice(&self.other).is_err();
        self.other.truncate(0);
    }

    /// What a wait is for, and until when, in words.
    pub fn wait(&mut self, sys: &System, cause: WaitCause, deadline: Option<u32>)
        ensures { spec.Adds self.old self.new (wait_text (tables_of sys.now) (phase.Waiting cause) deadline) }
    {
        let block = TaskBlock {
            phase: Phase::Waiting(cause),
            suspended: false,
            priority: 0,
            processor: 0,
            activations: 0,
            next_processor: None,
            wakeups: 0,
            deadline,
        };
        self.is_cut = self.is_cut || append_wait(sys, &block, &mut self.bytes).is_err();
    }

    /// The name of a task or a handler.
    pub fn caller(&mut self, sys: &System, caller: Caller)
        ensures { spec.Adds self.old self.new (caller_name (tables_of sys.now) caller) }
    {
        self.is_cut = self.is_cut || append_caller(sys, caller, &mut self.bytes).is_err();
    }

    /// A number in decimal digits.
    pub fn number(&mut self, number: u32)
        ensures { spec.Adds self.old self.new (decimal number) }
    {
        self.raw(Buffer::new().format(number));
    }

    /// A number in decimal digits between two words.
    pub fn numbered(&mut self, before: &str, number: u32, behind: &str)
        ensures { spec.Adds self.old self.new (before.now ++ (decimal number ++ behind.now)) }
    {
        self.raw(before);
        self.number(number);
        self.raw(behind);
    }

    /// A number in decimal digits, with `-` in front if it is negative.
    pub fn signed(&mut self, number: i32)
        ensures { spec.Adds self.old self.new (signed_decimal number) }
    {
        let sign = if number < 0 { "-" } else { "" };
        self.numbered(sign, number.unsigned_abs(), "");
    }

    /// A number in hexadecimal digits.
    pub fn hexadecimal(&mut self, number: u32) {
        let mut begun = false;
        for place in (0..8u32).rev() {
            let digit = number.checked_shr(place.saturating_mul(4)).unwrap_or(0) % 16;
            begun = begun || digit > 0 || place == 0;
            if begun {
                self.byte(DIGITS.get(digit as usize).copied().unwrap_or(b'0'));
            }
        }
    }

    /// A length in pixels, with one decimal where it is no whole number.
    fn length(&mut self, length: Tenths) {
        let tenths = length.0.unsigned_abs();
        let sign = if length.0 < 0 { "-" } else { "" };
        self.numbered(sign, tenths / 10, "");
        if tenths % 10 != 0 {
            self.numbered(".", tenths % 10, "");
        }
    }

    /// A byte, escaped where it is a mark of SVG.
    fn escaped(&mut self, byte: u8)
        ensures { spec.Adds self.old self.new (spec.escaped_byte byte) }
    {
        match byte {
            b'&' => self.raw("&amp;"),
            b'<' => self.raw("&lt;"),
            b'>' => self.raw("&gt;"),
            b'"' => self.raw("&quot;"),
            _ => self.byte(byte),
        }
    }

    /// A text whose marks of SVG are escaped.
    pub fn text(&mut self, text: &[u8])
        ensures { spec.Adds self.old self.new (spec.escaped text.now) }
    {
        for byte in text {
            self.escaped(*byte);
        }
    }

    fn label(&mut self, label: &Canvas)
        ensures text { spec.Adds self.old self.new (spec.escaped label.now.bytes.items) }
        ensures whole { self.new.is_cut ≡ false → label.now.is_cut ≡ false }
    {
        self.text(&label.bytes);
        self.is_cut = self.is_cut || label.is_cut;
    }

    fn piece(&mut self, piece: &CanvasPiece<'_>) {
        match piece {
            CanvasPiece::Raw(text) => self.raw(text),
            CanvasPiece::Text(text) => self.text(text),
            CanvasPiece::Label(label) => self.label(label),
            CanvasPiece::Number(number) => self.number(*number),
            CanvasPiece::Numbered(before, number, behind) => self.numbered(before, *number, behind),
            CanvasPiece::At(length) => self.length(*length),
        }
    }

    /// A text with these values in place of each `{}`.
    pub fn put(&mut self, form: &str, values: &[CanvasPiece<'_>]) {
        let mut values = values.iter();
        for part in form.split("{}") {
            self.raw(part);
            if let Some(value) = values.next() {
                self.piece(value);
            }
        }
    }

    /// The bytes. `AllocError` if memory ran out.
    pub fn finish(self) -> Result<Vec<u8>, AllocError>
        ensures whole { IfOk result (λ bytes. self.is_cut ≡ false) }
        ensures bytes { IfOk result (λ bytes. bytes.items ≡ self.bytes.items) }
        ensures cut { OnErr result (self.is_cut ≡ true) }
    {
        if self.is_cut {
            return Err(AllocError);
        }
        Ok(self.bytes)
    }
}
