//! Messages within a stream of bytes: each stands after a header that tells how many bytes it has.
ghost use Rattle.std.specs.Prelude.{◌≡◌, ◌<◌, ◌≤◌, ◌++◌, IfOk, IsTrue, OnOk, length, map, option_map};
ghost use Rattle.std.specs.Option.{option_to_list};
ghost use Rattle.fmp_server.specs.Framing as spec;
ghost use Rattle.fmp_server.specs.Framing.{fed, framed, fresh, part_of};

use fmp_json::{append, append_number};
use std::alloc::{AllocError, Global};
use std::mem;

/// The greatest number of bytes of a message.
pub const MESSAGE_MAX: usize = 67_108_864;

/// How many bytes of a line of a header are kept.
const LINE_MAX: usize = 256;

/// The field of a header that tells the length.
const LENGTH_FIELD: &[u8] = b"content-length:";

/// How many bytes its name and the colon have.
const FIELD_LENGTH: usize = 15;

/// How far a stream of messages was read.
#[derive(Drop)]
pub struct Framing {
    /// What is kept of the line of the header so far: small letters, and no blanks.
    pub(crate) line: Vec<u8>,
    /// The length that the header has told; 0 if it has told none that a message may have.
    pub(crate) length: usize,
    /// How many bytes of the message are still to come; 0 within a header.
    pub(crate) left: usize,
    /// The bytes of the message so far.
    pub(crate) message: Vec<u8>,
}

/// Whether a byte is left out of a header's line.
fn is_blank(byte: u8) -> bool
    ensures { result ≡ spec.is_blank byte }
{
    byte == b' ' || byte == b'\t' || byte == b'\r'
}

/// The number that digits spell, or the one after the greatest length where it is greater; none if a byte is no digit.
fn digits_in(text: &[u8]) -> Option<usize>
    ensures { result ≡ spec.capped text.now }
{
    let mut value = 0;
    for byte in text {
        if !byte.is_ascii_digit() {
            return None;
        }
        value = (value * 10 + usize::from(*byte - b'0')).min(MESSAGE_MAX + 1);
    }
    Some(value)
}

/// The length that these digits tell; 0 if they tell none that a message may have.
fn length_in(digits: &[u8]) -> usize
    ensures { result ≡ spec.length_in digits.now }
{
    match digits_in(digits) {
        Some(length) if length <= MESSAGE_MAX => length,
        _ => 0,
    }
}

/// Whether a line is that of the length.
#[tactic(auto, unfolding(crate::specs::Framing::tells_length))]
fn tells_length(line: &[u8]) -> bool
    ensures value { result ≡ spec.tells_length line.now }
    ensures bound { IsTrue result → 15 ≤ length line.now }
{
    line.starts_with(LENGTH_FIELD)
}

/// The length that a header has told after this line.
fn told(line: &[u8], length: usize) -> usize
    ensures { result ≡ spec.told line.now length }
{
    if tells_length(line) {
        length_in(&line[FIELD_LENGTH..])
    } else {
        length
    }
}

impl Framing {
    /// The beginning of a stream.
    pub fn new(alloc: Global) -> Framing
        ensures { part_of result ≡ fresh }
    {
        Framing {
            line: Vec::new(alloc),
            length: 0,
            left: 0,
            message: Vec::new(alloc),
        }
    }

    /// Takes the end of a line of a header. After an empty line the message begins.
    fn end_line(&mut self)
        ensures { part_of self.new ≡ spec.after_line (part_of self.old) }
    {
        if self.line.is_empty() {
            self.left = self.length;
            self.length = 0;
        } else {
            self.length = told(&self.line, self.length);
            self.line.clear();
        }
    }

    /// Takes a byte of a header.
    fn take_of_header(&mut self, byte: u8) -> Result<(), AllocError>
        ensures { OnOk result (part_of self.new ≡ spec.in_header (part_of self.old) byte) }
    {
        if byte == b'\n' {
            self.end_line();
            return Ok(());
        }
        if is_blank(byte) || self.line.len() >= LINE_MAX {
            return Ok(());
        }
        self.line.push(byte.to_ascii_lowercase())?;
        Ok(())
    }

    /// Takes bytes of a message, at most those that are still to come, and gives the message if they are its last ones.
    fn take_of_message(
        &mut self,
        alloc: Global,
        bytes: &[u8],
    ) -> Result<Option<Vec<u8>>, AllocError>
        requires some { 0 < length bytes.now }
        requires within { length bytes.now ≤ self.old.left }
        ensures { IfOk result (λ message. (part_of self.new, option_to_list (option_map (λ m. m.items) message))
            ≡ fed (part_of self.old) bytes.now) }
    {
        self.message.extend_from_slice(bytes)?;
        self.left -= bytes.len();
        if self.left > 0 {
            return Ok(None);
        }
        Ok(Some(mem::replace(&mut self.message, Vec::new(alloc))))
    }

    /// How many of these bytes are taken at once: those of the message, or one of a header.
    fn stretch_of(&self, bytes: &[u8]) -> usize
        requires { 0 < length bytes.now }
        ensures some { 0 < result }
        ensures within { result ≤ length bytes.now }
        ensures message { 0 < self.now.left → result ≤ self.now.left }
        ensures header { self.now.left ≡ 0 → result ≡ 1 }
    {
        if self.left > 0 {
            self.left.min(bytes.len())
        } else {
            1
        }
    }

    /// Takes a stretch of bytes, and gives the message that ends with it, if one does. `AllocError` if memory runs out.
    fn take_stretch(&mut self, alloc: Global, bytes: &[u8]) -> Result<Option<Vec<u8>>, AllocError>
        requires some { 0 < length bytes.now }
        requires message { 0 < self.old.left → length bytes.now ≤ self.old.left }
        requires header { self.old.left ≡ 0 → length bytes.now ≡ 1 }
        ensures { IfOk result (λ message. (part_of self.new, option_to_list (option_map (λ m. m.items) message))
            ≡ fed (part_of self.old) bytes.now) }
    {
        if self.left > 0 {
            return self.take_of_message(alloc, bytes);
        }
        self.take_of_header(bytes[0])?;
        Ok(None)
    }

    /// Takes bytes, and gives the messages that end among them, in order. `AllocError` if memory runs out.
    pub fn take(&mut self, alloc: Global, bytes: &[u8]) -> Result<Vec<Vec<u8>>, AllocError>
        ensures { IfOk result (λ messages.
            (part_of self.new, map (λ m. m.items) messages.items) ≡ fed (part_of self.old) bytes.now) }
    {
        let mut messages = Vec::new(alloc);
        let mut at = 0;
        'stretches: while at < bytes.len() {
            let end = at + self.stretch_of(&bytes[at..]);
            match self.take_stretch(alloc, &bytes[at..end])? {
                Some(message) => {
                    messages.push(message)?;
                }
                None => {}
            }
            at = end;
        }
        Ok(messages)
    }
}

/// Appends a message after a header that tells its length. `AllocError` if memory runs out.
pub fn append_framed(message: &[u8], out: &mut Vec<u8>) -> Result<(), AllocError>
    ensures { OnOk result (out.new.items ≡ out.old.items ++ framed message.now) }
{
    append(b"Content-Length: ", out)?;
    append_number(message.len() as u64, out)?;
    append(b"\r\n\r\n", out)?;
    append(message, out)
}
