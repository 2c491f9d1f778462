//! The lines of standard input that raise an interrupt.
use crate::pacing::Shared;
use std::io::Read;
use std::sync::Wait;

/// As many bytes of a line as tell which one it is.
const LINE_BYTES: usize = 8;

/// The front of a line.
#[derive(Drop)]
struct Line {
    bytes: [u8; LINE_BYTES],
    /// How many bytes the line has so far.
    length: usize,
}

impl Line {
    /// A line that is empty so far.
    fn new() -> Line {
        Line {
            bytes: [0; LINE_BYTES],
            length: 0,
        }
    }

    /// One more byte.
    fn push(&mut self, byte: u8) {
        if let Some(place) = self.bytes.get_mut(self.length) {
            *place = byte;
        }
        self.length = self.length.saturating_add(1);
    }

    /// Whether it is `int I`, as in a steps text.
    fn raises(&self, interrupt: u8) -> bool {
        let (tens, ones) = (b'0' + interrupt % 100 / 10, b'0' + interrupt % 10);
        match self.bytes.get(..self.length) {
            Some([b'i', b'n', b't', b' ', one]) => interrupt < 10 && *one == ones,
            Some([b'i', b'n', b't', b' ', ten, one]) => {
                interrupt >= 10 && *ten == tens && *one == ones
            }
            _ => false,
        }
    }
}

/// A line has come.
fn take_line<R: Wait>(rt: &R, shared: &Shared, line: &Line, interrupt: u8) {
    shared.progress.lock(rt).take_line(line.raises(interrupt));
    shared.changed.notify_all();
}

/// Bytes of standard input have come.
fn take_bytes<R: Wait>(rt: &R, shared: &Shared, line: &mut Line, bytes: &[u8], interrupt: u8) {
    for byte in bytes {
        if *byte == b'\n' {
            take_line(rt, shared, line, interrupt);
            *line = Line::new();
        } else {
            line.push(*byte);
        }
    }
}

/// Reads an input to its end, or until a read fails: each line `int I` raises the interrupt I.
pub fn read_lines<I: Read + Drop, R: Wait>(rt: &R, input: I, shared: &Shared, interrupt: u8) {
    let mut input = input;
    let mut line = Line::new();
    let mut bytes = [0; 64];
    for _ in 0..u64::MAX {
        match input.read(&mut bytes) {
            Ok(0) | Err(_) => break,
            Ok(count) => {
                let some = bytes.get(..count).unwrap_or(&[]);
                take_bytes(rt, shared, &mut line, some, interrupt);
            }
        }
    }
    if line.length > 0 {
        take_line(rt, shared, &line, interrupt);
    }
    shared.progress.lock(rt).end_input();
    shared.changed.notify_all();
    drop(input);
}
