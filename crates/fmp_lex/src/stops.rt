//! Where a part of a task text ends. It should end after a statement of a body, so that no statement is read twice.
//! Braces in comments are counted with the others: a part may then end elsewhere, and what is read is the same.
ghost use Rattle.std.specs.Prelude.{◌+◌, ◌≤◌, length, min};

use crate::scanning::{ByteClass, count_of, run_end};

/// A place in a text, and how many braces are open there.
#[derive(Clone, Copy)]
pub struct CutPoint {
    pub at: usize,
    /// The braces that are open at this place.
    pub open: usize,
}

/// How many braces are open after some bytes, if `open` are before them.
fn open_behind(bytes: &[u8], open: usize) -> usize
    requires { length bytes.now ≤ 1048576 }
{
    let opened = count_of(bytes, b'{') as usize;
    let closed = count_of(bytes, b'}') as usize;
    open.saturating_add(opened).saturating_sub(closed)
}

/// The first place at or after `from` at which at most one brace is open, or the end of the text.
fn closed_from(text: &[u8], from: CutPoint) -> CutPoint
    requires { from.at ≤ length text.now }
    ensures from { from.at ≤ result.at }
    ensures within { result.at ≤ length text.now }
{
    let mut at = from.at;
    let mut open = from.open;
    'bytes: while at < text.len() && open > 1 {
        match text[at] {
            b'{' => open = open.saturating_add(1),
            b'}' => open -= 1,
            _ => (),
        }
        at += 1;
    }
    CutPoint { at, open }
}

/// The place after `else` if that is the next word, or this one.
fn behind_else(text: &[u8], at: usize) -> usize
    requires { at ≤ length text.now }
    ensures from { at ≤ result }
    ensures within { result ≤ length text.now }
{
    let word = run_end(text, ByteClass::Space, at);
    match &text[word..] {
        [b'e', b'l', b's', b'e', ..] => word + 4,
        _ => at,
    }
}

/// Where a part ends that goes on from `from` by at least `stride` bytes.
pub(crate) fn stop_behind(text: &[u8], from: CutPoint, stride: usize) -> CutPoint
    requires short { length text.now ≤ 1048576 }
    requires from { from.at ≤ length text.now }
    requires stride { stride ≤ 1048576 }
    ensures far { min (from.at + stride) (length text.now) ≤ result.at }
    ensures within { result.at ≤ length text.now }
{
    let least = text.len().min(from.at + stride);
    let open = open_behind(&text[from.at..least], from.open);
    let stop = closed_from(text, CutPoint { at: least, open });
    CutPoint {
        at: behind_else(text, stop.at),
        open: stop.open,
    }
}
