//! Columns of a text.
ghost use Rattle.std.specs.Prelude.{◌≡◌, ◌≤◌, ◌^◌, IfOk, length};
ghost use Rattle.fmp_frames.specs.CallPositions as spec;

use std::alloc::{AllocError, Global};

/// The positions, from 0, where the lines of a text begin, in order.
pub fn line_begins(alloc: Global, text: &[u8]) -> Result<Vec<u32>, AllocError>
    requires { length text.now ≤ 2 ^ 20 }
    ensures { IfOk result (λ begins. begins.items ≡ spec.line_begins text.now) }
{
    let mut begins = Vec::new(alloc);
    begins.push(0)?;
    for at in 0..text.len() {
        if text[at] == b'\n' {
            begins.push(at as u32 + 1)?;
        }
    }
    Ok(begins)
}

/// The column, from 1 and counted in bytes, of the byte at a position in the line of this number, from 1. Lines begin
/// at these positions.
pub fn column_of(begins: &[u32], line: u32, start: u32) -> usize
    ensures { result ≡ spec.column_of begins.now line start }
{
    let begin = match begins.get((line as usize).saturating_sub(1)) {
        Some(begin) => *begin,
        None => 0,
    };
    start.saturating_sub(begin) as usize + 1
}
