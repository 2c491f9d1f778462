//! Pieces of a text. If memory runs out, the text has an unfinished end.
ghost use Rattle.std.specs.Prelude.{◌≡◌, ◌++◌, decimal, map, OnOk};
ghost use Rattle.std.specs.Fmt.{signed_decimal};
ghost use Rattle.fmp_import.specs.Words.{span_text};
ghost use Rattle.fmp_import.specs.Written.{shown_byte};

use crate::plan::TextSpan;
use itoa::Buffer;
use std::alloc::AllocError;

/// Appends bytes.
pub fn append(text: &[u8], out: &mut Vec<u8>) -> Result<(), AllocError>
    ensures { OnOk result (out.new.items ≡ out.old.items ++ text.now) }
{
    out.extend_from_slice(text)
}

/// Appends a number in decimal digits, with its sign if it is negative.
pub fn append_signed(number: i32, out: &mut Vec<u8>) -> Result<(), AllocError>
    ensures { OnOk result (out.new.items ≡ out.old.items ++ signed_decimal number) }
{
    append(Buffer::new().format(number).as_bytes(), out)
}

/// Appends a count in decimal digits.
pub fn append_count(count: usize, out: &mut Vec<u8>) -> Result<(), AllocError>
    ensures { OnOk result (out.new.items ≡ out.old.items ++ decimal count) }
{
    append(Buffer::new().format(count).as_bytes(), out)
}

/// The bytes of a part of a text.
pub fn bytes_of(text: &[u8], span: TextSpan) -> &[u8]
    ensures { result.now ≡ span_text text.now span }
{
    let end = span.end.min(text.len());
    let start = span.start.min(end);
    &text[start..end]
}

/// Appends bytes with a `?` in the place of each control byte.
pub fn append_shown(bytes: &[u8], out: &mut Vec<u8>) -> Result<(), AllocError>
    ensures { OnOk result (out.new.items ≡ out.old.items ++ map shown_byte bytes.now) }
{
    for byte in bytes {
        out.push(shown(*byte))?;
    }
    Ok(())
}

/// A byte as it is shown.
fn shown(byte: u8) -> u8
    ensures { result ≡ shown_byte byte }
{
    if byte < 32 || byte == 127 { b'?' } else { byte }
}
