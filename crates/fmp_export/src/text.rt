//! Pieces of a text. If memory runs out, the text has an unfinished end.
ghost use Rattle.std.specs.Prelude.{◌≡◌, ◌++◌, ◌∷◌, [], decimal, IfOk, OnOk};
ghost use Rattle.std.specs.Fmt.{signed_decimal};
ghost use Rattle.fmp_export.specs.Words.{tab};

use itoa::Buffer;
use std::alloc::{AllocError, Global};

/// Appends bytes.
pub fn append(text: &[u8], out: &mut Vec<u8>) -> Result<(), AllocError>
    ensures { OnOk result (out.new.items ≡ out.old.items ++ text.now) }
{
    out.extend_from_slice(text)
}

/// Appends a number in decimal digits, with its sign if it is negative.
pub fn append_signed(number: i32, out: &mut Vec<u8>) -> Result<(), AllocError>
    ensures { OnOk result (out.new.items ≡ out.old.items ++ signed_decimal number) }
{
    append(Buffer::new().format(number).as_bytes(), out)
}

/// Appends a count in decimal digits.
pub fn append_count(count: usize, out: &mut Vec<u8>) -> Result<(), AllocError>
    ensures { OnOk result (out.new.items ≡ out.old.items ++ decimal count) }
{
    append(Buffer::new().format(count).as_bytes(), out)
}

/// The margin of what stands in a block of a statement with this margin.
pub fn inner_margin(alloc: Global, margin: &[u8]) -> Result<Vec<u8>, AllocError>
    ensures { IfOk result (λ inner. inner.items ≡ margin.now ++ tab) }
{
    let mut inner = Vec::new(alloc);
    append(margin, &mut inner)?;
    append(b"    ", &mut inner)?;
    Ok(inner)
}
