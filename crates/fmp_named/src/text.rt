//! Pieces of a text. If memory runs out, the text has an unfinished end.
ghost use Rattle.std.specs.Prelude.{◌≡◌, ◌++◌, ◌∷◌, [], decimal, OnOk};
ghost use Rattle.fmp_base.specs.Texts.{processor_text};

use fmp_json::{append, append_number};
use std::alloc::AllocError;

/// Appends a number after words.
pub fn append_numbered(words: &[u8], number: u32, out: &mut Vec<u8>) -> Result<(), AllocError>
    ensures { OnOk result (out.new.items ≡ out.old.items ++ (words.now ++ decimal number)) }
{
    append(words, out)?;
    append_number(u64::from(number), out)
}

/// Appends the number of the processor at a place, with the blanks around it.
pub fn append_processor(place: u8, out: &mut Vec<u8>) -> Result<(), AllocError>
    ensures { OnOk result (out.new.items ≡ out.old.items ++ processor_text place) }
{
    append(b" p", out)?;
    append_number(u64::from(place) + 1, out)?;
    append(b" ", out)
}
