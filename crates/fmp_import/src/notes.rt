//! The list of what was left out or changed.
ghost use Rattle.std.specs.Prelude.{◌≡◌, ◌++◌, OnOk};
ghost use Rattle.fmp_import.specs.Written.{lacking_text, note_end, note_front, note_text};

use crate::objects::Changes;
use crate::text::{append, append_count, append_shown};
use std::alloc::AllocError;

/// Before why something is left out.
pub const LEFT_OUT: &str = " is left out: ";

/// Why something is left out, after the name of a constant that is unknown.
pub const UNKNOWN: &str = "is an unknown constant; `-D` gives it a value";

/// Why something is left out, after a name that has arguments.
pub const HAS_ARGUMENTS: &str = "has arguments, which are not read here";

/// Before what is said of something that is written, or counts.
pub const CHANGED: &str = ": ";

/// Appends the number of a line and a word of it.
#[tactic(auto, unfolding(crate::specs::Written::note_front))]
fn append_front(line: usize, word: &[u8], out: &mut Vec<u8>) -> Result<(), AllocError>
    ensures { OnOk result (out.new.items ≡ out.old.items ++ note_front line word.now) }
{
    append(b"cfg:", out)?;
    append_count(line, out)?;
    append(b": `", out)?;
    append_shown(word, out)
}

/// Appends what is said of a word, after the word.
fn append_end(says: &str, why: &str, out: &mut Vec<u8>) -> Result<(), AllocError>
    ensures { OnOk result (out.new.items ≡ out.old.items ++ note_end says.now why.now) }
{
    append(b"`", out)?;
    append(says.as_bytes(), out)?;
    append(why.as_bytes(), out)?;
    append(b"\n", out)
}

/// Appends that something of a line was left out or changed: a word of the line, what is said of it, and why.
#[tactic(auto, unfolding(crate::specs::Written::note_text))]
pub fn append_note(
    line: usize,
    word: &[u8],
    says: &str,
    why: &str,
    out: &mut Vec<u8>,
) -> Result<(), AllocError>
    ensures { OnOk result (out.new.items ≡ out.old.items ++ note_text line word.now says.now why.now) }
{
    append_front(line, word, out)?;
    append_end(says, why, out)
}

/// Appends that what a line makes is left out for a name in its values: a word of the line, the name, and why.
#[tactic(auto, unfolding(crate::specs::Written::lacking_text))]
pub fn append_lacking(
    line: usize,
    word: &[u8],
    name: &[u8],
    why: &str,
    out: &mut Vec<u8>,
) -> Result<(), AllocError>
    ensures { OnOk result (out.new.items ≡ out.old.items ++ lacking_text line word.now name.now why.now) }
{
    append_front(line, word, out)?;
    append(b"` is left out: `", out)?;
    append_shown(name, out)?;
    append_end(" ", why, out)
}

/// Appends what an object has otherwise than its source.
pub fn append_changes(
    line: usize,
    word: &[u8],
    changes: Changes,
    out: &mut Vec<u8>,
) -> Result<(), AllocError> {
    let sentences = [
        (
            changes.attribute,
            "an attribute without an equal is left out",
        ),
        (
            changes.information,
            "its extended information is no known number of 32 bits, and becomes 0",
        ),
        (
            changes.entry,
            "its entry is a word of this project, and gets `_` at its end",
        ),
        (changes.area, "the memory that it is given is left out"),
        (changes.stack, "its stack size becomes 65536, the greatest"),
        (
            changes.times,
            "its times were microseconds, and are ticks now",
        ),
    ];
    for (is_told, sentence) in &sentences {
        if *is_told {
            append_note(line, word, CHANGED, sentence, out)?;
        }
    }
    Ok(())
}
