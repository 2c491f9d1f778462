//! JSON that can stand in a script of HTML: it has no `<`, so no name can end the script.
ghost use Rattle.std.specs.Prelude.{◌≡◌, ◌≢◌, ◌++◌, All, IfOk, OnOk};
ghost use Rattle.fmp_slices.specs.Escaped as spec;

use std::alloc::{AllocError, Global};

/// Appends a byte, or the escape of JSON for `<`.
fn append_escaped(byte: u8, out: &mut Vec<u8>) -> Result<(), AllocError>
    ensures { OnOk result (out.new.items ≡ out.old.items ++ spec.escaped_byte byte) }
{
    if byte == b'<' {
        out.extend_from_slice(b"\\u003c")
    } else {
        out.push(byte)?;
        Ok(())
    }
}

/// A text of JSON with each `<`, which only strings have, as an escape. `AllocError` if memory runs out.
#[tactic(auto, using(crate::proofs::Escapes::escaped_safe))]
pub fn escaped(alloc: Global, json: &[u8]) -> Result<Vec<u8>, AllocError>
    ensures text { IfOk result (λ text. text.items ≡ spec.escaped json.now) }
    ensures safe { IfOk result (λ text. All (λ byte. byte ≢ 60) text.items) }
{
    let mut text = Vec::new(alloc);
    for byte in json {
        append_escaped(*byte, &mut text)?;
    }
    Ok(text)
}
