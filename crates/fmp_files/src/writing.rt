//! Writing whole files.
ghost use Rattle.std.specs.Prelude.{◌≡◌, ◌||◌, OnErr, OnOk, is_err};
ghost use Rattle.std.specs.Io.KnownBytes.{Appends};
ghost use Rattle.fmp_files.specs.Files.{GainsBeginning};

use crate::device::Sink;
use thiserror::Error;

/// Why bytes were not all written.
#[derive(Clone, Copy, Debug, PartialEq, Eq, Error)]
pub enum WriteFault {
    /// A write failed or took no byte.
    #[error("a write failed")]
    Device,
}

/// Writes all the bytes, in order. `Device` comes exactly if a write failed or took no byte, and then what was written
/// is a beginning of the bytes.
pub fn write_out<W: Sink>(sink: &mut W, bytes: &[u8]) -> Result<(), WriteFault>
    ensures ok { OnOk result (Appends (W.written sink.old) (W.written sink.new) bytes.now) }
    ensures err { OnErr result (GainsBeginning (W.written sink.old) (W.written sink.new) bytes.now) }
    ensures device { W.failed sink.new ≡ (W.failed sink.old || is_err result) }
{
    let mut done = 0;
    while done < bytes.len() {
        match sink.write(&bytes[done..]) {
            Ok(count) if count > 0 => done += count,
            _ => return Err(WriteFault::Device),
        }
    }
    Ok(())
}
