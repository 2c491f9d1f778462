//! Reading whole files.
ghost use Rattle.std.specs.Prelude.{◌≡◌, ◌+◌, ◌<◌, ◌≤◌, ◌||◌, IfOk, IfSome, OnErr, length};
ghost use Rattle.fmp_files.specs.Files.{IsPast, IsWithin, LosesAtMost, LosesWithin, ReadsMore, front, is_device};

use crate::device::Source;
use std::alloc::Global;
use thiserror::Error;

/// Why a file was not read.
#[derive(Clone, Copy, Debug, PartialEq, Eq, Error)]
pub enum ReadFault {
    /// A read failed.
    #[error("a read failed")]
    Device,
    /// Memory ran out.
    #[error("memory")]
    Memory,
}

/// How many bytes to ask for at once.
const CHUNK: usize = 65_536;

/// How many bytes to ask for next, after this many: none if these go past the limit.
fn room_after(limit: Option<usize>, count: usize) -> usize
    requires { IsWithin limit count }
    ensures most { result ≤ CHUNK }
    ensures within { IsWithin limit (count + result) }
    ensures past { result ≡ 0 → IsPast limit count }
{
    match limit {
        None => CHUNK,
        Some(limit) if limit < count => 0,
        Some(limit) => (limit - count).min(CHUNK - 1) + 1,
    }
}

/// Appends what one read gives of the next bytes, by way of a buffer, and says how many these are: 0 at the end.
fn read_more<S: Source>(
    source: &mut S,
    buffer: &mut [u8],
    bytes: &mut Vec<u8>,
) -> Result<usize, ReadFault>
    requires { 0 < length buffer.old }
    ensures ok { IfOk result (ReadsMore (length buffer.old)
        (S.left source.old) (S.left source.new) bytes.old.items bytes.new.items) }
    ensures err { OnErr result (LosesAtMost (length buffer.old) (S.left source.old) (S.left source.new)) }
    ensures device { S.failed source.new ≡ (S.failed source.old || is_device result) }
{
    let count = match source.read(buffer) {
        Ok(count) => count,
        Err(_) => return Err(ReadFault::Device),
    };
    match bytes.extend_from_slice(&buffer[..count]) {
        Ok(()) => Ok(count),
        Err(_) => Err(ReadFault::Memory),
    }
}

/// All the bytes that a source gives. With a limit it stops one byte past it, which is enough to refuse what is longer.
/// `Device` comes exactly if a read failed.
pub fn read_in<S: Source>(
    alloc: Global,
    source: &mut S,
    limit: Option<usize>,
) -> Result<Vec<u8>, ReadFault>
    ensures bytes { IfOk result (λ bytes. IfSome (S.left source.old) (λ all. bytes.items ≡ front limit all)) }
    ensures taken { LosesWithin limit (S.left source.old) (S.left source.new) }
    ensures device { S.failed source.new ≡ (S.failed source.old || is_device result) }
{
    let mut bytes = Vec::new(alloc);
    let mut buffer = [0; CHUNK];
    loop {
        let most = room_after(limit, bytes.len());
        if most == 0 || read_more(source, &mut buffer[..most], &mut bytes)? == 0 {
            return Ok(bytes);
        }
    }
}
