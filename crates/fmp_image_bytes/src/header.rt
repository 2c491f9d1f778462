//! The header of an image, and its end.
ghost use Rattle.std.specs.Prelude.{◌≡◌, ◌++◌, ◌==◌, length, OnOk};
ghost use Rattle.fmp_image_bytes.specs.Header.{magic, is_magic, header};
ghost use Rattle.fmp_image_bytes.specs.Fields.{Gives};
ghost use Rattle.fmp_image_bytes.specs.Versions as versions;

use crate::fault::{ImageFault, LoadFault, TABLE};
use crate::fields::{byte_at, bytes_at, in_range, put_byte, put_short, short_at};
use crate::versions::is_version;
use std::alloc::AllocError;

fn is_magic(bytes: &[u8]) -> bool
    ensures { result ≡ is_magic bytes.now }
{
    bytes == b"FMPI".as_slice()
}

/// Reads the header, and gives the version and the number of processors. The fault is `Magic`, `Version`, or `Table`
/// for a number of processors other than 1 to 8, the first of them that stands there.
pub fn read_header(bytes: &[u8]) -> Result<((u16, u8), &[u8]), LoadFault>
    ensures { Gives (λ x. ((magic, (x.0.0, x.0.1)), x.1.now)) result (header.read bytes.now) }
{
    let (magic, rest) = bytes_at(bytes, 4)?;
    if !is_magic(magic) {
        return Err(LoadFault::Image(ImageFault::Magic));
    }
    let (version, rest) = short_at(rest)?;
    if !is_version(version) {
        return Err(LoadFault::Image(ImageFault::Version));
    }
    let (processors, rest) = byte_at(rest)?;
    if !in_range(1, 8, processors as u32) {
        return Err(TABLE);
    }
    Ok(((version, processors), rest))
}

/// How many activations of a task a system of a version queues, and how many wakeups: 255 from version 3 on, and 1
/// before.
pub fn queue_limit_of(version: u16) -> u8
    ensures { result ≡ versions.queue_limit_of version }
{
    if version >= 3 { 255 } else { 1 }
}

/// Appends the header of an image of a version for this many processors.
pub fn put_header(out: &mut Vec<u8>, version: u16, processors: u8) -> Result<(), AllocError>
    ensures { OnOk result (out.new.items ≡ out.old.items ++ header.spell (magic, (version, processors))) }
{
    out.extend_from_slice(b"FMPI")?;
    put_short(out, version)?;
    put_byte(out, processors)?;
    Ok(())
}

/// Whether an image ends here: no bytes stand after its last table.
pub fn is_end(rest: &[u8]) -> bool
    ensures { result ≡ (length rest.now == 0) }
{
    rest.is_empty()
}
