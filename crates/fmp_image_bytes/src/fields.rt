//! Fields, one by one: read from the front of bytes, and put after bytes.

ghost use Rattle.std.specs.Prelude.{◌≡◌, ◌++◌, ◌<◌, length, OnOk};
ghost use Rattle.fmp_image_bytes.specs.Fields.{Gives, byte, short, long, word, text, bytes_at, in_range};

use crate::fault::{ImageFault, LoadFault};
use byteorder::{ByteOrder, LittleEndian};
use std::alloc::AllocError;

const SHORT: LoadFault = LoadFault::Image(ImageFault::Short);

/// Whether a number is at least one number and at most another.
pub fn in_range(least: u32, most: u32, number: u32) -> bool
    ensures { result ≡ in_range least most number }
{
    least <= number && number <= most
}

/// The first byte, and the bytes after it. `LoadFault::Image` if there is none.
pub fn byte_at(bytes: &[u8]) -> Result<(u8, &[u8]), LoadFault>
    ensures { Gives (λ x. (x.0, x.1.now)) result (byte.read bytes.now) }
{
    match bytes {
        [] => Err(SHORT),
        [byte, rest @ ..] => Ok((*byte, rest)),
    }
}

/// The number of 16 bits that the first two bytes are, and the bytes after them. `LoadFault::Image` if they are fewer.
pub fn short_at(bytes: &[u8]) -> Result<(u16, &[u8]), LoadFault>
    ensures { Gives (λ x. (x.0, x.1.now)) result (short.read bytes.now) }
{
    if bytes.len() < 2 {
        return Err(SHORT);
    }
    Ok((LittleEndian::read_u16(bytes), &bytes[2..]))
}

/// The number of 32 bits that the first four bytes are, and the bytes after them. `LoadFault::Image` if they are
/// fewer.
pub fn long_at(bytes: &[u8]) -> Result<(u32, &[u8]), LoadFault>
    ensures { Gives (λ x. (x.0, x.1.now)) result (long.read bytes.now) }
{
    if bytes.len() < 4 {
        return Err(SHORT);
    }
    Ok((LittleEndian::read_u32(bytes), &bytes[4..]))
}

/// The signed number of 32 bits that the first four bytes are, and the bytes after them. `LoadFault::Image` if they
/// are fewer.
pub fn word_at(bytes: &[u8]) -> Result<(i32, &[u8]), LoadFault>
    ensures { Gives (λ x. (x.0, x.1.now)) result (word.read bytes.now) }
{
    if bytes.len() < 4 {
        return Err(SHORT);
    }
    Ok((LittleEndian::read_i32(bytes), &bytes[4..]))
}

/// This many bytes, and those after them. `LoadFault::Image` if there are fewer.
pub fn bytes_at(bytes: &[u8], size: usize) -> Result<(&[u8], &[u8]), LoadFault>
    ensures { Gives (λ x. (x.0.now, x.1.now)) result (bytes_at size bytes.now) }
{
    if bytes.len() < size {
        return Err(SHORT);
    }
    Ok(bytes.split_at(size))
}

/// The bytes whose number the first byte tells, and those after them. `LoadFault::Image` if they are fewer.
pub fn text_at(bytes: &[u8]) -> Result<(&[u8], &[u8]), LoadFault>
    ensures { Gives (λ x. (x.0.now, x.1.now)) result (text.read bytes.now) }
{
    let (length, rest) = byte_at(bytes)?;
    bytes_at(rest, length as usize)
}

/// Appends a byte. `AllocError` if memory runs out.
pub fn put_byte(out: &mut Vec<u8>, number: u8) -> Result<(), AllocError>
    ensures { OnOk result (out.new.items ≡ out.old.items ++ byte.spell number) }
{
    out.push(number)?;
    Ok(())
}

/// Appends a number of 16 bits in two bytes. `AllocError` if memory runs out.
pub fn put_short(out: &mut Vec<u8>, number: u16) -> Result<(), AllocError>
    ensures { OnOk result (out.new.items ≡ out.old.items ++ short.spell number) }
{
    let mut field = [0; 2];
    LittleEndian::write_u16(&mut field, number);
    out.extend_from_slice(&field)
}

/// Appends a number of 32 bits in four bytes. `AllocError` if memory runs out.
pub fn put_long(out: &mut Vec<u8>, number: u32) -> Result<(), AllocError>
    ensures { OnOk result (out.new.items ≡ out.old.items ++ long.spell number) }
{
    let mut field = [0; 4];
    LittleEndian::write_u32(&mut field, number);
    out.extend_from_slice(&field)
}

/// Appends a signed number of 32 bits in four bytes. `AllocError` if memory runs out.
pub fn put_word(out: &mut Vec<u8>, number: i32) -> Result<(), AllocError>
    ensures { OnOk result (out.new.items ≡ out.old.items ++ word.spell number) }
{
    let mut field = [0; 4];
    LittleEndian::write_i32(&mut field, number);
    out.extend_from_slice(&field)
}

/// Appends a text of at most 255 bytes after its length. `AllocError` if memory runs out.
pub fn put_text(out: &mut Vec<u8>, bytes: &[u8]) -> Result<(), AllocError>
    requires { length bytes.now < 256 }
    ensures { OnOk result (out.new.items ≡ out.old.items ++ text.spell bytes.now) }
{
    out.push(bytes.len() as u8)?;
    out.extend_from_slice(bytes)
}
