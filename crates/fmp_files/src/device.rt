//! What bytes are read from and written to, a call at a time.
ghost use Rattle.std.specs.Prelude.{◌≡◌, ◌<◌, ◌||◌, ℕ, List, Bool, Option, is_err, length};
ghost use Rattle.std.specs.Io.{ReadsAtMost, WritesAtMost};
ghost use Rattle.std.specs.Io.KnownBytes.{ReadConsumes, WriteAppends};
ghost use Rattle.fmp_files.specs.Devices.{device_of};
ghost use Rattle.fmp_files.specs.Files.{took_none};

use std::io::{Read, Write};

/// A call that failed. An interrupted call is one.
#[derive(Clone, Copy)]
pub struct Failed;

/// What bytes are read from.
pub trait Source {
    // The bytes that reads will give from here on, where they are known.
    ghost left: { Self → Option (List ℕ) };

    // Whether a read has failed.
    ghost failed: { Self → Bool };

    /// Reads some bytes into a buffer, and says how many: 0 only at the end, or where the buffer has no room.
    fn read(&mut self, buffer: &mut [u8]) -> Result<usize, Failed>
        ensures bound { ReadsAtMost result buffer.new }
        ensures bytes { ReadConsumes (left self.old) (left self.new) result buffer.new }
        ensures failed { failed self.new ≡ (failed self.old || is_err result) };
}

/// What bytes are written to.
pub trait Sink {
    // The bytes that were written, where they are known.
    ghost written: { Self → Option (List ℕ) };

    // Whether a write has failed or took no byte.
    ghost failed: { Self → Bool };

    /// Writes some of the bytes, from the first on, and says how many.
    fn write(&mut self, bytes: &[u8]) -> Result<usize, Failed>
        requires { 0 < length bytes.now }
        ensures bound { WritesAtMost result bytes.now }
        ensures bytes { WriteAppends (written self.old) (written self.new) result bytes.now }
        ensures failed { failed self.new ≡ (failed self.old || took_none result) };
}

/// A file or a stream, and whether a call on it has failed.
#[derive(Drop)]
pub struct Device<T> {
    inner: T,
    failed: bool,
}

impl<T> Device<T> {
    /// A file or a stream on which no call has failed.
    pub fn new(inner: T) -> Device<T>
        ensures { result ≡ device_of inner }
    {
        Device {
            inner,
            failed: false,
        }
    }
}

impl<T: Read> Source for Device<T> {
    ghost left = { λ device. T.remaining device.inner };

    ghost failed = { λ device. device.failed };

    fn read(&mut self, buffer: &mut [u8]) -> Result<usize, Failed> {
        match self.inner.read(buffer) {
            Ok(count) => Ok(count),
            Err(_) => {
                self.failed = true;
                Err(Failed)
            }
        }
    }
}

impl<T: Write> Sink for Device<T> {
    ghost written = { λ device. T.contents device.inner };

    ghost failed = { λ device. device.failed };

    fn write(&mut self, bytes: &[u8]) -> Result<usize, Failed> {
        match self.inner.write(bytes) {
            Ok(count) => {
                self.failed |= count == 0;
                Ok(count)
            }
            Err(_) => {
                self.failed = true;
                Err(Failed)
            }
        }
    }
}
