//! Reading and writing where the Nth call fails: the answer is a fault exactly if a call failed, and never other bytes.
ghost use Rattle.std.specs.Prelude.{IfOk, ◌≤◌};

use fmp_files::{Device, ReadFault, WriteFault, read_in, write_out};
use std::alloc::Global;
use std::io;
use std::io::{ErrorKind, Read, Write};

const BYTES: &[u8] = b"0123456789";

/// How a call fails.
#[derive(Clone, Copy)]
enum Failure {
    Error(ErrorKind),
    NoByte,
}

/// Counts calls, of which one fails.
#[derive(Drop)]
struct Calls {
    made: u32,
    fails_at: u32,
    failure: Failure,
}

impl Calls {
    fn new(failure: Failure, fails_at: u32) -> Calls {
        Calls {
            made: 0,
            fails_at,
            failure,
        }
    }

    /// How many bytes the next call moves, at most three of those that there are.
    fn next(&mut self, bytes: usize) -> io::Result<usize>
        ensures { IfOk result (λ n. n ≤ bytes) }
    {
        self.made = self.made.saturating_add(1);
        if self.made != self.fails_at {
            return Ok(bytes.min(3));
        }
        match self.failure {
            Failure::Error(kind) => Err(io::Error::from(kind)),
            Failure::NoByte => Ok(0),
        }
    }
}

#[derive(Drop)]
struct Reader {
    rest: &'static [u8],
    calls: Calls,
}

impl Read for Reader {
    fn read(&mut self, buf: &mut [u8]) -> io::Result<usize> {
        let count = self.calls.next(self.rest.len().min(buf.len()))?;
        buf[..count].copy_from_slice(&self.rest[..count]);
        self.rest = &self.rest[count..];
        Ok(count)
    }
}

/// Takes the bytes that are left, and no others.
#[derive(Drop)]
struct Writer {
    left: &'static [u8],
    calls: Calls,
}

impl Write for Writer {
    fn write(&mut self, buf: &[u8]) -> io::Result<usize> {
        let count = self.calls.next(buf.len())?;
        match self.left.strip_prefix(&buf[..count]) {
            Some(left) => self.left = left,
            None => return Err(io::Error::from(ErrorKind::InvalidData)),
        }
        Ok(count)
    }

    fn flush(&mut self) -> io::Result<()> {
        Ok(())
    }
}

/// Whether reading under a limit gives these bytes in this many calls, or ends with a fault at the call that fails.
fn reads_or_fails(
    alloc: Global,
    limit: Option<usize>,
    expected: &[u8],
    calls: u32,
    kind: ErrorKind,
    fails_at: u32,
) -> bool {
    let mut reader = Reader {
        rest: BYTES,
        calls: Calls::new(Failure::Error(kind), fails_at),
    };
    let read = read_in(alloc, &mut Device::new(&mut reader), limit);
    let made = reader.calls.made;
    match read {
        Ok(bytes) => calls < fails_at && made == calls && bytes.as_slice() == expected,
        Err(fault) => fault == ReadFault::Device && fails_at <= calls && made == fails_at,
    }
}

#[test]
fn reads_of_which_one_fails(rt: HostRuntime) {
    let alloc = rt.alloc();
    // a limit, what is read under it, and in how many calls
    let readings: [(Option<usize>, &[u8], u32); 6] = [
        (None, BYTES, 5),
        (Some(11), BYTES, 5),
        (Some(10), BYTES, 5),
        (Some(9), BYTES, 4),
        (Some(4), b"01234", 2),
        (Some(0), b"0", 1),
    ];
    for (limit, expected, calls) in readings {
        for fails_at in 1..=7 {
            for kind in [ErrorKind::Other, ErrorKind::Interrupted] {
                assert!(rt; reads_or_fails(alloc, limit, expected, calls, kind, fails_at));
            }
        }
    }
}

/// Whether writing, of which the Nth call of four fails, leaves just these bytes, and ends with a fault if it must.
fn writes_or_fails(failure: Failure, fails_at: u32, left: &[u8]) -> bool {
    let mut writer = Writer {
        left: BYTES,
        calls: Calls::new(failure, fails_at),
    };
    let written = write_out(&mut Device::new(&mut writer), BYTES);
    let answer = match fails_at <= 4 {
        true => Err(WriteFault::Device),
        false => Ok(()),
    };
    written == answer && writer.left == left && writer.calls.made == fails_at.min(4)
}

#[test]
fn writes_of_which_one_fails(rt: HostRuntime) {
    // a call that fails, and what is left then
    let writings: [(u32, &[u8]); 6] = [
        (1, BYTES),
        (2, b"3456789"),
        (3, b"6789"),
        (4, b"9"),
        (5, b""),
        (6, b""),
    ];
    for (fails_at, left) in writings {
        assert!(rt; writes_or_fails(Failure::Error(ErrorKind::Other), fails_at, left));
        assert!(rt; writes_or_fails(Failure::Error(ErrorKind::Interrupted), fails_at, left));
        assert!(rt; writes_or_fails(Failure::NoByte, fails_at, left));
    }
}
