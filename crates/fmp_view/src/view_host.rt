//! What the program reaches outside of itself. Where the reader of its standard output has closed that, as `head` does
//! after its lines, the program ends with nothing said.
ghost use Rattle.std.specs.Prelude.{None, true};
ghost use Rattle.fmp_files.specs.Outside.{unknown_files};

use fmp_files::{Failed, Host, Outside, ReadFault, Sink, WriteFault, write_out};
use std::alloc::Global;
use std::fmt::Display;
use std::io;
use std::io::{Eprint, ErrorKind, Print, Write};
use std::rt::Files;

/// A stream, and how writes to it went.
#[derive(Drop)]
struct Stream<T> {
    inner: T,
    /// Whether a write failed or took no byte.
    failed: bool,
    /// Whether a write found that the reader has closed the stream.
    closed: bool,
}

impl<T: Write> Sink for Stream<T> {
    ghost written = { λ stream. T.contents stream.inner };

    ghost failed = { λ stream. stream.failed };

    fn write(&mut self, bytes: &[u8]) -> Result<usize, Failed> {
        match self.inner.write(bytes) {
            Ok(count) => {
                self.failed |= count == 0;
                Ok(count)
            }
            Err(error) => {
                self.failed = true;
                self.closed = error.kind() == ErrorKind::BrokenPipe;
                Err(Failed)
            }
        }
    }
}

/// The files, standard output and standard error of the system that the program runs on.
#[derive(Drop)]
pub struct ViewHost<'a, R> {
    rt: &'a R,
    host: Host<'a, R>,
    /// Whether the reader of standard output has closed it.
    closed: bool,
}

impl<'a, R> ViewHost<'a, R> {
    /// The outside that this runtime reaches.
    pub fn new(rt: &'a R) -> ViewHost<'a, R> {
        ViewHost {
            rt,
            host: Host::new(rt),
            closed: false,
        }
    }
}

impl<R: Files + Print + Eprint> Outside for ViewHost<'_, R> {
    // What a file of the system has, and what was done to it, no contract can say.
    ghost files = { λ _. unknown_files };

    ghost output_can_fail = { λ _. true };

    ghost done = { λ _. None };

    fn read(&self, alloc: Global, name: &str, limit: Option<usize>) -> Result<Vec<u8>, ReadFault> {
        self.host.read(alloc, name, limit)
    }

    fn write(&mut self, name: &str, bytes: &[u8]) -> Result<(), WriteFault> {
        self.host.write(name, bytes)
    }

    fn remove(&mut self, name: &str) -> Result<bool, Failed> {
        self.host.remove(name)
    }

    fn print(&mut self, bytes: &[u8]) -> Result<(), WriteFault> {
        let mut stream = Stream {
            inner: io::writer(self.rt),
            failed: false,
            closed: false,
        };
        let written = write_out(&mut stream, bytes);
        self.closed = stream.closed;
        written
    }

    fn say<D: Display + Drop>(&mut self, text: D) {
        if !self.closed {
            self.host.say(text);
        }
    }

    fn is_one_file(&self, name: &str, other: &str) -> bool {
        self.host.is_one_file(name, other)
    }
}
