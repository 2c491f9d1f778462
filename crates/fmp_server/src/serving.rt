//! A server over what bytes are read from, and standard output.
use crate::server::Server;
use fmp_files::{Failure, Outside, Source, end, failed, print};
use std::alloc::Global;

/// How many bytes to ask for at once.
const CHUNK: usize = 65_536;

/// The status where the bytes end before `exit` has come.
const CUT_OFF: u8 = 1;

/// Prints what answers bytes, and gives the status if the server ends with them.
fn answer<O: Outside>(
    alloc: Global,
    outside: &mut O,
    server: &mut Server,
    bytes: &[u8],
) -> Option<u8> {
    let out = match server.take(alloc, bytes) {
        Ok(out) => out,
        Err(error) => return Some(end(outside, &Failure::Memory(error))),
    };
    if out.is_empty() {
        return server.status();
    }
    match print(alloc, outside, &out) {
        0 => server.status(),
        status => Some(status),
    }
}

/// Reads once, and prints what answers. Gives the status at the end.
fn serve_once<O: Outside, S: Source>(
    alloc: Global,
    outside: &mut O,
    source: &mut S,
    server: &mut Server,
    buffer: &mut [u8],
) -> Option<u8> {
    match source.read(buffer) {
        Ok(0) => Some(CUT_OFF),
        Ok(count) => answer(alloc, outside, server, &buffer[..count]),
        Err(_) => Some(end(outside, &failed(alloc, "stdin"))),
    }
}

/// Serves what is read from a source, and prints the answers to standard output, until `exit` comes or the bytes end.
/// Gives the status of the program: 0 if `shutdown` came before `exit`, 1 if it did not, 3 where a read or a write
/// failed or memory ran out.
pub fn serve<O: Outside, S: Source>(alloc: Global, outside: &mut O, source: &mut S) -> u8 {
    let mut server = Server::new(alloc);
    let mut buffer = [0; CHUNK];
    for _read in 0..u64::MAX {
        if let Some(status) = serve_once(
            alloc,
            outside,
            source,
            &mut server,
            &mut buffer[..CHUNK],
        ) {
            return status;
        }
    }
    CUT_OFF
}
