//! The program `fmp_stress`, a tool of the checks: threads share a board by as many seats as are asked for, take
//! tickets, feed events, and follow the row; then the journal is written, and what each follower read. It promises
//! nothing by contract except that it keeps the conditions of each call of the library.
//!
//! It ends with the statuses of `fmp`: 0 if it did what it was asked, 1 for a fault of what it read, 2 for a mistake in
//! the command line, and 3 if a file could not be read or written or memory ran out.
#![tactic(auto)]

mod asking;
mod exit;
mod form;
mod hosting;
mod running;
mod seat_calls;
mod threads;
mod turns;

use fmp_files::{Host, refuse_words, words_of};
use form::program;
use running::run;
use std::process::ExitCode;

fn main(rt: HostRuntime) -> ExitCode {
    let mut host = Host::new(&rt);
    let status = match words_of(&rt) {
        Ok(words) => run(&rt, rt.alloc(), &mut host, &words),
        Err(fault) => refuse_words(&mut host, program(rt.alloc()), fault),
    };
    ExitCode::from(status)
}
