//! The program `fmp`: it checks the texts of a system, builds its image, and runs an image on the kernel, by the events
//! that it reads or by threads, and prints what happened.
//!
//! It ends with status 0 if it did what it was asked, 1 for a fault of what it read, 2 for a mistake in the command
//! line, and 3 if a file could not be read or written or memory ran out. It prints after it has written its file. The
//! run of an image over steps is printed while it goes on, once image and steps are judged; all else is printed at the
//! end.
#![tactic(auto)]

mod asking;
mod carrying;
mod form;
mod lines;
mod pacing;
mod perform;
mod printing;
mod progress;
mod reading;
mod refusing;
mod running;

use fmp_files::{Host, refuse_words, words_of};
use form::program;
use running::run;
use std::process::ExitCode;

fn main(rt: HostRuntime) -> ExitCode {
    let mut host = Host::new(&rt);
    let status = match words_of(&rt) {
        Ok(words) => run(&rt, rt.alloc(), &mut host, &words),
        Err(fault) => refuse_words(&mut host, program(rt.alloc()), fault),
    };
    ExitCode::from(status)
}
