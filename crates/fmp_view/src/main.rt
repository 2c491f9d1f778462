//! The program `fmp_view`: it looks at a system. It says what is wrong with texts, runs them over steps or by commands,
//! searches schedules, judges runs and shows them, and serves an editor. It also writes and reads systems for C and for
//! other kernels.
//!
//! It ends with the statuses of `fmp`: 0 if it did what it was asked, 1 for a fault of what it read, 2 for a mistake in
//! the command line, and 3 if a file could not be read or written or memory ran out; with 4 if runs differ that it was
//! asked to compare, a run fails an expectation or a search finds what it looks for; and with 5 if a search stops
//! before its end.
#![tactic(auto)]

mod answering;
mod asking;
mod commands;
mod differing;
mod expecting;
mod export_form;
mod exporting;
mod form;
mod import_form;
mod importing;
mod inputs;
mod mistakes;
mod numbers;
mod parsing;
mod refusing;
mod running;
mod runs;
mod session_files;
mod session_objects;
mod session_until;
mod settings;
mod stepping;
mod targeting;
mod telling;
mod testing;
mod texts;
mod unused_options;
mod view_host;
mod word_mistakes;

use fmp_files::{refuse_words, words_of};
use form::program;
use running::run;
use std::process::ExitCode;
use view_host::ViewHost;

fn main(rt: HostRuntime) -> ExitCode {
    let mut host = ViewHost::new(&rt);
    let status = match words_of(&rt) {
        Ok(words) => run(rt.alloc(), &mut host, &rt, &words),
        Err(fault) => refuse_words(&mut host, program(rt.alloc()), fault),
    };
    ExitCode::from(status)
}
