//! A session over the system of two texts: commands that are typed or sent one by one, and what each of them answers.
ghost use Rattle.std.specs.Prelude.{◌≡◌, IfOk, None};
ghost use Rattle.fmp_session.specs.Sessions.{IsSession};
ghost use Rattle.fmp_view.specs.Stepped.{last_lines};

use crate::answering::{Answer, GivenCommand, Stepping, answer_of, append_last};
use crate::mistakes::mistake_text;
use fmp_files::{Failure, Outside, end, failed, print};
use fmp_looking::OpenImage;
use fmp_session::{Command, Session, answer_line, argument_of, command_of, failure_line};
use fmp_warnings::Form;
use std::alloc::{AllocError, Global};
use std::io::{BufRead, BufReader, ErrorKind, Input};

/// The status at the end of a session over standard input that is no terminal, where a line failed.
const LINE_FAILED: u8 = 1;

/// The status at the end of a session where a file could not be read or written.
const FILE_FAILED: u8 = 3;

/// What comes after a line of a session.
#[derive(Clone, Copy)]
enum Next {
    /// The next line.
    Line,
    /// The next line; the session does not end with a status below this one.
    Failed(u8),
    /// The end, with this status.
    End(u8),
}

/// Where a session is.
#[derive(Clone, Copy)]
struct SessionPosition {
    /// The number of its line.
    line: u32,
    /// How many events it has.
    events: usize,
}

/// A line of a session.
#[derive(Clone, Copy)]
struct SessionLine<'a> {
    /// From 1.
    number: u32,
    text: &'a [u8],
}

/// What comes after a line that ended with this status, where it would be this.
fn next_after(status: u8, next: Next) -> Next {
    match status {
        0 => next,
        status => Next::End(status),
    }
}

/// Prints an answer, and gives the status.
fn print_answer<O: Outside>(
    alloc: Global,
    outside: &mut O,
    answer: Result<Vec<u8>, AllocError>,
) -> u8 {
    match answer {
        Ok(text) => print(alloc, outside, &text),
        Err(error) => end(outside, &Failure::Memory(error)),
    }
}

/// Prints what a line has told, in a session of this many events.
fn print_told<O: Outside>(
    alloc: Global,
    outside: &mut O,
    form: Form,
    events: usize,
    told: Vec<u8>,
) -> u8 {
    match form {
        Form::Text => print(alloc, outside, &told),
        Form::Json => print_answer(alloc, outside, answer_line(alloc, events, told)),
    }
}

/// Says why the line of a session failed.
fn say_failed<O: Outside>(
    alloc: Global,
    outside: &mut O,
    form: Form,
    at: SessionPosition,
    reason: &str,
) -> u8 {
    match form {
        Form::Text => {
            outside.say(format_args!("line {}: {reason}\n", at.line));
            0
        }
        Form::Json => print_answer(alloc, outside, failure_line(alloc, at.events, reason)),
    }
}

/// Says which file could not be read or written, in a session of this many events.
fn say_file<O: Outside>(
    alloc: Global,
    outside: &mut O,
    form: Form,
    events: usize,
    failure: &Failure,
) -> u8 {
    match form {
        Form::Text => {
            end(outside, failure);
            0
        }
        Form::Json => match format!(in alloc; "{failure}") {
            Ok(reason) => print_answer(alloc, outside, failure_line(alloc, events, &reason)),
            Err(error) => end(outside, &Failure::Memory(error)),
        },
    }
}

/// Answers the line of a session, and gives what comes after it.
fn give_answer<O: Outside>(
    alloc: Global,
    outside: &mut O,
    form: Form,
    at: SessionPosition,
    answer: Result<Option<Answer>, AllocError>,
) -> Next {
    match answer {
        Ok(None) => Next::End(0),
        Ok(Some(Answer::Told(told))) => next_after(
            print_told(alloc, outside, form, at.events, told),
            Next::Line,
        ),
        Ok(Some(Answer::Refused(reason))) => next_after(
            say_failed(alloc, outside, form, at, &reason),
            Next::Failed(LINE_FAILED),
        ),
        Ok(Some(Answer::NoFile(failure))) => next_after(
            say_file(alloc, outside, form, at.events, &failure),
            Next::Failed(FILE_FAILED),
        ),
        Err(error) => Next::End(end(outside, &Failure::Memory(error))),
    }
}

/// What a line answers; nothing where it ends the session.
fn answered<O: Outside>(
    alloc: Global,
    outside: &mut O,
    session: &mut Session<'_>,
    stepping: Stepping<'_>,
    line: &[u8],
) -> Result<Option<Answer>, AllocError>
    requires { IsSession session.old }
    ensures { IsSession session.new }
{
    let processors = session.image().system().processors;
    match command_of(line, processors, stepping.interrupts) {
        Ok(Command::Quit) => Ok(None),
        Ok(command) => {
            let given = GivenCommand {
                command,
                argument: argument_of(line),
            };
            Ok(Some(answer_of(alloc, outside, session, stepping, given)?))
        }
        Err(mistake) => {
            let interrupts = stepping.interrupts;
            let reason = mistake_text(alloc, mistake, line, processors, interrupts)?;
            Ok(Some(Answer::Refused(reason)))
        }
    }
}

/// Carries out a line.
fn carry_out_line<O: Outside>(
    alloc: Global,
    outside: &mut O,
    session: &mut Session<'_>,
    stepping: Stepping<'_>,
    line: SessionLine<'_>,
) -> Next
    requires { IsSession session.old }
    ensures { IsSession session.new }
{
    let answer = answered(alloc, outside, session, stepping, line.text);
    let at = SessionPosition {
        line: line.number,
        events: session.events().len(),
    };
    give_answer(alloc, outside, stepping.form, at, answer)
}

/// The next line of the input with its line feed, which the last may lack; nothing at its end.
fn next_line<I: BufRead>(alloc: Global, input: &mut I) -> Result<Vec<u8>, Failure> {
    let mut line = Vec::new(alloc);
    match input.read_until(b'\n', &mut line) {
        Ok(_) => Ok(line),
        Err(error) if error.kind() == ErrorKind::OutOfMemory => Err(Failure::Memory(AllocError)),
        Err(_) => Err(failed(alloc, "stdin")),
    }
}

/// The status of a session that ends, where lines have failed with this one at most. On a terminal only files count.
fn status_of(terminal: bool, worst: u8) -> u8 {
    if terminal && worst == LINE_FAILED {
        0
    } else {
        worst
    }
}

/// Carries out the lines of the input, one after the other, and gives the status. On a terminal it asks for each.
fn carry_out_lines<O: Outside, I: BufRead>(
    alloc: Global,
    outside: &mut O,
    input: &mut I,
    session: &mut Session<'_>,
    stepping: Stepping<'_>,
) -> u8
    requires { IsSession session.old }
{
    let mut worst = 0;
    for number in 1..u32::MAX {
        ask(outside, stepping, "> ");
        let line = match next_line(alloc, input) {
            Ok(line) => line,
            Err(failure) => return end(outside, &failure),
        };
        if line.is_empty() {
            ask(outside, stepping, "\n");
            return status_of(stepping.terminal, worst);
        }
        let line = SessionLine {
            number,
            text: line.trim_ascii(),
        };
        match carry_out_line(alloc, outside, session, stepping, line) {
            Next::Line => {}
            Next::Failed(status) => worst = worst.max(status),
            Next::End(last) => return last.max(status_of(stepping.terminal, worst)),
        }
    }
    status_of(stepping.terminal, worst)
}

/// Says a text for the person at a terminal, on standard error.
fn ask<O: Outside>(outside: &mut O, stepping: Stepping<'_>, text: &'static str) {
    if stepping.terminal && matches!(stepping.form, Form::Text) {
        outside.say(text);
    }
}

/// The lines of setup, with which a session begins.
fn first_text(alloc: Global, session: &Session<'_>, form: Form) -> Result<Vec<u8>, AllocError>
    requires { IsSession session.now }
    ensures { IfOk result (λ out. out.items ≡ last_lines form None session.now.kernel) }
{
    let mut out = Vec::new(alloc);
    append_last(alloc, session, form, None, &mut out)?;
    Ok(out)
}

/// A session from its first lines on, which are those of setup.
fn begin<O: Outside, I: BufRead>(
    alloc: Global,
    outside: &mut O,
    input: &mut I,
    session: &mut Session<'_>,
    stepping: Stepping<'_>,
) -> u8
    requires { IsSession session.old }
{
    let text = match first_text(alloc, session, stepping.form) {
        Ok(text) => text,
        Err(error) => return end(outside, &Failure::Memory(error)),
    };
    match print_told(alloc, outside, stepping.form, 0, text) {
        0 => carry_out_lines(alloc, outside, input, session, stepping),
        status => status,
    }
}

/// A session of an image over lines of input. `AllocError` if there is no memory for its kernel.
#[tactic(none)]
fn session_over<O: Outside, I: BufRead>(
    alloc: Global,
    outside: &mut O,
    input: &mut I,
    opened: &OpenImage<'_>,
    stepping: Stepping<'_>,
) -> Result<u8, AllocError> {
    let mut session = Session::new(alloc, opened.image, opened.bound)?;
    let status = begin(alloc, outside, input, &mut session, stepping);
    drop(session);
    Ok(status)
}

/// A session of an image over the lines of standard input, and its status. `AllocError` if there is no memory for it.
pub fn step_image<O: Outside, R: Input>(
    alloc: Global,
    outside: &mut O,
    rt: &R,
    opened: &OpenImage<'_>,
    stepping: Stepping<'_>,
) -> Result<u8, AllocError> {
    match BufReader::new(alloc, rt.reader()) {
        Ok(mut input) => session_over(alloc, outside, &mut input, opened, stepping),
        Err(_) => Err(AllocError),
    }
}
