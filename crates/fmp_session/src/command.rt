//! The commands of a session, one a line.
ghost use Rattle.std.specs.Prelude.{◌≡◌, nat_eq, position, None, Some, MatchOption};
ghost use Rattle.fmp_session.specs.Commands as spec;

use crate::interrupts::{NamedInterrupt, interrupt_of};
use crate::numbers::{count_in, number_in};
use fmp_base::Event;
use fmp_trace::Steps;

/// What a line asks for.
#[derive(Clone, Copy)]
pub enum Command {
    /// Take this event this many times, 1 to 2^20, up to the first time that it does nothing.
    Take(Event, u32),
    /// Take back this many events, 1 to 2^20.
    Back(u32),
    /// Say what each task waits or spins for.
    Why,
    /// Print the states of the tasks.
    State,
    /// Print the state of one task or object: its name is what `argument_of` gives.
    StateOf,
    /// Take the events of a file: its name is what `argument_of` gives.
    Load,
    /// Write the events to a file: its name is what `argument_of` gives.
    Save,
    /// Go on until a deed happens: its words are what `argument_of` gives.
    Until,
    /// Say which commands there are.
    Help,
    /// End the session.
    Quit,
    /// Nothing: the line is empty.
    Skip,
}

/// What is wrong with a line that is no command.
#[derive(Clone, Copy)]
pub enum LineMistake {
    /// No command begins with its first word.
    Unknown,
    /// After `run` there is no number of a processor.
    Processor,
    /// After `int` there is neither a number of an interrupt, 1 to 32, nor the name of the body of one handler.
    Interrupt,
    /// What stands after the processor or the interrupt is not `xK` with K from 1 to 2^20.
    Times,
    /// What stands after `tick` or `back` is no number from 1 to 2^20.
    Count,
    /// There is no name after `load` or `save`.
    Name,
    /// There is no deed after `until`.
    Deed,
    /// Something stands after a command of one word.
    Alone,
}

/// The event of a line of a steps text.
fn event_of(line: &[u8], processors: u8) -> Option<Event>
    ensures { result ≡ spec.event_of processors line.now }
{
    let Ok(mut steps) = Steps::new(line, processors) else {
        return None;
    };
    let event = steps.next_event()?;
    match steps.next_event() {
        Some(_) => None,
        None => Some(event),
    }
}

fn blank_in(line: &[u8]) -> Option<usize>
    ensures { result ≡ position (λ byte. nat_eq byte 32) line.now }
{
    line.iter().position(|byte| *byte == b' ')
}

/// The first word of a line: what stands before its first blank.
pub fn word_of(line: &[u8]) -> &[u8]
    ensures { result.now ≡ spec.word_of line.now }
{
    match blank_in(line) {
        Some(blank) => &line[..blank],
        None => line,
    }
}

/// What stands after the first blank of a line, if there is one.
fn rest_of(line: &[u8]) -> Option<&[u8]>
    ensures { MatchOption result (spec.rest_of line.now ≡ None) (λ rest. spec.rest_of line.now ≡ Some rest.now) }
{
    let blank = blank_in(line)?;
    Some(&line[blank + 1..])
}

/// What stands after the first word of a line; empty if nothing does.
pub fn argument_of(line: &[u8]) -> &[u8]
    ensures { result.now ≡ spec.argument_of line.now }
{
    match rest_of(line) {
        Some(rest) => rest,
        None => &[],
    }
}

/// How many a line asks for after its first word.
fn count_after(line: &[u8]) -> Option<u32>
    ensures { result ≡ spec.count_after (spec.rest_of line.now) }
{
    match rest_of(line) {
        Some(text) => count_in(text),
        None => Some(1),
    }
}

/// How often a text asks for its first word.
fn times_after(text: &[u8]) -> Option<u32>
    ensures { result ≡ spec.times_after (spec.rest_of text.now) }
{
    match rest_of(text) {
        Some([b'x', digits @ ..]) => count_in(digits),
        Some(_) => None,
        None => Some(1),
    }
}

/// The command that takes back as many events as a line says, or one.
fn back_of(line: &[u8]) -> Result<Command, LineMistake>
    ensures { result ≡ spec.back_by (spec.count_after (spec.rest_of line.now)) }
{
    match count_after(line) {
        Some(count) => Ok(Command::Back(count)),
        None => Err(LineMistake::Count),
    }
}

/// The command of as many ticks as a line says, or of one.
fn tick_of(line: &[u8]) -> Result<Command, LineMistake>
    ensures { result ≡ spec.tick_by (spec.count_after (spec.rest_of line.now)) }
{
    match count_after(line) {
        Some(count) => Ok(Command::Take(Event::Tick, count)),
        None => Err(LineMistake::Count),
    }
}

/// The command that takes an event as often as a text says after its first word.
fn taken(event: Event, text: &[u8]) -> Result<Command, LineMistake>
    ensures { result ≡ spec.taken event (spec.times_after (spec.rest_of text.now)) }
{
    match times_after(text) {
        Some(times) => Ok(Command::Take(event, times)),
        None => Err(LineMistake::Times),
    }
}

/// The command of what stands after `run`: a processor, and how often it runs.
fn run_of(text: &[u8], processors: u8) -> Result<Command, LineMistake>
    ensures { result ≡ spec.run_of processors text.now }
{
    match number_in(word_of(text), processors) {
        Some(processor) => taken(Event::Run(processor), text),
        None => Err(LineMistake::Processor),
    }
}

/// The command of what stands after `int`: an interrupt, and how often it is raised.
fn int_of(text: &[u8], interrupts: &[NamedInterrupt]) -> Result<Command, LineMistake>
    ensures { result ≡ spec.int_of interrupts.now text.now }
{
    match interrupt_of(interrupts, word_of(text)) {
        Some(interrupt) => taken(Event::Int(interrupt), text),
        None => Err(LineMistake::Interrupt),
    }
}

/// A command, if the line is one word.
fn alone(command: Command, line: &[u8]) -> Result<Command, LineMistake>
    ensures { result ≡ spec.alone command (spec.rest_of line.now) }
{
    match rest_of(line) {
        Some(_) => Err(LineMistake::Alone),
        None => Ok(command),
    }
}

/// A command, if a name stands after it.
fn named(command: Command, argument: &[u8]) -> Result<Command, LineMistake>
    ensures { result ≡ spec.named command argument.now }
{
    match argument {
        [] => Err(LineMistake::Name),
        _ => Ok(command),
    }
}

/// The command of a line that begins with `until`, by what stands after it.
fn until_of(argument: &[u8]) -> Result<Command, LineMistake>
    ensures { result ≡ spec.until_of argument.now }
{
    match argument {
        [] => Err(LineMistake::Deed),
        _ => Ok(Command::Until),
    }
}

/// The command of a line that begins with `state`.
fn state_of(line: &[u8]) -> Result<Command, LineMistake>
    ensures { result ≡ spec.state_of (spec.rest_of line.now) }
{
    match rest_of(line) {
        Some(_) => Ok(Command::StateOf),
        None => Ok(Command::State),
    }
}

/// The command of a line that is no event of a steps text: its first word says which.
fn by_word(
    line: &[u8],
    processors: u8,
    interrupts: &[NamedInterrupt],
) -> Result<Command, LineMistake>
    ensures { result ≡ spec.by_word processors interrupts.now (spec.word_of line.now) (spec.rest_of line.now) }
{
    match word_of(line) {
        b"" => alone(Command::Skip, line),
        b"run" => run_of(argument_of(line), processors),
        b"tick" => tick_of(line),
        b"int" => int_of(argument_of(line), interrupts),
        b"back" => back_of(line),
        b"why" => alone(Command::Why, line),
        b"state" => state_of(line),
        b"load" => named(Command::Load, argument_of(line)),
        b"save" => named(Command::Save, argument_of(line)),
        b"until" => until_of(argument_of(line)),
        b"help" => alone(Command::Help, line),
        b"quit" => alone(Command::Quit, line),
        b"exit" => alone(Command::Quit, line),
        _ => Err(LineMistake::Unknown),
    }
}

/// The command of a line, without its line feed and the blanks at its ends, in a system with this many processors and
/// these interrupts. It is one of:
///
/// - a line of a steps text
/// - `run P xK`; `tick K`; `int N xK`, where `xK` may be left out and N may be the name of the body of one handler
/// - `back`, `back K`
/// - `why`, `state`, `help`, `quit` and `exit`, which are the same
/// - `state NAME`, `load FILE`, `save FILE`
/// - `until DEED`
///
/// Each K is a number from 1 to 2^20.
pub fn command_of(
    line: &[u8],
    processors: u8,
    interrupts: &[NamedInterrupt],
) -> Result<Command, LineMistake>
    ensures { result ≡ spec.command_of processors interrupts.now line.now }
{
    match event_of(line, processors) {
        Some(event) => Ok(Command::Take(event, 1)),
        None => by_word(line, processors, interrupts),
    }
}
