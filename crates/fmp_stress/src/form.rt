//! The form of the command line.
use clap::builder::ValueParser;
use clap::{Arg, ArgAction, Command};
use std::alloc::{AllocError, Global};

/// What the program is.
const ABOUT: &str =
    "Hosts an image by threads that share its board: they take tickets, feed events, meet and follow.
The journal is written to JOURNAL, as a steps text, what follower F read to JOURNAL.F, and the lines that it printed
to JOURNAL.F.trace.
It prints what the calls were answered, and how many seats read anything but the journal";

/// The largest bound, 2^48.
const BOUND_MAX: u64 = 281_474_976_710_656;

/// The largest number of events, 2^20.
const EVENTS_MAX: u64 = 1_048_576;

/// What an argument is.
#[derive(Clone, Copy)]
enum ArgumentKind {
    /// A word that has to be there.
    Word,
    /// An option without a value.
    Flag,
    /// An option with a number: the lowest, the highest, and that where none is given.
    Number(u64, u64, &'static str),
}

/// An argument: its name, what it is, and what help says of it.
struct Argument(&'static str, ArgumentKind, &'static str);

/// The arguments in the order in which help lists them.
static ARGUMENTS: [Argument; 12] = [
    Argument(
        "IMAGE",
        ArgumentKind::Word,
        "Image that 'fmp build' has written",
    ),
    Argument(
        "JOURNAL",
        ArgumentKind::Word,
        "File that the journal is written to",
    ),
    Argument(
        "seats",
        ArgumentKind::Number(1, 64, "8"),
        "How many seats the board has; the last one reads the finished row",
    ),
    Argument(
        "followers",
        ArgumentKind::Number(0, 63, "0"),
        "How many of them follow while the others call",
    ),
    Argument(
        "share",
        ArgumentKind::Number(1, 64, "1"),
        "How many seats a thread has; two of them meet now and then",
    ),
    Argument(
        "turns",
        ArgumentKind::Number(1, EVENTS_MAX, "100"),
        "How many turns a seat has",
    ),
    Argument(
        "ticks",
        ArgumentKind::Number(0, EVENTS_MAX, "0"),
        "How many ticks the first seat that calls feeds, one a turn at most",
    ),
    Argument(
        "capacity",
        ArgumentKind::Number(1, EVENTS_MAX, "1048576"),
        "How many events the journal has room for",
    ),
    Argument(
        "bound",
        ArgumentKind::Number(1, BOUND_MAX, "100000"),
        "How many instructions a stretch may take",
    ),
    Argument(
        "seed",
        ArgumentKind::Number(0, u64::MAX, "1"),
        "What the turns are drawn by",
    ),
    Argument(
        "own",
        ArgumentKind::Flag,
        "Each seat takes tickets of one processor, by its number, and does nothing else",
    ),
    Argument(
        "time",
        ArgumentKind::Flag,
        "Print how long the calls and the last reads took",
    ),
];

/// An argument as the command line has it.
fn argument_of<'a>(alloc: Global, argument: &Argument) -> Arg<'a> {
    let Argument(id, kind, help) = *argument;
    let made = Arg::new(alloc, id).help(help);
    match kind {
        ArgumentKind::Word => made.required(true),
        ArgumentKind::Flag => made.long(id).action(ArgAction::SetTrue),
        ArgumentKind::Number(low, high, default) => made
            .long(id)
            .value_name("N")
            .value_parser(ValueParser::unsigned(low, high))
            .default_value(default),
    }
}

/// The command line with none of its arguments yet.
fn bare<'a>(alloc: Global) -> Command<'a> {
    Command::new(alloc, "fmp_stress")
        .version("0.1.0")
        .about(ABOUT)
        .arg_required_else_help(true)
}

/// The whole command line. `AllocError` if memory runs out.
pub fn program<'a>(alloc: Global) -> Result<Command<'a>, AllocError> {
    let mut program = bare(alloc);
    for argument in &ARGUMENTS {
        program = program.arg(argument_of(alloc, argument))?;
    }
    Ok(program)
}
