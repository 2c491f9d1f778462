//! The form of the command line.
ghost use Rattle.std.specs.Prelude.{◌≡◌, IfOk, IsFalse, IsOkAnd, codes, true};
ghost use Rattle.clap.specs.Words.{app_of, new_app, rule_of, with_rule, with_subcommand};
ghost use Rattle.fmp.specs.Form.{bare_fmp, bound, build, check, count, file, fmp, host, number, sim};

use clap::builder::ValueParser;
use clap::{Arg, Command};
use std::alloc::{AllocError, Global};

/// The help on the program.
const ABOUT: &str =
    "A multiprocessor real-time kernel of the uITRON family, with the compiler of its systems.
With no command it builds and runs a small example that it holds.";

/// The help on STEPS.
const STEPS: &str =
    "Text of the events, one a line: 'run 1' lets processor 1 run to its next service call,
'tick' advances the clock, 'int 3' raises interrupt 3";

/// The help on JOURNAL.
const JOURNAL: &str = "File that the events are written to, as the text of 'fmp sim'";

/// The largest bound, 2^48.
const BOUND_MAX: u64 = 281_474_976_710_656;

/// The largest number of turns, and of ticks, 2^20.
const COUNT_MAX: u64 = 1_048_576;

/// The help on `--turns`.
const TURNS: &str = "How many turns each processor has, 0 to 2^20: in a turn it runs to its next
service call, unless another event changes what runs there meanwhile";

/// The help on `--ticks`.
const TICKS: &str = "How many ticks the clock has, 0 to 2^20";

/// The longest time from tick to tick, in microseconds.
const TICK_US_MAX: u64 = 1_000_000;

/// The largest number of an interrupt.
const INTERRUPT_MAX: u64 = 32;

/// The help on `--tick-us`.
const TICK_US: &str = "Microseconds from tick to tick, 1 to 1000000: a processor with nothing to run
waits, and standard error gets a summary; without it ticks come at once";

/// The help on `--int`.
const INTERRUPT: &str =
    "Interrupt that each line 'int I' of standard input raises, 1 to 32: waits and
summary as with --tick-us, without which the run lasts to the end of the input";

/// The help on `--bound`.
const BOUND: &str = "How many instructions a body may take in a step, 1 to 2^48 in decimal
digits; where its next service call is farther, its next step goes on
from there";

/// The end of the help: an example, the statuses and the codes of faults.
const EXAMPLE_AND_CODES: &str = "Example, on the files of the folder 'examples':
  fmp check examples/queue.cfg examples/queue.src
  fmp build examples/queue.cfg examples/queue.src queue.img
  fmp sim queue.img examples/queue.steps
  fmp host queue.img queue.journal --turns 7 --ticks 0

'fmp_view fault CFG SRC' shows where a fault of a text stands, and says what was expected there;
'fmp_view run CFG SRC' runs two texts. 'fmp_view --help' lists what else it does.

Status, and the line on standard error with it:
  0        done; help or the version was asked for
  1        a fault of what was read: 'cfg:3: B4 E_PAR', 'src:2: B1', 'image: L2', 'steps:4: S1';
           no host for what is asked: 'host: H4'
  2        a mistake in the command line; OUT is one of the two texts, JOURNAL is the image
  3        'file: NAME', a file could not be read or written ('-' is standard output); 'memory'
Fault of a text, after the file and the line at which it stands:
  B1       syntax: the first token that does not fit, or the end of the text
  B2       a name is used twice
  B3       an unknown class, constant or name; an entry that names no body
  B4       a static API is refused, with its error code: E_RSATR, E_PAR or E_OBJ
  B5       a limit on sizes, counts or numbers is passed
  B6       a stack with fewer than four bytes for each operand of its task's body
  B7       an entry that names a body of the other kind, of a task or of a handler
  B9       an array without an index, or a variable or an object with one
Fault of an image:
  L1       it ends too soon
  L2       its first four bytes are not 'FMPI': it is a text, or a file of another kind
  L3       its version is not 1 to 3
  L4       a value breaks a rule of its table
  L5       the code of a body is not fit to run
  L6       bytes stand after the last table
Fault of a steps text, after its line:
  S1       not an event: 'run P', 'tick' and 'int I' are events
  S2       no processor P in the image, or I is not from 1 to 32
  S3       line 2^20 + 1: a run has at most 2^20 events
Fault of a host:
  H4       the turns of all processors and the ticks, with --int 65536 more, are not 1 to 2^20
  H5       the system refused a thread";

/// An example of `fmp check`.
const CHECK_EXAMPLE: &str = "Example:
  fmp check examples/queue.cfg examples/queue.src

'fmp --help' lists the faults.";

/// An example of `fmp build`.
const BUILD_EXAMPLE: &str = "Example:
  fmp build examples/queue.cfg examples/queue.src queue.img

'fmp --help' lists the faults. With a fault no file is written.";

/// An example of `fmp sim`.
const SIM_EXAMPLE: &str = "Example, with the image of the example of 'fmp build --help':
  fmp sim queue.img examples/queue.steps

'fmp --help' lists the faults. With a fault nothing is printed.";

/// An example of `fmp host`.
const HOST_EXAMPLE: &str = "Example, with the image of the example of 'fmp build --help':
  fmp host queue.img queue.journal --turns 7 --ticks 0
  fmp sim queue.img queue.journal

Both print the same. 'fmp --help' lists the faults. With a fault no file is written.
By the clock, with an interrupt for each line 'int 3' of standard input:
  fmp host queue.img queue.journal --turns 1000 --ticks 500 --tick-us 10000 --int 3";

/// A word that names a file, and has to be there.
fn file_word<'a>(alloc: Global, id: &'a str, help: &'a str) -> Arg<'a>
    ensures rule { rule_of result ≡ file id.entry.now }
    ensures local { IsFalse result.global }
{
    Arg::new(alloc, id).required(true).help(help)
}

/// The word for a configuration.
fn config_word<'a>(alloc: Global) -> Arg<'a>
    ensures rule { rule_of result ≡ file (codes "CFG") }
    ensures local { IsFalse result.global }
{
    file_word(
        alloc,
        "CFG",
        "Configuration: the processors, their classes, and the tasks and objects in them",
    )
}

/// The word for a task text.
fn tasks_word<'a>(alloc: Global) -> Arg<'a>
    ensures rule { rule_of result ≡ file (codes "SRC") }
    ensures local { IsFalse result.global }
{
    file_word(
        alloc,
        "SRC",
        "Task text: the bodies of the tasks and handlers, such as 'task main { put(7); }'",
    )
}

/// The word for an image that is read.
fn image_word<'a>(alloc: Global) -> Arg<'a>
    ensures rule { rule_of result ≡ file (codes "IMAGE") }
    ensures local { IsFalse result.global }
{
    file_word(alloc, "IMAGE", "Image that 'fmp build' has written")
}

/// The option for the bound.
fn bound_option<'a>(alloc: Global) -> Arg<'a>
    ensures rule { rule_of result ≡ bound }
    ensures local { IsFalse result.global }
{
    Arg::new(alloc, "bound")
        .long("bound")
        .value_name("N")
        .value_parser(ValueParser::unsigned(1, BOUND_MAX))
        .default_value("100000")
        .help(BOUND)
}

/// The option for a number of turns or ticks, which has to be there.
fn count_option<'a>(alloc: Global, id: &'a str, value: &'a str, help: &'a str) -> Arg<'a>
    ensures rule { rule_of result ≡ count id.entry.now }
    ensures local { IsFalse result.global }
{
    Arg::new(alloc, id)
        .long(id)
        .value_name(value)
        .value_parser(ValueParser::unsigned(0, COUNT_MAX))
        .required(true)
        .help(help)
}

/// An option with a number from 1 to this one.
fn number_option<'a>(
    alloc: Global,
    id: &'a str,
    value: &'a str,
    most: u64,
    help: &'a str,
) -> Arg<'a>
    ensures rule { rule_of result ≡ number id.entry.now most }
    ensures local { IsFalse result.global }
{
    Arg::new(alloc, id)
        .long(id)
        .value_name(value)
        .value_parser(ValueParser::unsigned(1, most))
        .help(help)
}

/// A command of this name, and what help says of it above and below its arguments.
fn named<'a>(alloc: Global, name: &'a str, about: &'a str, example: &'a str) -> Command<'a>
    ensures { app_of result ≡ new_app name.entry.now }
{
    Command::new(alloc, name).about(about).after_help(example)
}

/// A command with one more argument, where there was memory for the command.
fn with_argument<'a>(
    command: Result<Command<'a>, AllocError>,
    argument: Arg<'a>,
) -> Result<Command<'a>, AllocError>
    requires { IsFalse argument.global }
    ensures { IfOk result (λ c. IsOkAnd command.entry (λ b.
        app_of c ≡ with_rule (app_of b) (rule_of argument.entry))) }
{
    command?.arg(argument)
}

/// A command with one more subcommand, where there was memory for both.
fn with_command<'a>(
    command: Result<Command<'a>, AllocError>,
    subcommand: Result<Command<'a>, AllocError>,
) -> Result<Command<'a>, AllocError>
    requires { IfOk subcommand (λ s. (app_of s).top.is_plain ≡ true) }
    ensures { IfOk result (λ c. IsOkAnd command.entry (λ b. IsOkAnd subcommand.entry (λ s.
        app_of c ≡ with_subcommand (app_of b) (app_of s).top))) }
{
    command?.subcommand(subcommand?)
}

fn check_command<'a>(alloc: Global) -> Result<Command<'a>, AllocError>
    ensures { IfOk result (λ c. app_of c ≡ check) }
{
    let command = named(
        alloc,
        "check",
        "Checks the two texts of a system: prints 'ok', or the first fault with its line",
        CHECK_EXAMPLE,
    );
    let command = with_argument(Ok(command), config_word(alloc));
    with_argument(command, tasks_word(alloc))
}

/// The command `build`.
pub fn build_command<'a>(alloc: Global) -> Result<Command<'a>, AllocError>
    ensures { IfOk result (λ c. app_of c ≡ build) }
{
    let command = named(
        alloc,
        "build",
        "Compiles the two texts of a system into an image: prints 'ok' and its number of bytes",
        BUILD_EXAMPLE,
    );
    let command = with_argument(Ok(command), config_word(alloc));
    let command = with_argument(command, tasks_word(alloc));
    with_argument(
        command,
        file_word(alloc, "OUT", "File that the image is written to"),
    )
}

fn sim_command<'a>(alloc: Global) -> Result<Command<'a>, AllocError>
    ensures { IfOk result (λ c. app_of c ≡ sim) }
{
    let command = named(
        alloc,
        "sim",
        "Runs an image over a list of events: prints what happens, and how the tasks stand then",
        SIM_EXAMPLE,
    );
    let command = with_argument(Ok(command), image_word(alloc));
    let command = with_argument(command, file_word(alloc, "STEPS", STEPS));
    with_argument(command, bound_option(alloc))
}

/// The command `host`.
pub fn host_command<'a>(alloc: Global) -> Result<Command<'a>, AllocError>
    ensures { IfOk result (λ c. app_of c ≡ host) }
{
    let command = named(
        alloc,
        "host",
        "Runs an image by threads, one a processor: writes the events, and prints what happened",
        HOST_EXAMPLE,
    );
    let command = with_argument(Ok(command), image_word(alloc));
    let command = with_argument(command, file_word(alloc, "JOURNAL", JOURNAL));
    let command = with_argument(command, count_option(alloc, "turns", "T", TURNS));
    let command = with_argument(command, count_option(alloc, "ticks", "K", TICKS));
    let command = with_argument(
        command,
        number_option(alloc, "tick-us", "U", TICK_US_MAX, TICK_US),
    );
    let command = with_argument(
        command,
        number_option(alloc, "int", "I", INTERRUPT_MAX, INTERRUPT),
    );
    with_argument(command, bound_option(alloc))
}

/// The command line with none of its commands yet.
fn bare<'a>(alloc: Global) -> Command<'a>
    ensures { app_of result ≡ bare_fmp }
{
    Command::new(alloc, "fmp")
        .version("0.1.0")
        .about(ABOUT)
        .after_help(EXAMPLE_AND_CODES)
        .subcommand_required(true)
}

/// The whole command line.
pub fn program<'a>(alloc: Global) -> Result<Command<'a>, AllocError>
    ensures { IfOk result (λ c. app_of c ≡ fmp) }
{
    let program = with_command(Ok(bare(alloc)), check_command(alloc));
    let program = with_command(program, build_command(alloc));
    let program = with_command(program, sim_command(alloc));
    with_command(program, host_command(alloc))
}
