//! The form of the command line.
ghost use Rattle.std.specs.Prelude.{◌≡◌, IfOk, fold, map};
ghost use Rattle.clap.specs.Words.{app_of};
ghost use Rattle.fmp_arguments.specs.Forms.{app_of_form};
ghost use Rattle.fmp_view.specs.Form.{Choices, IsForm, bare, commands, with_command};

use crate::export_form::EXPORT;
use crate::import_form::import_command;
use clap::Command;
use fmp_arguments::{
    Argument, ArgumentKind, BOUNDED, CFG, CommandForm, EVENTS_MAX, JSON, JUNIT, Made, NO_SETTINGS,
    OptionValue, SRC, command_of, plain_command_of,
};
use fmp_looking::TEST;
use fmp_searching::EXPLORE;
use std::alloc::Global;

/// The help on the program.
const ABOUT: &str =
    "Looks at systems of 'fmp': what is wrong with a text, runs by steps, by commands or at random, all
schedules, what is expected of a run, and a run as a table, as a waveform or as a picture. Serves
editors, and writes and reads systems for C and for other kernels.";

/// The end of the help: an example and the statuses.
const EXAMPLE_AND_STATUS: &str = "Example, with the image of the example of 'fmp build --help':
  fmp_view code E_PAR
  fmp_view fault examples/queue.cfg examples/queue.src
  fmp_view run examples/queue.cfg examples/queue.src
  fmp_view step examples/queue.cfg examples/queue.src
  fmp_view explore examples/queue.cfg examples/queue.src
  fmp_view drive queue.img --events 20 > drive.steps
  fmp_view why queue.img drive.steps --at 2
  fmp_view expect queue.img drive.steps queue.expect
  fmp_view test examples/queue.cfg examples/queue.src --expect queue.expect > found.steps
  fmp_view stats queue.img drive.steps
  fmp_view waves queue.img drive.steps queue.vcd
  fmp_view timeline queue.img drive.steps queue.svg
  fmp_view export examples/queue.cfg examples/queue.src --c queue
  fmp_view import sample1.cfg --out sample1.fmp.cfg

Status, and the line on standard error with it:
  0        done; help or the version was asked for
  1        a fault of what was read: 'image: L2', 'steps:4: S1',
           'expect:3: expected ..'; with 'fault', 'run', 'step' and 'export',
           which print it on standard output, a fault of the texts or steps, and not for warnings;
           with 'step', a line that failed, unless standard input is a terminal
  2        a mistake in the command line; an unknown code; OUT is a file that is read, or steps
           or a file of DIR are; a picture that begins after the last event, or has more than 40,000,000 bytes
  3        'file: NAME', a file could not be read or written ('-' is standard output, 'stdin' standard input);
           'memory'
  4        with 'diff', the runs differ; with 'expect', the run fails an expectation, with 'test' a random run;
           with 'explore', something was found
  5        'explore' found nothing and claims nothing, or had no memory to look for stuck tasks";

/// The help on STEPS.
const STEPS: &str = "Text of the events, one a line, as 'fmp sim' reads it";

/// The help on IMAGE.
const SYSTEM: &str = "Image that 'fmp build' has written; of a recording its configuration";

/// The help on STEPS where a word follows it.
const STEPS_BEFORE_MORE: &str =
    "Text of the events, one a line, as 'fmp sim' reads it; of a recording it is left out";

/// The help on `--recording`.
const RECORDING: &str = "Recording of a run whose bodies are not those of an image, as C functions:
what came, one a line, with the calls that the bodies made";

/// The help on `--events`.
const EVENTS: &str = "How many events are done at most, 0 to 2^20";

/// The help on `--calls`.
const CALLS: &str =
    "Print a table in place of the trace: who made which call, how often, and what was answered";

/// The help on `--places`.
const PLACES: &str =
    "Print where each call stands in SRC, its line and column; with --json it always is";

/// The help on `--lcov`.
const LCOV: &str =
    "Write to FILE too how often the calls in each line of SRC were made, and which ways its branches went,
as a tracefile of lcov";

/// The help on `--coverage`.
const COVERAGE: &str =
    "Write to FILE too how often each call of SRC was made and what it was answered, and which ways its
branches went, as a table";

/// The help on `--seed`.
const SEED: &str = "Order of processors at random by this number, with ticks and interrupts between;
without it they run in turn, and the clock ticks where all are idle";

/// The help on `--from`.
const FROM: &str = "First event that is drawn, 0 to 2^31; setup is 0";

/// The help on `--to`.
const TO: &str = "Last event that is drawn, 0 to 2^31; without it the last of the run.
At most 10,000 events are drawn";

/// The help on `--at`.
const AT: &str = "Event after which tasks are looked at, 0 to 2^31; without it the last of the run";

/// The help on EXPECT.
const EXPECT: &str = "Text of expectations, one a line, with comments from # on:
  never E_QOVR
  put(7) by LOGGER before put(9) by FILTER
  LOGGER runs within 3 ticks of int 4
  between put(1) and put(2) one at a time
  always LEVEL < 5 or LOGGER is READY
  end DORMANT MAIN";

/// The help on `--strict`.
const STRICT: &str =
    "Fail an expectation that says nothing of the run, since what it speaks of never happens";

/// The help on `--src` of `timeline`.
const PLACED: &str =
    "Task text of IMAGE: what is pointed at shows where its call stands there, its line and column";

/// The help on `--src` of `stats`.
const REFUSED: &str =
    "Task text of IMAGE: calls that are refused are told by their line and column there";

/// The help on `--src` of `expect`.
const JUDGED: &str =
    "Task text of IMAGE: its lines are those of 'never E_QOVR at 12', its bodies those of 'int BODY'";

/// The help on the commands of a session.
const LINES: &str = "Commands, one a line of standard input:
  run P [xK]   processor P goes on, to its next service call; K times, or until it does nothing
  tick [K]     the clock advances, K times
  int N [xK]   interrupt N is raised; N may be the body of its handler
  until DEED   all goes on until put(7), E_TMOUT or F_OVF happens, for at most 1000 events;
               'by TASK' may stand after it, and last 'within K' for K events
  back [K]     the last event is taken back, or the last K
  why          what each task waits or spins for, as 'fmp_view why' says it
  state [X]    the states of the tasks, or that of the task or object X
  load FILE    the events of a steps text
  save FILE    the events that did something, as steps for 'fmp sim' with the same bound
  help         these lines
  quit         the end, as the end of the input is

Example: fmp_view step examples/queue.cfg examples/queue.src";

/// The help on `lsp`.
const SERVED: &str =
    "An editor starts it, as editors/README.md says. It serves CFG and SRC of one name and folder that
are open there: what 'fmp_view fault' says of them, hover, completion, definition, references, rename, symbols";

/// The help on `--format`.
const FORMAT: &str = "A value change dump, for viewers of waveforms; a trace for Perfetto;
a log for TraceLogVisualizer; or the resource file of such a log";

/// The words of `--format`.
const FORMATS: &[&str] = &["vcd", "perfetto", "tlv", "res"];

/// The greatest number of an event of a run, 2^31: a recording has as many.
const RUN_EVENTS_MAX: u64 = 1 << 31;

const IMAGE: Argument = Argument(
    "IMAGE",
    ArgumentKind::Word,
    "Image that 'fmp build' has written",
);

const OF_SYSTEM: Argument = Argument("IMAGE", ArgumentKind::Word, SYSTEM);

const OF_RUN: Argument = Argument("STEPS", ArgumentKind::WordNoRecording, STEPS);

const BEFORE_MORE: Argument = Argument("STEPS", ArgumentKind::Word, STEPS_BEFORE_MORE);

const RECORDED: Argument = Argument(
    "recording",
    ArgumentKind::Option("FILE", OptionValue::Text),
    RECORDING,
);

const AT_MOST: Argument = Argument(
    "events",
    ArgumentKind::Option("N", OptionValue::Default(0, EVENTS_MAX as u64, "1000")),
    EVENTS,
);

const AT_RANDOM: Argument = Argument(
    "seed",
    ArgumentKind::Option("S", OptionValue::Number(0, u64::MAX)),
    SEED,
);

static CODE: CommandForm = CommandForm {
    name: "code",
    about: "Says what a code means, when it comes, and an example",
    arguments: &[Argument(
        "CODE",
        ArgumentKind::WordOrNegative,
        "A code as it is printed, or its number: E_PAR, -17, F_OVF, B4, L2, S1, H4",
    )],
    example: "Example: fmp_view code E_PAR",
};

static FAULT: CommandForm = CommandForm {
    name: "fault",
    about: "Shows the fault of two texts and of steps, and what was expected there; else warnings, if any",
    arguments: &[
        CFG,
        SRC,
        Argument("STEPS", ArgumentKind::MayBeWord, STEPS),
        JSON,
    ],
    example: "Example: fmp_view fault examples/queue.cfg examples/queue.src --json",
};

static RUN: CommandForm = CommandForm {
    name: "run",
    about: "Prints the trace of two texts with the names of objects, and what each task waits for",
    arguments: &[
        CFG,
        Argument(
            "SRC",
            ArgumentKind::WordNoRecording,
            "Bodies of its tasks and handlers",
        ),
        Argument(
            "STEPS",
            ArgumentKind::MayBeWord,
            "Text of the events, as 'fmp sim' reads it; without it the system is driven",
        ),
        RECORDED,
        JSON,
        Argument("places", ArgumentKind::FlagWithout("recording"), PLACES),
        Argument("lcov", ArgumentKind::TextWithout("FILE", "recording"), LCOV),
        Argument(
            "coverage",
            ArgumentKind::TextWithout("FILE", "recording"),
            COVERAGE,
        ),
        Argument("calls", ArgumentKind::FlagWithout("json"), CALLS),
        AT_MOST,
        AT_RANDOM,
        BOUNDED,
    ],
    example: "Example: fmp_view run examples/queue.cfg examples/queue.src",
};

static STEP: CommandForm = CommandForm {
    name: "step",
    about: "Takes events one by one as they are typed, and tells what each of them does",
    arguments: &[CFG, SRC, JSON, BOUNDED],
    example: LINES,
};

static LSP: CommandForm = CommandForm {
    name: "lsp",
    about: "Serves an editor over standard input and output, by the Language Server Protocol",
    arguments: &[],
    example: SERVED,
};

static DRIVE: CommandForm = CommandForm {
    name: "drive",
    about: "Prints a steps text that runs a system until it is quiet, or N events are done",
    arguments: &[IMAGE, AT_MOST, AT_RANDOM, BOUNDED],
    example: "Example: fmp_view drive queue.img --events 20 > drive.steps",
};

static WHY: CommandForm = CommandForm {
    name: "why",
    about: "Says what each task waits or spins for, who took it, and whether it is a deadlock",
    arguments: &[
        OF_SYSTEM,
        OF_RUN,
        RECORDED,
        BOUNDED,
        Argument(
            "at",
            ArgumentKind::Option("K", OptionValue::Number(0, RUN_EVENTS_MAX)),
            AT,
        ),
        JSON,
    ],
    example: "Example: fmp_view why queue.img drive.steps --at 2",
};

static DIFF: CommandForm = CommandForm {
    name: "diff",
    about: "Shows the first event in which two runs of a system differ, and the states then",
    arguments: &[
        OF_SYSTEM,
        Argument("A", ArgumentKind::Word, STEPS),
        Argument(
            "B",
            ArgumentKind::Word,
            "Text of the events of the other run",
        ),
        Argument(
            "recordings",
            ArgumentKind::Flag,
            "A and B are recordings, and IMAGE is their configuration",
        ),
        BOUNDED,
    ],
    example: "Example: fmp_view diff queue.img drive.steps other.steps",
};

static EXPECTED: CommandForm = CommandForm {
    name: "expect",
    about: "Says which line of a text of expectations a run fails first, and in which event",
    arguments: &[
        OF_SYSTEM,
        BEFORE_MORE,
        RECORDED,
        BOUNDED,
        Argument("EXPECT", ArgumentKind::WordNoRecording, EXPECT),
        Argument("src", ArgumentKind::TextWithout("SRC", "recording"), JUDGED),
        Argument("strict", ArgumentKind::Flag, STRICT),
        JSON,
        JUNIT,
        NO_SETTINGS,
    ],
    example: "Example: fmp_view expect queue.img drive.steps queue.expect",
};

static STATS: CommandForm = CommandForm {
    name: "stats",
    about: "Prints a table of what each task of a run did, and the calls that were refused",
    arguments: &[
        OF_SYSTEM,
        OF_RUN,
        RECORDED,
        BOUNDED,
        Argument(
            "src",
            ArgumentKind::TextWithout("SRC", "recording"),
            REFUSED,
        ),
        JSON,
    ],
    example: "Example: fmp_view stats queue.img drive.steps --src examples/queue.src",
};

static WAVES: CommandForm = CommandForm {
    name: "waves",
    about: "Writes a run for viewers of waveforms and of traces",
    arguments: &[
        OF_SYSTEM,
        BEFORE_MORE,
        RECORDED,
        BOUNDED,
        Argument("OUT", ArgumentKind::WordNoRecording, "File that is written"),
        Argument(
            "format",
            ArgumentKind::Option("FORMAT", OptionValue::OneOf(FORMATS, "vcd")),
            FORMAT,
        ),
    ],
    example: "Example: fmp_view waves queue.img drive.steps queue.vcd",
};

static TIMELINE: CommandForm = CommandForm {
    name: "timeline",
    about: "Writes a run as a picture for browsers: states, calls, and who did what to whom",
    arguments: &[
        OF_SYSTEM,
        BEFORE_MORE,
        RECORDED,
        BOUNDED,
        Argument(
            "OUT",
            ArgumentKind::WordNoRecording,
            "File that the picture, an SVG, or the page is written to",
        ),
        Argument(
            "from",
            ArgumentKind::Option("K", OptionValue::Default(0, RUN_EVENTS_MAX, "0")),
            FROM,
        ),
        Argument(
            "to",
            ArgumentKind::Option("K", OptionValue::Number(0, RUN_EVENTS_MAX)),
            TO,
        ),
        Argument("src", ArgumentKind::TextWithout("SRC", "recording"), PLACED),
        Argument(
            "objects",
            ArgumentKind::Flag,
            "Draw semaphores, eventflags, data queues, mailboxes and shared words too",
        ),
        Argument(
            "html",
            ArgumentKind::Flag,
            "Write a page around the picture that shows each state and what happened;
objects are drawn too",
        ),
    ],
    example: "Example: fmp_view timeline queue.img drive.steps queue.svg --from 2 --to 5",
};

/// The command `run`.
pub fn run_command<'a>(alloc: Global) -> Made<'a> {
    command_of(alloc, &RUN)
}

/// The command `expect`.
pub fn expect_command<'a>(alloc: Global) -> Made<'a> {
    command_of(alloc, &EXPECTED)
}

/// The command `waves`.
pub fn waves_command<'a>(alloc: Global) -> Made<'a> {
    command_of(alloc, &WAVES)
}

/// The command `timeline`.
pub fn timeline_command<'a>(alloc: Global) -> Made<'a> {
    command_of(alloc, &TIMELINE)
}

/// The command line with none of its commands yet.
fn bare<'a>(alloc: Global) -> Command<'a>
    ensures { app_of result ≡ bare }
{
    Command::new(alloc, "fmp_view")
        .version("0.1.0")
        .about(ABOUT)
        .after_help(EXAMPLE_AND_STATUS)
        .subcommand_required(true)
        .arg_required_else_help(true)
}

/// The commands, but for `import`.
pub fn forms() -> [&'static CommandForm; 15]
    ensures { (ticks formats : Choices) × (map (λ form. app_of_form form.now) result ≡ commands ticks formats) }
{
    [
        &CODE, &FAULT, &RUN, &STEP, &LSP, &DRIVE, &WHY, &EXPLORE, &DIFF, &EXPECTED, &TEST, &STATS,
        &WAVES, &TIMELINE, &EXPORT,
    ]
}

/// The command line with these commands, which take a number below 0 for an option.
fn with_plain<'a>(program: Command<'a>, alloc: Global, forms: &[&'static CommandForm]) -> Made<'a>
    ensures { IfOk result (λ grown. app_of grown ≡
        fold with_command (app_of program.entry) (map (λ form. app_of_form form.now) forms.now)) }
{
    let mut program = program;
    for form in forms {
        program = program.subcommand(plain_command_of(alloc, form)?)?;
    }
    Ok(program)
}

/// The whole command line, which takes a number below 0 for an option. `AllocError` if memory runs out.
pub fn plain_program<'a>(alloc: Global) -> Made<'a>
    ensures { IfOk result (λ program. IsForm (app_of program)) }
{
    let program = with_plain(bare(alloc), alloc, &forms())?;
    program.subcommand(import_command(alloc)?)
}

/// The whole command line, which takes a number below 0 for a number where one may stand. `AllocError` if memory runs
/// out.
pub fn program<'a>(alloc: Global) -> Made<'a> {
    let mut program = bare(alloc);
    for form in forms() {
        program = program.subcommand(command_of(alloc, form)?)?;
    }
    program.subcommand(import_command(alloc)?)
}
