//! The form of the command `explore`.
use fmp_arguments::{
    Argument, ArgumentKind, BOUNDED, CFG, CommandForm, JSON, Made, NO_SETTINGS, OptionValue, SRC,
    command_of,
};
use std::alloc::Global;

/// The help on `--never`.
const NEVER: &str =
    "What must never happen: an answer, as E_QOVR, or E_TMOUT:12 for the calls in line 12 of SRC;
or a printed value, as 'put(99)'; it may be given again. That a body stops with a fault must
never happen anyway";

/// The help on `--alone`.
const ALONE: &str =
    "One task at a time may be between 'put(A)' and 'put(B)': A,B are two different values, as 1,2.
A task is there from its 'put(A)' to its 'put(B)' or its end. It may be given again, at most 4 times";

/// The help on `--expect`.
const EXPECT: &str =
    "A file of sentences that must hold, a line each, as 'expect' reads them: 'A before B',
'always X < 5' and others, but for 'end'. 'TASK rests' is as --rest TASK, and
'never E_TMOUT at 12' as --never E_TMOUT:12";

/// The help on `--rest`.
const REST: &str =
    "Name of a task that may wait forever, as servers do: it makes no deadlock, may be stuck, and may go
on for ever without a call; it may be given again";

/// The help on `--ticks`.
const TICKS: &str =
    "When the clock may advance: at any time, or only where all processors are idle";

/// The words of `--ticks`.
const TICKS_WHEN: &[&str] = &["any", "idle"];

/// The help on `--ints`.
const INTS: &str = "How many interrupts there may be, 0 to 255; without it any number";

/// The help on `--int`.
const INT: &str =
    "At most COUNT of interrupt N may come, as 3:2; it may be given again. N is 1 to 32, and
COUNT 0 to 2^32 - 1";

/// The help on `--gap`.
const GAP: &str =
    "At least T ticks come between two of interrupt N, as 3:5; it may be given again. N is 1 to 32,
and T 0 to 2^32 - 1";

/// The help on `--queued`.
const QUEUED: &str =
    "How many activations and how many wakeups of a task may be queued, 0 to 255: events that
would queue more do not come; without it any number";

/// The help on `--states`.
const STATES: &str = "How many states are kept at most, 1 to 2^31";

/// The help on `--time`.
const TIME: &str = "How many seconds the search takes at most, 1 to 2^31; without it any number";

/// The help on `--jobs`.
const JOBS: &str =
    "How many threads search, 1 to 64; what is found and claimed is the same for each number";

/// The help on `--strict`.
const STRICT: &str = "Count it as a finding where what a sentence speaks of never happens at all";

/// The help on `--junit`.
const JUNIT: &str =
    "Write a report to FILE too, in the XML of JUnit: each sentence is a test, and what else
is asked";

/// The help on `--out`.
const OUT: &str = "The steps of the findings are written to NAME.1 and on; without it NAME is that
of CFG, with '.found' in place of '.cfg'";

/// The command `explore` as help shows it.
pub static EXPLORE: CommandForm = CommandForm {
    name: "explore",
    about: "Looks at every schedule for deadlocks, stuck tasks, faults and what must never happen",
    arguments: &[
        CFG,
        SRC,
        Argument("never", ArgumentKind::Again("WHAT"), NEVER),
        Argument("alone", ArgumentKind::Again("A,B"), ALONE),
        Argument("rest", ArgumentKind::Again("TASK"), REST),
        Argument(
            "expect",
            ArgumentKind::Option("FILE", OptionValue::Text),
            EXPECT,
        ),
        Argument(
            "ticks",
            ArgumentKind::Option("WHEN", OptionValue::OneOf(TICKS_WHEN, "any")),
            TICKS,
        ),
        Argument(
            "ints",
            ArgumentKind::Option("K", OptionValue::Number(0, 255)),
            INTS,
        ),
        Argument("int", ArgumentKind::Again("N:COUNT"), INT),
        Argument("gap", ArgumentKind::Again("N:T"), GAP),
        Argument(
            "queued",
            ArgumentKind::Option("K", OptionValue::Number(0, 255)),
            QUEUED,
        ),
        BOUNDED,
        Argument(
            "states",
            ArgumentKind::Option("S", OptionValue::Default(1, 1 << 31, "16777216")),
            STATES,
        ),
        Argument(
            "time",
            ArgumentKind::Option("S", OptionValue::Number(1, 1 << 31)),
            TIME,
        ),
        Argument(
            "jobs",
            ArgumentKind::Option("N", OptionValue::Default(1, 64, "1")),
            JOBS,
        ),
        Argument(
            "all",
            ArgumentKind::Flag,
            "Go on after the first finding, for the first of each kind at each call",
        ),
        Argument(
            "answers",
            ArgumentKind::Flag,
            "Print the answers that each call ever gets, by its line of SRC",
        ),
        Argument("strict", ArgumentKind::Flag, STRICT),
        Argument("out", ArgumentKind::Option("NAME", OptionValue::Text), OUT),
        JSON,
        Argument(
            "junit",
            ArgumentKind::Option("FILE", OptionValue::Text),
            JUNIT,
        ),
        NO_SETTINGS,
    ],
    example: "Example: fmp_view explore examples/queue.cfg examples/queue.src --never E_TMOUT",
};

/// The command `explore`.
pub fn explore_command<'a>(alloc: Global) -> Made<'a> {
    command_of(alloc, &EXPLORE)
}
