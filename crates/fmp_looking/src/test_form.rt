//! The form of the command `test`.
use fmp_arguments::{
    Argument, ArgumentKind, BOUNDED, CFG, CommandForm, EVENTS_MAX, JSON, JUNIT, Made, NO_SETTINGS,
    OptionValue, SRC, command_of,
};
use std::alloc::Global;

/// What a text of expectations is.
const EXPECT: &str =
    "Text of expectations, one a line, as 'fmp_view expect' reads it; but none may begin with 'end'";

/// How many runs there are.
const SEEDS: &str = "How many runs are made, 1 to 2^32 - 1: each goes by its number, its seed";

/// How long a run is.
const EVENTS: &str = "How many events a run has at most, 1 to 2^20";

/// How many threads make runs.
const JOBS: &str =
    "How many threads make runs, 1 to 64; what is found and printed is the same for each number";

/// How often the clock advances.
const TICKS: &str =
    "The clock advances once in N events on average, 2 to 2^32 - 1, and where all are idle; at 0 only there";

/// How often an interrupt comes.
const INT: &str =
    "Interrupt I comes once in N events on average, 2 to 2^32 - 1; it may be given once for each interrupt.
Without it each interrupt that has a handler comes once in 50 events";

/// What a tracefile is.
const LCOV: &str =
    "Write to FILE too how often the calls in each line of SRC were made, and which ways its branches went,
in all runs together, as a tracefile of lcov";

/// What a table of coverage is.
const COVERAGE: &str =
    "Write to FILE too how often each call of SRC was made and what it was answered, and which ways its
branches went, in all runs together, as a table";

/// The command `test` as help shows it.
pub static TEST: CommandForm = CommandForm {
    name: "test",
    about: "Makes random runs, and prints the steps of the first that fails an expectation, made shorter",
    arguments: &[
        CFG,
        SRC,
        Argument(
            "expect",
            ArgumentKind::Option("FILE", OptionValue::Text),
            EXPECT,
        ),
        Argument(
            "seeds",
            ArgumentKind::Option("N", OptionValue::Default(1, u32::MAX as u64, "1000")),
            SEEDS,
        ),
        Argument(
            "events",
            ArgumentKind::Option("N", OptionValue::Default(1, EVENTS_MAX as u64, "1000")),
            EVENTS,
        ),
        Argument(
            "every-tick",
            ArgumentKind::Option("N", OptionValue::Default(0, u32::MAX as u64, "20")),
            TICKS,
        ),
        Argument("int", ArgumentKind::Again("I:N"), INT),
        BOUNDED,
        Argument(
            "jobs",
            ArgumentKind::Option("N", OptionValue::Default(1, 64, "1")),
            JOBS,
        ),
        JSON,
        JUNIT,
        Argument(
            "lcov",
            ArgumentKind::Option("FILE", OptionValue::Text),
            LCOV,
        ),
        Argument(
            "coverage",
            ArgumentKind::Option("FILE", OptionValue::Text),
            COVERAGE,
        ),
        NO_SETTINGS,
    ],
    example: "Example: fmp_view test examples/queue.cfg examples/queue.src --expect queue.expect > found.steps",
};

/// The command `test`.
pub fn test_command<'a>(alloc: Global) -> Made<'a> {
    command_of(alloc, &TEST)
}
