//! The form of the command `export`.
use fmp_arguments::{Argument, ArgumentKind, CFG, CommandForm, Made, SRC, command_of};
use std::alloc::Global;

/// The help on `--c`.
const DIR: &str =
    "Folder that gets bodies.h, bodies.c, main.c, Makefile, and the two texts as system.cfg and system.src, in
place of files of these names; but a main.c that is there is kept. The folder is made if it is not there";

/// The help on `--toppers`.
const TARGET_DIR: &str =
    "Folder that gets system.cfg, bodies.h and bodies.c for TOPPERS/FMP 1, in place of
files of these names. The folder is made if it is not there";

/// The help on `--line-directives`.
const LINE_DIRECTIVES: &str = "Let a debugger show the lines of system.src";

/// The help on `--fmp3`.
const FMP3: &str = "Write them for TOPPERS/FMP3";

/// The command `export`.
pub static EXPORT: CommandForm = CommandForm {
    name: "export",
    about: "Writes the bodies of a text as C, with what builds and runs them on the library for C",
    arguments: &[
        CFG,
        SRC,
        Argument("c", ArgumentKind::Either("DIR", "toppers"), DIR),
        Argument("toppers", ArgumentKind::Either("DIR", "c"), TARGET_DIR),
        Argument("fmp3", ArgumentKind::FlagWithout("c"), FMP3),
        Argument(
            "line-directives",
            ArgumentKind::FlagWithout("toppers"),
            LINE_DIRECTIVES,
        ),
    ],
    example: "Example: fmp_view export examples/queue.cfg examples/queue.src --c queue",
};

/// The command `export`.
pub fn export_command<'a>(alloc: Global) -> Made<'a> {
    command_of(alloc, &EXPORT)
}
