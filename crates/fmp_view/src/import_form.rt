//! The form of the command `import`, of which an option has a short name.
ghost use Rattle.std.specs.Prelude.{◌≡◌, IfOk, IsFalse, codes};
ghost use Rattle.clap.specs.Words.{app_of, rule_of};
ghost use Rattle.fmp_arguments.specs.Forms.{text};
ghost use Rattle.fmp_view.specs.Form.{define, import};

use clap::{Arg, ArgAction};
use fmp_arguments::{Argument, ArgumentKind, CommandForm, Made, plain_command_of};
use std::alloc::Global;

/// The help on `--define`.
const DEFINE: &str =
    "Value of a constant of CFG, before those of the files that it includes; it may be given again";

/// The help on CFG.
const FOREIGN: &str = "Configuration of TOPPERS or uITRON; files that it includes stand beside it";

/// The help on `--out`.
const IMPORTED: &str = "File that gets the configuration; without it standard output does";

/// The command `import` without its options.
static IMPORT: CommandForm = CommandForm {
    name: "import",
    about: "Makes a configuration of TOPPERS/FMP, FMP3 or uITRON 4.0 one of this project, and says what is left out",
    arguments: &[Argument("CFG", ArgumentKind::Word, FOREIGN)],
    example: "Example: fmp_view import sample1.cfg --define LOGTASK_PRIORITY=3 --out sample1.fmp.cfg",
};

/// The option for constants.
fn define<'a>(alloc: Global) -> Arg<'a>
    ensures rule { rule_of result ≡ define }
    ensures local { IsFalse result.global }
{
    Arg::new(alloc, "define")
        .short('D')
        .long("define")
        .value_name("NAME=VALUE")
        .help(DEFINE)
        .action(ArgAction::Append)
}

/// The option for the file that is written.
fn out<'a>(alloc: Global) -> Arg<'a>
    ensures rule { rule_of result ≡ text (codes "out") }
    ensures local { IsFalse result.global }
{
    Arg::new(alloc, "out")
        .long("out")
        .value_name("OUT")
        .help(IMPORTED)
}

/// The command `import`, which has no numbers. `AllocError` if memory runs out.
pub fn import_command<'a>(alloc: Global) -> Made<'a>
    ensures { IfOk result (λ command. app_of command ≡ import) }
{
    plain_command_of(alloc, &IMPORT)?
        .arg(define(alloc))?
        .arg(out(alloc))
}
