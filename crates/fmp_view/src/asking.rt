//! What the program is asked to do.
ghost use Rattle.std.specs.Prelude.{◌≡◌, IsSome, IsSomeAnd, List, Some, codes};
ghost use Rattle.clap.specs.Words.{Row, found_of, rows_of, subcommand_rows_of};
ghost use Rattle.fmp_searching.specs.Explored.{IsForm};
ghost use Rattle.fmp_view.specs.Asked.{AsksToDiff, AsksToExpect, AsksToExplore, AsksToTest, AsksToWhy};
ghost use Rattle.fmp_view.specs.Asked.{IsExpecting, IsPair, IsPairBound, IsRun, word_after};
ghost use Rattle.fmp_view.specs.Runs.{came_of, system_of};

use crate::exporting::Exporting;
use crate::importing::Importing;
use crate::targeting::Targeting;
use clap::ArgMatches;
use fmp_arguments::{bound_of, entered, flag_of, text_of, word_of, word32_of, word64_of, words_of};
use fmp_looking::{
    CoverageFiles, Drawing, Driving, Format, Running, Testing, TraceFormat, files_of, testing_of,
};
use fmp_searching::{Exploring, exploring_of};
use fmp_timeline::Choice;
use fmp_toppers::Target;
use fmp_warnings::{FileNames, Form};

/// What a run is of: the names of its files.
#[derive(Clone, Copy)]
pub enum RunFiles<'a> {
    /// An image over a steps text, with this bound of a stretch, 1 to 2^48.
    Steps {
        image: &'a str,
        steps: &'a str,
        bound: u64,
    },
    /// The system of a configuration, as it was recorded.
    Recording {
        cfg: &'a str,
        recording: &'a str,
    },
}

impl<'a> RunFiles<'a> {
    /// The names of its two files: of the system, and of what came to it.
    pub fn files(self) -> (&'a str, &'a str)
        ensures system { result.0.now ≡ system_of self.entry }
        ensures came { result.1.now ≡ came_of self.entry }
    {
        match self {
            RunFiles::Steps { image, steps, .. } => (image, steps),
            RunFiles::Recording { cfg, recording } => (cfg, recording),
        }
    }
}

/// What two runs of one system are of: the names of their files.
#[derive(Clone, Copy)]
pub struct RunPair<'a> {
    /// The image, or the configuration.
    pub system: &'a str,
    pub a: &'a str,
    pub b: &'a str,
    /// The bound of a stretch, 1 to 2^48; none where the runs are recordings.
    pub bound: Option<u64>,
}

/// What is expected of a run, and how what it comes to is told.
#[derive(Clone, Copy)]
pub struct Expecting<'a> {
    /// The file of the text of expectations.
    pub name: &'a str,
    /// Whether an expectation fails that says nothing of the run.
    pub strict: bool,
    /// An object of JSON for each expectation, or the text of the first that fails.
    pub form: Form,
    /// The file of a report in the XML of JUnit, if one is written.
    pub junit: Option<&'a str>,
    /// The file of the text of the bodies, which tells where calls stand.
    pub src: Option<&'a str>,
}

/// A picture of a run.
#[derive(Clone, Copy)]
pub struct Picturing<'a> {
    pub run: RunFiles<'a>,
    /// The file to which it is written.
    pub out: &'a str,
    pub drawing: Drawing,
    /// The task text in which the positions of calls are shown, if there is one.
    pub src: Option<&'a str>,
}

/// A session over the system of two texts.
#[derive(Clone, Copy)]
pub struct StepWords<'a> {
    /// The names of the files of the texts.
    pub names: FileNames<'a>,
    /// Whether answers are for readers, or objects of JSON.
    pub form: Form,
    /// The bound of a stretch, 1 to 2^48.
    pub bound: u64,
}

/// What the program is asked to do.
#[derive(Clone, Copy)]
pub enum Cmd<'a> {
    /// Explore the schedules of two texts.
    Explore(Exploring<'a>),
    /// Look at a system or at a run.
    Look(Asked<'a>),
}

/// How the program is asked to look at a system or at a run.
#[derive(Clone, Copy)]
pub enum Asked<'a> {
    /// Say what the code of this word means.
    Code(&'a str),
    /// Write the bodies of a text as C to a folder.
    Export(Exporting<'a>),
    /// Write the files of a system for TOPPERS/FMP to a folder.
    Target(Targeting<'a>),
    /// Make a configuration of TOPPERS or uITRON one of this project.
    Import(Importing<'a>),
    /// Show the fault of the texts of these files, and of steps if there are steps, or their warnings.
    Fault(FileNames<'a>, Form),
    /// Print the trace of a run of the texts of these files, over the steps if there are steps, and write its coverage
    /// where that is asked for.
    Run(FileNames<'a>, Running, CoverageFiles<'a>),
    /// Print the trace of a recorded run of a system.
    Recorded(RunFiles<'a>, Form),
    /// Print the table of the calls of a recorded run of a system.
    Calls(RunFiles<'a>),
    /// Take commands of standard input on the system of two texts.
    Step(StepWords<'a>),
    /// Serve an editor over standard input and output.
    Serve,
    /// Print steps of the image of this file.
    Drive(&'a str, Driving),
    /// Say what each task waits or spins for after an event of a run, by its number, or after the last one.
    Why(RunFiles<'a>, Option<u32>, Form),
    /// Say whether a run meets expectations.
    Expect(RunFiles<'a>, Expecting<'a>),
    /// Make random runs of two texts, and print the steps of the first that fails an expectation.
    Test(Testing<'a>),
    /// Show the first event in which two runs of a system differ.
    Diff(RunPair<'a>),
    /// Print the table of a run, and the calls that were refused, by where they stand in the text of this file if there
    /// is one.
    Stats(RunFiles<'a>, Option<&'a str>, Form),
    /// Write a run to a file, for viewers of waveforms or of traces.
    Waves(RunFiles<'a>, &'a str, Format),
    /// Write the picture of a run to a file.
    Timeline(Picturing<'a>),
}

/// What a run is of.
fn run_of<'a>(words: &ArgMatches<'a>) -> RunFiles<'a>
    ensures { IsRun (rows_of (found_of words.now)) result }
{
    match text_of(words, "recording") {
        Some(recording) => RunFiles::Recording {
            cfg: word_of(words, "IMAGE"),
            recording,
        },
        None => RunFiles::Steps {
            image: word_of(words, "IMAGE"),
            steps: word_of(words, "STEPS"),
            bound: bound_of(words),
        },
    }
}

/// The word after those that name a run, for the argument of this name: of a recording there are no steps, so the word
/// stands in their place.
fn after_run<'a>(words: &ArgMatches<'a>, run: RunFiles<'a>, id: &str) -> &'a str
    ensures { result.now ≡ word_after (rows_of (found_of words.now)) run.entry id.now }
{
    match run {
        RunFiles::Steps { .. } => word_of(words, id),
        RunFiles::Recording { .. } => word_of(words, "STEPS"),
    }
}

/// What two runs are of.
fn runs_of<'a>(words: &ArgMatches<'a>) -> RunPair<'a>
    ensures { IsPair (rows_of (found_of words.now)) result }
{
    RunPair {
        system: word_of(words, "IMAGE"),
        a: word_of(words, "A"),
        b: word_of(words, "B"),
        bound: pair_bound(words, flag_of(words, "recordings")),
    }
}

/// The bound of a stretch, unless two runs are recordings.
fn pair_bound(words: &ArgMatches<'_>, recordings: bool) -> Option<u64>
    ensures { IsPairBound (rows_of (found_of words.now)) recordings result }
{
    if recordings {
        None
    } else {
        Some(bound_of(words))
    }
}

/// What is drawn: a page has the objects too.
fn drawing_of(words: &ArgMatches<'_>) -> Drawing {
    let html = flag_of(words, "html");
    Drawing {
        choice: Choice {
            first: word32_of(words, "from").unwrap_or(0),
            last: word32_of(words, "to").unwrap_or(u32::MAX),
        },
        objects: html || flag_of(words, "objects"),
        html,
    }
}

/// The format that the command line asks for: where it names none, that of waveforms.
fn format_of(words: &ArgMatches<'_>) -> Format {
    match word_of(words, "format") {
        "perfetto" => Format::Trace(TraceFormat::Events),
        "tlv" => Format::Trace(TraceFormat::Log),
        "res" => Format::Trace(TraceFormat::Resources),
        _ => Format::Dump,
    }
}

/// The form that the command line asks for.
fn form_of(words: &ArgMatches<'_>) -> Form
    ensures { IsForm (rows_of (found_of words.now)) result }
{
    if flag_of(words, "json") {
        Form::Json
    } else {
        Form::Text
    }
}

/// The names of the files of texts, and of steps if there are steps.
fn names_of<'a>(words: &ArgMatches<'a>) -> FileNames<'a> {
    FileNames {
        cfg: word_of(words, "CFG"),
        src: word_of(words, "SRC"),
        steps: word_of(words, "STEPS"),
    }
}

/// What is exported, and where to.
fn exporting_of<'a>(words: &ArgMatches<'a>) -> Exporting<'a> {
    Exporting {
        names: names_of(words),
        folder: word_of(words, "c"),
        lines: flag_of(words, "line-directives"),
    }
}

/// The kernel that is exported for.
fn target_of(words: &ArgMatches<'_>) -> Target {
    if flag_of(words, "fmp3") {
        Target::Fmp3
    } else {
        Target::Fmp1
    }
}

/// Which export is asked for.
fn export_asked<'a>(words: &ArgMatches<'a>) -> Asked<'a> {
    match text_of(words, "toppers") {
        Some(folder) => Asked::Target(Targeting {
            names: names_of(words),
            folder,
            target: target_of(words),
        }),
        None => Asked::Export(exporting_of(words)),
    }
}

/// What is imported.
fn importing_of<'m>(words: &'m ArgMatches<'_>) -> Importing<'m> {
    Importing {
        cfg: word_of(words, "CFG"),
        constants: words_of(words, "define"),
        out: text_of(words, "out"),
    }
}

/// How the system of two texts is run.
fn running_of(words: &ArgMatches<'_>) -> Running {
    Running {
        form: form_of(words),
        calls: flag_of(words, "calls"),
        positions: flag_of(words, "places"),
        coverage: text_of(words, "coverage").is_some(),
        lcov: text_of(words, "lcov").is_some(),
        events: word32_of(words, "events").unwrap_or(0),
        seed: word64_of(words, "seed"),
        bound: bound_of(words),
    }
}

/// What `run` asks for of a recorded run.
fn recorded_asked<'a>(words: &ArgMatches<'a>, run: RunFiles<'a>) -> Asked<'a> {
    if flag_of(words, "calls") {
        Asked::Calls(run)
    } else {
        Asked::Recorded(run, form_of(words))
    }
}

/// What `run` asks for.
fn run_asked<'a>(words: &ArgMatches<'a>) -> Asked<'a> {
    match text_of(words, "recording") {
        Some(recording) => {
            let cfg = word_of(words, "CFG");
            recorded_asked(words, RunFiles::Recording { cfg, recording })
        }
        None => Asked::Run(names_of(words), running_of(words), files_of(words)),
    }
}

/// What `lsp` asks for, with no words.
fn serve_asked<'a>(_words: &ArgMatches<'a>) -> Asked<'a> {
    Asked::Serve
}

/// What `why` asks for.
fn why_asked<'a>(words: &ArgMatches<'a>) -> Cmd<'a>
    ensures { AsksToWhy (rows_of (found_of words.now)) result }
{
    let run = run_of(words);
    Cmd::Look(Asked::Why(run, word32_of(words, "at"), form_of(words)))
}

/// What is expected of a run.
fn expecting_of<'a>(words: &ArgMatches<'a>, run: RunFiles<'a>) -> Expecting<'a>
    ensures { IsExpecting (rows_of (found_of words.now)) run.entry result }
{
    Expecting {
        name: after_run(words, run, "EXPECT"),
        strict: flag_of(words, "strict"),
        form: form_of(words),
        junit: text_of(words, "junit"),
        src: text_of(words, "src"),
    }
}

/// What `expect` asks for.
fn expect_asked<'a>(words: &ArgMatches<'a>) -> Cmd<'a>
    ensures { AsksToExpect (rows_of (found_of words.now)) result }
{
    let run = run_of(words);
    Cmd::Look(Asked::Expect(run, expecting_of(words, run)))
}

/// What `timeline` asks for.
fn timeline_asked<'a>(words: &ArgMatches<'a>) -> Asked<'a> {
    let run = run_of(words);
    Asked::Timeline(Picturing {
        run,
        out: after_run(words, run, "OUT"),
        drawing: drawing_of(words),
        src: text_of(words, "src"),
    })
}

/// What `step` asks for.
fn step_words<'a>(words: &ArgMatches<'a>) -> StepWords<'a> {
    StepWords {
        names: names_of(words),
        form: form_of(words),
        bound: bound_of(words),
    }
}

/// How `drive` drives an image.
fn driving_of(words: &ArgMatches<'_>) -> Driving {
    Driving {
        events: word32_of(words, "events").unwrap_or(0),
        seed: word64_of(words, "seed"),
        bound: bound_of(words),
    }
}

/// What `waves` asks for.
fn waves_asked<'a>(words: &ArgMatches<'a>) -> Asked<'a> {
    let run = run_of(words);
    Asked::Waves(run, after_run(words, run, "OUT"), format_of(words))
}

/// What a subcommand of this name that neither searches nor judges asks for with its words.
fn look_of<'m>(name: &str, words: &'m ArgMatches<'_>) -> Asked<'m> {
    match name {
        "code" => Asked::Code(word_of(words, "CODE")),
        "export" => export_asked(words),
        "import" => Asked::Import(importing_of(words)),
        "fault" => Asked::Fault(names_of(words), form_of(words)),
        "run" => run_asked(words),
        "step" => Asked::Step(step_words(words)),
        "lsp" => serve_asked(words),
        "drive" => Asked::Drive(word_of(words, "IMAGE"), driving_of(words)),
        "stats" => Asked::Stats(run_of(words), text_of(words, "src"), form_of(words)),
        "timeline" => timeline_asked(words),
        _ => waves_asked(words),
    }
}

/// What a subcommand of this name asks for with its words.
fn asked_by<'m>(name: &str, words: &'m ArgMatches<'_>) -> Cmd<'m>
    ensures explore { name.now ≡ codes "explore" → AsksToExplore (rows_of (found_of words.now)) result }
    ensures diff { name.now ≡ codes "diff" → AsksToDiff (rows_of (found_of words.now)) result }
    ensures why { name.now ≡ codes "why" → AsksToWhy (rows_of (found_of words.now)) result }
    ensures expect { name.now ≡ codes "expect" → AsksToExpect (rows_of (found_of words.now)) result }
    ensures tests { name.now ≡ codes "test" → AsksToTest (rows_of (found_of words.now)) result }
{
    match name {
        "explore" => Cmd::Explore(exploring_of(words)),
        "diff" => Cmd::Look(Asked::Diff(runs_of(words))),
        "why" => why_asked(words),
        "expect" => expect_asked(words),
        "test" => Cmd::Look(Asked::Test(testing_of(words))),
        _ => Cmd::Look(look_of(name, words)),
    }
}

/// What the words of a command line ask for; nothing, if they name no command.
pub fn command<'m>(words: &'m ArgMatches<'_>) -> Option<Cmd<'m>>
    ensures explore { (rows : List Row) → subcommand_rows_of words.now ≡ Some (codes "explore", rows) →
        IsSomeAnd result (AsksToExplore rows) }
    ensures diff { (rows : List Row) → subcommand_rows_of words.now ≡ Some (codes "diff", rows) →
        IsSomeAnd result (AsksToDiff rows) }
    ensures why { (rows : List Row) → subcommand_rows_of words.now ≡ Some (codes "why", rows) →
        IsSomeAnd result (AsksToWhy rows) }
    ensures expect { (rows : List Row) → subcommand_rows_of words.now ≡ Some (codes "expect", rows) →
        IsSomeAnd result (AsksToExpect rows) }
    ensures tests { (rows : List Row) → subcommand_rows_of words.now ≡ Some (codes "test", rows) →
        IsSomeAnd result (AsksToTest rows) }
    ensures entered { IsSome result → IsSome (subcommand_rows_of words.now) }
{
    match entered(words) {
        Some((name, words)) => Some(asked_by(name, words)),
        None => None,
    }
}
