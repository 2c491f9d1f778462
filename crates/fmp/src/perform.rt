//! Carrying out a command, from the bytes that were read to those that are to be written.
ghost use Rattle.std.specs.Prelude.{◌≡◌, ◌≢◌, ◌++◌, ℕ, List, [], None, OnOk, IfErr, IfOk, IfSome, codes, decimal};
ghost use Rattle.std.specs.Prelude.{length, map, string_bytes, IsTrue};
ghost use Rattle.fmp_image.specs.Building.{IsBuildFault};
ghost use Rattle.fmp_engine.specs.Counts.{CountsSteps};
ghost use Rattle.fmp_engine.specs.Hosting.{IsWhyHost, IsWorkload};
ghost use Rattle.fmp_engine.specs.Simulations.{IsWhySim};
ghost use Rattle.fmp.specs.CommandRanges.{IsBound, IsCount, IsInterrupt, KeepsRanges};
ghost use Rattle.fmp.specs.Commands.{input_count, output_of};
ghost use Rattle.fmp.specs.Performed.{BuildsFile, CarriesOut, Checks, HostsImage, IsWhyNoImage, IsWhyNoRun, IsWhyNot};
ghost use Rattle.fmp.specs.Performed.{IsWhyNotHosted, IsWhyNotRun, RunsImage, RunsTexts, status_of, work_of};
ghost use Rattle.fmp.specs.declared.perform.Exit.TheVariants.{Failed};
ghost use Rattle.fmp.specs.Runs.{tells};
ghost use Rattle.fmp.specs.Giving.{GivesText, IsStopped, IsWhyCut};

use crate::asking::Cmd;
use fmp_engine::{
    EventCounts, HostFault, Hosted, Outlet, SimCut, SimFault, Workload, build_image, check, host,
    sim_into,
};
use fmp_files::{Failure, Reason};
use fmp_hostrun::Pace;
use fmp_lex::BuildFault;
use std::alloc::{AllocError, Global};
use std::error::Error;
use std::fmt::{self, Display, Formatter, Write};
use std::sync::Wait;
use std::thread::Threads;

/// The configuration of the run that the program holds.
pub const STORED_CONFIG: &str =
    "NUM_PRC(1); CLASS(TCL_1) { CRE_TSK(T1,{TA_ACT,0,main,10,256,NULL}); }";

/// The bodies of its tasks.
pub const STORED_TASKS: &str = "task main { put(7); }";

/// Its events.
pub const STORED_STEPS: &str = "run 1\nrun 1\nrun 1\n";

/// Its bound, in instructions per stretch.
pub const STORED_BOUND: u64 = 100_000;

/// The most interrupts that a host raises.
pub const INTERRUPTS_MAX: u32 = 65_536;

/// Why the program ends with nothing printed: its message is one line.
#[derive(Debug, Drop)]
pub enum Exit {
    /// The texts build no image.
    Build(BuildFault),
    /// The image is not run.
    Sim(SimFault),
    /// The image is not run by threads.
    Host(HostFault),
    /// A file could not be read or written, or memory ran out.
    Failed(Failure),
}

impl Display for Exit {
    ghost use Rattle.std.specs.Prelude.{Some};
    ghost use Rattle.fmp.specs.Messages.{exit_message};

    ghost output = { λ exit. Some (exit_message exit) };

    /// The message of the fault or the failure.
    fn fmt<W: Write>(&self, f: &mut Formatter<W>) -> fmt::Result {
        match self {
            Exit::Build(fault) => write!(f, "{fault}"),
            Exit::Sim(fault) => write!(f, "{fault}"),
            Exit::Host(fault) => write!(f, "{fault}"),
            Exit::Failed(failure) => write!(f, "{failure}"),
        }
    }
}

impl Error for Exit {}

impl From<Failure> for Exit {
    ghost from_gives = { λ failure exit. exit ≡ Failed failure };

    fn from(failure: Failure) -> Self {
        Exit::Failed(failure)
    }
}

impl Reason for Exit {
    ghost status_of = { λ exit. status_of exit };

    /// The status that the program ends with: 1 for a fault of what was read or if there is no host for what was asked,
    /// 3 for a failure.
    fn status(&self) -> u8 {
        match self {
            Exit::Build(_) | Exit::Sim(_) | Exit::Host(_) => 1,
            Exit::Failed(_) => 3,
        }
    }
}

/// Why an outlet was not given all that a command prints.
#[derive(Drop)]
pub enum CommandCut {
    /// The command was not carried out, and the outlet was given nothing.
    Refused(Exit),
    /// The outlet took no more.
    Stopped,
}

/// The end of a program whose texts build no image.
fn no_image(fault: BuildFault) -> Exit
    ensures { (cfg src : List ℕ) → IsBuildFault cfg src fault → IsWhyNoImage cfg src result }
{
    match fault {
        BuildFault::At(file, place, why) => Exit::Build(BuildFault::At(file, place, why)),
        BuildFault::Memory => Exit::Failed(Failure::Memory(AllocError)),
    }
}

/// The end of a program that does not run an image.
fn no_run(fault: SimFault) -> Exit
    ensures { (image steps : List ℕ) → IsWhySim fault image steps → IsWhyNoRun image steps result }
{
    match fault {
        SimFault::Load(fault) => Exit::Sim(SimFault::Load(fault)),
        SimFault::Steps(fault) => Exit::Sim(SimFault::Steps(fault)),
        SimFault::Memory => Exit::Failed(Failure::Memory(AllocError)),
    }
}

/// The end of a program that does not run an image by threads.
fn no_host(fault: HostFault) -> Exit
    ensures { (image : List ℕ) (work : Workload) → IsWhyHost fault image work → IsWhyNotHosted image work result }
{
    match fault {
        HostFault::Load(fault) => Exit::Host(HostFault::Load(fault)),
        HostFault::Board(fault) => Exit::Host(HostFault::Board(fault)),
        HostFault::Memory => Exit::Failed(Failure::Memory(AllocError)),
    }
}

/// Gives an outlet a text.
fn give<T: Outlet>(outlet: &mut T, text: &[u8]) -> Result<(), CommandCut>
    ensures ok { OnOk result (T.gave outlet.old outlet.new text.now) }
    ensures err { IfErr result (IsStopped T.stopped outlet.old outlet.new text.now) }
{
    match outlet.give(text) {
        Ok(()) => Ok(()),
        Err(_stopped) => Err(CommandCut::Stopped),
    }
}

/// Checks two texts, and gives an outlet `ok` where they build an image.
fn checked<T: Outlet>(
    alloc: Global,
    cfg: &[u8],
    src: &[u8],
    outlet: &mut T,
) -> Result<(), CommandCut>
    ensures ok { OnOk result (GivesText T.gave (Checks cfg.now src.now) outlet.old outlet.new []) }
    ensures err { IfErr result (IsWhyCut T.gave T.stopped (IsWhyNoImage cfg.now src.now) (Checks cfg.now src.now)
        outlet.old outlet.new) }
{
    match check(alloc, cfg, src) {
        Ok(()) => give(outlet, b"ok\n"),
        Err(fault) => Err(CommandCut::Refused(no_image(fault))),
    }
}

/// `ok` and the number of bytes of an image.
fn size_line(alloc: Global, size: usize) -> Result<String, AllocError>
    ensures { IfOk result (λ line. string_bytes line ≡ codes "ok " ++ (decimal size ++ codes "\n")) }
{
    format!(in alloc; "ok {size}\n")
}

/// What a command makes that writes a file.
#[derive(Drop)]
pub struct Made {
    /// The bytes of its file.
    pub file: Vec<u8>,
    /// What it prints.
    pub out: Vec<u8>,
    /// How many events of each kind the journal of a host has.
    pub counts: EventCounts,
}

/// The bytes of the image that two texts build, and the line that says how many they are.
fn built(alloc: Global, cfg: &[u8], src: &[u8]) -> Result<Made, Exit>
    ensures ok { IfOk result (λ made. BuildsFile cfg.now src.now made.file.items made.out.items) }
    ensures refused { IfErr result (IsWhyNoImage cfg.now src.now) }
{
    let mut image = Vec::new(alloc);
    match build_image(alloc, cfg, src, &mut image) {
        Ok(()) => {}
        Err(fault) => return Err(no_image(fault)),
    }
    match size_line(alloc, image.len()) {
        Ok(line) => Ok(Made {
            file: image,
            out: line.into_bytes(),
            counts: EventCounts::NONE,
        }),
        Err(error) => Err(Exit::Failed(Failure::Memory(error))),
    }
}

/// Runs an image over steps, and gives an outlet what the run prints, while it goes on.
fn simulated<T: Outlet>(
    alloc: Global,
    image: &[u8],
    steps: &[u8],
    bound: u64,
    outlet: &mut T,
) -> Result<(), CommandCut>
    requires { IsBound bound }
    ensures ok { OnOk result (GivesText T.gave (RunsImage image.now steps.now bound) outlet.old outlet.new []) }
    ensures err { IfErr result (IsWhyCut T.gave T.stopped (IsWhyNoRun image.now steps.now)
        (RunsImage image.now steps.now bound) outlet.old outlet.new) }
{
    match sim_into(alloc, image, steps, bound, outlet) {
        Ok(()) => Ok(()),
        Err(SimCut::Refused(fault)) => Err(CommandCut::Refused(no_run(fault))),
        Err(SimCut::Stopped) => Err(CommandCut::Stopped),
    }
}

/// The workload that a command asks for.
fn work_of(turns: u32, ticks: u32, bound: u64, interrupt: Option<u8>) -> Workload
    requires counts { IsCount turns × IsCount ticks × IsBound bound }
    requires interrupt { IfSome interrupt IsInterrupt }
    ensures work { result ≡ work_of turns ticks bound interrupt }
    ensures ranges { IsWorkload result }
{
    match interrupt {
        Some(interrupt) => Workload {
            turns,
            ticks,
            interrupt,
            interrupts: INTERRUPTS_MAX,
            bound,
        },
        None => Workload {
            turns,
            ticks,
            interrupt: 1,
            interrupts: 0,
            bound,
        },
    }
}

/// Runs an image by threads at this pace: the journal, and what the image prints over it.
fn hosted<P: Pace, R: Threads + Wait + Sync>(
    rt: &R,
    alloc: Global,
    image: &[u8],
    pace: &P,
    work: Workload,
) -> Result<Made, Exit>
    requires { IsWorkload work }
    ensures ok { IfOk result (λ made. HostsImage image.now work made.file.items made.out.items) }
    ensures counts { IfOk result (λ made. CountsSteps made.file.items made.counts) }
    ensures refused { IfErr result (IsWhyNotHosted image.now work) }
{
    match host(rt, alloc, image, pace, work) {
        Ok(
            Hosted {
                journal,
                text,
                counts,
            },
        ) => Ok(Made {
            file: journal,
            out: text,
            counts,
        }),
        Err(fault) => Err(no_host(fault)),
    }
}

/// Builds two texts and runs their image over steps, and gives an outlet what the run prints, while it goes on.
fn built_and_run<T: Outlet>(
    alloc: Global,
    cfg: &[u8],
    src: &[u8],
    steps: &[u8],
    bound: u64,
    outlet: &mut T,
) -> Result<(), CommandCut>
    requires { IsBound bound }
    ensures ok { OnOk result (GivesText T.gave (RunsTexts cfg.now src.now steps.now bound) outlet.old outlet.new []) }
    ensures err { IfErr result (IsWhyCut T.gave T.stopped (IsWhyNotRun cfg.now src.now steps.now)
        (RunsTexts cfg.now src.now steps.now bound) outlet.old outlet.new) }
{
    let mut image = Vec::new(alloc);
    match build_image(alloc, cfg, src, &mut image) {
        Ok(()) => simulated(alloc, &image, steps, bound, outlet),
        Err(fault) => Err(CommandCut::Refused(no_image(fault))),
    }
}

/// Carries out a command that writes no file, on the bytes of its files, in order of its words: an outlet is given what
/// is printed, what a run prints while it goes on.
pub fn perform_into<T: Outlet>(
    alloc: Global,
    cmd: &Cmd,
    inputs: &[&[u8]],
    outlet: &mut T,
) -> Result<(), CommandCut>
    requires fileless { output_of cmd.now ≡ None }
    requires inputs { length inputs.now ≡ input_count cmd.now }
    requires ranges { KeepsRanges cmd.now }
    ensures ok { OnOk result (GivesText T.gave
        (CarriesOut cmd.now (map (λ s. s.now) inputs.now) []) outlet.old outlet.new []) }
    ensures err { IfErr result (IsWhyCut T.gave T.stopped (IsWhyNot cmd.now (map (λ s. s.now) inputs.now))
        (CarriesOut cmd.now (map (λ s. s.now) inputs.now) []) outlet.old outlet.new) }
{
    match cmd {
        Cmd::Check { .. } => checked(alloc, inputs[0], inputs[1], outlet),
        Cmd::Sim { bound, .. } => simulated(alloc, inputs[0], inputs[1], *bound, outlet),
        Cmd::Stored => built_and_run(
            alloc,
            STORED_CONFIG.as_bytes(),
            STORED_TASKS.as_bytes(),
            STORED_STEPS.as_bytes(),
            STORED_BOUND,
            outlet,
        ),
        Cmd::Build { .. } | Cmd::Host { .. } => unreachable!(),
    }
}

/// Carries out a command that writes a file, on the bytes of its files, in order of its words: what is to be written
/// and what is to be printed. A host goes at this pace.
pub fn perform<P: Pace, R: Threads + Wait + Sync>(
    rt: &R,
    alloc: Global,
    cmd: &Cmd,
    inputs: &[&[u8]],
    pace: &P,
) -> Result<Made, Exit>
    requires writes { output_of cmd.now ≢ None }
    requires inputs { length inputs.now ≡ input_count cmd.now }
    requires ranges { KeepsRanges cmd.now }
    ensures ok { IfOk result (λ made.
        CarriesOut cmd.now (map (λ s. s.now) inputs.now) made.file.items made.out.items) }
    ensures counts { IfOk result (λ made. IsTrue (tells cmd.now) → CountsSteps made.file.items made.counts) }
    ensures refused { IfErr result (IsWhyNot cmd.now (map (λ s. s.now) inputs.now)) }
{
    match cmd {
        Cmd::Build { .. } => built(alloc, inputs[0], inputs[1]),
        Cmd::Host {
            turns,
            ticks,
            bound,
            interrupt,
            ..
        } => {
            let work = work_of(*turns, *ticks, *bound, *interrupt);
            hosted(rt, alloc, inputs[0], pace, work)
        }
        Cmd::Check { .. } | Cmd::Sim { .. } | Cmd::Stored => unreachable!(),
    }
}
