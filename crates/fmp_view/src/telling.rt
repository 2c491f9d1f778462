//! What is printed of a run, and what is said of how its drive ended.
ghost use Rattle.std.specs.Prelude.{◌≡◌, ◌⊎◌, IfErr, IfOk, OnOk};
ghost use Rattle.fmp_files.specs.Prints.{Prints};
ghost use Rattle.fmp_looking.specs.TestDeeds.{IsDone, IsRefusal};
ghost use Rattle.fmp_view.specs.Verdicts.{SaysExit};

use fmp_base::Call;
use fmp_drive::{DriveStop, NextRun};
use fmp_files::{Failure, Outside, end, print};
use fmp_looking::{DriveEnding, ViewExit};
use std::alloc::{AllocError, Global};

/// Says why a drive has stopped.
fn say_stop<O: Outside>(outside: &mut O, stop: DriveStop) {
    match stop {
        DriveStop::Quiet => outside.say(
            "quiet: no processor goes on, and the clock changes nothing\n",
        ),
        DriveStop::Enough => outside.say("as many events as were asked for are done\n"),
    }
}

/// Says why the next run of a processor comes to no call, if so: always if it reaches the bound, and in a quiet system
/// whatever the reason is.
fn say_next<O: Outside>(outside: &mut O, stop: DriveStop, processor: usize, next: NextRun) {
    match (stop, next) {
        (_, NextRun::OverBound) => outside.say(format_args!(
            "processor {processor}: what runs there reaches the bound before its next call\n"
        )),
        (DriveStop::Quiet, NextRun::NoActor) => {
            outside.say(format_args!("processor {processor}: nothing runs there\n"));
        }
        (DriveStop::Quiet, NextRun::Calls(Call::LocSpn { lock })) => outside.say(format_args!(
            "processor {processor}: what runs there asks for spin lock {lock}, which is held\n"
        )),
        _ => {}
    }
}

/// Says why a drive has stopped, and of each processor why it does not go on.
fn say_end<O: Outside>(outside: &mut O, ending: DriveEnding) {
    say_stop(outside, ending.stop);
    for p in 0..usize::from(ending.processors).min(8) {
        say_next(outside, ending.stop, p + 1, ending.next[p]);
    }
}

/// Says a text that was put together.
fn say_text<O: Outside>(alloc: Global, outside: &mut O, text: &[u8]) -> Result<(), AllocError> {
    let text = String::from_utf8_lossy(alloc, text)?;
    outside.say(text);
    Ok(())
}

/// Prints a text, and says how its drive ended if it was driven, and what tasks wait for then.
pub fn print_run<O: Outside>(
    alloc: Global,
    outside: &mut O,
    text: &[u8],
    ending: Option<DriveEnding>,
    why: &[u8],
) -> u8 {
    if let Some(ending) = ending {
        say_end(outside, ending);
    }
    match say_text(alloc, outside, why) {
        Ok(()) => print(alloc, outside, text),
        Err(error) => end(outside, &Failure::Memory(error)),
    }
}

/// Prints bytes. The error is the status that the program ends with.
#[tactic(auto, using(fmp_looking::proofs::TestEnds::printed_all, fmp_looking::proofs::TestEnds::printing_refuses))]
pub fn printed<O: Outside>(alloc: Global, outside: &mut O, bytes: &[u8]) -> Result<(), u8>
    ensures ok { OnOk result (Prints (O.done outside.old) bytes.now (O.done outside.new)) }
    ensures err { IfErr result IsRefusal }
{
    match print(alloc, outside, bytes) {
        0 => Ok(()),
        status => Err(status),
    }
}

/// Says why nothing is made, and gives the status that the program ends with.
#[tactic(auto, using(fmp_looking::proofs::TestEnds::exit_refuses, fmp_looking::proofs::TestEnds::refusal_by))]
pub fn end_look<O: Outside>(outside: &mut O, exit: &ViewExit) -> u8
    ensures status { IsRefusal result }
    ensures said { SaysExit exit.now (O.done outside.old) (O.done outside.new) }
{
    end(outside, exit)
}

/// Prints a text that was made, or says why there is none.
#[tactic(auto, using(fmp_looking::proofs::TestEnds::not_done))]
pub fn print_made<O: Outside>(alloc: Global, outside: &mut O, made: Result<Vec<u8>, ViewExit>) -> u8
    ensures printed { IfOk made (λ text. IsDone result → Prints (O.done outside.old) text.items (O.done outside.new)) }
    ensures status { (result ≡ 0) ⊎ IsRefusal result }
    ensures refused { IfErr made (λ _. IsRefusal result) }
    ensures said { IfErr made (λ exit. SaysExit exit (O.done outside.old) (O.done outside.new)) }
{
    match made {
        Ok(text) => match printed(alloc, outside, &text) {
            Ok(()) => 0,
            Err(status) => status,
        },
        Err(exit) => end_look(outside, &exit),
    }
}
