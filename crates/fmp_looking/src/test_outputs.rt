//! What a test prints, says and writes, and the status with which it ends where that fails.
ghost use Rattle.std.specs.Prelude.{◌∷◌, [], IfErr, OnOk};
ghost use Rattle.std.specs.Str.Lossy.{utf8_lossy};
ghost use Rattle.fmp_files.specs.Deeds.{Does, said, wrote};
ghost use Rattle.fmp_files.specs.Prints.{Prints};
ghost use Rattle.fmp_looking.specs.TestDeeds.{IsRefusal};

use crate::asking::{TestMistake, test_mistake};
use crate::exit::ViewExit;
use fmp_files::{Failure, Outside, end, print, refuse_mistake, write_file};
use std::alloc::{AllocError, Global};

/// Prints bytes. The error is the status that the program ends with.
#[tactic(auto, using(crate::proofs::TestEnds::printed_all, crate::proofs::TestEnds::printing_refuses))]
pub fn printed<O: Outside>(alloc: Global, outside: &mut O, bytes: &[u8]) -> Result<(), u8>
    ensures ok { OnOk result (Prints (O.done outside.old) bytes.now (O.done outside.new)) }
    ensures err { IfErr result IsRefusal }
{
    match print(alloc, outside, bytes) {
        0 => Ok(()),
        status => Err(status),
    }
}

/// Says that memory ran out, and gives the status that the program ends with.
#[tactic(auto, using(crate::proofs::TestEnds::three_refuses))]
pub fn end_memory<O: Outside>(outside: &mut O, error: AllocError) -> u8
    ensures { IsRefusal result }
{
    end(outside, &Failure::Memory(error))
}

/// Says why a test is not made, and gives the status that the program ends with.
#[tactic(auto, using(crate::proofs::TestEnds::exit_refuses, crate::proofs::TestEnds::refusal_by))]
pub fn end_test<O: Outside>(outside: &mut O, exit: &ViewExit) -> u8
    ensures { IsRefusal result }
{
    end(outside, exit)
}

/// Says what is wrong with the words of a test, and gives the status that the program ends with.
#[tactic(auto, using(crate::proofs::TestEnds::mistake_refuses))]
pub fn refuse_test<O: Outside>(alloc: Global, outside: &mut O, mistake: TestMistake) -> u8
    ensures { IsRefusal result }
{
    refuse_mistake(outside, test_mistake(alloc, mistake))
}

/// Says a text.
pub fn say_text<O: Outside>(alloc: Global, outside: &mut O, text: &[u8]) -> Result<(), u8>
    ensures ok { OnOk result (Does (O.done outside.old) (said (utf8_lossy text.now) ∷ []) (O.done outside.new)) }
    ensures err { IfErr result IsRefusal }
{
    match String::from_utf8_lossy(alloc, text) {
        Ok(text) => {
            outside.say(text);
            Ok(())
        }
        Err(error) => Err(end_memory(outside, error)),
    }
}

/// Writes a file. The error is the status that the program ends with.
#[tactic(auto, using(crate::proofs::TestEnds::three_refuses))]
pub fn write_to<O: Outside>(
    alloc: Global,
    outside: &mut O,
    name: &str,
    bytes: &[u8],
) -> Result<(), u8>
    ensures ok { OnOk result (Does (O.done outside.old) (wrote name.now bytes.now ∷ []) (O.done outside.new)) }
    ensures err { IfErr result IsRefusal }
{
    match write_file(alloc, outside, name, bytes) {
        Ok(()) => Ok(()),
        Err(failure) => Err(end(outside, &failure)),
    }
}
