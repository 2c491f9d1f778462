//! Printing what a command prints, piece by piece.
ghost use Rattle.std.specs.Prelude.{◌≡◌, [], List, ℕ, None, IfErr, IsTrue, OnOk, length, map};
ghost use Rattle.fmp.specs.CommandRanges.{KeepsRanges};
ghost use Rattle.fmp.specs.Commands.{input_count, output_of};
ghost use Rattle.fmp.specs.Printing.{IsWhyNotPrinted, PrintsFront};

use crate::asking::Cmd;
use crate::perform::{CommandCut, perform_into};
use fmp_engine::{Outlet, Stopped};
use fmp_files::{Outside, WriteFault};
use std::alloc::Global;

/// Standard output as an outlet.
#[derive(Drop)]
struct Printer<'a, O> {
    outside: &'a mut O,
}

impl<O: Outside> Outlet for Printer<'_, O> {
    ghost use Rattle.std.proofs.Common.{refl, ◌∙◌};
    ghost use Rattle.fmp_files.specs.Prints.{Prints, PrintsPieces};
    ghost use Rattle.fmp_files.specs.PrintsLaws.{pieces_more, pieces_nothing, prints_more, still_fails};

    ghost gave = { λ a b bytes. (b.outside.ghost_name ≡ a.outside.ghost_name)
        × (O.output_can_fail b.outside.now ≡ O.output_can_fail a.outside.now)
        × PrintsPieces (O.done a.outside.now) bytes (O.done b.outside.now) };

    ghost stopped = { λ a b bytes. (b.outside.ghost_name ≡ a.outside.ghost_name)
        × IsTrue (O.output_can_fail a.outside.now)
        × Prints (O.done a.outside.now) bytes (O.done b.outside.now) };

    ghost gave_nothing = { λ a. (refl, refl, pieces_nothing (O.done a.outside.now)) };

    ghost gave_more = { λ a b c x y first then. (
      then.0 ∙ first.0,
      then.1 ∙ first.1,
      pieces_more (O.done a.outside.now) (O.done b.outside.now) (O.done c.outside.now) x y first.2 then.2,
    ) };

    ghost stopped_later = { λ a b c x y first then. (
      then.0 ∙ first.0,
      still_fails first.1 then.1,
      prints_more (O.done a.outside.now) (O.done b.outside.now) (O.done c.outside.now) x y first.2.prints then.2,
    ) };

    fn give(&mut self, piece: &[u8]) -> Result<(), Stopped> {
        // Where only empty pieces were given, nothing was done.
        if piece.is_empty() {
            return Ok(());
        }
        match self.outside.print(piece) {
            Ok(()) => Ok(()),
            Err(WriteFault::Device) => Err(Stopped),
        }
    }
}

/// Carries out a command that writes no file, and prints what it prints, piece by piece. Where it is not carried
/// out, nothing has been printed; where standard output fails, a front of it.
pub fn print_performed<O: Outside>(
    alloc: Global,
    outside: &mut O,
    cmd: &Cmd,
    inputs: &[&[u8]],
) -> Result<(), CommandCut>
    requires fileless { output_of cmd.now ≡ None }
    requires inputs { length inputs.now ≡ input_count cmd.now }
    requires ranges { KeepsRanges cmd.now }
    ensures ok { OnOk result (PrintsFront cmd.now (map (λ s. s.now) inputs.now)
        (O.done outside.old) (O.done outside.new) []) }
    ensures err { IfErr result (IsWhyNotPrinted (O.output_can_fail outside.old) cmd.now (map (λ s. s.now) inputs.now)
        (O.done outside.old) (O.done outside.new)) }
{
    let mut printer = Printer { outside };
    let performed = perform_into(alloc, cmd, inputs, &mut printer);
    let Printer { outside } = printer;
    // No effect at run time. The proof reads what `outside` holds from this use of it.
    let _ = &*outside;
    performed
}
