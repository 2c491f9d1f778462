//! From the bytes of a task text to its program.
ghost use Rattle.std.specs.Prelude.{IfOk};
ghost use Rattle.fmp_tasklang.specs.CallForms.{CallsFit};
ghost use Rattle.fmp_tasklang.specs.Reading.{IsRead};
ghost use Rattle.fmp_tasklang.specs.Views.{program_view};

use crate::bodies::read_program;
use crate::trees::Program;
use fmp_lex::{BuildFault, ReadError, TextFault, TextFile, fault_at, tokens, too_long};
use std::alloc::Global;

/// The program that a task text spells, or the first fault of the text: a token that no text of the task language
/// has in its place (B1), one that opens a 65th level of nesting, a name or number that is too great, or a text of
/// more than 1,048,576 bytes (B5). Names and bodies have the places of their tokens in the list, and each call has the
/// arguments of its service.
pub fn read_tasks(alloc: Global, text: &[u8]) -> Result<Program, BuildFault>
    ensures read { IsRead text.now result }
    ensures calls { IfOk result (λ program. CallsFit (program_view program)) }
{
    match tokens(alloc, text) {
        Ok(list) => match read_program(alloc, &list.tokens) {
            Ok(program) => Ok(program),
            Err(ReadError::Memory) => Err(BuildFault::Memory),
            Err(ReadError::Fault(fault)) => Err(fault_at(&list, TextFile::Source, fault)),
        },
        Err(TextFault::TooLong) => Err(too_long(TextFile::Source)),
        Err(TextFault::Memory) => Err(BuildFault::Memory),
    }
}
