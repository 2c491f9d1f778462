//! Why a program cannot do what it was asked, whatever it reads: a call on a file fails, or memory runs out.
ghost use Rattle.std.specs.Prelude.{◌≡◌, ◌∷◌, [], IfErr, IfOk, IfSome, OnErr, OnOk};
ghost use Rattle.fmp_files.specs.Deeds.{Begins, Does, wrote};
ghost use Rattle.fmp_files.specs.Endings.{IsFailureOf, IsFor, IsMemory};
ghost use Rattle.fmp_files.specs.Files.{front};
ghost use Rattle.fmp_files.specs.declared.failure.Failure.TheVariants.{Memory};

use crate::outside::Outside;
use crate::reading::ReadFault;
use crate::writing::WriteFault;
use std::alloc::{AllocError, AllocFailed, Global};
use std::error::Error;
use std::fmt::{self, Display, Formatter, Write};

/// Why a program cannot do what it was asked, whatever it reads. The message is one line.
#[derive(Debug, Drop)]
pub enum Failure {
    /// The file of this name could not be read or written; `-` is standard output.
    File(String),
    /// Memory ran out.
    Memory(AllocError),
}

impl Display for Failure {
    ghost use Rattle.std.specs.Prelude.{Some};
    ghost use Rattle.fmp_files.specs.Messages.{failure_message};

    ghost output = { λ failure. Some (failure_message failure) };

    /// The name of the file after `file`, or `memory`.
    fn fmt<W: Write>(&self, f: &mut Formatter<W>) -> fmt::Result {
        match self {
            Failure::File(name) => write!(f, "file: {name}"),
            Failure::Memory(_) => f.write_str("memory"),
        }
    }
}

impl Error for Failure {}

impl From<AllocError> for Failure {
    ghost from_gives = { λ error failure. failure ≡ Memory error };

    fn from(error: AllocError) -> Self {
        Failure::Memory(error)
    }
}

impl<T: Drop> From<AllocFailed<T>> for Failure {
    ghost from_gives = { λ _ failure. IsMemory failure };

    fn from(_error: AllocFailed<T>) -> Self {
        Failure::Memory(AllocError)
    }
}

/// The failure of a call on the file of this name.
pub fn failed(alloc: Global, name: &str) -> Failure
    ensures { IsFor name.now result }
{
    match String::from_str(alloc, name) {
        Ok(name) => Failure::File(name),
        Err(error) => Failure::Memory(error),
    }
}

/// The bytes of a file, or with a limit the first of them, up to one past it.
pub fn read_file<O: Outside>(
    alloc: Global,
    outside: &O,
    name: &str,
    limit: Option<usize>,
) -> Result<Vec<u8>, Failure>
    ensures bytes { IfOk result (λ bytes.
        IfSome ((O.files outside.now).bytes name.now) (λ all. bytes.items ≡ front limit all)) }
    ensures failure { IfErr result (IsFailureOf (O.files outside.now) (name.now ∷ [])) }
{
    match outside.read(alloc, name, limit) {
        Ok(bytes) => Ok(bytes),
        Err(ReadFault::Device) => Err(failed(alloc, name)),
        Err(ReadFault::Memory) => Err(Failure::Memory(AllocError)),
    }
}

/// Writes a file: it has these bytes then, and no others. After an error it may have a beginning of them.
pub fn write_file<O: Outside>(
    alloc: Global,
    outside: &mut O,
    name: &str,
    bytes: &[u8],
) -> Result<(), Failure>
    ensures ok { OnOk result (Does (O.done outside.old) (wrote name.now bytes.now ∷ []) (O.done outside.new)) }
    ensures begun { OnErr result (Begins (wrote name.now) bytes.now (O.done outside.old) (O.done outside.new)) }
    ensures failure { IfErr result (IsFailureOf (O.files outside.old) (name.now ∷ [])) }
    ensures output { O.output_can_fail outside.new ≡ O.output_can_fail outside.old }
{
    match outside.write(name, bytes) {
        Ok(()) => Ok(()),
        Err(WriteFault::Device) => Err(failed(alloc, name)),
    }
}
