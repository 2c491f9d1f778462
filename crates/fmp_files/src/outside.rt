//! What a program reaches outside of itself: files by their names, standard output and standard error.
ghost use Rattle.std.specs.Prelude.{◌≡◌, ℕ, List, [], ◌∷◌, Bool, Option, None, Some, IfErr, IfOk, IfSome, IsTrue};
ghost use Rattle.std.specs.Prelude.{OnErr};
ghost use Rattle.std.specs.Prelude.{OnOk, true};
ghost use Rattle.fmp_files.specs.Deeds.{Begins, Deed, Does, Says, printed, removal, said, wrote};
ghost use Rattle.fmp_files.specs.Files.{front};
ghost use Rattle.fmp_files.specs.Outside.{Files as KnownFiles, unknown_files};

use crate::device::{Device, Failed};
use crate::reading::{ReadFault, read_in};
use crate::writing::{WriteFault, write_out};
use std::alloc::Global;
use std::fmt::Display;
use std::io::{Eprint, ErrorKind, Print};
use std::os::unix::fs::MetadataExt;
use std::rt::Files;
use std::{fs, io};

/// What a program reaches outside of itself.
pub trait Outside {
    // What is known of the files.
    ghost files: { Self → KnownFiles };

    // Whether a write to standard output can fail.
    ghost output_can_fail: { Self → Bool };

    // What was done so far, where it is known.
    ghost done: { Self → Option (List Deed) };

    /// The bytes of a file, or with a limit the first of them, up to one past it. `Device` comes only for a name on
    /// which a call can fail, and `Memory` if memory runs out.
    fn read(&self, alloc: Global, name: &str, limit: Option<usize>) -> Result<Vec<u8>, ReadFault>
        ensures bytes { IfOk result (λ bytes.
            IfSome ((files self.now).bytes name.now) (λ all. bytes.items ≡ front limit all)) }
        ensures device { result ≡ Err ReadFault.Device → IsTrue ((files self.now).can_fail name.now) };

    /// Writes a file: it has these bytes then, and no others. After an error, which comes only for a name on which a
    /// call can fail, it may have a beginning of them.
    fn write(&mut self, name: &str, bytes: &[u8]) -> Result<(), WriteFault>
        ensures ok { OnOk result (Does (done self.old) (wrote name.now bytes.now ∷ []) (done self.new)) }
        ensures err { OnErr result (Begins (wrote name.now) bytes.now (done self.old) (done self.new)) }
        ensures device { OnErr result (IsTrue ((files self.old).can_fail name.now)) }
        ensures output { output_can_fail self.new ≡ output_can_fail self.old };

    /// Removes a file, and says whether there was one. `Failed` comes only for a name on which a call can fail; the
    /// file is still there then.
    fn remove(&mut self, name: &str) -> Result<bool, Failed>
        ensures done { Does (done self.old) (removal name.now result) (done self.new) }
        ensures device { IfErr result (λ _. IsTrue ((files self.old).can_fail name.now)) }
        ensures output { output_can_fail self.new ≡ output_can_fail self.old };

    /// Writes bytes to standard output. After an error, which comes only where that can fail, it may have a beginning
    /// of them.
    fn print(&mut self, bytes: &[u8]) -> Result<(), WriteFault>
        ensures ok { OnOk result (Does (done self.old) (printed bytes.now ∷ []) (done self.new)) }
        ensures err { OnErr result (Begins printed bytes.now (done self.old) (done self.new)) }
        ensures device { OnErr result (IsTrue (output_can_fail self.old)) }
        ensures output { output_can_fail self.new ≡ output_can_fail self.old }
        ensures files { files self.new ≡ files self.old };

    /// Writes a text to standard error, as far as that works.
    fn say<D: Display + Drop>(&mut self, text: D)
        ensures said { Says (done self.old) (done self.new) }
        ensures text { IfSome (D.output text) (λ bytes. Does (done self.old) (said bytes ∷ []) (done self.new)) }
        ensures files { files self.new ≡ files self.old };

    /// Whether two names lead to one file. Equal names do, and of others it is what the system says.
    fn is_one_file(&self, name: &str, other: &str) -> bool
        ensures equal { name.now ≡ other.now → IsTrue result }
        ensures said { IfSome ((files self.now).says_one name.now other.now) (λ one. result ≡ one) };
}

/// The folder in which a file of this name stands, and what it is called there.
fn place_of(name: &str) -> (&str, &str) {
    match name.rsplit_once('/') {
        Some(("", called)) => ("/", called),
        Some(place) => place,
        None => (".", name),
    }
}

/// Whether two names lead to one file or folder that is there.
fn is_one_place<R: Files>(rt: &R, name: &str, other: &str) -> bool {
    match (fs::metadata(rt, name), fs::metadata(rt, other)) {
        (Ok(one), Ok(two)) => one.dev() == two.dev() && one.ino() == two.ino(),
        _ => false,
    }
}

/// The files, standard output and standard error of the system that the program runs on.
#[derive(Drop)]
pub struct Host<'a, R> {
    rt: &'a R,
}

impl<'a, R> Host<'a, R> {
    /// The outside that this runtime reaches.
    pub fn new(rt: &'a R) -> Host<'a, R> {
        Host { rt }
    }
}

impl<R: Files + Print + Eprint> Outside for Host<'_, R> {
    // What a file of the system has, and what was done to it, no contract can say.
    ghost files = { λ _. unknown_files };

    ghost output_can_fail = { λ _. true };

    ghost done = { λ _. None };

    fn read(&self, alloc: Global, name: &str, limit: Option<usize>) -> Result<Vec<u8>, ReadFault> {
        match fs::open(self.rt, name) {
            Ok(file) => read_in(alloc, &mut Device::new(file), limit),
            Err(_) => Err(ReadFault::Device),
        }
    }

    fn write(&mut self, name: &str, bytes: &[u8]) -> Result<(), WriteFault> {
        match fs::create(self.rt, name) {
            Ok(file) => write_out(&mut Device::new(file), bytes),
            Err(_) => Err(WriteFault::Device),
        }
    }

    fn remove(&mut self, name: &str) -> Result<bool, Failed> {
        match fs::remove_file(self.rt, name) {
            Ok(()) => Ok(true),
            Err(error) if error.kind() == ErrorKind::NotFound => Ok(false),
            Err(_) => Err(Failed),
        }
    }

    fn print(&mut self, bytes: &[u8]) -> Result<(), WriteFault> {
        write_out(&mut Device::new(io::writer(self.rt)), bytes)
    }

    fn say<D: Display + Drop>(&mut self, text: D) {
        let _ = self.rt.eprint(text);
    }

    // A file that is not there yet is known by its folder, and by what it is called there.
    fn is_one_file(&self, name: &str, other: &str) -> bool {
        if name == other || is_one_place(self.rt, name, other) {
            return true;
        }
        let ((folder, called), (beside, also)) = (place_of(name), place_of(other));
        called == also && is_one_place(self.rt, folder, beside)
    }
}
