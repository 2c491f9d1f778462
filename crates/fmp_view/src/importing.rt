//! The command `import`: a configuration of TOPPERS or uITRON becomes one of this project.
ghost use Rattle.std.specs.Prelude.{◌≡◌, ◌<◌, ℕ, List, IfOk, IfSome, false, length, map, slice_get};
ghost use Rattle.std.specs.List.{AllByRecursion};
ghost use Rattle.std.specs.String.{string_bytes};
ghost use Rattle.fmp_files.specs.Deeds.{Says};
ghost use Rattle.fmp_import.specs.Imports.{IsImported};
ghost use Rattle.fmp_view.specs.Apart.{AreApart};
ghost use Rattle.fmp_searching.specs.Claimed.{IsFile};
ghost use Rattle.fmp_view.specs.Imports.{AreApartFrom, Gives, HasImported, HasImportedFile, HasImportedSource};
ghost use Rattle.fmp_view.specs.Imports.{HasImportedText};

use crate::inputs::is_one_file;
use crate::word_mistakes::{no_constant, out_over_configuration};
use fmp_files::{Failure, Outside, end, print, read_file, refuse_mistake, write_file};
use fmp_import::{Constants, Header, ImportFault, Imported, import, included};
use std::alloc::{AllocError, Global};

/// What is imported: the name of a configuration, constants as `NAME=VALUE`, and the name of the file that is written;
/// without it standard output gets the configuration.
#[derive(Clone, Copy)]
pub struct Importing<'a> {
    pub cfg: &'a str,
    pub constants: &'a [&'a str],
    pub out: Option<&'a str>,
}

/// A file that a configuration includes.
#[derive(Drop)]
struct IncludedFile {
    /// Its name, as it stands in the configuration.
    name: String,
    /// Where it is looked for: beside the configuration, unless its name begins at the root.
    path: String,
}

/// A configuration that is imported, and the files that it includes.
#[derive(Clone, Copy)]
struct ImportSource<'a> {
    text: &'a [u8],
    included: &'a [IncludedFile],
}

/// Where a file is looked for that a configuration includes.
fn path_beside(alloc: Global, cfg: &str, name: &str) -> Result<String, AllocError> {
    match (name.as_bytes(), cfg.rsplit_once('/')) {
        ([b'/', ..], _) | (_, None) => String::from_str(alloc, name),
        (_, Some((folder, _))) => format!(in alloc; "{folder}/{name}"),
    }
}

/// The files that a configuration includes, in order.
fn included_files(alloc: Global, cfg: &str, text: &[u8]) -> Result<Vec<IncludedFile>, AllocError> {
    let mut files = Vec::new(alloc);
    for name in &included(alloc, text)? {
        files.push(IncludedFile {
            path: path_beside(alloc, cfg, name.as_str())?,
            name: String::from_str(alloc, name.as_str())?,
        })?;
    }
    Ok(files)
}

/// A file that a configuration includes, if it can be read.
fn header_of<O: Outside>(
    alloc: Global,
    outside: &O,
    file: &IncludedFile,
) -> Result<Option<Header>, AllocError>
    ensures { IfOk result (λ header. IfSome header (λ header. IsFile (O.files outside.now) (string_bytes file.now.path)
        header.text.items)) }
{
    match read_file(alloc, outside, file.path.as_str(), None) {
        Ok(text) => {
            let name = Vec::from_slice(alloc, file.name.as_bytes())?;
            Ok(Some(Header { name, text }))
        }
        Err(Failure::File(_)) => Ok(None),
        Err(Failure::Memory(error)) => Err(error),
    }
}

/// The files that a configuration includes, as far as they can be read.
fn headers_of<O: Outside>(
    alloc: Global,
    outside: &O,
    included: &[IncludedFile],
) -> Result<Vec<Header>, AllocError> {
    let mut headers = Vec::new(alloc);
    for file in included {
        if let Some(header) = header_of(alloc, outside, file)? {
            headers.push(header)?;
        }
    }
    Ok(headers)
}

/// The constants that the command line gives; none where one has not the form `NAME=VALUE`.
fn constants_of(alloc: Global, words: &[&str]) -> Result<Option<Constants>, AllocError> {
    let mut constants = Constants::new(alloc);
    for word in words {
        if !constants.give(alloc, word.as_bytes())? {
            return Ok(None);
        }
    }
    Ok(Some(constants))
}

/// The configuration of this project that a text becomes.
fn imported<O: Outside>(
    alloc: Global,
    outside: &O,
    source: ImportSource<'_>,
    constants: Constants,
) -> Result<Imported, ImportFault>
    ensures { IsImported source.entry.text.now result }
{
    match headers_of(alloc, outside, source.included) {
        Ok(headers) => import(alloc, source.text, &headers, constants),
        Err(AllocError) => Err(ImportFault::Memory),
    }
}

/// Writes a configuration, or prints it, and gives the status.
#[tactic(auto, using(fmp_looking::proofs::TestEnds::printed_all))]
fn give<O: Outside>(alloc: Global, outside: &mut O, out: Option<&str>, text: &[u8]) -> u8
    ensures { result ≡ 0 → Gives out.entry text.now (O.done outside.old) (O.done outside.new) }
{
    match out {
        None => print(alloc, outside, text),
        Some(out) => match write_file(alloc, outside, out, text) {
            Ok(()) => 0,
            Err(failure) => end(outside, &failure),
        },
    }
}

/// Imports a text, says what was left out or changed, and gives the status.
fn import_text<O: Outside>(
    alloc: Global,
    outside: &mut O,
    out: Option<&str>,
    source: ImportSource<'_>,
    constants: Constants,
) -> u8
    ensures { result ≡ 0 → HasImportedText source.entry.text.now out.entry (O.done outside.old)
        (O.done outside.new) }
{
    match imported(alloc, outside, source, constants) {
        Ok(imported) => {
            say_bytes(alloc, outside, &imported.notes);
            give(alloc, outside, out, &imported.configuration)
        }
        Err(ImportFault::Memory) => end(outside, &Failure::Memory(AllocError)),
        Err(fault) => {
            outside.say(format_args!("cfg: {fault}\n"));
            1
        }
    }
}

/// Says bytes on standard error.
fn say_bytes<O: Outside>(alloc: Global, outside: &mut O, bytes: &[u8])
    ensures { Says (O.done outside.old) (O.done outside.new) }
{
    match String::from_utf8_lossy(alloc, bytes) {
        Ok(text) => outside.say(text.as_str()),
        Err(_) => outside.say("memory\n"),
    }
}

/// Whether a file is the one at a place among those that a configuration includes.
fn is_included_at<O: Outside>(
    outside: &O,
    out: &str,
    included: &[IncludedFile],
    place: usize,
) -> bool
    requires { place < length included.now }
    ensures { result ≡ false → IfSome (slice_get included.now place) (λ file.
        AreApart (O.files outside.now) out.now (string_bytes file.path)) }
{
    is_one_file(outside, out, included[place].path.as_str())
}

/// Whether a file is one of those that a configuration includes.
fn is_included<O: Outside>(outside: &O, out: &str, included: &[IncludedFile]) -> bool
    ensures { result ≡ false → AllByRecursion (AreApart (O.files outside.now) out.now)
        (map (λ file. string_bytes file.path) included.now) }
{
    for i in 0..included.len() {
        if is_included_at(outside, out, included, i) {
            return true;
        }
    }
    false
}

/// Whether the file that is written is one that a configuration includes.
fn is_over_included<O: Outside>(outside: &O, out: Option<&str>, included: &[IncludedFile]) -> bool
    ensures { result ≡ false → AreApartFrom (O.files outside.now) out.entry
        (map (λ file. string_bytes file.path) included.now) }
{
    match out {
        Some(out) => is_included(outside, out, included),
        None => false,
    }
}

/// Imports a text that includes these files, unless that would replace one of them, and gives the status.
fn import_source<O: Outside>(
    alloc: Global,
    outside: &mut O,
    out: Option<&str>,
    source: ImportSource<'_>,
    constants: Constants,
) -> u8
    ensures { result ≡ 0 → HasImportedSource (O.files outside.old)
        (map (λ file. string_bytes file.path) source.entry.included.now) source.entry.text.now out.entry
        (O.done outside.old) (O.done outside.new) }
{
    if is_over_included(outside, out, source.included) {
        return refuse_mistake(outside, out_over_configuration(alloc));
    }
    import_text(alloc, outside, out, source, constants)
}

/// Imports a text with these constants, unless that would replace a file that it includes, and gives the status.
fn import_read<O: Outside>(
    alloc: Global,
    outside: &mut O,
    importing: Importing<'_>,
    text: &[u8],
    constants: Constants,
) -> u8
    ensures { result ≡ 0 → (included : List (List ℕ)) × HasImportedSource (O.files outside.old) included text.now
        importing.entry.out (O.done outside.old) (O.done outside.new) }
{
    match included_files(alloc, importing.cfg, text) {
        Ok(included) => {
            let source = ImportSource {
                text,
                included: &included,
            };
            import_source(alloc, outside, importing.out, source, constants)
        }
        Err(error) => end(outside, &Failure::Memory(error)),
    }
}

/// Imports a configuration with these constants, and gives the status.
fn import_file<O: Outside>(
    alloc: Global,
    outside: &mut O,
    importing: Importing<'_>,
    constants: Constants,
) -> u8
    ensures { result ≡ 0 → HasImportedFile (O.files outside.old) importing.entry (O.done outside.old)
        (O.done outside.new) }
{
    match read_file(alloc, outside, importing.cfg, None) {
        Ok(text) => import_read(alloc, outside, importing, &text, constants),
        Err(failure) => end(outside, &failure),
    }
}

/// Whether the file that is written is the one that is read.
fn is_over_configuration<O: Outside>(outside: &O, importing: Importing<'_>) -> bool
    ensures { result ≡ false → IfSome importing.entry.out (λ out. AreApart (O.files outside.now) out.now
        importing.entry.cfg.now) }
{
    match importing.out {
        Some(out) => is_one_file(outside, out, importing.cfg),
        None => false,
    }
}

/// Imports a configuration of TOPPERS or uITRON, and gives the status.
pub fn run_import<O: Outside>(alloc: Global, outside: &mut O, importing: Importing<'_>) -> u8
    ensures { result ≡ 0 → HasImported (O.files outside.old) importing.entry (O.done outside.old)
        (O.done outside.new) }
{
    if is_over_configuration(outside, importing) {
        return refuse_mistake(outside, out_over_configuration(alloc));
    }
    match constants_of(alloc, importing.constants) {
        Ok(Some(constants)) => import_file(alloc, outside, importing, constants),
        Ok(None) => refuse_mistake(outside, no_constant(alloc)),
        Err(error) => end(outside, &Failure::Memory(error)),
    }
}
