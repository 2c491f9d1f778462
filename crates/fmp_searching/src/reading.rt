//! The bytes of files.
ghost use Rattle.std.specs.Prelude.{IfOk, option_map};
ghost use Rattle.fmp_searching.specs.Claimed.{IsFile, IsNamedFile, IsSaid};

use crate::sources::Exploring;
use fmp_files::{Failure, Outside, read_file};
use std::alloc::Global;

/// The bytes of two files.
pub fn read_both<O: Outside>(
    alloc: Global,
    outside: &O,
    one: &str,
    other: &str,
) -> Result<(Vec<u8>, Vec<u8>), Failure>
    ensures one { IfOk result (λ both. IsFile (O.files outside.now) one.now both.0.items) }
    ensures other { IfOk result (λ both. IsFile (O.files outside.now) other.now both.1.items) }
{
    let first = read_file(alloc, outside, one, None)?;
    Ok((first, read_file(alloc, outside, other, None)?))
}

/// The bytes of a file; none where it has no name.
pub fn read_named<O: Outside>(alloc: Global, outside: &O, name: &str) -> Result<Vec<u8>, Failure>
    ensures { IfOk result (λ bytes. IsNamedFile (O.files outside.now) name.now bytes.items) }
{
    if name.is_empty() {
        return Ok(Vec::new(alloc));
    }
    read_file(alloc, outside, name, None)
}

/// The text of a file of sentences; none where there is no file.
fn read_said<O: Outside>(alloc: Global, outside: &O, name: Option<&str>) -> Result<Vec<u8>, Failure>
    ensures { IfOk result (λ said. IsSaid (O.files outside.now) (option_map (λ n. n.now) name.entry) said.items) }
{
    match name {
        Some(name) => read_file(alloc, outside, name, None),
        None => Ok(Vec::new(alloc)),
    }
}

/// The texts of an exploration: its configuration, its bodies and its sentences.
pub fn read_texts<O: Outside>(
    alloc: Global,
    outside: &O,
    exploring: &Exploring<'_>,
) -> Result<(Vec<u8>, Vec<u8>, Vec<u8>), Failure>
    ensures cfg { IfOk result (λ texts. IsFile (O.files outside.now) exploring.now.cfg.now texts.0.items) }
    ensures src { IfOk result (λ texts. IsFile (O.files outside.now) exploring.now.src.now texts.1.items) }
    ensures said { IfOk result (λ texts. IsSaid (O.files outside.now)
        (option_map (λ name. name.now) exploring.now.expect) texts.2.items) }
{
    let (cfg, src) = read_both(alloc, outside, exploring.cfg, exploring.src)?;
    Ok((cfg, src, read_said(alloc, outside, exploring.expect)?))
}
