//! What is left of two texts where constructs with a fault are left out.
ghost use Rattle.std.specs.Prelude.{◌≡◌, ◌≤◌, ◌++◌, IfOk, IfSome, OnOk, length, map};
ghost use Rattle.fmp_warnings.specs.Further as spec;
ghost use Rattle.fmp_warnings.specs.Further.{IsNext, both, both_left, both_of, one_of, with_one};

use crate::constructs::{Construct, construct_of};
use crate::verdicts::{TextsFault, TextsVerdict, found_in};
use fmp_diagnosis::Texts;
use fmp_lex::TextFile;
use std::alloc::{AllocError, Global};

/// What is left of two texts, and its first fault.
#[derive(Drop)]
pub struct Left {
    pub cfg: Vec<u8>,
    pub src: Vec<u8>,
    pub fault: TextsFault,
}

/// A space in place of a byte; line feeds stay.
fn blanked(byte: u8) -> u8
    ensures { result ≡ spec.blanked byte }
{
    if byte == b'\n' { b'\n' } else { b' ' }
}

/// Appends a space for each byte of a text.
fn append_blanked(text: &[u8], out: &mut Vec<u8>) -> Result<(), AllocError>
    ensures { OnOk result (out.new.items ≡ out.old.items ++ map spec.blanked text.now) }
{
    for byte in text {
        out.push(blanked(*byte))?;
    }
    Ok(())
}

/// A text, in which a construct is left out.
fn left_out(alloc: Global, text: &[u8], construct: Construct) -> Result<Vec<u8>, AllocError>
    requires order { construct.from ≤ construct.to }
    requires within { construct.to ≤ length text.now }
    ensures { IfOk result (λ out. out.items ≡ spec.left_out text.now construct.from construct.to) }
{
    let mut out = Vec::new(alloc);
    out.extend_from_slice(&text[..construct.from])?;
    append_blanked(&text[construct.from..construct.to], &mut out)?;
    out.extend_from_slice(&text[construct.to..])?;
    Ok(out)
}

/// A text of its own with these bytes.
fn copied(alloc: Global, text: &[u8]) -> Result<Vec<u8>, AllocError>
    ensures { IfOk result (λ out. out.items ≡ text.now) }
{
    let mut out = Vec::new(alloc);
    out.extend_from_slice(text)?;
    Ok(out)
}

impl Left {
    /// All of two texts, with this fault. `AllocError` if memory runs out.
    pub fn all(alloc: Global, texts: Texts<'_>, fault: TextsFault) -> Result<Left, AllocError>
        ensures texts { IfOk result (λ left. both_left left ≡ both_of texts.entry) }
        ensures fault { IfOk result (λ left. left.fault ≡ fault) }
    {
        Ok(Left {
            cfg: copied(alloc, texts.cfg)?,
            src: copied(alloc, texts.src)?,
            fault,
        })
    }

    /// One of the two.
    pub fn text(&self, file: TextFile) -> &[u8]
        ensures { result.now ≡ one_of (both_left self.now) file }
    {
        match file {
            TextFile::Configuration => &self.cfg,
            TextFile::Source => &self.src,
        }
    }

    /// The two without a construct of one of them.
    fn without(
        &self,
        alloc: Global,
        file: TextFile,
        construct: Construct,
    ) -> Result<(Vec<u8>, Vec<u8>), AllocError>
        requires order { construct.from ≤ construct.to }
        requires within { construct.to ≤ length (one_of (both_left self.now) file) }
        ensures { IfOk result (λ left. both left.0.items left.1.items ≡ with_one (both_left self.now) file
            (spec.left_out (one_of (both_left self.now) file) construct.from construct.to)) }
    {
        match file {
            TextFile::Configuration => {
                let cfg = left_out(alloc, &self.cfg, construct)?;
                Ok((cfg, copied(alloc, &self.src)?))
            }
            TextFile::Source => {
                let src = left_out(alloc, &self.src, construct)?;
                Ok((copied(alloc, &self.cfg)?, src))
            }
        }
    }

    /// What is left without the construct that has the fault, and its first fault; nothing if it has none, or nothing
    /// can be left out. `AllocError` if memory runs out.
    #[tactic(auto, using(crate::proofs::FurtherFaults::is_next))]
    pub fn next(&self, alloc: Global) -> Result<Option<Left>, AllocError>
        ensures { IfOk result (λ left. IfSome left (IsNext self.now)) }
    {
        let file = self.fault.file;
        let Some(construct) = construct_of(self.text(file), self.fault) else {
            return Ok(None);
        };
        let (cfg, src) = self.without(alloc, file, construct)?;
        match found_in(alloc, &cfg, &src)? {
            TextsVerdict::Sound(_) => Ok(None),
            TextsVerdict::Faulty(fault) => Ok(Some(Left { cfg, src, fault })),
        }
    }
}
