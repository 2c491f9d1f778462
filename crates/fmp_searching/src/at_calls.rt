//! What must never be answered to the calls of a line.
ghost use Rattle.std.specs.Prelude.{◌≡◌, ◌++◌, IfOk, OnOk, map};
ghost use Rattle.fmp_base.specs.Systems.{tables_of};
ghost use Rattle.fmp_instructions.specs.Instructions.{code_tables};
ghost use Rattle.fmp_searching.specs.Questions as spec;
ghost use Rattle.fmp_searching.specs.Sites.{HasSites};

use crate::sites::CallLines;
use crate::words::CodeAt;
use fmp_base::System;
use fmp_code::Code;
use fmp_expect::{CallSentence, read_call_sentences};
use fmp_explore::{CallSite, NeverAt};
use fmp_image_bytes::Image;
use std::alloc::{AllocError, Global};

/// Whether a call stands in the line of each code.
fn are_called(
    alloc: Global,
    code: &Code,
    lines: &CallLines,
    codes: &[CodeAt],
) -> Result<bool, AllocError>
    requires { HasSites (code_tables code.now) }
    ensures { IfOk result (λ called. called ≡ spec.are_called (code_tables code.now) lines.now codes.now) }
{
    for at in codes {
        if lines.calls(alloc, code, at.line)?.is_empty() {
            return Ok(false);
        }
    }
    Ok(true)
}

/// Whether a call of an image stands in the line of each code. `AllocError` if memory runs out.
pub fn are_called_in(
    alloc: Global,
    image: &Image,
    lines: &CallLines,
    codes: &[CodeAt],
) -> Result<bool, AllocError>
    ensures { IfOk result (λ called. called ≡ spec.are_called image.now.code lines.now codes.now) }
{
    image.keeps_rules();
    are_called(alloc, image.code(), lines, codes)
}

/// That a code must never be answered at a call.
fn never_at(at: CodeAt, site: CallSite) -> NeverAt
    ensures { result ≡ spec.never_at at site }
{
    NeverAt {
        code: at.code,
        site,
        by: at.by,
    }
}

/// Adds that a code must never be answered at these calls.
fn add_nevers_at(
    at: CodeAt,
    sites: &[CallSite],
    nevers: &mut Vec<NeverAt>,
) -> Result<(), AllocError>
    ensures { OnOk result (nevers.new.items ≡ nevers.old.items ++ map (λ s. spec.never_at at s) sites.now) }
{
    for site in sites {
        nevers.push(never_at(at, *site))?;
    }
    Ok(())
}

/// Adds that a code must never be answered at the calls of its line.
fn add_code(
    alloc: Global,
    code: &Code,
    lines: &CallLines,
    at: CodeAt,
    nevers: &mut Vec<NeverAt>,
) -> Result<(), AllocError>
    requires { HasSites (code_tables code.now) }
    ensures { OnOk result (nevers.new.items
        ≡ nevers.old.items ++ spec.nevers_at_of (code_tables code.now) lines.now at) }
{
    let sites = lines.calls(alloc, code, at.line)?;
    add_nevers_at(at, &sites, nevers)
}

/// Each of these codes, at each call of its line.
fn nevers_at_in(
    alloc: Global,
    code: &Code,
    lines: &CallLines,
    codes: &[CodeAt],
) -> Result<Vec<NeverAt>, AllocError>
    requires { HasSites (code_tables code.now) }
    ensures { IfOk result (λ nevers. nevers.items
        ≡ spec.nevers_at_in (code_tables code.now) lines.now codes.now) }
{
    let mut nevers = Vec::new(alloc);
    for at in codes {
        add_code(alloc, code, lines, *at, &mut nevers)?;
    }
    Ok(nevers)
}

/// Each of these codes, at each call of its line in an image. `AllocError` if memory runs out.
pub fn nevers_at_of(
    alloc: Global,
    image: &Image,
    lines: &CallLines,
    codes: &[CodeAt],
) -> Result<Vec<NeverAt>, AllocError>
    ensures { IfOk result (λ nevers. nevers.items ≡ spec.nevers_at_in image.now.code lines.now codes.now) }
{
    image.keeps_rules();
    nevers_at_in(alloc, image.code(), lines, codes)
}

/// The code of a sentence, the line of its calls, and whose answers are meant.
fn code_at(never: CallSentence) -> CodeAt
    ensures { result ≡ spec.sentence_code never }
{
    CodeAt {
        code: never.code,
        line: never.at,
        by: never.by,
    }
}

/// The codes of sentences, and the lines of their calls.
fn sentence_codes(alloc: Global, sentences: &[CallSentence]) -> Result<Vec<CodeAt>, AllocError>
    ensures { IfOk result (λ codes. codes.items ≡ spec.sentence_codes sentences.now) }
{
    let mut codes = Vec::new(alloc);
    for never in sentences {
        codes.push(code_at(*never))?;
    }
    Ok(codes)
}

/// What a text of sentences says of calls: the codes, and the lines of these. `AllocError` if memory runs out.
pub fn codes_of(alloc: Global, configured: &System, text: &[u8]) -> Result<Vec<CodeAt>, AllocError>
    ensures { IfOk result (λ codes. codes.items ≡ spec.codes_of (tables_of configured.now) text.now) }
{
    let sentences = read_call_sentences(alloc, configured, text)?;
    sentence_codes(alloc, &sentences)
}

/// The codes of words, and then those of sentences. `AllocError` if memory runs out.
pub fn all_codes(
    alloc: Global,
    words: &[CodeAt],
    of_sentences: &[CodeAt],
) -> Result<Vec<CodeAt>, AllocError>
    ensures { IfOk result (λ codes. codes.items ≡ words.now ++ of_sentences.now) }
{
    let mut codes = Vec::from_slice(alloc, words)?;
    codes.extend_from_slice(of_sentences)?;
    Ok(codes)
}
