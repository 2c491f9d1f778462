//! The constants of a configuration and of the files that it includes, in any order.
ghost use Rattle.fmp_import.specs.Constants.{HasMore};

use crate::constants::{Constants, Defines};
use crate::directives::included_name;
use crate::importing::Header;
use crate::lexemes::{Lexeme, LexemeKind, lexemes};
use crate::plan::TextSpan;
use crate::text::bytes_of;
use fmp_base::Name;
use std::alloc::{AllocError, Global};

/// How often the lines are gone over at most: a constant may name one that is defined after it, and that one another.
const ROUNDS: usize = 32;

/// A configuration: its text, its lexemes, and the files that it includes.
#[derive(Clone, Copy)]
pub struct LexedSource<'a> {
    pub text: &'a [u8],
    pub lexemes: &'a [Lexeme],
    pub headers: &'a [Header],
}

/// A line of the preprocessor that defines a name again.
#[derive(Clone, Copy)]
pub struct RenewedLine {
    pub name: Name,
    pub span: TextSpan,
}

/// The name that a line of the preprocessor defines, if it defines one.
pub fn name_defined(alloc: Global, line: &[u8]) -> Result<Option<Name>, AllocError> {
    let Some(text) = line.strip_prefix(b"#") else {
        return Ok(None);
    };
    let found = lexemes(alloc, text)?;
    match found.as_slice() {
        [word, name, ..]
            if name.kind == LexemeKind::Word && bytes_of(text, word.span) == b"define".as_slice() =>
            { Ok(Name::new(bytes_of(text, name.span))) }
        _ => Ok(None),
    }
}

/// The file of this name.
pub fn header_named<'a>(headers: &'a [Header], name: &[u8]) -> Option<&'a Header> {
    headers.iter().find(|header| header.name.as_slice() == name)
}

/// Adds the constants of the file of this name.
fn take_file(
    alloc: Global,
    headers: &[Header],
    name: &[u8],
    constants: &mut Constants,
) -> Result<(), AllocError>
    ensures { HasMore constants.old constants.new }
{
    match header_named(headers, name) {
        Some(header) => constants.take_header(alloc, &header.text),
        None => Ok(()),
    }
}

/// Adds the constant of a line of the preprocessor, or those of the file that it includes.
fn take_line(
    alloc: Global,
    headers: &[Header],
    line: &[u8],
    constants: &mut Constants,
) -> Result<(), AllocError>
    ensures { HasMore constants.old constants.new }
{
    if let Some(name) = included_name(line) {
        return take_file(alloc, headers, name, constants);
    }
    constants.define(alloc, line)?;
    Ok(())
}

/// Adds the constants that name no unknown one.
fn take_known(
    alloc: Global,
    source: LexedSource<'_>,
    constants: &mut Constants,
) -> Result<(), AllocError>
    ensures { HasMore constants.old constants.new }
{
    for lexeme in source.lexemes {
        if lexeme.kind.is_directive() {
            let line = bytes_of(source.text, lexeme.span);
            take_line(alloc, source.headers, line, constants)?;
        }
    }
    Ok(())
}

/// Adds the constants of lines that define a name again.
fn take_again(
    alloc: Global,
    text: &[u8],
    lines: &[RenewedLine],
    constants: &mut Constants,
) -> Result<(), AllocError>
    ensures { HasMore constants.old constants.new }
{
    for line in lines {
        constants.define_again(alloc, bytes_of(text, line.span))?;
    }
    Ok(())
}

/// Adds the constants of a configuration and of the files that it includes, also those that name one which is defined
/// after them. Of the names that lines define again these lines count.
pub fn take_constants(
    alloc: Global,
    source: LexedSource<'_>,
    lines: &[RenewedLine],
    constants: &mut Constants,
) -> Result<(), AllocError>
    ensures { HasMore constants.old constants.new }
{
    for _round in 0..ROUNDS {
        let count = constants.count();
        take_again(alloc, source.text, lines, constants)?;
        take_known(alloc, source, constants)?;
        if constants.count() == count {
            return Ok(());
        }
    }
    Ok(())
}

/// Why a lexeme of an included file is left out, if the list is to say it: it may give a constant another value.
pub fn why_skipped(
    alloc: Global,
    header: &[u8],
    lexeme: Lexeme,
    constants: &mut Constants,
) -> Result<Option<&'static str>, AllocError>
    ensures { HasMore constants.old constants.new }
{
    match lexeme.kind {
        LexemeKind::DisabledDirective => Ok(Some(
            "it stands in the included file, after an `#if 0`, and its condition is not read",
        )),
        LexemeKind::Directive | LexemeKind::ConditionalDirective => match constants.define(
            alloc,
            bytes_of(header, lexeme.span),
        )? {
            Defines::Other => Ok(Some(
                "it stands in the included file, and another definition of its name counts",
            )),
            _ => Ok(None),
        },
        _ => Ok(None),
    }
}
