//! What a text of settings says, or where it is refused.
ghost use Rattle.std.specs.Prelude.{◌≡◌, ◌≤◌, IfOk, MatchResult, Some, length, map};
ghost use Rattle.toml.specs.Errors.{IsWithin};
ghost use Rattle.fmp_arguments.specs.SettingsFaults as spec;
ghost use Rattle.fmp_arguments.specs.SettingsFaults.{BeginsAt, GoesThrough, IsFormFault, IsNoDocument, IsMemberFault};
ghost use Rattle.fmp_arguments.specs.SettingsFaults.{IsRefusal, IsWrong, LooksAt};
ghost use Rattle.fmp_arguments.specs.Settings.{setting_view, settings_of};

use crate::keys::Key;
use crate::reading::{Setting, Wrong, table_settings};
use std::alloc::{AllocError, Global};
use toml::de::Error;
use toml::table_from_slice;

/// Why settings are refused. A line is counted from 1.
#[derive(Drop)]
pub enum Refusal {
    /// The member that begins in this line is wrong.
    Member(usize, Wrong),
    /// The text is no TOML: the line, and what the reader of TOML says.
    Form(usize, String),
}

/// What a look at a text finds.
#[derive(Drop)]
pub enum Look {
    /// What it says.
    Read(Vec<Setting>),
    /// A wrong member.
    Wrong(Wrong),
    /// It is no document.
    Unfinished(Error),
}

/// What a walk through the lines of a text finds.
#[derive(Drop)]
pub enum Lines {
    /// The member that begins in this line is wrong.
    Refused(usize, Wrong),
    /// The line that begins after what is read.
    Through(usize),
}

/// Looks at a text.
fn look_at(alloc: Global, folder: &str, keys: &[Key], text: &[u8]) -> Result<Look, AllocError>
    ensures { IfOk result (LooksAt folder.now keys.now text.now) }
{
    match table_from_slice(alloc, text) {
        Ok(table) => match table_settings(alloc, folder, keys, &table)? {
            Ok(settings) => Ok(Look::Read(settings)),
            Err(wrong) => Ok(Look::Wrong(wrong)),
        },
        Err(error) if error.is_memory() => Err(AllocError),
        Err(error) => Ok(Look::Unfinished(error)),
    }
}

/// The end of a line of a text.
#[derive(Clone, Copy)]
struct LineEnd {
    /// How many bytes stand through it.
    position: usize,
    /// The number of the line after it.
    next: usize,
    /// The number of the line in which the member begins that is not read yet.
    start: usize,
}

/// Looks at what stands through the end of a line.
fn look_through(
    alloc: Global,
    folder: &str,
    keys: &[Key],
    text: &[u8],
    end: LineEnd,
) -> Result<Lines, AllocError>
    requires within { end.position ≤ length text.now }
    requires is_line { end.next ≡ spec.line_after text.now end.position }
    requires begins { BeginsAt folder.now keys.now text.now end.start }
    ensures { IfOk result (GoesThrough folder.now keys.now text.now) }
{
    match look_at(alloc, folder, keys, &text[..end.position])? {
        Look::Read(_) => Ok(Lines::Through(end.next)),
        Look::Wrong(wrong) => Ok(Lines::Refused(end.start, wrong)),
        Look::Unfinished(_) => Ok(Lines::Through(end.start)),
    }
}

/// Goes through the lines of a text, and looks at what stands through the end of each. A member may have several lines.
#[tactic(auto, using(crate::proofs::Lines::line_steps))]
fn through_lines(
    alloc: Global,
    folder: &str,
    keys: &[Key],
    text: &[u8],
) -> Result<Lines, AllocError>
    ensures { IfOk result (GoesThrough folder.now keys.now text.now) }
{
    let mut line: usize = 1;
    let mut start: usize = 1;
    for at in 0..text.len() {
        if text[at] == b'\n' {
            line += 1;
            let end = LineEnd {
                position: at + 1,
                next: line,
                start,
            };
            match look_through(alloc, folder, keys, text, end)? {
                Lines::Through(next) => start = next,
                Lines::Refused(first, wrong) => return Ok(Lines::Refused(first, wrong)),
            }
        }
    }
    Ok(Lines::Through(start))
}

/// The number of the line that begins after this many bytes of a text.
#[tactic(auto, using(crate::proofs::Lines::line_steps))]
fn line_after(text: &[u8], before: usize) -> usize
    requires { before ≤ length text.now }
    ensures { result ≡ spec.line_after text.now before }
{
    let mut line: usize = 1;
    for at in 0..before {
        if text[at] == b'\n' {
            line += 1;
        }
    }
    line
}

/// Where the reader of a text stopped.
fn start_of(text: &[u8], error: &Error) -> usize
    requires { IsWithin text.now error.now }
    ensures { result ≤ length text.now }
{
    match error.span() {
        Some(span) => span.start,
        None => 0,
    }
}

/// The line at which the reader of a text stopped, and what it says.
fn form_fault(alloc: Global, text: &[u8], error: &Error) -> Result<(usize, String), AllocError>
    requires within { IsWithin text.now error.now }
    requires none { IsNoDocument text.now }
    ensures { IfOk result (λ fault. IsFormFault text.now fault.0) }
{
    let before = start_of(text, error);
    let message = String::from_str(alloc, error.message())?;
    Ok((line_after(text, before), message))
}

/// The line at which a wrong member of a text begins, and what is wrong.
fn member_fault(
    alloc: Global,
    folder: &str,
    keys: &[Key],
    text: &[u8],
    wrong: Wrong,
) -> Result<(usize, Wrong), AllocError>
    requires { IsWrong folder.now keys.now text.now wrong }
    ensures { IfOk result (λ fault. IsMemberFault folder.now keys.now text.now fault.0 fault.1) }
{
    match through_lines(alloc, folder, keys, text)? {
        Lines::Refused(line, wrong) => Ok((line, wrong)),
        Lines::Through(line) => Ok((line, wrong)),
    }
}

/// What a text of settings in this folder says, or why it is refused. The folder is a text in front of names of files:
/// it is empty or ends with `/`. `AllocError` if memory runs out.
pub fn read_settings(
    alloc: Global,
    folder: &str,
    keys: &[Key],
    text: &[u8],
) -> Result<Result<Vec<Setting>, Refusal>, AllocError>
    ensures { IfOk result (λ settings. MatchResult settings
        (λ all. settings_of folder.now keys.now text.now ≡ Some (map setting_view all.items))
        (IsRefusal folder.now keys.now text.now)) }
{
    match look_at(alloc, folder, keys, text)? {
        Look::Read(settings) => Ok(Ok(settings)),
        Look::Wrong(wrong) => {
            let (line, wrong) = member_fault(alloc, folder, keys, text, wrong)?;
            Ok(Err(Refusal::Member(line, wrong)))
        }
        Look::Unfinished(error) => {
            let (line, message) = form_fault(alloc, text, &error)?;
            Ok(Err(Refusal::Form(line, message)))
        }
    }
}
