//! Lines that tell calls that are refused.
ghost use Rattle.std.specs.Prelude.{◌≡◌, ◌++◌, IfOk, OnOk};
ghost use Rattle.std.specs.List.{flat_map};
ghost use Rattle.fmp_frames.specs.RefusalLines as spec;
ghost use Rattle.fmp_frames.specs.Refusals.{refused_of};

use crate::call_positions::CallPosition;
use crate::positioned_lines::LineForm;
use crate::refusals::{Refusal, RefusedCall};
use crate::sites::CallSite;
use fmp_base::Er;
use fmp_json::{
    append, append_number, begin, begin_list, end_list, finish, number_member, text_member,
};
use json::Writer;
use std::alloc::{AllocError, Global};

/// How often a call was refused, in words.
fn refusal_words(refusal: Refusal) -> &'static [u8]
    ensures { result.now ≡ spec.refusal_words refusal }
{
    match refusal {
        Refusal::Always => b" is always refused:",
        Refusal::Sometimes => b" is sometimes refused:",
    }
}

/// Appends where a call stands: in this file, or in the code.
fn append_site(
    file: &[u8],
    position: Option<CallPosition>,
    site: CallSite,
    out: &mut Vec<u8>,
) -> Result<(), AllocError>
    ensures { OnOk result (out.new.items ≡ out.old.items ++ spec.site_text file.now position site) }
{
    match position {
        Some(position) => {
            append(file, out)?;
            append(b":", out)?;
            append_number(u64::from(position.line), out)?;
            append(b":", out)?;
            append_number(position.column as u64, out)
        }
        None => {
            append(b"body ", out)?;
            append_number(u64::from(site.body), out)?;
            append(b" at ", out)?;
            append_number(u64::from(site.pc), out)
        }
    }
}

/// Appends a code after a blank.
fn append_code(code: Er, out: &mut Vec<u8>) -> Result<(), AllocError>
    ensures { OnOk result (out.new.items ≡ out.old.items ++ spec.name_text code) }
{
    append(b" ", out)?;
    append(code.name().as_bytes(), out)
}

/// Appends codes, each after a blank.
fn append_codes(codes: &[Er], out: &mut Vec<u8>) -> Result<(), AllocError>
    ensures { OnOk result (out.new.items ≡ out.old.items ++ flat_map (λ c. spec.name_text c) codes.now) }
{
    for code in codes {
        append_code(*code, out)?;
    }
    Ok(())
}

/// Appends a line for readers.
#[tactic(auto, unfolding(crate::specs::RefusalLines::refused_text))]
fn append_text(
    file: &[u8],
    position: Option<CallPosition>,
    call: &RefusedCall,
    out: &mut Vec<u8>,
) -> Result<(), AllocError>
    ensures { OnOk result (out.new.items
        ≡ out.old.items ++ spec.refused_text file.now position (refused_of call.now)) }
{
    append_site(file, position, call.site, out)?;
    append(b": ", out)?;
    append(call.service.name().as_bytes(), out)?;
    append(refusal_words(call.refusal), out)?;
    append_codes(&call.codes, out)?;
    append(b"\n", out)
}

/// Writes where a call stands: in its text, or in the code.
fn write_site(
    writer: &mut Writer,
    position: Option<CallPosition>,
    site: CallSite,
) -> Result<(), AllocError>
    ensures before { writer.new.before ≡ writer.old.before }
    ensures tokens { OnOk result (writer.new.tokens ≡ writer.old.tokens ++ spec.site_members position site) }
{
    match position {
        Some(position) => {
            number_member(writer, "line", u64::from(position.line))?;
            number_member(writer, "column", position.column as u64)
        }
        None => {
            number_member(writer, "body", u64::from(site.body))?;
            number_member(writer, "place", u64::from(site.pc))
        }
    }
}

/// How often a call was refused, in a word.
fn refusal_word(refusal: Refusal) -> &'static str
    ensures { result.now ≡ spec.refusal_word refusal }
{
    match refusal {
        Refusal::Always => "always",
        Refusal::Sometimes => "sometimes",
    }
}

/// Writes the names of codes.
fn write_names(writer: &mut Writer, codes: &[Er]) -> Result<(), AllocError>
    ensures before { writer.new.before ≡ writer.old.before }
    ensures tokens { OnOk result (writer.new.tokens ≡ writer.old.tokens ++ spec.name_tokens codes.now) }
{
    for code in codes {
        writer.string(code.name())?;
    }
    Ok(())
}

/// Writes the codes by which a call is refused.
fn write_codes(writer: &mut Writer, codes: &[Er]) -> Result<(), AllocError>
    ensures before { writer.new.before ≡ writer.old.before }
    ensures tokens { OnOk result (writer.new.tokens ≡ writer.old.tokens ++ spec.code_members codes.now) }
{
    begin_list(writer, "answers")?;
    write_names(writer, codes)?;
    end_list(writer)
}

/// An object of JSON in a line.
fn record_of(
    alloc: Global,
    position: Option<CallPosition>,
    call: &RefusedCall,
) -> Result<Vec<u8>, AllocError>
    ensures { IfOk result (λ line. line.items ≡ spec.refused_record position (refused_of call.now)) }
{
    let mut writer = begin(alloc)?;
    write_site(&mut writer, position, call.site)?;
    text_member(&mut writer, "call", call.service.name())?;
    text_member(&mut writer, "refused", refusal_word(call.refusal))?;
    write_codes(&mut writer, &call.codes)?;
    finish(writer)
}

/// Appends a line on a refused call: its position in this file, or in the code if that is not known; which call it is;
/// how often it was refused, and by which codes. A record does not name the file. `AllocError` if memory runs out.
pub fn append_refused(
    alloc: Global,
    form: LineForm,
    file: &[u8],
    position: Option<CallPosition>,
    call: &RefusedCall,
    out: &mut Vec<u8>,
) -> Result<(), AllocError>
    ensures { OnOk result (out.new.items
        ≡ out.old.items ++ spec.refused_line form file.now position (refused_of call.now)) }
{
    match form {
        LineForm::Text => append_text(file, position, call, out),
        LineForm::Record => {
            let record = record_of(alloc, position, call)?;
            append(&record, out)
        }
    }
}
