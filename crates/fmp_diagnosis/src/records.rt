//! A finding as an object of JSON in one line, for editors and other programs.
ghost use Rattle.std.specs.Prelude.{◌≡◌, ◌++◌, IfOk, OnOk};
ghost use Rattle.std.specs.String.{string_bytes};
ghost use Rattle.fmp_diagnosis.specs.Records as spec;

use crate::reports::FaultReport;
use fmp_json::{begin, finish, number_member, text_member};
use json::Writer;
use std::alloc::{AllocError, Global};

/// Writes where a finding stands, under the name of its file.
fn write_position(writer: &mut Writer, name: &str, finding: &FaultReport) -> Result<(), AllocError>
    ensures before { writer.new.before ≡ writer.old.before }
    ensures tokens { OnOk result (writer.new.tokens ≡ writer.old.tokens ++ spec.position_members name.now finding.now) }
{
    text_member(writer, "file", name)?;
    number_member(writer, "line", u64::from(finding.line))?;
    number_member(writer, "column", finding.excerpt.column as u64)?;
    number_member(writer, "end", finding.end as u64)
}

/// Writes the members of a finding of this code and with this sentence.
fn write_members(
    writer: &mut Writer,
    name: &str,
    finding: &FaultReport,
    code: &str,
    sentence: &str,
) -> Result<(), AllocError>
    ensures before { writer.new.before ≡ writer.old.before }
    ensures tokens { OnOk result (writer.new.tokens
        ≡ writer.old.tokens ++ spec.members name.now finding.now code.now sentence.now) }
{
    write_position(writer, name, finding)?;
    text_member(writer, "code", code)?;
    text_member(writer, "sentence", sentence)
}

/// The code of a finding in one text.
fn code_of(alloc: Global, finding: &FaultReport) -> Result<String, AllocError>
    ensures { IfOk result (λ code. string_bytes code ≡ finding.now.code.now ++ finding.now.refusal.now) }
{
    let mut code = String::from_str(alloc, finding.code)?;
    code.push_str(finding.refusal)?;
    Ok(code)
}

impl FaultReport {
    /// The finding as an object of JSON with a line feed after it, under the name of its file: its members are `file`,
    /// `line`, `column`, `end` (the column after the token), `code` and `sentence`. Bytes of the sentence that are no
    /// UTF-8 are replaced. `AllocError` if memory runs out.
    pub fn record(&self, alloc: Global, name: &str) -> Result<Vec<u8>, AllocError>
        ensures { IfOk result (λ out. out.items ≡ spec.record_text name.now self.now) }
    {
        let code = code_of(alloc, self)?;
        let sentence = String::from_utf8_lossy(alloc, &self.sentence)?;
        let mut writer = begin(alloc)?;
        write_members(&mut writer, name, self, &code, &sentence)?;
        finish(writer)
    }
}
