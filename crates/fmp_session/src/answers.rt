//! The answers of a session, each an object of JSON in a line.
ghost use Rattle.std.specs.Prelude.{◌≡◌, ◌++◌, IfOk, OnOk, map};
ghost use Rattle.fmp_session.specs.Answers as spec;

use fmp_json::{append, append_number, begin, finish, number_member, text_member};
use json::Writer;
use std::alloc::{AllocError, Global};

/// A record of what is told: which kind it is, and the text. `AllocError` if memory runs out, as of each call below.
pub fn note(alloc: Global, what: &str, text: &[u8]) -> Result<Vec<u8>, AllocError>
    ensures { IfOk result (λ line. line.items ≡ spec.note what.now text.now) }
{
    let text = String::from_utf8_lossy(alloc, text)?;
    let mut writer = begin(alloc)?;
    text_member(&mut writer, "what", what)?;
    text_member(&mut writer, "text", &text)?;
    finish(writer)
}

/// Writes the value of an object.
fn value_member(writer: &mut Writer, value: i32) -> Result<(), AllocError>
    ensures before { writer.new.before ≡ writer.old.before }
    ensures tokens { OnOk result (writer.new.tokens ≡ writer.old.tokens ++ spec.value_member value) }
{
    writer.key("value")?;
    writer.i64(i64::from(value))
}

/// Writes an object of this kind and name, with its value.
fn write_object(writer: &mut Writer, kind: &str, name: &str, value: i32) -> Result<(), AllocError>
    ensures before { writer.new.before ≡ writer.old.before }
    ensures tokens { OnOk result (writer.new.tokens
        ≡ writer.old.tokens ++ spec.object_members kind.now name.now value) }
{
    text_member(writer, "kind", kind)?;
    text_member(writer, "name", name)?;
    value_member(writer, value)
}

/// A record of an object of this kind and name, with its value.
pub fn object_record(
    alloc: Global,
    kind: &str,
    name: &[u8],
    value: i32,
) -> Result<Vec<u8>, AllocError>
    ensures { IfOk result (λ line. line.items ≡ spec.object_record kind.now name.now value) }
{
    let name = String::from_utf8_lossy(alloc, name)?;
    let mut writer = begin(alloc)?;
    text_member(&mut writer, "what", "object")?;
    write_object(&mut writer, kind, &name, value)?;
    finish(writer)
}

/// A comma in place of a line feed.
fn comma_for(byte: u8) -> u8
    ensures { result ≡ spec.comma_for byte }
{
    if byte == b'\n' { b',' } else { byte }
}

/// Puts commas in place of line feeds.
fn put_commas(bytes: &mut [u8])
    ensures { bytes.new ≡ map spec.comma_for bytes.old }
{
    for byte in bytes.iter_mut() {
        *byte = comma_for(*byte);
    }
}

/// Records, each of which is a line, with commas between them.
fn joined(records: Vec<u8>) -> Vec<u8>
    ensures { result.items ≡ spec.joined records.items }
{
    let mut records = records;
    records.truncate(records.len().saturating_sub(1));
    put_commas(records.as_mut_slice());
    records
}

/// The answer to a line that made these records, each of which is a line; the session has this many events then.
pub fn answer_line(alloc: Global, events: usize, records: Vec<u8>) -> Result<Vec<u8>, AllocError>
    ensures { IfOk result (λ line. line.items ≡ spec.answer events records.items) }
{
    let records = joined(records);
    let mut line = Vec::new(alloc);
    append(b"{\"events\":", &mut line)?;
    append_number(events as u64, &mut line)?;
    append(b",\"records\":[", &mut line)?;
    append(&records, &mut line)?;
    append(b"]}\n", &mut line)?;
    Ok(line)
}

/// The answer to a line that failed, with the reason; the session has this many events, as before.
pub fn failure_line(alloc: Global, events: usize, reason: &str) -> Result<Vec<u8>, AllocError>
    ensures { IfOk result (λ line. line.items ≡ spec.failure events reason.now) }
{
    let mut writer = begin(alloc)?;
    number_member(&mut writer, "events", events as u64)?;
    text_member(&mut writer, "error", reason)?;
    finish(writer)
}
