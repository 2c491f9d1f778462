//! Texts as XML has them.
ghost use Rattle.std.specs.Prelude.{◌≡◌, ◌++◌, OnOk, true};
ghost use Rattle.std.specs.List.{list_all};
ghost use Rattle.fmp_json.specs.Xml as spec;
ghost use Rattle.fmp_json.specs.Junit as reports;

use crate::text::append;
use itoa::Buffer;
use std::alloc::AllocError;

/// The reference that stands for a byte; none for a byte that stands for itself.
#[tactic(auto, unfolding(crate::specs::Xml::escaped_byte))]
fn append_byte(byte: u8, out: &mut Vec<u8>) -> Result<(), AllocError>
    ensures { OnOk result (out.new.items ≡ out.old.items ++ spec.escaped_byte byte) }
{
    match byte {
        b'&' => append(b"&amp;", out),
        b'<' => append(b"&lt;", out),
        b'>' => append(b"&gt;", out),
        b'"' => append(b"&quot;", out),
        b'\t' => append(b"&#9;", out),
        b'\n' => append(b"&#10;", out),
        b'\r' => append(b"&#13;", out),
        0..=31 => append(b"?", out),
        _ => append(&[byte], out),
    }
}

/// A byte of a text after these two. The last byte of U+FFFE and of U+FFFF becomes that of U+FFFD.
#[tactic(auto, unfolding(crate::specs::Xml::fit_byte))]
fn fit_byte(before: u8, last: u8, byte: u8) -> u8
    ensures { result ≡ spec.fit_byte before last byte }
{
    if before == 0xEF && last == 0xBF && byte >= 0xBE {
        0xBD
    } else {
        byte
    }
}

/// Appends a text as a value of an attribute has it.
fn append_escaped(text: &str, out: &mut Vec<u8>) -> Result<(), AllocError>
    ensures written { OnOk result (out.new.items ≡ out.old.items ++ spec.escaped (spec.fit text.now)) }
    ensures plain { list_all spec.is_plain (spec.escaped (spec.fit text.now)) ≡ true }
{
    let mut before: u8 = 0;
    let mut last: u8 = 0;
    for byte in text.as_bytes() {
        append_byte(fit_byte(before, last, *byte), out)?;
        before = last;
        last = *byte;
    }
    Ok(())
}

/// Appends a byte of a content.
#[tactic(auto, unfolding(crate::specs::Xml::content_byte))]
fn append_content_byte(byte: u8, out: &mut Vec<u8>) -> Result<(), AllocError>
    ensures { OnOk result (out.new.items ≡ out.old.items ++ spec.content_byte byte) }
{
    if byte == b'\n' {
        append(&[byte], out)
    } else {
        append_byte(byte, out)
    }
}

/// Appends a text as the content of an element has it: its lines stay lines.
pub fn append_content(text: &str, out: &mut Vec<u8>) -> Result<(), AllocError>
    ensures written { OnOk result (out.new.items ≡ out.old.items ++ spec.content (spec.fit text.now)) }
    ensures plain { list_all spec.is_plain_content (spec.content (spec.fit text.now)) ≡ true }
{
    let mut before: u8 = 0;
    let mut last: u8 = 0;
    for byte in text.as_bytes() {
        append_content_byte(fit_byte(before, last, *byte), out)?;
        before = last;
        last = *byte;
    }
    Ok(())
}

/// Appends what stands in front of a value of an attribute.
fn append_name(name: &[u8], out: &mut Vec<u8>) -> Result<(), AllocError>
    ensures { OnOk result (out.new.items ≡ out.old.items ++ reports.name_text name.now) }
{
    append(b" ", out)?;
    append(name, out)?;
    append(b"=\"", out)
}

/// Appends an attribute whose value is a text.
#[tactic(auto, unfolding(crate::specs::Junit::text_attribute))]
pub fn append_text(name: &[u8], text: &str, out: &mut Vec<u8>) -> Result<(), AllocError>
    ensures { OnOk result (out.new.items ≡ out.old.items ++ reports.text_attribute name.now text.now) }
{
    append_name(name, out)?;
    append_escaped(text, out)?;
    append(b"\"", out)
}

/// Appends an attribute whose value is a number.
#[tactic(auto, unfolding(crate::specs::Junit::number_attribute))]
pub fn append_number(name: &[u8], number: usize, out: &mut Vec<u8>) -> Result<(), AllocError>
    ensures { OnOk result (out.new.items ≡ out.old.items ++ reports.number_attribute name.now number) }
{
    append_name(name, out)?;
    append(Buffer::new().format(number).as_bytes(), out)?;
    append(b"\"", out)
}
