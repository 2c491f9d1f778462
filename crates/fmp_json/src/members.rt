//! Objects of JSON, one in a line.
ghost use Rattle.std.specs.Prelude.{◌≡◌, ◌∷◌, [], ◌++◌, IfOk, OnOk};
ghost use Rattle.json.specs.Token.{begin_object};
ghost use Rattle.fmp_json.specs.Members as spec;
ghost use Rattle.fmp_json.specs.Members.{finished};

use json::Writer;
use std::alloc::{AllocError, Global};

/// Begins an object. `AllocError` if memory runs out, as of each call below.
pub fn begin(alloc: Global) -> Result<Writer, AllocError>
    ensures before { IfOk result (λ writer. writer.before ≡ []) }
    ensures tokens { IfOk result (λ writer. writer.tokens ≡ begin_object ∷ []) }
{
    let mut writer = Writer::new(Vec::new(alloc));
    writer.begin_object()?;
    Ok(writer)
}

/// Writes a member whose value is a text.
#[tactic(auto, unfolding(crate::specs::Members::text_member))]
pub fn text_member(writer: &mut Writer, name: &str, text: &str) -> Result<(), AllocError>
    ensures before { writer.new.before ≡ writer.old.before }
    ensures tokens { OnOk result (writer.new.tokens ≡ writer.old.tokens ++ spec.text_member name.now text.now) }
{
    writer.key(name)?;
    writer.string(text)
}

/// Writes a member whose value is a number.
#[tactic(auto, unfolding(crate::specs::Members::number_member))]
pub fn number_member(writer: &mut Writer, name: &str, value: u64) -> Result<(), AllocError>
    ensures before { writer.new.before ≡ writer.old.before }
    ensures tokens { OnOk result (writer.new.tokens ≡ writer.old.tokens ++ spec.number_member name.now value) }
{
    writer.key(name)?;
    writer.u64(value)
}

/// Begins a member whose value is a list.
#[tactic(auto, unfolding(crate::specs::Members::list_begin))]
pub fn begin_list(writer: &mut Writer, name: &str) -> Result<(), AllocError>
    ensures before { writer.new.before ≡ writer.old.before }
    ensures tokens { OnOk result (writer.new.tokens ≡ writer.old.tokens ++ spec.list_begin name.now) }
{
    writer.key(name)?;
    writer.begin_array()
}

/// Ends a member whose value is a list.
#[tactic(auto, unfolding(crate::specs::Members::list_end))]
pub fn end_list(writer: &mut Writer) -> Result<(), AllocError>
    ensures before { writer.new.before ≡ writer.old.before }
    ensures tokens { OnOk result (writer.new.tokens ≡ writer.old.tokens ++ spec.list_end) }
{
    writer.end_array()
}

/// Ends an object that was begun, and gives its line.
#[tactic(auto, unfolding(crate::specs::Members::finished))]
pub fn finish(mut writer: Writer) -> Result<Vec<u8>, AllocError>
    requires { writer.before ≡ [] }
    ensures { IfOk result (λ line. line.items ≡ finished writer.tokens) }
{
    writer.end_object()?;
    let mut line = writer.into_inner();
    line.push(b'\n')?;
    Ok(line)
}
