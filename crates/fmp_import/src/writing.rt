//! The configuration that is written.
ghost use Rattle.std.specs.Prelude.{◌≡◌, ◌++◌, map, OnOk};
ghost use Rattle.fmp_import.specs.Written as spec;
ghost use Rattle.fmp_import.specs.Written.{block_text, block_view, blocks_text, class_text, further_text, item_text};
ghost use Rattle.fmp_import.specs.Written.{more_text, or_text, plan_text, record_text, record_view, records_text};

use crate::plan::{Block, PlanItem, Record, SourceClass};
use crate::text::{append, append_count, append_signed};
use crate::words::word_of;
use fmp_base::words::Constant;
use std::alloc::AllocError;

/// Appends a further constant of an attribute, if there is one.
fn append_or(constant: Option<Constant>, out: &mut Vec<u8>) -> Result<(), AllocError>
    ensures { OnOk result (out.new.items ≡ out.old.items ++ or_text constant) }
{
    match constant {
        None => Ok(()),
        Some(constant) => {
            append(b" | ", out)?;
            append(constant.name().as_bytes(), out)
        }
    }
}

/// Appends what a static API is given at one place.
fn append_item(source: &[u8], item: PlanItem, out: &mut Vec<u8>) -> Result<(), AllocError>
    ensures { OnOk result (out.new.items ≡ out.old.items ++ item_text source.now item) }
{
    match item {
        PlanItem::Name(span) => append(word_of(source, span), out),
        PlanItem::Escaped(span) => {
            append(word_of(source, span), out)?;
            append(b"_", out)
        }
        PlanItem::Number(number) => append_signed(number, out),
        PlanItem::Attribute(first, second, third) => {
            append(first.name().as_bytes(), out)?;
            append_or(second, out)?;
            append_or(third, out)
        }
        PlanItem::Null => append(b"NULL", out),
    }
}

/// Appends something that stands after an attribute.
#[tactic(auto, unfolding(crate::specs::Written::further_text))]
fn append_further(source: &[u8], item: PlanItem, out: &mut Vec<u8>) -> Result<(), AllocError>
    ensures { OnOk result (out.new.items ≡ out.old.items ++ further_text source.now item) }
{
    append(b", ", out)?;
    append_item(source, item, out)
}

/// Appends what stands after an attribute.
fn append_more(source: &[u8], items: &[PlanItem], out: &mut Vec<u8>) -> Result<(), AllocError>
    ensures { OnOk result (out.new.items ≡ out.old.items ++ more_text source.now items.now) }
{
    for item in items {
        append_further(source, *item, out)?;
    }
    Ok(())
}

/// Appends what stands before the attribute of an object.
#[tactic(auto, unfolding(crate::specs::Written::front_text))]
fn append_front(source: &[u8], object: &Record, out: &mut Vec<u8>) -> Result<(), AllocError>
    ensures { OnOk result (out.new.items ≡ out.old.items ++ spec.front_text source.now (record_view object.now)) }
{
    append(b"    ", out)?;
    append(object.api.name().as_bytes(), out)?;
    append(b"(", out)?;
    append_item(source, object.subject, out)?;
    append(b", { ", out)
}

/// Appends an object.
#[tactic(auto, unfolding(crate::specs::Written::record_text))]
fn append_record(source: &[u8], object: &Record, out: &mut Vec<u8>) -> Result<(), AllocError>
    ensures { OnOk result (out.new.items ≡ out.old.items ++ record_text source.now (record_view object.now)) }
{
    append_front(source, object, out)?;
    append_item(source, object.attribute, out)?;
    append_more(source, &object.rest, out)?;
    append(b" });\n", out)
}

/// Appends objects.
fn append_records(source: &[u8], objects: &[Record], out: &mut Vec<u8>) -> Result<(), AllocError>
    ensures { OnOk result (out.new.items ≡ out.old.items ++ records_text source.now (map record_view objects.now)) }
{
    for object in objects {
        append_record(source, object, out)?;
    }
    Ok(())
}

/// What stands after the number of a class.
fn only_text(only: bool) -> &'static [u8]
    ensures { result.now ≡ spec.only_text only }
{
    if only { b"_ONLY" } else { b"" }
}

/// Appends the name of a class.
#[tactic(auto, unfolding(crate::specs::Written::class_text))]
fn append_class(class: SourceClass, out: &mut Vec<u8>) -> Result<(), AllocError>
    ensures { OnOk result (out.new.items ≡ out.old.items ++ class_text class) }
{
    append(b"TCL_", out)?;
    append_count(usize::from(class.processor), out)?;
    append(only_text(class.only), out)
}

/// Appends the objects of a class.
#[tactic(auto, unfolding(crate::specs::Written::block_text))]
fn append_block(source: &[u8], block: &Block, out: &mut Vec<u8>) -> Result<(), AllocError>
    ensures { OnOk result (out.new.items ≡ out.old.items ++ block_text source.now (block_view block.now)) }
{
    append(b"CLASS(", out)?;
    append_class(block.class, out)?;
    append(b") {\n", out)?;
    append_records(source, &block.records, out)?;
    append(b"}\n", out)
}

/// Appends the objects of classes.
fn append_blocks(source: &[u8], blocks: &[Block], out: &mut Vec<u8>) -> Result<(), AllocError>
    ensures { OnOk result (out.new.items ≡ out.old.items ++ blocks_text source.now (map block_view blocks.now)) }
{
    for block in blocks {
        append_block(source, block, out)?;
    }
    Ok(())
}

/// Appends the configuration of these objects for this number of processors.
#[tactic(auto, unfolding(crate::specs::Written::plan_text))]
pub fn append_plan(
    source: &[u8],
    processors: usize,
    blocks: &[Block],
    out: &mut Vec<u8>,
) -> Result<(), AllocError>
    ensures { OnOk result (out.new.items
        ≡ out.old.items ++ plan_text source.now processors (map block_view blocks.now)) }
{
    append(b"NUM_PRC(", out)?;
    append_count(processors, out)?;
    append(b");\n", out)?;
    append_blocks(source, blocks, out)
}
