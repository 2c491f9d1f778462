//! What lines of the files are made of.
ghost use Rattle.std.specs.Prelude.{◌≡◌, ◌++◌, ◌<◌, ◌^◌, map, slice_get, OnOk};
ghost use Rattle.fmp_tasklang.specs.Views.{body_view};
ghost use Rattle.fmp_toppers.specs.Lines as spec;

use crate::target::Target;
use fmp_base::{Entry, Name};
use fmp_export::{append, append_count, append_function, append_name, append_signed};
use fmp_tasklang::Body;
use std::alloc::AllocError;

/// Appends a word that ends with a number.
#[tactic(auto, unfolding(crate::specs::Lines::numbered))]
pub fn append_numbered(word: &[u8], number: usize, out: &mut Vec<u8>) -> Result<(), AllocError>
    ensures { OnOk result (out.new.items ≡ out.old.items ++ spec.numbered word.now number) }
{
    append(word, out)?;
    append_count(number, out)
}

/// Appends what stands before the number of the processor in the name of a class.
fn append_class_front(target: Target, only: bool, out: &mut Vec<u8>) -> Result<(), AllocError>
    ensures { OnOk result (out.new.items ≡ out.old.items ++ spec.class_front target only) }
{
    match target {
        Target::Fmp1 => append(b"CLASS(TCL_", out),
        Target::Fmp3 if only => append(b"CLASS(CLS_PRC", out),
        Target::Fmp3 => append(b"CLASS(CLS_ALL_PRC", out),
    }
}

/// Appends what stands after that number.
fn append_class_back(target: Target, only: bool, out: &mut Vec<u8>) -> Result<(), AllocError>
    ensures { OnOk result (out.new.items ≡ out.old.items ++ spec.class_back target only) }
{
    match target {
        Target::Fmp1 if only => append(b"_ONLY) { ", out),
        Target::Fmp1 | Target::Fmp3 => append(b") { ", out),
    }
}

/// Opens the class of the processor at a place: that one alone, or all with that one at first.
#[tactic(auto, unfolding(crate::specs::Lines::class_opened))]
pub fn open_class(
    target: Target,
    only: bool,
    place: u8,
    out: &mut Vec<u8>,
) -> Result<(), AllocError>
    ensures { OnOk result (out.new.items ≡ out.old.items ++ spec.class_opened target only place) }
{
    append_class_front(target, only, out)?;
    append_count(usize::from(place) + 1, out)?;
    append_class_back(target, only, out)
}

/// Opens a static API, up to its packet.
#[tactic(auto, unfolding(crate::specs::Lines::api_opened))]
pub fn open_api(word: &[u8], name: &Name, out: &mut Vec<u8>) -> Result<(), AllocError>
    ensures { OnOk result (out.new.items ≡ out.old.items ++ spec.api_opened word.now name.now) }
{
    append(word, out)?;
    append(b"(", out)?;
    append_name(name, out)?;
    append(b", { ", out)
}

/// Closes a packet, its static API and its class.
#[tactic(auto, unfolding(crate::specs::Lines::api_closed))]
pub fn close_api(out: &mut Vec<u8>) -> Result<(), AllocError>
    ensures { OnOk result (out.new.items ≡ out.old.items ++ spec.api_closed) }
{
    append(b" }); }\n", out)
}

/// Closes a packet of which the last field is `NULL`, its static API and its class.
#[tactic(auto, unfolding(crate::specs::Lines::api_closed_by_null))]
pub fn close_api_by_null(out: &mut Vec<u8>) -> Result<(), AllocError>
    ensures { OnOk result (out.new.items ≡ out.old.items ++ spec.api_closed_by_null) }
{
    append(b", NULL }); }\n", out)
}

/// Appends a further field of a packet.
#[tactic(auto, unfolding(crate::specs::Lines::count_field))]
pub fn append_count_field(count: usize, out: &mut Vec<u8>) -> Result<(), AllocError>
    ensures { OnOk result (out.new.items ≡ out.old.items ++ spec.count_field count) }
{
    append(b", ", out)?;
    append_count(count, out)
}

/// Appends a further field, which may be negative.
#[tactic(auto, unfolding(crate::specs::Lines::signed_field))]
pub fn append_signed_field(number: i32, out: &mut Vec<u8>) -> Result<(), AllocError>
    ensures { OnOk result (out.new.items ≡ out.old.items ++ spec.signed_field number) }
{
    append(b", ", out)?;
    append_signed(number, out)
}

/// Appends a further field, a time in ticks.
#[tactic(auto, unfolding(crate::specs::Lines::time_field))]
pub fn append_time_field(ticks: u32, out: &mut Vec<u8>) -> Result<(), AllocError>
    ensures { OnOk result (out.new.items ≡ out.old.items ++ spec.time_field ticks) }
{
    append_count_field(ticks as usize, out)?;
    append(b" * FMP_TICK", out)
}

/// Appends the function of the body at a place, if there is one.
#[tactic(auto, using(crate::proofs::Entries::function_at, crate::proofs::Entries::no_function))]
fn append_function_at(bodies: &[Body], place: usize, out: &mut Vec<u8>) -> Result<(), AllocError>
    ensures { OnOk result (out.new.items ≡ out.old.items
        ++ spec.body_function (slice_get (map body_view bodies.now) place)) }
{
    if place < bodies.len() {
        append_function(&bodies[place].name.name, out)
    } else {
        Ok(())
    }
}

/// Appends the function of an entry.
pub fn append_entry(bodies: &[Body], entry: &Entry, out: &mut Vec<u8>) -> Result<(), AllocError>
    ensures { OnOk result (out.new.items ≡ out.old.items
        ++ spec.entry_text (map body_view bodies.now) entry.now) }
{
    match entry {
        Entry::Named(name) => append_function(name, out),
        Entry::Body(place) => append_function_at(bodies, usize::from(*place), out),
    }
}

/// Appends a further field, the function of an entry.
#[tactic(auto, unfolding(crate::specs::Lines::entry_field))]
pub fn append_entry_field(
    bodies: &[Body],
    entry: &Entry,
    out: &mut Vec<u8>,
) -> Result<(), AllocError>
    ensures { OnOk result (out.new.items ≡ out.old.items
        ++ spec.entry_field (map body_view bodies.now) entry.now) }
{
    append(b", ", out)?;
    append_entry(bodies, entry, out)
}
