//! Making a system from its configuration or its image, and giving its memory back.
ghost use Rattle.std.specs.Prelude.{◌≡◌, ◌<◌, ◌≤◌, ◌^◌, Err, None, IsSome, IfErr, IfOk};
ghost use Rattle.fmp_base.specs.Codes.{code_of};
ghost use Rattle.fmp_cfgparse.specs.Configurations.{IsRead};
ghost use Rattle.fmp_image_bytes.specs.Images.{image_at};
ghost use Rattle.fmp_image_bytes.specs.Fields.{Fails};
ghost use Rattle.fmp_c.specs.Exports.{IsFirst, IsMade, IsNoSystem, kind_code, kind_number};
ghost use Rattle.fmp_c.specs.Exports.{IsCheckedMachine, IsFirstChecked, IsFirstOf, IsLoaded, IsNoBound, IsToldOfImage};
ghost use Rattle.fmp_c.specs.Exports.{image_number};

use crate::handle::FmpSystem;
use crate::machine::Machine;
use crate::records::FmpRefusal;
use fmp_checked::Checked;
use fmp_foreign::HostedSystem;
use fmp_image_bytes::{Image, ImageFault, LoadFault, load};
use fmp_lex::{BuildFault, FaultKind};
use fmp_trace::Page;
use std::alloc::{AllocError, Global};
use std::mem;

fn kind_number(why: FaultKind) -> u32
    ensures { result ≡ kind_number why }
{
    match why {
        FaultKind::Syntax => 1,
        FaultKind::TwiceNamed => 2,
        FaultKind::UnknownName => 3,
        FaultKind::Api(_) => 4,
        FaultKind::Limit => 5,
        FaultKind::StackTooSmall => 6,
        FaultKind::WrongEntryKind => 7,
        FaultKind::Shape => 9,
    }
}

fn kind_code(why: FaultKind) -> i32
    ensures { result ≡ kind_code why }
{
    match why {
        FaultKind::Api(code) => code.code(),
        _ => 0,
    }
}

/// What C is told of a fault: 1 where the text is refused, 3 where memory ran out.
fn refuse(fault: BuildFault, out: &mut FmpRefusal) -> u32
    ensures { IsNoSystem fault out.old out.new result }
{
    match fault {
        BuildFault::Memory => 3,
        BuildFault::At(_, place, why) => {
            *out = FmpRefusal {
                line: place.line,
                kind: kind_number(why),
                code: kind_code(why),
            };
            1
        }
    }
}

/// A value in a box. `AllocError` where memory runs out.
fn boxed<T: Drop>(alloc: Global, value: T) -> Result<Box<T, Global>, AllocError>
    ensures { IfOk result (λ b. b.value ≡ value) }
{
    match Box::new(alloc, value) {
        Ok(boxed) => Ok(boxed),
        Err(_) => Err(AllocError),
    }
}

/// A hosted system without a text, before the first event.
fn plain(hosted: HostedSystem) -> Machine
    ensures hosted { result.hosted ≡ hosted }
    ensures text { result.text ≡ None }
    ensures last { result.last ≡ None }
{
    Machine {
        hosted,
        text: None,
        last: None,
        page: Page::new(),
    }
}

/// The system that a configuration describes, after setup.
#[tactic(auto, using(crate::proofs::Taken::first_plain))]
fn made(alloc: Global, text: &[u8]) -> Result<Box<Machine, Global>, BuildFault>
    ensures new { IfOk result (λ b. IsFirst text.now b.value) }
    ensures refused { IfErr result (λ fault. IsRead text.now (Err fault)) }
{
    let hosted = HostedSystem::new(alloc, text)?;
    match boxed(alloc, plain(hosted)) {
        Ok(machine) => Ok(machine),
        Err(_) => Err(BuildFault::Memory),
    }
}

/// Puts the system that a configuration describes, after setup, into a blank handle: the answer is 0. Else the handle
/// stays blank: 1 if the text is refused, for this fault; 3 if memory runs out. 4 if the handle holds a system already,
/// which it keeps.
#[unsafe(no_mangle)]
pub extern "C" fn fmp_new(
    alloc: Global,
    text: &[u8],
    h: &mut FmpSystem,
    out: &mut FmpRefusal,
) -> u32
    ensures made { h.old.machine ≡ None → IsMade text.now h.new.machine out.old out.new result }
    ensures held { IsSome h.old.machine → (h.new.machine ≡ h.old.machine) × (out.new ≡ out.old) × (result ≡ 4) }
{
    match mem::replace(h, FmpSystem::blank()).into_box(alloc) {
        Some(held) => {
            *h = FmpSystem::of(held);
            4
        }
        None => match made(alloc, text) {
            Ok(machine) => {
                *h = FmpSystem::of(machine);
                0
            }
            Err(fault) => refuse(fault, out),
        },
    }
}

fn image_number(why: ImageFault) -> u32
    ensures { result ≡ image_number why }
{
    match why {
        ImageFault::Short => 1,
        ImageFault::Magic => 2,
        ImageFault::Version => 3,
        ImageFault::Table => 4,
        ImageFault::Code => 5,
        ImageFault::Trailing => 6,
    }
}

/// What C is told of a fault of an image.
fn refuse_image(fault: LoadFault, out: &mut FmpRefusal) -> u32
    ensures { IsToldOfImage fault out.old out.new result }
{
    match fault {
        LoadFault::Memory => 3,
        LoadFault::Image(why) => {
            *out = FmpRefusal {
                line: 0,
                kind: image_number(why),
                code: 0,
            };
            1
        }
    }
}

/// A checked system before the first event.
fn machine_of(checked: Checked) -> Machine
    ensures { IsCheckedMachine checked.hosted checked.text result }
{
    let (hosted, text) = checked.into_parts();
    Machine {
        hosted,
        text: Some(text),
        last: None,
        page: Page::new(),
    }
}

/// The system of an image, after setup, with its text. The fault is out of memory.
#[tactic(auto, using(crate::proofs::Taken::first_of))]
fn checked_machine(alloc: Global, image: Image, bound: u64) -> Result<Machine, LoadFault>
    ensures new { IfOk result (IsFirstOf image bound) }
    ensures memory { IfErr result (λ fault. fault ≡ LoadFault.Memory) }
{
    match Checked::new(alloc, image, bound) {
        Ok(checked) => Ok(machine_of(checked)),
        Err(_) => Err(LoadFault::Memory),
    }
}

/// The system of an image, after setup, with its text, in a box. The fault is out of memory.
#[tactic(auto, using(crate::proofs::Taken::first_boxed))]
fn boxed_machine(alloc: Global, image: Image, bound: u64) -> Result<Box<Machine, Global>, LoadFault>
    ensures new { IfOk result (λ b. IsFirstOf image bound b.value) }
    ensures memory { IfErr result (λ fault. fault ≡ LoadFault.Memory) }
{
    let machine = checked_machine(alloc, image, bound)?;
    match boxed(alloc, machine) {
        Ok(machine) => Ok(machine),
        Err(_) => Err(LoadFault::Memory),
    }
}

/// The system of the image that these bytes spell, after setup, with its text.
#[tactic(auto, using(crate::proofs::Taken::first_checked, crate::proofs::Taken::memory_fails))]
fn made_checked(alloc: Global, bytes: &[u8], bound: u64) -> Result<Box<Machine, Global>, LoadFault>
    ensures new { IfOk result (λ b. IsFirstChecked bytes.now bound b.value) }
    ensures refused { IfErr result (λ fault. Fails fault (image_at bytes.now)) }
{
    match load(alloc, bytes) {
        Ok(image) => boxed_machine(alloc, image, bound),
        Err(fault) => Err(fault),
    }
}

/// What is answered where the bound of a stretch is out of range.
const NO_BOUND: u32 = 5;

/// The greatest bound of a stretch.
const LONGEST: u64 = 1 << 48;

/// Puts the system of the image that these bytes spell into a blank handle.
fn load_into(
    alloc: Global,
    image: &[u8],
    bound: u64,
    h: &mut FmpSystem,
    out: &mut FmpRefusal,
) -> u32
    requires { h.old.machine ≡ None }
    ensures made { 1 ≤ bound → bound ≤ 2 ^ 48 → IsLoaded image.now bound h.new.machine out.old out.new result }
    ensures short { bound < 1 → IsNoBound h.new.machine out.old out.new result }
    ensures long { 2 ^ 48 < bound → IsNoBound h.new.machine out.old out.new result }
{
    if bound < 1 || bound > LONGEST {
        return NO_BOUND;
    }
    match made_checked(alloc, image, bound) {
        Ok(machine) => {
            *h = FmpSystem::of(machine);
            0
        }
        Err(fault) => refuse_image(fault, out),
    }
}

/// Puts the system of an image, after setup, into a blank handle, with the text that its bodies must follow: the answer
/// is 0. A stretch of the text takes at most `bound` instructions in a turn, 1 to 2^48. Else the handle stays blank: 1
/// if the bytes spell no image, for this fault; 3 if memory runs out; 5 if the bound is out of range. 4 if the handle
/// holds a system already, which it keeps.
#[unsafe(no_mangle)]
pub extern "C" fn fmp_new_checked(
    alloc: Global,
    image: &[u8],
    bound: u64,
    h: &mut FmpSystem,
    out: &mut FmpRefusal,
) -> u32
    ensures made { h.old.machine ≡ None → 1 ≤ bound → bound ≤ 2 ^ 48 →
        IsLoaded image.now bound h.new.machine out.old out.new result }
    ensures short { h.old.machine ≡ None → bound < 1 → IsNoBound h.new.machine out.old out.new result }
    ensures long { h.old.machine ≡ None → 2 ^ 48 < bound → IsNoBound h.new.machine out.old out.new result }
    ensures held { IsSome h.old.machine → (h.new.machine ≡ h.old.machine) × (out.new ≡ out.old) × (result ≡ 4) }
{
    match mem::replace(h, FmpSystem::blank()).into_box(alloc) {
        Some(held) => {
            *h = FmpSystem::of(held);
            4
        }
        None => load_into(alloc, image, bound, h, out),
    }
}

/// Gives back all memory of a system. The handle is blank then, as it may have been before.
#[unsafe(no_mangle)]
pub extern "C" fn fmp_free(alloc: Global, h: &mut FmpSystem)
    ensures { h.new.machine ≡ None }
{
    drop(mem::replace(h, FmpSystem::blank()).into_box(alloc));
}
