//! Loading: the image that bytes spell, or their first fault.

ghost use Rattle.std.specs.Prelude.{◌≡◌, ◌≤◌, [], IfOk, Ok};
ghost use Rattle.fmp_base.specs.Systems.{tables_of};
ghost use Rattle.fmp_instructions.specs.Instructions.{code_tables};
ghost use Rattle.fmp_image_bytes.specs.Fields.{Gives};
ghost use Rattle.fmp_image_bytes.specs.Versions as versions;
ghost use Rattle.fmp_image_bytes.specs.ImageContexts.{rows_context};
ghost use Rattle.fmp_image_bytes.specs.Images.{◌▹◌, ImageTables, Spells};
ghost use Rattle.fmp_image_bytes.specs.Images.{image_at, image_tables, later_tables, tables, tables_in};
ghost use Rattle.fmp_image_bytes.specs.OlderImages.{MeansTheSame};

use crate::bodies::read_bodies;
use crate::fault::{ImageFault, LoadFault};
use crate::header::{is_end, queue_limit_of, read_header};
use crate::heads::BodyHead;
use crate::image::Image;
use crate::keys::TakenKeys;
use crate::laws::older_images_mean_the_same;
use crate::rows::{ImageContext, read_table};
use fmp_base::{
    CyclicConfig, InterruptConfig, MessageConfig, SharedWordConfig, SpinLockConfig, System,
};
use fmp_instructions::Code;
use std::alloc::Global;

/// The tables of a system from that of messages on.
struct LaterTables {
    messages: Vec<MessageConfig>,
    shared_words: Vec<SharedWordConfig>,
    spin_locks: Vec<SpinLockConfig>,
    cyclics: Vec<CyclicConfig>,
    interrupts: Vec<InterruptConfig>,
}

/// Reads the tables from that of messages on, after those whose keys are taken.
fn read_later_tables<'a>(
    alloc: Global,
    context: ImageContext<'_>,
    taken: &mut TakenKeys,
    bytes: &'a [u8],
) -> Result<(LaterTables, &'a [u8]), LoadFault>
    ensures { Gives
        (λ x. (
          (x.0.messages.items ▹ x.0.shared_words.items ▹ x.0.spin_locks.items ▹ x.0.cyclics.items
              ▹ x.0.interrupts.items),
          x.1.now,
        ))
        result ((later_tables (rows_context context.entry) taken.old.keys).read bytes.now) }
{
    let (messages, rest) = read_table(alloc, context, taken, bytes)?;
    let (shared_words, rest) = read_table(alloc, context, taken, rest)?;
    let (spin_locks, rest) = read_table(alloc, context, taken, rest)?;
    let (cyclics, rest) = read_table(alloc, context, taken, rest)?;
    let (interrupts, rest) = read_table(alloc, context, taken, rest)?;
    let later = LaterTables {
        messages,
        shared_words,
        spin_locks,
        cyclics,
        interrupts,
    };
    Ok((later, rest))
}

/// Reads all tables of a system. Its queue limit is that of the version.
fn read_tables<'a>(
    alloc: Global,
    context: ImageContext<'_>,
    bytes: &'a [u8],
) -> Result<(System, &'a [u8]), LoadFault>
    ensures read { Gives (λ x. (tables_in (tables_of x.0), x.1.now)) result
        ((tables (rows_context context.entry) []).read bytes.now) }
    ensures processors { IfOk result (λ x. x.0.processors ≡ context.entry.processors) }
    ensures queue_limit { IfOk result (λ x. x.0.queue_limit ≡ versions.queue_limit_of context.entry.version) }
{
    let mut taken = TakenKeys::new(alloc);
    let (tasks, rest) = read_table(alloc, context, &mut taken, bytes)?;
    let (semaphores, rest) = read_table(alloc, context, &mut taken, rest)?;
    let (flags, rest) = read_table(alloc, context, &mut taken, rest)?;
    let (data_queues, rest) = read_table(alloc, context, &mut taken, rest)?;
    let (mailboxes, rest) = read_table(alloc, context, &mut taken, rest)?;
    let (later, rest) = read_later_tables(alloc, context, &mut taken, rest)?;
    let LaterTables {
        messages,
        shared_words,
        spin_locks,
        cyclics,
        interrupts,
    } = later;
    let system = System {
        processors: context.processors,
        queue_limit: queue_limit_of(context.version),
        tasks,
        semaphores,
        flags,
        data_queues,
        mailboxes,
        messages,
        shared_words,
        spin_locks,
        cyclics,
        interrupts,
    };
    Ok((system, rest))
}

/// Reads what an image holds, from all of the bytes.
#[tactic(auto, unfolding(crate::specs::Images::image_at))]
fn read_image(alloc: Global, bytes: &[u8]) -> Result<(u16, System, Code, Vec<BodyHead>), LoadFault>
    ensures { Gives (λ x. image_tables x.0 (tables_of x.1) x.3.items (code_tables x.2)) result (image_at bytes.now) }
{
    let ((version, processors), rest) = read_header(bytes)?;
    let ((heads, bodies), rest) = read_bodies(alloc, version, rest)?;
    let context = ImageContext {
        version,
        processors,
        heads: &heads,
    };
    let (system, rest) = read_tables(alloc, context, rest)?;
    if !is_end(rest) {
        return Err(LoadFault::Image(ImageFault::Trailing));
    }
    Ok((version, system, Code { bodies }, heads))
}

/// The image that the bytes spell in their version, all of the bytes; else the first fault, in the order of the fields.
/// The rules of a row are judged once all of its fields are there; of a body its code (L5) is judged before its other
/// values (L4).
pub fn load(alloc: Global, bytes: &[u8]) -> Result<Image, LoadFault>
    // What is loaded is spelled so.
    ensures found { IfOk result (λ image. Spells image bytes.now) }
    // What spells an image is loaded, unless memory runs out.
    ensures only { (image : ImageTables) → Spells image bytes.now → Gives (λ x. x) result (Ok image) }
    // An image of version 1 or 2 means what it meant when that was the newest, apart from long stretches, which keep
    // their place in images of every version.
    ensures older { IfOk result (λ image. image.version ≤ 2 → MeansTheSame image) }
    // Which fault it is.
    ensures exact { Gives (λ x. x) result (image_at bytes.now) }
{
    let (version, system, code, heads) = read_image(alloc, bytes)?;
    older_images_mean_the_same();
    Ok(Image::new(version, system, code, heads))
}
