//! Steps of an image that is driven.
ghost use Rattle.std.specs.Prelude.{◌≡◌, ◌+◌, ◌≤◌, ◌^◌, [], IfOk, length};
ghost use Rattle.fmp_replay.specs.Replays.{kernel_after};
ghost use Rattle.fmp_looking.specs.Drives.{DrivesImage, IsDrivenAnew};

use crate::open_image::OpenImage;
use fmp_base::System;
use fmp_code::Vm;
use fmp_drive::{Driven, NextRun, Plan, drive, next_runs};
use fmp_image_bytes::Image;
use fmp_kernel::{Body, Kernel};
use fmp_replay::kernel_of;
use std::alloc::{AllocError, Global};

/// How many tasks a kernel has.
pub fn task_count<B: Body>(kernel: &Kernel<B>) -> u8
    ensures { result ≡ length kernel.now.system.tasks }
{
    kernel.tables().task_count() as u8
}

/// Drives a kernel of this system until it is quiet, or `events` events are done. `AllocError` if memory runs out.
#[tactic(none)]
fn driven_on<B: Body>(
    alloc: Global,
    kernel: &mut Kernel<B>,
    sys: &System,
    events: u32,
    seed: Option<u64>,
) -> Result<Driven, AllocError>
    requires few { kernel.old.taken + events ≤ 2 ^ 20 }
    requires one { 1 ≤ sys.now.processors }
    requires eight { sys.now.processors ≤ 8 }
    requires tasks { length sys.now.tasks.items ≡ length kernel.old.system.tasks }
    ensures { IfOk result (IsDrivenAnew B.meaning kernel.old kernel.new sys.now.processors
        (length kernel.old.system.tasks) events seed) }
{
    let mut plan = Plan::new(alloc, sys, seed)?;
    let tasks = task_count(kernel);
    drive(alloc, kernel, &mut plan, sys.processors, tasks, events)
}

/// How a system was driven.
#[derive(Drop)]
pub struct Drive {
    /// The steps, and why they stop.
    pub driven: Driven,
    /// How the next run of each processor ends, by places from 0.
    pub next: [NextRun; 8],
}

/// Drives the kernel of an image after setup, and looks at what its processors would do next. `AllocError` if memory
/// runs out.
#[tactic(none)]
fn drive_on<'a>(
    alloc: Global,
    kernel: &mut Kernel<Vm<'a>>,
    opened: OpenImage<'a>,
    events: u32,
    seed: Option<u64>,
) -> Result<Drive, AllocError>
    requires kernel { kernel.old ≡ kernel_after opened.image.now opened.bound [] }
    requires few { events ≤ 2 ^ 20 }
    ensures { IfOk result (DrivesImage opened.entry.image.now opened.entry.bound events seed) }
{
    let driven = driven_on(alloc, kernel, opened.image.system(), events, seed)?;
    let next = next_runs(kernel);
    Ok(Drive { driven, next })
}

/// Drives an image after setup until it is quiet, or `events` events are done. `AllocError` if memory runs out.
#[tactic(none)]
pub fn driven(
    alloc: Global,
    image: &Image,
    events: u32,
    seed: Option<u64>,
    n: u64,
) -> Result<Drive, AllocError>
    requires few { events ≤ 2 ^ 20 }
    ensures { IfOk result (DrivesImage image.now n events seed) }
{
    let mut kernel = kernel_of(alloc, image, n)?;
    let opened = OpenImage { image, bound: n };
    let drive = drive_on(alloc, &mut kernel, opened, events, seed);
    drop(kernel);
    drive
}
