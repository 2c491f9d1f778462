//! A system that two texts describe: built, loaded again, and run event by event.
use fmp_base::{Body, Effect, Event, System};
use fmp_image::{Image, build, load, store};
use fmp_kernel::Kernel;
use fmp_replay::kernel_of;
use fmp_trace::print;
use std::alloc::{AllocError, Global};
use std::process::Abort;
use std::test::Fail;

const CONFIGURATION: &str =
    "NUM_PRC(1); CLASS(TCL_1) { CRE_TSK(T, {TA_ACT, 7, body, 1, 256, NULL}); }";

const TASKS: &str = "task body { put(exinf); slp_tsk(); put(exinf + 1); }";

const TRACE: &str = "0 p1 T starts
0 p1 > T
1 p1 T put(7) E_OK
2 p1 T slp_tsk() wait
2 p1 > -
";

/// The bytes of the image that two texts build.
fn built(alloc: Global, cfg: &str, src: &str) -> Result<Vec<u8>, Fail> {
    let image = build(alloc, cfg.as_bytes(), src.as_bytes())?;
    let bytes = store(alloc, &image)?;
    Ok(bytes)
}

/// The image of its bytes.
fn loaded(alloc: Global, bytes: &[u8]) -> Result<Image, Fail> {
    let image = load(alloc, bytes)?;
    Ok(image)
}

/// One event, where the kernel still takes one.
fn step<B: Body>(kernel: &mut Kernel<B>, event: Event) -> Effect {
    if kernel.taken() < 1_048_576 {
        kernel.step(event)
    } else {
        Effect::Nothing
    }
}

/// Appends the lines of each event that does something.
pub fn append_trace<B: Body>(
    system: &System,
    kernel: &mut Kernel<B>,
    events: &[Event],
    trace: &mut Vec<u8>,
) -> Result<(), AllocError> {
    for event in events {
        if step(kernel, *event) == Effect::Done {
            print(system, kernel.done(), kernel.lines(), trace)?;
        }
    }
    Ok(())
}

/// The trace of a kernel over some events: the lines of setup, and then those of each event that does something.
fn trace_of<B: Body>(
    alloc: Global,
    system: &System,
    kernel: &mut Kernel<B>,
    events: &[Event],
) -> Result<Vec<u8>, AllocError> {
    let mut trace = Vec::new(alloc);
    print(system, 0, kernel.lines(), &mut trace)?;
    append_trace(system, kernel, events, &mut trace)?;
    Ok(trace)
}

/// The whole trace of a kernel that nothing else is asked of.
pub fn whole_trace<B: Body + Drop>(
    alloc: Global,
    system: &System,
    mut kernel: Kernel<B>,
    events: &[Event],
) -> Result<Vec<u8>, AllocError> {
    trace_of(alloc, system, &mut kernel, events)
}

/// The trace of an image over some events. A stretch of a body takes at most a million instructions.
fn run(alloc: Global, image: &Image, events: &[Event]) -> Result<Vec<u8>, AllocError> {
    let kernel = kernel_of(alloc, image, 1_000_000)?;
    whole_trace(alloc, image.system(), kernel, events)
}

#[test]
fn a_system_of_two_texts(rt: HostRuntime) -> Result<(), Fail> {
    let alloc = rt.alloc();
    let bytes = built(alloc, CONFIGURATION, TASKS)?;
    let image = loaded(alloc, &bytes)?;
    let trace = run(alloc, &image, &[Event::Run(1); 3])?;
    assert_eq!(rt; str::from_utf8(&trace)?, TRACE);
    Ok(())
}
