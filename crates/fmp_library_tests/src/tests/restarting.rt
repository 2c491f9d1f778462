//! Counts that begin again in the middle of a delay, which ends when it would have ended.
use crate::tests::running::append_trace;
use fmp_base::{Body, Event, System};
use fmp_image::{Image, build};
use fmp_kernel::Kernel;
use fmp_outside::Given;
use fmp_recording::{RecordedLine, print_lines, replay_recording};
use fmp_replay::kernel_of;
use std::alloc::{AllocError, Global};
use std::process::Abort;
use std::test::Fail;

const CONFIGURATION: &str =
    "NUM_PRC(1); CLASS(TCL_1) { CRE_TSK(T, {TA_ACT, 0, body, 1, 256, NULL}); }";

const TASKS: &str = "task body { dly_tsk(5); put(1); }";

const RECORDING: &str = "run 1 dly_tsk 5
tick
tick
tick
restart
tick
tick
tick
run 1 put 1
";

const SETUP: &str = "0 p1 T starts
0 p1 > T
";

const TRACE: &str = "1 p1 T dly_tsk(5) wait
1 p1 > -
2 tick 1
3 tick 2
4 tick 3
1 tick 1
2 tick 2
3 tick 3
3 p1 T gets E_OK
3 p1 > T
4 p1 T put(1) E_OK
";

const STATES: &str = "T RUNNING p1 1
";

/// The trace of a kernel whose counts begin again between some events and others.
fn trace_of<B: Body>(
    alloc: Global,
    system: &System,
    kernel: &mut Kernel<B>,
    before: &[Event],
    after: &[Event],
) -> Result<Vec<u8>, AllocError> {
    let mut trace = Vec::new(alloc);
    append_trace(system, kernel, before, &mut trace)?;
    kernel.restart_count();
    append_trace(system, kernel, after, &mut trace)?;
    Ok(trace)
}

/// The trace of an image whose counts begin again.
fn run(
    alloc: Global,
    image: &Image,
    before: &[Event],
    after: &[Event],
) -> Result<Vec<u8>, AllocError> {
    let mut kernel = kernel_of(alloc, image, 1_000_000)?;
    let trace = trace_of(alloc, image.system(), &mut kernel, before, after);
    drop(kernel);
    trace
}

#[test]
fn a_delay_goes_on(rt: HostRuntime) -> Result<(), Fail> {
    let alloc = rt.alloc();
    let image = build(alloc, CONFIGURATION.as_bytes(), TASKS.as_bytes())?;
    let before = [Event::Run(1), Event::Tick, Event::Tick, Event::Tick];
    let after = [Event::Tick, Event::Tick, Event::Tick, Event::Run(1)];
    let trace = run(alloc, &image, &before, &after)?;
    assert_eq!(rt; str::from_utf8(&trace)?, TRACE);
    Ok(())
}

#[test]
fn a_recording_says_where(rt: HostRuntime) -> Result<(), Fail> {
    let alloc = rt.alloc();
    let mut trace = Vec::new(alloc);
    let (cfg, recording) = (CONFIGURATION.as_bytes(), RECORDING.as_bytes());
    replay_recording(alloc, cfg, recording, &mut trace)?;
    let expected = format!(in alloc; "{SETUP}{TRACE}{STATES}")?;
    assert_eq!(rt; str::from_utf8(&trace)?, expected.as_str());
    Ok(())
}

#[test]
fn its_line_is_printed(rt: HostRuntime) -> Result<(), Fail> {
    let lines = [
        RecordedLine::Came(Given::Tick),
        RecordedLine::Restart,
        RecordedLine::Came(Given::Int(3)),
    ];
    let mut text = Vec::new(rt.alloc());
    print_lines(&lines, &mut text)?;
    assert_eq!(rt; str::from_utf8(&text)?, "tick\nrestart\nint 3\n");
    Ok(())
}
