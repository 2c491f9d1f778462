//! A system whose bodies are pulses.
use crate::pulse::Pulse;
use crate::tests::running::whole_trace;
use fmp_base::Event;
use fmp_cfgparse::read_cfg;
use fmp_kernel::Kernel;
use std::alloc::Global;
use std::process::Abort;
use std::test::Fail;

const CONFIGURATION: &str =
    "NUM_PRC(1); CLASS(TCL_1) { CRE_TSK(T, {TA_ACT, 0, pulse, 1, 256, NULL}); }";

const TRACE: &str = "0 p1 T starts
0 p1 > T
1 p1 T dly_tsk(1) wait
1 p1 > -
2 tick 1
3 tick 2
3 p1 T gets E_OK
3 p1 > T
4 p1 T end
";

/// The trace over some events of a system whose bodies are all this pulse.
fn pulses(alloc: Global, cfg: &str, pulse: Pulse, events: &[Event]) -> Result<Vec<u8>, Fail> {
    let system = read_cfg(alloc, cfg.as_bytes())?;
    let kernel = Kernel::new(alloc, pulse, &system, 1)?;
    Ok(whole_trace(alloc, &system, kernel, events)?)
}

#[test]
fn one_delay_and_the_end(rt: HostRuntime) -> Result<(), Fail> {
    let events = [Event::Run(1), Event::Tick, Event::Tick, Event::Run(1)];
    let trace = pulses(rt.alloc(), CONFIGURATION, Pulse { beats: 1 }, &events)?;
    assert_eq!(rt; str::from_utf8(&trace)?, TRACE);
    Ok(())
}
