//! The pace of a host: as fast as it goes, or by the clock and the lines of standard input.
use crate::asking::Cmd;
use crate::lines::read_lines;
use crate::progress::Progress;
use fmp_base::Event;
use fmp_hostrun::Pace;
use std::alloc::{AllocError, Global};
use std::io::Input;
use std::sync::{Arc, Condvar, Mutex, Wait};
use std::thread;
use std::thread::Threads;
use std::time::{Clock, Duration, Instant};

/// What the threads of a host and the one that reads standard input share.
#[derive(Drop)]
pub struct Shared {
    pub progress: Mutex<Progress>,
    /// It is told of each change of the progress.
    pub changed: Condvar,
}

/// When things come.
#[derive(Clone, Copy)]
struct Plan {
    /// From tick to tick; without it ticks come as soon as they can.
    period: Option<Duration>,
    /// The interrupt that lines of standard input raise.
    interrupt: Option<u8>,
}

impl Plan {
    /// The plan that a command asks for.
    fn of(cmd: &Cmd) -> Plan {
        match cmd {
            Cmd::Host {
                tick_us,
                interrupt,
                ..
            } => Plan {
                period: tick_us.map(|us| Duration::from_micros(u64::from(us))),
                interrupt: *interrupt,
            },
            _ => Plan {
                period: None,
                interrupt: None,
            },
        }
    }

    /// Whether processors wait that have nothing to run.
    fn waits(&self) -> bool {
        self.period.is_some() || self.interrupt.is_some()
    }
}

/// The pace of a host.
#[derive(Drop)]
pub struct Pacer<'a, R> {
    rt: &'a R,
    plan: Plan,
    shared: Arc<Shared, Global>,
}

impl<'a, R> Pacer<'a, R> {
    /// The pace that a command asks for.
    pub fn new(rt: &'a R, alloc: Global, cmd: &Cmd) -> Result<Pacer<'a, R>, AllocError> {
        let plan = Plan::of(cmd);
        let shared = Shared {
            progress: Mutex::new(Progress::new(plan.interrupt.is_some())),
            changed: Condvar::new(),
        };
        Ok(Pacer {
            rt,
            plan,
            shared: Arc::new(alloc, shared)?,
        })
    }
}

impl<R: Wait> Pacer<'_, R> {
    /// How many lines of standard input were read.
    pub fn lines(&self) -> u64 {
        self.shared.progress.lock(self.rt).lines()
    }

    /// No more lines come.
    fn end_input(&self) {
        self.shared.progress.lock(self.rt).end_input();
        self.shared.changed.notify_all();
    }
}

impl<R: Threads + Wait + Input + Copy + Send + 'static> Pacer<'_, R>
where
    R::Reader: Send + 'static,
{
    /// Starts the thread that reads standard input, if lines raise an interrupt. If the system refuses the thread,
    /// there are no lines.
    pub fn start_reading(&self) {
        let Some(interrupt) = self.plan.interrupt else {
            return;
        };
        let Ok(shared) = Arc::try_clone(&self.shared) else {
            self.end_input();
            return;
        };
        let rt = *self.rt;
        let input = rt.reader();
        if thread::spawn(self.rt, move || read_lines(&rt, input, &shared, interrupt)).is_err() {
            self.end_input();
        }
    }
}

impl<R: Clock> Pacer<'_, R> {
    /// How long it is until this tick is due.
    fn until(&self, tick: u32, period: Duration, began: Option<Instant>) -> Duration {
        let due = period.saturating_mul(tick);
        match (began, Instant::now(self.rt)) {
            (Some(began), Ok(now)) => due.saturating_sub(now.duration_since(began)),
            _ => period,
        }
    }
}

impl<R: Wait + Clock + Sync> Pace for Pacer<'_, R> {
    fn begins(&self, threads: usize) {
        if !self.plan.waits() {
            return;
        }
        let now = Instant::now(self.rt).ok();
        self.shared.progress.lock(self.rt).begin(threads, now);
    }

    fn refused(&self) {
        self.shared.progress.lock(self.rt).end();
        self.shared.changed.notify_all();
    }

    fn ended(&self) {
        if !self.plan.waits() {
            return;
        }
        self.shared.progress.lock(self.rt).end_thread();
        self.shared.changed.notify_all();
    }

    fn moment(&self) -> u64 {
        if !self.plan.waits() {
            return 0;
        }
        self.shared.progress.lock(self.rt).moment()
    }

    fn looks_again(&self, moment: u64) -> bool {
        if !self.plan.waits() {
            return false;
        }
        let mut progress = self.shared.progress.lock(self.rt);
        if progress.is_at(moment) {
            progress.wait();
            self.shared.changed.notify_all();
        }
        let progress = self
            .shared
            .changed
            .wait_while(self.rt, progress, |progress| progress.is_at(moment));
        !progress.is_over()
    }

    fn before_tick(&self, tick: u32) {
        let Some(period) = self.plan.period else {
            return;
        };
        let progress = self.shared.progress.lock(self.rt);
        let until = self.until(tick, period, progress.began());
        let _ = self
            .shared
            .changed
            .wait_timeout_while(self.rt, progress, until, |progress| !progress.is_over());
    }

    fn interrupt_comes(&self) -> bool {
        if self.plan.interrupt.is_none() {
            return false;
        }
        let by_clock = self.plan.period.is_some();
        let mut progress = self.shared.progress.lock(self.rt);
        for _ in self.rt.forever() {
            if let Some(comes) = progress.next_interrupt() {
                return comes;
            }
            // Without a clock the run goes on to the end of the input.
            if by_clock {
                progress.wait();
                self.shared.changed.notify_all();
            }
            let moment = progress.moment();
            progress = self.shared.changed.wait_while(
                self.rt,
                progress,
                |progress| progress.is_at(moment) && !progress.has_line(),
            );
            if by_clock && progress.is_at(moment) {
                progress.go_on();
            }
        }
        false
    }

    fn journaled(&self, _event: Event) {
        if !self.plan.waits() {
            return;
        }
        self.shared.progress.lock(self.rt).count_event();
        self.shared.changed.notify_all();
    }
}
