//! A system whose bodies run elsewhere, with its kernel: one call for each event.
ghost use Rattle.std.specs.Prelude.{◌≡◌, Err, IfErr, IfOk, Ok};
ghost use Rattle.fmp_bisimulation.specs.Alike.{Alike};
ghost use Rattle.fmp_cfgparse.specs.Configurations.{IsRead};
ghost use Rattle.fmp_outside.specs.declared.given.Act.TheVariants as act;
ghost use Rattle.fmp_outside.specs.declared.given.Given.TheVariants as given;
ghost use Rattle.fmp_foreign.specs.Hosting.{IsNew, after, answer, called_by, made_by, refused, refused_number};
ghost use Rattle.fmp_foreign.specs.Hosting.{restarted};

use crate::foreign::Foreign;
use crate::requests::{Refusal, call_of};
use fmp_base::{Effect, Fault, System};
use fmp_cfgparse::read_cfg;
use fmp_kernel::{Coming, Kernel};
use fmp_lex::BuildFault;
use fmp_outside::{Act, Given};
use std::alloc::Global;

/// How many events a kernel takes.
const MOST_EVENTS: u32 = 1 << 31;

/// How many interrupts there are.
const INTERRUPTS: u8 = 32;

/// A system with its kernel.
#[derive(Drop)]
pub struct HostedSystem {
    /// The system that its configuration describes.
    pub system: System,
    /// The kernel of this system.
    pub kernel: Kernel<Foreign>,
}

impl HostedSystem {
    /// The system that a configuration describes, after setup, or the first fault of the text, as `read_cfg` gives it.
    /// `BuildFault::Memory` if memory runs out: no call after this one takes any.
    pub fn new(alloc: Global, text: &[u8]) -> Result<HostedSystem, BuildFault>
        ensures new { IfOk result (IsNew text.now) }
        ensures refused { IfErr result (λ fault. IsRead text.now (Err fault)) }
    {
        let system = read_cfg(alloc, text)?;
        match Kernel::new(alloc, Foreign, &system, 1) {
            Ok(kernel) => Ok(HostedSystem { system, kernel }),
            Err(_) => Err(BuildFault::Memory),
        }
    }

    /// Whether the numbers of what comes are out of range.
    #[inline(always)]
    fn refused_number(&self, given: Given) -> Option<Refusal>
        ensures { result ≡ refused_number self.now.kernel given }
    {
        match given {
            Given::Act(p, _) => {
                if p >= 1 && p as usize <= self.kernel.tables().processor_count() {
                    None
                } else {
                    Some(Refusal::Processor)
                }
            }
            Given::Tick => None,
            Given::Int(number) => {
                if number >= 1 && number <= INTERRUPTS {
                    None
                } else {
                    Some(Refusal::Interrupt)
                }
            }
        }
    }

    /// Why this is not taken, if it is not: a number is out of range, or 2^31 events were taken.
    pub fn refusal(&self, given: Given) -> Option<Refusal>
        ensures { result ≡ refused self.now.kernel given }
    {
        if self.kernel.taken() >= MOST_EVENTS {
            return Some(Refusal::Full);
        }
        self.refused_number(given)
    }

    /// Takes what comes, while fewer than 2^31 events were taken. If it is done, its lines and the state after it are
    /// in the kernel. It does nothing if the processor has no actor, if the call spins for a lock that is held, and if
    /// the interrupt has no handler or is pending. What is refused changes nothing.
    #[inline(always)]
    pub fn take(&mut self, given: Given) -> Result<Effect, Refusal>
        ensures answer { result ≡ answer self.old.kernel (Ok given) }
        ensures state { self.new ≡ after self.old (Ok given) }
    {
        if self.kernel.taken() >= MOST_EVENTS {
            return Err(Refusal::Full);
        }
        if let Some(why) = self.refused_number(given) {
            return Err(why);
        }
        Ok(given.take(&mut self.kernel))
    }

    /// The actor of the processor of this number, from 1, makes the call of the service of this function code, 1 to 59,
    /// with these arguments: at least as many as the service takes, and at most four.
    pub fn call(&mut self, p: u8, service: u8, arguments: &[i32]) -> Result<Effect, Refusal>
        ensures answer { result ≡ answer self.old.kernel (made_by p (called_by service arguments.now)) }
        ensures state { self.new ≡ after self.old (made_by p (called_by service arguments.now)) }
    {
        let call = call_of(service, arguments)?;
        self.take(Given::Act(p, Act::Call(call)))
    }

    /// The body of the actor of the processor of this number, from 1, ends.
    pub fn end(&mut self, p: u8) -> Result<Effect, Refusal>
        ensures answer { result ≡ answer self.old.kernel (Ok (given.Act p act.End)) }
        ensures state { self.new ≡ after self.old (Ok (given.Act p act.End)) }
    {
        self.take(Given::Act(p, Act::End))
    }

    /// The body of the actor of the processor of this number, from 1, stops with a fault.
    pub fn fault(&mut self, p: u8, fault: Fault) -> Result<Effect, Refusal>
        ensures answer { result ≡ answer self.old.kernel (Ok (given.Act p (act.Fault fault))) }
        ensures state { self.new ≡ after self.old (Ok (given.Act p (act.Fault fault))) }
    {
        self.take(Given::Act(p, Act::Fault(fault)))
    }

    /// The clock advances by one.
    pub fn tick(&mut self) -> Result<Effect, Refusal>
        ensures answer { result ≡ answer self.old.kernel (Ok given.Tick) }
        ensures state { self.new ≡ after self.old (Ok given.Tick) }
    {
        self.take(Given::Tick)
    }

    /// The interrupt of this number, 1 to 32, is requested.
    pub fn interrupt(&mut self, number: u8) -> Result<Effect, Refusal>
        ensures answer { result ≡ answer self.old.kernel (Ok (given.Int number)) }
        ensures state { self.new ≡ after self.old (Ok (given.Int number)) }
    {
        self.take(Given::Int(number))
    }

    /// The counts begin again, as by `Kernel::restart_count`: the clock, and the numbers of events done and taken, are
    /// 0. Each later event does what it would do without this call, by lines that differ in the number of the clock at
    /// most. It takes no memory.
    pub fn restart_count(&mut self)
        ensures state { self.new ≡ restarted self.old }
        ensures alike { Alike self.old.kernel.system self.old.kernel.world self.new.kernel.world }
    {
        self.kernel.restart_count();
    }
}
