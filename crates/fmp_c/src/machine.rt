//! What a handle holds: a hosted system, the text that its bodies must follow, if there is one, what came to it last,
//! and the page on which its lines are printed.
ghost use Rattle.std.specs.Prelude.{◌≡◌, ◌∷◌, [], Err, IfNone, IfSome, Ok, Some, pos};
ghost use Rattle.fmp_base.specs.declared.events.Effect.TheVariants as effect;
ghost use Rattle.fmp_base.specs.Meanings.{context_at};
ghost use Rattle.fmp_base.specs.Systems.{tables_of};
ghost use Rattle.fmp_base.specs.Texts.{lines_text};
ghost use Rattle.fmp_foreign.specs.Hosting.{answer, called_by, made_by};
ghost use Rattle.fmp_foreign.specs.Looking.{acting_from, acting_on};
ghost use Rattle.fmp_outside.specs.declared.given.Act.TheVariants as act;
ghost use Rattle.fmp_outside.specs.declared.given.Given.TheVariants as given;
ghost use Rattle.fmp_c.specs.Exports.{IsConsulted, IsTaken, IsTakenBy, answered, checked_number, machine_after};
ghost use Rattle.fmp_c.specs.Exports.{machine_restarted, outcome_of};
ghost use Rattle.fmp_c.specs.Recorded.{next_given};
ghost use Rattle.fmp_c.specs.Records as spec;

use crate::records::{FmpActing, FmpOutcome, answer_number, changes};
use fmp_base::{Call, Caller, Effect, Held, Lock};
use fmp_checked::{ImageBody, Objection, consult, restart_counts};
use fmp_foreign::{Acting, HostedSystem, Refusal, Shadow};
use fmp_kernel::actors::actor_on;
use fmp_outside::{Act, Given};
use fmp_trace::Page;

/// The function code of `slp_tsk`.
pub const SLP_TSK: u8 = 12;

/// The function code of `wup_tsk`.
pub const WUP_TSK: u8 = 14;

/// The function code of `sig_sem`.
pub const SIG_SEM: u8 = 20;

/// The function code of `wai_sem`.
pub const WAI_SEM: u8 = 21;

/// The function code of `pol_sem`.
pub const POL_SEM: u8 = 22;

/// What is answered where the text of the actor does another thing next.
const NOT_THE_TEXT: u32 = 10;

/// What is answered where the text of the actor is still within a stretch.
const STILL_LONG: u32 = 11;

/// What is answered where there is an objection.
fn answered(why: Objection) -> Result<Effect, Refusal>
    ensures { result ≡ answered (Err why) }
{
    match why {
        Objection::Refused(why) => Err(why),
        Objection::Full => Err(Refusal::Full),
        Objection::Differs => Ok(Effect::Nothing),
        Objection::Long => Ok(Effect::Nothing),
    }
}

/// A hosted system, the text of its bodies, what came to it last, and the page on which its lines are printed.
#[derive(Drop)]
pub struct Machine {
    pub hosted: HostedSystem,
    /// The text that its bodies must follow; none where they may do as they like.
    pub text: Option<Shadow<ImageBody>>,
    /// What came with the last event that was done; none before the first.
    pub last: Option<Given>,
    pub page: Page,
}

impl Machine {
    /// Hands in what came for the processor of this number, and says what C is told of it.
    #[inline(never)]
    pub fn take(&mut self, given: &Given, p: u8, out: &mut FmpOutcome) -> u32
        ensures { IsTakenBy self.old.text self.old given.now p (Some self.new) out.new result }
    {
        self.take_inline(given, p, out)
    }

    /// As `take`, as a part of its caller: for calls, which come most often.
    #[inline(always)]
    pub fn take_inline(&mut self, given: &Given, p: u8, out: &mut FmpOutcome) -> u32
        ensures { IsTakenBy self.old.text self.old given.now p (Some self.new) out.new result }
    {
        match self.consult(given) {
            None => self.take_any(given, p, out),
            Some(why) => self.refuse(why, p, out),
        }
    }

    /// Whether nothing stands in the way of a call of the actor of the processor of this number: it is a task that goes
    /// on, on a processor that is open, there is no text, and there are no spin locks.
    #[inline(always)]
    fn is_straight(&self, p: u8) -> bool {
        let kernel = &self.hosted.kernel;
        let tables = kernel.tables();
        if self.text.is_some() || kernel.taken() >= 1 << 31 {
            return false;
        }
        if p < 1 || p as usize > tables.processor_count() {
            return false;
        }
        match actor_on(tables, p - 1) {
            Some(Caller::Task(t)) => {
                let cpu = tables.processor(p - 1);
                matches!(kernel.held(t), Some(Held::Goes(_)))
                    && tables.spin_lock_count() == 0
                    && matches!(cpu.lock, Lock::Free)
                    && !cpu.dispatch_disabled
            }
            _ => false,
        }
    }

    /// The actor of the processor of this number makes this call, inline, so that only what this call needs is done.
    /// None if something may stand in its way: then nothing has happened.
    #[inline(always)]
    fn take_straight(&mut self, p: u8, call: Call, out: &mut FmpOutcome) -> Option<u32>
        ensures taken { IfSome result (λ number.
            IsTakenBy self.old.text self.old (given.Act p (act.Call call)) p (Some self.new) out.new number) }
        ensures other { IfNone result (self.new ≡ self.old) }
        ensures untold { IfNone result (out.new ≡ out.old) }
    {
        if self.is_straight(p) {
            Some(self.take_inline(&Given::Act(p, Act::Call(call)), p, out))
        } else {
            None
        }
    }

    /// The actor of the processor of this number makes the call of the service of this function code with this first
    /// argument, and 0 for any other, if it is one of the most frequent calls, and nothing stands in its way. Otherwise
    /// None, and nothing has happened.
    #[inline(always)]
    pub fn call_straight(&mut self, p: u8, service: u8, a: i32, out: &mut FmpOutcome) -> Option<u32>
        ensures taken { IfSome result (λ number.
            IsTaken self.old (made_by p (called_by service (a ∷ pos 0 ∷ pos 0 ∷ pos 0 ∷ []))) p (Some self.new)
            out.new number) }
        ensures other { IfNone result (self.new ≡ self.old) }
        ensures untold { IfNone result (out.new ≡ out.old) }
    {
        match service {
            SLP_TSK => self.take_straight(p, Call::SlpTsk, out),
            WUP_TSK => self.take_straight(p, Call::WupTsk { task: a }, out),
            SIG_SEM => self.take_straight(p, Call::SigSem { semaphore: a }, out),
            WAI_SEM => self.take_straight(p, Call::WaiSem { semaphore: a }, out),
            POL_SEM => self.take_straight(p, Call::PolSem { semaphore: a }, out),
            _ => None,
        }
    }

    /// Why the text does not do this next, if there is a text, and it does not.
    #[inline(always)]
    fn consult(&mut self, given: &Given) -> Option<Objection>
        ensures { IsConsulted self.old.text self.old given.now self.new result }
    {
        match &mut self.text {
            None => None,
            Some(text) => consult(text, &self.hosted, *given),
        }
    }

    /// What comes from the processor of this number, if its actor does what its text does next. None where there is no
    /// text, where no one acts there, and where the text does not come to it within the bound.
    pub fn next(&self, p: u8) -> Option<Given>
        ensures { result ≡ next_given self.now.text p }
    {
        match &self.text {
            None => None,
            Some(text) => match text.next(p) {
                None => None,
                Some(act) => Some(Given::Act(p, act)),
            },
        }
    }

    /// What came, whatever it is.
    #[inline(always)]
    fn take_any(&mut self, given: &Given, p: u8, out: &mut FmpOutcome) -> u32
        ensures machine { self.new ≡ machine_after self.old (Ok given.now) }
        ensures outcome { out.new ≡ outcome_of (machine_after self.old (Ok given.now)).hosted.kernel p
            (answer self.old.hosted.kernel (Ok given.now)) }
        ensures number { result ≡ spec.answer_number (answer self.old.hosted.kernel (Ok given.now)) }
    {
        match self.hosted.take(*given) {
            Ok(Effect::Done) => {
                self.remember(given);
                self.tell_done(p, out)
            }
            Ok(Effect::Nothing) => self.tell(p, Ok(Effect::Nothing), out),
            Ok(Effect::Kept) => self.tell(p, Ok(Effect::Kept), out),
            Err(why) => self.tell(p, Err(why), out),
        }
    }

    /// What C is told of what is not done.
    #[inline(never)]
    fn refuse(&self, why: Objection, p: u8, out: &mut FmpOutcome) -> u32
        ensures outcome { out.new ≡ outcome_of self.now.hosted.kernel p (answered (Err why)) }
        ensures number { result ≡ checked_number (Err why) }
    {
        let number = self.tell(p, answered(why), out);
        match why {
            Objection::Differs => NOT_THE_TEXT,
            Objection::Long => STILL_LONG,
            Objection::Full => number,
            Objection::Refused(_) => number,
        }
    }

    fn remember(&mut self, given: &Given)
        ensures { self.new ≡ record self.old { last = Some given.now } }
    {
        self.last = Some(*given);
    }

    /// Who acts on the processor of this number, where a handler does.
    #[inline(never)]
    fn tell_handler(&self, p: u8, acting: &mut FmpActing)
        ensures { acting.new ≡ spec.acting_row (acting_on self.now.hosted.kernel p) }
    {
        acting.tell(self.hosted.acting(p));
    }

    /// The task at this place acts, if it goes on.
    #[inline(always)]
    fn tell_task(&self, t: u8, acting: &mut FmpActing)
        ensures { acting.new
            ≡ spec.acting_row (acting_from (Caller.Task t) (context_at self.now.hosted.kernel.world.contexts.tasks t)) }
    {
        match self.hosted.kernel.held(t) {
            Some(Held::Goes(told)) => {
                let caller = Caller::Task(t);
                acting.set(Acting { caller, told });
            },
            Some(Held::Awaits(_)) => *acting = FmpActing::nobody(),
            None => *acting = FmpActing::nobody(),
        }
    }

    /// Who acts on the processor of this number.
    #[inline(always)]
    fn tell_actor(&self, p: u8, acting: &mut FmpActing)
        ensures { acting.new ≡ spec.acting_row (acting_on self.now.hosted.kernel p) }
    {
        if p == 0 {
            *acting = FmpActing::nobody();
            return;
        }
        match actor_on(self.hosted.kernel.tables(), p - 1) {
            Some(Caller::Task(t)) => self.tell_task(t, acting),
            Some(Caller::Handler(_)) => self.tell_handler(p, acting),
            None => *acting = FmpActing::nobody(),
        }
    }

    /// What C is told of an event that was done.
    #[inline(always)]
    fn tell_done(&self, p: u8, out: &mut FmpOutcome) -> u32
        ensures outcome { out.new ≡ outcome_of self.now.hosted.kernel p (Ok effect.Done) }
        ensures number { result ≡ 1 }
    {
        out.changes = changes(self.hosted.kernel.lines());
        self.tell_actor(p, &mut out.acting);
        1
    }

    /// What C is told of an event that was given for the processor of this number: the answer, who acts there now,
    /// and what has changed.
    #[inline(never)]
    pub fn tell(&self, p: u8, answer: Result<Effect, Refusal>, out: &mut FmpOutcome) -> u32
        ensures outcome { out.new ≡ outcome_of self.now.hosted.kernel p answer }
        ensures number { result ≡ spec.answer_number answer }
    {
        out.changes = match answer {
            Ok(Effect::Done) => changes(self.hosted.kernel.lines()),
            _ => 0,
        };
        out.acting.tell(self.hosted.acting(p));
        answer_number(answer)
    }

    /// The counts begin again, those of the system and those of its text.
    pub fn restart_count(&mut self)
        ensures { self.new ≡ machine_restarted self.old }
    {
        match &mut self.text {
            Some(text) => restart_counts(text, &mut self.hosted),
            None => self.hosted.restart_count(),
        }
    }

    /// Prints the lines of the last event that was done, or of setup, on the page.
    pub fn print(&mut self)
        ensures text { self.new.page
            ≡ lines_text (tables_of self.old.hosted.system) self.old.hosted.kernel.done self.old.hosted.kernel.lines }
        ensures kept { self.new.hosted ≡ self.old.hosted }
        ensures text_kept { self.new.text ≡ self.old.text }
        ensures last { self.new.last ≡ self.old.last }
    {
        self.hosted.kernel.lines_are_few();
        self.page.clear();
        let number = self.hosted.kernel.done();
        self.page
            .print(&self.hosted.system, number, self.hosted.kernel.lines());
    }
}
