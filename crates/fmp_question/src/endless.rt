//! Bodies that go on forever without a service call.
ghost use Rattle.std.specs.Prelude.{◌≡◌, ◌<◌, ◌≤◌, ◌^◌, ◌⊎◌, ◌↔◌, IfNone, IfSome, IsTrue, Some, false, length, true};
ghost use Rattle.fmp_base.specs.Stretches.{is_over};
ghost use Rattle.fmp_base.specs.Stretches as ends;
ghost use Rattle.fmp_instructions.specs.Machine.{code_meaning};
ghost use Rattle.fmp_code.specs.Vms.{IsContext};
ghost use Rattle.fmp_question.specs.Endless.{GoesOnForEver, IsEndlessOn};

use fmp_base::Stretch;
use fmp_code::{MachineContext, Vm};
use fmp_kernel::{Body, Kernel};

/// The instructions of each stretch that is made to find out.
const CUT: u64 = 256;

/// How many stretches are made at most to find out: they take 2^26 instructions.
const TRIED_MOST: u32 = 1 << 18;

/// What becomes of a body from a context on.
#[derive(Clone, Copy, Debug, PartialEq, Eq)]
pub enum Outlook {
    /// It goes on forever without a call.
    Endless,
    /// It comes to a call, its end or a fault, within 2^26 instructions.
    Ends,
    /// It makes 2^26 instructions without a call, and is not seen to go on forever.
    Unknown,
}

/// A look for a context that comes again: the one that is looked for, how many stretches were made since it stood
/// there, and after how many a later one takes its place.
#[derive(Clone, Copy)]
struct LoopMark {
    context: MachineContext,
    since: u32,
    most: u32,
}

/// Whether the places of two contexts hold the same numbers.
fn are_same(a: &[i32; 64], b: &[i32; 64]) -> bool
    ensures { IsTrue result ↔ a.now ≡ b.now }
{
    a == b
}

/// Whether two contexts stand at one place, with as many operands.
fn stand_together(a: &MachineContext, b: &MachineContext) -> bool
    ensures { IsTrue result ↔ ((a.now.pc ≡ b.now.pc) × (a.now.count ≡ b.now.count)) }
{
    a.pc == b.pc && a.count == b.count
}

/// Whether two contexts are one.
pub fn is_same(a: &MachineContext, b: &MachineContext) -> bool
    ensures { IsTrue result ↔ a.now ≡ b.now }
{
    if !stand_together(a, b) {
        return false;
    }
    if !are_same(&a.locals, &b.locals) {
        return false;
    }
    are_same(&a.operands, &b.operands)
}

impl LoopMark {
    /// One stretch more was made, which left this context. Where twice as many were made as at the last time, this is
    /// the context that is looked for.
    fn advance(&mut self, context: &MachineContext)
        ensures { (self.new.context ≡ self.old.context) ⊎ (self.new.context ≡ context.now) }
    {
        self.since = self.since.saturating_add(1);
        if self.since >= self.most {
            self.context = *context;
            self.since = 0;
            self.most = self.most.saturating_mul(2);
        }
    }
}

/// The context at which the next stretch of a body is cut, if it is.
fn cut(body: &Vm<'_>, entry: u8, context: MachineContext) -> Option<MachineContext>
    requires entry { entry < length body.now }
    requires context { IsContext body.now entry context }
    ensures value { IfSome result
        (λ next. (code_meaning body.now).stretch entry CUT context ≡ ends.Over (Some next)) }
    ensures context { IfSome result (λ next. IsContext body.now entry next) }
    ensures ends { IfNone result (is_over ((code_meaning body.now).stretch entry CUT context) ≡ false) }
{
    match body.stretch(entry, CUT, context) {
        Stretch::Over(next) => Some(next),
        Stretch::Call(..) | Stretch::End(_) | Stretch::Fault(..) => None,
    }
}

/// What becomes of a body from a context on. It goes on forever if it comes again to a context at which a stretch of
/// it was cut. This takes at most 2^26 instructions.
pub fn outlook_of(body: &Vm<'_>, entry: u8, context: MachineContext) -> Outlook
    requires entry { entry < length body.now }
    requires context { IsContext body.now entry context }
    ensures endless { result ≡ Outlook.Endless → GoesOnForEver (code_meaning body.now) entry context }
    ensures ends { result ≡ Outlook.Ends
        → is_over ((code_meaning body.now).stretch entry (2 ^ 26) context) ≡ false }
    ensures unknown { result ≡ Outlook.Unknown
        → is_over ((code_meaning body.now).stretch entry (2 ^ 26) context) ≡ true }
{
    let mut mark = LoopMark {
        context,
        since: 0,
        most: 1,
    };
    let mut at = context;
    for tried in 0..TRIED_MOST {
        let Some(next) = cut(body, entry, at) else {
            return Outlook::Ends;
        };
        if is_same(&next, &mark.context) {
            return Outlook::Endless;
        }
        mark.advance(&next);
        at = next;
    }
    Outlook::Unknown
}

/// Whether the actor of the processor of this number, from 1, is known to go on forever without a call, on a kernel
/// over these bodies, as `outlook_of` tells of it.
pub fn is_endless<'a>(kernel: &Kernel<Vm<'a>>, body: &Vm<'a>, p: u8) -> bool
    requires { body.now ≡ kernel.now.body }
    ensures { IsTrue result → IsEndlessOn kernel.now.system (code_meaning kernel.now.body) kernel.now.world p }
{
    match kernel.actor(p) {
        Some(actor) => match outlook_of(body, actor.entry, actor.context) {
            Outlook::Endless => true,
            Outlook::Ends | Outlook::Unknown => false,
        },
        None => false,
    }
}
