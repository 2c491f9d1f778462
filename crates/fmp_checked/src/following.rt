//! A hosted system beside the text of its bodies: one call for what comes.
ghost use Rattle.std.specs.Prelude.{◌≡◌, ◌∷◌, [], Err, IfSome, None, Ok};
ghost use Rattle.fmp_base.specs.Steps.{effect_of};
ghost use Rattle.fmp_foreign.specs.Following.{HasFollowed};
ghost use Rattle.fmp_foreign.specs.Hosting.{after, reaction, refused, restarted};
ghost use Rattle.fmp_instructions.specs.Machine.{code_meaning};
ghost use Rattle.fmp_kernel.specs.Restarts.{counts_restarted};
ghost use Rattle.fmp_checked.specs.Checking.{InStep, IsChecked, IsObjection, hosted_after};

use crate::bodies::ImageBody;
use fmp_base::Effect;
use fmp_foreign::{BodyVerdict, HostedSystem, Refusal, Shadow};
use fmp_outside::Given;

/// Why nothing has happened in a checked system.
#[derive(Clone, Copy, Debug, PartialEq, Eq)]
pub enum Objection {
    /// A number is out of range, or the system has taken 2^31 events.
    Refused(Refusal),
    /// The text of the actor does another thing next.
    Differs,
    /// The text of the actor is still within a stretch. It has gone on by one turn; what came may come again.
    Long,
    /// The kernel of the text has taken 2^31 events, and takes no more.
    Full,
}

/// What the text says of what comes and is not refused: nothing where it does this next, and has done it then.
fn judge(text: &mut Shadow<ImageBody>, given: Given) -> Option<Objection>
    ensures follows { result ≡ None → HasFollowed code_meaning text.old (given ∷ []) text.new }
    ensures objects { IfSome result (IsObjection text.old given text.new) }
{
    match text.take(given, 1) {
        BodyVerdict::Follows => None,
        BodyVerdict::Differs => Some(Objection::Differs),
        BodyVerdict::Long => Some(Objection::Long),
        BodyVerdict::Full => Some(Objection::Full),
    }
}

/// Why what comes is not done: it is refused, or the text does not do it next. Where there is no reason, the text has
/// done it; else it has at most gone on within the stretch of the actor.
#[tactic(auto, using(crate::proofs::Judgements::is_refused, crate::proofs::Judgements::is_objected, crate::proofs::Judgements::objected_step))]
pub fn consult(
    text: &mut Shadow<ImageBody>,
    hosted: &HostedSystem,
    given: Given,
) -> Option<Objection>
    ensures free { result ≡ None → refused hosted.now.kernel given ≡ None }
    ensures follows { result ≡ None → HasFollowed code_meaning text.old (given ∷ []) text.new }
    ensures checked { IfSome result (λ why. IsChecked (refused hosted.now.kernel given) hosted.now.kernel text.old given
        text.new (Err why)) }
    ensures step { IfSome result (λ why. InStep hosted.now.kernel text.old → InStep hosted.now.kernel text.new) }
{
    match hosted.refusal(given) {
        Some(why) => Some(Objection::Refused(why)),
        None => judge(text, given),
    }
}

/// What comes, where the text does it next: both take it. Else the hosted system stays as it is, and the text has at
/// most gone on within the stretch of the actor.
#[tactic(auto, using(crate::proofs::Judgements::is_followed, crate::proofs::Judgements::is_hosted))]
pub fn follow(
    text: &mut Shadow<ImageBody>,
    hosted: &mut HostedSystem,
    given: Given,
) -> Result<Effect, Objection>
    ensures checked { IsChecked (refused hosted.old.kernel given) hosted.old.kernel text.old given text.new result }
    ensures hosted { hosted.new ≡ hosted_after hosted.old given result }
    ensures step { InStep hosted.old.kernel text.old → InStep hosted.new.kernel text.new }
{
    match consult(text, hosted, given) {
        Some(why) => Err(why),
        None => done(hosted, given),
    }
}

/// What comes and is not refused, done.
fn done(hosted: &mut HostedSystem, given: Given) -> Result<Effect, Objection>
    requires { refused hosted.old.kernel given ≡ None }
    ensures effect { result ≡ Ok (effect_of (reaction hosted.old.kernel given)) }
    ensures hosted { hosted.new ≡ after hosted.old (Ok given) }
{
    match hosted.take(given) {
        Ok(effect) => Ok(effect),
        Err(why) => Err(Objection::Refused(why)),
    }
}

/// The counts begin again, those of a hosted system and those of its text.
pub fn restart_counts(text: &mut Shadow<ImageBody>, hosted: &mut HostedSystem)
    ensures text { text.new ≡ counts_restarted text.old }
    ensures hosted { hosted.new ≡ restarted hosted.old }
    ensures step { InStep hosted.old.kernel text.old → InStep hosted.new.kernel text.new }
{
    text.restart_count();
    hosted.restart_count();
}
