//! The monitors of sentences: what they keep after one more line, and what breaks a sentence.
ghost use Rattle.std.specs.Prelude.{◌≡◌, ◌&&◌, ◌||◌, not};
ghost use Rattle.fmp_monitors.specs.Happenings as told;
ghost use Rattle.fmp_monitors.specs.Monitors as spec;

use crate::happening::{ExpectedResponse, ExpectedTrigger, Happening};
use crate::lines::{entering, is_interrupt, is_tick, leaves, runs, tells};
use crate::sentence::Sentence;
use crate::standing::Standing;
use fmp_base::Line;
use fmp_tasks::KernelState;

fn tells_any(happening: Option<Happening>, line: Line) -> bool
    ensures { result ≡ told.tells_any happening line }
{
    match happening {
        Some(happening) => tells(happening, line),
        None => false,
    }
}

fn answers(response: ExpectedResponse, line: Line) -> bool
    ensures { result ≡ told.answers response line }
{
    match response {
        ExpectedResponse::Runs(actor) => runs(actor, line),
        ExpectedResponse::Happens(happening) => tells(happening, line),
    }
}

fn asks(trigger: ExpectedTrigger, line: Line) -> bool
    ensures { result ≡ told.asks trigger line }
{
    match trigger {
        ExpectedTrigger::Interrupt(interrupt) => is_interrupt(interrupt, line),
        ExpectedTrigger::Happens(happening) => tells(happening, line),
    }
}

fn is_held(standing: Standing) -> bool
    ensures { result ≡ spec.is_held standing }
{
    matches!(standing, Standing::Held)
}

fn held_if(held: bool) -> Standing
    ensures { result ≡ spec.held_if held }
{
    if held { Standing::Held } else { Standing::Open }
}

/// After what may open.
fn opened_by(opens: bool, standing: Standing) -> Standing
    ensures { result ≡ spec.held_if (opens || spec.is_held standing) }
{
    if opens {
        Standing::Held
    } else {
        held_if(is_held(standing))
    }
}

/// After what may open, or close.
fn turned_by(opens: bool, closes: bool, standing: Standing) -> Standing
    ensures { result ≡ spec.held_if (opens || (not closes && spec.is_held standing)) }
{
    if opens {
        Standing::Held
    } else if closes {
        Standing::Open
    } else {
        held_if(is_held(standing))
    }
}

/// Whether the second comes, and the first neither with it nor before it.
fn comes_early(first: bool, second: bool, standing: Standing) -> bool
    ensures { result ≡ (second && not (first || spec.is_held standing)) }
{
    if first {
        false
    } else {
        second && !is_held(standing)
    }
}

/// The task that is inside, if one is.
fn inside(standing: Standing) -> Option<u8>
    ensures { result ≡ spec.inside standing }
{
    match standing {
        Standing::Inside(task) => Some(task),
        _ => None,
    }
}

fn inside_of(holder: Option<u8>) -> Standing
    ensures { result ≡ spec.inside_of holder }
{
    match holder {
        Some(task) => Standing::Inside(task),
        None => Standing::Open,
    }
}

/// Who is inside, if it does not leave by a line.
fn staying(leaving: Happening, holder: Option<u8>, line: Line) -> Option<u8>
    ensures { result ≡ told.staying leaving holder line }
{
    match holder {
        Some(task) => {
            if leaves(leaving, task, line) {
                None
            } else {
                Some(task)
            }
        }
        None => None,
    }
}

/// The task that is inside after a line: the one that enters, or else the one that stays.
fn holder_after(enters: Happening, leaving: Happening, holder: Option<u8>, line: Line) -> Option<u8>
    ensures { result ≡ told.holder_on enters leaving holder line }
{
    match entering(enters, line) {
        Some(task) => Some(task),
        None => staying(leaving, holder, line),
    }
}

/// Whether by a line a task enters while another is inside.
fn is_met(enters: Happening, holder: Option<u8>, line: Line) -> bool
    ensures { result ≡ told.is_met enters holder line }
{
    match (holder, entering(enters, line)) {
        (Some(holder), Some(task)) => holder != task,
        _ => false,
    }
}

/// Where a response is waited for, or begins to be: this many ticks may come.
fn asked(ticks: u32, standing: Standing) -> Standing
    ensures { result ≡ spec.asked ticks standing }
{
    match standing {
        Standing::Waiting(_) => standing,
        _ => Standing::Waiting(ticks),
    }
}

/// One tick less may come.
fn ticked(standing: Standing) -> Standing
    ensures { result ≡ spec.ticked standing }
{
    match standing {
        Standing::Waiting(left) => Standing::Waiting(left.saturating_sub(1)),
        _ => standing,
    }
}

/// Whether no tick may come any more.
fn is_due(standing: Standing) -> bool
    ensures { result ≡ spec.is_due standing }
{
    match standing {
        Standing::Waiting(left) => left == 0,
        _ => false,
    }
}

/// What is kept of a response that is to come.
fn next_wait(
    response: ExpectedResponse,
    ticks: u32,
    trigger: ExpectedTrigger,
    standing: Standing,
    line: Line,
) -> Standing
    ensures { result ≡ spec.next_wait (told.answers response line) (told.asks trigger line) (told.is_tick line) ticks
        standing }
{
    if answers(response, line) {
        Standing::Open
    } else if asks(trigger, line) {
        asked(ticks, standing)
    } else if is_tick(line) {
        ticked(standing)
    } else {
        standing
    }
}

/// What is kept of a sentence after one more line.
pub fn next_standing(sentence: &Sentence, standing: Standing, line: Line) -> Standing
    ensures { result ≡ spec.next_by_line sentence.now standing line }
{
    match *sentence {
        Sentence::Before { first, .. } => opened_by(tells(first, line), standing),
        Sentence::NeverAfter {
            opening,
            closing,
            ..
        } => turned_by(tells(opening, line), tells_any(closing, line), standing),
        Sentence::Within {
            response,
            ticks,
            trigger,
        } => next_wait(response, ticks, trigger, standing, line),
        Sentence::OneAtATime { entering, leaving } => {
            inside_of(holder_after(entering, leaving, inside(standing), line))
        }
        Sentence::Never(_) | Sentence::Always(_) | Sentence::Rests(_) | Sentence::End { .. } => {
            Standing::Open
        }
    }
}

/// Whether one more line breaks a sentence of which this is kept.
pub fn breaks_by_line(sentence: &Sentence, standing: Standing, line: Line) -> bool
    ensures { result ≡ spec.breaks_by_line sentence.now standing line }
{
    match *sentence {
        Sentence::Never(happening) => tells(happening, line),
        Sentence::Before { first, second } => {
            comes_early(tells(first, line), tells(second, line), standing)
        }
        Sentence::NeverAfter { happening, .. } => tells(happening, line) && is_held(standing),
        Sentence::Within { .. } => is_tick(line) && is_due(standing),
        Sentence::OneAtATime { entering, .. } => is_met(entering, inside(standing), line),
        Sentence::Always(_) | Sentence::Rests(_) | Sentence::End { .. } => false,
    }
}

/// Whether a state after setup, or after an event, breaks a sentence.
pub fn breaks_in_state(sentence: &Sentence, state: &KernelState) -> bool
    ensures { result ≡ spec.breaks_in_state sentence.now state.now.state }
{
    match sentence {
        Sentence::Always(condition) => !condition.holds(state),
        _ => false,
    }
}

/// Whether a sentence says nothing of a run in which what it speaks of never comes.
pub fn has_premise(sentence: &Sentence) -> bool
    ensures { result ≡ spec.has_premise sentence.now }
{
    match sentence {
        Sentence::Before { .. }
        | Sentence::NeverAfter { .. }
        | Sentence::Within { .. }
        | Sentence::OneAtATime { .. } => true,
        _ => false,
    }
}

/// Whether a line brings what a sentence speaks of.
pub fn is_premise(sentence: &Sentence, line: Line) -> bool
    ensures { result ≡ spec.is_premise sentence.now line }
{
    match *sentence {
        Sentence::Before { second, .. } => tells(second, line),
        Sentence::NeverAfter { opening, .. } => tells(opening, line),
        Sentence::Within { trigger, .. } => asks(trigger, line),
        Sentence::OneAtATime {
            entering: enters,
            ..
        } => entering(enters, line).is_some(),
        Sentence::Never(_) | Sentence::Always(_) | Sentence::Rests(_) | Sentence::End { .. } => {
            false
        }
    }
}
