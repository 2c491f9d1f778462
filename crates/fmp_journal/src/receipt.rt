//! The answer to an event.
ghost use Rattle.std.specs.Prelude.{◌≡◌};
ghost use Rattle.fmp_journal.specs.Receipts.{call_reply as reply_of_call};

use fmp_base::{Effect, Line, Reply};

/// The answer to an event.
#[derive(Clone, Copy, Debug, PartialEq, Eq)]
pub struct Receipt {
    /// The event's place in the journal, from 1, or 0 if it did nothing and is not journaled.
    pub number: u32,
    /// What the event did.
    pub effect: Effect,
    /// The reply to the service call that the event made, if it made one and the caller does not wait.
    pub reply: Option<Reply>,
}

/// The reply of an event's call, by the lines of the event.
fn call_reply(lines: &[Line]) -> Option<Reply>
    ensures { result ≡ reply_of_call lines.now }
{
    match lines {
        [Line::Call { reply, .. }, ..] => *reply,
        _ => None,
    }
}

impl Receipt {
    ghost use Rattle.std.specs.Prelude.{◌≡◌, None};
    ghost use Rattle.fmp_base.specs.declared.events.Effect.TheVariants as effect;
    ghost use Rattle.fmp_journal.specs.Receipts.{call_reply as reply_of_call, receipt};

    /// The receipt of an event that did nothing.
    pub fn nothing() -> Receipt
        ensures { result ≡ receipt 0 effect.Nothing None }
    {
        Receipt::at(0, Effect::Nothing, None)
    }

    /// The receipt of an event that was done, by its place in the journal, from 1, and its lines.
    pub fn done(place: u32, lines: &[Line]) -> Receipt
        ensures { result ≡ receipt place effect.Done (reply_of_call lines.now) }
    {
        Receipt::at(place, Effect::Done, call_reply(lines))
    }

    /// The receipt of an event that kept a place, by its place in the journal, from 1.
    pub fn kept(place: u32) -> Receipt
        ensures { result ≡ receipt place effect.Kept None }
    {
        Receipt::at(place, Effect::Kept, None)
    }

    fn at(place: u32, effect: Effect, reply: Option<Reply>) -> Receipt
        ensures { result ≡ receipt place effect reply }
    {
        Receipt {
            number: place,
            effect,
            reply,
        }
    }
}
