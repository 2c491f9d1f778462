//! The variables that receive what a service call answers.
ghost use Rattle.std.specs.Prelude.{◌≡◌, None, OnOk, Some};
ghost use Rattle.std.specs.Option.{option_copied};
ghost use Rattle.fmp_tasklang.specs.HeldReceivers.{held_out, held_result};

use crate::trees::Word;
use std::alloc::{AllocError, Global};
use std::marker::Model;

/// The variables of a call: the one at its out place and the one before `=`, where they stand. They lie in one box, so
/// that a call without them needs no room for their names, and a statement stays small enough for the lists from which
/// the allocator serves at once. Contracts see both.
#[derive(Drop)]
pub struct Receivers {
    held: ReceiverRoom,
}

/// Where the variables lie.
#[derive(Drop)]
enum ReceiverRoom {
    Nothing,
    Out(Box<Word>),
    Result(Box<Word>),
    /// The variable at the out place, then the one before `=`.
    Both(Box<(Word, Word)>),
}

impl Model for Receivers {
    ghost use Rattle.fmp_tasklang.specs.Receivers.{ReceiverWords};
    ghost use Rattle.fmp_tasklang.specs.HeldReceivers.{held_out, held_result};

    ghost Value = { ReceiverWords };

    ghost view = { λ r. record { out = held_out r.held; result = held_result r.held } };
}

impl Receivers {
    /// No variable.
    pub(crate) fn none() -> Receivers
        ensures out { result.out ≡ None }
        ensures result { result.result ≡ None }
    {
        Receivers {
            held: ReceiverRoom::Nothing,
        }
    }

    /// Sets the variable at the out place. The error is out of memory.
    pub(crate) fn set_out(&mut self, alloc: Global, word: Word) -> Result<(), AllocError>
        ensures out { OnOk result (self.new.out ≡ Some word) }
        ensures result { OnOk result (self.new.result ≡ self.old.result) }
    {
        self.held = match self.result() {
            None => ReceiverRoom::Out(Box::new(alloc, word)?),
            Some(other) => ReceiverRoom::Both(Box::new(alloc, (word, *other))?),
        };
        Ok(())
    }

    /// Sets the variable before `=`. The error is out of memory.
    pub(crate) fn set_result(&mut self, alloc: Global, word: Word) -> Result<(), AllocError>
        ensures result { OnOk result (self.new.result ≡ Some word) }
        ensures out { OnOk result (self.new.out ≡ self.old.out) }
    {
        self.held = match self.out() {
            None => ReceiverRoom::Result(Box::new(alloc, word)?),
            Some(other) => ReceiverRoom::Both(Box::new(alloc, (*other, word))?),
        };
        Ok(())
    }

    /// The variable at the out place, if there is one.
    pub fn out(&self) -> Option<&Word>
        ensures { option_copied result ≡ self.now.out }
    {
        match &self.held {
            ReceiverRoom::Nothing => None,
            ReceiverRoom::Out(word) => Some(word),
            ReceiverRoom::Result(_) => None,
            ReceiverRoom::Both(both) => Some(&both.0),
        }
    }

    /// The variable before `=`, if there is one.
    pub fn result(&self) -> Option<&Word>
        ensures { option_copied result ≡ self.now.result }
    {
        match &self.held {
            ReceiverRoom::Nothing => None,
            ReceiverRoom::Out(_) => None,
            ReceiverRoom::Result(word) => Some(word),
            ReceiverRoom::Both(both) => Some(&both.1),
        }
    }
}
