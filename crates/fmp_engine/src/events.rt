//! Where the events of a run come from.
ghost use Rattle.std.specs.Prelude.{◌≡◌, ◌∷◌, [], MatchOption};

use fmp_base::Event;
use fmp_trace::Steps;
use std::marker::Model;

/// Events that come one after the other.
pub trait Events {
    ghost use Rattle.std.specs.Prelude.{◌≡◌, ◌∷◌, [], List, MatchOption};
    ghost use Rattle.fmp_base.specs.declared.events.Event.{Event};

    /// Those that are still to come.
    ghost left: { Self → List Event };

    /// Takes the next event, if there is one.
    fn next_event(&mut self) -> Option<Event>
        ensures { MatchOption result (left self.old ≡ []) (λ event. left self.old ≡ event ∷ left self.new) };
}

impl Events for Steps<'_> {
    ghost left = { λ steps. steps };

    fn next_event(&mut self) -> Option<Event> {
        Steps::next_event(self)
    }
}

/// The events of a journal that are still to come. It is seen as the list of these events.
#[derive(Drop)]
pub struct Journal<'a> {
    rest: &'a [Event],
}

impl<'a> Model for Journal<'a> {
    ghost use Rattle.std.specs.Prelude.{List};
    ghost use Rattle.fmp_base.specs.declared.events.Event.{Event};

    ghost Value = { List Event };

    ghost view = { λ journal. journal.rest.now };
}

impl<'a> Journal<'a> {
    /// All events of a journal.
    pub fn new(events: &'a [Event]) -> Journal<'a>
        ensures { result ≡ events.now }
    {
        Journal { rest: events }
    }
}

impl Events for Journal<'_> {
    ghost left = { λ journal. journal };

    fn next_event(&mut self) -> Option<Event> {
        let (event, rest) = self.rest.split_first()?;
        self.rest = rest;
        Some(*event)
    }
}
