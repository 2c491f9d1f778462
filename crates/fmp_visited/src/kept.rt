//! The states that are kept, in the order in which they were first reached. Their rows stand one after the other.
ghost use Rattle.std.specs.Prelude.{◌≡◌, ◌+◌, ◌≤◌, ◌^◌, [], ◌∷◌, ◌++◌, length, slice_get, IfNone, IfSome, OnErr};
ghost use Rattle.std.specs.Prelude.{OnOk};
ghost use Rattle.std.specs.Option.{option_map};
ghost use Rattle.fmp_visited.specs.Kept.{link_of, row_in, start_of};

use crate::link::StateLink;
use fmp_base::Event;
use std::alloc::{AllocError, Global};
use std::marker::Model;

/// What the higher part of the start of a row counts.
const HIGHER: usize = 4_294_967_296;

/// Where the row of a state stands, and how the state was reached: in 20 bytes, so the start is in two parts.
#[derive(Clone, Copy)]
pub struct State {
    start_low: u32,
    length: u32,
    parent: u32,
    depth: u32,
    event: Event,
    kept: bool,
    start_high: u8,
}

impl State {
    /// A state that was reached so, whose row begins at this place and has this length. None if the place is 2^40 or
    /// more.
    fn new(start: usize, length: u32, link: StateLink) -> Option<State>
        ensures made { IfSome result
            (λ state. (start_of state ≡ start) × (state.length ≡ length) × (link_of state ≡ link)) }
        ensures none { IfNone result (2 ^ 40 ≤ start) }
    {
        let Ok(start_high) = u8::try_from(start / HIGHER) else {
            return None;
        };
        Some(State {
            start_low: (start % HIGHER) as u32,
            length,
            parent: link.parent,
            depth: link.depth,
            event: link.event,
            kept: link.kept,
            start_high,
        })
    }

    /// The place where its row begins.
    fn start(&self) -> usize
        ensures { result ≡ start_of self.now }
    {
        self.start_high as usize * HIGHER + self.start_low as usize
    }

    /// How it was reached.
    fn link(&self) -> StateLink
        ensures { result ≡ link_of self.now }
    {
        StateLink {
            parent: self.parent,
            event: self.event,
            kept: self.kept,
            depth: self.depth,
        }
    }
}

/// The states that are kept.
#[derive(Drop)]
pub struct StateStore {
    bytes: Vec<u8>,
    states: Vec<State>,
}

impl Model for StateStore {
    ghost use Rattle.fmp_visited.specs.Kept.{KeptStates, AreWithin, kept_states};

    ghost Value = { KeptStates };

    ghost view = { λ k. kept_states k.bytes.items k.states.items };

    ghost invariant = { λ k. AreWithin k.bytes.items k.states.items };
}

/// The row of a state, among these bytes.
fn row_of_state<'a>(bytes: &'a [u8], state: &State) -> &'a [u8]
    requires { start_of state.now + state.now.length ≤ length bytes.now }
    ensures { result.now ≡ row_in bytes.now state.now }
{
    let start = state.start();
    let end = start + state.length as usize;
    &bytes[start..end]
}

impl StateStore {
    /// No state.
    pub fn new(alloc: Global) -> StateStore
        ensures { result ≡ record { rows = []; links = [] } }
    {
        StateStore {
            bytes: Vec::new(alloc),
            states: Vec::new(alloc),
        }
    }

    /// How many states there are.
    pub fn len(&self) -> usize
        ensures rows { result ≡ length self.now.rows }
        ensures links { result ≡ length self.now.links }
    {
        self.states.len()
    }

    /// How a state was reached, if there is one at this place.
    pub fn link(&self, i: usize) -> Option<StateLink>
        ensures { result ≡ slice_get self.now.links i }
    {
        match self.states.get(i) {
            Some(state) => Some(state.link()),
            None => None,
        }
    }

    /// The row of a state, if there is one at this place.
    pub fn row(&self, i: usize) -> Option<&[u8]>
        ensures { option_map (λ row. row.now) result ≡ slice_get self.now.rows i }
    {
        match self.states.get(i) {
            Some(state) => Some(row_of_state(&self.bytes, state)),
            None => None,
        }
    }

    /// Keeps a state. `AllocError` if memory runs out, or the rows have 2^40 bytes: then the states are as before.
    pub fn push(&mut self, row: &[u8], link: StateLink) -> Result<(), AllocError>
        ensures ok { OnOk result (self.new ≡ record {
          rows = self.old.rows ++ row.now ∷ [];
          links = self.old.links ++ link ∷ [];
        }) }
        ensures err { OnErr result (self.new ≡ self.old) }
    {
        let start = self.bytes.len();
        let Ok(length) = u32::try_from(row.len()) else {
            return Err(AllocError);
        };
        let Some(state) = State::new(start, length, link) else {
            return Err(AllocError);
        };
        self.bytes.extend_from_slice(row)?;
        if self.states.push(state).is_err() {
            self.bytes.truncate(start);
            return Err(AllocError);
        }
        Ok(())
    }
}
