//! A board that is closed.
ghost use Rattle.std.specs.Prelude.{◌≡◌, ◌<◌, ◌≤◌, ◌^◌, length, slice_get, Some};

use fmp_base::Event;
use fmp_code::Vm;
use fmp_kernel::Kernel;
use std::marker::Model;

/// The kernel and the journal of a board that is closed.
#[derive(Drop)]
pub struct Closed<'a> {
    kernel: Kernel<Vm<'a>>,
    journal: Vec<Event>,
}

impl<'a> Model for Closed<'a> {
    ghost use Rattle.std.specs.Prelude.{◌≤◌, ◌^◌, length};
    ghost use Rattle.fmp_board.specs.Boards.{ClosedState};

    ghost Value = { ClosedState };

    ghost view = { λ c. record { kernel = c.kernel; events = c.journal.items } };

    ghost invariant = { λ c. length c.journal.items ≤ 2 ^ 20 };
}

impl<'a> Closed<'a> {
    pub(crate) fn new(kernel: Kernel<Vm<'a>>, journal: Vec<Event>) -> Closed<'a>
        requires { length journal.items ≤ 2 ^ 20 }
        ensures { result ≡ record { kernel = kernel.entry; events = journal.items } }
    {
        Closed { kernel, journal }
    }

    /// How many events the journal has, at most 2^20.
    pub fn len(&self) -> u32
        ensures count { result ≡ length self.now.events }
        ensures most { result ≤ 2 ^ 20 }
    {
        self.journal.len() as u32
    }

    /// The event at place i of the journal, from 0.
    pub fn event(&self, i: u32) -> Event
        requires { i < length self.now.events }
        ensures { slice_get self.now.events i ≡ Some result }
    {
        self.journal[i as usize]
    }

    /// The kernel.
    pub fn kernel(&self) -> &Kernel<Vm<'a>>
        ensures { result.now ≡ self.now.kernel }
    {
        &self.kernel
    }
}
