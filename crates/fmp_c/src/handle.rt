//! The handle by which C holds a system: a pointer to a box, or null.
ghost use Rattle.std.specs.Prelude.{◌≡◌, Option, Some, None, MatchOption};
ghost use Rattle.fmp_c.specs.declared.machine.Machine.{Machine};

use crate::machine::Machine;
use std::alloc::Global;
use std::marker::{Model, Send};
use std::ptr;

/// A box as its pointer.
struct Loose<T> {
    at: *mut T,
    ghost value: { T },
}

impl<T> Model for Loose<T> {
    ghost use Rattle.std_alloc.specs.Box.Ownership.{box_owns};
    ghost use Rattle.fmp_c.specs.Held.{token};

    ghost also_owns = { λ l. box_owns token T.row l.at l.value };
}

impl<T: Drop> Loose<T> {
    fn of(value: Box<T, Global>) -> Loose<T>
        ensures { result.value ≡ value.value }
    {
        let at = Box::into_raw(value);
        Loose { at }
    }
}

/// A system that C holds, or none, where the pointer is null.
#[repr(C)]
#[derive(Drop)]
pub struct FmpSystem {
    at: *mut u8,
    ghost machine: { Option Machine },
}

impl Model for FmpSystem {
    ghost use Rattle.fmp_c.specs.Held.{held};

    ghost also_owns = { λ h. held h.at h.machine };
}

impl FmpSystem {
    /// A handle that holds no system.
    pub fn blank() -> FmpSystem
        ensures { result.machine ≡ None }
    {
        FmpSystem {
            at: ptr::null_mut(),
        }
    }

    fn seal(loose: Loose<Machine>) -> FmpSystem
        ensures { result.machine ≡ Some loose.value }
    {
        let Loose { at } = loose;
        FmpSystem { at: at as *mut u8 }
    }

    /// A handle that holds what is in this box.
    pub fn of(value: Box<Machine, Global>) -> FmpSystem
        ensures { result.machine ≡ Some value.value }
    {
        FmpSystem::seal(Loose::of(value))
    }

    fn loosened(self) -> Option<Loose<Machine>>
        ensures { MatchOption result (self.machine ≡ None) (λ l. self.machine ≡ Some l.value) }
    {
        let FmpSystem { at } = self;
        if at.is_null() {
            None
        } else {
            Some(Loose {
                at: at as *mut Machine,
            })
        }
    }

    fn boxed(loose: Loose<Machine>, alloc: Global) -> Box<Machine, Global>
        ensures { result.value ≡ loose.value }
    {
        let Loose { at } = loose;
        unsafe { Box::from_raw(alloc, at) }
    }

    /// The box of what it holds; none where it is blank.
    pub fn into_box(self, alloc: Global) -> Option<Box<Machine, Global>>
        ensures { MatchOption result (self.machine ≡ None) (λ b. self.machine ≡ Some b.value) }
    {
        match self.loosened() {
            Some(loose) => Some(FmpSystem::boxed(loose, alloc)),
            None => None,
        }
    }
}

// Any thread may use it, one at a time.
unsafe impl Send for FmpSystem {}
