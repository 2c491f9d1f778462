//! Interrupts by the bodies of their handlers.
ghost use Rattle.std.specs.Prelude.{◌≡◌, position, bytes_eq};
ghost use Rattle.fmp_base.specs.Names.{name_text};
ghost use Rattle.fmp_session.specs.Commands as spec;

use crate::numbers::number_in;
use fmp_base::Name;

/// The greatest number of an interrupt.
const MOST: u8 = 32;

/// An interrupt with a handler.
#[derive(Clone, Copy)]
pub struct NamedInterrupt {
    /// Its number, 1 to 32.
    pub number: u8,
    /// The name of the body of its handler.
    pub body: Name,
}

/// The place of the first interrupt whose handler has the body of this name.
fn place_in(interrupts: &[NamedInterrupt], name: &[u8]) -> Option<usize>
    ensures { result ≡ spec.place_of name.now interrupts.now }
{
    interrupts
        .iter()
        .position(|interrupt| interrupt.body.as_bytes() == name)
}

/// The number of the only interrupt whose handler has the body of this name.
fn number_named(interrupts: &[NamedInterrupt], name: &[u8]) -> Option<u8>
    ensures { result ≡ spec.number_named name.now interrupts.now }
{
    let place = place_in(interrupts, name)?;
    match place_in(&interrupts[place + 1..], name) {
        Some(_) => None,
        None => Some(interrupts.get(place)?.number),
    }
}

/// The interrupt of a word: its number from 1 to 32, or the name of a body that no other interrupt has.
pub fn interrupt_of(interrupts: &[NamedInterrupt], word: &[u8]) -> Option<u8>
    ensures { result ≡ spec.interrupt_of interrupts.now word.now }
{
    match number_in(word, MOST) {
        Some(number) => Some(number),
        None => number_named(interrupts, word),
    }
}
