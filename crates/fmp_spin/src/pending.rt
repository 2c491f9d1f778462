//! The handlers that are pending on the processors.
ghost use Rattle.std.specs.Prelude.{◌≡◌, ◌+◌, ◌*◌, ◌<◌, ◌≤◌, length, map, replicate, false, true, slice_set, IfOk};
ghost use Rattle.std.specs.Prelude.{IfSome};
ghost use Rattle.fmp_base.specs.Ranges.{IsInRange};
ghost use Rattle.fmp_base.specs.States.{places_from};
ghost use Rattle.fmp_base.specs.Systems.{tables_of, defined_for};
ghost use Rattle.fmp_base.specs.Ticks.{is_pending};
ghost use Rattle.fmp_spin.specs.Bits.{IsFirst, bit_in};
ghost use Rattle.fmp_spin.specs.Pending.{handler_processors, none_pending, first_handler, processor_of, AreQuiet};
ghost use Rattle.fmp_spin.specs.Pending.{HasMark, without_mark, IsSetAt};

use crate::bits::{first_bit, is_clear, set_bit};
use fmp_base::{CyclicConfig, Handler, InterruptConfig, System};
use std::alloc::{AllocError, Global};
use std::marker::Model;

mod copying;

/// How many words of bits a processor has: one for interrupts, four for cyclic handlers.
const BITMAP_WORDS: usize = 5;

/// The slot of the first cyclic handler in a bitmap; the interrupts stand before it, from 0.
const CYCLICS: usize = 64;

/// For each handler whether it is pending (uITRON 4.0, sections 4.7.2 and 4.9). Interrupts go by their places, their
/// numbers less 1, and cyclic handlers by theirs. Each processor has a bitmap, in which its first pending handler is
/// found, and is busy where a bit of it is set: mostly none is. It is seen as the marks, with the processor of each
/// handler, which never changes.
#[derive(Drop)]
pub struct PendingHandlers {
    processors: u8,
    interrupt_processors: Vec<Option<u8>>,
    cyclic_processors: Vec<u8>,
    interrupts: Vec<bool>,
    cyclics: Vec<bool>,
    words: Vec<u64>,
    busy: Vec<bool>,
}

impl Model for PendingHandlers {
    ghost use Rattle.fmp_spin.specs.Pending.{PendingMarks, marks_view, IsExact};

    ghost Value = { PendingMarks };

    ghost view = { marks_view };

    ghost invariant = { IsExact };
}

/// Sets or clears the bit of a slot in the bitmap of a processor, if any, and tells whether a bit of it is set then.
fn set_slot(words: &mut [u64], busy: &mut [bool], processor: Option<u8>, slot: usize, pending: bool)
    requires slot { slot < 320 }
    requires there { IfSome processor (λ q. q * 5 + 5 ≤ length words.old) }
    requires marked { IfSome processor (λ q. q < length busy.old) }
    requires quiet { AreQuiet words.old busy.old }
    ensures bits { IsSetAt words.old words.new processor slot pending }
    ensures words { length words.new ≡ length words.old }
    ensures busy { length busy.new ≡ length busy.old }
    ensures quiet { AreQuiet words.new busy.new }
{
    if let Some(q) = processor {
        let from = q as usize * BITMAP_WORDS;
        set_bit(words, from * 64 + slot, pending);
        busy[q as usize] = !is_clear(words, from);
    }
}

/// The processor of the handler that is defined for an interrupt number, if any.
fn processor_for(configs: &[InterruptConfig], number: u8) -> Option<u8>
    ensures { result ≡ processor_of (defined_for number configs.now) }
{
    for config in configs {
        if config.number == number {
            return Some(config.processor);
        }
    }
    None
}

/// The processor of the handler of each interrupt, by place, if it has one.
fn interrupt_processors(
    alloc: Global,
    configs: &[InterruptConfig],
) -> Result<Vec<Option<u8>>, AllocError>
    ensures { IfOk result
        (λ v. v.items ≡ map (λ i. processor_of (defined_for (i + 1) configs.now)) (places_from 0 32)) }
{
    let mut processors = Vec::with_capacity(alloc, 32)?;
    for i in 0..32 {
        processors.push_reserved(processor_for(configs, i + 1));
    }
    Ok(processors)
}

/// The processor of each cyclic handler.
fn cyclic_processors(alloc: Global, configs: &[CyclicConfig]) -> Result<Vec<u8>, AllocError>
    ensures { IfOk result (λ v. v.items ≡ map (λ c. c.processor) configs.now) }
{
    let mut processors = Vec::with_capacity(alloc, configs.len())?;
    for config in configs {
        processors.push_reserved(config.processor);
    }
    Ok(processors)
}

/// This many marks, none of them set.
fn clear_marks(alloc: Global, count: usize) -> Result<Vec<bool>, AllocError>
    ensures { IfOk result (λ v. v.items ≡ replicate count false) }
{
    vec![in alloc; false; count]
}

/// This many words in which no bit is set.
fn clear_words(alloc: Global, count: usize) -> Result<Vec<u64>, AllocError>
    ensures { IfOk result (λ v. v.items ≡ replicate count 0) }
{
    vec![in alloc; 0; count]
}

/// The first slot of a bitmap whose bit is set, if any.
#[inline(never)]
fn first_slot(words: &[u64], from: usize) -> Option<usize>
    requires inside { from + 5 ≤ length words.now }
    ensures { IsFirst (λ i. bit_in words.now (from * 64 + i)) 320 result }
{
    first_bit(words, from, BITMAP_WORDS)
}

impl PendingHandlers {
    /// The handlers of a system, none of them pending. `AllocError` if memory runs out.
    pub fn new(alloc: Global, sys: &System) -> Result<PendingHandlers, AllocError>
        requires { IsInRange (tables_of sys.now) }
        ensures { IfOk result (λ h. h ≡ none_pending (tables_of sys.now)) }
    {
        let interrupt_processors = interrupt_processors(alloc, sys.interrupts.as_slice())?;
        let cyclic_processors = cyclic_processors(alloc, sys.cyclics.as_slice())?;
        let interrupts = clear_marks(alloc, 32)?;
        let cyclics = clear_marks(alloc, sys.cyclics.len())?;
        let words = clear_words(alloc, sys.processors as usize * BITMAP_WORDS)?;
        let busy = clear_marks(alloc, sys.processors as usize)?;
        Ok(PendingHandlers {
            processors: sys.processors,
            interrupt_processors,
            cyclic_processors,
            interrupts,
            cyclics,
            words,
            busy,
        })
    }

    /// How many cyclic handlers there are.
    pub fn cyclic_count(&self) -> usize
        ensures marks { result ≡ length self.now.cyclics }
        ensures few { result ≤ 255 }
    {
        self.cyclics.len()
    }

    /// Whether the interrupt at a place is pending.
    pub fn is_interrupt_pending(&self, i: u8) -> bool
        requires { i < length self.now.interrupts }
        ensures { result ≡ is_pending self.now.interrupts i }
    {
        self.interrupts[i as usize]
    }

    /// Whether a cyclic handler is pending.
    pub fn is_cyclic_pending(&self, c: u8) -> bool
        requires { c < length self.now.cyclics }
        ensures { result ≡ is_pending self.now.cyclics c }
    {
        self.cyclics[c as usize]
    }

    /// The interrupt at a place is pending, or no longer.
    fn mark_interrupt(&mut self, i: u8, pending: bool)
        requires { i < length self.old.interrupts }
        ensures { self.new ≡ record self.old { interrupts = slice_set self.old.interrupts i pending } }
    {
        let processor = self.interrupt_processors[i as usize];
        self.interrupts[i as usize] = pending;
        set_slot(
            self.words.as_mut_slice(),
            self.busy.as_mut_slice(),
            processor,
            i as usize,
            pending,
        );
    }

    /// A cyclic handler is pending, or no longer.
    fn mark_cyclic(&mut self, c: u8, pending: bool)
        requires { c < length self.old.cyclics }
        ensures { self.new ≡ record self.old { cyclics = slice_set self.old.cyclics c pending } }
    {
        let processor = Some(self.cyclic_processors[c as usize]);
        self.cyclics[c as usize] = pending;
        set_slot(
            self.words.as_mut_slice(),
            self.busy.as_mut_slice(),
            processor,
            CYCLICS + c as usize,
            pending,
        );
    }

    /// The interrupt at a place becomes pending.
    pub fn pend_interrupt(&mut self, i: u8)
        requires { i < length self.old.interrupts }
        ensures { self.new ≡ record self.old { interrupts = slice_set self.old.interrupts i true } }
    {
        self.mark_interrupt(i, true);
    }

    /// A cyclic handler becomes pending.
    pub fn pend_cyclic(&mut self, c: u8)
        requires { c < length self.old.cyclics }
        ensures { self.new ≡ record self.old { cyclics = slice_set self.old.cyclics c true } }
    {
        self.mark_cyclic(c, true);
    }

    /// A handler is no longer pending.
    pub fn clear(&mut self, h: Handler)
        requires { HasMark self.old h }
        ensures { self.new ≡ without_mark self.old h }
    {
        match h {
            Handler::Interrupt(i) => self.mark_interrupt(i, false),
            Handler::Cyclic(c) => self.mark_cyclic(c, false),
        }
    }

    /// The first pending handler of a processor, if any: interrupts by number, then cyclic handlers by number.
    pub fn first(&self, p: u8) -> Option<Handler>
        requires { p < self.now.processors.count }
        ensures value { result ≡ first_handler self.now p }
        ensures there { IfSome result (λ h. HasMark self.now h) }
    {
        if !self.busy[p as usize] {
            return None;
        }
        match first_slot(self.words.as_slice(), p as usize * BITMAP_WORDS) {
            Some(slot) if slot < CYCLICS => Some(Handler::Interrupt(slot as u8)),
            Some(slot) => Some(Handler::Cyclic((slot - CYCLICS) as u8)),
            None => None,
        }
    }
}
