//! The numbers of a row as a saved state, in one walk over the pieces of the fields. Nothing is promised of it: whoever
//! restores a kernel from the saved state reads the kernel's numbers again, and compares.
use crate::blocks::{
    block_of, byte_of, half_of, is_dormant, is_queued, number_at, processor_of, signed, ticks_of,
};
use crate::field::{What, low_byte};
use crate::field_plan::FieldPlan;
use crate::piece::{BLOCK, PROCESSOR, Piece};
use crate::room::Room;
use fmp_instructions::MachineContext;
use fmp_kernel::{Saved, SavedContexts};
use fmp_tasks::{SavedMessage, SavedState, SavedWord};
use std::alloc::{AllocError, Global};

/// How many interrupts there are.
const INTERRUPTS: usize = 32;

/// A context in which nothing was done.
const EMPTY: MachineContext = MachineContext {
    pc: 0,
    count: 0,
    locals: [0; 64],
    operands: [0; 64],
};

/// A saved state that is filled by one row after the other, and keeps its room.
#[derive(Drop)]
pub struct SavedRow {
    saved: Saved<MachineContext>,
    /// For each task the one behind it in its queue, with 1 added, or 0.
    behind: Vec<u8>,
    /// For each task whether it stands behind another one.
    is_behind: Vec<bool>,
    /// For each mailbox its first message, with 1 added, or 0.
    first_messages: Vec<u8>,
    /// For each message the one behind it in its mailbox, with 1 added, or 0.
    messages_behind: Vec<u8>,
}

/// A saved state of nothing.
fn nothing_saved(alloc: Global) -> SavedState {
    SavedState {
        blocks: Vec::new(alloc),
        order: Vec::new(alloc),
        semaphores: Vec::new(alloc),
        flags: Vec::new(alloc),
        words: Vec::new(alloc),
        messages: Vec::new(alloc),
        shared_words: Vec::new(alloc),
        processors: Vec::new(alloc),
        due_times: Vec::new(alloc),
        pending_cyclics: Vec::new(alloc),
        pending_interrupts: Vec::new(alloc),
    }
}

/// Forgets a saved state, and keeps its room. No interrupt is pending. `AllocError` if memory runs out.
fn clear_state(state: &mut SavedState) -> Result<(), AllocError> {
    state.blocks.clear();
    state.order.clear();
    state.semaphores.clear();
    state.flags.clear();
    state.words.clear();
    state.messages.clear();
    state.shared_words.clear();
    state.processors.clear();
    state.due_times.clear();
    state.pending_cyclics.clear();
    state.pending_interrupts.clear();
    state.pending_interrupts.resize(INTERRUPTS, false)
}

/// The numbers from a place on, this many, or as many as there are.
fn numbers_from(numbers: &[u32], start: usize, count: usize) -> &[u32] {
    let start = start.min(numbers.len());
    let count = count.min(numbers.len() - start);
    &numbers[start..start + count]
}

/// The numbers from a place on.
fn numbers_after(numbers: &[u32], start: usize) -> &[u32] {
    &numbers[start.min(numbers.len())..]
}

/// Puts numbers with a sign into the first places, as many as there are.
fn put_signed(places: &mut [i32; 64], numbers: &[u32]) {
    for at in 0..numbers.len().min(64) {
        places[at] = signed(numbers[at]);
    }
}

/// Puts the numbers of a body of this room, with which these begin, into its context.
fn fill_context(context: &mut MachineContext, room: Room, numbers: &[u32]) {
    let count = usize::from(room.locals) + 1;
    context.pc = half_of(number_at(numbers, 0));
    put_signed(
        &mut context.locals,
        numbers_from(numbers, 1, usize::from(room.locals)),
    );
    let operands = byte_of(number_at(numbers, count));
    // Where there was no operand and is none, all their places hold 0.
    if operands != 0 || context.count != 0 {
        put_signed(
            &mut context.operands,
            numbers_from(numbers, count + 1, usize::from(room.operands)),
        );
    }
    context.count = operands;
}

/// Puts the numbers of a body of this room, with which these begin, into the context that is there, or else into a new
/// one.
fn fill_started(context: &mut Option<MachineContext>, room: Room, numbers: &[u32]) {
    if context.is_none() {
        *context = Some(EMPTY);
    }
    if let Some(context) = context {
        fill_context(context, room, numbers);
    }
}

/// Puts the numbers of the body at a place into its context among these, if it goes on or awaits a reply. Else it has
/// no context.
fn fill_at(
    contexts: &mut Vec<Option<MachineContext>>,
    place: u8,
    goes: bool,
    room: Room,
    numbers: &[u32],
) -> Result<(), AllocError> {
    if contexts.len() <= usize::from(place) {
        contexts.resize(usize::from(place) + 1, None)?;
    }
    if let Some(context) = contexts.get_mut(usize::from(place)) {
        if goes {
            fill_started(context, room, numbers);
        } else if context.is_some() {
            *context = None;
        }
    }
    Ok(())
}

/// What is behind a place, with 1 added; 0 if nothing is.
fn behind_of(behind: &[u8], place: usize) -> usize {
    match behind.get(place) {
        Some(next) => usize::from(*next),
        None => 0,
    }
}

impl SavedRow {
    /// Nothing is saved yet.
    pub fn new(alloc: Global) -> SavedRow {
        SavedRow {
            saved: Saved {
                state: nothing_saved(alloc),
                contexts: SavedContexts {
                    tasks: Vec::new(alloc),
                    handlers: Vec::new(alloc),
                },
            },
            behind: Vec::new(alloc),
            is_behind: Vec::new(alloc),
            first_messages: Vec::new(alloc),
            messages_behind: Vec::new(alloc),
        }
    }

    /// What was saved last.
    pub fn saved(&self) -> &Saved<MachineContext> {
        &self.saved
    }

    /// Forgets what was saved last.
    fn clear(&mut self) -> Result<(), AllocError> {
        self.behind.clear();
        self.is_behind.clear();
        self.first_messages.clear();
        self.messages_behind.clear();
        clear_state(&mut self.saved.state)
    }

    /// Takes the numbers of a task whose body needs this room.
    fn take_task(&mut self, t: u8, room: Room, numbers: &[u32]) -> Result<(), AllocError> {
        let Some(block) = block_of(numbers) else {
            return Ok(());
        };
        self.saved.state.blocks.push(block)?;
        self.behind.push(byte_of(number_at(numbers, BLOCK - 1)))?;
        let goes = !is_dormant(&block);
        let body = numbers_after(numbers, BLOCK);
        fill_at(&mut self.saved.contexts.tasks, t, goes, room, body)
    }

    /// Takes the numbers of a processor whose handlers' bodies need this room.
    fn take_processor(&mut self, p: u8, room: Room, numbers: &[u32]) -> Result<(), AllocError> {
        let cpu = processor_of(numbers);
        self.saved.state.processors.push(cpu)?;
        let goes = cpu.handler.is_some();
        let body = numbers_after(numbers, PROCESSOR);
        fill_at(&mut self.saved.contexts.handlers, p, goes, room, body)
    }

    /// Takes the words of a data queue, whose number stands in front of them.
    fn take_words(&mut self, queue: u8, numbers: &[u32]) -> Result<(), AllocError> {
        let count = number_at(numbers, 0) as usize;
        for at in 1..numbers.len() {
            if at > count {
                return Ok(());
            }
            let word = signed(numbers[at]);
            self.saved.state.words.push(SavedWord { queue, word })?;
        }
        Ok(())
    }

    /// Takes whether an interrupt is pending.
    fn take_interrupt(&mut self, place: u8, number: u32) {
        if let Some(pending) = self
            .saved
            .state
            .pending_interrupts
            .get_mut(usize::from(place))
        {
            *pending = number == 1;
        }
    }

    /// Takes the field that these numbers begin with, if it is of an object.
    fn take_object(&mut self, what: What, numbers: &[u32]) -> Result<(), AllocError> {
        let number = number_at(numbers, 0);
        let state = &mut self.saved.state;
        match what {
            What::Count(_) => state.semaphores.push(half_of(number))?,
            What::Pattern(_) => state.flags.push(half_of(number))?,
            What::Words(d) => self.take_words(d, numbers)?,
            What::FirstMessage(_) => self.first_messages.push(byte_of(number))?,
            What::MessageBehind(_) => self.messages_behind.push(byte_of(number))?,
            What::SharedWord(_) => state.shared_words.push(signed(number))?,
            What::TicksToDue(_) => state.due_times.push(ticks_of(number))?,
            What::PendingCyclic(_) => state.pending_cyclics.push(number == 1)?,
            What::PendingInterrupt(i) => self.take_interrupt(i, number),
            _ => {}
        }
        Ok(())
    }

    /// Takes the piece that these numbers begin with.
    fn take(&mut self, piece: Piece, numbers: &[u32]) -> Result<(), AllocError> {
        match piece {
            Piece::Task(t, room) => self.take_task(t, room, numbers)?,
            Piece::Processor(p, room) => self.take_processor(p, room, numbers)?,
            Piece::Single(what) => self.take_object(what, numbers)?,
        }
        Ok(())
    }

    /// Takes the numbers of these pieces.
    fn take_all(&mut self, pieces: &[Piece], numbers: &[u32]) -> Result<(), AllocError> {
        let mut at: usize = 0;
        for place in 0..pieces.len() {
            let piece = pieces[place];
            self.take(piece, numbers_after(numbers, at))?;
            at = at.saturating_add(piece.len());
        }
        Ok(())
    }

    /// Marks the task at a place, with 1 added, if there is one.
    fn mark(&mut self, next: usize) {
        if next == 0 {
            return;
        }
        if let Some(mark) = self.is_behind.get_mut(next - 1) {
            *mark = true;
        }
    }

    /// Marks the tasks that stand behind others.
    fn mark_behind(&mut self) -> Result<(), AllocError> {
        self.is_behind.resize(self.behind.len(), false)?;
        for t in 0..self.behind.len() {
            let next = behind_of(&self.behind, t);
            self.mark(next);
        }
        Ok(())
    }

    /// Adds a task and all behind it to the order.
    fn order_from(&mut self, first: usize) -> Result<(), AllocError> {
        let mut at = first;
        for _task in 0..self.behind.len() {
            self.saved.state.order.push(low_byte(at))?;
            match behind_of(&self.behind, at) {
                0 => return Ok(()),
                next => at = next - 1,
            }
        }
        Ok(())
    }

    /// Whether a task is the first of a queue.
    fn is_first(&self, t: usize) -> bool {
        match (self.saved.state.blocks.get(t), self.is_behind.get(t)) {
            (Some(block), Some(is_behind)) => is_queued(block) && !*is_behind,
            _ => false,
        }
    }

    /// Puts the tasks in order, one queue after the other.
    fn order_tasks(&mut self) -> Result<(), AllocError> {
        self.mark_behind()?;
        for t in 0..self.behind.len() {
            if self.is_first(t) {
                self.order_from(t)?;
            }
        }
        Ok(())
    }

    /// Puts the messages of a mailbox in order.
    fn order_messages(&mut self, mailbox: usize) -> Result<(), AllocError> {
        let mut next = behind_of(&self.first_messages, mailbox);
        for _message in 0..self.messages_behind.len() {
            if next == 0 {
                return Ok(());
            }
            self.saved.state.messages.push(SavedMessage {
                mailbox: low_byte(mailbox),
                message: low_byte(next - 1),
            })?;
            next = behind_of(&self.messages_behind, next - 1);
        }
        Ok(())
    }

    /// Takes the numbers of these fields in the place of what was saved last. `AllocError` if memory runs out.
    pub fn fill(&mut self, fields: &FieldPlan, numbers: &[u32]) -> Result<(), AllocError> {
        self.clear()?;
        self.take_all(fields.pieces(), numbers)?;
        self.order_tasks()?;
        for mailbox in 0..self.first_messages.len() {
            self.order_messages(mailbox)?;
        }
        Ok(())
    }
}
