//! A run of a system on the kernel, and its text.

ghost use Rattle.std.specs.Prelude.{◌≡◌, ℕ, [], ◌+◌, ◌++◌, ◌<◌, ◌≤◌, ◌^◌, length, map, OnOk, OnErr, IfErr};
ghost use Rattle.std.specs.Prelude.{vec_capacity, vec_len, IfOk};
ghost use Rattle.fmp_base.specs.Ranges.{IsInRange};
ghost use Rattle.fmp_base.specs.Runs.{task_state};
ghost use Rattle.fmp_base.specs.Setups.{setup};
ghost use Rattle.fmp_base.specs.States.{places_from};
ghost use Rattle.fmp_base.specs.Systems.{tables_of};
ghost use Rattle.fmp_base.specs.Texts.{lines_text, states_text, whole_text};
ghost use Rattle.fmp_contexts.specs.Contexts.{Entered};
ghost use Rattle.fmp_kernel.specs.KernelViews.{view_of_setup};
ghost use Rattle.fmp_engine.specs.Outlets.{Given, GivenFront};
ghost use Rattle.fmp_engine.specs.Plays.{AreFree, HasGiven, IsWhyCut, text_of_events};

use crate::events::Events;
use crate::fault::TextCut;
use crate::outlet::{Outlet, Stopped};
use fmp_base::{Body, Effect, System, TaskState};
use fmp_kernel::Kernel;
use fmp_trace::{PIECE, Page, print_states};
use std::alloc::{AllocError, Global};

/// Room for what is left on a page, and for the lines of the states at the end.
const PIECE_ROOM: usize = 393_216;

/// The most tasks that a system has.
const TASKS_MAX: usize = 255;

/// Gives the outlet the text that was put together. Then no text is left.
fn give_all<T: Outlet>(text: &mut Vec<u8>, outlet: &mut T) -> Result<(), Stopped>
    ensures ok { OnOk result (Given T.gave outlet.old outlet.new [] text.old.items) }
    ensures err { OnErr result (GivenFront T.stopped outlet.old outlet.new text.old.items) }
    ensures left { text.new.items ≡ [] }
    ensures len { vec_len text.new ≡ 0 }
    ensures capacity { vec_capacity text.new ≡ vec_capacity text.old }
{
    let given = outlet.give(text.as_slice());
    text.clear();
    given
}

/// Gives the outlet a page. Then nothing is left on it.
fn give_page<T: Outlet>(page: &mut Page, outlet: &mut T) -> Result<(), Stopped>
    ensures ok { OnOk result (Given T.gave outlet.old outlet.new [] page.old) }
    ensures err { OnErr result (GivenFront T.stopped outlet.old outlet.new page.old) }
    ensures left { page.new ≡ [] }
{
    let given = outlet.give(page.bytes());
    page.clear();
    given
}

/// Gives the outlet a page if it is full. The page that is left is not full.
#[inline(always)]
fn give_piece<T: Outlet>(page: &mut Page, outlet: &mut T) -> Result<(), Stopped>
    ensures ok { OnOk result (Given T.gave outlet.old outlet.new page.new page.old) }
    ensures err { OnErr result (GivenFront T.stopped outlet.old outlet.new page.old) }
    ensures short { length page.new < PIECE }
{
    if page.len() < PIECE {
        return Ok(());
    }
    give_page(page, outlet)
}

/// Takes all events on a kernel: their lines go to the outlet, page by page, and what fills no page is left on it.
fn take<B: Body, E: Events, T: Outlet>(
    sys: &System,
    kernel: &mut Kernel<B>,
    events: &mut E,
    page: &mut Page,
    outlet: &mut T,
) -> Result<(), Stopped>
    requires system { kernel.old.system ≡ tables_of sys.now }
    requires few { kernel.old.taken + length (E.left events.old) ≤ 2 ^ 20 }
    requires short { length page.old < PIECE }
    ensures ok { OnOk result (HasGiven T.gave B.meaning kernel.old kernel.new (E.left events.old)
        outlet.old outlet.new page.old page.new) }
    ensures err { OnErr result (GivenFront T.stopped outlet.old outlet.new
        (page.old ++ text_of_events B.meaning kernel.old (E.left events.old))) }
    ensures short { OnOk result (length page.new < PIECE) }
{
    while let Some(event) = events.next_event() {
        match kernel.step(event) {
            Effect::Done => {
                kernel.lines_are_few();
                page.print(sys, kernel.done(), kernel.lines());
                give_piece(page, outlet)?;
            }
            Effect::Kept => {}
            Effect::Nothing => {}
        }
    }
    Ok(())
}

/// Prints the lines of setup on a page that is not full.
#[inline(never)]
fn print_setup<B: Body>(sys: &System, kernel: &Kernel<B>, page: &mut Page)
    requires { length page.old < PIECE }
    ensures { page.new ≡ page.old ++ lines_text (tables_of sys.now) 0 kernel.now.lines }
{
    kernel.lines_are_few();
    page.print(sys, 0, kernel.lines());
}

/// Puts the states of all tasks, in order of number, into a list that has room for them.
fn put_states<B: Body>(kernel: &Kernel<B>, count: u8, states: &mut Vec<TaskState>)
    requires count { count ≡ length kernel.now.system.tasks }
    requires none { states.old.items ≡ [] }
    requires room { TASKS_MAX ≤ vec_capacity states.old }
    ensures states { states.new.items ≡ map (task_state kernel.now.world.state) (places_from 0 count) }
    ensures few { vec_len states.new ≤ TASKS_MAX }
{
    for t in 0..count {
        states.push_reserved(kernel.state(t));
    }
}

/// What the end of a run is put together in: what fills no page, and the states of the tasks.
#[derive(Drop)]
struct Buffers {
    text: Vec<u8>,
    states: Vec<TaskState>,
}

impl Buffers {
    /// Buffers in which nothing stands, with room for the end of any run.
    fn new(alloc: Global) -> Result<Buffers, AllocError>
        ensures { IfOk result AreFree }
    {
        Ok(Buffers {
            text: Vec::with_capacity(alloc, PIECE_ROOM)?,
            states: Vec::with_capacity(alloc, TASKS_MAX)?,
        })
    }
}

/// Gives the outlet the text that was put together, and after it the states of all tasks.
fn give_states<B: Body, T: Outlet>(
    sys: &System,
    kernel: &Kernel<B>,
    buffers: &mut Buffers,
    outlet: &mut T,
) -> Result<(), Stopped>
    requires system { kernel.now.system ≡ tables_of sys.now }
    requires tasks { length sys.now.tasks.items ≤ TASKS_MAX }
    requires short { vec_len buffers.old.text < PIECE }
    requires room { PIECE_ROOM ≤ vec_capacity buffers.old.text }
    requires no_states { buffers.old.states.items ≡ [] }
    requires states_room { TASKS_MAX ≤ vec_capacity buffers.old.states }
    ensures ok { OnOk result (Given T.gave outlet.old outlet.new []
        (buffers.old.text.items ++ states_text (tables_of sys.now) kernel.now.world.state)) }
    ensures err { OnErr result (GivenFront T.stopped outlet.old outlet.new
        (buffers.old.text.items ++ states_text (tables_of sys.now) kernel.now.world.state)) }
{
    let Buffers { text, states } = buffers;
    put_states(kernel, sys.tasks.len() as u8, states);
    if print_states(sys, states.as_slice(), text).is_err() {
        unreachable!();
    }
    give_all(text, outlet)
}

/// Gives the outlet the text of a run of a kernel after setup: its lines, those of the events that were done, and
/// the states at the end.
#[inline(always)]
fn give_from_setup<B: Body, E: Events, T: Outlet>(
    sys: &System,
    kernel: &mut Kernel<B>,
    events: &mut E,
    buffers: &mut Buffers,
    outlet: &mut T,
) -> Result<(), Stopped>
    requires system { kernel.old.system ≡ tables_of sys.now }
    requires fresh { kernel.old.taken ≡ 0 }
    requires tasks { length sys.now.tasks.items ≤ TASKS_MAX }
    requires few { length (E.left events.old) ≤ 2 ^ 20 }
    requires free { AreFree buffers.old }
    ensures ok { (body : B) (n : ℕ) →
        kernel.old ≡ view_of_setup body n (tables_of sys.now) (setup (tables_of sys.now) (B.meaning body)) →
        OnOk result (Given T.gave outlet.old outlet.new []
        (whole_text (tables_of sys.now) (B.meaning body) n (E.left events.old))) }
    ensures err { (body : B) (n : ℕ) →
        kernel.old ≡ view_of_setup body n (tables_of sys.now) (setup (tables_of sys.now) (B.meaning body)) →
        OnErr result (GivenFront T.stopped outlet.old outlet.new
        (whole_text (tables_of sys.now) (B.meaning body) n (E.left events.old))) }
{
    let mut page = Page::new();
    print_setup(sys, kernel, &mut page);
    give_piece(&mut page, outlet)?;
    take(sys, kernel, events, &mut page, outlet)?;
    page.finish(&mut buffers.text);
    give_states(sys, kernel, buffers, outlet)
}

/// What is run: a system by its bodies, within a bound of 1 to 2^48 units a stretch.
pub struct Subject<'a, B: Body> {
    pub system: &'a System,
    pub body: B,
    pub bound: u64,
}

/// Runs a system over events, and gives the outlet all that it prints, piece by piece. Memory can run out only before
/// the first piece.
pub fn play_into<B: Body + Drop, E: Events, T: Outlet>(
    alloc: Global,
    subject: Subject<'_, B>,
    events: &mut E,
    outlet: &mut T,
) -> Result<(), TextCut>
    requires low { 1 ≤ subject.bound }
    requires high { subject.bound ≤ 2 ^ 48 }
    requires entries { Entered B.has_entry subject.body (tables_of subject.system.now) }
    requires range { IsInRange (tables_of subject.system.now) }
    requires few { length (E.left events.old) ≤ 2 ^ 20 }
    ensures ok { OnOk result (Given T.gave outlet.old outlet.new [] (whole_text (tables_of subject.entry.system.now)
        (B.meaning subject.entry.body) subject.entry.bound (E.left events.old))) }
    ensures err { IfErr result (IsWhyCut T.gave T.stopped outlet.old outlet.new
        (whole_text (tables_of subject.entry.system.now)
        (B.meaning subject.entry.body) subject.entry.bound (E.left events.old))) }
{
    let Subject {
        system,
        body,
        bound,
    } = subject;
    let Ok(mut buffers) = Buffers::new(alloc) else {
        return Err(TextCut::Memory);
    };
    match Kernel::new(alloc, body, system, bound) {
        Ok(mut kernel) => {
            let given = give_from_setup(system, &mut kernel, events, &mut buffers, outlet);
            drop(kernel);
            match given {
                Ok(()) => Ok(()),
                Err(Stopped) => Err(TextCut::Stopped),
            }
        }
        Err(_) => Err(TextCut::Memory),
    }
}

/// Runs a system over events, and appends all that it prints. Running out of memory is the only error; then nothing is
/// appended.
pub fn play<B: Body + Drop, E: Events>(
    alloc: Global,
    subject: Subject<'_, B>,
    events: &mut E,
    out: &mut Vec<u8>,
) -> Result<(), AllocError>
    requires low { 1 ≤ subject.bound }
    requires high { subject.bound ≤ 2 ^ 48 }
    requires entries { Entered B.has_entry subject.body (tables_of subject.system.now) }
    requires range { IsInRange (tables_of subject.system.now) }
    requires few { length (E.left events.old) ≤ 2 ^ 20 }
    ensures ok { OnOk result (out.new.items ≡ out.old.items
        ++ whole_text (tables_of subject.entry.system.now)
        (B.meaning subject.entry.body) subject.entry.bound (E.left events.old)) }
    ensures err { OnErr result (out.new.items ≡ out.old.items) }
{
    let before = out.len();
    match play_into(alloc, subject, events, out) {
        Ok(()) => return Ok(()),
        Err(TextCut::Memory) => {}
        Err(TextCut::Stopped) => out.truncate(before),
    }
    Err(AllocError)
}
