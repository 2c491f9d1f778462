//! What was ever done in a search: calls that were made, tasks and handlers that ran, and how full the queues became.
ghost use Rattle.std.specs.Prelude.{◌≡◌, ◌++◌, IfOk, OnOk};
ghost use Rattle.fmp_witness.specs.Calls as spec;

use fmp_base::{Caller, Er, Handler, Line};
use fmp_code::{Code, Instruction};
use fmp_fields::low_byte;
use fmp_question::{ANSWERS, CallSite};
use fmp_tasks::KernelState;
use std::alloc::{AllocError, Global};

/// What was ever done with the calls of bodies, by the place of the body and of the instruction in it.
#[derive(Drop)]
struct CallCoverage {
    /// Whether the call was made.
    made: Vec<Vec<bool>>,
    /// A bit for each code that it got.
    answers: Vec<Vec<u16>>,
}

/// Who ever ran.
#[derive(Drop)]
pub struct RunCoverage {
    /// Whether each task ran.
    pub tasks: Vec<bool>,
    /// Whether the handler of each interrupt, from number 1 to 32, ran.
    pub interrupts: Vec<bool>,
    /// Whether each cyclic handler ran.
    pub cyclics: Vec<bool>,
}

/// How full the objects ever were.
#[derive(Drop)]
pub struct Peaks {
    /// The greatest count of each semaphore.
    pub counts: Vec<u16>,
    /// The most words that each data queue held.
    pub words: Vec<u8>,
    /// The most messages that each mailbox held.
    pub messages: Vec<u8>,
}

/// What was ever done in the states that were examined.
#[derive(Drop)]
pub struct Coverage {
    calls: CallCoverage,
    pub runs: RunCoverage,
    pub peaks: Peaks,
}

/// A mark that is not set for each instruction of each body.
fn unmade(alloc: Global, code: &Code) -> Result<Vec<Vec<bool>>, AllocError> {
    let mut made = Vec::new(alloc);
    for body in &code.bodies {
        made.push(vec![in alloc; false; body.instructions.len()]?)?;
    }
    Ok(made)
}

/// No answer for each instruction of each body.
fn unanswered(alloc: Global, code: &Code) -> Result<Vec<Vec<u16>>, AllocError> {
    let mut answers = Vec::new(alloc);
    for body in &code.bodies {
        answers.push(vec![in alloc; 0; body.instructions.len()]?)?;
    }
    Ok(answers)
}

/// The bit of a code; 0 for one that no call answers.
fn bit_of(code: Er) -> u16
    ensures { result ≡ spec.bit_of code }
{
    match code {
        Er::Ok => 1,
        Er::Par => 2,
        Er::Id => 4,
        Er::Ctx => 8,
        Er::Iluse => 16,
        Er::Obj => 32,
        Er::Qovr => 64,
        Er::Rlwai => 128,
        Er::Tmout => 256,
        Er::Sys | Er::Nospt | Er::Rsatr => 0,
    }
}

/// Adds a code, if it is one of these bits.
fn add_answer(answers: &mut Vec<Er>, bits: u16, code: Er) -> Result<(), AllocError>
    ensures { OnOk result (answers.new.items ≡ answers.old.items ++ spec.answer_in bits code) }
{
    if bits & bit_of(code) == 0 {
        return Ok(());
    }
    answers.push(code)?;
    Ok(())
}

/// Adds those of these codes that are among these bits.
fn add_answers(answers: &mut Vec<Er>, bits: u16, codes: &[Er]) -> Result<(), AllocError>
    ensures { OnOk result (answers.new.items ≡ answers.old.items ++ spec.answers_in bits codes.now) }
{
    for code in codes {
        add_answer(answers, bits, *code)?;
    }
    Ok(())
}

/// Sets the marks that are set in another list.
fn join_marks(marks: &mut [bool], others: &[bool]) {
    for (mark, other) in marks.iter_mut().zip(others) {
        *mark |= *other;
    }
}

/// Sets a mark, if it is there.
fn mark(marks: &mut [bool], place: u8) {
    if let Some(mark) = marks.get_mut(usize::from(place)) {
        *mark = true;
    }
}

/// The code that a line tells, if it tells one.
fn code_in(line: &Line) -> Option<Er> {
    match line {
        Line::Call {
            reply: Some(reply),
            ..
        } => Some(reply.code),
        Line::Gets { reply, .. } => Some(reply.code),
        _ => None,
    }
}

impl CallCoverage {
    /// No call was made.
    fn new(alloc: Global, code: &Code) -> Result<CallCoverage, AllocError> {
        let made = unmade(alloc, code)?;
        let answers = unanswered(alloc, code)?;
        Ok(CallCoverage { made, answers })
    }

    /// A call was made here.
    fn note(&mut self, site: CallSite) {
        if let Some(body) = self.made.get_mut(usize::from(site.body))
            && let Some(made) = body.get_mut(usize::from(site.pc))
        {
            *made = true;
        }
    }

    /// Adds what was done elsewhere.
    fn join(&mut self, other: &CallCoverage) {
        for (mine, theirs) in self.made.iter_mut().zip(&other.made) {
            join_marks(mine.as_mut_slice(), theirs);
        }
        for (mine, theirs) in self.answers.iter_mut().zip(&other.answers) {
            for (bits, more) in mine.iter_mut().zip(theirs) {
                *bits |= *more;
            }
        }
    }

    /// The call here got this answer.
    fn note_answer(&mut self, site: CallSite, code: Er) {
        if let Some(body) = self.answers.get_mut(usize::from(site.body))
            && let Some(answers) = body.get_mut(usize::from(site.pc))
        {
            *answers |= bit_of(code);
        }
    }
}

impl RunCoverage {
    /// Nobody ran.
    fn new(alloc: Global, tables: &KernelState) -> Result<RunCoverage, AllocError> {
        let tasks = vec![in alloc; false; tables.task_count()]?;
        let interrupts = vec![in alloc; false; 32]?;
        let cyclics = vec![in alloc; false; tables.cyclic_count()]?;
        Ok(RunCoverage {
            tasks,
            interrupts,
            cyclics,
        })
    }

    /// Adds who ran elsewhere.
    fn join(&mut self, other: &RunCoverage) {
        join_marks(self.tasks.as_mut_slice(), &other.tasks);
        join_marks(self.interrupts.as_mut_slice(), &other.interrupts);
        join_marks(self.cyclics.as_mut_slice(), &other.cyclics);
    }

    /// A handler ran.
    fn note_handler(&mut self, handler: Handler) {
        match handler {
            Handler::Interrupt(i) => mark(self.interrupts.as_mut_slice(), i),
            Handler::Cyclic(c) => mark(self.cyclics.as_mut_slice(), c),
        }
    }

    /// A task or a handler ran.
    fn note(&mut self, caller: Caller) {
        match caller {
            Caller::Task(t) => mark(self.tasks.as_mut_slice(), t),
            Caller::Handler(h) => self.note_handler(h),
        }
    }
}

impl Peaks {
    /// Nothing was there.
    fn new(alloc: Global, tables: &KernelState) -> Result<Peaks, AllocError> {
        let counts = vec![in alloc; 0; tables.semaphore_count()]?;
        let words = vec![in alloc; 0; tables.data_queue_count()]?;
        let messages = vec![in alloc; 0; tables.mailbox_count()]?;
        Ok(Peaks {
            counts,
            words,
            messages,
        })
    }

    /// Adds how full the objects were elsewhere.
    fn join(&mut self, other: &Peaks) {
        for (most, more) in self.counts.iter_mut().zip(&other.counts) {
            *most = (*more).max(*most);
        }
        for (most, more) in self.words.iter_mut().zip(&other.words) {
            *most = (*more).max(*most);
        }
        for (most, more) in self.messages.iter_mut().zip(&other.messages) {
            *most = (*more).max(*most);
        }
    }

    /// The counts of the semaphores in a state.
    fn note_counts(&mut self, tables: &KernelState) {
        for (s, most) in self.counts.iter_mut().enumerate() {
            if s < tables.semaphore_count() {
                *most = tables.count(low_byte(s)).max(*most);
            }
        }
    }

    /// The lengths of the data queues in a state.
    fn note_words(&mut self, tables: &KernelState) {
        for (d, most) in self.words.iter_mut().enumerate() {
            if d < tables.data_queue_count() {
                *most = tables.data_queue_length(low_byte(d)).max(*most);
            }
        }
    }

    /// The lengths of the mailboxes in a state.
    fn note_messages(&mut self, tables: &KernelState) {
        for (x, most) in self.messages.iter_mut().enumerate() {
            if x < tables.mailbox_count() {
                *most = tables.mailbox_length(low_byte(x)).max(*most);
            }
        }
    }
}

impl Coverage {
    /// Nothing was done in no system.
    pub fn nothing(alloc: Global) -> Coverage {
        Coverage {
            calls: CallCoverage {
                made: Vec::new(alloc),
                answers: Vec::new(alloc),
            },
            runs: RunCoverage {
                tasks: Vec::new(alloc),
                interrupts: Vec::new(alloc),
                cyclics: Vec::new(alloc),
            },
            peaks: Peaks {
                counts: Vec::new(alloc),
                words: Vec::new(alloc),
                messages: Vec::new(alloc),
            },
        }
    }

    /// Nothing was done yet in a system of these tables and this code. `AllocError` if memory runs out.
    pub fn new(alloc: Global, tables: &KernelState, code: &Code) -> Result<Coverage, AllocError> {
        let calls = CallCoverage::new(alloc, code)?;
        let runs = RunCoverage::new(alloc, tables)?;
        let peaks = Peaks::new(alloc, tables)?;
        Ok(Coverage { calls, runs, peaks })
    }

    /// Adds what was done in other states of the same system.
    pub fn join(&mut self, other: &Coverage) {
        self.calls.join(&other.calls);
        self.runs.join(&other.runs);
        self.peaks.join(&other.peaks);
    }

    /// A call was made here.
    pub fn note_call(&mut self, site: CallSite) {
        self.calls.note(site);
    }

    /// What a line tells, which belongs to this call, if it belongs to one.
    pub fn note_line(&mut self, line: &Line, site: Option<CallSite>) {
        if let Some(code) = code_in(line)
            && let Some(site) = site
        {
            self.calls.note_answer(site, code);
        }
        match line {
            Line::Call { caller, .. } | Line::End { caller, .. } | Line::Fault { caller, .. } => {
                self.runs.note(*caller);
            }
            Line::Runs {
                task: Some(task),
                ..
            } => self.runs.note(Caller::Task(*task)),
            Line::Begins { handler, .. } => self.runs.note_handler(*handler),
            _ => {}
        }
    }

    /// How full the queues are in a state, and the counts of its semaphores.
    pub fn note_state(&mut self, tables: &KernelState) {
        self.peaks.note_counts(tables);
        self.peaks.note_words(tables);
        self.peaks.note_messages(tables);
    }

    /// The bits of the codes that the call at a place ever got.
    fn bits(&self, site: CallSite) -> u16
        ensures { result ≡ spec.bits_at self.now site }
    {
        match self.calls.answers.get(usize::from(site.body)) {
            Some(body) => match body.get(usize::from(site.pc)) {
                Some(bits) => *bits,
                None => 0,
            },
            None => 0,
        }
    }

    /// The answers that the call at a place ever got, in a fixed order. `AllocError` if memory runs out.
    pub fn answers(&self, alloc: Global, site: CallSite) -> Result<Vec<Er>, AllocError>
        ensures { IfOk result (λ answers. answers.items ≡ spec.answers_at self.now site) }
    {
        let mut answers = Vec::new(alloc);
        add_answers(&mut answers, self.bits(site), &ANSWERS)?;
        Ok(answers)
    }

    /// Whether the call at a place was made.
    pub fn was_made(&self, site: CallSite) -> bool
        ensures { result ≡ spec.was_made self.now site }
    {
        match self.calls.made.get(usize::from(site.body)) {
            Some(body) => match body.get(usize::from(site.pc)) {
                Some(made) => *made,
                None => false,
            },
            None => false,
        }
    }

    /// The calls of the code that were made, or those that were not, in order of body and place.
    fn calls(&self, alloc: Global, code: &Code, made: bool) -> Result<Vec<CallSite>, AllocError> {
        let mut sites = Vec::new(alloc);
        for (body, text) in code.bodies.iter().enumerate() {
            for (pc, instruction) in text.instructions.iter().enumerate() {
                let site = CallSite {
                    body: low_byte(body),
                    pc: (pc % 65536) as u16,
                };
                let is_call = matches!(instruction, Instruction::Call { .. });
                if is_call && self.was_made(site) == made {
                    sites.push(site)?;
                }
            }
        }
        Ok(sites)
    }

    /// The calls of the code that were made, in order of body and place. `AllocError` if memory runs out.
    pub fn made(&self, alloc: Global, code: &Code) -> Result<Vec<CallSite>, AllocError> {
        self.calls(alloc, code, true)
    }

    /// The calls of the code that were never made, in order of body and place. `AllocError` if memory runs out.
    pub fn never_made(&self, alloc: Global, code: &Code) -> Result<Vec<CallSite>, AllocError> {
        self.calls(alloc, code, false)
    }
}
