//! What is legal in two texts but usually a mistake: a call that its body may never make; a number in place of an
//! object's name, an object of another kind or a number out of range as the argument of a call; a shared word in an
//! expression; an index out of range; an expression that faults; a loop, a sleep or a wait for bits that nothing ends;
//! a statement that nothing reaches; a call that a lock bars; a constant in a packet for which it is not; bodies and
//! objects that nothing uses, signals, sets, sends to or receives from.
ghost use Rattle.std.specs.Prelude.{◌≡◌, ◌<◌, ◌+◌, ◌++◌, length, IfOk, OnOk};
ghost use Rattle.fmp_warnings.specs.Marks.{structure};
ghost use Rattle.fmp_warnings.specs.Unreached.{WarnsOfUnreached};
ghost use Rattle.fmp_warnings.specs.Warned.{ArePicked};
ghost use Rattle.fmp_warnings.specs.Warnings.{AreWarningsOf};

use crate::arithmetic::warn_of_arithmetic;
use crate::bits::{note_bits, warn_of_bits};
use crate::found::{FoundWarnings, Warning};
use crate::indices::warn_of_indices;
use crate::landmarks::Landmarks;
use crate::locks::warn_of_locks;
use crate::loops::warn_of_loops;
use crate::mistakes::{Mistake, Wrong, say_mistake};
use crate::objects::{NamedObject, NamedObjects};
use crate::packets::warn_of_constants;
use crate::sleeps::warn_of_sleeps;
use crate::unreached::warn_of_unreached;
use crate::walk::{CallWalk, Lone, WalkedArgument, lone_argument};
use crate::wanted::{WantedArgument, range_at, takes_caller};
use fmp_base::Name;
use fmp_diagnosis::apis::{api_at, entry_of, value_of};
use fmp_diagnosis::around::{begins_body_at, is_among, list_of, name_at};
use fmp_diagnosis::fields::Field;
use fmp_diagnosis::words::{Word, say};
use fmp_diagnosis::{Texts, processors};
use fmp_lex::{Api, Constant, TextFile, TokenKind, Tokens};
use std::alloc::{AllocError, Global};

/// The maximum number of warnings about calls and arguments.
const CALLS: u32 = 100;

/// What is seen of the texts.
#[derive(Drop)]
struct Warnings {
    objects: NamedObjects,
    /// How many processors there are.
    processors: i64,
    /// The number of warnings about calls and arguments that are left.
    room: u32,
}

impl Warnings {
    /// Warns of a mistake at a call, which stands at a token of the task text, if there is room.
    fn warn(
        &mut self,
        tokens: &Tokens<'_>,
        at: usize,
        mistake: Mistake,
        found: &mut FoundWarnings<'_>,
    ) -> Result<(), AllocError>
        ensures { OnOk result (0 < self.old.room → length found.new.list.items ≡ length found.old.list.items + 1) }
    {
        if self.room == 0 {
            return Ok(());
        }
        self.room -= 1;
        let mut sentence = Vec::new(found.alloc);
        say_mistake(mistake, &mut sentence)?;
        found.warn(TextFile::Source, tokens, at, sentence)
    }

    /// What is wrong with a name as an argument, if anything is.
    fn wrong_name(&mut self, argument: WalkedArgument, name: Name) -> Option<Wrong> {
        let found = self.objects.api_of(name);
        match (found, argument.wanted) {
            (Some(api), WantedArgument::Object(wanted)) if api == wanted => {
                if argument.place == 0 {
                    self.objects.note_call(argument.service, name);
                }
                None
            }
            (Some(api), _) => {
                self.note_argument(argument);
                Some(Wrong::Object(name, api))
            }
            (None, _) => {
                self.note_argument(argument);
                None
            }
        }
    }

    /// A call has an argument that is not the name of an object of the kind that it takes there.
    fn note_argument(&mut self, argument: WalkedArgument) {
        match argument.wanted {
            WantedArgument::Object(api) if argument.place == 0 => {
                self.objects.note_any(argument.service, api);
            }
            _ => {}
        }
    }

    /// What is wrong with the number that an argument stands for, where the call takes no object, if anything is.
    fn wrong_number(&self, argument: WalkedArgument, lone: Lone) -> Option<Wrong> {
        let number = lone.number()?;
        let (low, high) = range_at(argument.service, argument.place, self.processors)?;
        if low <= number && number <= high {
            return None;
        }
        Some(Wrong::Range(number, (low, high)))
    }

    /// What is wrong with an argument, if anything is.
    fn wrong(&mut self, tokens: &Tokens<'_>, argument: WalkedArgument) -> Option<Wrong> {
        let lone = lone_argument(tokens, argument.at);
        if let Some(Lone::Name(name)) = lone {
            return self.wrong_name(argument, name);
        }
        self.note_argument(argument);
        match (lone?, argument.wanted) {
            (lone, WantedArgument::Number(_)) => self.wrong_number(argument, lone),
            (Lone::Number(0) | Lone::Constant(Constant::TskSelf), _)
                if takes_caller(argument.service) => { None }
            (Lone::Number(number), _) => Some(Wrong::Number(number)),
            (Lone::Constant(constant), _) => Some(Wrong::Constant(constant)),
            (Lone::Name(_), _) => None,
        }
    }

    /// Notes the object whose name stands at a place. Bodies have names of their own. Whether it is a shared word whose
    /// number is used as a value there.
    fn note_name(&mut self, tokens: &Tokens<'_>, at: usize, name: Name, walk: CallWalk) -> bool {
        if walk.is_heading() {
            return false;
        }
        match self.objects.note_named(name) {
            Some(Api::CreShr) => walk.is_value(tokens, at),
            _ => false,
        }
    }

    /// Notes the argument, if it is an object that a variable or an expression gives.
    fn note_computed(&mut self, tokens: &Tokens<'_>, argument: WalkedArgument) {
        let is_computed = match lone_argument(tokens, argument.at) {
            None => true,
            Some(Lone::Name(name)) => self.objects.api_of(name).is_none(),
            Some(_) => false,
        };
        match argument.wanted {
            WantedArgument::Object(api) if is_computed => self.objects.note_computed(api),
            _ => {}
        }
    }

    /// Looks at the argument that begins after a token.
    fn look_at_argument(
        &mut self,
        tokens: &Tokens<'_>,
        argument: WalkedArgument,
        found: &mut FoundWarnings<'_>,
    ) -> Result<(), AllocError> {
        note_bits(&mut self.objects, tokens, argument);
        self.note_computed(tokens, argument);
        match self.wrong(tokens, argument) {
            Some(wrong) => {
                let mistake = Mistake::Argument(argument, wrong);
                self.warn(tokens, argument.at, mistake, found)
            }
            None => Ok(()),
        }
    }

    /// Looks at the token at a place, which the walk has reached.
    fn look_at_token(
        &mut self,
        tokens: &Tokens<'_>,
        (at, kind): (usize, TokenKind),
        walk: CallWalk,
        found: &mut FoundWarnings<'_>,
    ) -> Result<(), AllocError> {
        match kind {
            TokenKind::Name(name) => {
                if !self.note_name(tokens, at, name, walk) {
                    return Ok(());
                }
                self.warn(tokens, at, Mistake::SharedWord(name), found)
            }
            TokenKind::Service(service) => match walk.barred(service) {
                Some(barred) => self.warn(tokens, at, Mistake::Barred(barred), found),
                None => Ok(()),
            },
            TokenKind::Symbol(symbol) => match walk.argument_after(at, symbol) {
                Some(argument) => self.look_at_argument(tokens, argument, found),
                None => Ok(()),
            },
            _ => Ok(()),
        }
    }

    /// Walks over the calls of a task text, and finds its landmarks.
    fn calls(
        &mut self,
        tokens: &Tokens<'_>,
        found: &mut FoundWarnings<'_>,
    ) -> Result<Landmarks, AllocError>
        ensures { IfOk result (λ landmarks. landmarks.structure.items ≡ structure tokens.now) }
    {
        let mut landmarks = Landmarks::new(found.alloc);
        let mut walk = CallWalk::new();
        for at in 0..tokens.len() {
            if let Some(kind) = tokens.kind(at) {
                landmarks.note(at, kind)?;
                walk = walk.after(kind);
                self.look_at_token(tokens, (at, kind), walk, found)?;
            }
        }
        Ok(landmarks)
    }
}

/// The bodies that the static APIs of a configuration name.
fn entries(alloc: Global, tokens: &Tokens<'_>) -> Result<Vec<Name>, AllocError> {
    let mut names = Vec::new(alloc);
    for at in 0..tokens.len() {
        if let Some(api) = api_at(tokens, at) {
            if let Some(name) = entry_of(tokens, at, api) {
                names.push(name)?;
            }
        }
    }
    Ok(names)
}

/// The name of the body whose first word stands at a place, if it is none of these.
fn body_beside(tokens: &Tokens<'_>, at: usize, entries: &[Name]) -> Option<Name> {
    if !begins_body_at(tokens, at) {
        return None;
    }
    let name = name_at(tokens, at.saturating_add(1))?;
    if is_among(entries, &name) {
        return None;
    }
    Some(name)
}

/// Warns of the bodies of a task text that no static API names.
fn warn_of_bodies(
    entries: &[Name],
    (src, landmarks): (&Tokens<'_>, &Landmarks),
    found: &mut FoundWarnings<'_>,
) -> Result<(), AllocError> {
    for mark in &landmarks.structure {
        let at = mark.at;
        if let Some(body) = body_beside(src, at, entries) {
            let words = [
                Word::Text("no static API names the body "),
                Word::Name(body),
            ];
            let mut sentence = Vec::new(found.alloc);
            say(&words, &mut sentence)?;
            found.warn(TextFile::Source, src, at.saturating_add(1), sentence)?;
        }
    }
    Ok(())
}

/// Whether an object starts without a call: a task or a cyclic handler that is started at setup.
fn is_started(cfg: &Tokens<'_>, object: &NamedObject) -> bool {
    match object.api {
        Api::CreTsk | Api::CreCyc => value_of(cfg, object.at, object.api, Field::Attribute) == 2,
        _ => false,
    }
}

/// What is said of an object whose name stands nowhere in the task text.
fn unnamed(cfg: &Tokens<'_>, object: &NamedObject) -> Option<&'static str> {
    if is_started(cfg, object) {
        return None;
    }
    match object.api {
        Api::CreTsk | Api::CreCyc => Some(" is not started at setup, and no body names it"),
        _ => Some(" is not named in the task text"),
    }
}

impl Warnings {
    /// What is said of an object that is not used as it should be.
    fn neglect(&self, cfg: &Tokens<'_>, object: &NamedObject) -> Option<&'static str> {
        if !object.is_named && !self.objects.is_computed(object) {
            return unnamed(cfg, object);
        }
        let uses = self.objects.uses_of(object);
        match object.api {
            Api::CreSem if !uses.is_raised => Some(" is a semaphore that nothing signals"),
            Api::CreFlg if !uses.is_raised => Some(" is an eventflag that nothing sets"),
            Api::CreDtq if !uses.is_raised => Some(" is a data queue that nothing sends to"),
            Api::CreDtq if !uses.is_taken => Some(" is a data queue that nothing receives from"),
            Api::CreMbx if !uses.is_raised => Some(" is a mailbox that nothing sends to"),
            Api::CreMbx if !uses.is_taken => Some(" is a mailbox that nothing receives from"),
            _ => None,
        }
    }

    /// Warns of the objects of a configuration that nothing uses, signals, sets, sends to or receives from.
    fn neglected(&self, cfg: &Tokens<'_>, found: &mut FoundWarnings<'_>) -> Result<(), AllocError> {
        for object in &self.objects.list {
            if let Some(text) = self.neglect(cfg, object) {
                let words = [Word::Name(object.name), Word::Text(text)];
                let mut sentence = Vec::new(found.alloc);
                say(&words, &mut sentence)?;
                let name = object.at.saturating_add(2);
                found.warn(TextFile::Configuration, cfg, name, sentence)?;
            }
        }
        Ok(())
    }
}

impl Warnings {
    /// The objects of a configuration, and no warnings.
    fn new(alloc: Global, cfg: &Tokens<'_>) -> Result<Warnings, AllocError> {
        Ok(Warnings {
            objects: NamedObjects::of(alloc, cfg)?,
            processors: i64::from(processors(cfg)),
            room: CALLS,
        })
    }

    /// The warnings of locks, bits, sleeps and bodies, and of the constants and the objects of the configuration.
    fn after_unreached(
        &self,
        alloc: Global,
        texts: Texts<'_>,
        cfg: &Tokens<'_>,
        (src, landmarks): (&Tokens<'_>, &Landmarks),
    ) -> Result<Vec<Warning>, AllocError> {
        let mut found = FoundWarnings::new(alloc, texts);
        warn_of_locks((src, landmarks), &self.objects, &mut found)?;
        warn_of_bits((src, landmarks), &self.objects, &mut found)?;
        warn_of_sleeps((src, landmarks), &self.objects, &mut found)?;
        let entries = entries(alloc, cfg)?;
        warn_of_bodies(&entries, (src, landmarks), &mut found)?;
        warn_of_constants(cfg, &mut found)?;
        self.neglected(cfg, &mut found)?;
        Ok(found.list)
    }
}

/// Warns of indices, expressions and loops.
fn warn_of_parts(
    src: &Tokens<'_>,
    landmarks: &Landmarks,
    found: &mut FoundWarnings<'_>,
) -> Result<(), AllocError> {
    warn_of_indices((src, landmarks), found)?;
    warn_of_arithmetic((src, landmarks), found)?;
    warn_of_loops((src, landmarks), found)
}

/// The warnings of statements that nothing reaches.
fn of_unreached(
    alloc: Global,
    texts: Texts<'_>,
    src: &Tokens<'_>,
    landmarks: &Landmarks,
) -> Result<Vec<Warning>, AllocError>
    ensures { IfOk result (λ ws. ArePicked (WarnsOfUnreached texts.entry.src.now src.now)
        landmarks.now.structure.items ws.items) }
{
    let mut found = FoundWarnings::new(alloc, texts);
    warn_of_unreached(src, landmarks, &mut found)?;
    Ok(found.list)
}

/// Warnings, and others after them.
fn joined(first: Vec<Warning>, more: Vec<Warning>) -> Result<Vec<Warning>, AllocError>
    ensures { IfOk result (λ all. all.items ≡ first.items ++ more.items) }
{
    let mut all = first;
    for warning in more {
        all.push(warning)?;
    }
    Ok(all)
}

/// The warnings of two texts that have no fault. Each kind comes in order of text: at most 100 of calls, their
/// arguments and shared words in expressions; of indices; of expressions; of loops; of statements that nothing reaches;
/// of locks; of bits; of sleeps; of bodies; of the constants and then of the objects of the configuration. `AllocError`
/// if memory runs out.
pub fn warnings_of(alloc: Global, texts: Texts<'_>) -> Result<Vec<Warning>, AllocError>
    ensures { IfOk result (λ ws. AreWarningsOf texts.entry ws.items) }
{
    let cfg = list_of(alloc, texts.cfg)?;
    let src = list_of(alloc, texts.src)?;
    let mut found = FoundWarnings::new(alloc, texts);
    let mut seen = Warnings::new(alloc, &cfg.tokens)?;
    let landmarks = seen.calls(&src.tokens, &mut found)?;
    warn_of_parts(&src.tokens, &landmarks, &mut found)?;
    let unreached = of_unreached(alloc, texts, &src.tokens, &landmarks)?;
    let after = seen.after_unreached(alloc, texts, &cfg.tokens, (&src.tokens, &landmarks))?;
    let more = joined(unreached, after)?;
    joined(found.list, more)
}
