//! The system of an image, whose handlers of interrupts have the names of a text for their bodies.
ghost use Rattle.std.specs.Prelude.{◌≡◌, ◌++◌, IfOk, OnOk, false, map};
ghost use Rattle.fmp_base.specs.Systems.{tables_of};
ghost use Rattle.fmp_looking.specs.NamedSystems as spec;

use fmp_base::{Entry, InterruptConfig, Name, System};
use fmp_frames::begins_at;
use fmp_lex::{TextFault, TokenKind, Tokens, tokens};
use std::alloc::{AllocError, Global};

/// Adds the name that a token is, if it stands after one that begins a body.
fn add_name(kind: TokenKind, after_head: bool, names: &mut Vec<Name>) -> Result<(), AllocError>
    ensures { OnOk result (names.new.items ≡ names.old.items ++ spec.name_here after_head kind) }
{
    if !after_head {
        return Ok(());
    }
    match kind {
        TokenKind::Name(name) => {
            names.push(name)?;
            Ok(())
        }
        _ => Ok(()),
    }
}

/// The same of the token at a place.
#[tactic(auto, using(crate::proofs::NameLemmas::name_found))]
fn add_name_at(
    tokens: &Tokens<'_>,
    at: usize,
    after_head: bool,
    names: &mut Vec<Name>,
) -> Result<(), AllocError>
    ensures { OnOk result (names.new.items ≡ names.old.items ++ spec.name_at after_head tokens.now at) }
{
    match tokens.kind(at) {
        Some(kind) => add_name(kind, after_head, names),
        None => Ok(()),
    }
}

/// The names of the bodies that begin in tokens.
fn names_in(alloc: Global, tokens: &Tokens<'_>) -> Result<Vec<Name>, AllocError>
    ensures { IfOk result (λ names. names.items ≡ spec.names_after false tokens.now) }
{
    let mut names = Vec::new(alloc);
    let mut after_head = false;
    for at in 0..tokens.len() {
        add_name_at(tokens, at, after_head, &mut names)?;
        after_head = begins_at(tokens, at);
    }
    Ok(names)
}

/// The names of the bodies of a text; none of a text that is too long.
fn names_of(alloc: Global, src: &[u8]) -> Result<Vec<Name>, AllocError>
    ensures { IfOk result (λ names. spec.AreNamesOf src.now names.items) }
{
    match tokens(alloc, src) {
        Ok(list) => names_in(alloc, &list.tokens),
        Err(TextFault::TooLong) => Ok(Vec::new(alloc)),
        Err(TextFault::Memory) => Err(AllocError),
    }
}

/// An entry by the name of its body.
fn named_entry(names: &[Name], entry: Entry) -> Entry
    ensures { result ≡ spec.named_entry names.now entry }
{
    match entry {
        Entry::Body(body) => match names.get(usize::from(body)) {
            Some(name) => Entry::Named(*name),
            None => Entry::Body(body),
        },
        Entry::Named(name) => Entry::Named(name),
    }
}

/// Interrupts whose handlers have these names for their bodies.
fn named_interrupts(
    alloc: Global,
    names: &[Name],
    interrupts: &[InterruptConfig],
) -> Result<Vec<InterruptConfig>, AllocError>
    ensures { IfOk result (λ named. named.items ≡ map (λ x. spec.named_interrupt names.now x) interrupts.now) }
{
    let mut named = Vec::new(alloc);
    for interrupt in interrupts {
        named.push(InterruptConfig {
            entry: named_entry(names, interrupt.entry),
            ..*interrupt
        })?;
    }
    Ok(named)
}

/// A system with these interrupts.
fn with_interrupts(
    alloc: Global,
    sys: &System,
    interrupts: Vec<InterruptConfig>,
) -> Result<System, AllocError>
    ensures { IfOk result (λ named. tables_of named
        ≡ record (tables_of sys.now) { interrupts = interrupts.items }) }
{
    Ok(System {
        processors: sys.processors,
        queue_limit: sys.queue_limit,
        tasks: Vec::from_slice(alloc, &sys.tasks)?,
        semaphores: Vec::from_slice(alloc, &sys.semaphores)?,
        flags: Vec::from_slice(alloc, &sys.flags)?,
        data_queues: Vec::from_slice(alloc, &sys.data_queues)?,
        mailboxes: Vec::from_slice(alloc, &sys.mailboxes)?,
        messages: Vec::from_slice(alloc, &sys.messages)?,
        shared_words: Vec::from_slice(alloc, &sys.shared_words)?,
        spin_locks: Vec::from_slice(alloc, &sys.spin_locks)?,
        cyclics: Vec::from_slice(alloc, &sys.cyclics)?,
        interrupts,
    })
}

/// The system of an image whose bodies have this text: its handlers of interrupts have their names there, as they have
/// them in the configuration. `AllocError` if memory runs out.
pub fn named_system(alloc: Global, sys: &System, src: &[u8]) -> Result<System, AllocError>
    ensures { IfOk result (λ named. spec.IsNamedBy src.now (tables_of sys.now) (tables_of named)) }
{
    let names = names_of(alloc, src)?;
    let interrupts = named_interrupts(alloc, &names, &sys.interrupts)?;
    with_interrupts(alloc, sys, interrupts)
}
