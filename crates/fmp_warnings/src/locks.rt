//! Warnings of calls that are refused where a task has taken a spin lock, locked the CPU or disabled dispatching, and
//! of tasks that end with a lock.
use crate::contexts::BodyKind;
use crate::found::FoundWarnings;
use crate::holds::{Flaw, Held, Hold, say_held};
use crate::landmarks::{Landmarks, Mark};
use crate::objects::NamedObjects;
use crate::sections::{Guard, guard_at, is_in_sections};
use crate::walk::{Lone, lone_argument};
use crate::ways::{Ways, gives_back, gives_back_in_block, jumps};
use fmp_base::Service;
use fmp_diagnosis::apis::is_symbol;
use fmp_diagnosis::around::line_of;
use fmp_lex::{Constant, Keyword, Symbol, TextFile, TokenKind, Tokens};
use std::alloc::{AllocError, Global};

/// A token that a walk comes to.
#[derive(Clone, Copy)]
struct Step {
    /// Its index in the landmarks.
    index: usize,
    kind: TokenKind,
    /// The token after it.
    next: Option<TokenKind>,
    /// Whether it is a call that would give something back, and gives back nothing for sure.
    is_wrong: bool,
    /// Whether it is a call on the task that makes it.
    is_on_caller: bool,
    /// Whether it begins a loop whose condition always holds.
    is_unconditional: bool,
    /// Whether it begins a loop in which something is given back.
    gives_in_loop: bool,
}

/// An `if` that is open in the block in which something was taken.
#[derive(Clone, Copy)]
struct OpenIf {
    /// What is held before it.
    held: Held,
    ways: Ways,
}

/// A walk over the tokens of bodies, with what is certainly held.
#[derive(Clone, Copy)]
struct HeldWalk {
    /// Whether the body is a task's: calls that take something are refused in a handler.
    in_task: bool,
    /// The index of the body's first token in the landmarks.
    body: usize,
    /// How many blocks are open.
    depth: usize,
    /// For each of the last 64 open blocks a bit, the lowest one for the innermost: whether an `if` or `else` has it.
    choices: u64,
    /// Whether the next block is that of an `if` or `else`.
    chooses: bool,
    held: Option<Held>,
    open_if: Option<OpenIf>,
    /// What may be held, since an `if` takes it, or gives it back, on some of its ways alone.
    kept: Option<Held>,
}

impl HeldWalk {
    /// The walk before the first token.
    fn new() -> HeldWalk {
        HeldWalk {
            in_task: false,
            body: 0,
            depth: 0,
            choices: 0,
            chooses: false,
            held: None,
            open_if: None,
            kept: None,
        }
    }

    /// The walk after the beginning of a block.
    fn in_block(self) -> HeldWalk {
        HeldWalk {
            depth: self.depth.saturating_add(1),
            choices: self.choices.wrapping_mul(2) | u64::from(self.chooses),
            chooses: false,
            ..self
        }
    }

    /// The walk after the end of a block. What was taken in the block is certain no more.
    fn after_block_end(self) -> HeldWalk {
        let depth = self.depth.saturating_sub(1);
        let held = self.held.filter(|held| held.depth <= depth);
        HeldWalk {
            depth,
            choices: self.choices / 2,
            held: held.map(|held| held.after_block(depth)),
            ..self
        }
    }

    /// The walk after a jump. Nothing reaches the rest of its block; what was taken outside the block is held after
    /// it, unless the only round in which it is held for sure may end here.
    fn after_jump(self) -> HeldWalk {
        match self.held {
            Some(held) if held.depth < self.depth && !held.is_doubtful(self.depth) => self,
            _ => HeldWalk { held: None, ..self },
        }
    }

    /// The walk after a step. A call that gives something back may give back anything, unless it is wrong.
    fn after(self, step: Step) -> HeldWalk {
        let kind = step.kind;
        match kind {
            TokenKind::Keyword(Keyword::Task | Keyword::Handler) => HeldWalk {
                in_task: matches!(BodyKind::begun_by(kind), Some(BodyKind::Task)),
                body: step.index,
                ..HeldWalk::new()
            },
            TokenKind::Symbol(Symbol::LeftBrace) => self.in_block(),
            TokenKind::Symbol(Symbol::RightBrace) => self.after_block_end(),
            TokenKind::Keyword(Keyword::If | Keyword::Else) => HeldWalk {
                chooses: true,
                ..self
            },
            TokenKind::Keyword(Keyword::While) => self.looping(step),
            _ if gives_back(kind) && !step.is_wrong => HeldWalk { held: None, ..self },
            _ if jumps(kind) => self.after_jump(),
            _ => self,
        }
    }

    /// The walk at an `if`, which is open from here on if what is held was taken in its block.
    fn at_if(self) -> HeldWalk {
        match self.held {
            Some(held) if self.open_if.is_none() && held.depth == self.depth => {
                let ways = Ways::new();
                HeldWalk {
                    open_if: Some(OpenIf { held, ways }),
                    ..self
                }
            }
            _ => self,
        }
    }

    /// The walk at an `else`; `is_last` if no `if` follows it.
    fn at_else(self, is_last: bool) -> HeldWalk {
        match self.open_if {
            Some(open) if is_last && open.held.depth == self.depth => {
                let ways = open.ways.after_last_else();
                HeldWalk {
                    open_if: Some(OpenIf { ways, ..open }),
                    ..self
                }
            }
            _ => self,
        }
    }

    /// What may be held after the end of a block, of what is or may be held in it: nothing after that of a loop.
    fn kept_after_block(self) -> Option<Held> {
        let depth = self.depth.saturating_sub(1);
        let taken = self.held.filter(|held| held.depth > depth);
        let kept = taken.or(self.kept)?;
        if kept.depth <= depth {
            return Some(kept);
        }
        (self.choices % 2 == 1 && kept.is_lost()).then_some(Held { depth, ..kept })
    }

    /// The walk at the end of a block; `goes_on` if an `else` follows it.
    fn at_block_end(self, goes_on: bool) -> HeldWalk {
        let depth = self.depth.saturating_sub(1);
        let walk = HeldWalk {
            kept: self.kept_after_block(),
            ..self
        };
        match self.open_if {
            Some(open) if open.held.depth == depth => walk.after_way(open, goes_on),
            _ => walk,
        }
    }

    /// The walk at the end of a way of this `if`, which is over unless it goes on.
    fn after_way(self, open: OpenIf, goes_on: bool) -> HeldWalk {
        let ways = open.ways.after_block();
        if goes_on {
            return HeldWalk {
                open_if: Some(OpenIf { ways, ..open }),
                ..self
            };
        }
        let left_out = ways.is_left_out().then_some(open.held);
        HeldWalk {
            open_if: None,
            kept: left_out.or(self.kept),
            ..self
        }
    }

    /// The walk at a token that gives something back, jumps, or begins a loop. Nothing more is said of what may be
    /// held.
    fn at_leaving(self, kind: TokenKind) -> HeldWalk {
        let open_if = self.open_if.map(|open| OpenIf {
            ways: open.ways.after(kind),
            ..open
        });
        HeldWalk {
            open_if,
            kept: None,
            ..self
        }
    }

    /// The walk at a token, with what the ways of an `if` say.
    fn through_ways(self, kind: TokenKind, next: Option<TokenKind>) -> HeldWalk {
        match kind {
            TokenKind::Keyword(Keyword::If) => self.at_if(),
            TokenKind::Keyword(Keyword::Else) => {
                self.at_else(!matches!(next, Some(TokenKind::Keyword(Keyword::If))))
            }
            TokenKind::Symbol(Symbol::RightBrace) => {
                self.at_block_end(matches!(next, Some(TokenKind::Keyword(Keyword::Else))))
            }
            TokenKind::Keyword(Keyword::While) => self.at_leaving(kind),
            _ if gives_back(kind) || jumps(kind) => self.at_leaving(kind),
            _ => self,
        }
    }

    /// The walk after a call at a place that takes something. Of what is held the lock tells most.
    fn taking(self, at: usize, hold: Hold) -> HeldWalk {
        let depth = self.depth;
        let is_more = match self.held {
            Some(held) => held.hold == Hold::Dispatching && hold != Hold::Dispatching,
            None => self.in_task,
        };
        if !is_more {
            return self;
        }
        HeldWalk {
            held: Some(Held::new(hold, at, depth)),
            kept: None,
            ..self
        }
    }

    /// The walk after the head of a loop.
    fn looping(self, step: Step) -> HeldWalk {
        let Some(held) = self.held else {
            return self;
        };
        let this_loop = step.gives_in_loop.then_some(self.depth);
        HeldWalk {
            held: Some(Held {
                is_looped: held.is_looped || step.is_unconditional,
                first_round: held.first_round.or(this_loop),
                ..held
            }),
            ..self
        }
    }

    /// What is wrong with a call where this is held, if anything is.
    fn call_flaw(self, held: Held, step: Step, service: Service) -> Option<Flaw> {
        match service {
            Service::UnlSpn if step.is_wrong => Some(Flaw::Wrong(service)),
            Service::UnlCpu if step.is_wrong => Some(Flaw::Barred(service)),
            Service::ExtTsk if held.is_lost() => Some(Flaw::Kept),
            _ if held.hold.bars(service, step.is_on_caller) => Some(Flaw::Barred(service)),
            _ => None,
        }
    }

    /// What is wrong with a step where this is held, if anything is.
    fn flaw_with(self, held: Held, step: Step) -> Option<Flaw> {
        match step.kind {
            TokenKind::Service(service) => self.call_flaw(held, step, service),
            TokenKind::Keyword(Keyword::Return) if held.is_lost() => Some(Flaw::Kept),
            kind if self.ends_body(kind) && held.is_lost() => Some(Flaw::Kept),
            _ => None,
        }
    }

    /// What is wrong with a step after the walk, if anything is.
    fn flaw(self, step: Step) -> Option<(Flaw, Held)> {
        match (self.held, self.kept) {
            (Some(held), _) if held.is_doubtful(self.depth) => None,
            (Some(held), _) => Some((self.flaw_with(held, step)?, held)),
            (None, Some(kept)) if self.ends_body(step.kind) && kept.is_lost() => {
                Some((Flaw::MayBeKept, kept))
            }
            _ => None,
        }
    }

    /// Whether a token after the walk ends the body.
    fn ends_body(self, kind: TokenKind) -> bool {
        self.depth == 1 && matches!(kind, TokenKind::Symbol(Symbol::RightBrace))
    }
}

/// Whether the loop that begins at a place has a number as its condition.
fn is_unconditional(tokens: &Tokens<'_>, at: usize) -> bool {
    let is_number = matches!(
        tokens.kind(at.saturating_add(2)),
        Some(TokenKind::Number(_) | TokenKind::Constant(_))
    );
    is_number
        && tokens.kind(at) == Some(TokenKind::Keyword(Keyword::While))
        && is_symbol(tokens, at.saturating_add(3), Symbol::RightParen)
}

/// Whether the first argument of the call at a place is the task that makes it.
fn is_on_caller(tokens: &Tokens<'_>, at: usize) -> bool {
    matches!(
        lone_argument(tokens, at.saturating_add(2)),
        Some(Lone::Number(0) | Lone::Constant(Constant::TskSelf))
    )
}

/// The bodies that are walked over: the tokens, those at which the walk looks, and the objects.
#[derive(Clone, Copy)]
struct Bodies<'a> {
    src: &'a Tokens<'a>,
    marks: &'a [Mark],
    objects: &'a NamedObjects,
}

impl Bodies<'_> {
    /// What the call at a place takes or gives back, if a call stands there and the text says it.
    fn guard(self, at: usize) -> Option<Guard> {
        match self.src.kind(at)? {
            TokenKind::Service(service) => guard_at(self.objects, self.src, at, service),
            _ => None,
        }
    }

    /// What the call at a place takes, if its answer is not asked for.
    fn taken(self, at: usize, kind: TokenKind) -> Option<Hold> {
        if is_symbol(self.src, at.saturating_sub(1), Symbol::Assign) {
            return None;
        }
        match kind {
            TokenKind::Service(Service::LocSpn) => self.guard(at).and(Some(Hold::SpinLock)),
            TokenKind::Service(Service::LocCpu) => Some(Hold::Cpu),
            TokenKind::Service(Service::DisDsp) => Some(Hold::Dispatching),
            _ => None,
        }
    }

    /// Whether the call at a place gives back nothing for sure after a walk: what is held is not what it gives back,
    /// and that is held in other parts of the body alone.
    fn is_wrong(self, walk: HeldWalk, at: usize, kind: TokenKind) -> bool {
        let Some(held) = walk.held else {
            return false;
        };
        let is_lock = held.hold != Hold::Dispatching;
        match kind {
            TokenKind::Service(Service::EnaDsp) => is_lock,
            TokenKind::Service(Service::UnlSpn | Service::UnlCpu) if is_lock => {
                self.is_elsewhere(walk, held, at)
            }
            _ => false,
        }
    }

    /// Whether what the call at a place gives back is held in other parts of the body alone.
    fn is_elsewhere(self, walk: HeldWalk, held: Held, at: usize) -> bool {
        let (Some(taken), Some(given)) = (self.guard(held.at), self.guard(at)) else {
            return false;
        };
        let body = self.marks.get(walk.body..).unwrap_or(&[]);
        !taken.is(given) && is_in_sections(self.objects, self.src, body, given)
    }

    /// The step of a walk to one of the tokens.
    fn step(self, walk: HeldWalk, index: usize, at: usize, kind: TokenKind) -> Step {
        let is_loop = kind == TokenKind::Keyword(Keyword::While) && walk.held.is_some();
        let after = self.marks.get(index.saturating_add(1)..).unwrap_or(&[]);
        Step {
            index,
            kind,
            next: self.src.kind(at.saturating_add(1)),
            is_wrong: self.is_wrong(walk, at, kind),
            is_on_caller: is_on_caller(self.src, at),
            is_unconditional: is_loop && is_unconditional(self.src, at),
            gives_in_loop: is_loop && gives_back_in_block(self.src, after),
        }
    }
}

/// Warns of the calls of a task text that are E_CTX since the same body has taken a spin lock, locked the CPU or
/// disabled dispatching, of an `unl_spn` there that gives nothing back, and of the places where a task ends with one of
/// the first two. That is certain, in a loop that may give it back for the first round: the call that does so stands
/// before, in the same block or one around it, and none that ends it stands between. And of the end of a body to which
/// a task may come with a lock, since an `if` takes it, or gives it back, on some of its ways alone, and nothing after
/// that gives back, jumps or loops. Of an end that a loop may keep the task from nothing is said.
pub fn warn_of_locks(
    (src, landmarks): (&Tokens<'_>, &Landmarks),
    objects: &NamedObjects,
    found: &mut FoundWarnings<'_>,
) -> Result<(), AllocError> {
    let bodies = Bodies {
        src,
        marks: &landmarks.structure,
        objects,
    };
    let mut walk = HeldWalk::new();
    for index in 0..landmarks.structure.len() {
        let at = landmarks.structure[index].at;
        if let Some(kind) = src.kind(at) {
            let step = bodies.step(walk, index, at, kind);
            if let Some((flaw, held)) = walk.flaw(step) {
                let mut sentence = Vec::new(found.alloc);
                let line = line_of(src, held.at).unwrap_or(1);
                say_held(flaw, held, line, &mut sentence)?;
                found.warn(TextFile::Source, src, at, sentence)?;
            }
            walk = walk.through_ways(kind, step.next).after(step);
            if let Some(hold) = bodies.taken(at, kind) {
                walk = walk.taking(at, hold);
            }
        }
    }
    Ok(())
}
