//! Stretches that are made outside the lock of a board.
ghost use Rattle.std.specs.Prelude.{◌≡◌};
ghost use Rattle.fmp_board.specs.Outcomes.{IsTicket, ending_of};

use fmp_base::{Body, Stretch, StretchStop};
use fmp_code::stretch_of;
use fmp_image_bytes::Image;
use fmp_instructions::MachineContext;
use fmp_kernel::Actor;
use std::marker::Model;
use std::snapshot::Snapshot;

/// The actor of a processor as a board has it, with all that its next stretch needs.
#[derive(Drop)]
pub struct Ticket<'a> {
    image: &'a Image,
    bound: u64,
    processor: u8,
    actor: Actor<MachineContext>,
}

impl<'a> Model for Ticket<'a> {
    ghost use Rattle.fmp_board.specs.Outcomes.{TicketState, IsTicket};

    ghost Value = { TicketState };

    ghost view = { λ t. record { image = t.image.now; bound = t.bound; processor = t.processor; actor = t.actor } };

    ghost invariant = { λ t. IsTicket
        (record { image = t.image.now; bound = t.bound; processor = t.processor; actor = t.actor }) };
}

impl<'a> Ticket<'a> {
    ghost use Rattle.std.specs.Prelude.{◌≡◌};
    ghost use Rattle.fmp_board.specs.Outcomes.{IsTicket, ending_of};

    pub(crate) fn new(
        image: &'a Image,
        bound: u64,
        processor: u8,
        actor: Actor<MachineContext>,
    ) -> Ticket<'a>
        requires { IsTicket (record { image = image.now; bound = bound; processor = processor; actor = actor }) }
        ensures { result ≡ record { image = image.now; bound = bound; processor = processor; actor = actor } }
    {
        Ticket {
            image,
            bound,
            processor,
            actor,
        }
    }

    /// The stretch of the actor up to its next service call, its end or its fault. It needs no board, so other
    /// stretches may be made meanwhile.
    pub fn stretch(self) -> Outcome
        ensures ticket { result.ticket ≡ self.entry }
        ensures ending { result.ending ≡ ending_of self.entry }
    {
        let Ticket {
            image,
            bound,
            processor,
            actor,
        } = self;
        let mut workspace = Workspace::new(image);
        workspace.draw(image, bound, processor, &actor);
        workspace.stretch(image);
        Outcome { workspace }
    }
}

/// Where a thread makes its stretches, one after the other: a ticket is drawn into it, and its stretch is then made in
/// place. It is seen as the ticket of its stretch and how that ended.
#[derive(Drop)]
pub struct Workspace {
    image: Snapshot<Image>,
    bound: u64,
    processor: u8,
    first: Snapshot<MachineContext>,
    actor: Actor<MachineContext>,
    stop: StretchStop,
}

impl Model for Workspace {
    ghost use Rattle.fmp_base.specs.Contexts.{stopped};
    ghost use Rattle.fmp_board.specs.Outcomes.{OutcomeState};

    ghost Value = { OutcomeState };

    ghost view = { λ w. record {
      ticket = record {
        image = w.image.value;
        bound = w.bound;
        processor = w.processor;
        actor = record { entry = w.actor.entry; context = w.first.value; stamp = w.actor.stamp };
      };
      ending = stopped w.stop w.actor.context;
    } };
}

impl Workspace {
    ghost use Rattle.std.specs.Prelude.{◌≡◌};
    ghost use Rattle.fmp_base.specs.Stretches.{ending};
    ghost use Rattle.fmp_board.specs.Outcomes.{IsOutcome, IsTicket, waiting};

    /// A workspace for stretches of an image, with a ticket of no processor: there is no processor 0.
    pub fn new(image: &Image) -> Workspace
        ensures image { result.ticket.image ≡ image.now }
        ensures processor { result.ticket.processor ≡ 0 }
    {
        let context = MachineContext {
            pc: 0,
            count: 0,
            locals: [0; 64],
            operands: [0; 64],
        };
        Workspace {
            image: Snapshot::of(image),
            bound: 0,
            processor: 0,
            first: Snapshot::of(&context),
            actor: Actor {
                entry: 0,
                context,
                stamp: 0,
            },
            stop: StretchStop::End,
        }
    }

    /// It has this ticket, whose stretch is not made yet.
    pub(crate) fn draw(
        &mut self,
        image: &Image,
        bound: u64,
        processor: u8,
        actor: &Actor<MachineContext>,
    )
        ensures { self.new ≡ waiting
            (record { image = image.now; bound = bound; processor = processor; actor = actor.now }) }
    {
        self.image = Snapshot::of(image);
        self.bound = bound;
        self.processor = processor;
        self.first = Snapshot::of(&actor.context);
        self.actor = *actor;
        self.stop = StretchStop::Over;
    }

    /// The stretch of its ticket is made. It needs no board.
    #[tactic(auto, using(crate::proofs::Drawing::waits_at))]
    pub(crate) fn stretch(&mut self, image: &Image)
        requires image { self.old.ticket.image ≡ image.now }
        requires ticket { IsTicket self.old.ticket }
        requires waits { self.old ≡ waiting self.old.ticket }
        ensures ticket { self.new.ticket ≡ self.old.ticket }
        ensures outcome { IsOutcome self.new }
    {
        self.stop = image
            .vm()
            .stretch_in_place(self.actor.entry, self.bound, &mut self.actor.context);
    }

    /// The processor whose actor made the stretch.
    pub fn processor(&self) -> u8
        ensures { result ≡ self.now.ticket.processor }
    {
        self.processor
    }

    /// The stamp of that processor when the ticket was drawn.
    pub(crate) fn stamp(&self) -> u32
        ensures { result ≡ self.now.ticket.actor.stamp }
    {
        self.actor.stamp
    }

    /// How the stretch ended.
    pub(crate) fn ended(&self) -> Stretch<MachineContext>
        ensures { ending result ≡ self.now.ending }
    {
        stretch_of(self.stop, self.actor.context)
    }
}

/// How the stretch of a ticket's actor ended. Its type keeps that it is the stretch of just that actor's context, by
/// the code of the image, of at most n instructions.
#[derive(Drop)]
pub struct Outcome {
    workspace: Workspace,
}

impl Model for Outcome {
    ghost use Rattle.fmp_board.specs.Outcomes.{OutcomeState, IsOutcome};

    ghost Value = { OutcomeState };

    ghost view = { λ o. o.workspace };

    ghost invariant = { λ o. IsOutcome o.workspace };
}

impl Outcome {
    ghost use Rattle.std.specs.Prelude.{◌≡◌};
    ghost use Rattle.fmp_board.specs.Outcomes.{IsOutcome};

    /// The processor whose actor made the stretch.
    pub fn processor(&self) -> u8
        ensures { result ≡ self.now.ticket.processor }
    {
        self.workspace.processor()
    }

    /// The workspace in which the stretch was made.
    pub fn workspace(&self) -> &Workspace
        ensures same { result.now ≡ self.now }
        ensures outcome { IsOutcome self.now }
    {
        &self.workspace
    }
}
