//! Tickets of a book, and the outcomes of their stretches.
ghost use Rattle.std.specs.Prelude.{◌≡◌, ◌≢◌, ◌<◌, length, Some, None, IfOk, OnOk, OnErr, MatchBool, MatchOption};
ghost use Rattle.std.specs.Prelude.{MatchResult};
ghost use Rattle.fmp_base.specs.declared.events.Event.TheVariants.{Run};
ghost use Rattle.fmp_journal.specs.Seats.{events};
ghost use Rattle.fmp_journal.specs.Words.{entry};
ghost use Rattle.fmp_board.specs.Boards.{IsJournal};
ghost use Rattle.fmp_board.specs.Outcomes.{AnsweredAfter, Drew, IsDrawn, IsOutcome, IsTicket, IsTicketOf, IsWhyRefused};
ghost use Rattle.fmp_board.specs.Outcomes.{actor_after, stamp_after, waiting};
ghost use Rattle.fmp_journal.specs.Receipts.{journal_after, marks_after, receipt_of};
ghost use Rattle.fmp_replay.specs.Replays.{reaction};

use crate::book::Book;
use crate::fault::BoardFault;
use crate::outcome::{Outcome, Ticket, Workspace};
use crate::site::Site;
use fmp_base::{Effect, Event};
use fmp_journal::{Receipt, is_current};

impl<'a, S: Site> Book<'a, S> {
    /// A ticket for the stretch that the actor of processor p makes next. None exactly if there is no such processor,
    /// or it has no actor.
    #[tactic(auto, using(crate::proofs::Drawing::no_actor_there, crate::proofs::Drawing::past_last))]
    pub fn ticket(&self, p: u8) -> Option<Ticket<'a>>
        ensures ticket { Drew S.image S.bound self.now.journal p result }
        ensures legal { IsJournal S.image S.bound S.row_id.capacity S.row_id.seats self.now.journal }
    {
        if p as usize > self.kernel.tables().processor_count() {
            return None;
        }
        let actor = self.kernel.actor(p)?;
        Some(Ticket::new(self.image, self.limits.bound, p, actor))
    }

    /// The same ticket in a workspace, if there is one. Else the workspace is as it was.
    #[tactic(auto, using(crate::proofs::Drawing::no_actor_there, crate::proofs::Drawing::past_last))]
    pub(crate) fn draw(&self, p: u8, workspace: &mut Workspace) -> bool
        ensures drew { MatchBool result
            (Drew S.image S.bound self.now.journal p (Some workspace.new.ticket)
            × (workspace.new ≡ waiting workspace.new.ticket) × IsTicket workspace.new.ticket)
            (Drew S.image S.bound self.now.journal p None × (workspace.new ≡ workspace.old)) }
        ensures legal { IsJournal S.image S.bound S.row_id.capacity S.row_id.seats self.now.journal }
    {
        if p as usize > self.kernel.tables().processor_count() {
            return false;
        }
        match &self.kernel.actor(p) {
            Some(actor) => {
                workspace.draw(self.image, self.limits.bound, p, actor);
                true
            }
            None => false,
        }
    }

    /// Whether the processor of an outcome has the stamp that its ticket had.
    fn has_stamp(&self, outcome: &Workspace) -> bool
        requires { IsDrawn S.image S.bound self.now.journal outcome.now.ticket }
        ensures { MatchBool result
            (actor_after S.image S.bound self.now.journal outcome.now.ticket.processor ≡ Some outcome.now.ticket.actor)
            (stamp_after S.image S.bound self.now.journal outcome.now.ticket.processor
            ≢ outcome.now.ticket.actor.stamp) }
    {
        is_current(self.kernel.stamp(outcome.processor()), outcome.stamp())
    }

    /// Takes the run of an outcome's processor on the kernel, by the stretch that was made before, and journals it
    /// under the number of a seat if it is taken. The outcome's ticket was drawn after a beginning of the
    /// journal.
    ///
    /// `BoardFault::Stale`, exactly if the stamp of the processor is no longer that of the ticket; else
    /// `BoardFault::Full`, exactly if the journal has no room for one more event. Then nothing has changed.
    pub fn enter_outcome(&mut self, seat: u8, outcome: Outcome) -> Result<Receipt, BoardFault>
        requires seat { seat < S.row_id.seats }
        requires drawn { IsDrawn S.image S.bound self.old.journal outcome.ticket }
        ensures answer { AnsweredAfter S.image S.bound S.row_id.capacity self.old.journal outcome.ticket result }
        ensures journal { OnOk result (self.new.journal
            ≡ journal_after self.old.journal (entry seat (Run outcome.ticket.processor))
            (reaction S.image S.bound (events self.old.journal) (Run outcome.ticket.processor))) }
        ensures marks { OnOk result (self.new.marks
            ≡ marks_after self.old.marks seat
            (reaction S.image S.bound (events self.old.journal) (Run outcome.ticket.processor))) }
        ensures same { OnErr result (self.new ≡ self.old) }
        ensures legal { IsJournal S.image S.bound S.row_id.capacity S.row_id.seats self.old.journal }
    {
        self.enter_stretch(seat, outcome.workspace())
    }

    /// As `enter_outcome`, by the stretch that a workspace has.
    pub(crate) fn enter_stretch(
        &mut self,
        seat: u8,
        outcome: &Workspace,
    ) -> Result<Receipt, BoardFault>
        requires seat { seat < S.row_id.seats }
        requires drawn { IsDrawn S.image S.bound self.old.journal outcome.now.ticket }
        requires outcome { IsOutcome outcome.now }
        ensures answer { AnsweredAfter S.image S.bound S.row_id.capacity self.old.journal outcome.now.ticket result }
        ensures journal { OnOk result (self.new.journal
            ≡ journal_after self.old.journal (entry seat (Run outcome.now.ticket.processor))
            (reaction S.image S.bound (events self.old.journal) (Run outcome.now.ticket.processor))) }
        ensures marks { OnOk result (self.new.marks
            ≡ marks_after self.old.marks seat
            (reaction S.image S.bound (events self.old.journal) (Run outcome.now.ticket.processor))) }
        ensures same { OnErr result (self.new ≡ self.old) }
        ensures legal { IsJournal S.image S.bound S.row_id.capacity S.row_id.seats self.old.journal }
    {
        if !self.has_stamp(outcome) {
            return Err(BoardFault::Stale);
        }
        if self.scribe.is_full() {
            return Err(BoardFault::Full);
        }
        let event = Event::Run(outcome.processor());
        match self.kernel.apply(outcome.processor(), outcome.ended()) {
            Effect::Nothing => Ok(Receipt::nothing()),
            Effect::Done => {
                self.scribe.write(seat, event);
                Ok(Receipt::done(self.scribe.len(), self.kernel.lines()))
            }
            Effect::Kept => {
                self.scribe.write(seat, event);
                Ok(Receipt::kept(self.scribe.len()))
            }
        }
    }
}
