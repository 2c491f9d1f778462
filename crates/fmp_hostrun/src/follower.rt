//! A follower of a board.
ghost use Rattle.std.specs.Prelude.{◌≡◌, ◌+◌, ◌++◌, ◌<◌, ◌≤◌, [], ◌^◌, length, IfOk, OnOk, OnErr, vec_capacity};
ghost use Rattle.std.specs.Prelude.{vec_len};
ghost use Rattle.fmp_base.specs.Steps.{step};
ghost use Rattle.fmp_base.specs.Systems.{tables_of};
ghost use Rattle.fmp_instructions.specs.Machine.{code_meaning};
ghost use Rattle.fmp_hostrun.specs.Followers.{Continues, FollowedTextIsFront, Follows, IsFollowing, followed_text};
ghost use Rattle.fmp_hostrun.specs.Followers.{reaction_text};
ghost use Rattle.fmp_replay.specs.Replays.{kernel_after};
ghost use Rattle.fmp_kernel.specs.KernelViews.{view_after};
ghost use Rattle.fmp_journal.specs.Seats.{given};

use crate::printing::{EVENT_ROOM, print_reserved};
use fmp_base::{Effect, Event, System};
use fmp_board::{Board, Seat, Site};
use fmp_code::Vm;
use fmp_kernel::Kernel;
use fmp_replay::kernel_of;
use fmp_trace::print;
use std::alloc::{AllocError, Global};
use std::marker::Model;

/// Reads the journal of a board from a seat, and prints it: it waits for nobody. The events that the seat is given run
/// on a kernel of the follower's own, and their lines are printed as a simulation of them prints them. It is seen by
/// the seat that it reads from.
#[derive(Drop)]
pub struct Follower<'a, 'b, S: Site> {
    board: &'b Board<'a, S>,
    seat: &'b mut Seat,
    kernel: Kernel<Vm<'a>>,
}

impl<'a, 'b, S: Site> Model for Follower<'a, 'b, S> {
    ghost use Rattle.fmp_hostrun.specs.Followers.{FollowerState, IsFollowing};

    ghost Value = { FollowerState };

    ghost view = { λ f. record { seat = f.seat } };

    ghost invariant = { λ f. IsFollowing S.image S.bound S.row_id f.seat.now f.kernel };
}

/// The kernel of a board's image after setup, of which the lines are appended.
fn begun<'a, S: Site>(
    alloc: Global,
    board: &Board<'a, S>,
    out: &mut Vec<u8>,
) -> Result<Kernel<Vm<'a>>, AllocError>
    ensures kernel { IfOk result (λ kernel. kernel ≡ kernel_after S.image S.bound []) }
    ensures text { OnOk result (out.new.items ≡ out.old.items ++ followed_text S.image S.bound []) }
    ensures err { OnErr result (out.new.items ≡ out.old.items) }
{
    let image = board.image();
    let kernel = kernel_of(alloc, image, board.bound())?;
    match print(image.system(), 0, kernel.lines(), out) {
        Ok(()) => Ok(kernel),
        Err(_) => {
            drop(kernel);
            Err(AllocError)
        }
    }
}

/// Takes an event on a kernel, and appends the text of its lines to a text that has room for them.
fn take<'a>(sys: &System, kernel: &mut Kernel<Vm<'a>>, event: Event, out: &mut Vec<u8>)
    requires system { kernel.old.system ≡ tables_of sys.now }
    requires early { kernel.old.taken < 2 ^ 20 }
    requires room { vec_len out.old + EVENT_ROOM ≤ vec_capacity out.old }
    ensures kernel { kernel.new
        ≡ view_after kernel.old
        (step kernel.old.system (code_meaning kernel.old.body) kernel.old.bound kernel.old.world event) }
    ensures text { out.new.items
        ≡ out.old.items ++ reaction_text kernel.old.system (kernel.old.done + 1)
        (step kernel.old.system (code_meaning kernel.old.body) kernel.old.bound kernel.old.world event) }
{
    match kernel.step(event) {
        Effect::Nothing => {}
        Effect::Kept => {}
        Effect::Done => {
            kernel.lines_are_few();
            print_reserved(sys, kernel.done(), kernel.lines(), out);
        }
    }
}

/// Reserves room, follows one event from a seat, and takes it on the kernel.
fn advance<'a, S: Site>(
    board: &Board<'a, S>,
    seat: &mut Seat,
    kernel: &mut Kernel<Vm<'a>>,
    out: &mut Vec<u8>,
) -> Result<Option<Event>, AllocError>
    requires { IsFollowing S.image S.bound S.row_id seat.old kernel.old }
    ensures following { IsFollowing S.image S.bound S.row_id seat.new kernel.new }
    ensures follows { IfOk result (Follows S.row_id.capacity seat.old seat.new) }
    ensures text { OnOk result
        (Continues S.image S.bound (given seat.old) (given seat.new) out.old.items out.new.items) }
    ensures err { OnErr result ((seat.new ≡ seat.old) × (out.new.items ≡ out.old.items)) }
{
    out.reserve(EVENT_ROOM)?;
    match board.follow(seat) {
        Some(event) => {
            take(board.image().system(), kernel, event, out);
            Ok(Some(event))
        }
        None => Ok(None),
    }
}

/// What a follower has before it has a seat: its board, and its kernel after setup, of which the lines were printed.
#[derive(Drop)]
pub struct FollowerStart<'a, 'b, S: Site> {
    board: &'b Board<'a, S>,
    kernel: Kernel<Vm<'a>>,
    ghost begun: { kernel ≡ kernel_after S.image S.bound [] },
    ghost most: { S.row_id.capacity ≤ 2 ^ 20 },
}

impl<'a, 'b, S: Site> FollowerStart<'a, 'b, S> {
    ghost use Rattle.std.specs.Prelude.{◌≡◌, ◌++◌, [], OnOk, OnErr};
    ghost use Rattle.fmp_board.specs.Boards.{IsAt};
    ghost use Rattle.fmp_hostrun.specs.Followers.{followed_text};

    /// The start of a follower of a board. The lines of setup are appended.
    ///
    /// `AllocError` where memory runs out; then nothing has been appended.
    pub fn new(
        alloc: Global,
        board: &'b Board<'a, S>,
        out: &mut Vec<u8>,
    ) -> Result<FollowerStart<'a, 'b, S>, AllocError>
        ensures text { OnOk result (out.new.items ≡ out.old.items ++ followed_text S.image S.bound []) }
        ensures err { OnErr result (out.new.items ≡ out.old.items) }
    {
        let _most = board.capacity();
        match begun(alloc, board, out) {
            Ok(kernel) => Ok(FollowerStart { board, kernel }),
            Err(_) => Err(AllocError),
        }
    }

    /// The follower, from a seat of the board that was given no event yet. It cannot fail.
    pub fn follow(self, seat: &'b mut Seat) -> Follower<'a, 'b, S>
        requires at { IsAt S.row_id seat.old }
        requires place { seat.old.place ≡ 0 }
        ensures same_reference { result.seat.ghost_name ≡ seat.entry.ghost_name }
        ensures seat { result.seat.now ≡ seat.old }
    {
        let FollowerStart { board, kernel } = self;
        Follower {
            board,
            seat,
            kernel,
        }
    }
}

impl<'a, 'b, S: Site> Follower<'a, 'b, S> {
    ghost use Rattle.std.specs.Prelude.{◌≡◌, ◌++◌, [], IfOk, OnOk, OnErr};
    ghost use Rattle.fmp_journal.specs.Seats.{given};
    ghost use Rattle.fmp_board.specs.Boards.{IsAt};
    ghost use Rattle.fmp_hostrun.specs.Followers.{Continues, Follows, events_of, followed_text, kernel_over};

    /// A follower of a board from a seat of it that was given no event yet: a `FollowerStart`, which then takes the
    /// seat. The lines of setup are appended.
    ///
    /// `AllocError` where memory runs out; then nothing has been appended. No clause says then that the seat is as it
    /// was: a caller that needs it again makes the `FollowerStart`, which borrows no seat.
    pub fn new(
        alloc: Global,
        board: &'b Board<'a, S>,
        seat: &'b mut Seat,
        out: &mut Vec<u8>,
    ) -> Result<Follower<'a, 'b, S>, AllocError>
        requires at { IsAt S.row_id seat.old }
        requires place { seat.old.place ≡ 0 }
        ensures same_reference { IfOk result (λ f. f.seat.ghost_name ≡ seat.entry.ghost_name) }
        ensures seat { IfOk result (λ f. f.seat.now ≡ seat.old) }
        ensures text { OnOk result (out.new.items ≡ out.old.items ++ followed_text S.image S.bound []) }
        ensures err { OnErr result (out.new.items ≡ out.old.items) }
    {
        match FollowerStart::new(alloc, board, out) {
            Ok(start) => Ok(start.follow(seat)),
            Err(_) => Err(AllocError),
        }
    }

    /// The kernel: it took all events that the follower was given, one after the other, and no other.
    pub fn kernel(&self) -> &Kernel<Vm<'a>>
        ensures { result.now ≡ kernel_over S.image S.bound (events_of self.now) }
    {
        &self.kernel
    }

    /// Follows one event and appends the text of its lines. None, and nothing is appended, where as many events were
    /// given as the row has words, or where the next word was found empty. First 66,432 bytes are reserved, room for
    /// the lines of any event.
    ///
    /// `AllocError` where that room is refused; then nothing has changed, and no event was taken.
    pub fn pull(&mut self, out: &mut Vec<u8>) -> Result<Option<Event>, AllocError>
        ensures same_reference { self.new.seat.ghost_name ≡ self.old.seat.ghost_name }
        ensures at { IsAt S.row_id self.new.seat.now }
        ensures follows { IfOk result (Follows S.row_id.capacity self.old.seat.now self.new.seat.now) }
        ensures text { OnOk result
            (Continues S.image S.bound (events_of self.old) (events_of self.new) out.old.items out.new.items) }
        ensures err { OnErr result ((self.new ≡ self.old) × (out.new.items ≡ out.old.items)) }
    {
        advance(self.board, self.seat, &mut self.kernel, out)
    }

    /// Ends the following, and gives the seat back as the last event left it.
    pub fn end(self) -> &'b mut Seat
        ensures same_reference { result.ghost_name ≡ self.entry.seat.ghost_name }
        ensures seat { result.now ≡ self.entry.seat.now }
    {
        let Follower {
            board: _,
            seat,
            kernel,
        } = self;
        drop(kernel);
        seat
    }
}

/// What a system prints over events is what a follower of them prints, and then the states at the end.
pub fn followed_text_is_front()
    ensures { FollowedTextIsFront }
{}
