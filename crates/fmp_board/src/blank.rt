//! A board that is not yet open.
ghost use Rattle.std.specs.Prelude.{◌≡◌, ◌<◌, ◌≤◌, ◌^◌, [], IfOk, MatchResult, All, vec_capacity};
ghost use Rattle.fmp_board.specs.Boards.{InRange, IsAt};
ghost use Rattle.fmp_journal.specs.Seats.{AreNew};

use crate::board::Board;
use crate::book::Book;
use crate::fault::BoardFault;
use crate::site::Site;
use fmp_base::Event;
use fmp_code::Vm;
use fmp_image_bytes::Image;
use fmp_journal::{EmptyRow, Row, Scribe, Seat};
use fmp_kernel::Kernel;
use fmp_replay::kernel_of;
use std::alloc::{AllocError, Global};
use std::marker::Model;

/// The most instructions that a stretch may take, 2^48.
const BOUND_MAX: u64 = 281_474_976_710_656;

/// The most events that a board may have room for, 2^20.
const CAPACITY_MAX: u32 = 1_048_576;

/// The most seats that a board may have.
const SEATS_MAX: u8 = 64;

/// What a board has room for.
#[derive(Clone, Copy)]
pub(crate) struct Limits {
    /// How many instructions a stretch may take, 1 to 2^48.
    pub bound: u64,
    /// How many events the journal may have, 1 to 2^20.
    pub capacity: u32,
    /// How many seats there are, 1 to 64.
    pub seats: u8,
}

/// A board that is not yet open: the kernel of its image after setup, and a row in which nothing is written.
#[derive(Drop)]
pub struct Blank<'a> {
    image: &'a Image,
    kernel: Kernel<Vm<'a>>,
    row: Row,
    scribe: Scribe,
    room: Vec<Event>,
    limits: Limits,
}

impl<'a> Model for Blank<'a> {
    ghost use Rattle.std.specs.Prelude.{◌≡◌, ◌≤◌, [], vec_capacity};
    ghost use Rattle.fmp_journal.specs.Seats.{new_scribe};
    ghost use Rattle.fmp_board.specs.Boards.{BlankState, InRange, IsReplay, IsRoom};

    ghost Value = { BlankState };

    ghost view = { λ b. record {
      image = b.image.now;
      bound = b.limits.bound;
      row = b.row;
      journal = b.scribe.journal;
    } };

    ghost invariant = { λ b. InRange b.limits.bound b.row.capacity b.row.seats
        × IsReplay b.image.now b.limits.bound b.row.capacity b.row.seats b.kernel [] × (b.scribe ≡ new_scribe b.row)
        × IsRoom b.row b.limits.capacity b.limits.seats
        × (b.room.items ≡ []) × (b.row.capacity ≤ vec_capacity b.room) };
}

impl<'a> Blank<'a> {
    ghost use Rattle.std.specs.Prelude.{◌≡◌, ◌≤◌, [], IfOk, MatchResult, All, vec_capacity};
    ghost use Rattle.fmp_board.specs.Boards.{InRange, IsAt, IsReplay, IsRoom, blank};
    ghost use Rattle.fmp_journal.specs.Seats.{AreNew, RowId, new_scribe};
    ghost use Rattle.fmp_board.specs.declared.fault.BoardFault.TheVariants.{Memory, Limit};

    /// A blank of these parts.
    fn of(
        image: &'a Image,
        kernel: Kernel<Vm<'a>>,
        row: Row,
        scribe: Scribe,
        room: Vec<Event>,
        limits: Limits,
    ) -> Blank<'a>
        requires range { InRange limits.bound row.capacity row.seats }
        requires kernel { IsReplay image.now limits.bound row.capacity row.seats kernel [] }
        requires scribe { scribe ≡ new_scribe row }
        requires limits { IsRoom row limits.capacity limits.seats }
        requires room { (room.items ≡ []) × (row.capacity ≤ vec_capacity room) }
        ensures { result ≡ blank image.now limits.bound row }
    {
        Blank {
            image,
            kernel,
            row,
            scribe,
            room,
            limits,
        }
    }

    /// All that a board takes in memory, the kernel last.
    #[tactic(auto, using(crate::proofs::Blanks::range_of, crate::proofs::Blanks::room_of))]
    fn made(
        alloc: Global,
        image: &'a Image,
        n: u64,
        k: u32,
        m: u8,
    ) -> Result<(Blank<'a>, Vec<Seat>), AllocError>
        requires { InRange n k m }
        ensures blank { IfOk result (λ made. made.0 ≡ blank image.now n made.0.row) }
        ensures row { IfOk result (λ made. (made.0.row.capacity ≡ k) × (made.0.row.seats ≡ m)) }
        ensures seats { IfOk result (λ made. AreNew made.0.row made.1.items) }
        ensures at { IfOk result (λ made. All (IsAt made.0.row) made.1.items) }
    {
        let room = Vec::with_capacity(alloc, k as usize)?;
        let EmptyRow { row, scribe, seats } = EmptyRow::new(alloc, k, m)?;
        let kernel = kernel_of(alloc, image, n)?;
        let limits = Limits {
            bound: n,
            capacity: k,
            seats: m,
        };
        Ok((Blank::of(image, kernel, row, scribe, room, limits), seats))
    }

    /// A board of an image that is not yet open, and its seats, numbered from 0: stretches of bodies take at most n
    /// instructions, 1 to 2^48; there is room for k events, 1 to 2^20; and there are m seats, 1 to 64.
    ///
    /// `BoardFault::Limit`, exactly where n, k or m is out of its range, and else `BoardFault::Memory`, where
    /// memory runs out.
    pub fn new(
        alloc: Global,
        image: &'a Image,
        n: u64,
        k: u32,
        m: u8,
    ) -> Result<(Blank<'a>, Vec<Seat>), BoardFault>
        ensures made { MatchResult result
            (λ made. InRange n k m × (made.0 ≡ blank image.now n made.0.row)
            × (made.0.row.capacity ≡ k) × (made.0.row.seats ≡ m) × AreNew made.0.row made.1.items)
            (λ f. (InRange n k m → f ≡ Memory) × ((InRange n k m → ⊥) → f ≡ Limit)) }
        ensures seats { IfOk result (λ made. All (IsAt made.0.row) made.1.items) }
    {
        let in_range = 1 <= n
            && n <= BOUND_MAX
            && 1 <= k
            && k <= CAPACITY_MAX
            && 1 <= m
            && m <= SEATS_MAX;
        if !in_range {
            return Err(BoardFault::Limit);
        }
        match Blank::made(alloc, image, n, k, m) {
            Ok(made) => Ok(made),
            Err(_) => Err(BoardFault::Memory),
        }
    }

    /// Opens the board, for the site that stands for it. Nothing is journaled on it yet.
    pub fn open<S: Site>(self) -> Board<'a, S>
        requires { self ≡ blank S.image S.bound S.row_id }
    {
        let Blank {
            image,
            kernel,
            row,
            scribe,
            room,
            limits,
        } = self;
        let book = Book::new(image, kernel, scribe, limits);
        Board::new(image, row, room, limits.bound, book)
    }
}
