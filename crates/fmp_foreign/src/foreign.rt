//! Bodies that run elsewhere, of which the kernel keeps only what they were last told.
ghost use Rattle.std.specs.Prelude.{◌≡◌};

use fmp_base::{Body, Reply, Stretch};
use std::marker::Model;

/// What a body that runs elsewhere was told last.
#[derive(Clone, Copy)]
pub enum LastTold {
    /// Its extended information, at its start.
    Starts(i32),
    /// The reply to its last call.
    Replies(Reply),
}

/// Bodies that run elsewhere. To the kernel they are all the same, and none makes a stretch of its own.
#[derive(Drop)]
pub struct Foreign;

impl Model for Foreign {
    ghost Value = { Unit {0} };

    ghost view = { λ f. tt };
}

impl Body for Foreign {
    ghost use Rattle.fmp_foreign.specs.Foreign.{foreign_meaning};

    type Ctx = LastTold;

    ghost meaning = { foreign_meaning };

    ghost has_entry = { λ f entry. Unit {0} };

    ghost is_context = { λ f entry told. Unit {0} };

    fn start(&self, entry: u8, exinf: i32) -> LastTold {
        LastTold::Starts(exinf)
    }

    fn stretch(&self, entry: u8, n: u64, c: LastTold) -> Stretch<LastTold> {
        Stretch::Over(c)
    }

    fn deliver(&self, entry: u8, c: LastTold, r: Reply) -> LastTold {
        LastTold::Replies(r)
    }

    ghost stays = { λ body entry low high c le fits. absurd (cc fits) };
}
