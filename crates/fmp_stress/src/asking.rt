//! What the program is asked to do.
use crate::form::program;
use clap::{ArgMatches, Error};
use std::alloc::Global;

/// What the seats of a board are to do.
#[derive(Clone, Copy)]
pub struct SeatPlan {
    /// How many seats there are, 1 to 64.
    pub seats: u8,
    /// How many of them follow.
    pub followers: u8,
    /// How many seats a thread has, 1 to 64.
    pub share: usize,
    /// How many turns a seat has.
    pub turns: u32,
    /// How many ticks the last seat feeds.
    pub ticks: u32,
    /// How many events the journal has room for, 1 to 2^20.
    pub capacity: u32,
    /// How many instructions a stretch may take, 1 to 2^48.
    pub bound: u64,
    /// The seed of the turns.
    pub seed: u64,
    /// Whether each seat has a processor of its own.
    pub own: bool,
}

/// What the program is asked to do: the names of its files, the plan, and whether times are printed.
#[derive(Clone, Copy)]
pub struct Asked<'a> {
    pub image: &'a str,
    pub journal: &'a str,
    pub plan: SeatPlan,
    pub timed: bool,
}

/// A word that the command line gives.
fn word_of<'a>(words: &ArgMatches<'a>, id: &str) -> &'a str {
    words.get_str(id).unwrap_or("")
}

/// A number that the command line gives.
fn number_asked(words: &ArgMatches<'_>, id: &str) -> u32 {
    words.get_one::<u32>(id).unwrap_or(1)
}

fn plan_of(words: &ArgMatches<'_>) -> SeatPlan {
    SeatPlan {
        seats: u8::try_from(number_asked(words, "seats")).unwrap_or(1),
        followers: u8::try_from(number_asked(words, "followers")).unwrap_or(0),
        share: number_asked(words, "share") as usize,
        turns: number_asked(words, "turns"),
        ticks: number_asked(words, "ticks"),
        capacity: number_asked(words, "capacity"),
        bound: words.get_one::<u64>("bound").unwrap_or(1),
        seed: words.get_one::<u64>("seed").unwrap_or(1),
        own: words.get_flag("own"),
    }
}

/// What the words of a command line ask for, of which the first is the program's name. An error is that of the words'
/// form, or `OutOfMemory`.
pub fn asked_of<'a>(alloc: Global, words: &'a [String]) -> Result<Asked<'a>, Error> {
    let words = program(alloc)?.try_get_matches_from(words)?;
    Ok(Asked {
        image: word_of(&words, "IMAGE"),
        journal: word_of(&words, "JOURNAL"),
        plan: plan_of(&words),
        timed: words.get_flag("time"),
    })
}
