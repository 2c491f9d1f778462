//! A run of the program, from the words of its command line to its status.
use crate::asking::{Asked, asked_of};
use crate::exit::StressExit;
use crate::hosting::{HostedBoard, host};
use crate::seat_calls::SeatRecord;
use fmp_base::Event;
use fmp_files::{Failure, Outside, end, print, read_file, refuse, write_file};
use fmp_image_bytes::{Image, load};
use fmp_trace::print_steps;
use std::alloc::{AllocError, Global};
use std::fmt;
use std::sync::Wait;
use std::thread::Threads;
use std::time::Clock;

/// The image of a file.
fn read_image<O: Outside>(alloc: Global, outside: &O, name: &str) -> Result<Image, StressExit> {
    match load(alloc, &read_file(alloc, outside, name, None)?) {
        Ok(image) => Ok(image),
        Err(fault) => Err(StressExit::Load(fault)),
    }
}

/// Writes events to a file as a steps text.
fn write_steps<O: Outside>(
    alloc: Global,
    outside: &mut O,
    name: &str,
    events: &[Event],
) -> Result<(), Failure> {
    let mut text = Vec::new(alloc);
    if print_steps(events, &mut text).is_err() {
        return Err(Failure::Memory(AllocError));
    }
    write_file(alloc, outside, name, &text)
}

/// The name of a file of the follower of this number.
fn name_of(alloc: Global, journal: &str, number: usize, ending: &str) -> Result<String, Failure> {
    match format!(in alloc; "{journal}.{number}{ending}") {
        Ok(name) => Ok(name),
        Err(_) => Err(Failure::Memory(AllocError)),
    }
}

/// Writes what a follower read, and what it printed.
fn write_follower<O: Outside>(
    alloc: Global,
    outside: &mut O,
    journal: &str,
    number: usize,
    team: &[SeatRecord],
) -> Result<(), Failure> {
    let [record, ..] = team else {
        return Err(Failure::Memory(AllocError));
    };
    let name = name_of(alloc, journal, number, "")?;
    write_steps(alloc, outside, name.as_str(), &record.followed)?;
    let name = name_of(alloc, journal, number, ".trace")?;
    write_file(alloc, outside, name.as_str(), &record.printed)
}

/// Writes what each follower read and printed: they are the first teams.
fn write_followed<O: Outside>(
    alloc: Global,
    outside: &mut O,
    journal: &str,
    teams: &[Vec<SeatRecord>],
    followers: u8,
) -> Result<(), Failure> {
    for (place, team) in teams.iter().enumerate() {
        if place >= usize::from(followers) {
            break;
        }
        write_follower(alloc, outside, journal, place + 1, team)?;
    }
    Ok(())
}

/// What is printed of a board: a line for each count and, if asked for, how long it took.
#[derive(Clone, Copy)]
struct BoardSummary<'a> {
    hosted: &'a HostedBoard,
    timed: bool,
}

impl BoardSummary<'_> {
    /// Each count, by its name.
    fn counts(&self) -> [(&'static str, usize); 10] {
        let answers = self.hosted.answers;
        [
            ("seats", self.hosted.seats as usize),
            ("events", self.hosted.journal.len()),
            ("journaled", answers.journaled as usize),
            ("nothing", answers.nothing as usize),
            ("idle", answers.idle as usize),
            ("stale", answers.stale as usize),
            ("full", answers.full as usize),
            ("missed", answers.missed as usize),
            ("lost", answers.lost as usize),
            ("differing", self.hosted.differing as usize),
        ]
    }
}

impl fmt::Display for BoardSummary<'_> {
    fn fmt<W: fmt::Write>(&self, f: &mut fmt::Formatter<W>) -> fmt::Result {
        for (name, count) in &self.counts() {
            write!(f, "{name} {count}\n")?;
        }
        let times = self.hosted.times;
        if self.timed {
            write!(f, "calls {} us\n", times.calls)?;
            write!(f, "reads {} in {} us\n", times.read, times.reads)?;
        }
        Ok(())
    }
}

/// Writes what came of a board: what is to be printed.
fn write_all<O: Outside>(
    alloc: Global,
    outside: &mut O,
    asked: Asked<'_>,
    hosted: &HostedBoard,
) -> Result<String, Failure> {
    let journal = asked.journal;
    write_steps(alloc, outside, journal, &hosted.journal)?;
    write_followed(alloc, outside, journal, &hosted.teams, asked.plan.followers)?;
    let summary = BoardSummary {
        hosted,
        timed: asked.timed,
    };
    match summary.to_string(alloc) {
        Ok(text) => Ok(text),
        Err(_) => Err(Failure::Memory(AllocError)),
    }
}

/// Hosts an image and writes what came of it: what is to be printed.
fn host_image<O: Outside, R: Threads + Wait + Clock + Sync>(
    rt: &R,
    alloc: Global,
    outside: &mut O,
    image: &Image,
    asked: Asked<'_>,
) -> Result<String, StressExit> {
    let hosted = host(rt, alloc, image, &asked.plan)?;
    Ok(write_all(alloc, outside, asked, &hosted)?)
}

/// Does what was asked for: what is to be printed.
fn carry_out<O: Outside, R: Threads + Wait + Clock + Sync>(
    rt: &R,
    alloc: Global,
    outside: &mut O,
    asked: Asked<'_>,
) -> Result<String, StressExit> {
    let image = read_image(alloc, outside, asked.image)?;
    host_image(rt, alloc, outside, &image, asked)
}

/// Does what was asked for, and gives the status.
fn perform<O: Outside, R: Threads + Wait + Clock + Sync>(
    rt: &R,
    alloc: Global,
    outside: &mut O,
    asked: Asked<'_>,
) -> u8 {
    match carry_out(rt, alloc, outside, asked) {
        Ok(text) => print(alloc, outside, text.as_bytes()),
        Err(exit) => end(outside, &exit),
    }
}

/// Does what the words of a command line ask for, of which the first is the program's name, and gives the status.
pub fn run<O: Outside, R: Threads + Wait + Clock + Sync>(
    rt: &R,
    alloc: Global,
    outside: &mut O,
    words: &[String],
) -> u8 {
    match asked_of(alloc, words) {
        Ok(asked) => perform(rt, alloc, outside, asked),
        Err(error) => refuse(alloc, outside, &error),
    }
}
