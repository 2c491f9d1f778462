//! The source of all parts of a picture, and where a text can stand.
ghost use Rattle.std.specs.Prelude.{◌≡◌, ◌<◌, ◌≤◌, ◌≤ℤ◌, ◌-ℤ◌, All, IfOk, IfSome, length, nat_lt, option_map, pos};
ghost use Rattle.std.specs.Prelude.{slice_get, true};
ghost use Rattle.fmp_drawing.specs.Lanes.{actor_of};
ghost use Rattle.fmp_drawing.specs.Places as places;
ghost use Rattle.fmp_drawing.specs.Scenes as spec;
ghost use Rattle.fmp_timeline.specs.Events as events;
ghost use Rattle.fmp_timeline.specs.Lengths.{tenths};

use crate::strips::Lane;
use fmp_base::System;
use fmp_timeline::{BarLook, Deeds, PanelSpan, PicturePage, Run, Tenths, all_looks, width};
use std::alloc::{AllocError, Global};

/// The source of a picture.
#[derive(Drop)]
pub struct Scene<'a> {
    pub alloc: Global,
    pub sys: &'a System,
    pub run: &'a Run,
    pub page: PicturePage,
    /// When setup and the events came, in microseconds; empty if that is not known.
    pub times: &'a [u64],
    /// The looks of the tasks.
    pub looks: Vec<BarLook>,
}

impl<'a> Scene<'a> {
    /// The scene of a run. `AllocError` if memory runs out.
    pub fn new(
        alloc: Global,
        sys: &'a System,
        run: &'a Run,
        page: PicturePage,
        times: &'a [u64],
    ) -> Result<Scene<'a>, AllocError>
        ensures sys { IfOk result (λ scene. scene.sys.now ≡ sys.now) }
        ensures run { IfOk result (λ scene. scene.run.now ≡ run.now) }
        ensures page { IfOk result (λ scene. scene.page ≡ page) }
        ensures times { IfOk result (λ scene. scene.times.now ≡ times.now) }
    {
        Ok(Scene {
            alloc,
            sys,
            run,
            page,
            times,
            looks: all_looks(alloc, sys)?,
        })
    }

    /// Whether there is an overview over the run: if there are three panels or more, or a part of the run is drawn.
    pub fn has_overview(&self) -> bool
        ensures { result ≡ spec.has_overview self.now.page self.now.run.now }
    {
        self.page.panels > 2 || self.page.first > 0 || self.page.last < self.last_event()
    }

    /// The last event of the run.
    pub fn last_event(&self) -> u32
        ensures { result ≡ events.last_event self.now.run.now }
    {
        self.run.next_event().saturating_sub(1)
    }

    /// Whether it is known when the events came.
    pub fn has_times(&self) -> bool
        ensures { result ≡ nat_lt 0 (length self.now.times.now) }
    {
        !self.times.is_empty()
    }

    /// When an event came, in microseconds, if that is known.
    pub fn time_of(&self, event: u32) -> Option<u64>
        ensures { result ≡ slice_get self.now.times.now event }
    {
        self.times.get(event as usize).copied()
    }

    /// The look of a task.
    pub fn look(&self, task: u8) -> BarLook
        ensures { result ≡ spec.look_at self.now.looks.items task }
    {
        let first = BarLook {
            colour: 0,
            hatch: 0,
        };
        self.looks.get(usize::from(task)).copied().unwrap_or(first)
    }

    /// Whether colours and hatches alone do not tell tasks apart at a glance, so that their numbers stand beside them.
    pub fn is_numbered(&self) -> bool
        ensures { result ≡ nat_lt 8 (length self.now.looks.items) }
    {
        self.looks.len() > 8
    }

    /// What the owner of this lane did, and what was done to it.
    pub fn deeds_in(&self, lane: Lane) -> Option<&'a Deeds>
        ensures { option_map (λ deeds. deeds.now) result
            ≡ spec.deeds_of self.now.run.now (actor_of lane) }
    {
        self.run.deeds_of(lane.actor()?)
    }
}

/// Pixels of a lane that a mark takes.
#[derive(Clone, Copy)]
pub struct TakenPixels {
    pub from: Tenths,
    pub to: Tenths,
}

impl TakenPixels {
    /// Whether the mark stands between two places of a lane, or reaches between them.
    fn stands_between(&self, left: Tenths, right: Tenths) -> bool
        ensures { result ≡ places.stands_between left right self.now }
    {
        left.is_below(self.to) && self.from.is_below(right)
    }

    /// Where the mark begins, if it stands between two places and begins before this one, or else this one.
    fn earlier(&self, left: Tenths, right: Tenths, most: Tenths) -> Tenths
        ensures { result ≡ places.earlier left right self.now most }
    {
        if self.stands_between(left, right) {
            return most.or_less(self.from);
        }
        most
    }

    /// Where the mark ends, if it stands between two places and ends after this one, or else this one.
    fn later(&self, left: Tenths, right: Tenths, least: Tenths) -> Tenths
        ensures { result ≡ places.later_end left right self.now least }
    {
        if self.stands_between(left, right) {
            return least.or_more(self.to);
        }
        least
    }
}

fn earliest(taken: &[TakenPixels], left: Tenths, right: Tenths, most: Tenths) -> Tenths
    ensures { result ≡ places.earliest left right taken.now most }
{
    let mut first = most;
    for t in taken {
        first = t.earlier(left, right, first);
    }
    first
}

fn latest(taken: &[TakenPixels], left: Tenths, right: Tenths, least: Tenths) -> Tenths
    ensures { result ≡ places.latest left right taken.now least }
{
    let mut last = least;
    for t in taken {
        last = t.later(left, right, last);
    }
    last
}

/// Where the first of the marks begins that stand between two places, or this place before it.
fn first_between(taken: &[TakenPixels], left: Tenths, right: Tenths, most: Tenths) -> Tenths
    ensures most { result.0 ≤ℤ most.0 }
    ensures first { All (λ t. places.stands_between left right t ≡ true → result.0 ≤ℤ t.from.0) taken.now }
{
    earliest(taken, left, right, most)
}

/// Where the last of the marks ends that stand between two places, or this place after it.
fn last_between(taken: &[TakenPixels], left: Tenths, right: Tenths, least: Tenths) -> Tenths
    ensures least { least.0 ≤ℤ result.0 }
    ensures last { All (λ t. places.stands_between left right t ≡ true → t.to.0 ≤ℤ result.0) taken.now }
{
    latest(taken, left, right, least)
}

/// The first place from this one on that no mark covers.
fn after_marks(taken: &[TakenPixels], from: Tenths) -> Tenths {
    let mut x = from;
    for t in taken {
        if !x.is_below(t.from) && x.is_below(t.to + Tenths(10)) {
            x = t.to + Tenths(10);
        }
    }
    x
}

/// The last place up to this one that no mark covers.
fn before_marks(taken: &[TakenPixels], to: Tenths) -> Tenths {
    let mut x = to;
    for t in taken.iter().rev() {
        if t.from.is_below(x) && !(t.to + Tenths(10)).is_below(x) {
            x = t.from - Tenths(10);
        }
    }
    x
}

/// Where a text of this width can begin between two places of a lane without touching a mark.
pub fn fit_left(
    span: &PanelSpan,
    taken: &[TakenPixels],
    ends: (Tenths, Tenths),
    need: Tenths,
) -> Option<Tenths>
    ensures free { IfSome result (λ x. places.IsFree x (places.plus x need.0) taken.now) }
    ensures within { IfSome result (λ x. (places.plus x need.0).0 ≤ℤ (tenths (ends.1.0 -ℤ pos 20)).0) }
{
    let (left, right) = ends;
    let x = after_marks(taken, left.or_more(span.page.start()) + Tenths(40));
    let most = first_between(taken, x, x + need, right - Tenths(20));
    (!most.is_below(x + need)).then_some(x)
}

/// Where a text of this width can end between two places of a lane without touching a mark.
pub fn fit_right(
    span: &PanelSpan,
    taken: &[TakenPixels],
    ends: (Tenths, Tenths),
    need: Tenths,
) -> Option<Tenths>
    ensures free { IfSome result (λ x. places.IsFree (places.from need x) x taken.now) }
    ensures within { IfSome result (λ x. (places.text_start span.now ends.0).0 ≤ℤ (places.from need x).0) }
{
    let (left, right) = ends;
    let x = before_marks(taken, right - Tenths(25));
    let start = left.or_more(span.page.start()) + Tenths(40);
    let least = last_between(taken, x - need, x, start);
    (!(x - need).is_below(least)).then_some(x)
}

/// How many letters of a name, at least the given number, fit with three dots into this width; none if not even these
/// do.
pub fn letters_that_fit(name: &[u8], least: usize, size: Tenths, room: Tenths) -> Option<usize>
    ensures least { IfSome result (λ count. least ≤ count) }
    ensures fewer { IfSome result (λ count. count < length name.now) }
{
    let dots = width("…".as_bytes(), size);
    for count in (least..name.len()).rev() {
        let letters = name.get(..count).unwrap_or(&[]);
        if (width(letters, size) + dots).is_below(room) {
            return Some(count);
        }
    }
    None
}
