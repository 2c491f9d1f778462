//! The texts of waits in the lanes of tasks, where they fit.
ghost use Rattle.std.specs.Prelude.{◌≡◌};
ghost use Rattle.fmp_base.specs.Systems.{tables_of};
ghost use Rattle.fmp_drawing.specs.Waits as spec;
ghost use Rattle.fmp_timeline.specs.Canvases.{Adds};

use crate::rows::Row;
use crate::scene::{Scene, TakenPixels, fit_left};
use crate::shapes::put_label;
use fmp_timeline::CanvasPiece::{Label, Raw};
use fmp_timeline::{Canvas, TaskShown, Tenths, wait_name};

/// The size of the texts in waits.
const SMALL: Tenths = Tenths(90);

/// A text of a wait: what it is for, and until when.
#[derive(Clone, Copy)]
pub struct WaitText<'a> {
    pub shown: &'a TaskShown,
    /// How many letters of the name it has, if not all.
    pub letters: Option<usize>,
    /// Whether it says until when.
    pub until: bool,
}

/// Appends a name, or this many letters of it and three dots.
fn append_letters(name: &[u8], letters: Option<usize>, label: &mut Canvas)
    ensures { Adds label.old label.new (spec.letters_of name.now letters) }
{
    match letters {
        Some(count) => {
            label.plain(name.get(..count).unwrap_or(name));
            label.raw("…");
        }
        None => label.plain(name),
    }
}

/// Appends what a task waits for.
fn append_cause(scene: &Scene<'_>, text: WaitText<'_>, label: &mut Canvas)
    ensures { Adds label.old label.new
        (spec.cause_text (tables_of scene.now.sys.now) text.entry.shown.now.wait text.entry.letters) }
{
    if let Some(cause) = text.shown.wait {
        let (arrow, name) = wait_name(scene.sys, cause);
        label.raw(arrow);
        append_letters(name, text.letters, label);
    }
}

/// Appends until when it waits.
fn append_deadline(text: WaitText<'_>, label: &mut Canvas)
    ensures { Adds label.old label.new (spec.deadline_text text.entry.until text.entry.shown.now.deadline) }
{
    if text.until
        && let Some(deadline) = text.shown.deadline
    {
        label.numbered(" ≤", deadline, "");
    }
}

/// Appends a text of a wait.
pub fn append_wait(scene: &Scene<'_>, text: WaitText<'_>, label: &mut Canvas)
    ensures { Adds label.old label.new (spec.wait_text (tables_of scene.now.sys.now) text.entry) }
{
    append_cause(scene, text, label);
    append_deadline(text, label);
}

/// Whether the name in the text of a wait can be cut to this many letters.
fn can_be_cut(scene: &Scene<'_>, shown: &TaskShown, count: usize) -> bool
    ensures { result ≡ spec.can_be_cut (tables_of scene.now.sys.now) shown.now.wait count }
{
    match shown.wait {
        Some(cause) => {
            let (arrow, name) = wait_name(scene.sys, cause);
            count < name.len() && (count > 2 || !arrow.is_empty())
        }
        None => false,
    }
}

/// A part of a lane: between two places, beside the pixels that the lane's marks take.
#[derive(Clone, Copy)]
pub struct LanePart<'a> {
    pub row: Row<'a>,
    pub taken: &'a [TakenPixels],
    pub ends: (Tenths, Tenths),
}

/// Where this text of a wait begins in a part of a lane, if it fits there, with the text as the label.
fn fit_wait(part: LanePart<'_>, text: WaitText<'_>, label: &mut Canvas) -> Option<Tenths> {
    label.shorten(0);
    append_wait(part.row.scene, text, label);
    fit_left(part.row.span, part.taken, part.ends, label.width(SMALL))
}

/// Where the whole text of a wait begins, with its end or without it.
fn fit_whole(part: LanePart<'_>, shown: &TaskShown, label: &mut Canvas) -> Option<Tenths> {
    let whole = WaitText {
        shown,
        letters: None,
        until: true,
    };
    let x = fit_wait(part, whole, label);
    if x.is_some() {
        return x;
    }
    let until = false;
    fit_wait(part, WaitText { until, ..whole }, label)
}

/// Where the text of a wait begins with as many letters of its name as fit.
fn fit_cut(part: LanePart<'_>, shown: &TaskShown, label: &mut Canvas) -> Option<Tenths> {
    for count in (2..31usize).rev() {
        if can_be_cut(part.row.scene, shown, count) {
            let text = WaitText {
                shown,
                letters: Some(count),
                until: false,
            };
            let x = fit_wait(part, text, label);
            if x.is_some() {
                return x;
            }
        }
    }
    None
}

/// Where the longest text of a wait that fits in a part of a lane begins, with this text as the label.
fn fit_label(part: LanePart<'_>, shown: &TaskShown, label: &mut Canvas) -> Option<Tenths> {
    let whole = fit_whole(part, shown, label);
    if whole.is_some() {
        return whole;
    }
    fit_cut(part, shown, label)
}

/// The text of a wait in a part of its lane at this height, if it fits.
pub fn put_wait_text(
    part: LanePart<'_>,
    (class, y): (&str, Tenths),
    shown: &TaskShown,
    out: &mut Canvas,
) {
    let mut label = Canvas::new(part.row.scene.alloc);
    if let Some(x) = fit_label(part, shown, &mut label) {
        put_label(Raw(class), (x, y), Label(&label), out);
    }
}
