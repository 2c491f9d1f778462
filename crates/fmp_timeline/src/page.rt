//! The places of a picture's parts: how wide a column is, how many panels there are, and where an event stands.
ghost use Rattle.std.specs.Prelude.{◌≡◌, ◌+◌, min, nat_lt};
ghost use Rattle.fmp_timeline.specs.Events.{last_event};
ghost use Rattle.fmp_timeline.specs.Lengths.{pixels};
ghost use Rattle.fmp_timeline.specs.Pages as spec;

use crate::font::{number_width, width};
use crate::lengths::{Tenths, px};
use crate::run::Run;
use crate::tracks::Stay;
use fmp_base::System;

/// The width of a panel's events.
const PANEL: u32 = 1680;

/// No more events are drawn.
const MOST_EVENTS: u32 = 10_000;

/// What of a run is drawn, and how.
#[derive(Clone, Copy)]
pub struct Choice {
    /// The first event that is drawn; 0 is setup.
    pub first: u32,
    /// The last event that is drawn, cut to the last of the run.
    pub last: u32,
}

/// The measures of a picture. All are pixels but `first`, `last`, `panels` and `per_panel`.
#[derive(Clone, Copy)]
pub struct PicturePage {
    pub first: u32,
    pub last: u32,
    /// The width of an event.
    pub column: u32,
    pub panels: u32,
    /// The events of a panel.
    pub per_panel: u32,
    /// The width of the names at the left.
    pub gutter: u32,
    /// What stands between the names and the first event.
    pub lead: u32,
    pub wide: u32,
}

/// The width of a column for this many events.
fn column_for(count: u32) -> u32 {
    let free = PANEL.checked_div(count).unwrap_or(PANEL);
    match count {
        _ if free >= 24 => free.min(64),
        0..=140 => 24,
        141..=1200 => 12,
        1201..=4800 => 6,
        _ => 3,
    }
}

/// A number divided, with what is left over as one more.
fn divided_up(number: u32, by: u32) -> u32 {
    let whole = number.checked_div(by).unwrap_or(number);
    let rest = number.checked_rem(by).unwrap_or(0);
    if rest > 0 {
        whole.saturating_add(1)
    } else {
        whole
    }
}

/// The width of a text of names, in whole pixels.
fn name_width(text: &[u8]) -> u32 {
    u32::try_from(width(text, Tenths(115)).0).unwrap_or(0) / 10
}

/// The width of the longest name in a lane.
fn widest(sys: &System, objects: bool) -> u32 {
    let mut most = 0;
    for config in sys.tasks.as_slice() {
        most = name_width(config.name.as_bytes()).max(most);
    }
    for config in sys.cyclics.as_slice() {
        most = name_width(config.name.as_bytes()).max(most);
    }
    for config in sys.interrupts.as_slice() {
        let label = if config.number > 9 {
            b"interrupt 88".as_slice()
        } else {
            b"interrupt 8".as_slice()
        };
        most = name_width(label).max(most);
    }
    if objects {
        widest_object(sys).max(most)
    } else {
        most
    }
}

fn widest_object(sys: &System) -> u32 {
    let mut most = 0;
    for config in sys.semaphores.as_slice() {
        most = name_width(config.name.as_bytes()).max(most);
    }
    for config in sys.flags.as_slice() {
        most = name_width(config.name.as_bytes()).max(most);
    }
    for config in sys.data_queues.as_slice() {
        most = name_width(config.name.as_bytes()).max(most);
    }
    for config in sys.mailboxes.as_slice() {
        most = name_width(config.name.as_bytes()).max(most);
    }
    for config in sys.shared_words.as_slice() {
        most = name_width(config.name.as_bytes()).max(most);
    }
    most
}

/// The width of the words over a panel that ends with this event, and of those beside them.
fn heading_width(last: u32) -> u32 {
    let number = number_width(last, Tenths(120));
    let heading = width("Events –".as_bytes(), Tenths(120)) + number.times(2);
    u32::try_from(heading.0).unwrap_or(0) / 10 + 60
}

impl PicturePage {
    /// The measures for what is chosen of a run.
    pub fn new(sys: &System, run: &Run, choice: Choice) -> PicturePage
        ensures first { result.first ≡ min choice.first (last_event run.now) }
        ensures last { result.last ≡ spec.last_drawn (last_event run.now) result.first choice.last }
    {
        let end = run.next_event().saturating_sub(1);
        let first = choice.first.min(end);
        let last = choice
            .last
            .min(end)
            .min(first.saturating_add(MOST_EVENTS.saturating_sub(1)))
            .max(first);
        let count = last.saturating_sub(first).saturating_add(1);
        let column = column_for(count);
        let fit = PANEL.checked_div(column).unwrap_or(1);
        let per_panel = divided_up(count, divided_up(count, fit));
        let panels = divided_up(count, per_panel);
        let objects = !run.objects.all.is_empty();
        let room = if objects { 90 } else { 74 };
        let names = widest(sys, objects).saturating_add(room);
        let heading = if panels > 1 { heading_width(last) } else { 0 };
        let gutter = names.max(132).min(250).max(heading);
        let lead = column.max(10).min(24);
        let plot = per_panel.saturating_mul(column);
        let wide = gutter
            .saturating_add(lead)
            .saturating_add(plot)
            .saturating_add(26);
        PicturePage {
            first,
            last,
            column,
            panels,
            per_panel,
            gutter,
            lead,
            wide: wide.max(1180),
        }
    }

    /// The first event of a panel.
    pub fn panel_start(&self, panel: u32) -> u32
        ensures { result ≡ spec.panel_start self.now panel }
    {
        self.first
            .saturating_add(self.per_panel.saturating_mul(panel))
    }

    /// The last event of the panel that begins with this one.
    pub fn panel_end(&self, first: u32) -> u32
        ensures { result ≡ spec.panel_end self.now first }
    {
        first
            .saturating_add(self.per_panel.saturating_sub(1))
            .min(self.last)
    }

    /// Where the lanes begin.
    pub fn left(&self) -> Tenths
        ensures { result ≡ pixels self.now.gutter }
    {
        px(self.gutter)
    }

    /// Where the events of a panel begin.
    pub fn start(&self) -> Tenths
        ensures { result ≡ pixels (self.now.gutter + self.now.lead) }
    {
        px(self.gutter) + px(self.lead)
    }
}

/// The events of a panel.
#[derive(Clone, Copy)]
pub struct PanelSpan {
    pub page: PicturePage,
    pub first: u32,
    pub last: u32,
}

impl PanelSpan {
    /// Whether an event is one of the panel.
    pub fn has(&self, event: u32) -> bool
        ensures { result ≡ spec.has self.now event }
    {
        self.first <= event && event <= self.last
    }

    /// Where an event stands.
    #[tactic(auto, using(crate::proofs::Columns::capped_pixels))]
    pub fn x(&self, event: u32) -> Tenths
        ensures { result ≡ spec.x_of self.now event }
    {
        self.page.start() + px(self.page.column).times(event.saturating_sub(self.first))
    }

    /// Where the panel ends.
    pub fn end(&self) -> Tenths
        ensures { result ≡ spec.end_of self.now }
    {
        self.x(self.last.saturating_add(1))
    }

    /// Where the box of a state begins: in the lead, if it began before the panel.
    pub fn box_left<S>(&self, stay: &Stay<S>) -> Tenths
        ensures { result ≡ spec.left_of self.now stay.now.from }
    {
        if stay.from < self.first {
            return self.page.left();
        }
        self.x(stay.from)
    }

    /// Where the box of a state ends.
    pub fn box_right<S>(&self, stay: &Stay<S>) -> Tenths
        ensures { result ≡ spec.right_of self.now stay.now.to }
    {
        match stay.to {
            Some(to) if to <= self.last => self.x(to),
            _ => self.end(),
        }
    }

    /// Whether the columns are so narrow that single marks and calls are left out.
    pub fn is_narrow(&self) -> bool
        ensures { result ≡ nat_lt self.now.page.column 6 }
    {
        self.page.column < 6
    }
}
