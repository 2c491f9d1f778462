//! The data of a page, as JSON: the lines of a run, and its states as lists of changes.
ghost use Rattle.std.specs.Prelude.{◌≡◌, ◌++◌, ◌∷◌, IfOk, OnOk, [], slice_get};
ghost use Rattle.std.specs.Str.Lossy.{utf8_lossy};
ghost use Rattle.fmp_slices.specs.Contents as spec;
ghost use Rattle.fmp_slices.specs.Pages.{IsData};
ghost use Rattle.json.specs.Token.{string};

use crate::escape::escaped;
use crate::words::Told;
use fmp_base::{Caller, Handler, System};
use fmp_json::{begin, begin_list, end_list, number_member};
use fmp_timeline::{
    CallMade, Canvas, Deeds, Note, ObjectHistory, PicturePage, Run, Sign, Track, append_call,
    bytes_of, handler_text, task_bytes,
};
use json::Writer;
use std::alloc::{AllocError, Global};

/// What the data is made from.
#[derive(Clone, Copy)]
pub struct PageSource<'a> {
    pub alloc: Global,
    pub sys: &'a System,
    pub run: &'a Run,
    /// The measures of the picture.
    pub page: PicturePage,
}

/// A part of a text; nothing where the text has no such part.
fn part_of(text: &[u8], from: usize, to: usize) -> &[u8]
    ensures { result.now ≡ spec.part_of text.now from to }
{
    text.get(from..to).unwrap_or(&[])
}

impl PageSource<'_> {
    /// Whether an event is drawn.
    fn has(self, event: u32) -> bool {
        self.page.first <= event && event <= self.page.last
    }

    fn write_text(self, text: &[u8], writer: &mut Writer) -> Result<(), AllocError>
        ensures before { writer.new.before ≡ writer.old.before }
        ensures tokens { OnOk result (writer.new.tokens
            ≡ writer.old.tokens ++ string (utf8_lossy text.now) ∷ []) }
    {
        let text = String::from_utf8_lossy(self.alloc, text)?;
        writer.string(&text)
    }

    /// A pair of an event and a text.
    fn write_pair(self, event: u32, text: Canvas, writer: &mut Writer) -> Result<(), AllocError>
        ensures before { writer.new.before ≡ writer.old.before }
        ensures tokens { OnOk result (spec.Keeps writer.old.tokens writer.new.tokens) }
    {
        writer.begin_array()?;
        writer.u64(u64::from(event))?;
        self.write_text(&text.finish()?, writer)?;
        writer.end_array()
    }

    /// The changes of a state: each event after which it is another, and what it is then.
    fn write_track<S: Told + Copy + PartialEq + Drop>(
        self,
        track: &Track<S>,
        writer: &mut Writer,
    ) -> Result<(), AllocError>
        ensures before { writer.new.before ≡ writer.old.before }
        ensures tokens { OnOk result (spec.Keeps writer.old.tokens writer.new.tokens) }
    {
        writer.begin_array()?;
        for place in track.places(self.page.first, self.page.last) {
            if let Some(stay) = track.stay(place) {
                let mut text = Canvas::new(self.alloc);
                stay.state.put(self, &mut text)?;
                self.write_pair(stay.from, text, writer)?;
            }
        }
        writer.end_array()
    }

    /// The changes of the state at a place of these tracks.
    fn write_track_at<S: Told + Copy + PartialEq + Drop>(
        self,
        tracks: &[Track<S>],
        place: u8,
        writer: &mut Writer,
    ) -> Result<(), AllocError>
        ensures before { writer.new.before ≡ writer.old.before }
        ensures tokens { OnOk result (spec.Keeps writer.old.tokens writer.new.tokens) }
    {
        match tracks.get(usize::from(place)) {
            Some(track) => self.write_track(track, writer),
            None => Ok(()),
        }
    }

    /// Begins something with a name, of which lists of changes follow.
    fn begin_thing(self, name: &[u8], writer: &mut Writer) -> Result<(), AllocError>
        ensures before { writer.new.before ≡ writer.old.before }
        ensures tokens { OnOk result (spec.Keeps writer.old.tokens writer.new.tokens) }
    {
        writer.begin_object()?;
        writer.key("name")?;
        self.write_text(name, writer)?;
        begin_list(writer, "states")
    }

    fn end_thing(self, writer: &mut Writer) -> Result<(), AllocError>
        ensures before { writer.new.before ≡ writer.old.before }
        ensures tokens { OnOk result (spec.Keeps writer.old.tokens writer.new.tokens) }
    {
        end_list(writer)?;
        writer.end_object()
    }

    fn write_processor(self, place: u8, writer: &mut Writer) -> Result<(), AllocError>
        ensures before { writer.new.before ≡ writer.old.before }
        ensures tokens { OnOk result (spec.Keeps writer.old.tokens writer.new.tokens) }
    {
        let mut name = Canvas::new(self.alloc);
        name.number(u32::from(place).saturating_add(1));
        self.begin_thing(&name.finish()?, writer)?;
        self.write_track_at(&self.run.occupants, place, writer)?;
        self.write_track_at(&self.run.locks, place, writer)?;
        self.write_track_at(&self.run.dispatches, place, writer)?;
        self.end_thing(writer)
    }

    fn write_processors(self, writer: &mut Writer) -> Result<(), AllocError>
        ensures before { writer.new.before ≡ writer.old.before }
        ensures tokens { OnOk result (spec.Keeps writer.old.tokens writer.new.tokens) }
    {
        begin_list(writer, "processors")?;
        for place in 0..self.sys.processors {
            self.write_processor(place, writer)?;
        }
        end_list(writer)
    }

    fn write_priority(self, event: u32, priority: u8, writer: &mut Writer) -> Result<(), AllocError>
        ensures before { writer.new.before ≡ writer.old.before }
        ensures tokens { OnOk result (spec.Keeps writer.old.tokens writer.new.tokens) }
    {
        let mut text = Canvas::new(self.alloc);
        text.numbered("priority ", u32::from(priority), "");
        self.write_pair(event, text, writer)
    }

    /// The changes of the priority of a task, which is this one where it starts.
    fn write_priorities(
        self,
        first: u8,
        deeds: &Deeds,
        writer: &mut Writer,
    ) -> Result<(), AllocError>
        ensures before { writer.new.before ≡ writer.old.before }
        ensures tokens { OnOk result (spec.Keeps writer.old.tokens writer.new.tokens) }
    {
        writer.begin_array()?;
        for mark in deeds.marks.as_slice() {
            match mark.sign {
                Sign::Start => self.write_priority(mark.event, first, writer)?,
                Sign::Priority(priority) => self.write_priority(mark.event, priority, writer)?,
                _ => {}
            }
        }
        writer.end_array()
    }

    fn write_task(self, place: u8, first: u8, writer: &mut Writer) -> Result<(), AllocError>
        ensures before { writer.new.before ≡ writer.old.before }
        ensures tokens { OnOk result (spec.Keeps writer.old.tokens writer.new.tokens) }
    {
        self.begin_thing(task_bytes(self.sys, place), writer)?;
        self.write_track_at(&self.run.tasks, place, writer)?;
        if let Some(deeds) = self.run.deeds_of(Caller::Task(place)) {
            self.write_priorities(first, deeds, writer)?;
        }
        self.end_thing(writer)
    }

    fn write_tasks(self, writer: &mut Writer) -> Result<(), AllocError>
        ensures before { writer.new.before ≡ writer.old.before }
        ensures tokens { OnOk result (spec.Keeps writer.old.tokens writer.new.tokens) }
    {
        begin_list(writer, "tasks")?;
        for place in 0..self.sys.tasks.len().min(255) as u8 {
            let first = self.sys.tasks[usize::from(place)].priority;
            self.write_task(place, first, writer)?;
        }
        end_list(writer)
    }

    fn write_handler(self, handler: Handler, writer: &mut Writer) -> Result<(), AllocError>
        ensures before { writer.new.before ≡ writer.old.before }
        ensures tokens { OnOk result (spec.Keeps writer.old.tokens writer.new.tokens) }
    {
        let name = handler_text(self.alloc, self.sys, handler, "interrupt ");
        self.begin_thing(&name.finish()?, writer)?;
        if let Some(track) = self.run.handling(handler) {
            self.write_track(track, writer)?;
        }
        self.end_thing(writer)
    }

    fn write_handlers(self, writer: &mut Writer) -> Result<(), AllocError>
        ensures before { writer.new.before ≡ writer.old.before }
        ensures tokens { OnOk result (spec.Keeps writer.old.tokens writer.new.tokens) }
    {
        begin_list(writer, "handlers")?;
        for place in 0..self.sys.cyclics.len().min(255) as u8 {
            self.write_handler(Handler::Cyclic(place), writer)?;
        }
        for config in self.sys.interrupts.as_slice() {
            let place = config.number.saturating_sub(1);
            self.write_handler(Handler::Interrupt(place), writer)?;
        }
        end_list(writer)
    }

    fn write_object(self, object: &ObjectHistory, writer: &mut Writer) -> Result<(), AllocError>
        ensures before { writer.new.before ≡ writer.old.before }
        ensures tokens { OnOk result (spec.Keeps writer.old.tokens writer.new.tokens) }
    {
        self.begin_thing(bytes_of(self.sys, object.topic), writer)?;
        self.write_track(&object.track, writer)?;
        self.end_thing(writer)
    }

    fn write_objects(self, writer: &mut Writer) -> Result<(), AllocError>
        ensures before { writer.new.before ≡ writer.old.before }
        ensures tokens { OnOk result (spec.Keeps writer.old.tokens writer.new.tokens) }
    {
        begin_list(writer, "objects")?;
        for object in self.run.objects.all.as_slice() {
            self.write_object(object, writer)?;
        }
        end_list(writer)
    }

    fn write_calls_of(self, calls: &[CallMade], writer: &mut Writer) -> Result<(), AllocError>
        ensures before { writer.new.before ≡ writer.old.before }
        ensures tokens { OnOk result (spec.Keeps writer.old.tokens writer.new.tokens) }
    {
        for made in calls {
            if self.has(made.event) {
                let mut text = Canvas::new(self.alloc);
                append_call(self.sys, made.call, &mut text);
                self.write_pair(made.event, text, writer)?;
            }
        }
        Ok(())
    }

    /// The calls, with names in place of numbers.
    fn write_calls(self, writer: &mut Writer) -> Result<(), AllocError>
        ensures before { writer.new.before ≡ writer.old.before }
        ensures tokens { OnOk result (spec.Keeps writer.old.tokens writer.new.tokens) }
    {
        begin_list(writer, "calls")?;
        for deeds in self.run.deeds.as_slice() {
            self.write_calls_of(&deeds.calls, writer)?;
        }
        end_list(writer)
    }

    /// What is known of an event.
    fn note_at(self, event: usize) -> Option<Note>
        ensures { result ≡ slice_get self.entry.run.now.notes.items event }
    {
        self.run.notes.get(event).copied()
    }

    /// The clock after each event that is drawn.
    fn write_clock_numbers(self, writer: &mut Writer) -> Result<(), AllocError>
        ensures before { writer.new.before ≡ writer.old.before }
        ensures tokens { OnOk result (writer.new.tokens
            ≡ writer.old.tokens ++ spec.clock_numbers (spec.drawn self.entry.page self.entry.run.now)) }
    {
        for event in self.page.first as usize..self.page.last as usize + 1 {
            let Some(note) = self.note_at(event) else {
                return Ok(());
            };
            writer.u64(u64::from(note.clock))?;
        }
        Ok(())
    }

    fn write_clocks(self, writer: &mut Writer) -> Result<(), AllocError>
        ensures before { writer.new.before ≡ writer.old.before }
        ensures tokens { OnOk result (writer.new.tokens
            ≡ writer.old.tokens ++ spec.clocks_members self.entry.page self.entry.run.now) }
    {
        begin_list(writer, "clocks")?;
        self.write_clock_numbers(writer)?;
        end_list(writer)
    }

    /// Where the lines of an event end.
    fn end_of(self, event: u32) -> usize
        ensures { result ≡ spec.end_of self.entry.run.now event }
    {
        match self.run.notes.get(event as usize) {
            Some(note) => note.end,
            None => 0,
        }
    }

    /// Where the lines of the events before this one end.
    fn end_before(self, event: u32) -> usize
        ensures { result ≡ spec.end_before self.entry.run.now event }
    {
        match event.checked_sub(1) {
            Some(before) => self.end_of(before),
            None => 0,
        }
    }

    /// The lines of the events that are drawn.
    fn write_lines(self, writer: &mut Writer) -> Result<(), AllocError>
        ensures before { writer.new.before ≡ writer.old.before }
        ensures tokens { OnOk result (writer.new.tokens
            ≡ writer.old.tokens ++ spec.lines_members self.entry.page self.entry.run.now) }
    {
        let (start, end) = (
            self.end_before(self.page.first),
            self.end_of(self.page.last),
        );
        writer.key("lines")?;
        self.write_text(part_of(&self.run.text, start, end), writer)
    }

    /// Which events are drawn, and where: `left` is where the first event of a panel stands, `panel` how many events a
    /// panel has.
    fn write_places(self, writer: &mut Writer) -> Result<(), AllocError>
        ensures before { writer.new.before ≡ writer.old.before }
        ensures tokens { OnOk result (writer.new.tokens
            ≡ writer.old.tokens ++ spec.places_members self.entry.page) }
    {
        let left = self.page.gutter.saturating_add(self.page.lead);
        number_member(writer, "first", u64::from(self.page.first))?;
        number_member(writer, "last", u64::from(self.page.last))?;
        number_member(writer, "left", u64::from(left))?;
        number_member(writer, "column", u64::from(self.page.column))?;
        number_member(writer, "panel", u64::from(self.page.per_panel))
    }

    fn write_things(self, writer: &mut Writer) -> Result<(), AllocError>
        ensures before { writer.new.before ≡ writer.old.before }
        ensures tokens { OnOk result (spec.Keeps writer.old.tokens writer.new.tokens) }
    {
        self.write_processors(writer)?;
        self.write_tasks(writer)?;
        self.write_handlers(writer)?;
        self.write_objects(writer)
    }
}

/// The data of a page, which can stand in a script of HTML. `AllocError` if memory runs out.
pub fn contents_of(source: PageSource<'_>) -> Result<Vec<u8>, AllocError>
    ensures { IfOk result (λ json. IsData source.entry.page source.entry.run.now json.items) }
{
    let mut writer = begin(source.alloc)?;
    source.write_places(&mut writer)?;
    source.write_clocks(&mut writer)?;
    source.write_lines(&mut writer)?;
    source.write_calls(&mut writer)?;
    source.write_things(&mut writer)?;
    writer.end_object()?;
    escaped(source.alloc, &writer.into_inner())
}
