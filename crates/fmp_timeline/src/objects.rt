//! The objects of a run: their values, and the tasks that wait for them in the order of their queues.
use crate::marks::{ends_wait, task_named};
use crate::names::ArgumentTopic;
use crate::states::Moment;
use crate::tracks::Track;
use fmp_base::{
    Action, Call, Caller, Er, Line, ObjectKind, Phase, QueueOrder, System, TaskBlock, WaitCause,
};
use std::alloc::{AllocError, Global};

/// What the lane of an object shows.
#[derive(Clone, Copy, PartialEq, Eq)]
pub struct ObjectShown {
    /// The count, the pattern, the words or letters that are queued, or the word.
    pub value: i32,
    /// Where the tasks that wait for it begin among all that were noted.
    pub start: usize,
    /// Where they end.
    pub end: usize,
}

/// An object: what it is, how its tasks queue, what it is now, and what it was.
#[derive(Drop)]
pub struct ObjectHistory {
    pub topic: ArgumentTopic,
    order: QueueOrder,
    /// The most words that it holds, of a data queue.
    most: i32,
    now: ObjectShown,
    /// Whether its queue may have changed.
    moved: bool,
    pub track: Track<ObjectShown>,
}

/// A wait of a task for an object.
#[derive(Clone, Copy, PartialEq, Eq)]
struct Wait {
    topic: ArgumentTopic,
    /// Whether it stands in its queue by priority.
    ranked: bool,
    /// Its priority, where these queue by priority, or 0.
    rank: u8,
    /// The event at which the task took its place in the queue.
    since: u32,
}

/// All objects of a system, and the waits of its tasks.
#[derive(Drop)]
pub struct ObjectHistories {
    pub all: Vec<ObjectHistory>,
    waits: Vec<Option<Wait>>,
    /// Lists of tasks that waited for an object, one after another.
    pub waiting: Vec<u8>,
}

/// What a wait is for, if it is for an object.
fn topic_of(cause: WaitCause) -> Option<ArgumentTopic> {
    match cause {
        WaitCause::Sleep | WaitCause::Delay => None,
        WaitCause::Semaphore(place) => Some(ArgumentTopic::Semaphore(place)),
        WaitCause::Flag { flag, .. } => Some(ArgumentTopic::Flag(flag)),
        WaitCause::Sending { queue, .. } | WaitCause::Receiving(queue) => {
            Some(ArgumentTopic::DataQueue(queue))
        }
        WaitCause::Mailbox(place) => Some(ArgumentTopic::Mailbox(place)),
    }
}

/// The queue that a call names by this number, if it sends to one or receives from one.
fn queue_named(kind: ObjectKind, number: i32) -> Option<ArgumentTopic> {
    let place = u8::try_from(number.checked_sub(1)?).ok()?;
    match kind {
        ObjectKind::DataQueue => Some(ArgumentTopic::DataQueue(place)),
        ObjectKind::Mailbox => Some(ArgumentTopic::Mailbox(place)),
        _ => None,
    }
}

/// The object in which an accepted call that releases no task queues one more, or one less.
fn level_change(call: Call) -> Option<(ArgumentTopic, i32)> {
    let service = call.service();
    let change = match service.action()? {
        Action::Gives => 1,
        Action::Takes => -1,
        _ => return None,
    };
    let kind = service.parameters().first()?.object_kind()?;
    let arguments = call.arguments();
    let topic = queue_named(kind, *arguments.as_slice().first()?)?;
    Some((topic, change))
}

/// The call of an event that was accepted, and its caller.
fn accepted(lines: &[Line]) -> Option<(Call, Caller)> {
    match lines.first()? {
        Line::Call {
            caller,
            call,
            reply: Some(reply),
            ..
        } if reply.code == Er::Ok => Some((*call, *caller)),
        _ => None,
    }
}

/// The task that gets a new place in its queue by an event, which calls a service that sets its priority.
fn replaced_task(lines: &[Line]) -> Option<u8> {
    match accepted(lines)? {
        (Call::ChgPri { task, .. }, caller) => task_named(task, caller),
        _ => None,
    }
}

/// The tasks that wait for an object, each with what it queues by before it, in no order.
fn keyed_waits(
    alloc: Global,
    waits: &[Option<Wait>],
    topic: ArgumentTopic,
) -> Result<Vec<(u8, u32, u8)>, AllocError> {
    let mut keyed = Vec::new(alloc);
    for task in 0..waits.len().min(255) as u8 {
        if let Some(wait) = &waits[usize::from(task)]
            && wait.topic == topic
        {
            keyed.push((wait.rank, wait.since, task))?;
        }
    }
    Ok(keyed)
}

/// Appends the tasks that wait for an object, in the order of its queue.
fn append_queue(
    alloc: Global,
    waits: &[Option<Wait>],
    topic: ArgumentTopic,
    out: &mut Vec<u8>,
) -> Result<(), AllocError> {
    let mut keyed = keyed_waits(alloc, waits, topic)?;
    keyed.sort_unstable();
    for (_, _, task) in keyed.as_slice() {
        out.push(*task)?;
    }
    Ok(())
}

impl ObjectHistories {
    fn add(
        &mut self,
        alloc: Global,
        topic: ArgumentTopic,
        order: QueueOrder,
        most: i32,
    ) -> Result<(), AllocError> {
        let now = ObjectShown {
            value: 0,
            start: 0,
            end: 0,
        };
        self.all.push(ObjectHistory {
            topic,
            order,
            most,
            now,
            moved: false,
            track: Track::new(alloc),
        })?;
        Ok(())
    }

    /// The objects of a system, or none if they are not asked for. `AllocError` if memory runs out.
    pub fn new(alloc: Global, sys: &System, wanted: bool) -> Result<ObjectHistories, AllocError> {
        let waits = vec![in alloc; None; sys.tasks.len()]?;
        let mut objects = ObjectHistories {
            all: Vec::new(alloc),
            waits,
            waiting: Vec::new(alloc),
        };
        if wanted {
            objects.add_all(alloc, sys)?;
        }
        Ok(objects)
    }

    fn add_all(&mut self, alloc: Global, sys: &System) -> Result<(), AllocError> {
        self.add_semaphores(alloc, sys)?;
        self.add_flags(alloc, sys)?;
        self.add_data_queues(alloc, sys)?;
        self.add_mailboxes(alloc, sys)?;
        self.add_shared_words(alloc, sys)
    }

    fn add_semaphores(&mut self, alloc: Global, sys: &System) -> Result<(), AllocError> {
        for i in 0..sys.semaphores.len().min(255) as u8 {
            let config = &sys.semaphores[usize::from(i)];
            self.add(alloc, ArgumentTopic::Semaphore(i), config.order, 0)?;
        }
        Ok(())
    }

    fn add_flags(&mut self, alloc: Global, sys: &System) -> Result<(), AllocError> {
        for i in 0..sys.flags.len().min(255) as u8 {
            let config = &sys.flags[usize::from(i)];
            self.add(alloc, ArgumentTopic::Flag(i), config.order, 0)?;
        }
        Ok(())
    }

    fn add_data_queues(&mut self, alloc: Global, sys: &System) -> Result<(), AllocError> {
        for i in 0..sys.data_queues.len().min(255) as u8 {
            let config = &sys.data_queues[usize::from(i)];
            let most = i32::from(config.capacity);
            self.add(alloc, ArgumentTopic::DataQueue(i), config.order, most)?;
        }
        Ok(())
    }

    fn add_mailboxes(&mut self, alloc: Global, sys: &System) -> Result<(), AllocError> {
        for i in 0..sys.mailboxes.len().min(255) as u8 {
            let config = &sys.mailboxes[usize::from(i)];
            self.add(alloc, ArgumentTopic::Mailbox(i), config.order, i32::MAX)?;
        }
        Ok(())
    }

    fn add_shared_words(&mut self, alloc: Global, sys: &System) -> Result<(), AllocError> {
        for i in 0..sys.shared_words.len().min(255) as u8 {
            self.add(alloc, ArgumentTopic::SharedWord(i), QueueOrder::Fifo, 0)?;
        }
        Ok(())
    }

    /// Whether a task that waits so for this object stands in its queue by priority.
    fn is_ranked(&self, topic: ArgumentTopic, cause: WaitCause) -> bool {
        if matches!(cause, WaitCause::Receiving(_)) {
            return false;
        }
        for object in &self.all {
            if object.topic == topic {
                return object.order == QueueOrder::Priority;
            }
        }
        false
    }

    /// The wait of a task after an event, if it waits for an object. It keeps its place where nothing moved it.
    fn wait_of(
        &self,
        event: u32,
        block: &TaskBlock,
        old: Option<Wait>,
        moved: bool,
    ) -> Option<Wait> {
        let Phase::Waiting(cause) = block.phase else {
            return None;
        };
        let topic = topic_of(cause)?;
        let same = old.filter(|wait| wait.topic == topic);
        let ranked = match same {
            Some(wait) => wait.ranked,
            None => self.is_ranked(topic, cause),
        };
        let rank = if ranked { block.priority } else { 0 };
        let stays = |wait: &Wait| wait.rank == rank && !(ranked && moved);
        let since = same.filter(stays).map_or(event, |wait| wait.since);
        Some(Wait {
            topic,
            ranked,
            rank,
            since,
        })
    }

    /// Notes that the queue of an object may have changed.
    fn note_move(&mut self, wait: Option<Wait>) {
        let Some(wait) = wait else {
            return;
        };
        for object in self.all.iter_mut() {
            if object.topic == wait.topic {
                object.moved = true;
            }
        }
    }

    /// The wait of a task after an event.
    fn take_wait(&mut self, event: u32, task: u8, block: &TaskBlock, moved: bool) {
        let place = usize::from(task);
        let old = self.waits.get(place).copied().flatten();
        let new = self.wait_of(event, block, old, moved);
        if new != old {
            self.note_move(old);
            self.note_move(new);
            if let Some(wait) = self.waits.get_mut(place) {
                *wait = new;
            }
        }
    }

    /// The waits after an event.
    fn take_waits(&mut self, event: u32, moment: &Moment<'_>) {
        let replaced = replaced_task(moment.lines);
        for task in 0..moment.blocks.len().min(255) as u8 {
            let block = &moment.blocks[usize::from(task)];
            self.take_wait(event, task, block, replaced == Some(task));
        }
    }

    /// The words and letters that are queued after an event.
    fn take_levels(&mut self, lines: &[Line]) {
        if ends_wait(lines) {
            return;
        }
        let Some((call, _)) = accepted(lines) else {
            return;
        };
        let Some((topic, change)) = level_change(call) else {
            return;
        };
        for object in self.all.iter_mut() {
            if object.topic == topic {
                let level = object.now.value.saturating_add(change);
                object.now.value = level.max(0).min(object.most);
            }
        }
    }

    /// The values after an event.
    fn take_values(&mut self, moment: &Moment<'_>) {
        for object in self.all.iter_mut() {
            let value = match object.topic {
                ArgumentTopic::Semaphore(i) => moment
                    .semaphores
                    .get(usize::from(i))
                    .map(|x| i32::from(*x)),
                ArgumentTopic::Flag(i) => moment.flags.get(usize::from(i)).map(|x| i32::from(*x)),
                ArgumentTopic::SharedWord(i) => moment.shared_words.get(usize::from(i)).copied(),
                _ => None,
            };
            object.now.value = value.unwrap_or(object.now.value);
        }
    }

    /// The queues that have changed, of those that may have.
    fn take_queues(&mut self, alloc: Global) -> Result<(), AllocError> {
        for object in self.all.iter_mut() {
            if object.moved {
                object.moved = false;
                let start = self.waiting.len();
                append_queue(alloc, &self.waits, object.topic, &mut self.waiting)?;
                let before = object.now.start..object.now.end;
                let queue = self.waiting.get(start..).unwrap_or(&[]);
                if self.waiting.get(before).unwrap_or(&[]) == queue {
                    self.waiting.truncate(start);
                } else {
                    object.now.start = start;
                    object.now.end = self.waiting.len();
                }
            }
        }
        Ok(())
    }

    /// One moment more. `AllocError` if memory runs out.
    pub fn show(
        &mut self,
        alloc: Global,
        event: u32,
        moment: &Moment<'_>,
    ) -> Result<(), AllocError> {
        if self.all.is_empty() {
            return Ok(());
        }
        self.take_levels(moment.lines);
        self.take_values(moment);
        self.take_waits(event, moment);
        self.take_queues(alloc)?;
        for object in self.all.iter_mut() {
            object.track.show(event, object.now)?;
        }
        Ok(())
    }

    /// The tasks that wait for an object, in the order of its queue.
    pub fn waiting_for(&self, shown: &ObjectShown) -> &[u8] {
        self.waiting.get(shown.start..shown.end).unwrap_or(&[])
    }
}
