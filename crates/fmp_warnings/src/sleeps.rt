//! Warnings of sleeps that nothing ends.
use crate::found::FoundWarnings;
use crate::landmarks::Landmarks;
use crate::objects::NamedObjects;
use fmp_base::{Name, Service};
use fmp_diagnosis::around::{begins_body_at, is_same, name_at};
use fmp_diagnosis::words::{Word, say};
use fmp_lex::{Api, TextFile, TokenKind, Tokens};
use std::alloc::{AllocError, Global};

/// Whether the body of a name is the entry of tasks, and no call may wake one of them up, release its wait or terminate
/// it.
fn sleeps_on(objects: &NamedObjects, body: &Name) -> bool {
    let mut has_task = false;
    for object in &objects.list {
        if let (Api::CreTsk, Some(entry)) = (object.api, object.entry) {
            if is_same(&entry, body) {
                if objects.uses_of(object).is_woken {
                    return false;
                }
                has_task = true;
            }
        }
    }
    has_task
}

/// Warns of the calls of `slp_tsk` in a task text after which no task goes on. That is certain: no call has one of the
/// tasks of the body, or what may be one, as the task that it wakes up, releases or terminates.
pub fn warn_of_sleeps(
    (src, landmarks): (&Tokens<'_>, &Landmarks),
    objects: &NamedObjects,
    found: &mut FoundWarnings<'_>,
) -> Result<(), AllocError> {
    let mut is_for_ever = false;
    for mark in &landmarks.structure {
        let at = mark.at;
        if begins_body_at(src, at) {
            is_for_ever = match name_at(src, at.saturating_add(1)) {
                Some(body) => sleeps_on(objects, &body),
                None => false,
            };
        }
        if is_for_ever && src.kind(at) == Some(TokenKind::Service(Service::SlpTsk)) {
            let words = [Word::Text("nothing ends this sleep: no call wakes a task of this body")];
            let mut sentence = Vec::new(found.alloc);
            say(&words, &mut sentence)?;
            found.warn(TextFile::Source, src, at, sentence)?;
        }
    }
    Ok(())
}
