//! The calls on data queues and mailboxes (uITRON 4.0, section 4.4).
ghost use Rattle.std.specs.Prelude.{◌≡◌, ℕ, ◌<◌, length, vec_capacity};
ghost use Rattle.fmp_base.specs.Calls.{case_of};
ghost use Rattle.fmp_base.specs.Services.{service_of};
ghost use Rattle.fmp_base.specs.States.{task_at};
ghost use Rattle.fmp_kernel.specs.Groups.{group_of};
ghost use Rattle.fmp_tasks.specs.Lines.{AreEmptyWithRoom};
ghost use Rattle.fmp_tasks.specs.Tables.{outcome, SameShape};

use crate::calls::groups::ServiceGroup;
use fmp_base::{Answer, Call, Line, TimeLimit};
use fmp_objects_queues::{
    fsnd_dtq, rcv_dtq, rcv_mbx, snd_dtq, snd_mbx, trcv_dtq, trcv_mbx, tsnd_dtq,
};
use fmp_tasks::KernelState;

/// A call by task me on a data queue or a mailbox.
pub fn queue_call(tables: &mut KernelState, lines: &mut Vec<Line>, me: u8, made: &Call) -> Answer
    requires group { group_of (service_of made.now) ≡ ServiceGroup.Queues }
    requires caller { me < length tables.old.system.tasks }
    requires lines { AreEmptyWithRoom 1 lines.old }
    ensures outcome { (p : ℕ)
        → outcome result tables.new lines.new.items
        ≡ case_of tables.old.system tables.old.state p me (task_at tables.old.state.tasks me) made.now }
    ensures shape { SameShape tables.old tables.new }
    ensures capacity { vec_capacity lines.new ≡ vec_capacity lines.old }
{
    match *made {
        Call::SndDtq { queue, word } => {
            snd_dtq(tables, lines, me, TimeLimit::Forever, queue, word)
        }
        Call::PsndDtq { queue, word } => {
            snd_dtq(tables, lines, me, TimeLimit::Poll, queue, word)
        }
        Call::TsndDtq { queue, word, limit } => tsnd_dtq(tables, lines, me, queue, word, limit),
        Call::FsndDtq { queue, word } => fsnd_dtq(tables, lines, queue, word),
        Call::RcvDtq { queue } => rcv_dtq(tables, lines, me, TimeLimit::Forever, queue),
        Call::PrcvDtq { queue } => rcv_dtq(tables, lines, me, TimeLimit::Poll, queue),
        Call::TrcvDtq { queue, limit } => trcv_dtq(tables, lines, me, queue, limit),
        Call::SndMbx { mailbox, message } => snd_mbx(tables, lines, mailbox, message),
        Call::RcvMbx { mailbox } => rcv_mbx(tables, me, TimeLimit::Forever, mailbox),
        Call::PrcvMbx { mailbox } => rcv_mbx(tables, me, TimeLimit::Poll, mailbox),
        Call::TrcvMbx { mailbox, limit } => trcv_mbx(tables, me, mailbox, limit),
        _ => unreachable!(),
    }
}
