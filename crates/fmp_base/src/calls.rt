//! Service calls with their arguments, and their immediate effects.
ghost use Rattle.std.specs.Prelude.{◌≡◌};
ghost use Rattle.fmp_base.specs.Services.{service_of};

use crate::codes::Er;
use crate::services::Service;

/// A service call with its arguments, as the caller passes them: any number may stand anywhere.
///
/// Objects, tasks, processors and messages go by their numbers, from 1; `task` 0 is TSK_SELF, the caller, where a call
/// allows it. A `limit` is in ticks, or -1 (TMO_FEVR) or 0 (TMO_POL); a `delay` is in ticks; a `priority` is 1 to 16,
/// or 0 (TPRI_INI, TPRI_SELF) where a call allows it.
#[derive(Clone, Copy)]
pub enum Call {
    /// Prints a value into the trace (this kernel's own).
    Put {
        value: i32,
    },
    /// Reads a shared word (this kernel's own).
    LdShr {
        word: i32,
    },
    /// Writes a shared word (this kernel's own).
    StShr {
        word: i32,
        value: i32,
    },
    /// Activates a task (uITRON 4.0, section 4.1).
    ActTsk {
        task: i32,
    },
    /// Cancels the queued activations of a task (uITRON 4.0, section 4.1).
    CanAct {
        task: i32,
    },
    /// Ends the invoking task (uITRON 4.0, section 4.1).
    ExtTsk,
    /// Terminates another task (uITRON 4.0, section 4.1).
    TerTsk {
        task: i32,
    },
    /// Changes the current priority of a task (uITRON 4.0, section 4.1).
    ChgPri {
        task: i32,
        priority: i32,
    },
    /// Refers to the current priority of a task (uITRON 4.0, section 4.1).
    GetPri {
        task: i32,
    },
    /// Activates a task on a processor (FMP kernel, task migration).
    MactTsk {
        task: i32,
        processor: i32,
    },
    /// Migrates a task to a processor (FMP kernel, task migration).
    MigTsk {
        task: i32,
        processor: i32,
    },
    /// Sleeps until a wakeup (uITRON 4.0, section 4.2).
    SlpTsk,
    /// Sleeps until a wakeup, with a time limit (uITRON 4.0, section 4.2).
    TslpTsk {
        limit: i32,
    },
    /// Wakes up a task (uITRON 4.0, section 4.2).
    WupTsk {
        task: i32,
    },
    /// Cancels the queued wakeups of a task (uITRON 4.0, section 4.2).
    CanWup {
        task: i32,
    },
    /// Releases a task from waiting (uITRON 4.0, section 4.2).
    RelWai {
        task: i32,
    },
    /// Suspends a task (uITRON 4.0, section 4.2).
    SusTsk {
        task: i32,
    },
    /// Resumes a suspended task (uITRON 4.0, section 4.2).
    RsmTsk {
        task: i32,
    },
    /// Delays the invoking task (uITRON 4.0, section 4.2).
    DlyTsk {
        delay: i32,
    },
    /// Releases a semaphore resource (uITRON 4.0, section 4.4.1).
    SigSem {
        semaphore: i32,
    },
    /// Acquires a semaphore resource (uITRON 4.0, section 4.4.1).
    WaiSem {
        semaphore: i32,
    },
    /// Acquires a semaphore resource, polling (uITRON 4.0, section 4.4.1).
    PolSem {
        semaphore: i32,
    },
    /// Acquires a semaphore resource, with a time limit (uITRON 4.0, section 4.4.1).
    TwaiSem {
        semaphore: i32,
        limit: i32,
    },
    /// Sets bits of an eventflag (uITRON 4.0, section 4.4.2).
    SetFlg {
        flag: i32,
        pattern: i32,
    },
    /// Clears the bits of an eventflag that the pattern lacks (uITRON 4.0, section 4.4.2).
    ClrFlg {
        flag: i32,
        pattern: i32,
    },
    /// Waits for an eventflag (uITRON 4.0, section 4.4.2).
    WaiFlg {
        flag: i32,
        pattern: i32,
        mode: i32,
    },
    /// Waits for an eventflag, polling (uITRON 4.0, section 4.4.2).
    PolFlg {
        flag: i32,
        pattern: i32,
        mode: i32,
    },
    /// Waits for an eventflag, with a time limit (uITRON 4.0, section 4.4.2).
    TwaiFlg {
        flag: i32,
        pattern: i32,
        mode: i32,
        limit: i32,
    },
    /// Sends a word to a data queue (uITRON 4.0, section 4.4.3).
    SndDtq {
        queue: i32,
        word: i32,
    },
    /// Sends a word to a data queue, polling (uITRON 4.0, section 4.4.3).
    PsndDtq {
        queue: i32,
        word: i32,
    },
    /// Sends a word to a data queue, with a time limit (uITRON 4.0, section 4.4.3).
    TsndDtq {
        queue: i32,
        word: i32,
        limit: i32,
    },
    /// Sends a word to a data queue by force (uITRON 4.0, section 4.4.3).
    FsndDtq {
        queue: i32,
        word: i32,
    },
    /// Receives a word from a data queue (uITRON 4.0, section 4.4.3).
    RcvDtq {
        queue: i32,
    },
    /// Receives a word from a data queue, polling (uITRON 4.0, section 4.4.3).
    PrcvDtq {
        queue: i32,
    },
    /// Receives a word from a data queue, with a time limit (uITRON 4.0, section 4.4.3).
    TrcvDtq {
        queue: i32,
        limit: i32,
    },
    /// Sends a message to a mailbox (uITRON 4.0, section 4.4.4).
    SndMbx {
        mailbox: i32,
        message: i32,
    },
    /// Receives a message from a mailbox (uITRON 4.0, section 4.4.4).
    RcvMbx {
        mailbox: i32,
    },
    /// Receives a message from a mailbox, polling (uITRON 4.0, section 4.4.4).
    PrcvMbx {
        mailbox: i32,
    },
    /// Receives a message from a mailbox, with a time limit (uITRON 4.0, section 4.4.4).
    TrcvMbx {
        mailbox: i32,
        limit: i32,
    },
    /// Starts a cyclic handler (uITRON 4.0, section 4.7.2).
    StaCyc {
        cyclic: i32,
    },
    /// Stops a cyclic handler (uITRON 4.0, section 4.7.2).
    StpCyc {
        cyclic: i32,
    },
    /// Rotates a ready queue (uITRON 4.0, section 4.8).
    RotRdq {
        priority: i32,
    },
    /// Refers to the number of the invoking task (uITRON 4.0, section 4.8).
    GetTid,
    /// Locks the CPU (uITRON 4.0, section 4.8).
    LocCpu,
    /// Unlocks the CPU (uITRON 4.0, section 4.8).
    UnlCpu,
    /// Disables dispatching (uITRON 4.0, section 4.8).
    DisDsp,
    /// Enables dispatching (uITRON 4.0, section 4.8).
    EnaDsp,
    /// Acquires a spin lock (FMP kernel, spin locks).
    LocSpn {
        lock: i32,
    },
    /// Acquires a spin lock, polling (FMP kernel, spin locks).
    TrySpn {
        lock: i32,
    },
    /// Releases a spin lock (FMP kernel, spin locks).
    UnlSpn {
        lock: i32,
    },
    /// Activates a task, from a handler (uITRON 4.0, section 4.1).
    IactTsk {
        task: i32,
    },
    /// Wakes up a task, from a handler (uITRON 4.0, section 4.2).
    IwupTsk {
        task: i32,
    },
    /// Releases a task from waiting, from a handler (uITRON 4.0, section 4.2).
    IrelWai {
        task: i32,
    },
    /// Releases a semaphore resource, from a handler (uITRON 4.0, section 4.4.1).
    IsigSem {
        semaphore: i32,
    },
    /// Sets bits of an eventflag, from a handler (uITRON 4.0, section 4.4.2).
    IsetFlg {
        flag: i32,
        pattern: i32,
    },
    /// Sends a word to a data queue, polling, from a handler (uITRON 4.0, section 4.4.3).
    IpsndDtq {
        queue: i32,
        word: i32,
    },
    /// Sends a word to a data queue by force, from a handler (uITRON 4.0, section 4.4.3).
    IfsndDtq {
        queue: i32,
        word: i32,
    },
    /// Rotates a ready queue, from a handler (uITRON 4.0, section 4.8).
    IrotRdq {
        priority: i32,
    },
    /// Rotates a ready queue of a processor (FMP kernel, system state management).
    MrotRdq {
        priority: i32,
        processor: i32,
    },
}

/// What a caller or a released task is told: a code, and a value where the call gives one.
#[derive(Clone, Copy, Debug, PartialEq, Eq)]
pub struct Reply {
    /// How the call went.
    pub code: Er,
    /// What the call gives beside its code, only with E_OK.
    pub value: Option<i32>,
}

/// The immediate effect of a service call.
#[derive(Clone, Copy)]
pub enum Answer {
    /// The caller is told this and goes on.
    Replies(Reply),
    /// The caller waits.
    Waits,
    /// The caller has ended.
    Ends,
    /// The caller spins for a spin lock that is held: nothing has happened.
    Spins,
}

impl Call {
    /// The call without its arguments.
    pub fn service(self) -> Service
        ensures { result ≡ service_of self }
    {
        match self {
            Call::Put { .. } => Service::Put,
            Call::LdShr { .. } => Service::LdShr,
            Call::StShr { .. } => Service::StShr,
            Call::ActTsk { .. } => Service::ActTsk,
            Call::CanAct { .. } => Service::CanAct,
            Call::ExtTsk => Service::ExtTsk,
            Call::TerTsk { .. } => Service::TerTsk,
            Call::ChgPri { .. } => Service::ChgPri,
            Call::GetPri { .. } => Service::GetPri,
            Call::MactTsk { .. } => Service::MactTsk,
            Call::MigTsk { .. } => Service::MigTsk,
            Call::SlpTsk => Service::SlpTsk,
            Call::TslpTsk { .. } => Service::TslpTsk,
            Call::WupTsk { .. } => Service::WupTsk,
            Call::CanWup { .. } => Service::CanWup,
            Call::RelWai { .. } => Service::RelWai,
            Call::SusTsk { .. } => Service::SusTsk,
            Call::RsmTsk { .. } => Service::RsmTsk,
            Call::DlyTsk { .. } => Service::DlyTsk,
            Call::SigSem { .. } => Service::SigSem,
            Call::WaiSem { .. } => Service::WaiSem,
            Call::PolSem { .. } => Service::PolSem,
            Call::TwaiSem { .. } => Service::TwaiSem,
            Call::SetFlg { .. } => Service::SetFlg,
            Call::ClrFlg { .. } => Service::ClrFlg,
            Call::WaiFlg { .. } => Service::WaiFlg,
            Call::PolFlg { .. } => Service::PolFlg,
            Call::TwaiFlg { .. } => Service::TwaiFlg,
            Call::SndDtq { .. } => Service::SndDtq,
            Call::PsndDtq { .. } => Service::PsndDtq,
            Call::TsndDtq { .. } => Service::TsndDtq,
            Call::FsndDtq { .. } => Service::FsndDtq,
            Call::RcvDtq { .. } => Service::RcvDtq,
            Call::PrcvDtq { .. } => Service::PrcvDtq,
            Call::TrcvDtq { .. } => Service::TrcvDtq,
            Call::SndMbx { .. } => Service::SndMbx,
            Call::RcvMbx { .. } => Service::RcvMbx,
            Call::PrcvMbx { .. } => Service::PrcvMbx,
            Call::TrcvMbx { .. } => Service::TrcvMbx,
            Call::StaCyc { .. } => Service::StaCyc,
            Call::StpCyc { .. } => Service::StpCyc,
            Call::RotRdq { .. } => Service::RotRdq,
            Call::GetTid => Service::GetTid,
            Call::LocCpu => Service::LocCpu,
            Call::UnlCpu => Service::UnlCpu,
            Call::DisDsp => Service::DisDsp,
            Call::EnaDsp => Service::EnaDsp,
            Call::LocSpn { .. } => Service::LocSpn,
            Call::TrySpn { .. } => Service::TrySpn,
            Call::UnlSpn { .. } => Service::UnlSpn,
            Call::IactTsk { .. } => Service::IactTsk,
            Call::IwupTsk { .. } => Service::IwupTsk,
            Call::IrelWai { .. } => Service::IrelWai,
            Call::IsigSem { .. } => Service::IsigSem,
            Call::IsetFlg { .. } => Service::IsetFlg,
            Call::IpsndDtq { .. } => Service::IpsndDtq,
            Call::IfsndDtq { .. } => Service::IfsndDtq,
            Call::IrotRdq { .. } => Service::IrotRdq,
            Call::MrotRdq { .. } => Service::MrotRdq,
        }
    }
}
