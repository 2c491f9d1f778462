//! What is true of each service call: its parameters, from where it may be called, what it does to what it names, and
//! the call that does the same from elsewhere.
ghost use Rattle.std.specs.Prelude.{◌≡◌};
ghost use Rattle.fmp_base.specs.Permissions.{permission as permission_of};
ghost use Rattle.fmp_base.specs.Services.{action as action_of, arity as arity_of, counterpart as counterpart_of};
ghost use Rattle.fmp_base.specs.Services.{gives_count as does_give_count, object_kind, out_place as out_place_of};
ghost use Rattle.fmp_base.specs.Services.{parameters as parameters_of};

use self::ObjectKind::{
    Cyclic, DataQueue, Flag, Mailbox, Message, Semaphore, SharedWord, SpinLock, Task,
};
use self::Parameter::{
    Delay, Limit, Mode, Number, Object, Out, Pattern, Priority, Processor, TaskOrCaller,
};
use crate::permissions::Permission;
use crate::services::Service;

/// A kind of the objects that calls name by their numbers, from 1.
#[derive(Clone, Copy)]
pub enum ObjectKind {
    Task,
    Semaphore,
    Flag,
    DataQueue,
    Mailbox,
    Message,
    SharedWord,
    SpinLock,
    Cyclic,
}

/// What stands at a place between the parentheses of a call in a text.
#[derive(Clone, Copy)]
pub enum Parameter {
    /// The number of an object of this kind.
    Object(ObjectKind),
    /// The number of a task, or 0 (TSK_SELF) for the task that calls.
    TaskOrCaller,
    /// The number of a processor.
    Processor,
    /// A priority of tasks.
    Priority,
    /// A bit pattern of an eventflag.
    Pattern,
    /// Whether a task waits for all bits or for any of them.
    Mode,
    /// Any number.
    Number,
    /// For how many ticks the caller waits.
    Delay,
    /// For how many ticks the caller waits at most; 0 (TMO_POL) and -1 (TMO_FEVR) are special.
    Limit,
    /// `&` and the variable that receives what the call gives: the kernel is passed none of it.
    Out,
}

/// What a call does to what its first argument names.
#[derive(Clone, Copy)]
pub enum Action {
    /// It starts a task, or queues an activation.
    Activates,
    /// It wakes up a task, or queues a wakeup.
    WakesUp,
    /// It migrates a task.
    Migrates,
    /// It terminates, suspends or resumes a task, or changes its priority.
    Changes,
    /// It signals a semaphore, sets an eventflag, or sends to a data queue or a mailbox.
    Gives,
    /// It acquires from a semaphore, waits for an eventflag, or receives from a data queue or a mailbox.
    Takes,
}

impl Parameter {
    /// The kind of the objects of which the parameter names one.
    pub fn object_kind(self) -> Option<ObjectKind>
        ensures { result ≡ object_kind self }
    {
        match self {
            Parameter::Object(kind) => Some(kind),
            Parameter::TaskOrCaller => Some(ObjectKind::Task),
            _ => None,
        }
    }
}

/// The parameters of the calls, in order of their function codes.
static PARAMETERS: [&[Parameter]; 59] = [
    &[Number], // put
    &[Object(SharedWord), Out], // ld_shr
    &[Object(SharedWord), Number], // st_shr
    &[TaskOrCaller], // act_tsk
    &[TaskOrCaller], // can_act
    &[], // ext_tsk
    &[Object(Task)], // ter_tsk
    &[TaskOrCaller, Priority], // chg_pri
    &[TaskOrCaller, Out], // get_pri
    &[TaskOrCaller, Processor], // mact_tsk
    &[TaskOrCaller, Processor], // mig_tsk
    &[], // slp_tsk
    &[Limit], // tslp_tsk
    &[TaskOrCaller], // wup_tsk
    &[TaskOrCaller], // can_wup
    &[Object(Task)], // rel_wai
    &[TaskOrCaller], // sus_tsk
    &[Object(Task)], // rsm_tsk
    &[Delay], // dly_tsk
    &[Object(Semaphore)], // sig_sem
    &[Object(Semaphore)], // wai_sem
    &[Object(Semaphore)], // pol_sem
    &[Object(Semaphore), Limit], // twai_sem
    &[Object(Flag), Pattern], // set_flg
    &[Object(Flag), Pattern], // clr_flg
    &[Object(Flag), Pattern, Mode, Out], // wai_flg
    &[Object(Flag), Pattern, Mode, Out], // pol_flg
    &[Object(Flag), Pattern, Mode, Out, Limit], // twai_flg
    &[Object(DataQueue), Number], // snd_dtq
    &[Object(DataQueue), Number], // psnd_dtq
    &[Object(DataQueue), Number, Limit], // tsnd_dtq
    &[Object(DataQueue), Number], // fsnd_dtq
    &[Object(DataQueue), Out], // rcv_dtq
    &[Object(DataQueue), Out], // prcv_dtq
    &[Object(DataQueue), Out, Limit], // trcv_dtq
    &[Object(Mailbox), Object(Message)], // snd_mbx
    &[Object(Mailbox), Out], // rcv_mbx
    &[Object(Mailbox), Out], // prcv_mbx
    &[Object(Mailbox), Out, Limit], // trcv_mbx
    &[Object(Cyclic)], // sta_cyc
    &[Object(Cyclic)], // stp_cyc
    &[Priority], // rot_rdq
    &[Out], // get_tid
    &[], // loc_cpu
    &[], // unl_cpu
    &[], // dis_dsp
    &[], // ena_dsp
    &[Object(SpinLock)], // loc_spn
    &[Object(SpinLock)], // try_spn
    &[Object(SpinLock)], // unl_spn
    &[Object(Task)], // iact_tsk
    &[Object(Task)], // iwup_tsk
    &[Object(Task)], // irel_wai
    &[Object(Semaphore)], // isig_sem
    &[Object(Flag), Pattern], // iset_flg
    &[Object(DataQueue), Number], // ipsnd_dtq
    &[Object(DataQueue), Number], // ifsnd_dtq
    &[Priority], // irot_rdq
    &[Priority, Processor], // mrot_rdq
];

impl Service {
    /// What a text writes between the parentheses of the call, in order.
    pub fn parameters(self) -> &'static [Parameter]
        ensures { result.now ≡ parameters_of self }
    {
        PARAMETERS[self as usize]
    }

    /// How many arguments the call passes to the kernel, 0 to 4: its parameters except the out place.
    #[inline(always)]
    pub fn arity(self) -> u8
        ensures { result ≡ arity_of self }
    {
        match self {
            Service::ExtTsk
            | Service::SlpTsk
            | Service::GetTid
            | Service::LocCpu
            | Service::UnlCpu
            | Service::DisDsp
            | Service::EnaDsp => 0,
            Service::Put
            | Service::LdShr
            | Service::ActTsk
            | Service::CanAct
            | Service::TerTsk
            | Service::GetPri
            | Service::TslpTsk
            | Service::WupTsk
            | Service::CanWup
            | Service::RelWai
            | Service::SusTsk
            | Service::RsmTsk
            | Service::DlyTsk
            | Service::SigSem
            | Service::WaiSem
            | Service::PolSem
            | Service::RcvDtq
            | Service::PrcvDtq
            | Service::RcvMbx
            | Service::PrcvMbx
            | Service::StaCyc
            | Service::StpCyc
            | Service::RotRdq
            | Service::LocSpn
            | Service::TrySpn
            | Service::UnlSpn
            | Service::IactTsk
            | Service::IwupTsk
            | Service::IrelWai
            | Service::IsigSem
            | Service::IrotRdq => 1,
            Service::StShr
            | Service::ChgPri
            | Service::MactTsk
            | Service::MigTsk
            | Service::TwaiSem
            | Service::SetFlg
            | Service::ClrFlg
            | Service::SndDtq
            | Service::PsndDtq
            | Service::FsndDtq
            | Service::TrcvDtq
            | Service::SndMbx
            | Service::TrcvMbx
            | Service::IsetFlg
            | Service::IpsndDtq
            | Service::IfsndDtq
            | Service::MrotRdq => 2,
            Service::WaiFlg | Service::PolFlg | Service::TsndDtq => 3,
            Service::TwaiFlg => 4,
        }
    }

    /// Among the parameters the place of `&` and a variable, from 0, if the call has one.
    #[inline]
    pub fn out_place(self) -> Option<u8>
        ensures { result ≡ out_place_of self }
    {
        match self {
            Service::LdShr
            | Service::GetPri
            | Service::RcvDtq
            | Service::PrcvDtq
            | Service::TrcvDtq
            | Service::RcvMbx
            | Service::PrcvMbx
            | Service::TrcvMbx => Some(1),
            Service::WaiFlg | Service::PolFlg | Service::TwaiFlg => Some(3),
            Service::GetTid => Some(0),
            _ => None,
        }
    }

    /// Whether the variable before `=` receives the value in place of E_OK: the count of what was cancelled.
    #[inline]
    pub fn gives_count(self) -> bool
        ensures { result ≡ does_give_count self }
    {
        matches!(self, Service::CanAct | Service::CanWup)
    }

    /// From where the service may be called.
    pub fn permission(self) -> Permission
        ensures { result ≡ permission_of self }
    {
        match self {
            Service::Put | Service::LdShr | Service::StShr => Permission::Anywhere,
            Service::ExtTsk | Service::LocCpu | Service::UnlCpu | Service::UnlSpn =>
                Permission::LockedTasks,
            Service::ActTsk
            | Service::CanAct
            | Service::TerTsk
            | Service::ChgPri
            | Service::GetPri
            | Service::MactTsk
            | Service::WupTsk
            | Service::CanWup
            | Service::RelWai
            | Service::RsmTsk => Permission::Tasks,
            Service::SigSem
            | Service::PolSem
            | Service::SetFlg
            | Service::ClrFlg
            | Service::PolFlg
            | Service::PsndDtq
            | Service::FsndDtq
            | Service::PrcvDtq
            | Service::SndMbx
            | Service::PrcvMbx => Permission::Tasks,
            Service::StaCyc
            | Service::StpCyc
            | Service::RotRdq
            | Service::MrotRdq
            | Service::GetTid
            | Service::DisDsp
            | Service::EnaDsp
            | Service::LocSpn
            | Service::TrySpn => Permission::Tasks,
            Service::MigTsk | Service::SusTsk => Permission::TasksOnOthers,
            Service::SlpTsk
            | Service::TslpTsk
            | Service::DlyTsk
            | Service::WaiSem
            | Service::TwaiSem
            | Service::WaiFlg
            | Service::TwaiFlg
            | Service::SndDtq
            | Service::TsndDtq
            | Service::RcvDtq
            | Service::TrcvDtq
            | Service::RcvMbx
            | Service::TrcvMbx => Permission::WaitingTasks,
            Service::IactTsk
            | Service::IwupTsk
            | Service::IrelWai
            | Service::IsigSem
            | Service::IsetFlg
            | Service::IpsndDtq
            | Service::IfsndDtq
            | Service::IrotRdq => Permission::Handlers,
        }
    }

    /// What the call does to what its first argument names, if anything.
    pub fn action(self) -> Option<Action>
        ensures { result ≡ action_of self }
    {
        match self {
            Service::ActTsk | Service::MactTsk | Service::IactTsk => Some(Action::Activates),
            Service::TerTsk | Service::ChgPri | Service::SusTsk | Service::RsmTsk => Some(
                Action::Changes,
            ),
            Service::MigTsk => Some(Action::Migrates),
            Service::WupTsk | Service::IwupTsk => Some(Action::WakesUp),
            Service::SigSem
            | Service::SetFlg
            | Service::SndDtq
            | Service::PsndDtq
            | Service::TsndDtq
            | Service::FsndDtq
            | Service::SndMbx
            | Service::IsigSem
            | Service::IsetFlg
            | Service::IpsndDtq
            | Service::IfsndDtq => Some(Action::Gives),
            Service::WaiSem
            | Service::PolSem
            | Service::TwaiSem
            | Service::WaiFlg
            | Service::PolFlg
            | Service::TwaiFlg
            | Service::RcvDtq
            | Service::PrcvDtq
            | Service::TrcvDtq
            | Service::RcvMbx
            | Service::PrcvMbx
            | Service::TrcvMbx => Some(Action::Takes),
            _ => None,
        }
    }

    /// The call that does the same from the other side: from handlers if this one is for tasks, from tasks if it is for
    /// handlers.
    pub fn counterpart(self) -> Option<Service>
        ensures { result ≡ counterpart_of self }
    {
        match self {
            Service::ActTsk => Some(Service::IactTsk),
            Service::WupTsk => Some(Service::IwupTsk),
            Service::RelWai => Some(Service::IrelWai),
            Service::SigSem => Some(Service::IsigSem),
            Service::SetFlg => Some(Service::IsetFlg),
            Service::PsndDtq => Some(Service::IpsndDtq),
            Service::FsndDtq => Some(Service::IfsndDtq),
            Service::RotRdq => Some(Service::IrotRdq),
            Service::IactTsk => Some(Service::ActTsk),
            Service::IwupTsk => Some(Service::WupTsk),
            Service::IrelWai => Some(Service::RelWai),
            Service::IsigSem => Some(Service::SigSem),
            Service::IsetFlg => Some(Service::SetFlg),
            Service::IpsndDtq => Some(Service::PsndDtq),
            Service::IfsndDtq => Some(Service::FsndDtq),
            Service::IrotRdq => Some(Service::RotRdq),
            _ => None,
        }
    }
}
