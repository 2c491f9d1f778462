//! The service calls in groups.
ghost use Rattle.std.specs.Prelude.{◌≡◌};
ghost use Rattle.fmp_kernel.specs.Groups.{group_of};

use fmp_base::Service;

/// The group in which a service call is carried out.
#[derive(Clone, Copy)]
pub enum ServiceGroup {
    /// This kernel's own calls.
    Own,
    /// The management of tasks.
    Management,
    /// Sleep, wakeup, suspension and delay of tasks.
    Synchronization,
    /// Semaphores and eventflags.
    Objects,
    /// Data queues and mailboxes.
    Queues,
    /// Cyclic handlers and the state of the processor.
    Processors,
    /// The calls for handlers.
    Handlers,
}

/// The group of a service call.
#[inline(always)]
pub fn group(service: Service) -> ServiceGroup
    ensures { result ≡ group_of service }
{
    match service {
        Service::Put | Service::LdShr | Service::StShr => ServiceGroup::Own,
        Service::ActTsk
        | Service::CanAct
        | Service::ExtTsk
        | Service::TerTsk
        | Service::ChgPri
        | Service::GetPri
        | Service::MactTsk
        | Service::MigTsk
        | Service::RotRdq
        | Service::MrotRdq
        | Service::GetTid => ServiceGroup::Management,
        Service::SlpTsk
        | Service::TslpTsk
        | Service::WupTsk
        | Service::CanWup
        | Service::RelWai
        | Service::SusTsk
        | Service::RsmTsk
        | Service::DlyTsk => ServiceGroup::Synchronization,
        Service::SigSem
        | Service::WaiSem
        | Service::PolSem
        | Service::TwaiSem
        | Service::SetFlg
        | Service::ClrFlg
        | Service::WaiFlg
        | Service::PolFlg
        | Service::TwaiFlg => ServiceGroup::Objects,
        Service::SndDtq
        | Service::PsndDtq
        | Service::TsndDtq
        | Service::FsndDtq
        | Service::RcvDtq
        | Service::PrcvDtq
        | Service::TrcvDtq
        | Service::SndMbx
        | Service::RcvMbx
        | Service::PrcvMbx
        | Service::TrcvMbx => ServiceGroup::Queues,
        Service::StaCyc
        | Service::StpCyc
        | Service::LocCpu
        | Service::UnlCpu
        | Service::DisDsp
        | Service::EnaDsp
        | Service::LocSpn
        | Service::TrySpn
        | Service::UnlSpn => ServiceGroup::Processors,
        Service::IactTsk
        | Service::IwupTsk
        | Service::IrelWai
        | Service::IsigSem
        | Service::IsetFlg
        | Service::IpsndDtq
        | Service::IfsndDtq
        | Service::IrotRdq => ServiceGroup::Handlers,
    }
}
