//! The forms of the service calls: which parts each one has.
ghost use Rattle.std.specs.Prelude.{◌≡◌};
ghost use Rattle.fmp_tasklang.specs.Calls.{call_parts};

use fmp_base::Service;
use fmp_lex::Mark;

/// A part of the form of a call. A token that continues an expression is never the mark after it.
#[derive(Clone, Copy)]
pub enum CallPart {
    Mark(Mark),
    /// An argument, and the mark after it.
    Value(Mark),
    /// `&` and the variable at the out place, and the mark after it.
    Out(Mark),
}

const NOTHING: [CallPart; 2] = [
    CallPart::Mark(Mark::LeftParen),
    CallPart::Mark(Mark::RightParen),
];

const ONE_VALUE: [CallPart; 2] = [
    CallPart::Mark(Mark::LeftParen),
    CallPart::Value(Mark::RightParen),
];

const TWO_VALUES: [CallPart; 3] = [
    CallPart::Mark(Mark::LeftParen),
    CallPart::Value(Mark::Comma),
    CallPart::Value(Mark::RightParen),
];

const THREE_VALUES: [CallPart; 4] = [
    CallPart::Mark(Mark::LeftParen),
    CallPart::Value(Mark::Comma),
    CallPart::Value(Mark::Comma),
    CallPart::Value(Mark::RightParen),
];

const OUT: [CallPart; 2] = [
    CallPart::Mark(Mark::LeftParen),
    CallPart::Out(Mark::RightParen),
];

const VALUE_AND_OUT: [CallPart; 3] = [
    CallPart::Mark(Mark::LeftParen),
    CallPart::Value(Mark::Comma),
    CallPart::Out(Mark::RightParen),
];

const VALUE_OUT_AND_LIMIT: [CallPart; 4] = [
    CallPart::Mark(Mark::LeftParen),
    CallPart::Value(Mark::Comma),
    CallPart::Out(Mark::Comma),
    CallPart::Value(Mark::RightParen),
];

const THREE_VALUES_AND_OUT: [CallPart; 5] = [
    CallPart::Mark(Mark::LeftParen),
    CallPart::Value(Mark::Comma),
    CallPart::Value(Mark::Comma),
    CallPart::Value(Mark::Comma),
    CallPart::Out(Mark::RightParen),
];

const THREE_VALUES_OUT_AND_LIMIT: [CallPart; 6] = [
    CallPart::Mark(Mark::LeftParen),
    CallPart::Value(Mark::Comma),
    CallPart::Value(Mark::Comma),
    CallPart::Value(Mark::Comma),
    CallPart::Out(Mark::Comma),
    CallPart::Value(Mark::RightParen),
];

/// The form of a call after its name.
pub fn parts_of(service: Service) -> &'static [CallPart]
    ensures { result.now ≡ call_parts service }
{
    match service {
        Service::ExtTsk
        | Service::SlpTsk
        | Service::LocCpu
        | Service::UnlCpu
        | Service::DisDsp
        | Service::EnaDsp => &NOTHING,
        Service::GetTid => &OUT,
        Service::LdShr
        | Service::GetPri
        | Service::RcvDtq
        | Service::PrcvDtq
        | Service::RcvMbx
        | Service::PrcvMbx => &VALUE_AND_OUT,
        Service::TrcvDtq | Service::TrcvMbx => &VALUE_OUT_AND_LIMIT,
        Service::WaiFlg | Service::PolFlg => &THREE_VALUES_AND_OUT,
        Service::TwaiFlg => &THREE_VALUES_OUT_AND_LIMIT,
        Service::TsndDtq => &THREE_VALUES,
        Service::StShr
        | Service::ChgPri
        | Service::MactTsk
        | Service::MigTsk
        | Service::TwaiSem
        | Service::SetFlg
        | Service::ClrFlg
        | Service::SndDtq
        | Service::PsndDtq
        | Service::FsndDtq
        | Service::SndMbx
        | Service::IsetFlg
        | Service::IpsndDtq
        | Service::IfsndDtq
        | Service::MrotRdq => &TWO_VALUES,
        Service::Put
        | Service::ActTsk
        | Service::CanAct
        | Service::TerTsk
        | Service::TslpTsk
        | Service::WupTsk
        | Service::CanWup
        | Service::RelWai
        | Service::SusTsk
        | Service::RsmTsk
        | Service::DlyTsk
        | Service::SigSem
        | Service::WaiSem
        | Service::PolSem
        | Service::StaCyc
        | Service::StpCyc
        | Service::RotRdq
        | Service::LocSpn
        | Service::TrySpn
        | Service::UnlSpn
        | Service::IactTsk
        | Service::IwupTsk
        | Service::IrelWai
        | Service::IsigSem
        | Service::IrotRdq => &ONE_VALUE,
    }
}
