//! The words by the byte that they begin with.
ghost use Rattle.std.specs.Prelude.{◌≡◌};
ghost use Rattle.std.specs.List.{filter};
ghost use Rattle.fmp_base.specs.Services.{service_name};
ghost use Rattle.fmp_base.specs.Words.{begins_with, constant_name, api_name, keyword_name};
ghost use Rattle.fmp_base.specs.declared.words.TheConstants.{CONSTANTS, APIS, KEYWORDS};
ghost use Rattle.fmp_base.specs.declared.services.TheConstants.{SERVICES};

use crate::services::Service;
use crate::words::{APIS, Api, CONSTANTS, Constant, Keyword};

/// The constants whose names begin with a byte: the error codes, or the others.
pub(crate) fn constants_from(initial: u8) -> &'static [Constant]
    ensures { result.now ≡ filter (λ constant. begins_with initial (constant_name constant)) CONSTANTS }
{
    match initial {
        b'E' => &CONSTANTS[..12],
        b'T' => &CONSTANTS[12..],
        _ => &[],
    }
}

/// The APIs whose names begin with a byte.
pub(crate) fn apis_from(initial: u8) -> &'static [Api]
    ensures { result.now ≡ filter (λ api. begins_with initial (api_name api)) APIS }
{
    match initial {
        b'C' => &APIS[..9],
        b'D' => &APIS[9..],
        _ => &[],
    }
}

/// The keywords that begin with a byte.
pub(crate) fn keywords_from(initial: u8) -> &'static [Keyword]
    ensures { result.now ≡ filter (λ keyword. begins_with initial (keyword_name keyword)) KEYWORDS }
{
    match initial {
        b'C' => &[Keyword::Class],
        b'N' => &[Keyword::NumPrc, Keyword::Null],
        b'b' => &[Keyword::Break],
        b'c' => &[Keyword::Continue],
        b'e' => &[Keyword::Else],
        b'h' => &[Keyword::Handler],
        b'i' => &[Keyword::If],
        b'r' => &[Keyword::Return],
        b't' => &[Keyword::Task],
        b'v' => &[Keyword::Var],
        b'w' => &[Keyword::While],
        _ => &[],
    }
}

/// The service calls whose names begin with a byte, in order of their function codes.
pub(crate) fn services_from(initial: u8) -> &'static [Service]
    ensures { result.now ≡ filter (λ service. begins_with initial (service_name service)) SERVICES }
{
    match initial {
        b'a' => &[Service::ActTsk],
        b'c' => &[
            Service::CanAct,
            Service::ChgPri,
            Service::CanWup,
            Service::ClrFlg,
        ],
        b'd' => &[Service::DlyTsk, Service::DisDsp],
        b'e' => &[Service::ExtTsk, Service::EnaDsp],
        b'f' => &[Service::FsndDtq],
        b'g' => &[Service::GetPri, Service::GetTid],
        b'i' => &[
            Service::IactTsk,
            Service::IwupTsk,
            Service::IrelWai,
            Service::IsigSem,
            Service::IsetFlg,
            Service::IpsndDtq,
            Service::IfsndDtq,
            Service::IrotRdq,
        ],
        b'l' => &[Service::LdShr, Service::LocCpu, Service::LocSpn],
        b'm' => &[Service::MactTsk, Service::MigTsk, Service::MrotRdq],
        b'p' => &[
            Service::Put,
            Service::PolSem,
            Service::PolFlg,
            Service::PsndDtq,
            Service::PrcvDtq,
            Service::PrcvMbx,
        ],
        b'r' => &[
            Service::RelWai,
            Service::RsmTsk,
            Service::RcvDtq,
            Service::RcvMbx,
            Service::RotRdq,
        ],
        b's' => &[
            Service::StShr,
            Service::SlpTsk,
            Service::SusTsk,
            Service::SigSem,
            Service::SetFlg,
            Service::SndDtq,
            Service::SndMbx,
            Service::StaCyc,
            Service::StpCyc,
        ],
        b't' => &[
            Service::TerTsk,
            Service::TslpTsk,
            Service::TwaiSem,
            Service::TwaiFlg,
            Service::TsndDtq,
            Service::TrcvDtq,
            Service::TrcvMbx,
            Service::TrySpn,
        ],
        b'u' => &[Service::UnlCpu, Service::UnlSpn],
        b'w' => &[Service::WupTsk, Service::WaiSem, Service::WaiFlg],
        _ => &[],
    }
}
