//! The service calls: function codes and names.
ghost use Rattle.std.specs.Prelude.{◌≡◌, codes};
ghost use Rattle.fmp_base.specs.Services.{service_number, service_name};

/// A service call without its arguments: its function code.
///
/// The calls are those of the uITRON 4.0 specification, chapter 4, and of the FMP kernel; `Put`,
/// `LdShr` and `StShr` are this kernel's own. The section of each stands at [`Call`](crate::Call).
#[derive(Clone, Copy, PartialEq, Eq)]
pub enum Service {
    /// `put`.
    Put,
    /// `ld_shr`.
    LdShr,
    /// `st_shr`.
    StShr,
    /// `act_tsk`.
    ActTsk,
    /// `can_act`.
    CanAct,
    /// `ext_tsk`.
    ExtTsk,
    /// `ter_tsk`.
    TerTsk,
    /// `chg_pri`.
    ChgPri,
    /// `get_pri`.
    GetPri,
    /// `mact_tsk`.
    MactTsk,
    /// `mig_tsk`.
    MigTsk,
    /// `slp_tsk`.
    SlpTsk,
    /// `tslp_tsk`.
    TslpTsk,
    /// `wup_tsk`.
    WupTsk,
    /// `can_wup`.
    CanWup,
    /// `rel_wai`.
    RelWai,
    /// `sus_tsk`.
    SusTsk,
    /// `rsm_tsk`.
    RsmTsk,
    /// `dly_tsk`.
    DlyTsk,
    /// `sig_sem`.
    SigSem,
    /// `wai_sem`.
    WaiSem,
    /// `pol_sem`.
    PolSem,
    /// `twai_sem`.
    TwaiSem,
    /// `set_flg`.
    SetFlg,
    /// `clr_flg`.
    ClrFlg,
    /// `wai_flg`.
    WaiFlg,
    /// `pol_flg`.
    PolFlg,
    /// `twai_flg`.
    TwaiFlg,
    /// `snd_dtq`.
    SndDtq,
    /// `psnd_dtq`.
    PsndDtq,
    /// `tsnd_dtq`.
    TsndDtq,
    /// `fsnd_dtq`.
    FsndDtq,
    /// `rcv_dtq`.
    RcvDtq,
    /// `prcv_dtq`.
    PrcvDtq,
    /// `trcv_dtq`.
    TrcvDtq,
    /// `snd_mbx`.
    SndMbx,
    /// `rcv_mbx`.
    RcvMbx,
    /// `prcv_mbx`.
    PrcvMbx,
    /// `trcv_mbx`.
    TrcvMbx,
    /// `sta_cyc`.
    StaCyc,
    /// `stp_cyc`.
    StpCyc,
    /// `rot_rdq`.
    RotRdq,
    /// `get_tid`.
    GetTid,
    /// `loc_cpu`.
    LocCpu,
    /// `unl_cpu`.
    UnlCpu,
    /// `dis_dsp`.
    DisDsp,
    /// `ena_dsp`.
    EnaDsp,
    /// `loc_spn`.
    LocSpn,
    /// `try_spn`.
    TrySpn,
    /// `unl_spn`.
    UnlSpn,
    /// `iact_tsk`.
    IactTsk,
    /// `iwup_tsk`.
    IwupTsk,
    /// `irel_wai`.
    IrelWai,
    /// `isig_sem`.
    IsigSem,
    /// `iset_flg`.
    IsetFlg,
    /// `ipsnd_dtq`.
    IpsndDtq,
    /// `ifsnd_dtq`.
    IfsndDtq,
    /// `irot_rdq`.
    IrotRdq,
    /// `mrot_rdq`.
    MrotRdq,
}

/// The service calls, in order of their function codes.
pub const SERVICES: [Service; 59] = [
    Service::Put,
    Service::LdShr,
    Service::StShr,
    Service::ActTsk,
    Service::CanAct,
    Service::ExtTsk,
    Service::TerTsk,
    Service::ChgPri,
    Service::GetPri,
    Service::MactTsk,
    Service::MigTsk,
    Service::SlpTsk,
    Service::TslpTsk,
    Service::WupTsk,
    Service::CanWup,
    Service::RelWai,
    Service::SusTsk,
    Service::RsmTsk,
    Service::DlyTsk,
    Service::SigSem,
    Service::WaiSem,
    Service::PolSem,
    Service::TwaiSem,
    Service::SetFlg,
    Service::ClrFlg,
    Service::WaiFlg,
    Service::PolFlg,
    Service::TwaiFlg,
    Service::SndDtq,
    Service::PsndDtq,
    Service::TsndDtq,
    Service::FsndDtq,
    Service::RcvDtq,
    Service::PrcvDtq,
    Service::TrcvDtq,
    Service::SndMbx,
    Service::RcvMbx,
    Service::PrcvMbx,
    Service::TrcvMbx,
    Service::StaCyc,
    Service::StpCyc,
    Service::RotRdq,
    Service::GetTid,
    Service::LocCpu,
    Service::UnlCpu,
    Service::DisDsp,
    Service::EnaDsp,
    Service::LocSpn,
    Service::TrySpn,
    Service::UnlSpn,
    Service::IactTsk,
    Service::IwupTsk,
    Service::IrelWai,
    Service::IsigSem,
    Service::IsetFlg,
    Service::IpsndDtq,
    Service::IfsndDtq,
    Service::IrotRdq,
    Service::MrotRdq,
];

/// The names of the calls, in order of their function codes.
static NAMES: [&str; 59] = [
    "put",
    "ld_shr",
    "st_shr",
    "act_tsk",
    "can_act",
    "ext_tsk",
    "ter_tsk",
    "chg_pri",
    "get_pri",
    "mact_tsk",
    "mig_tsk",
    "slp_tsk",
    "tslp_tsk",
    "wup_tsk",
    "can_wup",
    "rel_wai",
    "sus_tsk",
    "rsm_tsk",
    "dly_tsk",
    "sig_sem",
    "wai_sem",
    "pol_sem",
    "twai_sem",
    "set_flg",
    "clr_flg",
    "wai_flg",
    "pol_flg",
    "twai_flg",
    "snd_dtq",
    "psnd_dtq",
    "tsnd_dtq",
    "fsnd_dtq",
    "rcv_dtq",
    "prcv_dtq",
    "trcv_dtq",
    "snd_mbx",
    "rcv_mbx",
    "prcv_mbx",
    "trcv_mbx",
    "sta_cyc",
    "stp_cyc",
    "rot_rdq",
    "get_tid",
    "loc_cpu",
    "unl_cpu",
    "dis_dsp",
    "ena_dsp",
    "loc_spn",
    "try_spn",
    "unl_spn",
    "iact_tsk",
    "iwup_tsk",
    "irel_wai",
    "isig_sem",
    "iset_flg",
    "ipsnd_dtq",
    "ifsnd_dtq",
    "irot_rdq",
    "mrot_rdq",
];

impl Service {
    /// The function code, 1 to 59.
    pub fn number(self) -> u8
        ensures { result ≡ service_number self }
    {
        self as u8 + 1
    }

    /// The name of the call, as both texts and the trace write it.
    pub fn name(self) -> &'static str
        ensures { result.now ≡ service_name self }
    {
        NAMES[self as usize]
    }
}
