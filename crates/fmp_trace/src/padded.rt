//! Words of the trace, each at the front of an array of a known size, so that one copy puts it into a line. The last
//! byte of the array tells how long the word is, and the bytes between mean nothing.
ghost use Rattle.std.specs.Prelude.{◌≡◌, ◌≤◌, ◌++◌, codes, get_or, take};
ghost use Rattle.fmp_base.specs.Codes.{code_name};
ghost use Rattle.fmp_base.specs.Services.{service_name};

use fmp_base::{Er, Service};

/// The beginning of a service call: a blank, its name and the opening parenthesis.
#[inline(always)]
pub fn opening(service: Service) -> &'static [u8; 16]
    ensures text { take (get_or result.now 15 0) result.now ≡ codes " " ++ (service_name service ++ codes "(") }
    ensures short { get_or result.now 15 0 ≤ 11 }
{
    match service {
        Service::Put => b" put(          \x05",
        Service::LdShr => b" ld_shr(       \x08",
        Service::StShr => b" st_shr(       \x08",
        Service::ActTsk => b" act_tsk(      \x09",
        Service::CanAct => b" can_act(      \x09",
        Service::ExtTsk => b" ext_tsk(      \x09",
        Service::TerTsk => b" ter_tsk(      \x09",
        Service::ChgPri => b" chg_pri(      \x09",
        Service::GetPri => b" get_pri(      \x09",
        Service::MactTsk => b" mact_tsk(     \x0a",
        Service::MigTsk => b" mig_tsk(      \x09",
        Service::SlpTsk => b" slp_tsk(      \x09",
        Service::TslpTsk => b" tslp_tsk(     \x0a",
        Service::WupTsk => b" wup_tsk(      \x09",
        Service::CanWup => b" can_wup(      \x09",
        Service::RelWai => b" rel_wai(      \x09",
        Service::SusTsk => b" sus_tsk(      \x09",
        Service::RsmTsk => b" rsm_tsk(      \x09",
        Service::DlyTsk => b" dly_tsk(      \x09",
        Service::SigSem => b" sig_sem(      \x09",
        Service::WaiSem => b" wai_sem(      \x09",
        Service::PolSem => b" pol_sem(      \x09",
        Service::TwaiSem => b" twai_sem(     \x0a",
        Service::SetFlg => b" set_flg(      \x09",
        Service::ClrFlg => b" clr_flg(      \x09",
        Service::WaiFlg => b" wai_flg(      \x09",
        Service::PolFlg => b" pol_flg(      \x09",
        Service::TwaiFlg => b" twai_flg(     \x0a",
        Service::SndDtq => b" snd_dtq(      \x09",
        Service::PsndDtq => b" psnd_dtq(     \x0a",
        Service::TsndDtq => b" tsnd_dtq(     \x0a",
        Service::FsndDtq => b" fsnd_dtq(     \x0a",
        Service::RcvDtq => b" rcv_dtq(      \x09",
        Service::PrcvDtq => b" prcv_dtq(     \x0a",
        Service::TrcvDtq => b" trcv_dtq(     \x0a",
        Service::SndMbx => b" snd_mbx(      \x09",
        Service::RcvMbx => b" rcv_mbx(      \x09",
        Service::PrcvMbx => b" prcv_mbx(     \x0a",
        Service::TrcvMbx => b" trcv_mbx(     \x0a",
        Service::StaCyc => b" sta_cyc(      \x09",
        Service::StpCyc => b" stp_cyc(      \x09",
        Service::RotRdq => b" rot_rdq(      \x09",
        Service::GetTid => b" get_tid(      \x09",
        Service::LocCpu => b" loc_cpu(      \x09",
        Service::UnlCpu => b" unl_cpu(      \x09",
        Service::DisDsp => b" dis_dsp(      \x09",
        Service::EnaDsp => b" ena_dsp(      \x09",
        Service::LocSpn => b" loc_spn(      \x09",
        Service::TrySpn => b" try_spn(      \x09",
        Service::UnlSpn => b" unl_spn(      \x09",
        Service::IactTsk => b" iact_tsk(     \x0a",
        Service::IwupTsk => b" iwup_tsk(     \x0a",
        Service::IrelWai => b" irel_wai(     \x0a",
        Service::IsigSem => b" isig_sem(     \x0a",
        Service::IsetFlg => b" iset_flg(     \x0a",
        Service::IpsndDtq => b" ipsnd_dtq(    \x0b",
        Service::IfsndDtq => b" ifsnd_dtq(    \x0b",
        Service::IrotRdq => b" irot_rdq(     \x0a",
        Service::MrotRdq => b" mrot_rdq(     \x0a",
    }
}

/// The name of a code.
#[inline(always)]
pub fn code_word(code: Er) -> [u8; 8]
    ensures text { take (get_or result 7 0) result ≡ code_name code }
    ensures short { get_or result 7 0 ≤ 7 }
{
    match code {
        Er::Ok => *b"E_OK   \x04",
        Er::Sys => *b"E_SYS  \x05",
        Er::Nospt => *b"E_NOSPT\x07",
        Er::Rsatr => *b"E_RSATR\x07",
        Er::Par => *b"E_PAR  \x05",
        Er::Id => *b"E_ID   \x04",
        Er::Ctx => *b"E_CTX  \x05",
        Er::Iluse => *b"E_ILUSE\x07",
        Er::Obj => *b"E_OBJ  \x05",
        Er::Qovr => *b"E_QOVR \x06",
        Er::Rlwai => *b"E_RLWAI\x07",
        Er::Tmout => *b"E_TMOUT\x07",
    }
}
