//! Words of uITRON, TOPPERS and C that the texts leave out on purpose.
ghost use Rattle.std.specs.Prelude.{◌<◌, length, IfSome, OnOk};
ghost use Rattle.fmp_base.specs.Names.{name_text};
ghost use Rattle.fmp_diagnosis.specs.Words.{IsSaid, IsSaidFirst, quoted};

use crate::words::{Word, say_of};
use fmp_base::Name;
use std::alloc::AllocError;

/// What is left out.
#[derive(Clone, Copy)]
enum LeftOut {
    Alarms,
    Mutexes,
    MessageBuffers,
    Rendezvous,
    MemoryPools,
    PriorityQueues,
    TaskExceptions,
    Overruns,
    ServiceRoutines,
    InterruptLevels,
    CpuExceptions,
    Routines,
    ClockCalls,
    Processors,
    CountedSuspensions,
    LocksOfHandlers,
    Printing,
    Delays,
    Loops,
    Choices,
    Jumps,
    Types,
}

/// All of it.
const LEFT_OUT: [LeftOut; 22] = [
    LeftOut::Alarms,
    LeftOut::Mutexes,
    LeftOut::MessageBuffers,
    LeftOut::Rendezvous,
    LeftOut::MemoryPools,
    LeftOut::PriorityQueues,
    LeftOut::TaskExceptions,
    LeftOut::Overruns,
    LeftOut::ServiceRoutines,
    LeftOut::InterruptLevels,
    LeftOut::CpuExceptions,
    LeftOut::Routines,
    LeftOut::ClockCalls,
    LeftOut::Processors,
    LeftOut::CountedSuspensions,
    LeftOut::LocksOfHandlers,
    LeftOut::Printing,
    LeftOut::Delays,
    LeftOut::Loops,
    LeftOut::Choices,
    LeftOut::Jumps,
    LeftOut::Types,
];

/// The words of each, in order.
static WORDS: [&[&str]; 22] = [
    &["CRE_ALM", "sta_alm", "stp_alm", "ista_alm", "istp_alm"],
    &["CRE_MTX", "loc_mtx", "ploc_mtx", "tloc_mtx", "unl_mtx"],
    &[
        "CRE_MBF", "snd_mbf", "psnd_mbf", "tsnd_mbf", "rcv_mbf", "prcv_mbf", "trcv_mbf",
    ],
    &[
        "CRE_POR", "cal_por", "tcal_por", "acp_por", "pacp_por", "tacp_por", "fwd_por", "rpl_rdv",
    ],
    &[
        "CRE_MPF", "get_mpf", "pget_mpf", "tget_mpf", "rel_mpf", "CRE_MPL", "get_mpl", "pget_mpl",
        "tget_mpl", "rel_mpl",
    ],
    &[
        "CRE_PDQ",
        "snd_pdq",
        "psnd_pdq",
        "ipsnd_pdq",
        "tsnd_pdq",
        "rcv_pdq",
        "prcv_pdq",
        "trcv_pdq",
    ],
    &["DEF_TEX", "ras_tex", "iras_tex", "dis_tex", "ena_tex"],
    &["DEF_OVR", "sta_ovr", "stp_ovr", "ista_ovr", "istp_ovr"],
    &["DEF_SVC", "cal_svc"],
    &[
        "CFG_INT", "ATT_ISR", "CRE_ISR", "DEF_ICS", "dis_int", "ena_int", "clr_int", "ras_int",
        "prb_int", "chg_ipm", "get_ipm",
    ],
    &["DEF_EXC"],
    &["ATT_INI", "ATT_TER"],
    &["get_tim", "set_tim", "adj_tim", "fch_hrt", "get_utm"],
    &["get_pid"],
    &["frsm_tsk"],
    &["iloc_cpu", "iunl_cpu"],
    &[
        "syslog", "printf", "fprintf", "print", "println", "puts", "putchar",
    ],
    &[
        "sleep",
        "usleep",
        "msleep",
        "nanosleep",
        "vTaskDelay",
        "osDelay",
        "k_sleep",
        "k_msleep",
    ],
    &["for", "foreach", "do", "loop", "until", "repeat"],
    &["switch", "case", "elif", "elseif", "elsif"],
    &["goto"],
    &[
        "int", "char", "short", "long", "unsigned", "signed", "float", "double", "bool", "void",
        "const", "static", "struct", "volatile", "extern", "enum", "union", "typedef", "int8_t",
        "int16_t", "int32_t", "uint8_t", "uint16_t", "uint32_t", "int_t", "uint_t", "bool_t",
        "intptr_t", "size_t", "let", "auto", "ER", "ER_ID", "ER_UINT", "ID", "PRI", "TMO",
        "RELTIM", "SYSTIM", "HRTCNT", "FLGPTN", "MODE", "ATR", "INTNO", "T_MSG",
    ],
];

/// What there is in the place of each, in order.
static SAID: [&str; 22] = [
    "there are no alarm handlers",
    "there are no mutexes; a semaphore with one count excludes too",
    "there are no message buffers",
    "there are no rendezvous",
    "there are no memory pools",
    "there are no priority data queues",
    "there are no task exceptions",
    "there are no overrun handlers",
    "there are no service call routines",
    "interrupts have no masks or levels, and `DEF_INH` defines a handler",
    "there are no CPU exceptions",
    "nothing but handlers and tasks runs",
    "no call reads or sets the clock",
    "no call tells the processor",
    "a suspension is ended by `rsm_tsk`",
    "no handler locks the CPU",
    "`put` prints a number, and nothing prints a text",
    "`dly_tsk` waits for a number of ticks",
    "the only loop is `while`",
    "the only choice is `if`, with or without `else`",
    "the only jumps are `break`, `continue` and `return`",
    "all values are 32-bit numbers, and `var` declares a variable",
];

impl LeftOut {
    /// Its words.
    fn words(self) -> &'static [&'static str] {
        WORDS[self as usize]
    }

    /// What there is in its place, or that there is nothing.
    fn said(self) -> &'static str
        ensures { 0 < length result.now }
    {
        SAID[self as usize]
    }

    /// Whether this is one of its words.
    fn has(self, word: &[u8]) -> bool {
        self.words().iter().any(|one| one.as_bytes() == word)
    }
}

/// Whether a name is a type of C.
pub fn is_type(name: &Name) -> bool {
    LeftOut::Types.has(name.as_bytes())
}

/// Why a name is no word of the texts, where it is left out on purpose.
pub fn why_left_out(name: &Name) -> Option<&'static str>
    ensures { IfSome result (λ text. 0 < length text.now) }
{
    let word = name.as_bytes();
    if word.starts_with(b"ref_") || word.starts_with(b"sns_") {
        return Some("no call asks for a state");
    }
    let found = LEFT_OUT.iter().copied().find(|one| one.has(word))?;
    Some(found.said())
}

/// Says that a name is left out on purpose, and why.
pub fn say_left_out(name: &Name, why: &'static str, out: &mut Vec<u8>) -> Result<(), AllocError>
    ensures said { OnOk result (IsSaid out.old.items out.new.items) }
    ensures names { OnOk result (IsSaidFirst (quoted (name_text name.now)) out.old.items out.new.items) }
{
    say_of(
        name,
        &[Word::Text(" is left out on purpose: "), Word::Text(why)],
        out,
    )
}
