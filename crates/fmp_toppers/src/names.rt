//! Names of objects that TOPPERS' headers have.
ghost use Rattle.std.specs.Prelude.{◌≡◌, ◌++◌, map, nat_eq, OnOk};
ghost use Rattle.std.specs.List.{list_any, starts_with};
ghost use Rattle.fmp_base.specs.Systems.{tables_of};
ghost use Rattle.fmp_toppers.specs.Names as spec;

use fmp_base::{Name, System};
use fmp_export::is_among;
use fmp_scopes::HasName;
use std::alloc::AllocError;

/// Types, macros and functions of the headers: the configurator makes each object a macro, so that it cannot have such
/// a name.
pub const KNOWN: [&str; 81] = [
    "ALMHDR",
    "ATR",
    "CYCHDR",
    "ER",
    "ERCD",
    "ER_BOOL",
    "ER_ID",
    "ER_UINT",
    "EXCHDR",
    "EXCNO",
    "EXINF",
    "E_BOVR",
    "E_CLS",
    "E_COMM",
    "E_DLT",
    "E_MACV",
    "E_NOEXS",
    "E_NOID",
    "E_NOMEM",
    "E_NORES",
    "E_OACV",
    "E_RASTER",
    "E_WBLK",
    "FALSE",
    "FLGPTN",
    "FN",
    "FP",
    "HRTCNT",
    "ID",
    "INHNO",
    "INIRTN",
    "INTHDR",
    "INTNO",
    "ISR",
    "Inline",
    "LOG_ALERT",
    "LOG_CRIT",
    "LOG_DEBUG",
    "LOG_EMERG",
    "LOG_ERROR",
    "LOG_INFO",
    "LOG_NOTICE",
    "LOG_WARNING",
    "MERCD",
    "MODE",
    "MPF_T",
    "OVRHDR",
    "PRC1",
    "PRC2",
    "PRC3",
    "PRC4",
    "PRC5",
    "PRC6",
    "PRC7",
    "PRC8",
    "PRCTIM",
    "PRI",
    "RELTIM",
    "SERCD",
    "SIZE",
    "STAT",
    "STK_T",
    "SYSLOG",
    "SYSTIM",
    "SYSUTM",
    "TASK",
    "TERRTN",
    "TEXPTN",
    "TEXRTN",
    "TMEHDR",
    "TMO",
    "TNFY_HANDLER",
    "TRUE",
    "TSK_NONE",
    "T_MSG",
    "T_MSG_PRI",
    "assert",
    "ext_ker",
    "sns_ctx",
    "syslog",
    "throw",
];

/// How other names of the headers begin: attributes, classes, limits, counts and states.
pub const FAMILIES: [&str; 20] = [
    "CLS_", "SVC_", "TALM_", "TA_", "TBIT_", "TCL_", "TCYC_", "TIPM_", "TKERNEL_", "TMAX_",
    "TMIN_", "TMO_", "TNUM_", "TOPPERS_", "TOVR_", "TPRI_", "TSPN_", "TTEX_", "TTS_", "TTW_",
];

/// Whether a name begins with one of these words.
fn begins_with_any(words: &[&str], name: &[u8]) -> bool
    ensures { result ≡ list_any (λ word. starts_with nat_eq name.now word.now) words.now }
{
    for word in words {
        if name.starts_with(word.as_bytes()) {
            return true;
        }
    }
    false
}

/// Whether the headers have a name.
fn is_known(name: &[u8]) -> bool
    ensures { result ≡ spec.is_known name.now }
{
    is_among(&KNOWN, name) || begins_with_any(&FAMILIES, name)
}

/// The first of these names that the headers have.
fn first_known<T: HasName>(rows: &[T]) -> Option<Name>
    ensures { result ≡ spec.first_known (map T.name_of rows.now) }
{
    for place in 0..rows.len() {
        let name = rows[place].name();
        if is_known(name.as_bytes()) {
            return Some(*name);
        }
    }
    None
}

/// The first name, if there is one; else the second.
fn first_of(first: Option<Name>, second: Option<Name>) -> Option<Name>
    ensures { result ≡ spec.first_of first second }
{
    match first {
        Some(name) => Some(name),
        None => second,
    }
}

/// The first object that the configurator knows and of which the headers have the name.
#[tactic(auto, unfolding(crate::specs::Names::known_configured))]
fn known_configured(system: &System) -> Option<Name>
    ensures { result ≡ spec.known_configured (tables_of system.now) }
{
    let tasks = first_known(&system.tasks);
    let semaphores = first_known(&system.semaphores);
    let flags = first_known(&system.flags);
    let data_queues = first_known(&system.data_queues);
    let mailboxes = first_known(&system.mailboxes);
    first_of(
        tasks,
        first_of(
            semaphores,
            first_of(flags, first_of(data_queues, mailboxes)),
        ),
    )
}

/// The first other object of which the headers have the name.
#[tactic(auto, unfolding(crate::specs::Names::known_other))]
fn known_other(system: &System) -> Option<Name>
    ensures { result ≡ spec.known_other (tables_of system.now) }
{
    let messages = first_known(&system.messages);
    let shared_words = first_known(&system.shared_words);
    let spin_locks = first_known(&system.spin_locks);
    let cyclics = first_known(&system.cyclics);
    first_of(
        messages,
        first_of(shared_words, first_of(spin_locks, cyclics)),
    )
}

/// The first object of which the headers have the name.
pub fn known_object(system: &System) -> Option<Name>
    ensures { result ≡ spec.known_object (tables_of system.now) }
{
    first_of(known_configured(system), known_other(system))
}

/// Appends those of these names that the headers have.
fn append_known<T: HasName>(rows: &[T], out: &mut Vec<Name>) -> Result<(), AllocError>
    ensures { OnOk result (out.new.items ≡ out.old.items ++ spec.known (map T.name_of rows.now)) }
{
    for place in 0..rows.len() {
        let name = rows[place].name();
        if is_known(name.as_bytes()) {
            out.push(*name)?;
        }
    }
    Ok(())
}

/// Appends the names that the headers have of the objects that the configurator knows.
#[tactic(auto, unfolding(crate::specs::Names::known_names_configured))]
fn append_known_configured(system: &System, out: &mut Vec<Name>) -> Result<(), AllocError>
    ensures { OnOk result (out.new.items ≡ out.old.items ++ spec.known_names_configured (tables_of system.now)) }
{
    append_known(&system.tasks, out)?;
    append_known(&system.semaphores, out)?;
    append_known(&system.flags, out)?;
    append_known(&system.data_queues, out)?;
    append_known(&system.mailboxes, out)
}

/// Appends the names that the headers have of the other objects.
#[tactic(auto, unfolding(crate::specs::Names::known_names_other))]
fn append_known_other(system: &System, out: &mut Vec<Name>) -> Result<(), AllocError>
    ensures { OnOk result (out.new.items ≡ out.old.items ++ spec.known_names_other (tables_of system.now)) }
{
    append_known(&system.messages, out)?;
    append_known(&system.shared_words, out)?;
    append_known(&system.spin_locks, out)?;
    append_known(&system.cyclics, out)
}

/// Appends the names of objects that the headers have.
pub fn append_known_names(system: &System, out: &mut Vec<Name>) -> Result<(), AllocError>
    ensures { OnOk result (out.new.items ≡ out.old.items ++ spec.known_names (tables_of system.now)) }
{
    append_known_configured(system, out)?;
    append_known_other(system, out)
}
