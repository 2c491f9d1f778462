//! Attributes of objects.
ghost use Rattle.std.specs.Prelude.{◌≡◌, ◌++◌, codes, OnOk};
ghost use Rattle.fmp_toppers.specs.Configuration as configuration;
ghost use Rattle.fmp_toppers.specs.Lines as spec;

use fmp_base::{FlagConfig, MailboxConfig, QueueOrder};
use fmp_export::append;
use std::alloc::AllocError;

/// Appends the first attribute.
pub fn append_attribute(set: bool, word: &[u8], out: &mut Vec<u8>) -> Result<(), AllocError>
    ensures { OnOk result (out.new.items ≡ out.old.items ++ spec.attribute set word.now) }
{
    if set {
        append(word, out)
    } else {
        append(b"TA_NULL", out)
    }
}

/// Appends a further attribute.
fn append_further(set: bool, word: &[u8], out: &mut Vec<u8>) -> Result<(), AllocError>
    ensures { OnOk result (out.new.items ≡ out.old.items ++ spec.further set word.now) }
{
    if set { append(word, out) } else { Ok(()) }
}

/// Whether a queue is in order of priority.
fn is_by_priority(order: QueueOrder) -> bool
    ensures { result ≡ spec.is_by_priority order }
{
    matches!(order, QueueOrder::Priority)
}

/// Appends the attribute of an object whose tasks wait in this order.
pub fn append_order(order: QueueOrder, out: &mut Vec<u8>) -> Result<(), AllocError>
    ensures { OnOk result (out.new.items ≡ out.old.items
        ++ spec.attribute (spec.is_by_priority order) (codes "TA_TPRI")) }
{
    append_attribute(is_by_priority(order), b"TA_TPRI", out)
}

/// Appends the attribute of an eventflag.
#[tactic(auto, unfolding(crate::specs::Configuration::flag_attribute))]
pub fn append_flag_attribute(flag: &FlagConfig, out: &mut Vec<u8>) -> Result<(), AllocError>
    ensures { OnOk result (out.new.items ≡ out.old.items ++ configuration.flag_attribute flag.now) }
{
    append_order(flag.order, out)?;
    append_further(flag.multiple, b" | TA_WMUL", out)?;
    append_further(flag.clears, b" | TA_CLR", out)
}

/// Appends the attribute of a mailbox.
#[tactic(auto, unfolding(crate::specs::Configuration::mailbox_attribute))]
pub fn append_mailbox_attribute(
    mailbox: &MailboxConfig,
    out: &mut Vec<u8>,
) -> Result<(), AllocError>
    ensures { OnOk result (out.new.items ≡ out.old.items ++ configuration.mailbox_attribute mailbox.now) }
{
    append_order(mailbox.order, out)?;
    append_further(is_by_priority(mailbox.message_order), b" | TA_MPRI", out)
}
