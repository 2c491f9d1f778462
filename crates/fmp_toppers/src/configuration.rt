//! The configuration: a static API for each object.
ghost use Rattle.std.specs.Prelude.{◌≡◌, ◌++◌, map, OnOk};
ghost use Rattle.fmp_base.specs.Systems.{tables_of};
ghost use Rattle.fmp_tasklang.specs.Views.{body_view};
ghost use Rattle.fmp_toppers.specs.Configuration as spec;
ghost use Rattle.fmp_toppers.specs.Lines.{lines};

use crate::attributes::{
    append_attribute, append_flag_attribute, append_mailbox_attribute, append_order,
};
use crate::heads::CONFIGURATION_HEAD;
use crate::lines::{
    append_count_field, append_entry_field, append_numbered, append_signed_field,
    append_time_field, close_api, close_api_by_null, open_api, open_class,
};
use crate::row::ConfigurationRow;
use crate::target::Target;
use fmp_base::{
    CyclicConfig, DataQueueConfig, FlagConfig, InterruptConfig, MailboxConfig, SemaphoreConfig,
    SpinLockConfig, System, TaskConfig,
};
use fmp_export::append;
use fmp_tasklang::Body;
use std::alloc::AllocError;

/// Appends the packet of a task up to the size of its stack.
#[tactic(auto, unfolding(crate::specs::Configuration::task_packet))]
fn append_task_packet(
    bodies: &[Body],
    task: &TaskConfig,
    out: &mut Vec<u8>,
) -> Result<(), AllocError>
    ensures { OnOk result (out.new.items ≡ out.old.items
        ++ spec.task_packet (map body_view bodies.now) task.now) }
{
    append_attribute(task.activated, b"TA_ACT", out)?;
    append_signed_field(task.exinf, out)?;
    append_entry_field(bodies, &task.entry, out)?;
    append_count_field(usize::from(task.priority), out)?;
    append_count_field(task.stack as usize, out)?;
    append(b" + FMP_STACK", out)
}

impl ConfigurationRow for TaskConfig {
    ghost line_of = { spec.task_line };

    #[tactic(auto, unfolding(crate::specs::Configuration::task_line))]
    fn append_line(
        &self,
        target: Target,
        bodies: &[Body],
        out: &mut Vec<u8>,
    ) -> Result<(), AllocError> {
        open_class(target, self.only, self.processor, out)?;
        open_api(b"CRE_TSK", &self.name, out)?;
        append_task_packet(bodies, self, out)?;
        close_api_by_null(out)
    }
}

impl ConfigurationRow for SemaphoreConfig {
    ghost line_of = { spec.semaphore_line };

    #[tactic(auto, unfolding(crate::specs::Configuration::semaphore_line))]
    fn append_line(
        &self,
        target: Target,
        bodies: &[Body],
        out: &mut Vec<u8>,
    ) -> Result<(), AllocError> {
        open_class(target, false, 0, out)?;
        open_api(b"CRE_SEM", &self.name, out)?;
        append_order(self.order, out)?;
        append_count_field(usize::from(self.initial), out)?;
        append_count_field(usize::from(self.most), out)?;
        close_api(out)
    }
}

impl ConfigurationRow for FlagConfig {
    ghost line_of = { spec.flag_line };

    #[tactic(auto, unfolding(crate::specs::Configuration::flag_line))]
    fn append_line(
        &self,
        target: Target,
        bodies: &[Body],
        out: &mut Vec<u8>,
    ) -> Result<(), AllocError> {
        open_class(target, false, 0, out)?;
        open_api(b"CRE_FLG", &self.name, out)?;
        append_flag_attribute(self, out)?;
        append_count_field(usize::from(self.initial), out)?;
        close_api(out)
    }
}

impl ConfigurationRow for DataQueueConfig {
    ghost line_of = { spec.data_queue_line };

    #[tactic(auto, unfolding(crate::specs::Configuration::data_queue_line))]
    fn append_line(
        &self,
        target: Target,
        bodies: &[Body],
        out: &mut Vec<u8>,
    ) -> Result<(), AllocError> {
        open_class(target, false, 0, out)?;
        open_api(b"CRE_DTQ", &self.name, out)?;
        append_order(self.order, out)?;
        append_count_field(usize::from(self.capacity), out)?;
        close_api_by_null(out)
    }
}

impl ConfigurationRow for MailboxConfig {
    ghost line_of = { spec.mailbox_line };

    #[tactic(auto, unfolding(crate::specs::Configuration::mailbox_line))]
    fn append_line(
        &self,
        target: Target,
        bodies: &[Body],
        out: &mut Vec<u8>,
    ) -> Result<(), AllocError> {
        open_class(target, false, 0, out)?;
        open_api(b"CRE_MBX", &self.name, out)?;
        append_mailbox_attribute(self, out)?;
        append_count_field(usize::from(self.most), out)?;
        close_api_by_null(out)
    }
}

impl ConfigurationRow for SpinLockConfig {
    ghost line_of = { spec.spin_lock_line };

    #[tactic(auto, unfolding(crate::specs::Configuration::spin_lock_line))]
    fn append_line(
        &self,
        target: Target,
        bodies: &[Body],
        out: &mut Vec<u8>,
    ) -> Result<(), AllocError> {
        open_class(target, false, 0, out)?;
        open_api(b"CRE_SPN", &self.name, out)?;
        append(b"TA_NULL", out)?;
        close_api(out)
    }
}

/// Appends the extended information of a cyclic handler, and its function.
#[tactic(auto, unfolding(crate::specs::Configuration::plain_handler))]
fn append_plain_handler(
    bodies: &[Body],
    cyclic: &CyclicConfig,
    out: &mut Vec<u8>,
) -> Result<(), AllocError>
    ensures { OnOk result (out.new.items ≡ out.old.items
        ++ spec.plain_handler (map body_view bodies.now) cyclic.now) }
{
    append_signed_field(cyclic.exinf, out)?;
    append_entry_field(bodies, &cyclic.entry, out)
}

/// Appends the same as the notification of FMP3.
#[tactic(auto, unfolding(crate::specs::Configuration::notified_handler))]
fn append_notified_handler(
    bodies: &[Body],
    cyclic: &CyclicConfig,
    out: &mut Vec<u8>,
) -> Result<(), AllocError>
    ensures { OnOk result (out.new.items ≡ out.old.items
        ++ spec.notified_handler (map body_view bodies.now) cyclic.now) }
{
    append(b", { TNFY_HANDLER", out)?;
    append_plain_handler(bodies, cyclic, out)?;
    append(b" }", out)
}

/// Appends the handler of a cyclic handler.
fn append_handler_fields(
    target: Target,
    bodies: &[Body],
    cyclic: &CyclicConfig,
    out: &mut Vec<u8>,
) -> Result<(), AllocError>
    ensures { OnOk result (out.new.items ≡ out.old.items
        ++ spec.handler_fields target (map body_view bodies.now) cyclic.now) }
{
    match target {
        Target::Fmp1 => append_plain_handler(bodies, cyclic, out),
        Target::Fmp3 => append_notified_handler(bodies, cyclic, out),
    }
}

/// Appends the packet of a cyclic handler.
#[tactic(auto, unfolding(crate::specs::Configuration::cyclic_packet))]
fn append_cyclic_packet(
    target: Target,
    bodies: &[Body],
    cyclic: &CyclicConfig,
    out: &mut Vec<u8>,
) -> Result<(), AllocError>
    ensures { OnOk result (out.new.items ≡ out.old.items
        ++ spec.cyclic_packet target (map body_view bodies.now) cyclic.now) }
{
    append_attribute(cyclic.started, b"TA_STA", out)?;
    append_handler_fields(target, bodies, cyclic, out)?;
    append_time_field(cyclic.period, out)?;
    append_time_field(cyclic.phase, out)
}

impl ConfigurationRow for CyclicConfig {
    ghost line_of = { spec.cyclic_line };

    #[tactic(auto, unfolding(crate::specs::Configuration::cyclic_line))]
    fn append_line(
        &self,
        target: Target,
        bodies: &[Body],
        out: &mut Vec<u8>,
    ) -> Result<(), AllocError> {
        open_class(target, true, self.processor, out)?;
        open_api(b"CRE_CYC", &self.name, out)?;
        append_cyclic_packet(target, bodies, self, out)?;
        close_api(out)
    }
}

/// Appends the static APIs of an interrupt.
#[tactic(auto, unfolding(crate::specs::Configuration::interrupt_apis))]
fn append_interrupt_apis(number: usize, out: &mut Vec<u8>) -> Result<(), AllocError>
    ensures { OnOk result (out.new.items ≡ out.old.items ++ spec.interrupt_apis number) }
{
    append_numbered(b"CFG_INT(FMP_INTNO_", number, out)?;
    append_numbered(b", { TA_ENAINT, FMP_INTPRI_", number, out)?;
    append_numbered(b" }); DEF_INH(FMP_INHNO_", number, out)?;
    append_numbered(b", { TA_NULL, fmp_interrupt_", number, out)?;
    close_api(out)
}

impl ConfigurationRow for InterruptConfig {
    ghost line_of = { spec.interrupt_line };

    #[tactic(auto, unfolding(crate::specs::Configuration::interrupt_line))]
    fn append_line(
        &self,
        target: Target,
        bodies: &[Body],
        out: &mut Vec<u8>,
    ) -> Result<(), AllocError> {
        open_class(target, true, self.processor, out)?;
        append_interrupt_apis(usize::from(self.number), out)
    }
}

/// Appends the lines of a table.
fn append_lines<T: ConfigurationRow>(
    target: Target,
    bodies: &[Body],
    rows: &[T],
    out: &mut Vec<u8>,
) -> Result<(), AllocError>
    ensures { OnOk result (out.new.items ≡ out.old.items
        ++ lines (T.line_of target (map body_view bodies.now)) rows.now) }
{
    for place in 0..rows.len() {
        rows[place].append_line(target, bodies, out)?;
    }
    Ok(())
}

/// Appends the objects that tasks call.
#[tactic(auto, unfolding(crate::specs::Configuration::object_lines))]
fn append_objects(
    target: Target,
    system: &System,
    bodies: &[Body],
    out: &mut Vec<u8>,
) -> Result<(), AllocError>
    ensures { OnOk result (out.new.items ≡ out.old.items
        ++ spec.object_lines target (map body_view bodies.now) (tables_of system.now)) }
{
    append_lines(target, bodies, &system.semaphores, out)?;
    append_lines(target, bodies, &system.flags, out)?;
    append_lines(target, bodies, &system.data_queues, out)?;
    append_lines(target, bodies, &system.mailboxes, out)?;
    append_lines(target, bodies, &system.spin_locks, out)
}

/// Appends the configuration.
#[tactic(auto, unfolding(crate::specs::Configuration::configuration_file))]
pub fn append_configuration(
    target: Target,
    system: &System,
    bodies: &[Body],
    out: &mut Vec<u8>,
) -> Result<(), AllocError>
    ensures { OnOk result (out.new.items ≡ out.old.items
        ++ spec.configuration_file target (tables_of system.now) (map body_view bodies.now)) }
{
    append(CONFIGURATION_HEAD, out)?;
    append_lines(target, bodies, &system.tasks, out)?;
    append_objects(target, system, bodies, out)?;
    append_lines(target, bodies, &system.cyclics, out)?;
    append_lines(target, bodies, &system.interrupts, out)
}
