//! The rows of semaphores, flags, data queues, mailboxes, messages, shared words and spin locks.

ghost use Rattle.std.specs.Prelude.{◌≡◌, ◌++◌, ◌+◌, ◌<◌, length, OnOk};
ghost use Rattle.fmp_base.specs.Names.{name_text};
ghost use Rattle.fmp_image_bytes.specs.Rows.{row, order_bit, order_of, semaphore_form, flag_form, data_queue_form};
ghost use Rattle.fmp_image_bytes.specs.Rows.{mailbox_form, message_form, shared_word_form, spin_lock_form};
ghost use Rattle.fmp_image_bytes.specs.Fields.{byte};

use crate::fault::{LoadFault, TABLE};
use crate::fields::{byte_at, in_range, put_byte, put_short, put_word, short_at, text_at, word_at};
use crate::heads::BodyHead;
use crate::keys::{Key, name_of};
use crate::ranges::{keeps_mailbox_rules, keeps_semaphore_rules};
use crate::rows::{Row, put_name};
use fmp_base::{
    DataQueueConfig, FlagConfig, MailboxConfig, MessageConfig, QueueOrder, SemaphoreConfig,
    SharedWordConfig, SpinLockConfig,
};
use std::alloc::AllocError;

fn order_bit(order: QueueOrder, number: u8) -> u8
    ensures { result ≡ order_bit order number }
{
    match order {
        QueueOrder::Fifo => 0,
        QueueOrder::Priority => number,
    }
}

fn order_of(by_priority: bool) -> QueueOrder
    ensures { result ≡ order_of by_priority }
{
    if by_priority {
        QueueOrder::Priority
    } else {
        QueueOrder::Fifo
    }
}

impl Row for SemaphoreConfig {
    ghost field = { row semaphore_form };

    ghost key_of = { semaphore_form.key_of };

    ghost spelled = { λ s. semaphore_form.layout.spell (semaphore_form.fields s) };

    ghost can_put = { λ x. semaphore_form.layout.fits (semaphore_form.fields x) };

    fn read<'a>(
        version: u16,
        processors: u8,
        heads: &[BodyHead],
        bytes: &'a [u8],
    ) -> Result<(SemaphoreConfig, &'a [u8]), LoadFault> {
        let (text, rest) = text_at(bytes)?;
        let (attributes, rest) = byte_at(rest)?;
        let (initial, rest) = short_at(rest)?;
        let (most, rest) = short_at(rest)?;
        let Some(name) = name_of(version, text) else {
            return Err(TABLE);
        };
        if !keeps_semaphore_rules(attributes, initial, most) {
            return Err(TABLE);
        }
        let semaphore = SemaphoreConfig {
            name,
            order: order_of(attributes == 1),
            initial,
            most,
        };
        Ok((semaphore, rest))
    }

    fn key(&self) -> Key {
        Key::Name(self.name)
    }

    fn put(&self, out: &mut Vec<u8>) -> Result<(), AllocError> {
        put_name(out, &self.name)?;
        put_byte(out, order_bit(self.order, 1))?;
        put_short(out, self.initial)?;
        put_short(out, self.most)?;
        Ok(())
    }
}

fn put_flag_attributes(out: &mut Vec<u8>, flag: &FlagConfig) -> Result<(), AllocError>
    ensures { OnOk result (out.new.items ≡ out.old.items ++ byte.spell (flag_form.fields flag.now).1.0) }
{
    let order = order_bit(flag.order, 1);
    let multiple = if flag.multiple { 2 } else { 0 };
    let clears = if flag.clears { 4 } else { 0 };
    put_byte(out, order + multiple + clears)
}

impl Row for FlagConfig {
    ghost field = { row flag_form };

    ghost key_of = { flag_form.key_of };

    ghost spelled = { λ f. flag_form.layout.spell (flag_form.fields f) };

    ghost can_put = { λ x. flag_form.layout.fits (flag_form.fields x) };

    fn read<'a>(
        version: u16,
        processors: u8,
        heads: &[BodyHead],
        bytes: &'a [u8],
    ) -> Result<(FlagConfig, &'a [u8]), LoadFault> {
        let (text, rest) = text_at(bytes)?;
        let (attributes, rest) = byte_at(rest)?;
        let (initial, rest) = short_at(rest)?;
        let Some(name) = name_of(version, text) else {
            return Err(TABLE);
        };
        if attributes > 7 {
            return Err(TABLE);
        }
        let flag = FlagConfig {
            name,
            order: order_of(attributes % 2 == 1),
            multiple: attributes / 2 % 2 == 1,
            clears: 4 <= attributes,
            initial,
        };
        Ok((flag, rest))
    }

    fn key(&self) -> Key {
        Key::Name(self.name)
    }

    fn put(&self, out: &mut Vec<u8>) -> Result<(), AllocError> {
        put_name(out, &self.name)?;
        put_flag_attributes(out, self)?;
        put_short(out, self.initial)?;
        Ok(())
    }
}

impl Row for DataQueueConfig {
    ghost field = { row data_queue_form };

    ghost key_of = { data_queue_form.key_of };

    ghost spelled = { λ d. data_queue_form.layout.spell (data_queue_form.fields d) };

    ghost can_put = { λ x. data_queue_form.layout.fits (data_queue_form.fields x) };

    fn read<'a>(
        version: u16,
        processors: u8,
        heads: &[BodyHead],
        bytes: &'a [u8],
    ) -> Result<(DataQueueConfig, &'a [u8]), LoadFault> {
        let (text, rest) = text_at(bytes)?;
        let (attributes, rest) = byte_at(rest)?;
        let (capacity, rest) = byte_at(rest)?;
        let Some(name) = name_of(version, text) else {
            return Err(TABLE);
        };
        if attributes > 1 {
            return Err(TABLE);
        }
        let queue = DataQueueConfig {
            name,
            order: order_of(attributes == 1),
            capacity,
        };
        Ok((queue, rest))
    }

    fn key(&self) -> Key {
        Key::Name(self.name)
    }

    fn put(&self, out: &mut Vec<u8>) -> Result<(), AllocError> {
        put_name(out, &self.name)?;
        put_byte(out, order_bit(self.order, 1))?;
        put_byte(out, self.capacity)?;
        Ok(())
    }
}

impl Row for MailboxConfig {
    ghost field = { row mailbox_form };

    ghost key_of = { mailbox_form.key_of };

    ghost spelled = { λ m. mailbox_form.layout.spell (mailbox_form.fields m) };

    ghost can_put = { λ x. mailbox_form.layout.fits (mailbox_form.fields x) };

    fn read<'a>(
        version: u16,
        processors: u8,
        heads: &[BodyHead],
        bytes: &'a [u8],
    ) -> Result<(MailboxConfig, &'a [u8]), LoadFault> {
        let (text, rest) = text_at(bytes)?;
        let (attributes, rest) = byte_at(rest)?;
        let (most, rest) = byte_at(rest)?;
        let Some(name) = name_of(version, text) else {
            return Err(TABLE);
        };
        if !keeps_mailbox_rules(attributes, most) {
            return Err(TABLE);
        }
        let mailbox = MailboxConfig {
            name,
            order: order_of(attributes % 2 == 1),
            message_order: order_of(2 <= attributes),
            most,
        };
        Ok((mailbox, rest))
    }

    fn key(&self) -> Key {
        Key::Name(self.name)
    }

    fn put(&self, out: &mut Vec<u8>) -> Result<(), AllocError> {
        let order = order_bit(self.order, 1);
        let message_order = order_bit(self.message_order, 2);
        put_name(out, &self.name)?;
        put_byte(out, order + message_order)?;
        put_byte(out, self.most)?;
        Ok(())
    }
}

impl Row for MessageConfig {
    ghost field = { row message_form };

    ghost key_of = { message_form.key_of };

    ghost spelled = { λ m. message_form.layout.spell (message_form.fields m) };

    ghost can_put = { λ x. message_form.layout.fits (message_form.fields x) };

    fn read<'a>(
        version: u16,
        processors: u8,
        heads: &[BodyHead],
        bytes: &'a [u8],
    ) -> Result<(MessageConfig, &'a [u8]), LoadFault> {
        let (text, rest) = text_at(bytes)?;
        let (priority, rest) = byte_at(rest)?;
        let Some(name) = name_of(version, text) else {
            return Err(TABLE);
        };
        if !in_range(1, 16, priority as u32) {
            return Err(TABLE);
        }
        Ok((MessageConfig { name, priority }, rest))
    }

    fn key(&self) -> Key {
        Key::Name(self.name)
    }

    fn put(&self, out: &mut Vec<u8>) -> Result<(), AllocError> {
        put_name(out, &self.name)?;
        put_byte(out, self.priority)?;
        Ok(())
    }
}

impl Row for SharedWordConfig {
    ghost field = { row shared_word_form };

    ghost key_of = { shared_word_form.key_of };

    ghost spelled = { λ w. shared_word_form.layout.spell (shared_word_form.fields w) };

    ghost can_put = { λ x. shared_word_form.layout.fits (shared_word_form.fields x) };

    fn read<'a>(
        version: u16,
        processors: u8,
        heads: &[BodyHead],
        bytes: &'a [u8],
    ) -> Result<(SharedWordConfig, &'a [u8]), LoadFault> {
        let (text, rest) = text_at(bytes)?;
        let (initial, rest) = word_at(rest)?;
        let Some(name) = name_of(version, text) else {
            return Err(TABLE);
        };
        Ok((SharedWordConfig { name, initial }, rest))
    }

    fn key(&self) -> Key {
        Key::Name(self.name)
    }

    fn put(&self, out: &mut Vec<u8>) -> Result<(), AllocError> {
        put_name(out, &self.name)?;
        put_word(out, self.initial)?;
        Ok(())
    }
}

impl Row for SpinLockConfig {
    ghost field = { row spin_lock_form };

    ghost key_of = { spin_lock_form.key_of };

    ghost spelled = { λ l. spin_lock_form.layout.spell (spin_lock_form.fields l) };

    ghost can_put = { λ x. spin_lock_form.layout.fits (spin_lock_form.fields x) };

    fn read<'a>(
        version: u16,
        processors: u8,
        heads: &[BodyHead],
        bytes: &'a [u8],
    ) -> Result<(SpinLockConfig, &'a [u8]), LoadFault> {
        let (text, rest) = text_at(bytes)?;
        let Some(name) = name_of(version, text) else {
            return Err(TABLE);
        };
        Ok((SpinLockConfig { name }, rest))
    }

    fn key(&self) -> Key {
        Key::Name(self.name)
    }

    fn put(&self, out: &mut Vec<u8>) -> Result<(), AllocError> {
        put_name(out, &self.name)
    }
}
