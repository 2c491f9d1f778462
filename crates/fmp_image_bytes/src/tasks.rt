//! The rows of tasks, cyclic handlers and interrupts.

ghost use Rattle.std.specs.Prelude.{◌≡◌, ◌++◌, ◌+◌, ◌<◌, length, slice_get, OnOk};
ghost use Rattle.fmp_base.specs.Names.{name_text};
ghost use Rattle.fmp_base.specs.Systems.{body_of};
ghost use Rattle.fmp_image_bytes.specs.Fields.{byte};
ghost use Rattle.fmp_image_bytes.specs.Fields.{in_range};
ghost use Rattle.fmp_image_bytes.specs.Rows.{row, is_task_body, is_handler_body, task_form, cyclic_form};
ghost use Rattle.fmp_image_bytes.specs.Rows.{interrupt_form};

use crate::fault::{LoadFault, TABLE};
use crate::fields::{byte_at, in_range, long_at, put_byte, put_long, put_word, text_at, word_at};
use crate::heads::{BodyHead, BodyKind};
use crate::keys::{Key, name_of};
use crate::ranges::{keeps_cyclic_numbers, keeps_task_numbers};
use crate::rows::{Row, put_bit, put_name};
use fmp_base::{CyclicConfig, Entry, InterruptConfig, TaskConfig};
use std::alloc::AllocError;

fn is_task_body(heads: &[BodyHead], body: u8, stack: u32) -> bool
    ensures { result ≡ is_task_body (slice_get heads.now body) stack }
{
    match heads.get(body as usize) {
        None => false,
        Some(head) => match head.kind {
            BodyKind::Task => 4 * head.depth as u32 <= stack,
            BodyKind::Handler => false,
        },
    }
}

fn is_handler_body(heads: &[BodyHead], body: u8) -> bool
    ensures { result ≡ is_handler_body (slice_get heads.now body) }
{
    match heads.get(body as usize) {
        None => false,
        Some(head) => match head.kind {
            BodyKind::Task => false,
            BodyKind::Handler => true,
        },
    }
}

fn put_entry(out: &mut Vec<u8>, entry: Entry) -> Result<(), AllocError>
    ensures { OnOk result (out.new.items ≡ out.old.items ++ byte.spell (body_of entry)) }
{
    match entry {
        Entry::Body(place) => put_byte(out, place),
        Entry::Named(_) => put_byte(out, 0),
    }
}

fn put_processor(out: &mut Vec<u8>, place: u8) -> Result<(), AllocError>
    requires { place + 1 < 256 }
    ensures { OnOk result (out.new.items ≡ out.old.items ++ byte.spell (place + 1)) }
{
    put_byte(out, place + 1)
}

fn is_processor(processors: u8, processor: u8) -> bool
    ensures { result ≡ in_range 1 processors processor }
{
    in_range(1, processors as u32, processor as u32)
}

impl Row for TaskConfig {
    ghost field = { row task_form };

    ghost key_of = { task_form.key_of };

    ghost spelled = { λ t. task_form.layout.spell (task_form.fields t) };

    ghost can_put = { λ x. task_form.layout.fits (task_form.fields x) };

    fn read<'a>(
        version: u16,
        processors: u8,
        heads: &[BodyHead],
        bytes: &'a [u8],
    ) -> Result<(TaskConfig, &'a [u8]), LoadFault> {
        let (text, rest) = text_at(bytes)?;
        let (attributes, rest) = byte_at(rest)?;
        let (exinf, rest) = word_at(rest)?;
        let (body, rest) = byte_at(rest)?;
        let (priority, rest) = byte_at(rest)?;
        let (stack, rest) = long_at(rest)?;
        let (processor, rest) = byte_at(rest)?;
        let (only, rest) = byte_at(rest)?;
        let Some(name) = name_of(version, text) else {
            return Err(TABLE);
        };
        if !keeps_task_numbers(attributes, priority, stack, only)
            || !is_task_body(heads, body, stack)
            || !is_processor(processors, processor)
        {
            return Err(TABLE);
        }
        let task = TaskConfig {
            name,
            activated: attributes == 2,
            exinf,
            entry: Entry::Body(body),
            priority,
            stack,
            processor: processor - 1,
            only: only == 1,
        };
        Ok((task, rest))
    }

    fn key(&self) -> Key {
        Key::Name(self.name)
    }

    fn put(&self, out: &mut Vec<u8>) -> Result<(), AllocError> {
        put_name(out, &self.name)?;
        put_bit(out, self.activated, 2)?;
        put_word(out, self.exinf)?;
        put_entry(out, self.entry)?;
        put_byte(out, self.priority)?;
        put_long(out, self.stack)?;
        put_processor(out, self.processor)?;
        put_bit(out, self.only, 1)?;
        Ok(())
    }
}

impl Row for CyclicConfig {
    ghost field = { row cyclic_form };

    ghost key_of = { cyclic_form.key_of };

    ghost spelled = { λ c. cyclic_form.layout.spell (cyclic_form.fields c) };

    ghost can_put = { λ x. cyclic_form.layout.fits (cyclic_form.fields x) };

    fn read<'a>(
        version: u16,
        processors: u8,
        heads: &[BodyHead],
        bytes: &'a [u8],
    ) -> Result<(CyclicConfig, &'a [u8]), LoadFault> {
        let (text, rest) = text_at(bytes)?;
        let (attributes, rest) = byte_at(rest)?;
        let (exinf, rest) = word_at(rest)?;
        let (body, rest) = byte_at(rest)?;
        let (period, rest) = long_at(rest)?;
        let (phase, rest) = long_at(rest)?;
        let (processor, rest) = byte_at(rest)?;
        let Some(name) = name_of(version, text) else {
            return Err(TABLE);
        };
        if !keeps_cyclic_numbers(attributes, period, phase)
            || !is_handler_body(heads, body)
            || !is_processor(processors, processor)
        {
            return Err(TABLE);
        }
        let cyclic = CyclicConfig {
            name,
            started: attributes == 2,
            exinf,
            entry: Entry::Body(body),
            period,
            phase,
            processor: processor - 1,
        };
        Ok((cyclic, rest))
    }

    fn key(&self) -> Key {
        Key::Name(self.name)
    }

    fn put(&self, out: &mut Vec<u8>) -> Result<(), AllocError> {
        put_name(out, &self.name)?;
        put_bit(out, self.started, 2)?;
        put_word(out, self.exinf)?;
        put_entry(out, self.entry)?;
        put_long(out, self.period)?;
        put_long(out, self.phase)?;
        put_processor(out, self.processor)?;
        Ok(())
    }
}

impl Row for InterruptConfig {
    ghost field = { row interrupt_form };

    ghost key_of = { interrupt_form.key_of };

    ghost spelled = { λ i. interrupt_form.layout.spell (interrupt_form.fields i) };

    ghost can_put = { λ x. interrupt_form.layout.fits (interrupt_form.fields x) };

    fn read<'a>(
        version: u16,
        processors: u8,
        heads: &[BodyHead],
        bytes: &'a [u8],
    ) -> Result<(InterruptConfig, &'a [u8]), LoadFault> {
        let (number, rest) = byte_at(bytes)?;
        let (body, rest) = byte_at(rest)?;
        let (processor, rest) = byte_at(rest)?;
        if !in_range(1, 32, number as u32)
            || !is_handler_body(heads, body)
            || !is_processor(processors, processor)
        {
            return Err(TABLE);
        }
        let interrupt = InterruptConfig {
            number,
            entry: Entry::Body(body),
            processor: processor - 1,
        };
        Ok((interrupt, rest))
    }

    fn key(&self) -> Key {
        Key::Interrupt(self.number)
    }

    fn put(&self, out: &mut Vec<u8>) -> Result<(), AllocError> {
        put_byte(out, self.number)?;
        put_entry(out, self.entry)?;
        put_processor(out, self.processor)
    }
}
