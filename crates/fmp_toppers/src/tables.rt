//! Tables of the C: interrupts, shared words and messages.
ghost use Rattle.std.specs.Prelude.{◌≡◌, ◌++◌, ◌+◌, ◌<◌, ◌^◌, map, OnOk};
ghost use Rattle.fmp_tasklang.specs.Views.{body_view};
ghost use Rattle.fmp_toppers.specs.Declarations as spec;
ghost use Rattle.fmp_toppers.specs.Lines.{lines};

use crate::heads::INTERRUPTS_HEAD;
use crate::lines::{append_entry, append_numbered};
use crate::target::Target;
use fmp_base::{InterruptConfig, MessageConfig, Name, SharedWordConfig};
use fmp_export::{append, append_name, append_signed};
use fmp_tasklang::Body;
use std::alloc::AllocError;

/// Appends a macro of a number.
#[tactic(auto, unfolding(crate::specs::Declarations::definition))]
fn append_definition(
    word: &[u8],
    number: usize,
    value: usize,
    out: &mut Vec<u8>,
) -> Result<(), AllocError>
    ensures { OnOk result (out.new.items ≡ out.old.items ++ spec.definition word.now number value) }
{
    append_numbered(word, number, out)?;
    append_numbered(b" ", value, out)?;
    append(b"\n", out)
}

/// Appends the numbers of an interrupt.
#[tactic(auto, unfolding(crate::specs::Declarations::interrupt_numbers))]
fn append_interrupt_numbers(
    interrupt: &InterruptConfig,
    out: &mut Vec<u8>,
) -> Result<(), AllocError>
    ensures { OnOk result (out.new.items ≡ out.old.items ++ spec.interrupt_numbers interrupt.now) }
{
    let number = usize::from(interrupt.number);
    append_definition(b"#define FMP_INTNO_", number, number, out)?;
    append_definition(b"#define FMP_INHNO_", number, number, out)?;
    append_numbered(b"#define FMP_INTPRI_", number, out)?;
    append(b" (-1)\n", out)
}

/// Appends the numbers of all interrupts.
fn append_all_numbers(interrupts: &[InterruptConfig], out: &mut Vec<u8>) -> Result<(), AllocError>
    ensures { OnOk result (out.new.items ≡ out.old.items
        ++ lines spec.interrupt_numbers interrupts.now) }
{
    for interrupt in interrupts {
        append_interrupt_numbers(interrupt, out)?;
    }
    Ok(())
}

/// Appends the table of some interrupts.
#[tactic(auto, unfolding(crate::specs::Declarations::filled_interrupt_table))]
fn append_filled_interrupt_table(
    interrupts: &[InterruptConfig],
    out: &mut Vec<u8>,
) -> Result<(), AllocError>
    ensures { OnOk result (out.new.items ≡ out.old.items ++ spec.filled_interrupt_table interrupts.now) }
{
    append(INTERRUPTS_HEAD, out)?;
    append_all_numbers(interrupts, out)?;
    append(b"\n", out)
}

/// Appends the table of interrupts that the user fills in, if there are any.
pub fn append_interrupt_table(
    interrupts: &[InterruptConfig],
    out: &mut Vec<u8>,
) -> Result<(), AllocError>
    ensures { OnOk result (out.new.items ≡ out.old.items ++ spec.interrupt_table interrupts.now) }
{
    if interrupts.is_empty() {
        Ok(())
    } else {
        append_filled_interrupt_table(interrupts, out)
    }
}

/// Appends the heading of the function of an interrupt handler.
#[tactic(auto, unfolding(crate::specs::Declarations::interrupt_heading))]
fn append_interrupt_heading(number: u8, out: &mut Vec<u8>) -> Result<(), AllocError>
    ensures { OnOk result (out.new.items ≡ out.old.items ++ spec.interrupt_heading number) }
{
    append_numbered(b"void fmp_interrupt_", usize::from(number), out)
}

/// Appends the prototype of the function of an interrupt handler.
#[tactic(auto, unfolding(crate::specs::Declarations::interrupt_prototype))]
fn append_interrupt_prototype(
    interrupt: &InterruptConfig,
    out: &mut Vec<u8>,
) -> Result<(), AllocError>
    ensures { OnOk result (out.new.items ≡ out.old.items ++ spec.interrupt_prototype interrupt.now) }
{
    append_interrupt_heading(interrupt.number, out)?;
    append(b"(void);\n", out)
}

/// Appends the prototypes of the functions of all interrupt handlers.
pub fn append_interrupt_prototypes(
    interrupts: &[InterruptConfig],
    out: &mut Vec<u8>,
) -> Result<(), AllocError>
    ensures { OnOk result (out.new.items ≡ out.old.items
        ++ lines spec.interrupt_prototype interrupts.now) }
{
    for interrupt in interrupts {
        append_interrupt_prototype(interrupt, out)?;
    }
    Ok(())
}

/// Appends the function of an interrupt handler, which runs its body.
#[tactic(auto, unfolding(crate::specs::Declarations::interrupt_function))]
fn append_interrupt_function(
    bodies: &[Body],
    interrupt: &InterruptConfig,
    out: &mut Vec<u8>,
) -> Result<(), AllocError>
    ensures { OnOk result (out.new.items ≡ out.old.items
        ++ spec.interrupt_function (map body_view bodies.now) interrupt.now) }
{
    append(b"\n", out)?;
    append_interrupt_heading(interrupt.number, out)?;
    append(b"(void)\n{\n    ", out)?;
    append_entry(bodies, &interrupt.entry, out)?;
    append(b"(0);\n}\n", out)
}

/// Appends the functions of all interrupt handlers.
pub fn append_interrupt_functions(
    bodies: &[Body],
    interrupts: &[InterruptConfig],
    out: &mut Vec<u8>,
) -> Result<(), AllocError>
    ensures { OnOk result (out.new.items ≡ out.old.items
        ++ lines (spec.interrupt_function (map body_view bodies.now)) interrupts.now) }
{
    for interrupt in interrupts {
        append_interrupt_function(bodies, interrupt, out)?;
    }
    Ok(())
}

/// Appends the end of a row, with the name of what it is for.
#[tactic(auto, unfolding(crate::specs::Declarations::row_end))]
fn append_row_end(name: &Name, out: &mut Vec<u8>) -> Result<(), AllocError>
    ensures { OnOk result (out.new.items ≡ out.old.items ++ spec.row_end name.now) }
{
    append(b", /* ", out)?;
    append_name(name, out)?;
    append(b" */\n", out)
}

/// Appends a shared word with its first value.
#[tactic(auto, unfolding(crate::specs::Declarations::word_row))]
fn append_word_row(word: &SharedWordConfig, out: &mut Vec<u8>) -> Result<(), AllocError>
    ensures { OnOk result (out.new.items ≡ out.old.items ++ spec.word_row word.now) }
{
    append(b"    ", out)?;
    append_signed(word.initial, out)?;
    append_row_end(&word.name, out)
}

/// Appends all shared words.
fn append_word_rows(words: &[SharedWordConfig], out: &mut Vec<u8>) -> Result<(), AllocError>
    ensures { OnOk result (out.new.items ≡ out.old.items ++ lines spec.word_row words.now) }
{
    for word in words {
        append_word_row(word, out)?;
    }
    Ok(())
}

/// Appends the table of some shared words.
#[tactic(auto, unfolding(crate::specs::Declarations::filled_word_table))]
fn append_filled_word_table(words: &[SharedWordConfig], out: &mut Vec<u8>) -> Result<(), AllocError>
    ensures { OnOk result (out.new.items ≡ out.old.items ++ spec.filled_word_table words.now) }
{
    append(b"\nvolatile int32_t fmp_words[FMP_WORDS] = {\n", out)?;
    append_word_rows(words, out)?;
    append(b"};\n", out)
}

/// Appends the table of shared words, if there are any.
pub fn append_word_table(words: &[SharedWordConfig], out: &mut Vec<u8>) -> Result<(), AllocError>
    ensures { OnOk result (out.new.items ≡ out.old.items ++ spec.word_table words.now) }
{
    if words.is_empty() {
        Ok(())
    } else {
        append_filled_word_table(words, out)
    }
}

/// Appends a message with its number.
#[tactic(auto, unfolding(crate::specs::Declarations::message_row))]
fn append_message_row(
    number: usize,
    message: &MessageConfig,
    out: &mut Vec<u8>,
) -> Result<(), AllocError>
    ensures { OnOk result (out.new.items ≡ out.old.items ++ spec.message_row number message.now) }
{
    append_numbered(b"    {{{NULL}, ", usize::from(message.priority), out)?;
    append_numbered(b"}, ", number, out)?;
    append(b"}", out)?;
    append_row_end(&message.name, out)
}

/// Appends all messages.
fn append_message_rows(messages: &[MessageConfig], out: &mut Vec<u8>) -> Result<(), AllocError>
    ensures { OnOk result (out.new.items ≡ out.old.items ++ spec.message_rows 1 messages.now) }
{
    for place in 0..messages.len() {
        append_message_row(place + 1, &messages[place], out)?;
    }
    Ok(())
}

/// Appends the table of some messages.
#[tactic(auto, unfolding(crate::specs::Declarations::filled_message_table))]
fn append_filled_message_table(
    messages: &[MessageConfig],
    out: &mut Vec<u8>,
) -> Result<(), AllocError>
    ensures { OnOk result (out.new.items ≡ out.old.items ++ spec.filled_message_table messages.now) }
{
    append(
        b"\nstruct fmp_message fmp_messages[FMP_MESSAGES] = {\n",
        out,
    )?;
    append_message_rows(messages, out)?;
    append(b"};\n", out)
}

/// Appends the table of messages, if there are any and the kernel has mailboxes.
pub fn append_message_table(
    target: Target,
    messages: &[MessageConfig],
    out: &mut Vec<u8>,
) -> Result<(), AllocError>
    ensures { OnOk result (out.new.items ≡ out.old.items ++ spec.message_table target messages.now) }
{
    match target {
        Target::Fmp3 => Ok(()),
        Target::Fmp1 if messages.is_empty() => Ok(()),
        Target::Fmp1 => append_filled_message_table(messages, out),
    }
}
