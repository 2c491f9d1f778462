//! Whether the numbers of a row are in range, for each kind of row that has such numbers.
ghost use Rattle.std.specs.Prelude.{◌≡◌};
ghost use Rattle.fmp_image_bytes.specs.Ranges.{cyclic_numbers, is_start_bit, mailbox_rules, semaphore_rules};
ghost use Rattle.fmp_image_bytes.specs.Ranges.{task_numbers};

use crate::fields::in_range;

fn is_start_bit(attributes: u8) -> bool
    ensures { result ≡ is_start_bit attributes }
{
    attributes == 0 || attributes == 2
}

/// Whether a task may have these attributes, this priority, and a stack of this many bytes; `only` is 1 if its
/// processor is the only one that it may run on, else 0.
pub fn keeps_task_numbers(attributes: u8, priority: u8, stack: u32, only: u8) -> bool
    ensures { result ≡ task_numbers attributes priority stack only }
{
    is_start_bit(attributes)
        && in_range(1, 16, priority as u32)
        && in_range(1, 65536, stack)
        && only <= 1
}

/// Whether a cyclic handler may have these attributes, this period and this phase, both in ticks.
pub fn keeps_cyclic_numbers(attributes: u8, period: u32, phase: u32) -> bool
    ensures { result ≡ cyclic_numbers attributes period phase }
{
    is_start_bit(attributes) && in_range(1, 1_073_741_824, period) && phase <= 1_073_741_824
}

/// Whether a semaphore may have these attributes, this initial count and this greatest count.
pub fn keeps_semaphore_rules(attributes: u8, initial: u16, most: u16) -> bool
    ensures { result ≡ semaphore_rules attributes initial most }
{
    attributes <= 1 && 1 <= most && initial <= most
}

/// Whether a mailbox may have these attributes and this greatest priority of its messages.
pub fn keeps_mailbox_rules(attributes: u8, most: u8) -> bool
    ensures { result ≡ mailbox_rules attributes most }
{
    attributes <= 3 && in_range(1, 16, most as u32)
}
