//! How the bars of a task look: eight colours, and a hatch where there are more tasks.
ghost use Rattle.std.specs.Prelude.{◌≡◌, ◌<◌, IfOk};
ghost use Rattle.fmp_timeline.specs.Looks as spec;

use fmp_base::{System, TaskConfig};
use std::alloc::{AllocError, Global};

/// The look of a task's bars.
#[derive(Clone, Copy)]
pub struct BarLook {
    /// The number of its colour, 0 to 7; the even ones are dark.
    pub colour: u8,
    /// The number of its hatch, 1 to 3, or 0 where it has none.
    pub hatch: u8,
}

/// The look of the task that has this many above it: the first eight have no hatch, and each eight after them the next
/// one.
pub fn look_of(above: usize) -> BarLook
    ensures { result ≡ spec.look_of above }
{
    BarLook {
        colour: (above % 8) as u8,
        hatch: (above / 8 % 4) as u8,
    }
}

/// Where the lane of a task stands among all, as a number that is less the higher it stands: by its first processor, by
/// its priority, and by its number.
fn height_of(config: &TaskConfig, place: u8) -> u32
    ensures { result ≡ spec.height_of config.now place }
{
    (u32::from(config.processor) * 256 + u32::from(config.priority)) * 256 + u32::from(place)
}

/// The places of all tasks' lanes, as `height_of` has them.
fn heights(alloc: Global, tasks: &[TaskConfig]) -> Result<Vec<u32>, AllocError> {
    let mut all = Vec::new(alloc);
    for place in 0..tasks.len().min(255) as u8 {
        all.push(height_of(&tasks[usize::from(place)], place))?;
    }
    Ok(all)
}

/// How many of these are less than this one.
fn count_less(heights: &[u32], height: u32) -> usize {
    let mut count: usize = 0;
    for other in heights {
        if *other < height {
            count = count.saturating_add(1);
        }
    }
    count
}

/// The looks of the tasks, by their lanes from above, so that neighbours differ. `AllocError` if memory runs out.
pub fn all_looks(alloc: Global, sys: &System) -> Result<Vec<BarLook>, AllocError> {
    let heights = heights(alloc, &sys.tasks)?;
    let mut all = Vec::new(alloc);
    for height in &heights {
        all.push(look_of(count_less(&heights, *height)))?;
    }
    Ok(all)
}
