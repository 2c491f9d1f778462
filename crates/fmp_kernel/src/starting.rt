//! Setup: the tasks with TA_ACT start.
ghost use Rattle.std.specs.Prelude.{◌≡◌, ◌+◌, ◌≤◌, ◌<◌, length, vec_len, vec_capacity};
ghost use Rattle.fmp_base.specs.Setups.{started_if, all_started};
ghost use Rattle.fmp_base.specs.States.{unchanged, places_from};
ghost use Rattle.fmp_base.specs.Systems.{task_config};
ghost use Rattle.fmp_tasks.specs.Lines.{AreEmptyWithRoom};
ghost use Rattle.fmp_tasks.specs.Tables.{progress, SameShape};

use fmp_base::Line;
use fmp_tasks::KernelState;
use fmp_tasks::tasks::start;

/// Task t starts if it has TA_ACT.
fn start_if_active(tables: &mut KernelState, caused: &mut Vec<Line>, t: u8)
    requires there { t < length tables.old.system.tasks }
    requires room { vec_len caused.old < vec_capacity caused.old }
    ensures progress { progress tables.new caused.new.items
        ≡ started_if (task_config tables.old.system t).activated tables.old.system
        (progress tables.old caused.old.items) t }
    ensures shape { SameShape tables.old tables.new }
    ensures few { vec_len caused.new ≤ vec_len caused.old + 1 }
    ensures capacity { vec_capacity caused.new ≡ vec_capacity caused.old }
{
    if tables.task_config(t).activated {
        let x = tables.task(t);
        start(tables, caused, t, x);
    }
}

/// Of all tasks, in order of number, those with TA_ACT start.
#[tactic(auto, using(crate::proofs::PlaceLemmas::places_next))]
pub fn start_active(tables: &mut KernelState, caused: &mut Vec<Line>)
    requires caused { AreEmptyWithRoom (length tables.old.system.tasks) caused.old }
    ensures progress { progress tables.new caused.new.items
        ≡ all_started tables.old.system (unchanged tables.old.state)
        (places_from 0 (length tables.old.system.tasks)) }
    ensures shape { SameShape tables.old tables.new }
    ensures few { vec_len caused.new ≤ length tables.old.system.tasks }
    ensures capacity { vec_capacity caused.new ≡ vec_capacity caused.old }
{
    let count = tables.task_count() as u8;
    for t in 0..count {
        start_if_active(tables, caused, t);
    }
}
