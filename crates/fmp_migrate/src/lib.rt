//! The service calls that manage tasks: activation and termination, priorities, migration, sleep, suspension and the
//! rotation of ready queues (uITRON 4.0, sections 4.1, 4.2 and 4.8; FMP kernel, task management).
//!
//! Each call is a function of its name. It reads its arguments. It refuses with the code of the first test that fails,
//! and then nothing has changed; or else it changes the tables. Whether the call may be made where it is made is tested
//! before, and not here. Calls whose case for handlers differs have two functions.
#![tactic(auto)]

pub mod activation;
pub mod migration;
pub mod priority;
pub mod rotation;
pub mod sleep;
pub mod suspension;
mod targets;
pub mod termination;

pub use activation::{act_tsk, can_act, iact_tsk};
pub use migration::{mact_tsk, mig_tsk};
pub use priority::{chg_pri, get_pri};
pub use rotation::{get_tid, irot_rdq, mrot_rdq, rot_rdq};
pub use sleep::{can_wup, dly_tsk, iwup_tsk, rel_wai, slp_tsk, tslp_tsk, wup_tsk};
pub use suspension::{rsm_tsk, sus_tsk};
pub use termination::{end_itself, ext_tsk, ter_tsk};
