//! The kernel for C programs: a system that C holds by a handle, with a call for each event and for what is read of it.
//! Each function for C is a thin one over `fmp_foreign`, and states its clauses again.
#![tactic(auto)]

mod events;
mod handle;
mod lines;
mod looks;
mod machine;
mod making;
mod names;
mod recorded;
mod records;
mod restarting;
mod services;
mod states;

pub use events::{fmp_call, fmp_end, fmp_fault, fmp_int, fmp_tick};
pub use handle::FmpSystem;
pub use lines::FmpLine;
pub use looks::{
    FmpCounts, fmp_acting, fmp_body, fmp_count, fmp_counts, fmp_detail, fmp_line, fmp_name,
    fmp_print, fmp_state,
};
pub use machine::Machine;
pub use making::{fmp_free, fmp_new, fmp_new_checked};
pub use recorded::{fmp_next, fmp_recorded};
pub use records::{FmpActing, FmpOutcome, FmpRefusal};
pub use restarting::fmp_restart_count;
pub use services::{fmp_service_arity, fmp_service_name};
pub use states::FmpState;
