//! Random tests: random runs are judged by what is expected, and the first that fails is made shorter.
#![tactic(auto)]

mod bench;
mod choices;
mod laws;
mod random_run;
mod seeds;
mod shortening;
mod testing;
mod verdict;

pub use bench::Bench;
pub use choices::{InterruptRate, RunPlan};
pub use laws::{
    a_seed_has_one_run, monitors_go_by_histories, runs_are_judged_as_searches_judge,
    states_are_judged_as_searches_judge,
};
pub use seeds::{Seeds, first_of};
pub use shortening::FailingRun;
pub use testing::{
    FailedTrial, FailingSeed, first_failed_trial, first_failing, random_steps, shortened,
};
pub use verdict::{run_verdict, verdict_at_end};
