//! Bodies that run elsewhere, checked: what each hands in must be what the text of an image does next.
#![tactic(auto)]

mod bodies;
mod checked;
mod following;

pub use bodies::ImageBody;
pub use checked::Checked;
pub use following::{Objection, consult, follow, restart_counts};
