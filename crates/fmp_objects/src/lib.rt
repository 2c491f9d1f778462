//! The service calls on semaphores and eventflags (uITRON 4.0, section 4.4), and those on shared words, which are this
//! kernel's own. Each does what its definition says and nothing else: a call that answers an error changes nothing. A
//! caller is a task, by its place from 0; an object is named by its number from 1. Whether the caller may make the call
//! at all is tested in `fmp_kernel`. No call takes memory.
#![tactic(auto)]

pub mod flags;
pub mod semaphores;
pub mod shared_words;
mod walking;

pub use flags::{clr_flg, set_flg, twai_flg, wai_flg};
pub use semaphores::{sig_sem, twai_sem, wai_sem};
pub use shared_words::{ld_shr, st_shr};
