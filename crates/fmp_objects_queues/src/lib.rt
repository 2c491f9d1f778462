//! The service calls on data queues and mailboxes (uITRON 4.0, section 4.4). Each does what its definition says and
//! nothing else: a call that answers an error changes nothing. A caller is a task, by its place from 0; an object is
//! named by its number from 1. Whether the caller may make the call at all is tested in `fmp_kernel`. No call takes
//! memory.
#![tactic(auto)]

pub mod data_queues;
pub mod mailboxes;

pub use data_queues::{fsnd_dtq, psnd_dtq, rcv_dtq, snd_dtq, trcv_dtq, tsnd_dtq};
pub use mailboxes::{rcv_mbx, snd_mbx, trcv_mbx};
