//! What a line of a recording says.
use fmp_outside::Given;

/// What a line of a recording says.
#[derive(Clone, Copy)]
pub enum RecordedLine {
    /// This came.
    Came(Given),
    /// The counts began again here, as by `HostedSystem::restart_count`.
    Restart,
}
