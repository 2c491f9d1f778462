//! The kernels that files are written for.

/// A generation of the TOPPERS/FMP kernel.
#[derive(Clone, Copy)]
pub enum Target {
    /// TOPPERS/FMP 1: classes as `TCL_1`, times in milliseconds.
    Fmp1,
    /// TOPPERS/FMP3: classes as `CLS_ALL_PRC1`, times in microseconds, no mailboxes.
    Fmp3,
}
