//! Why nothing was run.

use crate::PagesFault;
use thiserror::Error;

/// Why commands were not run on pages.
#[derive(Clone, Copy, Debug, PartialEq, Eq, Error)]
pub enum PageRunFault {
    /// There can't be pages of the options, for this reason.
    #[error("{0}")]
    Options(PagesFault),
    /// There was no memory for the replies.
    #[error("Memory")]
    Memory,
}
