//! Why there can't be pages of some options, and why there can't be fewer.
//!
//! Definitions: `Faults`. Numbers and messages are public: a new fault gets a new number.

ghost use Rattle.std.specs.Prelude.{◌≡◌};
ghost use Rattle.atlas_pages.specs.Faults.{pages_fault_number};

use etagere_base::{OptionsFault, RestoreFault};
use thiserror::Error;

/// Why pages can't be made of some options. A call returns the first fault, in this order.
#[derive(Clone, Copy, Debug, PartialEq, Eq, Error)]
pub enum PagesFault {
    /// No atlas can be made of the size and options of a page, for this reason, which is never `Memory`.
    #[error("{0}")]
    Options(OptionsFault),
    /// There may be no page.
    #[error("NoPages")]
    NoPages,
}

impl PagesFault {
    /// The fault's number: that of the fault of an atlas, from 1 to 5, or 7.
    pub fn number(self) -> u32
        ensures { result ≡ pages_fault_number self }
    {
        match self {
            PagesFault::Options(fault) => fault.number(),
            PagesFault::NoPages => 7,
        }
    }
}

/// Why pages can't be restored from a snapshot: a rule that the snapshot breaks. Where it breaks several, any of them is
/// returned.
#[derive(Clone, Copy, Debug, PartialEq, Eq, Error)]
pub enum PagesRestoreFault {
    /// There can't be pages of the options, for this reason.
    #[error("{0}")]
    Options(PagesFault),
    /// There are more pages than the options allow.
    #[error("TooManyPages")]
    TooManyPages,
    /// The page of this number breaks this rule of an atlas, which is never `Memory`.
    #[error("page {0}: {1}")]
    Page(u32, RestoreFault),
    /// The page of this number has another size, other alignments or other columns than the options say.
    #[error("page {0}: OtherFrame")]
    OtherFrame(u32),
    /// There was no memory.
    #[error("Memory")]
    Memory,
}

/// There may be more pages already than were asked for.
#[derive(Clone, Copy, Debug, PartialEq, Eq, Error)]
#[error("FewerPages")]
pub struct FewerPages;
