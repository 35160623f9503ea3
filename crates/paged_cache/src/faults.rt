//! Why there is no cache of some options, and why a key has no room.
//!
//! Definitions: `Faults`. Numbers and messages are public: a new fault gets a new number.

ghost use Rattle.std.specs.Prelude.{◌≡◌};
ghost use Rattle.paged_cache.specs.Faults.{new_cache_fault_number, placing_fault_number};

use atlas_pages::PagesFault;
use thiserror::Error;

/// Why a cache can't be made of some options.
#[derive(Clone, Copy, Debug, PartialEq, Eq, Error)]
pub enum NewCacheFault {
    /// There can't be pages of the options, for this reason.
    #[error("{0}")]
    Pages(PagesFault),
    /// The options have no fault, and there was no memory.
    #[error("Memory")]
    Memory,
}

impl NewCacheFault {
    /// The fault's number: that of the fault of pages, or 6.
    pub fn number(self) -> u32
        ensures { result ≡ new_cache_fault_number self }
    {
        match self {
            NewCacheFault::Pages(fault) => fault.number(),
            NewCacheFault::Memory => 6,
        }
    }
}

/// Why there is no room for a key.
#[derive(Debug, Drop, PartialEq, Eq, Error)]
pub enum PlacingFault {
    /// The key is new, and its size would have no place, on no page, where nothing is allocated. Nothing changed.
    #[error("TooLarge")]
    TooLarge,
    /// The key is new, and there was no memory. These keys were evicted before memory ran out, the least recently used
    /// first; the others are kept.
    #[error("Memory")]
    Memory(Vec<u64>),
}

impl PlacingFault {
    /// The fault's number, 1 or 2.
    pub fn number(&self) -> u32
        ensures { result ≡ placing_fault_number self.now }
    {
        match self {
            PlacingFault::TooLarge => 1,
            PlacingFault::Memory(_) => 2,
        }
    }
}
