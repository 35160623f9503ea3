//! Why a cache has no room for a glyph, and why it can't be restored.
//!
//! Definitions: `Faults`. Numbers and messages are public: a new fault gets a new number.

ghost use Rattle.std.specs.Prelude.{◌≡◌};
ghost use Rattle.glyph_shelf.specs.Faults.{cache_restore_fault_number, glyph_fault_number};

use etagere_shelves::{AllocId, RestoreFault};
use thiserror::Error;

/// Why there is no room for a key.
#[derive(Debug, Drop, PartialEq, Eq, Error)]
pub enum GlyphFault {
    /// The key is new, and an empty atlas of the same size and options has no room for its size. Nothing changed.
    #[error("TooLarge")]
    TooLarge,
    /// The key is new, and there was no memory. These keys were evicted before memory ran out, the least recently used
    /// first; the others are kept.
    #[error("Memory")]
    Memory(Vec<u64>),
    /// The key is new, and there would be no room though all keys went that weren't used in this frame. Nothing changed.
    #[error("FrameFull")]
    FrameFull,
}

impl GlyphFault {
    /// The fault's number, from 1 to 3.
    pub fn number(&self) -> u32
        ensures { result ≡ glyph_fault_number self.now }
    {
        match self {
            GlyphFault::TooLarge => 1,
            GlyphFault::Memory(_) => 2,
            GlyphFault::FrameFull => 3,
        }
    }
}

/// Why a cache can't be restored from a snapshot: a rule that the snapshot breaks. Where it breaks several, any of them
/// is returned.
#[derive(Clone, Copy, Debug, PartialEq, Eq, Error)]
pub enum CacheRestoreFault {
    /// The snapshot of the atlas breaks this rule, which is never `Memory`.
    #[error("{0}")]
    Atlas(RestoreFault),
    /// There was no memory.
    #[error("Memory")]
    Memory,
    /// There may be no key.
    #[error("NoCapacity")]
    NoCapacity,
    /// There are more keys than there may be.
    #[error("TooManyKeys")]
    TooManyKeys,
    /// This key stands twice.
    #[error("KeyTwice")]
    KeyTwice(u64),
    /// A key has this id, under which nothing is allocated, or which another key has too.
    #[error("WrongId")]
    WrongId(AllocId),
    /// Something is allocated for no key.
    #[error("NoKey")]
    NoKey,
}

impl CacheRestoreFault {
    /// The fault's number: that of the fault of an atlas, from 1 to 11, or from 12 to 16.
    pub fn number(self) -> u32
        ensures { result ≡ cache_restore_fault_number self }
    {
        match self {
            CacheRestoreFault::Atlas(fault) => fault.number(),
            CacheRestoreFault::Memory => 11,
            CacheRestoreFault::NoCapacity => 12,
            CacheRestoreFault::TooManyKeys => 13,
            CacheRestoreFault::KeyTwice(_) => 14,
            CacheRestoreFault::WrongId(_) => 15,
            CacheRestoreFault::NoKey => 16,
        }
    }
}
